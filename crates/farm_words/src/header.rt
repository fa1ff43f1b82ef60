//! The line of a message's header.

use crate::names::{application_name, push_named};
use dia_base::codes::CREDIT_CONTROL_COMMAND;
use dia_message::Header;
use std::alloc::AllocError;

/// Adds the line of a header: command, flags, application and identifiers.
pub fn push_header(out: &mut String, header: &Header) -> Result<(), AllocError> {
    push_command(out, header)?;
    push_flags(out, header)?;
    out.push_str(", application ")?;
    let application = header.application;
    push_named(out, i64::from(application), application_name(application))?;
    push_identifiers(out, header)
}

/// Adds the command and its direction.
fn push_command(out: &mut String, header: &Header) -> Result<(), AllocError> {
    let command = header.command;
    match (command, header.request) {
        (CREDIT_CONTROL_COMMAND, true) => out.push_str("Credit-Control-Request (CCR)"),
        (CREDIT_CONTROL_COMMAND, false) => out.push_str("Credit-Control-Answer (CCA)"),
        (_, true) => write!(out, "command {command} request"),
        (_, false) => write!(out, "command {command} answer"),
    }
}

fn push_flags(out: &mut String, header: &Header) -> Result<(), AllocError> {
    out.push_str(", flags ")?;
    out.push(letter('R', header.request))?;
    out.push(letter('P', header.proxiable))?;
    out.push(letter('E', header.error))?;
    out.push(letter('T', header.resent))?;
    Ok(())
}

fn letter(letter: char, set: bool) -> char {
    if set { letter } else { '-' }
}

fn push_identifiers(out: &mut String, header: &Header) -> Result<(), AllocError> {
    let hop = header.hop;
    let end = header.end;
    writeln!(out, ", Hop-by-Hop 0x{hop:08x}, End-to-End 0x{end:08x}")
}
