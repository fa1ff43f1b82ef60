//! Messages in a few words.

use dia_avp::{AvpFault, RawAvp, ViewWire, Wire, u32_of};
use dia_base::codes::{CC_REQUEST_TYPE, CREDIT_CONTROL_COMMAND, RESULT_CODE};
use dia_message::{Header, Message};
use std::alloc::{AllocError, Global};

/// What a message is, for its colour.
#[derive(Clone, Copy)]
pub enum MessageKind {
    Request,
    Answer,
    /// An answer with the flag E.
    Refusal,
}

/// A message as the picture tells it.
#[derive(Drop)]
pub struct Label {
    pub kind: MessageKind,
    pub words: String,
}

/// The name of a message, the CC-Request-Type of a Credit-Control message in words, its Hop-by-Hop Identifier, the flag T
/// where it is set, and the Result-Code of an answer in words, where it has one.
pub fn label_of(alloc: Global, message: &Message) -> Result<Label, AllocError> {
    let header = &message.header;
    let avps = avps_of(alloc, message)?;
    let mut words = String::new(alloc);
    push_name(&mut words, header)?;
    push_request_type(&mut words, header, &avps)?;
    let hop = header.hop;
    write!(words, " 0x{hop:x}")?;
    if header.resent {
        words.push_str(" T")?;
    }
    push_result(&mut words, header, &avps)?;
    Ok(Label {
        kind: kind_of(header),
        words,
    })
}

/// The AVPs of a message; none where its body is no list of AVPs.
fn avps_of(alloc: Global, message: &Message) -> Result<Vec<RawAvp>, AllocError> {
    match ViewWire::split(alloc, &message.body) {
        Ok(avps) => Ok(avps),
        Err(AvpFault::OutOfMemory) => Err(AllocError),
        Err(_) => Ok(Vec::new(alloc)),
    }
}

/// The number in the first AVP with this code, where there is one and it is four octets long.
fn number_at(avps: &[RawAvp], code: u32) -> Option<u32> {
    let avp = avps.iter().find(|avp| avp.code == code && avp.vendor == 0)?;
    u32_of(avp)
}

fn kind_of(header: &Header) -> MessageKind {
    match (header.request, header.error) {
        (true, _) => MessageKind::Request,
        (false, false) => MessageKind::Answer,
        (false, true) => MessageKind::Refusal,
    }
}

fn push_name(out: &mut String, header: &Header) -> Result<(), AllocError> {
    let command = header.command;
    match (command, header.request) {
        (CREDIT_CONTROL_COMMAND, true) => out.push_str("CCR"),
        (CREDIT_CONTROL_COMMAND, false) => out.push_str("CCA"),
        (_, true) => write!(out, "{command} request"),
        (_, false) => write!(out, "{command} answer"),
    }
}

/// Adds the first CC-Request-Type of a Credit-Control message in words, where it has one of the four.
fn push_request_type(out: &mut String, header: &Header, avps: &[RawAvp]) -> Result<(), AllocError> {
    if header.command != CREDIT_CONTROL_COMMAND {
        return Ok(());
    }
    match number_at(avps, CC_REQUEST_TYPE).and_then(|number| request_type_name(number)) {
        Some(name) => write!(out, " {name}"),
        None => Ok(()),
    }
}

/// The types of requests (RFC 8506, section 8.3).
fn request_type_name(number: u32) -> Option<&'static str> {
    match number {
        1 => Some("INITIAL"),
        2 => Some("UPDATE"),
        3 => Some("TERMINATION"),
        4 => Some("EVENT"),
        _ => None,
    }
}

/// Adds the first Result-Code of an answer.
fn push_result(out: &mut String, header: &Header, avps: &[RawAvp]) -> Result<(), AllocError> {
    if header.request {
        return Ok(());
    }
    match number_at(avps, RESULT_CODE) {
        Some(number) => push_result_name(out, number),
        None => Ok(()),
    }
}

/// Adds the name of a Result-Code without the `DIAMETER_` before it, or its number where no node of the
/// farm answers with it (RFC 6733, section 7.1; RFC 8506, section 9).
fn push_result_name(out: &mut String, number: u32) -> Result<(), AllocError> {
    match result_name(number) {
        Some(name) => write!(out, " {name}"),
        None => write!(out, " {number}"),
    }
}

fn result_name(number: u32) -> Option<&'static str> {
    match number {
        2001 => Some("SUCCESS"),
        3001 => Some("COMMAND_UNSUPPORTED"),
        3002 => Some("UNABLE_TO_DELIVER"),
        3003 => Some("REALM_NOT_SERVED"),
        3004 => Some("TOO_BUSY"),
        3005 => Some("LOOP_DETECTED"),
        3007 => Some("APPLICATION_UNSUPPORTED"),
        4012 => Some("CREDIT_LIMIT_REACHED"),
        5001 => Some("AVP_UNSUPPORTED"),
        5002 => Some("UNKNOWN_SESSION_ID"),
        5004 => Some("INVALID_AVP_VALUE"),
        5005 => Some("MISSING_AVP"),
        5009 => Some("AVP_OCCURS_TOO_MANY_TIMES"),
        5010 => Some("NO_COMMON_APPLICATION"),
        5012 => Some("UNABLE_TO_COMPLY"),
        5014 => Some("INVALID_AVP_LENGTH"),
        5030 => Some("USER_UNKNOWN"),
        5031 => Some("RATING_FAILED"),
        _ => None,
    }
}
