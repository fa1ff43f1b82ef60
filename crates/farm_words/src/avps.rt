//! The lines of AVPs, with the members of a group below it.

use crate::values::{push_hex, push_value};
use dia_avp::layout::{MANDATORY, VENDOR, has_vendor, is_mandatory};
use dia_avp::{AvpFault, DEPTH_LIMIT, Octets, RawAvp, ViewWire, Wire};
use dia_base::Code;
use dia_dict::{Kind, kind_of, name_of};
use std::alloc::{AllocError, Global};

/// The flag P, kept for security from end to end (RFC 6733, section 4.1).
const PROTECTED: u8 = 0x20;

/// Adds a line for each AVP that the octets begin with, and one for what is left of them. The groups
/// among them are opened for so many levels.
pub fn push_avps(
    alloc: Global,
    out: &mut String,
    octets: &Octets,
    levels: u32,
) -> Result<(), AllocError> {
    let (avps, rest) = front_of(alloc, octets)?;
    for avp in &avps {
        push_indent(out, levels)?;
        push_head(out, avp)?;
        if is_group(avp) && levels > 0 {
            out.push_str(":\n")?;
            push_avps(alloc, out, &avp.value, levels - 1)?;
        } else {
            out.push_str(": ")?;
            push_value(alloc, out, avp)?;
            out.push('\n')?;
        }
    }
    push_rest(alloc, out, rest, levels)
}

/// The AVPs that the octets begin with, and what is left of the octets.
fn front_of(alloc: Global, octets: &Octets) -> Result<(Vec<RawAvp>, &[u8]), AllocError> {
    let all = octets.as_slice();
    let at = match ViewWire::split(alloc, octets) {
        Ok(avps) => return Ok((avps, &[])),
        Err(fault) => place_of(fault)?.min(all.len()),
    };
    let (front, rest) = all.split_at(at);
    match ViewWire::split(alloc, &Octets::copy_of(alloc, front)?) {
        Ok(avps) => Ok((avps, rest)),
        Err(AvpFault::OutOfMemory) => Err(AllocError),
        Err(_) => Ok((Vec::new(alloc), all)),
    }
}

/// Where the octets are at fault.
fn place_of(fault: AvpFault) -> Result<usize, AllocError> {
    match fault {
        AvpFault::ShortHeader { at }
        | AvpFault::LengthTooSmall { at, .. }
        | AvpFault::Overrun { at, .. } => Ok(at),
        AvpFault::TooLong | AvpFault::TooDeep => Ok(0),
        AvpFault::OutOfMemory => Err(AllocError),
    }
}

/// Whether the AVP is a group of the dictionary.
fn is_group(avp: &RawAvp) -> bool {
    avp.vendor == 0 && kind_of(Code(avp.code)) == Some(Kind::Grouped)
}

/// Adds two spaces for each level, and two at the top.
fn push_indent(out: &mut String, levels: u32) -> Result<(), AllocError> {
    for _ in levels..=DEPTH_LIMIT {
        out.push_str("  ")?;
    }
    Ok(())
}

/// Adds the name of an AVP, or its numbers, and its flags.
fn push_head(out: &mut String, avp: &RawAvp) -> Result<(), AllocError> {
    let code = avp.code;
    let vendor = avp.vendor;
    match name_of(Code(code)) {
        Some(name) if vendor == 0 => out.push_str(name)?,
        _ => write!(out, "AVP {code} vendor {vendor}")?,
    }
    push_flags(out, avp.flags)
}

/// Adds the letters of the flags that are set.
fn push_flags(out: &mut String, flags: u8) -> Result<(), AllocError> {
    let vendor = if has_vendor(flags) { "V" } else { "" };
    let mandatory = if is_mandatory(flags) { "M" } else { "" };
    let protected = if flags & PROTECTED != 0 { "P" } else { "" };
    if flags & (VENDOR | MANDATORY | PROTECTED) == 0 {
        Ok(())
    } else {
        write!(out, " [{vendor}{mandatory}{protected}]")
    }
}

/// Adds a line for octets that are left, if there are any.
fn push_rest(alloc: Global, out: &mut String, rest: &[u8], levels: u32) -> Result<(), AllocError> {
    let count = rest.len();
    if count == 0 {
        return Ok(());
    }
    push_indent(out, levels)?;
    write!(out, "{count} octets that are no AVP: ")?;
    push_hex(alloc, out, rest)?;
    out.push('\n')
}
