//! The value of an AVP.

use crate::names::{enumerated_name, push_named, unsigned_name};
use dia_avp::{RawAvp, i32_of};
use dia_dict::{DictFault, Typed, typed};
use jiff::Timestamp;
use std::alloc::{AllocError, Global};
use std::net::{Ipv4Addr, Ipv6Addr};
use std::str::from_utf8;

/// Seconds from the start of 1900 to that of 1970.
const START_OF_1970: i64 = 2_208_988_800;

/// The first number that stands for a time of the era that began in 1900. Those below stand for
/// times of the next, of which the first is 2^32 seconds later (RFC 4330, section 3).
const FIRST_OF_1900: u32 = 0x8000_0000;

const ERA: i64 = 0x1_0000_0000;

/// Adds the value, or the dictionary's fault and what stands there.
pub fn push_value(alloc: Global, out: &mut String, avp: &RawAvp) -> Result<(), AllocError> {
    match typed(alloc, avp) {
        Ok(value) => push_typed(alloc, out, avp.code, &value),
        Err(DictFault::NoRow { .. }) => push_hex(alloc, out, avp.value.as_slice()),
        Err(DictFault::OutOfMemory) => Err(AllocError),
        Err(fault) => push_faulty(alloc, out, avp, fault),
    }
}

/// Adds the fault and the octets; of a number that its enumeration has not, the number.
fn push_faulty(
    alloc: Global,
    out: &mut String,
    avp: &RawAvp,
    fault: DictFault,
) -> Result<(), AllocError> {
    write!(out, "{fault}: ")?;
    match (fault, i32_of(avp)) {
        (DictFault::BadEnumerated { .. }, Some(number)) => write!(out, "{number}"),
        _ => push_hex(alloc, out, avp.value.as_slice()),
    }
}

/// Adds octets in hexadecimal.
pub fn push_hex(alloc: Global, out: &mut String, octets: &[u8]) -> Result<(), AllocError> {
    if octets.is_empty() {
        return out.push_str("(empty)");
    }
    let digits = hex::encode(alloc, octets)?;
    write!(out, "{digits}")
}

fn push_typed(alloc: Global, out: &mut String, code: u32, value: &Typed) -> Result<(), AllocError> {
    match value {
        Typed::Unsigned32(n) => push_named(out, i64::from(*n), unsigned_name(code, *n)),
        Typed::Unsigned64(n) => write!(out, "{n}"),
        Typed::Integer32(n) => write!(out, "{n}"),
        Typed::Integer64(n) => write!(out, "{n}"),
        Typed::Time(n) => push_time(out, *n),
        Typed::Enumerated(n) => push_named(out, i64::from(*n), enumerated_name(code, *n)),
        Typed::Utf8String(text) => push_text(out, text.as_str()),
        Typed::DiameterIdentity(octets) => push_identity(out, octets.as_slice()),
        Typed::OctetString(octets) => push_hex(alloc, out, octets.as_slice()),
        Typed::Address(octets) => push_address(alloc, out, octets.as_slice()),
        Typed::Grouped(octets) => {
            out.push_str("in groups that are nested too deep: ")?;
            push_hex(alloc, out, octets.as_slice())
        }
    }
}

/// Adds a text in quotes. What does not print is escaped.
fn push_text(out: &mut String, text: &str) -> Result<(), AllocError> {
    write!(out, "{text:?}")
}

/// Adds an identity as a text, with what is no ASCII escaped where it is not UTF-8.
fn push_identity(out: &mut String, octets: &[u8]) -> Result<(), AllocError> {
    match from_utf8(octets) {
        Ok(text) => push_text(out, text),
        Err(_) => {
            let text = octets.escape_ascii();
            write!(out, "\"{text}\"")
        }
    }
}

/// Adds a time as date and time of day, in UTC.
fn push_time(out: &mut String, seconds: u32) -> Result<(), AllocError> {
    let era = if seconds < FIRST_OF_1900 { ERA } else { 0 };
    match Timestamp::from_second(era + i64::from(seconds) - START_OF_1970) {
        Ok(time) => write!(out, "{time}"),
        Err(_) => write!(out, "{seconds}"),
    }
}

/// Adds an address as text; one of another family than IPv4 and IPv6 in hexadecimal.
fn push_address(alloc: Global, out: &mut String, octets: &[u8]) -> Result<(), AllocError> {
    match octets {
        [0, 1, a, b, c, d] => {
            let address = Ipv4Addr::new(*a, *b, *c, *d);
            write!(out, "{address}")
        }
        [0, 2, rest @ ..] => match <[u8; 16]>::try_from(rest) {
            Ok(octets) => {
                let address = Ipv6Addr::from_octets(octets);
                write!(out, "{address}")
            }
            Err(_) => push_hex(alloc, out, octets),
        },
        _ => push_hex(alloc, out, octets),
    }
}
