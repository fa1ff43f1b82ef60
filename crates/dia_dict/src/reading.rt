//! Octets as a value.

ghost use Rattle.std.specs.Prelude.{◌≡◌, length};
ghost use Rattle.dia_dict.specs.Reading.{Answers, reading_as};

use crate::check::{has_length, is_in_range};
use crate::fault::DictFault;
use crate::row::Kind;
use crate::text::Text;
use crate::value::Typed;
use byteorder::{BigEndian, ByteOrder};
use dia_avp::Octets;
use std::alloc::{AllocError, Global};
use std::str::from_utf8;

/// The Enumerated that four octets are.
fn enumerated(code: u32, octets: &[u8]) -> Result<Typed, DictFault>
    requires { length octets.now ≡ 4 }
    ensures { Answers (reading_as Kind.Enumerated code octets.now) result }
{
    if is_in_range(code, BigEndian::read_u32(octets)) {
        Ok(Typed::Enumerated(BigEndian::read_i32(octets)))
    } else {
        Err(DictFault::BadEnumerated { code })
    }
}

/// The text that the octets are.
fn text(alloc: Global, code: u32, octets: &[u8]) -> Result<Typed, DictFault>
    ensures { Answers (reading_as Kind.Utf8String code octets.now) result }
{
    match from_utf8(octets) {
        Ok(text) => Ok(Typed::Utf8String(Text::copy_of(alloc, text)?)),
        Err(_) => Err(DictFault::BadUtf8 { code }),
    }
}

/// The value of the kind that the octets are, in an AVP of this code.
pub(crate) fn value_in(
    alloc: Global,
    kind: Kind,
    code: u32,
    octets: &[u8],
) -> Result<Typed, DictFault>
    ensures { Answers (reading_as kind code octets.now) result }
{
    if !has_length(kind, octets) {
        return Err(DictFault::BadLength { code });
    }
    match kind {
        Kind::Unsigned32 => Ok(Typed::Unsigned32(BigEndian::read_u32(octets))),
        Kind::Unsigned64 => Ok(Typed::Unsigned64(BigEndian::read_u64(octets))),
        Kind::Integer32 => Ok(Typed::Integer32(BigEndian::read_i32(octets))),
        Kind::Integer64 => Ok(Typed::Integer64(BigEndian::read_i64(octets))),
        Kind::Time => Ok(Typed::Time(BigEndian::read_u32(octets))),
        Kind::Enumerated => enumerated(code, octets),
        Kind::Utf8String => text(alloc, code, octets),
        Kind::DiameterIdentity => Ok(Typed::DiameterIdentity(Octets::copy_of(alloc, octets)?)),
        Kind::OctetString => Ok(Typed::OctetString(Octets::copy_of(alloc, octets)?)),
        Kind::Address => Ok(Typed::Address(Octets::copy_of(alloc, octets)?)),
        Kind::Grouped => Ok(Typed::Grouped(Octets::copy_of(alloc, octets)?)),
    }
}
