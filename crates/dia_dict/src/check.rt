//! Which octets are a value of a kind.

ghost use Rattle.std.specs.Prelude.{◌≡◌, length};
ghost use Rattle.dia_dict.specs.Values.{content_fault, is_address, has_length, in_range, value_fault};

use crate::fault::DictFault;
use crate::row::Kind;
use byteorder::{BigEndian, ByteOrder};
use dia_base::codes::{CC_REQUEST_TYPE, REQUESTED_ACTION};
use std::str::from_utf8;

/// The address family of IPv4.
const IPV4: u16 = 1;

/// The address family of IPv6.
const IPV6: u16 = 2;

/// Whether the octets are two of the address family, and then as many as an address of that family
/// has (RFC 6733, section 4.3.1). An address of another family has any length.
fn is_address(octets: &[u8]) -> bool
    ensures { result ≡ is_address octets.now }
{
    if octets.len() < 2 {
        return false;
    }
    match BigEndian::read_u16(octets) {
        IPV4 => octets.len() == 6,
        IPV6 => octets.len() == 18,
        _ => true,
    }
}

/// Whether a value of the kind may have the length of the octets.
pub(crate) fn has_length(kind: Kind, octets: &[u8]) -> bool
    ensures { result ≡ has_length kind octets.now }
{
    match kind {
        Kind::Unsigned32 | Kind::Integer32 | Kind::Time | Kind::Enumerated => octets.len() == 4,
        Kind::Unsigned64 | Kind::Integer64 => octets.len() == 8,
        Kind::Address => is_address(octets),
        Kind::Utf8String | Kind::DiameterIdentity | Kind::OctetString | Kind::Grouped => true,
    }
}

/// Whether an Enumerated of this code may be the number. Two enumerations have a range here.
pub(crate) fn is_in_range(code: u32, number: u32) -> bool
    ensures { result ≡ in_range code number }
{
    match code {
        CC_REQUEST_TYPE => 1 <= number && number <= 4,
        REQUESTED_ACTION => number <= 3,
        _ => true,
    }
}

/// Why the octets are no text.
fn text_fault(code: u32, octets: &[u8]) -> Option<DictFault>
    ensures { result ≡ content_fault Kind.Utf8String code octets.now }
{
    match from_utf8(octets) {
        Ok(_) => None,
        Err(_) => Some(DictFault::BadUtf8 { code }),
    }
}

/// Why the number is none of its enumeration.
fn range_fault(code: u32, octets: &[u8]) -> Option<DictFault>
    requires { length octets.now ≡ 4 }
    ensures { result ≡ content_fault Kind.Enumerated code octets.now }
{
    if is_in_range(code, BigEndian::read_u32(octets)) {
        None
    } else {
        Some(DictFault::BadEnumerated { code })
    }
}

/// Why the octets are no value of the kind in an AVP of this code, if they are not.
pub(crate) fn value_fault(kind: Kind, code: u32, octets: &[u8]) -> Option<DictFault>
    ensures { result ≡ value_fault kind code octets.now }
{
    if !has_length(kind, octets) {
        return Some(DictFault::BadLength { code });
    }
    match kind {
        Kind::Utf8String => text_fault(code, octets),
        Kind::Enumerated => range_fault(code, octets),
        Kind::Unsigned32 | Kind::Unsigned64 | Kind::Integer32 | Kind::Integer64 | Kind::Time => {
            None
        }
        Kind::DiameterIdentity | Kind::OctetString | Kind::Address | Kind::Grouped => None,
    }
}
