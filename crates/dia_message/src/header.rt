//! The header of a message (RFC 6733, section 3).

ghost use Rattle.std.specs.Prelude.{◌≡◌};
ghost use Rattle.dia_message.specs.Header.{flag_of, flags_of, header_octets, read_in};

use byteorder::{BigEndian, ByteOrder};

/// The octets of a header.
pub const HEADER_LEN: usize = 20;

/// The version of Diameter, the first octet of each message.
pub(crate) const VERSION: u8 = 1;

const REQUEST: u8 = 0x80;

const PROXIABLE: u8 = 0x40;

const ERROR: u8 = 0x20;

const RESENT: u8 = 0x10;

/// The fields of a header but for the version and the length. The reserved flag bits are no part of it.
#[derive(Clone, Copy, Debug, PartialEq, Eq)]
pub struct Header {
    /// The flag R.
    pub request: bool,
    /// The flag P.
    pub proxiable: bool,
    /// The flag E.
    pub error: bool,
    /// The flag T: it may have been sent before.
    pub resent: bool,
    /// The Command Code, below 2^24.
    pub command: u32,
    /// The Application-ID.
    pub application: u32,
    /// The Hop-by-Hop Identifier.
    pub hop: u32,
    /// The End-to-End Identifier.
    pub end: u32,
}

/// A header with the version and the message length that stand in its octets.
#[derive(Clone, Copy, PartialEq, Eq)]
pub struct ReadHeader {
    /// The other fields.
    pub header: Header,
    /// The first octet, 1 for Diameter.
    pub version: u8,
    /// The Message Length in octets, of header and body.
    pub length: u32,
}

/// The fields that the 20 octets of a header spell (RFC 6733, section 3). Nothing is refused.
pub fn read_header(octets: &[u8; 20]) -> ReadHeader
    ensures { result ≡ read_in octets.now }
{
    let flags = octets[4];
    ReadHeader {
        header: Header {
            request: flags & REQUEST != 0,
            proxiable: flags & PROXIABLE != 0,
            error: flags & ERROR != 0,
            resent: flags & RESENT != 0,
            command: BigEndian::read_u24(&octets[5..]),
            application: BigEndian::read_u32(&octets[8..]),
            hop: BigEndian::read_u32(&octets[12..]),
            end: BigEndian::read_u32(&octets[16..]),
        },
        version: octets[0],
        length: BigEndian::read_u24(&octets[1..]),
    }
}

fn flag(set: bool, bit: u8) -> u8
    ensures { result ≡ flag_of bit set }
{
    if set { bit } else { 0 }
}

fn flags_of(header: &Header) -> u8
    ensures { result ≡ flags_of header.now }
{
    flag(header.request, REQUEST)
        | flag(header.proxiable, PROXIABLE)
        | flag(header.error, ERROR)
        | flag(header.resent, RESENT)
}

/// The octets of a header with this Message Length, which counts header and body. The reserved flag
/// bits are 0. Of the length and of the Command Code the low 24 bits are written.
pub fn write_header(header: &Header, length: u32) -> [u8; 20]
    ensures { result ≡ header_octets header.now length }
{
    let mut octets = [0u8; 20];
    octets[0] = VERSION;
    BigEndian::write_u24(&mut octets[1..], length & 0x00ff_ffff);
    octets[4] = flags_of(header);
    BigEndian::write_u24(&mut octets[5..], header.command & 0x00ff_ffff);
    BigEndian::write_u32(&mut octets[8..], header.application);
    BigEndian::write_u32(&mut octets[12..], header.hop);
    BigEndian::write_u32(&mut octets[16..], header.end);
    octets
}
