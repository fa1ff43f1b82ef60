//! The head of an AVP (RFC 6733, section 4.1): its header, and where its value and its padding stand.

ghost use Rattle.std.specs.Prelude.{◌≡◌, IfOk, IsOk, MatchOption};
ghost use Rattle.dia_avp.specs.AvpList.{fault_at};
ghost use Rattle.dia_avp.specs.AvpHead.{IsHeadOf};

use crate::fault::AvpFault;
use crate::layout::{has_vendor, header_len, padding_of};
use byteorder::{BigEndian, ByteOrder};

/// What the header of an AVP says, and the places behind it, counted from its first octet.
#[derive(Clone, Copy)]
pub(crate) struct Head {
    pub code: u32,
    pub flags: u8,
    /// 0 where the header has none.
    pub vendor: u32,
    /// Where the value begins.
    pub value: usize,
    /// Where the value ends, and the padding begins.
    pub padding: usize,
    /// Where the padding ends, or the octets.
    pub end: usize,
}

/// The head of the AVP that the octets begin with, where they begin with one. A fault tells the place
/// that they stand at.
pub(crate) fn head_of(at: usize, octets: &[u8]) -> Result<Head, AvpFault>
    ensures found { IfOk result (λ head. IsHeadOf octets.now head) }
    ensures fault { MatchOption (fault_at at octets.now) (IsOk result) (λ f. result ≡ Err f) }
{
    if octets.len() < 8 {
        return Err(AvpFault::ShortHeader { at });
    }
    let code = BigEndian::read_u32(octets);
    let flags = octets[4];
    let len = BigEndian::read_u24(&octets[5..]) as usize;
    let header = header_len(flags);
    if len < header {
        return Err(AvpFault::LengthTooSmall { at, code });
    }
    if octets.len() < len {
        return Err(AvpFault::Overrun { at, code });
    }
    let vendor = if has_vendor(flags) {
        BigEndian::read_u32(&octets[8..])
    } else {
        0
    };
    Ok(Head {
        code,
        flags,
        vendor,
        value: header,
        padding: len,
        end: (len + padding_of(len)).min(octets.len()),
    })
}
