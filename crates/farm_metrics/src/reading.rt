//! The Result-Code of an answer, read without memory.

ghost use Rattle.std.specs.Prelude.{◌≡◌};
ghost use Rattle.farm_metrics.specs.Reading.{code_in, code_of, room_of};

use byteorder::{BigEndian, ByteOrder};
use dia_base::codes::RESULT_CODE;

/// The octets of the header of an AVP without a vendor (RFC 6733, section 4.1).
const HEADER: usize = 8;

/// The flag V of an AVP: its header has a Vendor-ID behind.
const VENDOR: u8 = 0x80;

/// The octets that an AVP takes, with those behind it up to a multiple of four; 0 where its length is below 8.
fn room_of(avp: &[u8]) -> usize
    ensures { result ≡ room_of avp.now }
{
    if avp.len() < HEADER {
        return 0;
    }
    let length = BigEndian::read_u24(&avp[5..HEADER]) as usize;
    if length < HEADER {
        return 0;
    }
    (length + 3) / 4 * 4
}

/// The value of an AVP that is a Result-Code (RFC 6733, section 7.1).
fn code_in(avp: &[u8]) -> Option<u32>
    ensures { result ≡ code_in avp.now }
{
    if avp.len() < HEADER + 4 {
        return None;
    }
    let is_code = BigEndian::read_u32(&avp[..4]) == RESULT_CODE && avp[4] & VENDOR == 0;
    let is_whole = BigEndian::read_u24(&avp[5..HEADER]) == 12;
    if is_code && is_whole {
        Some(BigEndian::read_u32(&avp[HEADER..HEADER + 4]))
    } else {
        None
    }
}

/// The first Result-Code among the AVPs of an answer; 0 where there is none that can be read.
pub fn code_of_answer(body: &[u8]) -> u32
    ensures { result ≡ code_of body.now }
{
    let mut at = 0;
    while at < body.len() {
        let avp = &body[at..];
        if let Some(code) = code_in(avp) {
            return code;
        }
        let room = room_of(avp);
        if room == 0 {
            return 0;
        }
        at = at.saturating_add(room);
    }
    0
}
