//! Values that are numbers (RFC 6733, section 4.2), in network order.

ghost use Rattle.std.specs.Prelude.{◌≡◌, ◌≢◌, length, MatchOption};
ghost use Rattle.std.specs.Option.{SomeIff};
ghost use Rattle.byteorder.specs.Endian.{big_number, twos_complement};

use crate::avp::RawAvp;
use byteorder::{BigEndian, ByteOrder};

/// The value as an Unsigned32. `None` where it has not exactly 4 octets.
pub fn u32_of(avp: &RawAvp) -> Option<u32>
    ensures { SomeIff result (length avp.now.value ≡ 4) (big_number 4 avp.now.value) }
{
    value_of_len(avp, 4).map(|octets| BigEndian::read_u32(octets))
}

/// The value as an Unsigned64. `None` where it has not exactly 8 octets.
pub fn u64_of(avp: &RawAvp) -> Option<u64>
    ensures { SomeIff result (length avp.now.value ≡ 8) (big_number 8 avp.now.value) }
{
    value_of_len(avp, 8).map(|octets| BigEndian::read_u64(octets))
}

/// The value as an Integer32, in two's complement. `None` where it has not exactly 4 octets.
pub fn i32_of(avp: &RawAvp) -> Option<i32>
    ensures { SomeIff result (length avp.now.value ≡ 4) (twos_complement 4 (big_number 4 avp.now.value)) }
{
    value_of_len(avp, 4).map(|octets| BigEndian::read_i32(octets))
}

/// The value as an Integer64, in two's complement. `None` where it has not exactly 8 octets.
pub fn i64_of(avp: &RawAvp) -> Option<i64>
    ensures { SomeIff result (length avp.now.value ≡ 8) (twos_complement 8 (big_number 8 avp.now.value)) }
{
    value_of_len(avp, 8).map(|octets| BigEndian::read_i64(octets))
}

/// The octets of the value, where there are `len` of them.
fn value_of_len(avp: &RawAvp, len: usize) -> Option<&[u8]>
    ensures { MatchOption result (length avp.now.value ≢ len) (λ octets. (octets.now ≡ avp.now.value) × (length avp.now.value ≡ len)) }
{
    let octets = avp.value.as_slice();
    if octets.len() == len {
        Some(octets)
    } else {
        None
    }
}
