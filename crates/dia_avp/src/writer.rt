//! The one writer of AVPs.

ghost use Rattle.std.specs.Prelude.{◌≡◌, ◌≤◌, ◌<◌, ◌^◌, ◌∷◌, ◌++◌, IfOk, OnOk, OnErr, IsOkUnless};
ghost use Rattle.byteorder.specs.Endian.{big_bytes};
ghost use Rattle.dia_avp.specs.AvpList.{length_of, raw_avp, with_avp, written};
ghost use Rattle.dia_avp.specs.LentAvp.{avp_of};

use crate::avp::RawAvp;
use crate::fault::AvpFault;
use crate::layout::{header_len, padding_of};
use crate::lent::LentAvp;
use crate::octets::Octets;
use byteorder::{BigEndian, ByteOrder};
use std::alloc::Global;

/// What no AVP's length reaches.
const TOO_LONG: usize = 0x0100_0000;

/// The most octets that stand beside a body and a value when an AVP goes behind that body: a header with a vendor, and twice
/// a padding.
const BESIDE: usize = 18;

/// A header with a vendor. Without V it is the first 8 octets.
fn header_of(code: u32, flags: u8, vendor: u32, len: u32) -> [u8; 12]
    requires { len < 2 ^ 24 }
    ensures { result ≡ big_bytes 4 code ++ (flags ∷ big_bytes 3 len) ++ big_bytes 4 vendor }
{
    let mut header = [0u8; 12];
    BigEndian::write_u32(&mut header, code);
    header[4] = flags;
    BigEndian::write_u24(&mut header[5..], len);
    BigEndian::write_u32(&mut header[8..], vendor);
    header
}

/// Writes the AVP with these parts at the end of `out`, and its padding, which is zero (RFC 6733,
/// section 4.1). The vendor is written only where the flags have V. A fault leaves `out` as it was.
pub fn write_avp(
    out: &mut Vec<u8>,
    code: u32,
    flags: u8,
    vendor: u32,
    value: &[u8],
) -> Result<(), AvpFault>
    ensures ok { OnOk result (out.new.items ≡ out.old.items ++ written (raw_avp code flags vendor value.now)) }
    ensures fits { length_of (raw_avp code flags vendor value.now) < 2 ^ 24 → IsOkUnless result AvpFault.OutOfMemory }
    ensures too_long { 2 ^ 24 ≤ length_of (raw_avp code flags vendor value.now) → result ≡ Err AvpFault.TooLong }
    ensures err { OnErr result (out.new.items ≡ out.old.items) }
{
    let header = header_len(flags);
    if value.len() >= TOO_LONG - header {
        return Err(AvpFault::TooLong);
    }
    let len = header + value.len();
    let padding = padding_of(len);
    let head = header_of(code, flags, vendor, len as u32);
    out.reserve(len + padding)?;
    out.extend_from_slice(&head[..header])?;
    out.extend_from_slice(value)?;
    out.extend_from_slice(&[0; 3][..padding])?;
    Ok(())
}

/// The octets of a body with one AVP more behind it. Where the last AVP of the body lacks padding, it
/// gets that first, as zeros: the body has then a multiple of 4 octets. What is made is a buffer, whose clones
/// are cuts.
pub fn with_avp(alloc: Global, body: &Octets, avp: &RawAvp) -> Result<Octets, AvpFault>
    ensures ok { IfOk result (λ octets. octets ≡ with_avp body.now avp.now) }
    ensures fits { length_of avp.now < 2 ^ 24 → IsOkUnless result AvpFault.OutOfMemory }
    ensures too_long { 2 ^ 24 ≤ length_of avp.now → result ≡ Err AvpFault.TooLong }
{
    with_lent(alloc, body, avp.lent())
}

/// The same with an AVP that is lent.
pub fn with_lent(alloc: Global, body: &Octets, avp: LentAvp) -> Result<Octets, AvpFault>
    ensures ok { IfOk result (λ octets. octets ≡ with_avp body.now (avp_of avp.entry)) }
    ensures fits { length_of (avp_of avp.entry) < 2 ^ 24 → IsOkUnless result AvpFault.OutOfMemory }
    ensures too_long { 2 ^ 24 ≤ length_of (avp_of avp.entry) → result ≡ Err AvpFault.TooLong }
{
    let octets = body.as_slice();
    if avp.value.len() >= TOO_LONG - header_len(avp.flags) {
        return Err(AvpFault::TooLong);
    }
    let room = octets
        .len()
        .saturating_add(avp.value.len())
        .saturating_add(BESIDE);
    let mut out = Vec::with_capacity(alloc, room)?;
    out.extend_from_slice(octets)?;
    out.extend_from_slice(&[0; 3][..padding_of(octets.len())])?;
    write_avp(&mut out, avp.code, avp.flags, avp.vendor, avp.value)?;
    Ok(Octets::shared(out)?)
}
