//! The AVP at fault, as a refusal names it (RFC 6733, section 7.5).

ghost use Rattle.std.specs.Prelude.{◌≡◌, ◌≤◌, IfOk};
ghost use Rattle.cc_view.specs.Refusal.FailedAvp.{copy_or_least_form, fixed_len, is_copied, kind_at, least_form, least_len};

use dia_avp::layout::header_len;
use dia_avp::{Octets, RawAvp};
use dia_base::Code;
use dia_dict::{Kind, kind_of};
use std::alloc::{AllocError, Global};

/// The most octets that an AVP takes which Failed-AVP holds as it was received.
const COPY_LIMIT: usize = 8192;

/// Whether an AVP is short enough to be copied.
pub(crate) fn is_copied(avp: &RawAvp) -> bool
    ensures { result ≡ is_copied avp.now }
{
    avp.value.as_slice().len() <= COPY_LIMIT - header_len(avp.flags)
}

/// An AVP that was received, as Failed-AVP holds it: a copy, or its least form where that would take
/// too much.
pub(crate) fn copy_or_least_form(alloc: Global, avp: &RawAvp) -> Result<RawAvp, AllocError>
    ensures { IfOk result (λ copy. copy ≡ copy_or_least_form avp.now) }
{
    if is_copied(avp) {
        avp.clone()
    } else {
        least_form(alloc, avp.code, avp.flags, avp.vendor)
    }
}

/// The least form of an AVP: its value is as many zeros as its kind has octets.
pub(crate) fn least_form(
    alloc: Global,
    code: u32,
    flags: u8,
    vendor: u32,
) -> Result<RawAvp, AllocError>
    ensures { IfOk result (λ avp. avp ≡ least_form code flags vendor) }
{
    let zeros = [0; 8];
    let value = Octets::copy_of(alloc, &zeros[..least_len(kind_at(code, vendor))])?;
    Ok(RawAvp {
        code,
        flags,
        vendor,
        value,
    })
}

fn kind_at(code: u32, vendor: u32) -> Option<Kind>
    ensures { result ≡ kind_at code vendor }
{
    if vendor != 0 {
        return None;
    }
    kind_of(Code(code))
}

/// The octets of a value of the kind, none where the kind leaves that open.
fn least_len(kind: Option<Kind>) -> usize
    ensures value { result ≡ least_len kind }
    ensures most { result ≤ 8 }
{
    match kind {
        Some(kind) => fixed_len(kind),
        None => 0,
    }
}

fn fixed_len(kind: Kind) -> usize
    ensures value { result ≡ fixed_len kind }
    ensures most { result ≤ 8 }
{
    match kind {
        Kind::Unsigned32 | Kind::Integer32 | Kind::Time | Kind::Enumerated => 4,
        Kind::Unsigned64 | Kind::Integer64 => 8,
        Kind::Utf8String
        | Kind::DiameterIdentity
        | Kind::OctetString
        | Kind::Address
        | Kind::Grouped => 0,
    }
}
