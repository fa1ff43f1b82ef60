//! Octets that are no list of AVPs, and the AVP at which they cannot go on (RFC 6733, section 7.1.5,
//! DIAMETER_INVALID_AVP_LENGTH).

ghost use Rattle.std.specs.Prelude.{◌≡◌, drop, slice_index, IfOk};
ghost use Rattle.dia_avp.specs.AvpList.{flags_in};
ghost use Rattle.cc_view.specs.Refusal.FailedAvp.{broken_avp_in, least_form, vendor_at};

use crate::view::failed_avp::least_form;
use byteorder::{BigEndian, ByteOrder};
use dia_avp::layout::has_vendor;
use dia_avp::{AvpFault, RawAvp};
use std::alloc::{AllocError, Global};

/// The least form of the AVP at which octets cannot go on, none where no whole header is left.
pub(crate) fn broken_avp_in(
    alloc: Global,
    octets: &[u8],
    fault: AvpFault,
) -> Result<Option<RawAvp>, AllocError>
    ensures { IfOk result (λ broken. broken ≡ broken_avp_in octets.now fault) }
{
    match fault {
        AvpFault::LengthTooSmall { at, code } => broken_at(alloc, code, behind(octets, at)),
        AvpFault::Overrun { at, code } => broken_at(alloc, code, behind(octets, at)),
        _ => Ok(None),
    }
}

/// The least form of an AVP of this code that octets begin with.
fn broken_at(alloc: Global, code: u32, octets: &[u8]) -> Result<Option<RawAvp>, AllocError>
    ensures { IfOk result (λ broken. broken ≡ Some (least_form code (flags_in octets.now) (vendor_at octets.now))) }
{
    let broken = least_form(alloc, code, flags_at(octets), vendor_at(octets))?;
    Ok(Some(broken))
}

/// What stands from this place on.
fn behind(octets: &[u8], at: usize) -> &[u8]
    ensures { result.now ≡ drop at octets.now }
{
    if at <= octets.len() {
        &octets[at..]
    } else {
        &[]
    }
}

fn flags_at(octets: &[u8]) -> u8
    ensures { result ≡ flags_in octets.now }
{
    octets.get(4).copied().unwrap_or(0)
}

/// The Vendor-ID of the AVP that octets begin with, 0 where they end before it.
fn vendor_at(octets: &[u8]) -> u32
    ensures { result ≡ vendor_at octets.now }
{
    if has_vendor(flags_at(octets)) && octets.len() >= 12 {
        BigEndian::read_u32(&octets[8..])
    } else {
        0
    }
}
