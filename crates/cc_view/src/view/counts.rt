//! Numbers in the AVPs of a request, and the counts in a group of units (RFC 8506, sections 8.18 and 8.19).
//! Counts stand in the order time, octets, service-specific units.

ghost use Rattle.std.specs.Prelude.{◌≡◌, ◌≤◌, IfOk};
ghost use Rattle.dia_base.specs.Codes.{cc_time};
ghost use Rattle.cc_view.specs.RequestView.Counts.{members_of, u32_in, u64_in};
ghost use Rattle.cc_view.specs.RequestView.Reading.{counts_in};

use crate::view::matching::first_of;
use crate::view::splitting::readable;
use dia_avp::{RawAvp, Wire, u32_of, u64_of};
use dia_base::codes::{CC_SERVICE_SPECIFIC_UNITS, CC_TIME, CC_TOTAL_OCTETS};
use std::alloc::{AllocError, Global};

/// The number of 4 octets in the first AVP of this code.
pub(crate) fn u32_in(avps: &[RawAvp], code: u32) -> Option<u32>
    ensures { result ≡ u32_in code avps.now }
{
    match first_of(avps, code) {
        Some(avp) => u32_of(avp),
        None => None,
    }
}

/// The number of 8 octets in the first AVP of this code.
fn u64_in(avps: &[RawAvp], code: u32) -> Option<u64>
    ensures { result ≡ u64_in code avps.now }
{
    match first_of(avps, code) {
        Some(avp) => u64_of(avp),
        None => None,
    }
}

fn time_in(avps: &[RawAvp]) -> Option<u64>
    ensures { result ≡ u32_in cc_time avps.now }
{
    match u32_in(avps, CC_TIME) {
        Some(seconds) => Some(u64::from(seconds)),
        None => None,
    }
}

/// The counts that stand among these AVPs.
pub(crate) fn counts_in(avps: &[RawAvp]) -> [Option<u64>; 3]
    ensures { result ≡ counts_in avps.now }
{
    let time = time_in(avps);
    let octets = u64_in(avps, CC_TOTAL_OCTETS);
    let units = u64_in(avps, CC_SERVICE_SPECIFIC_UNITS);
    [time, octets, units]
}

/// The AVPs in a group that stands so deep, none where its value is no list of AVPs.
pub(crate) fn members_of<W: Wire>(
    alloc: Global,
    group: &RawAvp,
    depth: u32,
) -> Result<Vec<RawAvp>, AllocError>
    requires { depth ≤ 4 }
    ensures { IfOk result (λ members. members.items ≡ members_of group.now) }
{
    match readable(W::inside(alloc, group, depth))? {
        Some(members) => Ok(members),
        None => Ok(Vec::new(alloc)),
    }
}
