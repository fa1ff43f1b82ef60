//! The AVPs in a group of a request, and whether they are refused (RFC 6733, section 7.1.5).

ghost use Rattle.std.specs.Prelude.{◌≡◌, ◌<◌, ◌≤◌, length, option_map, IfSome};
ghost use Rattle.std.specs.Option.{option_and_then};
ghost use Rattle.dia_grammar.specs.Profile.{profile_of};
ghost use Rattle.cc_view.specs.Finding.{GivesAll, Passes};
ghost use Rattle.cc_view.specs.Refusal.{avps_of, refusal_at, refusal_for_missing};
ghost use Rattle.cc_view.specs.RequestView.Checking.{members_refusal};

use crate::code::ResultCode;
use crate::view::ViewError;
use crate::view::refusals::{avps_by, refusal_at, refusal_for_missing};
use crate::view::values::check_values;
use dia_avp::{RawAvp, Wire};
use dia_base::codes::{
    CC_SERVICE_SPECIFIC_UNITS, CC_TIME, CC_TOTAL_OCTETS, RATING_GROUP, SERVICE_IDENTIFIER,
    SUBSCRIPTION_ID_DATA, SUBSCRIPTION_ID_TYPE,
};
use dia_grammar::{Profile, first_missing, first_repeated, first_unknown};
use std::alloc::Global;

/// Whose values are looked at in a group.
const GROUP_VALUES: [u32; 7] = [
    SUBSCRIPTION_ID_DATA,
    SUBSCRIPTION_ID_TYPE,
    RATING_GROUP,
    SERVICE_IDENTIFIER,
    CC_TIME,
    CC_TOTAL_OCTETS,
    CC_SERVICE_SPECIFIC_UNITS,
];

/// The AVPs in a group that stands so deep, or its refusal where its value is no list of AVPs.
pub(crate) fn members_in<W: Wire>(
    alloc: Global,
    group: &RawAvp,
    depth: u32,
) -> Result<Vec<RawAvp>, ViewError>
    requires { depth ≤ 4 }
    ensures { GivesAll (avps_of group.now.value) result }
{
    avps_by(
        alloc,
        group.value.as_slice(),
        W::inside(alloc, group, depth),
    )
}

fn refuse_place(
    alloc: Global,
    code: ResultCode,
    avps: &[RawAvp],
    place: Option<usize>,
) -> Result<(), ViewError>
    requires { IfSome place (λ at. at < length avps.now) }
    ensures { Passes (option_and_then (refusal_at code avps.now) place) result }
{
    match place {
        Some(at) => Err(refusal_at(alloc, code, avps, at)),
        None => Ok(()),
    }
}

fn refuse_missing(alloc: Global, code: Option<u32>) -> Result<(), ViewError>
    ensures { Passes (option_map refusal_for_missing code) result }
{
    match code {
        Some(code) => Err(refusal_for_missing(alloc, code)),
        None => Ok(()),
    }
}

/// Refuses the AVPs in a group, which may have one AVP of each code in `single` and has to have one of
/// each in `required`.
pub(crate) fn check_members(
    alloc: Global,
    profile: Profile,
    single: &[u32],
    required: &[u32],
    avps: &[RawAvp],
) -> Result<(), ViewError>
    ensures { Passes (members_refusal (profile_of profile.entry) single.now required.now avps.now) result }
{
    refuse_place(
        alloc,
        ResultCode::AvpUnsupported,
        avps,
        first_unknown(avps, profile),
    )?;
    refuse_place(
        alloc,
        ResultCode::AvpOccursTooManyTimes,
        avps,
        first_repeated(avps, single),
    )?;
    refuse_missing(alloc, first_missing(avps, required))?;
    check_values(alloc, &GROUP_VALUES, avps)
}
