//! The units of a service, checked and read at once: what is asked for and what was used (RFC 8506, sections 8.18 and
//! 8.19).

ghost use Rattle.std.specs.Prelude.{◌≡◌, ◌≤◌, ◌∷◌, [], IfOk};
ghost use Rattle.dia_grammar.specs.Profile.{profile_of};
ghost use Rattle.cc_view.specs.Finding.{PassesWith};
ghost use Rattle.cc_view.specs.RequestView.Checking.{inner_group_refusal, inner_refusal, units_refusal};
ghost use Rattle.cc_view.specs.RequestView.Counts.{counts_of};
ghost use Rattle.cc_view.specs.RequestView.Reading.{GrowsBy, HasRoom, units_in, with_asked, with_group, with_used};

use crate::view::ViewError;
use crate::view::counts::counts_in;
use crate::view::members::{check_members, members_in};
use dia_avp::{RawAvp, Wire};
use dia_base::codes::{
    CC_SERVICE_SPECIFIC_UNITS, CC_TIME, CC_TOTAL_OCTETS, REQUESTED_SERVICE_UNIT, USED_SERVICE_UNIT,
};
use dia_grammar::{Profile, is_of};
use std::alloc::Global;

/// What Requested-Service-Unit and Used-Service-Unit have at most once.
const COUNT_CODES: [u32; 3] = [CC_TIME, CC_TOTAL_OCTETS, CC_SERVICE_SPECIFIC_UNITS];

/// The units of a service, as far as its groups have been read.
#[derive(Clone, Copy)]
pub(crate) struct Units {
    /// The counts of the first Requested-Service-Unit.
    pub asked: Option<[Option<u64>; 3]>,
    /// The sum of CC-Time over the Used-Service-Units.
    pub time: u128,
    /// The sum of CC-Total-Octets.
    pub octets: u128,
    /// The sum of CC-Service-Specific-Units.
    pub specific: u128,
}

impl Units {
    /// No units.
    pub(crate) fn none() -> Self
        ensures { result ≡ units_in [] }
    {
        Units {
            asked: None,
            time: 0,
            octets: 0,
            specific: 0,
        }
    }

    /// These, and counts that are asked for: the first ones stand.
    pub(crate) fn with_asked(self, counts: [Option<u64>; 3]) -> Self
        ensures { result ≡ with_asked counts self }
    {
        Units {
            asked: self.asked.or(Some(counts)),
            ..self
        }
    }

    /// These, and counts that were used.
    pub(crate) fn with_used(self, counts: [Option<u64>; 3]) -> Self
        requires { HasRoom self }
        ensures units { result ≡ with_used counts self }
        ensures most { GrowsBy self result }
    {
        Units {
            time: self.time + u128::from(counts[0].unwrap_or(0)),
            octets: self.octets + u128::from(counts[1].unwrap_or(0)),
            specific: self.specific + u128::from(counts[2].unwrap_or(0)),
            ..self
        }
    }

    /// The sums, in the order time, octets, service-specific units.
    pub(crate) fn used(self) -> [u128; 3]
        ensures { result ≡ self.time ∷ self.octets ∷ self.specific ∷ [] }
    {
        [self.time, self.octets, self.specific]
    }
}

/// The counts in a group of units that stands so deep, or its refusal.
pub(crate) fn counts_of<W: Wire>(
    alloc: Global,
    profile: Profile,
    group: &RawAvp,
    depth: u32,
) -> Result<[Option<u64>; 3], ViewError>
    requires { depth ≤ 4 }
    ensures { PassesWith (units_refusal (profile_of profile.entry) group.now) (λ counts. counts ≡ counts_of group.now) result }
{
    let members = members_in::<W>(alloc, group, depth)?;
    check_members(alloc, profile, &COUNT_CODES, &[], &members)?;
    Ok(counts_in(&members))
}

/// The units with those of an AVP of a Multiple-Services-Credit-Control, if it is a group of them, or its refusal.
fn with_group<W: Wire>(
    alloc: Global,
    profile: Profile,
    units: Units,
    avp: &RawAvp,
) -> Result<Units, ViewError>
    requires { HasRoom units }
    ensures read { PassesWith (inner_group_refusal (profile_of profile.entry) avp.now) (λ more. more ≡ with_group avp.now units) result }
    ensures most { IfOk result (λ more. GrowsBy units more) }
{
    if is_of(avp, REQUESTED_SERVICE_UNIT) {
        let counts = counts_of::<W>(alloc, profile, avp, 2)?;
        Ok(units.with_asked(counts))
    } else if is_of(avp, USED_SERVICE_UNIT) {
        let counts = counts_of::<W>(alloc, profile, avp, 2)?;
        Ok(units.with_used(counts))
    } else {
        Ok(units)
    }
}

/// The units among the AVPs of a Multiple-Services-Credit-Control, or the refusal of the first group of them that is to
/// be refused.
pub(crate) fn units_in<W: Wire>(
    alloc: Global,
    profile: Profile,
    avps: &[RawAvp],
) -> Result<Units, ViewError>
    ensures { PassesWith (inner_refusal (profile_of profile.entry) avps.now) (λ units. units ≡ units_in avps.now) result }
{
    let mut units = Units::none();
    for avp in avps {
        units = with_group::<W>(alloc, profile, units, avp)?;
    }
    Ok(units)
}
