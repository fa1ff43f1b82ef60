//! The groups of a request that are looked at, each checked and read at once (RFC 6733, section 7.1.5; RFC 8506,
//! sections 8.16 and 8.46).

ghost use Rattle.std.specs.Prelude.{◌≡◌, ◌++◌, [], OnOk};
ghost use Rattle.dia_grammar.specs.Profile.{profile_of};
ghost use Rattle.cc_view.specs.Finding.{PassesWith};
ghost use Rattle.cc_view.specs.RequestView.Checking.{group_refusal, groups_refusal, service_refusal, subscription_refusal};
ghost use Rattle.cc_view.specs.RequestView.Content.{service_of, subscription_of};
ghost use Rattle.cc_view.specs.RequestView.Reading.{AreGroupsOf, GrowsBy, HasRoom, group_of, services_of, subscriptions_of, units_of};

use crate::request::{Service, Subscription};
use crate::view::ViewError;
use crate::view::counts::u32_in;
use crate::view::matching::octets_in;
use crate::view::members::{check_members, members_in};
use crate::view::units::{Units, counts_of, units_in};
use dia_avp::{RawAvp, Wire};
use dia_base::codes::{
    MULTIPLE_SERVICES, RATING_GROUP, REQUESTED_SERVICE_UNIT, SERVICE_IDENTIFIER, SUBSCRIPTION_ID,
    SUBSCRIPTION_ID_DATA, SUBSCRIPTION_ID_TYPE, USED_SERVICE_UNIT,
};
use dia_grammar::{Profile, is_of};
use std::alloc::{AllocError, Global};

/// What Subscription-Id has exactly once.
const SUBSCRIPTION_CODES: [u32; 2] = [SUBSCRIPTION_ID_TYPE, SUBSCRIPTION_ID_DATA];

/// What Multiple-Services-Credit-Control has at most once.
const SERVICE_CODES: [u32; 2] = [REQUESTED_SERVICE_UNIT, RATING_GROUP];

/// What an AVP of the command says, if it is a group that is looked at.
#[derive(Drop)]
enum Group {
    /// A Subscription-Id.
    Subscriber(Subscription),
    /// The counts of a Requested-Service-Unit.
    Asked([Option<u64>; 3]),
    /// The counts of a Used-Service-Unit.
    Used([Option<u64>; 3]),
    /// A Multiple-Services-Credit-Control.
    Named(Service),
    Unread,
}

/// What the groups of a command say, as far as they have been read.
#[derive(Drop)]
pub(crate) struct Groups {
    pub subscriptions: Vec<Subscription>,
    /// The services of the Multiple-Services-Credit-Controls.
    pub services: Vec<Service>,
    /// The units of the command itself.
    pub units: Units,
}

impl Groups {
    fn none(alloc: Global) -> Self
        ensures { AreGroupsOf [] result }
    {
        Groups {
            subscriptions: Vec::new(alloc),
            services: Vec::new(alloc),
            units: Units::none(),
        }
    }

    /// Adds what one more AVP says.
    fn add(&mut self, group: Group) -> Result<(), AllocError>
        requires { HasRoom self.old.units }
        ensures subscriptions { OnOk result (self.new.subscriptions.items ≡ self.old.subscriptions.items ++ subscriptions_of group) }
        ensures services { OnOk result (self.new.services.items ≡ self.old.services.items ++ services_of group) }
        ensures units { OnOk result (self.new.units ≡ units_of group self.old.units) }
        ensures most { OnOk result (GrowsBy self.old.units self.new.units) }
    {
        match group {
            Group::Subscriber(subscription) => self.subscriptions.push(subscription)?,
            Group::Asked(counts) => self.units = self.units.with_asked(counts),
            Group::Used(counts) => self.units = self.units.with_used(counts),
            Group::Named(service) => self.services.push(service)?,
            Group::Unread => {}
        }
        Ok(())
    }
}

/// A Subscription-Id, or its refusal.
fn subscription_of<W: Wire>(
    alloc: Global,
    profile: Profile,
    group: &RawAvp,
) -> Result<Subscription, ViewError>
    ensures { PassesWith (subscription_refusal (profile_of profile.entry) group.now) (λ subscription. subscription ≡ subscription_of group.now) result }
{
    let members = members_in::<W>(alloc, group, 1)?;
    check_members(
        alloc,
        profile,
        &SUBSCRIPTION_CODES,
        &SUBSCRIPTION_CODES,
        &members,
    )?;
    let text = octets_in(alloc, &members, SUBSCRIPTION_ID_DATA)?;
    Ok(Subscription {
        kind: u32_in(&members, SUBSCRIPTION_ID_TYPE).unwrap_or(0),
        text,
    })
}

/// A Multiple-Services-Credit-Control, or its refusal: for its own AVPs, then for a group of units in it.
fn service_of<W: Wire>(
    alloc: Global,
    profile: Profile,
    group: &RawAvp,
) -> Result<Service, ViewError>
    ensures { PassesWith (service_refusal (profile_of profile.entry) group.now) (λ service. service ≡ service_of group.now) result }
{
    let members = members_in::<W>(alloc, group, 1)?;
    check_members(alloc, profile, &SERVICE_CODES, &[], &members)?;
    let units = units_in::<W>(alloc, profile, &members)?;
    Ok(Service {
        group: u32_in(&members, RATING_GROUP),
        ident: u32_in(&members, SERVICE_IDENTIFIER),
        bare: false,
        asked: units.asked,
        used: units.used(),
    })
}

/// What an AVP of the command says, or its refusal.
fn group_of<W: Wire>(alloc: Global, profile: Profile, avp: &RawAvp) -> Result<Group, ViewError>
    ensures { PassesWith (group_refusal (profile_of profile.entry) avp.now) (λ group. group ≡ group_of avp.now) result }
{
    if is_of(avp, SUBSCRIPTION_ID) {
        Ok(Group::Subscriber(subscription_of::<W>(alloc, profile, avp)?))
    } else if is_of(avp, REQUESTED_SERVICE_UNIT) {
        Ok(Group::Asked(counts_of::<W>(alloc, profile, avp, 1)?))
    } else if is_of(avp, USED_SERVICE_UNIT) {
        Ok(Group::Used(counts_of::<W>(alloc, profile, avp, 1)?))
    } else if is_of(avp, MULTIPLE_SERVICES) {
        Ok(Group::Named(service_of::<W>(alloc, profile, avp)?))
    } else {
        Ok(Group::Unread)
    }
}

/// What the groups of a command say, or the refusal of the first that is to be refused.
pub(crate) fn groups_of<W: Wire>(
    alloc: Global,
    profile: Profile,
    avps: &[RawAvp],
) -> Result<Groups, ViewError>
    ensures { PassesWith (groups_refusal (profile_of profile.entry) avps.now) (AreGroupsOf avps.now) result }
{
    let mut groups = Groups::none(alloc);
    for avp in avps {
        let group = group_of::<W>(alloc, profile, avp)?;
        groups.add(group)?;
    }
    Ok(groups)
}
