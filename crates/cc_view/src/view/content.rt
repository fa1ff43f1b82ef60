//! What a request asks, once it is checked (RFC 8506, section 3.1).

ghost use Rattle.std.specs.Prelude.{◌≡◌, true, None, option_map, IfOk};
ghost use Rattle.std.specs.List.{list_any};
ghost use Rattle.dia_base.specs.Codes.{requested_action};
ghost use Rattle.cc_view.specs.RequestView.Content.{action_by, content_of, is_own, kind_by, own_services_in, service_in, services_by};
ghost use Rattle.cc_view.specs.Finding.{Gives};
ghost use Rattle.cc_view.specs.RequestView.Counts.{u32_in};
ghost use Rattle.cc_view.specs.RequestView.Reading.{AreGroupsOf, units_in};

use crate::code::ResultCode;
use crate::request::{CcRequest, RequestKind, RequestedAction, Service, Services};
use crate::view::ViewError;
use crate::view::counts::u32_in;
use crate::view::groups::Groups;
use crate::view::limits::are_within_limits;
use crate::view::matching::octets_in;
use crate::view::refusals::refusal_with;
use crate::view::units::Units;
use dia_avp::RawAvp;
use dia_base::Listing;
use dia_base::codes::{
    CC_REQUEST_NUMBER, CC_REQUEST_TYPE, REQUESTED_ACTION, REQUESTED_SERVICE_UNIT,
    SERVICE_IDENTIFIER, SESSION_ID, USED_SERVICE_UNIT,
};
use dia_grammar::is_of;
use std::alloc::{AllocError, Global};

/// The content of a request whose AVPs have been checked, and of which these are the groups, unless its services
/// pass a limit.
#[tactic(auto, using(crate::proofs::WithinLimits::within_limits))]
pub(crate) fn content_of(
    alloc: Global,
    avps: &[RawAvp],
    groups: Groups,
) -> Result<CcRequest, ViewError>
    requires { AreGroupsOf avps.now groups }
    ensures { Gives (content_of avps.now) result }
{
    let Groups {
        subscriptions,
        services,
        units,
    } = groups;
    let services = services_by(alloc, avps, services, units)?;
    if !are_within_limits(&services) {
        return Err(refusal_with(ResultCode::UnableToComply));
    }
    let session = octets_in(alloc, avps, SESSION_ID)?;
    Ok(CcRequest {
        session,
        number: u32_in(avps, CC_REQUEST_NUMBER).unwrap_or(0),
        kind: kind_by(u32_in(avps, CC_REQUEST_TYPE).unwrap_or(0)),
        action: action_in(avps),
        subscriptions: Listing::from_vec(subscriptions),
        services: Services::from_vec(services),
    })
}

fn kind_by(number: u32) -> RequestKind
    ensures { result ≡ kind_by number }
{
    match number {
        1 => RequestKind::Initial,
        2 => RequestKind::Update,
        3 => RequestKind::Termination,
        _ => RequestKind::Event,
    }
}

fn action_in(avps: &[RawAvp]) -> Option<RequestedAction>
    ensures { result ≡ option_map action_by (u32_in requested_action avps.now) }
{
    match u32_in(avps, REQUESTED_ACTION) {
        Some(number) => Some(action_by(number)),
        None => None,
    }
}

fn action_by(number: u32) -> RequestedAction
    ensures { result ≡ action_by number }
{
    match number {
        0 => RequestedAction::DirectDebiting,
        1 => RequestedAction::RefundAccount,
        2 => RequestedAction::CheckBalance,
        _ => RequestedAction::PriceEnquiry,
    }
}

/// The services that are named; where there is none, one that stands for the units of the command itself, if it
/// has any.
fn services_by(
    alloc: Global,
    avps: &[RawAvp],
    named: Vec<Service>,
    units: Units,
) -> Result<Vec<Service>, AllocError>
    requires { units ≡ units_in avps.now }
    ensures { IfOk result (λ services. services.items ≡ services_by avps.now named.items) }
{
    if !named.is_empty() {
        return Ok(named);
    }
    own_services_in(alloc, avps, units)
}

fn own_services_in(alloc: Global, avps: &[RawAvp], units: Units) -> Result<Vec<Service>, AllocError>
    requires { units ≡ units_in avps.now }
    ensures { IfOk result (λ services. services.items ≡ own_services_in avps.now) }
{
    if !has_own(avps) {
        return Ok(Vec::new(alloc));
    }
    Ok(vec![in alloc; own_service(avps, units)]?)
}

/// Whether the command itself has units, or names a service.
fn has_own(avps: &[RawAvp]) -> bool
    ensures { result ≡ list_any is_own avps.now }
{
    avps.iter().any(|avp| is_own(avp))
}

/// Whether the AVP speaks of units of the command itself.
fn is_own(avp: &RawAvp) -> bool
    ensures { result ≡ is_own avp.now }
{
    is_of(avp, REQUESTED_SERVICE_UNIT)
        || is_of(avp, USED_SERVICE_UNIT)
        || is_of(avp, SERVICE_IDENTIFIER)
}

fn own_service(avps: &[RawAvp], units: Units) -> Service
    requires { units ≡ units_in avps.now }
    ensures { result ≡ service_in true None avps.now }
{
    Service {
        group: None,
        ident: u32_in(avps, SERVICE_IDENTIFIER),
        bare: true,
        asked: units.asked,
        used: units.used(),
    }
}
