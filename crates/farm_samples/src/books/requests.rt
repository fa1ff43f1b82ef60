//! Requests made at random.

ghost use Rattle.std.specs.Prelude.{◌≡◌, ◌≢◌};
ghost use Rattle.cc_view.specs.Request.ServiceLimits.{HasSmallSums};

use crate::books::dice::Dice;
use cc_view::{CcRequest, RequestKind, RequestedAction, Service, Services, Subscription};
use dia_avp::Octets;
use dia_base::Listing;
use std::alloc::Global;

/// How many sessions there are, and how many numbers their requests have.
const SESSIONS: u64 = 30;

const NUMBERS: u64 = 60;

/// An EVENT's action, now and then none.
fn action(dice: &mut Dice) -> Option<RequestedAction> {
    match dice.roll(5) {
        0 => Some(RequestedAction::DirectDebiting),
        1 => Some(RequestedAction::RefundAccount),
        2 => Some(RequestedAction::CheckBalance),
        3 => Some(RequestedAction::PriceEnquiry),
        _ => None,
    }
}

fn kind(dice: &mut Dice) -> RequestKind {
    match dice.roll(10) {
        0 | 1 | 2 => RequestKind::Initial,
        3 | 4 | 5 => RequestKind::Update,
        6 => RequestKind::Termination,
        _ => RequestKind::Event,
    }
}

/// What is asked of a service: nothing, units without a count, or counts.
fn asked(dice: &mut Dice) -> Option<[Option<u64>; 3]> {
    match dice.roll(4) {
        0 => None,
        1 => Some([None, None, None]),
        _ => Some([
            Some(dice.roll(2_000)),
            Some(dice.roll(20_000)),
            Some(dice.roll(9)),
        ]),
    }
}

/// A service of this group or identifier, which has used something where it says so.
fn service(dice: &mut Dice, group: Option<u32>, ident: Option<u32>, bare: bool) -> Service
    ensures group { result.group ≡ group }
    ensures small { HasSmallSums result }
{
    let asked = asked(dice);
    let used = [
        dice.roll(100) as u128,
        dice.roll(3_000) as u128,
        dice.roll(3) as u128,
    ];
    Service {
        group,
        ident,
        bare,
        asked,
        used,
    }
}

/// One service.
fn one(alloc: Global, service: Service) -> anyhow::Result<Services>
    requires { HasSmallSums service }
{
    Ok(Services::from_vec(vec![in alloc; service]?))
}

/// Two services of two groups.
fn two(alloc: Global, service: Service, other: Service) -> anyhow::Result<Services>
    requires small { HasSmallSums service }
    requires other { HasSmallSums other }
    requires apart { service.group ≢ other.group }
{
    Ok(Services::from_vec(vec![in alloc; service, other]?))
}

/// No service, one of a group without a tariff, the command's own units, one of a group, or two groups.
fn services(alloc: Global, dice: &mut Dice) -> anyhow::Result<Services> {
    match dice.roll(8) {
        0 => Ok(Services::from_vec(Vec::new(alloc))),
        1 => one(alloc, service(dice, Some(12), None, false)),
        2 => one(alloc, service(dice, None, Some(7), true)),
        3 | 4 => one(alloc, service(dice, Some(10), None, false)),
        5 => one(alloc, service(dice, Some(11), Some(1), false)),
        _ => {
            let octets = service(dice, Some(10), None, false);
            let time = service(dice, Some(11), None, false);
            two(alloc, octets, time)
        }
    }
}

fn session_id(alloc: Global, dice: &mut Dice) -> anyhow::Result<Octets> {
    let session = dice.roll(SESSIONS);
    let id = format!(in alloc; "c1.example;1;{session}")?;
    Ok(Octets::copy_of(alloc, id.as_bytes())?)
}

/// The Subscription-Id of one of the accounts, or of nobody.
fn subscriptions(alloc: Global, dice: &mut Dice) -> anyhow::Result<Listing<Subscription>> {
    let id = format!(in alloc; "49170000000{}", dice.roll(6))?;
    let text = Octets::copy_of(alloc, id.as_bytes())?;
    let subscription = Subscription { kind: 0, text };
    Ok(Listing::from_vec(vec![in alloc; subscription]?))
}

/// A request of one of the sessions, under one of the numbers.
pub fn request(alloc: Global, dice: &mut Dice) -> anyhow::Result<CcRequest> {
    let session = session_id(alloc, dice)?;
    let number = dice.roll(NUMBERS) as u32;
    let kind = kind(dice);
    let action = match kind {
        RequestKind::Event => action(dice),
        RequestKind::Initial | RequestKind::Update | RequestKind::Termination => None,
    };
    let subscriptions = subscriptions(alloc, dice)?;
    let services = services(alloc, dice)?;
    Ok(CcRequest {
        session,
        number,
        kind,
        action,
        subscriptions,
        services,
    })
}
