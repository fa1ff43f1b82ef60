//! What was asked: how it is written, and read again.

ghost use Rattle.std.specs.Prelude.{◌≡◌, OnOk};
ghost use Rattle.cc_view.specs.Request.Number.{action_number, kind_number};
ghost use Rattle.book_rows.specs.declared.fault.Fault.TheVariants.{BadFlag};
ghost use Rattle.book_rows.specs.Form.{Adds, AddsAll, Gives, listed, optional, so_many};
ghost use Rattle.book_rows.specs.Parts.{action, counts, kind, request, service, services, subscription, sums};

use crate::fault::{Fault, ReadError};
use crate::limits::are_within_limits;
use crate::numbers::{
    flag_at, octets_at, optional_u32_at, optional_u64_at, push_absent, push_flag, push_octets,
    push_optional_u32, push_optional_u64, push_present, push_u8, push_u32, push_u64, push_u128,
    u8_at, u32_at, u64_at, u128_at,
};
use cc_view::{CcRequest, RequestKind, RequestedAction, Service, Services, Subscription};
use dia_base::Listing;
use std::alloc::{AllocError, Global};

#[tactic(auto, unfolding(crate::specs::Parts::kind))]
fn kind_at(octets: &[u8]) -> Result<(RequestKind, &[u8]), ReadError>
    ensures { Gives (λ x. (x.0, x.1.now)) result (kind.read octets.now) }
{
    let (number, rest) = u8_at(octets)?;
    match number {
        1 => Ok((RequestKind::Initial, rest)),
        2 => Ok((RequestKind::Update, rest)),
        3 => Ok((RequestKind::Termination, rest)),
        4 => Ok((RequestKind::Event, rest)),
        _ => Err(ReadError::NoRow(Fault::UnknownRequestType)),
    }
}

fn push_kind(out: &mut Vec<u8>, value: RequestKind) -> Result<(), AllocError>
    ensures { OnOk result (Adds kind value out.old.items out.new.items) }
{
    push_u8(out, kind_octet(value))?;
    Ok(())
}

fn kind_octet(value: RequestKind) -> u8
    ensures { result ≡ kind_number value }
{
    value as u8
}

#[tactic(auto, unfolding(crate::specs::Parts::action))]
fn action_at(octets: &[u8]) -> Result<(RequestedAction, &[u8]), ReadError>
    ensures { Gives (λ x. (x.0, x.1.now)) result (action.read octets.now) }
{
    let (number, rest) = u8_at(octets)?;
    match number {
        0 => Ok((RequestedAction::DirectDebiting, rest)),
        1 => Ok((RequestedAction::RefundAccount, rest)),
        2 => Ok((RequestedAction::CheckBalance, rest)),
        3 => Ok((RequestedAction::PriceEnquiry, rest)),
        _ => Err(ReadError::NoRow(Fault::UnknownAction)),
    }
}

fn push_action(out: &mut Vec<u8>, value: RequestedAction) -> Result<(), AllocError>
    ensures { OnOk result (Adds action value out.old.items out.new.items) }
{
    push_u8(out, action_octet(value))?;
    Ok(())
}

fn action_octet(value: RequestedAction) -> u8
    ensures { result ≡ action_number value }
{
    value as u8
}

#[tactic(auto, unfolding(crate::specs::Form::optional))]
fn optional_action_at(octets: &[u8]) -> Result<(Option<RequestedAction>, &[u8]), ReadError>
    ensures { Gives (λ x. (x.0, x.1.now)) result ((optional BadFlag action).read octets.now) }
{
    match octets {
        [] => Err(ReadError::NoRow(Fault::Short)),
        [0, rest @ ..] => Ok((None, rest)),
        [1, rest @ ..] => {
            let (value, rest) = action_at(rest)?;
            Ok((Some(value), rest))
        }
        [_, ..] => Err(ReadError::NoRow(Fault::BadFlag)),
    }
}

fn push_optional_action(out: &mut Vec<u8>, value: Option<RequestedAction>) -> Result<(), AllocError>
    ensures { OnOk result (Adds (optional BadFlag action) value out.old.items out.new.items) }
{
    match value {
        None => push_absent(out)?,
        Some(value) => {
            push_present(out)?;
            push_action(out, value)?;
        }
    }
    Ok(())
}

#[tactic(auto, unfolding(crate::specs::Parts::subscription))]
fn subscription_at(alloc: Global, octets: &[u8]) -> Result<(Subscription, &[u8]), ReadError>
    ensures { Gives (λ x. (x.0, x.1.now)) result (subscription.read octets.now) }
{
    let (kind, rest) = u32_at(octets)?;
    let (text, rest) = octets_at(alloc, rest)?;
    Ok((Subscription { kind, text }, rest))
}

fn push_subscription(out: &mut Vec<u8>, value: &Subscription) -> Result<(), AllocError>
    ensures { OnOk result (Adds subscription value.now out.old.items out.new.items) }
{
    push_u32(out, value.kind)?;
    push_octets(out, &value.text)?;
    Ok(())
}

fn so_many_subscriptions_at(
    alloc: Global,
    count: u64,
    octets: &[u8],
) -> Result<(Vec<Subscription>, &[u8]), ReadError>
    ensures { Gives (λ x. (x.0.items, x.1.now)) result (so_many subscription.read count octets.now) }
{
    let mut values = Vec::new(alloc);
    let mut rest = octets;
    for _ in 0..count {
        let (value, behind) = subscription_at(alloc, rest)?;
        values.push(value)?;
        rest = behind;
    }
    Ok((values, rest))
}

/// The Subscription-Ids that octets tell first, and the octets behind them.
#[tactic(auto, unfolding(crate::specs::Form::listed))]
pub fn subscriptions_at(
    alloc: Global,
    octets: &[u8],
) -> Result<(Vec<Subscription>, &[u8]), ReadError>
    ensures { Gives (λ x. (x.0.items, x.1.now)) result ((listed subscription).read octets.now) }
{
    let (count, rest) = u64_at(octets)?;
    so_many_subscriptions_at(alloc, count, rest)
}

fn push_all_subscriptions(out: &mut Vec<u8>, values: &[Subscription]) -> Result<(), AllocError>
    ensures { OnOk result (AddsAll subscription values.now out.old.items out.new.items) }
{
    for value in values {
        push_subscription(out, value)?;
    }
    Ok(())
}

/// Adds how many Subscription-Ids there are, and each of them.
pub fn push_subscriptions(out: &mut Vec<u8>, values: &[Subscription]) -> Result<(), AllocError>
    ensures { OnOk result (Adds (listed subscription) values.now out.old.items out.new.items) }
{
    push_u64(out, values.len() as u64)?;
    push_all_subscriptions(out, values)?;
    Ok(())
}

/// The counts of Requested-Service-Unit.
#[tactic(auto, unfolding(crate::specs::Parts::counts))]
fn counts_at(octets: &[u8]) -> Result<([Option<u64>; 3], &[u8]), ReadError>
    ensures { Gives (λ x. (x.0, x.1.now)) result (counts.read octets.now) }
{
    let (time, rest) = optional_u64_at(octets)?;
    let (total, rest) = optional_u64_at(rest)?;
    let (units, rest) = optional_u64_at(rest)?;
    Ok(([time, total, units], rest))
}

fn push_counts(out: &mut Vec<u8>, value: [Option<u64>; 3]) -> Result<(), AllocError>
    ensures { OnOk result (Adds counts value out.old.items out.new.items) }
{
    push_optional_u64(out, value[0])?;
    push_optional_u64(out, value[1])?;
    push_optional_u64(out, value[2])?;
    Ok(())
}

#[tactic(auto, unfolding(crate::specs::Form::optional))]
fn optional_counts_at(octets: &[u8]) -> Result<(Option<[Option<u64>; 3]>, &[u8]), ReadError>
    ensures { Gives (λ x. (x.0, x.1.now)) result ((optional BadFlag counts).read octets.now) }
{
    match octets {
        [] => Err(ReadError::NoRow(Fault::Short)),
        [0, rest @ ..] => Ok((None, rest)),
        [1, rest @ ..] => {
            let (value, rest) = counts_at(rest)?;
            Ok((Some(value), rest))
        }
        [_, ..] => Err(ReadError::NoRow(Fault::BadFlag)),
    }
}

fn push_optional_counts(
    out: &mut Vec<u8>,
    value: Option<[Option<u64>; 3]>,
) -> Result<(), AllocError>
    ensures { OnOk result (Adds (optional BadFlag counts) value out.old.items out.new.items) }
{
    match value {
        None => push_absent(out)?,
        Some(value) => {
            push_present(out)?;
            push_counts(out, value)?;
        }
    }
    Ok(())
}

/// The sums of used units.
#[tactic(auto, unfolding(crate::specs::Parts::sums))]
fn sums_at(octets: &[u8]) -> Result<([u128; 3], &[u8]), ReadError>
    ensures { Gives (λ x. (x.0, x.1.now)) result (sums.read octets.now) }
{
    let (time, rest) = u128_at(octets)?;
    let (total, rest) = u128_at(rest)?;
    let (units, rest) = u128_at(rest)?;
    Ok(([time, total, units], rest))
}

fn push_sums(out: &mut Vec<u8>, value: [u128; 3]) -> Result<(), AllocError>
    ensures { OnOk result (Adds sums value out.old.items out.new.items) }
{
    push_u128(out, value[0])?;
    push_u128(out, value[1])?;
    push_u128(out, value[2])?;
    Ok(())
}

#[tactic(auto, unfolding(crate::specs::Parts::service))]
fn service_at(octets: &[u8]) -> Result<(Service, &[u8]), ReadError>
    ensures { Gives (λ x. (x.0, x.1.now)) result (service.read octets.now) }
{
    let (group, rest) = optional_u32_at(octets)?;
    let (ident, rest) = optional_u32_at(rest)?;
    let (bare, rest) = flag_at(rest)?;
    let (asked, rest) = optional_counts_at(rest)?;
    let (used, rest) = sums_at(rest)?;
    Ok((
        Service {
            group,
            ident,
            bare,
            asked,
            used,
        },
        rest,
    ))
}

fn push_service(out: &mut Vec<u8>, value: &Service) -> Result<(), AllocError>
    ensures { OnOk result (Adds service value.now out.old.items out.new.items) }
{
    push_optional_u32(out, value.group)?;
    push_optional_u32(out, value.ident)?;
    push_flag(out, value.bare)?;
    push_optional_counts(out, value.asked)?;
    push_sums(out, value.used)?;
    Ok(())
}

fn so_many_services_at(
    alloc: Global,
    count: u64,
    octets: &[u8],
) -> Result<(Vec<Service>, &[u8]), ReadError>
    ensures { Gives (λ x. (x.0.items, x.1.now)) result (so_many service.read count octets.now) }
{
    let mut values = Vec::new(alloc);
    let mut rest = octets;
    for _ in 0..count {
        let (value, behind) = service_at(rest)?;
        values.push(value)?;
        rest = behind;
    }
    Ok((values, rest))
}

#[tactic(auto, unfolding(crate::specs::Form::listed))]
fn listed_services_at(alloc: Global, octets: &[u8]) -> Result<(Vec<Service>, &[u8]), ReadError>
    ensures { Gives (λ x. (x.0.items, x.1.now)) result ((listed service).read octets.now) }
{
    let (count, rest) = u64_at(octets)?;
    so_many_services_at(alloc, count, rest)
}

/// Services within the limits of a request.
#[tactic(auto, unfolding(crate::specs::Parts::services), using(crate::proofs::WithinLimits::within_limits))]
fn services_at(alloc: Global, octets: &[u8]) -> Result<(Services, &[u8]), ReadError>
    ensures { Gives (λ x. (x.0, x.1.now)) result (services.read octets.now) }
{
    let (values, rest) = listed_services_at(alloc, octets)?;
    if !are_within_limits(&values) {
        return Err(ReadError::NoRow(Fault::PastLimits));
    }
    Ok((Services::from_vec(values), rest))
}

fn push_all_services(out: &mut Vec<u8>, values: &[Service]) -> Result<(), AllocError>
    ensures { OnOk result (AddsAll service values.now out.old.items out.new.items) }
{
    for value in values {
        push_service(out, value)?;
    }
    Ok(())
}

fn push_services(out: &mut Vec<u8>, value: &Services) -> Result<(), AllocError>
    ensures { OnOk result (Adds services value.now out.old.items out.new.items) }
{
    let values = value.as_slice();
    push_u64(out, values.len() as u64)?;
    push_all_services(out, values)?;
    Ok(())
}

#[tactic(auto, unfolding(crate::specs::Parts::request))]
pub fn request_at(alloc: Global, octets: &[u8]) -> Result<(CcRequest, &[u8]), ReadError>
    ensures { Gives (λ x. (x.0, x.1.now)) result (request.read octets.now) }
{
    let (session, rest) = octets_at(alloc, octets)?;
    let (number, rest) = u32_at(rest)?;
    let (kind, rest) = kind_at(rest)?;
    let (action, rest) = optional_action_at(rest)?;
    let (subscriptions, rest) = subscriptions_at(alloc, rest)?;
    let (services, rest) = services_at(alloc, rest)?;
    Ok((
        CcRequest {
            session,
            number,
            kind,
            action,
            subscriptions: Listing::from_vec(subscriptions),
            services,
        },
        rest,
    ))
}

pub fn push_request(out: &mut Vec<u8>, value: &CcRequest) -> Result<(), AllocError>
    ensures { OnOk result (Adds request value.now out.old.items out.new.items) }
{
    push_octets(out, &value.session)?;
    push_u32(out, value.number)?;
    push_kind(out, value.kind)?;
    push_optional_action(out, value.action)?;
    push_subscriptions(out, value.subscriptions.as_slice())?;
    push_services(out, &value.services)?;
    Ok(())
}
