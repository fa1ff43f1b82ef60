//! The reply that was given: how it is written, and read again.

ghost use Rattle.std.specs.Prelude.{◌≡◌, ◌^◌, OnOk, true};
ghost use Rattle.cc_view.specs.ResultNumber.{number_of};
ghost use Rattle.book_rows.specs.declared.fault.Fault.TheVariants.{BadFlag};
ghost use Rattle.book_rows.specs.Form.{Adds, AddsAll, Gives, listed, optional, so_many};
ghost use Rattle.book_rows.specs.Parts.{code, cost, is_small, name, reply, service_reply, signed, unit};

use crate::fault::{Fault, ReadError};
use crate::numbers::{
    flag_at, optional_u32_at, optional_u64_at, push_absent, push_flag, push_optional_u32,
    push_optional_u64, push_present, push_signed, push_u32, push_u64, signed_at, u32_at, u64_at,
};
use cc_view::{CcReply, Cost, ResultCode, ServiceName, ServiceReply};
use dia_base::{Code, Listing};
use std::alloc::{AllocError, Global};

#[tactic(auto, unfolding(crate::specs::Parts::code))]
fn code_at(octets: &[u8]) -> Result<(ResultCode, &[u8]), ReadError>
    ensures { Gives (λ x. (x.0, x.1.now)) result (code.read octets.now) }
{
    let (number, rest) = u32_at(octets)?;
    let code = match number {
        2001 => ResultCode::Success,
        3001 => ResultCode::CommandUnsupported,
        3002 => ResultCode::UnableToDeliver,
        3003 => ResultCode::RealmNotServed,
        3004 => ResultCode::TooBusy,
        3005 => ResultCode::LoopDetected,
        3007 => ResultCode::ApplicationUnsupported,
        4012 => ResultCode::CreditLimitReached,
        5001 => ResultCode::AvpUnsupported,
        5002 => ResultCode::UnknownSessionId,
        5004 => ResultCode::InvalidAvpValue,
        5005 => ResultCode::MissingAvp,
        5009 => ResultCode::AvpOccursTooManyTimes,
        5010 => ResultCode::NoCommonApplication,
        5012 => ResultCode::UnableToComply,
        5014 => ResultCode::InvalidAvpLength,
        5030 => ResultCode::UserUnknown,
        5031 => ResultCode::RatingFailed,
        _ => return Err(ReadError::NoRow(Fault::UnknownResultCode)),
    };
    Ok((code, rest))
}

fn push_code(out: &mut Vec<u8>, value: ResultCode) -> Result<(), AllocError>
    ensures { OnOk result (Adds code value out.old.items out.new.items) }
{
    push_u32(out, value.number())?;
    Ok(())
}

#[tactic(auto, unfolding(crate::specs::Parts::unit))]
fn unit_at(octets: &[u8]) -> Result<(Code, &[u8]), ReadError>
    ensures { Gives (λ x. (x.0, x.1.now)) result (unit.read octets.now) }
{
    let (number, rest) = u32_at(octets)?;
    Ok((Code(number), rest))
}

fn push_unit(out: &mut Vec<u8>, value: Code) -> Result<(), AllocError>
    ensures { OnOk result (Adds unit value out.old.items out.new.items) }
{
    push_u32(out, value.0)?;
    Ok(())
}

#[tactic(auto, unfolding(crate::specs::Form::optional))]
fn optional_unit_at(octets: &[u8]) -> Result<(Option<Code>, &[u8]), ReadError>
    ensures { Gives (λ x. (x.0, x.1.now)) result ((optional BadFlag unit).read octets.now) }
{
    match octets {
        [] => Err(ReadError::NoRow(Fault::Short)),
        [0, rest @ ..] => Ok((None, rest)),
        [1, rest @ ..] => {
            let (value, rest) = unit_at(rest)?;
            Ok((Some(value), rest))
        }
        [_, ..] => Err(ReadError::NoRow(Fault::BadFlag)),
    }
}

fn push_optional_unit(out: &mut Vec<u8>, value: Option<Code>) -> Result<(), AllocError>
    ensures { OnOk result (Adds (optional BadFlag unit) value out.old.items out.new.items) }
{
    match value {
        None => push_absent(out)?,
        Some(value) => {
            push_present(out)?;
            push_unit(out, value)?;
        }
    }
    Ok(())
}

#[tactic(auto, unfolding(crate::specs::Parts::name))]
fn name_at(octets: &[u8]) -> Result<(ServiceName, &[u8]), ReadError>
    ensures { Gives (λ x. (x.0, x.1.now)) result (name.read octets.now) }
{
    let (group, rest) = optional_u32_at(octets)?;
    let (ident, rest) = optional_u32_at(rest)?;
    Ok((ServiceName { group, ident }, rest))
}

fn push_name(out: &mut Vec<u8>, value: ServiceName) -> Result<(), AllocError>
    ensures { OnOk result (Adds name value out.old.items out.new.items) }
{
    push_optional_u32(out, value.group)?;
    push_optional_u32(out, value.ident)?;
    Ok(())
}

#[tactic(auto, unfolding(crate::specs::Parts::service_reply))]
fn service_reply_at(octets: &[u8]) -> Result<(ServiceReply, &[u8]), ReadError>
    ensures { Gives (λ x. (x.0, x.1.now)) result (service_reply.read octets.now) }
{
    let (name, rest) = name_at(octets)?;
    let (bare, rest) = flag_at(rest)?;
    let (code, rest) = code_at(rest)?;
    let (kind, rest) = optional_unit_at(rest)?;
    let (granted, rest) = optional_u64_at(rest)?;
    let (validity, rest) = optional_u32_at(rest)?;
    let (last, rest) = flag_at(rest)?;
    Ok((
        ServiceReply {
            name,
            bare,
            code,
            kind,
            granted,
            validity,
            last,
        },
        rest,
    ))
}

fn push_service_reply(out: &mut Vec<u8>, value: &ServiceReply) -> Result<(), AllocError>
    ensures { OnOk result (Adds service_reply value.now out.old.items out.new.items) }
{
    push_name(out, value.name)?;
    push_flag(out, value.bare)?;
    push_code(out, value.code)?;
    push_optional_unit(out, value.kind)?;
    push_optional_u64(out, value.granted)?;
    push_optional_u32(out, value.validity)?;
    push_flag(out, value.last)?;
    Ok(())
}

fn so_many_service_replies_at(
    alloc: Global,
    count: u64,
    octets: &[u8],
) -> Result<(Vec<ServiceReply>, &[u8]), ReadError>
    ensures { Gives (λ x. (x.0.items, x.1.now)) result (so_many service_reply.read count octets.now) }
{
    let mut values = Vec::new(alloc);
    let mut rest = octets;
    for _ in 0..count {
        let (value, behind) = service_reply_at(rest)?;
        values.push(value)?;
        rest = behind;
    }
    Ok((values, rest))
}

#[tactic(auto, unfolding(crate::specs::Form::listed))]
fn service_replies_at(alloc: Global, octets: &[u8]) -> Result<(Vec<ServiceReply>, &[u8]), ReadError>
    ensures { Gives (λ x. (x.0.items, x.1.now)) result ((listed service_reply).read octets.now) }
{
    let (count, rest) = u64_at(octets)?;
    so_many_service_replies_at(alloc, count, rest)
}

fn push_all_service_replies(out: &mut Vec<u8>, values: &[ServiceReply]) -> Result<(), AllocError>
    ensures { OnOk result (AddsAll service_reply values.now out.old.items out.new.items) }
{
    for value in values {
        push_service_reply(out, value)?;
    }
    Ok(())
}

fn push_service_replies(out: &mut Vec<u8>, values: &[ServiceReply]) -> Result<(), AllocError>
    ensures { OnOk result (Adds (listed service_reply) values.now out.old.items out.new.items) }
{
    push_u64(out, values.len() as u64)?;
    push_all_service_replies(out, values)?;
    Ok(())
}

#[tactic(auto, unfolding(crate::specs::Parts::cost))]
fn cost_at(octets: &[u8]) -> Result<(Cost, &[u8]), ReadError>
    ensures { Gives (λ x. (x.0, x.1.now)) result (cost.read octets.now) }
{
    let (digits, rest) = signed_at(octets)?;
    let (exponent, rest) = signed_at(rest)?;
    let (currency, rest) = u32_at(rest)?;
    match (i64::try_from(digits), i32::try_from(exponent)) {
        (Ok(digits), Ok(exponent)) => Ok((
            Cost {
                digits,
                exponent,
                currency,
            },
            rest,
        )),
        _ => Err(ReadError::NoRow(Fault::OutOfRange)),
    }
}

fn push_cost(out: &mut Vec<u8>, value: Cost) -> Result<(), AllocError>
    ensures { OnOk result (Adds cost value out.old.items out.new.items) }
{
    push_digits(out, value.digits)?;
    push_exponent(out, value.exponent)?;
    push_u32(out, value.currency)?;
    Ok(())
}

/// Value-Digits.
fn push_digits(out: &mut Vec<u8>, value: i64) -> Result<(), AllocError>
    ensures added { OnOk result (Adds signed value out.old.items out.new.items) }
    ensures small { is_small (2 ^ 63) value ≡ true }
{
    push_signed(out, value as i128)?;
    Ok(())
}

/// Exponent.
fn push_exponent(out: &mut Vec<u8>, value: i32) -> Result<(), AllocError>
    ensures added { OnOk result (Adds signed value out.old.items out.new.items) }
    ensures small { is_small (2 ^ 31) value ≡ true }
{
    push_signed(out, value as i128)?;
    Ok(())
}

#[tactic(auto, unfolding(crate::specs::Form::optional))]
fn optional_cost_at(octets: &[u8]) -> Result<(Option<Cost>, &[u8]), ReadError>
    ensures { Gives (λ x. (x.0, x.1.now)) result ((optional BadFlag cost).read octets.now) }
{
    match octets {
        [] => Err(ReadError::NoRow(Fault::Short)),
        [0, rest @ ..] => Ok((None, rest)),
        [1, rest @ ..] => {
            let (value, rest) = cost_at(rest)?;
            Ok((Some(value), rest))
        }
        [_, ..] => Err(ReadError::NoRow(Fault::BadFlag)),
    }
}

fn push_optional_cost(out: &mut Vec<u8>, value: Option<Cost>) -> Result<(), AllocError>
    ensures { OnOk result (Adds (optional BadFlag cost) value out.old.items out.new.items) }
{
    match value {
        None => push_absent(out)?,
        Some(value) => {
            push_present(out)?;
            push_cost(out, value)?;
        }
    }
    Ok(())
}

#[tactic(auto, unfolding(crate::specs::Parts::reply))]
pub fn reply_at(alloc: Global, octets: &[u8]) -> Result<(CcReply, &[u8]), ReadError>
    ensures { Gives (λ x. (x.0, x.1.now)) result (reply.read octets.now) }
{
    let (code, rest) = code_at(octets)?;
    let (services, rest) = service_replies_at(alloc, rest)?;
    let (cost, rest) = optional_cost_at(rest)?;
    let (check, rest) = optional_u32_at(rest)?;
    Ok((
        CcReply {
            code,
            services: Listing::from_vec(services),
            cost,
            check,
        },
        rest,
    ))
}

pub fn push_reply(out: &mut Vec<u8>, value: &CcReply) -> Result<(), AllocError>
    ensures { OnOk result (Adds reply value.now out.old.items out.new.items) }
{
    push_code(out, value.code)?;
    push_service_replies(out, value.services.as_slice())?;
    push_optional_cost(out, value.cost)?;
    push_optional_u32(out, value.check)?;
    Ok(())
}
