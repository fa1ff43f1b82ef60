//! Tariffs: how they are written, and read again.

ghost use Rattle.std.specs.Prelude.{◌≡◌, OnOk};
ghost use Rattle.book_rows.specs.declared.fault.Fault.TheVariants.{BadFlag};
ghost use Rattle.book_rows.specs.Form.{Adds, AddsAll, Gives, listed, optional, so_many};
ghost use Rattle.book_rows.specs.TermsParts.{kind, kind_number, tariff, tariffs};

use crate::fault::{Fault, ReadError};
use crate::numbers::{
    optional_u32_at, push_absent, push_optional_u32, push_present, push_u8, push_u64, u8_at, u64_at,
};
use cc_rating::{Tariff, Tariffs, UnitKind};
use std::alloc::{AllocError, Global};

#[tactic(auto, unfolding(crate::specs::TermsParts::kind))]
fn kind_at(octets: &[u8]) -> Result<(UnitKind, &[u8]), ReadError>
    ensures { Gives (λ x. (x.0, x.1.now)) result (kind.read octets.now) }
{
    let (number, rest) = u8_at(octets)?;
    match number {
        0 => Ok((UnitKind::Time, rest)),
        1 => Ok((UnitKind::Octets, rest)),
        2 => Ok((UnitKind::Units, rest)),
        _ => Err(ReadError::NoRow(Fault::UnknownKind)),
    }
}

fn push_kind(out: &mut Vec<u8>, value: UnitKind) -> Result<(), AllocError>
    ensures { OnOk result (Adds kind value out.old.items out.new.items) }
{
    push_u8(out, kind_octet(value))?;
    Ok(())
}

fn kind_octet(value: UnitKind) -> u8
    ensures { result ≡ kind_number value }
{
    match value {
        UnitKind::Time => 0,
        UnitKind::Octets => 1,
        UnitKind::Units => 2,
    }
}

#[tactic(auto, unfolding(crate::specs::TermsParts::tariff))]
fn tariff_at(octets: &[u8]) -> Result<(Tariff, &[u8]), ReadError>
    ensures { Gives (λ x. (x.0, x.1.now)) result (tariff.read octets.now) }
{
    let (group, rest) = optional_u32_at(octets)?;
    let (ident, rest) = optional_u32_at(rest)?;
    let (kind, rest) = kind_at(rest)?;
    let (block, rest) = u64_at(rest)?;
    let (price, rest) = u64_at(rest)?;
    let (quantum, rest) = u64_at(rest)?;
    let (greatest, rest) = u64_at(rest)?;
    Ok((
        Tariff {
            group,
            ident,
            kind,
            block,
            price,
            quantum,
            greatest,
        },
        rest,
    ))
}

/// Adds a tariff.
pub(crate) fn push_tariff(out: &mut Vec<u8>, value: &Tariff) -> Result<(), AllocError>
    ensures { OnOk result (Adds tariff value.now out.old.items out.new.items) }
{
    push_optional_u32(out, value.group)?;
    push_optional_u32(out, value.ident)?;
    push_kind(out, value.kind)?;
    push_u64(out, value.block)?;
    push_u64(out, value.price)?;
    push_u64(out, value.quantum)?;
    push_u64(out, value.greatest)?;
    Ok(())
}

fn so_many_tariffs_at(
    alloc: Global,
    count: u64,
    octets: &[u8],
) -> Result<(Vec<Tariff>, &[u8]), ReadError>
    ensures { Gives (λ x. (x.0.items, x.1.now)) result (so_many tariff.read count octets.now) }
{
    let mut values = Vec::new(alloc);
    let mut rest = octets;
    for _ in 0..count {
        let (value, behind) = tariff_at(rest)?;
        values.push(value)?;
        rest = behind;
    }
    Ok((values, rest))
}

#[tactic(auto, unfolding(crate::specs::Form::listed))]
fn listed_tariffs_at(alloc: Global, octets: &[u8]) -> Result<(Vec<Tariff>, &[u8]), ReadError>
    ensures { Gives (λ x. (x.0.items, x.1.now)) result ((listed tariff).read octets.now) }
{
    let (count, rest) = u64_at(octets)?;
    so_many_tariffs_at(alloc, count, rest)
}

/// The tariffs that octets tell first, and the octets behind them. `Fault::BadTariffs` where no site can have them.
#[tactic(auto, unfolding(crate::specs::TermsParts::tariffs))]
pub fn tariffs_at(alloc: Global, octets: &[u8]) -> Result<(Tariffs, &[u8]), ReadError>
    ensures { Gives (λ x. (x.0, x.1.now)) result (tariffs.read octets.now) }
{
    let (values, rest) = listed_tariffs_at(alloc, octets)?;
    match Tariffs::new(alloc, values) {
        Ok(tariffs) => Ok((tariffs, rest)),
        Err(_) => Err(ReadError::NoRow(Fault::BadTariffs)),
    }
}

fn push_all_tariffs(out: &mut Vec<u8>, values: &[Tariff]) -> Result<(), AllocError>
    ensures { OnOk result (AddsAll tariff values.now out.old.items out.new.items) }
{
    for value in values {
        push_tariff(out, value)?;
    }
    Ok(())
}

/// Adds how many tariffs there are, and each of them.
pub fn push_tariffs(out: &mut Vec<u8>, value: &Tariffs) -> Result<(), AllocError>
    ensures { OnOk result (Adds tariffs value.now out.old.items out.new.items) }
{
    let values = value.as_slice();
    push_u64(out, values.len() as u64)?;
    push_all_tariffs(out, values)?;
    Ok(())
}

/// Tariffs, if they are there, and the octets behind them. `Fault::BadFlag` where the first octet is neither 0 nor 1.
#[tactic(auto, unfolding(crate::specs::Form::optional))]
pub fn optional_tariffs_at(
    alloc: Global,
    octets: &[u8],
) -> Result<(Option<Tariffs>, &[u8]), ReadError>
    ensures { Gives (λ x. (x.0, x.1.now)) result ((optional BadFlag tariffs).read octets.now) }
{
    match octets {
        [] => Err(ReadError::NoRow(Fault::Short)),
        [0, rest @ ..] => Ok((None, rest)),
        [1, rest @ ..] => {
            let (value, rest) = tariffs_at(alloc, rest)?;
            Ok((Some(value), rest))
        }
        [_, ..] => Err(ReadError::NoRow(Fault::BadFlag)),
    }
}

/// Adds an octet 0 where there are no tariffs, else an octet 1 and the tariffs.
pub fn push_optional_tariffs(out: &mut Vec<u8>, value: &Option<Tariffs>) -> Result<(), AllocError>
    ensures { OnOk result (Adds (optional BadFlag tariffs) value.now out.old.items out.new.items) }
{
    match value {
        None => push_absent(out)?,
        Some(value) => {
            push_present(out)?;
            push_tariffs(out, value)?;
        }
    }
    Ok(())
}
