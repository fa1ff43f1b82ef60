//! The tariffs of a site file.

ghost use Rattle.std.specs.Prelude.{◌≡◌, ◌≤◌, IfErr, IfOk, vec_len, true, false, is_some, ◌||◌, ◌&&◌, None, option_map};
ghost use Rattle.std.specs.List.{list_all, list_any};
ghost use Rattle.cc_rating.specs.Tariffs.{fault_of, fault_after, rates, from_one, units_limit};
ghost use Rattle.farm_site.specs.Faults.{IsTableFault, IsTariffFault};
ghost use Rattle.farm_site.specs.Spelling.{SpellsTable, SpellsTariff, is_typed_tariff, may_have_32_bits, number, unit_word, value_at};
ghost use Rattle.toml.specs.View.{table_view};

use crate::entry::Entry;
use crate::fault::SiteFault;
use crate::key::Key;
use cc_rating::{BLOCK_LIMIT, PRICE_LIMIT, SECONDS_LIMIT, Tariff, UNITS_LIMIT, UnitKind};
use std::alloc::Global;

/// The most tariffs of a site.
const TARIFF_LIMIT: usize = 1_024;

/// The tariffs of the file, in its order.
#[tactic(auto, using(crate::proofs::Pushing::faultless_push))]
pub fn tariffs_of(alloc: Global, file: Entry) -> Result<Vec<Tariff>, SiteFault>
    ensures count { IfOk result (λ tariffs. vec_len tariffs ≤ 1024) }
    ensures sound { IfOk result (λ tariffs. fault_of tariffs.items ≡ None) }
    ensures typed { IfOk result (λ tariffs. list_all is_typed_tariff tariffs.items ≡ true) }
    ensures spelled { IfOk result (λ tariffs. SpellsTable SpellsTariff Key.Tariff (table_view file.entry.table.now) tariffs.items) }
    ensures fault { IfErr result (IsTableFault SpellsTariff IsTariffFault Key.Tariff (table_view file.entry.table.now)) }
{
    let entries = file.entries(alloc, Key::Tariff, TARIFF_LIMIT)?;
    let mut tariffs = Vec::new(alloc);
    for entry in &entries {
        let tariff = tariff_of(*entry, &tariffs)?;
        tariffs.push(tariff)?;
    }
    Ok(tariffs)
}

/// The tariff of an entry, where these stand before it.
#[tactic(auto, using(crate::proofs::Following::tariff_may_follow))]
fn tariff_of(entry: Entry, before: &[Tariff]) -> Result<Tariff, SiteFault>
    ensures sound { IfOk result (λ tariff. fault_after before.now tariff ≡ None) }
    ensures typed { IfOk result (λ tariff. is_typed_tariff tariff ≡ true) }
    ensures spelled { IfOk result (SpellsTariff (table_view entry.entry.table.now)) }
    ensures fault { IfErr result (IsTariffFault before.now (table_view entry.entry.table.now)) }
{
    let (group, ident) = rated_by(entry, before)?;
    let kind = kind_of(entry.text(Key::Kind)?)?;
    let most = units_limit(kind);
    Ok(Tariff {
        group,
        ident,
        kind,
        block: entry.unsigned64(Key::Block, 1, BLOCK_LIMIT)?,
        price: entry.unsigned64(Key::Price, 0, PRICE_LIMIT)?,
        quantum: entry.unsigned64(Key::Quantum, 1, most)?,
        greatest: entry.unsigned64(Key::Greatest, 1, most)?,
    })
}

/// The group or the identifier of the services that a tariff rates: one of both, which no tariff before it has.
fn rated_by(entry: Entry, before: &[Tariff]) -> Result<(Option<u32>, Option<u32>), SiteFault>
    ensures key { IfOk result (λ key. (is_some key.0 || is_some key.1) ≡ true) }
    ensures one { IfOk result (λ key. (is_some key.0 && is_some key.1) ≡ false) }
    ensures new { IfOk result (λ key. list_any (rates key.0 key.1) before.now ≡ false) }
    ensures small { IfOk result (λ key. (may_have_32_bits key.0 && may_have_32_bits key.1) ≡ true) }
    ensures group { IfOk result (λ key. value_at Key.Group (table_view entry.entry.table.now) ≡ option_map number key.0) }
    ensures ident { IfOk result (λ key. value_at Key.Ident (table_view entry.entry.table.now) ≡ option_map number key.1) }
    ensures fault { IfErr result (IsTariffFault before.now (table_view entry.entry.table.now)) }
{
    let group = entry.optional_unsigned32(Key::Group)?;
    if is_rated(before, group, None) {
        return Err(SiteFault::Twice { key: Key::Group });
    }
    let ident = entry.optional_unsigned32(Key::Ident)?;
    if group.is_none() && ident.is_none() {
        return Err(SiteFault::Missing { key: Key::Group });
    }
    if group.is_some() && ident.is_some() || is_rated(before, None, ident) {
        return Err(SiteFault::Twice { key: Key::Ident });
    }
    Ok((group, ident))
}

/// Whether one of the tariffs rates the services of a group, or of an identifier where there is no group.
fn is_rated(tariffs: &[Tariff], group: Option<u32>, ident: Option<u32>) -> bool
    ensures { result ≡ list_any (rates group ident) tariffs.now }
{
    tariffs.iter().any(|tariff| match (group, ident) {
        (Some(_), _) => tariff.group == group,
        (None, Some(_)) => tariff.ident == ident,
        (None, None) => false,
    })
}

fn kind_of(word: &str) -> Result<UnitKind, SiteFault>
    ensures value { IfOk result (λ kind. word.now ≡ unit_word kind) }
    ensures fault { IfErr result (λ fault. (fault ≡ SiteFault.OutOfRange Key.Kind) × ((kind : UnitKind) → ¬ (word.now ≡ unit_word kind))) }
{
    match word {
        "time" => Ok(UnitKind::Time),
        "octets" => Ok(UnitKind::Octets),
        "units" => Ok(UnitKind::Units),
        _ => Err(SiteFault::OutOfRange { key: Key::Kind }),
    }
}

/// The most units of a quantum and of a grant.
fn units_limit(kind: UnitKind) -> u64
    ensures { result ≡ units_limit kind }
{
    match kind {
        UnitKind::Time => SECONDS_LIMIT,
        UnitKind::Octets | UnitKind::Units => UNITS_LIMIT,
    }
}
