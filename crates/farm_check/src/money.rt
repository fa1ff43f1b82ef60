//! Tariffs and accounts of a site: what units cost, and what the accounts come to.

ghost use Rattle.std.specs.Prelude.{◌≡◌, option_map};
ghost use Rattle.std.specs.List.{find};
ghost use Rattle.cc_rating.specs.Rating.{cost_of};
ghost use Rattle.cc_rating.specs.Tariffs.{rates};

use crate::lines::Lines;
use cc_book::Account;
use cc_rating::{Tariff, Tariffs, UnitKind};
use farm_base::Site;
use std::alloc::{AllocError, Global};

/// The tariffs in the order of the file, then how many accounts there are.
pub fn push_money(
    alloc: Global,
    lines: &mut Lines,
    site: &Site,
    accounts: &[Account],
    tariffs: &Tariffs,
) -> Result<(), AllocError> {
    let (currency, exponent) = (site.currency, site.exponent);
    let line = format!(in alloc;
        "amounts are in units of 10 to the {exponent} of currency {currency}"
    )?;
    lines.push(line.as_str())?;
    for tariff in site.tariffs.as_slice() {
        lines.push(tariff_line(alloc, tariffs, tariff)?.as_str())?;
    }
    let (count, sum) = (accounts.len(), opening_sum(accounts));
    lines.push(format!(in alloc; "accounts: {count}, with openings of {sum} in all")?.as_str())
}

/// The sum of all openings; so many numbers of 64 bits as there can be accounts do not come to the limits of 128.
fn opening_sum(accounts: &[Account]) -> i128 {
    let mut sum: i128 = 0;
    for account in accounts {
        sum = sum.saturating_add(i128::from(account.opening));
    }
    sum
}

/// Which services a tariff is for.
pub fn services_of(alloc: Global, tariff: &Tariff) -> Result<String, AllocError> {
    match (tariff.group, tariff.ident) {
        (Some(group), _) => format!(in alloc; "group {group}"),
        (None, Some(ident)) => format!(in alloc; "ident {ident}"),
        (None, None) => String::from_str(alloc, "of nothing"),
    }
}

/// What so many units cost by the tariff that rates the services of this one, in minor units.
pub fn cost_by(tariffs: &Tariffs, tariff: &Tariff, units: u64) -> Option<u128>
    ensures { result ≡ option_map (λ found. cost_of found units) (find (rates tariff.now.group tariff.now.ident) tariffs.now) }
{
    match tariffs.find(tariff.group, tariff.ident) {
        Some(found) => Some(found.cost(units as u128)),
        None => None,
    }
}

/// An amount of units that a person knows, and what it is called.
fn sample_of(kind: UnitKind) -> (u64, &'static str) {
    match kind {
        UnitKind::Time => (60, "1 minute"),
        UnitKind::Octets => (1_000_000, "1 MB"),
        UnitKind::Units => (1, "1 unit"),
    }
}

fn tariff_line(alloc: Global, tariffs: &Tariffs, tariff: &Tariff) -> Result<String, AllocError> {
    let (units, words) = sample_of(tariff.kind);
    let (services, greatest) = (services_of(alloc, tariff)?, tariff.greatest);
    let one = cost_by(tariffs, tariff, units).unwrap_or(0);
    let most = cost_by(tariffs, tariff, greatest).unwrap_or(0);
    format!(in alloc;
        "tariff {services}: {words} costs {one}; at most {greatest} are granted at once, for {most}"
    )
}
