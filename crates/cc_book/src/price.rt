//! The tariffs at which services were granted.

ghost use Rattle.std.specs.Prelude.{◌≡◌, [], IfOk, IfSome, IsTrue};
ghost use Rattle.std.specs.List.{find};
ghost use Rattle.std.specs.Option.{option_copied};
ghost use Rattle.cc_rating.specs.Tariffs.{in_range, rates};
ghost use Rattle.cc_book.specs.Pricing.{is_price, is_priced, new_prices, price_for, price_in, prices_after, prices_beside};

use crate::session::Hold;
use cc_rating::{Tariff, Tariffs};
use cc_view::ServiceName;
use std::alloc::{AllocError, Global};
use std::marker::Model;

/// The tariff at which a service was granted.
#[derive(Clone, Copy, Debug, PartialEq, Eq)]
pub struct Price {
    pub service: ServiceName,
    pub tariff: Tariff,
}

impl Price {
    /// Whether it is that of a service.
    fn is_of(&self, name: ServiceName) -> bool
        ensures { result ≡ is_price name self.now }
    {
        self.service.group == name.group && self.service.ident == name.ident
    }
}

/// The tariffs at which the services of a session were last granted, each of them in its ranges. They outlast the grants:
/// what was used of a grant is paid for at its price, also once nothing is held for it.
#[derive(Debug, Drop)]
pub struct Prices {
    prices: Vec<Price>,
}

impl Model for Prices {
    ghost use Rattle.std.specs.Prelude.{List};
    ghost use Rattle.cc_book.specs.declared.price.Price.{Price};
    ghost use Rattle.cc_book.specs.Pricing.{AreInRange};

    ghost Value = { List Price };

    ghost view = { λ p. p.prices.items };

    ghost invariant = { λ p. AreInRange p.prices.items };
}

impl Prices {
    /// Before the first grant.
    pub fn none(alloc: Global) -> Self
        ensures { result ≡ [] }
    {
        Prices {
            prices: Vec::new(alloc),
        }
    }

    /// The price of each service.
    pub fn as_slice(&self) -> &[Price]
        ensures { result.now ≡ self.now }
    {
        &self.prices
    }

    /// The tariff at which a service was last granted.
    pub fn find(&self, name: ServiceName) -> Option<Tariff>
        ensures value { result ≡ price_in self.now name }
        ensures rates { IfSome result (λ tariff. IsTrue (in_range tariff)) }
    {
        price_in(&self.prices, name)
    }

    /// The same prices.
    pub fn copy(&self, alloc: Global) -> Result<Self, AllocError>
        ensures { IfOk result (λ copy. copy ≡ self.now) }
    {
        Ok(Prices {
            prices: self.prices.to_vec(alloc)?,
        })
    }

    /// The prices after more grants, which were made by these tariffs.
    pub fn after(
        &self,
        alloc: Global,
        tariffs: &Tariffs,
        grants: &[Hold],
    ) -> Result<Self, AllocError>
        ensures { IfOk result (λ prices. prices ≡ prices_after tariffs.now self.now grants.now) }
    {
        let mut prices = new_prices(alloc, tariffs.as_slice(), grants)?;
        let mut beside = prices_beside(alloc, &prices, &self.prices)?;
        prices.append(&mut beside)?;
        Ok(Prices { prices })
    }
}

fn price_in(prices: &[Price], name: ServiceName) -> Option<Tariff>
    ensures { result ≡ price_in prices.now name }
{
    let price = first_price(prices, name);
    price.map(|price| price.tariff)
}

fn first_price(prices: &[Price], name: ServiceName) -> Option<&Price>
    ensures { option_copied result ≡ find (is_price name) prices.now }
{
    prices.iter().find(|price| price.is_of(name))
}

/// The prices of grants that were made by these tariffs.
fn new_prices(alloc: Global, tariffs: &[Tariff], grants: &[Hold]) -> Result<Vec<Price>, AllocError>
    ensures { IfOk result (λ prices. prices.items ≡ new_prices tariffs.now grants.now) }
{
    grants
        .iter()
        .filter_map(|hold| price_for(tariffs, hold))
        .collect(alloc)
}

fn price_for(tariffs: &[Tariff], hold: &Hold) -> Option<Price>
    ensures { result ≡ price_for tariffs.now hold.now }
{
    let tariff = tariff_of(tariffs, hold.service);
    tariff.map(|tariff| Price {
        service: hold.service,
        tariff: *tariff,
    })
}

fn tariff_of(tariffs: &[Tariff], name: ServiceName) -> Option<&Tariff>
    ensures { option_copied result ≡ find (rates name.group name.ident) tariffs.now }
{
    tariffs
        .iter()
        .find(|tariff| tariff.rates(name.group, name.ident))
}

/// The prices of other services than those of the new ones.
fn prices_beside(alloc: Global, new: &[Price], prices: &[Price]) -> Result<Vec<Price>, AllocError>
    ensures { IfOk result (λ beside. beside.items ≡ prices_beside new.now prices.now) }
{
    prices
        .iter()
        .copied()
        .filter(|price| !is_priced(new, price.service))
        .collect(alloc)
}

/// Whether one of these prices is of a service.
fn is_priced(prices: &[Price], name: ServiceName) -> bool
    ensures { result ≡ is_priced prices.now name }
{
    prices.iter().any(|price| price.is_of(name))
}
