//! The tariffs of a site.

ghost use Rattle.std.specs.Prelude.{◌≡◌, IfOk, IfSome, IsTrue, IsOk, MatchOption};
ghost use Rattle.std.specs.Option.{option_copied};
ghost use Rattle.std.specs.List.{find, list_any};
ghost use Rattle.cc_rating.specs.Tariffs.{fault_after, fault_of, in_range, is_twice, rates};

use crate::tariff::Tariff;
use std::alloc::{AllocError, Global};
use std::marker::Model;
use thiserror::Error;

/// Why tariffs are refused.
#[derive(Clone, Copy, Debug, PartialEq, Eq, Error)]
pub enum TariffFault {
    #[error("two tariffs rate the same services, or one has a group and an identifier")]
    Twice,
    #[error("a tariff has neither group nor identifier, or a number out of its range")]
    OutOfRange,
    #[error("out of memory")]
    OutOfMemory,
}

/// The tariffs of a site: each in its ranges, and no two for the same services.
#[derive(Debug, Drop)]
pub struct Tariffs {
    tariffs: Vec<Tariff>,
}

impl Model for Tariffs {
    ghost use Rattle.std.specs.Prelude.{◌≡◌, List, None};
    ghost use Rattle.cc_rating.specs.declared.tariff.Tariff.{Tariff};
    ghost use Rattle.cc_rating.specs.Tariffs.{fault_of};

    ghost Value = { List Tariff };

    ghost view = { λ t. t.tariffs.items };

    ghost invariant = { λ t. fault_of t.tariffs.items ≡ None };
}

impl Tariffs {
    /// The tariffs of the vector. The first tariff at fault is refused, by the first fault that it has: OutOfRange
    /// where a number is out of its range or it has neither group nor identifier, then Twice where it has both or
    /// an earlier one has its key. It takes no memory.
    pub fn new(_alloc: Global, tariffs: Vec<Tariff>) -> Result<Self, TariffFault>
        ensures value { IfOk result (λ made. made ≡ tariffs.items) }
        ensures fault { MatchOption (fault_of tariffs.items) (IsOk result) (λ f. result ≡ Err f) }
    {
        match first_fault(&tariffs) {
            Some(fault) => Err(fault),
            None => Ok(Tariffs { tariffs }),
        }
    }

    /// A copy in memory of its own.
    pub fn copy(&self, alloc: Global) -> Result<Self, AllocError>
        ensures { IfOk result (λ copy. copy ≡ self.now) }
    {
        let tariffs = self.tariffs.to_vec(alloc)?;
        Ok(Tariffs { tariffs })
    }

    /// The tariffs themselves, in their order.
    pub fn as_slice(&self) -> &[Tariff]
        ensures value { result.now ≡ self.now }
        ensures sound { fault_of self.now ≡ None }
    {
        &self.tariffs
    }

    /// The tariff of a service: by its Rating-Group where it has one, else by its Service-Identifier.
    pub fn find(&self, group: Option<u32>, ident: Option<u32>) -> Option<&Tariff>
        ensures value { option_copied result ≡ find (rates group ident) self.now }
        ensures rates { IfSome result (λ tariff. IsTrue (in_range tariff.now)) }
    {
        first_rating(&self.tariffs, group, ident)
    }
}

fn first_fault(tariffs: &[Tariff]) -> Option<TariffFault>
    ensures { result ≡ fault_of tariffs.now }
{
    for (i, tariff) in tariffs.iter().enumerate() {
        if let Some(fault) = fault_after(&tariffs[..i], tariff) {
            return Some(fault);
        }
    }
    None
}

/// The fault of a tariff with these before it.
fn fault_after(before: &[Tariff], tariff: &Tariff) -> Option<TariffFault>
    ensures { result ≡ fault_after before.now tariff.now }
{
    if !tariff.is_in_range() {
        Some(TariffFault::OutOfRange)
    } else if is_twice(before, tariff) {
        Some(TariffFault::Twice)
    } else {
        None
    }
}

fn is_twice(before: &[Tariff], tariff: &Tariff) -> bool
    ensures { result ≡ is_twice before.now tariff.now }
{
    tariff.group.is_some() && tariff.ident.is_some() || is_rated(before, tariff.group, tariff.ident)
}

fn is_rated(tariffs: &[Tariff], group: Option<u32>, ident: Option<u32>) -> bool
    ensures { result ≡ list_any (rates group ident) tariffs.now }
{
    tariffs.iter().any(|tariff| tariff.rates(group, ident))
}

fn first_rating<'a>(
    tariffs: &'a [Tariff],
    group: Option<u32>,
    ident: Option<u32>,
) -> Option<&'a Tariff>
    ensures { option_copied result ≡ find (rates group ident) tariffs.now }
{
    tariffs.iter().find(|tariff| tariff.rates(group, ident))
}
