//! The terms that a book began with, and those that hold now.

ghost use Rattle.std.specs.Prelude.{◌≡◌, IfOk, OnOk, OnErr};
ghost use Rattle.cc_book.specs.TermsChange.{changed_terms};

use crate::accounts::Accounts;
use crate::subscriptions::Subscriptions;
use crate::terms::Terms;
use crate::terms_change::TermsChange;
use cc_rating::Tariffs;
use std::alloc::{AllocError, Global};
use std::marker::Model;

/// The terms that a book began with, and those that hold now. Both have one list of accounts, since accounts only join
/// behind others.
#[derive(Debug)]
pub struct KeptTerms {
    current: Terms,
    /// How many accounts there were at first.
    first_accounts: usize,
    /// Those that were closed at first.
    first_closed: Subscriptions,
    first_tariffs: Tariffs,
}

// By hand, so that each exit of an owner is proved with one call.
impl Drop for KeptTerms {
    fn drop(self) {
        let KeptTerms {
            current: _,
            first_accounts: _,
            first_closed: _,
            first_tariffs: _,
        } = self;
    }
}

impl Model for KeptTerms {
    ghost use Rattle.std.specs.Prelude.{◌≤◌, length, take};
    ghost use Rattle.cc_book.specs.TermsChange.{TermsOfBook};

    ghost Value = { TermsOfBook };

    ghost view = { λ kept. record {
      begun = record { accounts = take kept.first_accounts kept.current.accounts; closed = kept.first_closed; tariffs = kept.first_tariffs; validity = kept.current.validity; money = kept.current.money };
      current = kept.current;
    } };

    ghost invariant = { λ kept. kept.first_accounts ≤ length kept.current.accounts };
}

impl KeptTerms {
    /// Terms that have not changed yet.
    pub fn of(alloc: Global, terms: Terms) -> Result<Self, AllocError>
        ensures { IfOk result (λ kept. kept ≡ record { begun = terms; current = terms }) }
    {
        let closed = terms.closed.as_slice().to_vec(alloc)?;
        let current = terms.indexed(alloc)?;
        Ok(KeptTerms {
            first_accounts: current.accounts.len(),
            first_closed: Subscriptions::from_vec(alloc, closed)?,
            first_tariffs: current.tariffs.copy(alloc)?,
            current,
        })
    }

    /// The terms that hold now.
    pub fn current(&self) -> &Terms
        ensures { result.now ≡ self.now.current }
    {
        &self.current
    }

    /// Validity-Time in seconds, which no change touches.
    pub fn validity(&self) -> u32
        ensures { result ≡ self.now.begun.validity }
    {
        self.current.validity
    }

    /// A copy of the terms that the book began with. Its accounts are a list alone.
    pub fn begun(&self, alloc: Global) -> Result<Terms, AllocError>
        ensures { IfOk result (λ terms. terms ≡ self.now.begun) }
    {
        let accounts = self.current.accounts.as_slice()[..self.first_accounts].to_vec(alloc)?;
        let closed = self.first_closed.as_slice().to_vec(alloc)?;
        Ok(Terms {
            accounts: Accounts::list(accounts),
            closed: Subscriptions::from_vec(alloc, closed)?,
            tariffs: self.first_tariffs.copy(alloc)?,
            validity: self.current.validity,
            money: self.current.money,
        })
    }

    /// Changes those that hold. An error leaves them as they are.
    pub fn change(&mut self, alloc: Global, change: &TermsChange) -> Result<(), AllocError>
        ensures begun { self.new.begun ≡ self.old.begun }
        ensures ok { OnOk result (self.new.current ≡ changed_terms self.old.current change.now) }
        ensures err { OnErr result (self.new.current ≡ self.old.current) }
    {
        self.current.change(alloc, change)
    }
}
