//! Changes of the terms.

ghost use Rattle.std.specs.Prelude.{◌≡◌, ◌<◌, ◌++◌, [], IfOk, OnOk, OnErr, length, not, take, unwrap_or};
ghost use Rattle.std.specs.List.{filter};
ghost use Rattle.cc_book.specs.declared.terms_change.ChangeRefusal.TheVariants.{OutOfMemory};
ghost use Rattle.cc_book.specs.TermsChange.{account_fault, closed_by, closing_fault, fault_of_change, first_fault, is_among, joining_fault, reopening_fault, same_subscription, says_nothing, standing_fault};

use crate::account::Account;
use crate::accounts::Accounts;
use crate::subscriptions::Subscriptions;
use crate::terms::Terms;
use cc_rating::Tariffs;
use cc_view::Subscription;
use dia_base::Listing;
use std::alloc::{AllocError, Global};
use thiserror::Error;

/// What changes of the terms, from the place of its entry on. Validity-Time and money stay what the book began with.
#[derive(Debug)]
pub struct TermsChange {
    /// The accounts that join, behind those that are there.
    pub joining: Accounts,
    /// The Subscription-Ids of the accounts that close. A closed account keeps its balance and settles what its open sessions used;
    /// it is granted nothing more, and no request names it.
    pub closing: Listing<Subscription>,
    /// The Subscription-Ids of the accounts that open again.
    pub reopening: Listing<Subscription>,
    /// The tariffs that hold from now on, all of them. None where those stay that hold.
    pub tariffs: Option<Tariffs>,
}

// By hand, so that each exit of an owner is proved with one call.
impl Drop for TermsChange {
    fn drop(self) {
        let TermsChange {
            joining: _,
            closing: _,
            reopening: _,
            tariffs: _,
        } = self;
    }
}

/// Why the book does not change its terms. It is unchanged then.
#[derive(Clone, Copy, Debug, PartialEq, Eq, Error)]
pub enum ChangeRefusal {
    #[error("the change says nothing")]
    Nothing,
    /// `place` is that of the account among those that join, from 0.
    #[error("account {place} of those that join has the Subscription-Id of an account that is there")]
    AlreadyThere { place: usize },
    /// `place` is that of the account among those that join, from 0.
    #[error("account {place} of those that join has the Subscription-Id of one before it")]
    Twice { place: usize },
    /// `place` is that of the account among those that close, from 0.
    #[error("account {place} of those that close is not there")]
    NotThere { place: usize },
    /// `place` is that of the account among those that close, from 0.
    #[error("account {place} of those that close is closed already")]
    ClosedAlready { place: usize },
    /// `place` is that of the account among those that close, from 0.
    #[error("account {place} of those that close is one before it")]
    ClosedTwice { place: usize },
    /// `place` is that of the account among those that open again, from 0.
    #[error("account {place} of those that open again is not closed")]
    NotClosed { place: usize },
    /// `place` is that of the account among those that open again, from 0.
    #[error("account {place} of those that open again is one before it")]
    ReopenedTwice { place: usize },
    /// The history is at its limit.
    #[error("the history has {limit} entries, which is its limit")]
    Full { limit: u64 },
    #[error("out of memory")]
    OutOfMemory,
}

impl From<AllocError> for ChangeRefusal {
    ghost from_gives = { λ _ e. e ≡ OutOfMemory };

    fn from(_e: AllocError) -> ChangeRefusal {
        ChangeRefusal::OutOfMemory
    }
}

impl TermsChange {
    /// What is wrong with it as a change of these terms. None where it can be made.
    pub fn fault(&self, terms: &Terms) -> Option<ChangeRefusal>
        ensures { result ≡ fault_of_change terms.now self.now }
    {
        if self.says_nothing() {
            return Some(ChangeRefusal::Nothing);
        }
        match joining_fault(&terms.accounts, &self.joining) {
            Some(fault) => Some(fault),
            None => self.standing_fault(terms),
        }
    }

    /// The first fault of the accounts that close, and then of those that open again.
    fn standing_fault(&self, terms: &Terms) -> Option<ChangeRefusal>
        ensures { result ≡ standing_fault terms.now self.now }
    {
        match terms.closing_fault(self.closing.as_slice()) {
            Some(fault) => Some(fault),
            None => terms.reopening_fault(self.reopening.as_slice()),
        }
    }

    /// Whether it changes nothing: no account joins, closes or opens again, and the tariffs stay.
    pub fn says_nothing(&self) -> bool
        ensures { result ≡ says_nothing self.now }
    {
        self.joining.is_empty()
            && self.closing.is_empty()
            && self.reopening.is_empty()
            && self.tariffs.is_none()
    }

    /// The same, whose accounts that join are a list alone ([`Accounts::into_list`]).
    pub fn into_list(self) -> TermsChange
        ensures { result ≡ self }
    {
        let TermsChange {
            joining,
            closing,
            reopening,
            tariffs,
        } = self;
        TermsChange {
            joining: joining.into_list(),
            closing,
            reopening,
            tariffs,
        }
    }

    /// A copy in memory of its own.
    pub fn copy(&self, alloc: Global) -> Result<TermsChange, AllocError>
        ensures { IfOk result (λ copy. copy ≡ self.now) }
    {
        let joining = self.joining.as_slice().to_vec(alloc)?;
        let joining = Accounts::from_vec(alloc, joining)?;
        let closing = self.closing.as_slice().to_vec(alloc)?;
        let reopening = self.reopening.as_slice().to_vec(alloc)?;
        Ok(TermsChange {
            joining,
            closing: Listing::from_vec(closing),
            reopening: Listing::from_vec(reopening),
            tariffs: copy_of_some(alloc, &self.tariffs)?,
        })
    }
}

/// The first fault of the accounts that join these.
#[tactic(auto, using(crate::proofs::Joining::joining_fault_at))]
fn joining_fault(accounts: &Accounts, joining: &Accounts) -> Option<ChangeRefusal>
    ensures { result ≡ joining_fault accounts.now [] joining.now }
{
    for (place, account) in joining.as_slice().iter().enumerate() {
        if let Some(fault) = account_fault(accounts, joining, place, account) {
            return Some(fault);
        }
    }
    None
}

/// What is wrong with the account at a place of those that join these.
fn account_fault(
    accounts: &Accounts,
    joining: &Accounts,
    place: usize,
    account: &Account,
) -> Option<ChangeRefusal>
    requires { place < length joining.now }
    ensures { result ≡ account_fault accounts.now (take place joining.now) account.now }
{
    if accounts.has_owner_of(account) {
        Some(ChangeRefusal::AlreadyThere { place })
    } else if joining.has_owner_before(place, account) {
        Some(ChangeRefusal::Twice { place })
    } else {
        None
    }
}

/// Whether both are one Subscription-Id, by type and text.
fn same_subscription(one: &Subscription, other: &Subscription) -> bool
    ensures { result ≡ same_subscription one.now other.now }
{
    one.kind == other.kind && one.text == other.text
}

/// Whether a Subscription-Id is one of these.
fn is_among(subscriptions: &[Subscription], subscription: &Subscription) -> bool
    ensures { result ≡ is_among subscriptions.now subscription.now }
{
    subscriptions
        .iter()
        .any(|other| same_subscription(subscription, other))
}

impl Terms {
    ghost use Rattle.cc_book.specs.TermsChange.{changed_terms};

    /// The first fault of the accounts that close.
    #[tactic(auto, using(crate::proofs::Joining::first_fault_at))]
    fn closing_fault(&self, closing: &[Subscription]) -> Option<ChangeRefusal>
        ensures { result ≡ first_fault (closing_fault self.now) [] closing.now }
    {
        for (place, subscription) in closing.iter().enumerate() {
            if let Some(fault) = self.fault_of_closing(&closing[..place], subscription) {
                return Some(fault);
            }
        }
        None
    }

    /// What is wrong with an account that closes, where these close before it.
    fn fault_of_closing(
        &self,
        before: &[Subscription],
        subscription: &Subscription,
    ) -> Option<ChangeRefusal>
        ensures { result ≡ closing_fault self.now before.now subscription.now }
    {
        let place = before.len();
        if self.accounts.find(subscription).is_none() {
            Some(ChangeRefusal::NotThere { place })
        } else if self.closed.contains(subscription) {
            Some(ChangeRefusal::ClosedAlready { place })
        } else if is_among(before, subscription) {
            Some(ChangeRefusal::ClosedTwice { place })
        } else {
            None
        }
    }

    /// The first fault of the accounts that open again.
    #[tactic(auto, using(crate::proofs::Joining::first_fault_at))]
    fn reopening_fault(&self, reopening: &[Subscription]) -> Option<ChangeRefusal>
        ensures { result ≡ first_fault (reopening_fault self.now) [] reopening.now }
    {
        for (place, subscription) in reopening.iter().enumerate() {
            if let Some(fault) = self.fault_of_reopening(&reopening[..place], subscription) {
                return Some(fault);
            }
        }
        None
    }

    /// What is wrong with an account that opens again, where these do so before it.
    fn fault_of_reopening(
        &self,
        before: &[Subscription],
        subscription: &Subscription,
    ) -> Option<ChangeRefusal>
        ensures { result ≡ reopening_fault self.now before.now subscription.now }
    {
        let place = before.len();
        if !self.closed.contains(subscription) {
            Some(ChangeRefusal::NotClosed { place })
        } else if is_among(before, subscription) {
            Some(ChangeRefusal::ReopenedTwice { place })
        } else {
            None
        }
    }

    /// The Subscription-Ids of closed accounts after a change.
    fn closed_after(&self, alloc: Global, change: &TermsChange) -> Result<Subscriptions, AllocError>
        ensures { IfOk result (λ closed. closed ≡ closed_by change.now self.now.closed) }
    {
        let reopening = change.reopening.as_slice().to_vec(alloc)?;
        let reopening = Subscriptions::from_vec(alloc, reopening)?;
        let closed = self
            .closed
            .without(alloc, &reopening, change.closing.as_slice())?;
        Subscriptions::from_vec(alloc, closed)
    }

    /// The terms after a change.
    pub fn changed(&self, alloc: Global, change: &TermsChange) -> Result<Terms, AllocError>
        ensures { IfOk result (λ terms. terms ≡ changed_terms self.now change.now) }
    {
        let mut terms = self.copy(alloc)?;
        terms.change(alloc, change)?;
        Ok(terms)
    }

    /// A copy in memory of its own.
    pub fn copy(&self, alloc: Global) -> Result<Terms, AllocError>
        ensures { IfOk result (λ copy. copy ≡ self.now) }
    {
        let accounts = self.accounts.as_slice().to_vec(alloc)?;
        let closed = self.closed.as_slice().to_vec(alloc)?;
        Ok(Terms {
            accounts: Accounts::from_vec(alloc, accounts)?,
            closed: Subscriptions::from_vec(alloc, closed)?,
            tariffs: self.tariffs.copy(alloc)?,
            validity: self.validity,
            money: self.money,
        })
    }

    /// The same, with accounts that are each found by their Subscription-Ids.
    pub fn indexed(self, alloc: Global) -> Result<Terms, AllocError>
        ensures { IfOk result (λ terms. terms ≡ self) }
    {
        Ok(Terms {
            accounts: self.accounts.indexed(alloc)?,
            closed: self.closed,
            tariffs: self.tariffs,
            validity: self.validity,
            money: self.money,
        })
    }

    /// Changes them, in a time that does not grow with the accounts that are there. An error leaves them as they are.
    pub fn change(&mut self, alloc: Global, change: &TermsChange) -> Result<(), AllocError>
        ensures ok { OnOk result (self.new ≡ changed_terms self.old change.now) }
        ensures err { OnErr result (self.new ≡ self.old) }
    {
        let closed = self.closed_after(alloc, change)?;
        let tariffs = self.tariffs_after(change).copy(alloc)?;
        self.accounts.join(change.joining.as_slice())?;
        self.closed = closed;
        self.tariffs = tariffs;
        Ok(())
    }

    /// The tariffs after a change.
    fn tariffs_after<'a>(&'a self, change: &'a TermsChange) -> &'a Tariffs
        ensures { result.now ≡ unwrap_or change.now.tariffs self.now.tariffs }
    {
        match &change.tariffs {
            Some(tariffs) => tariffs,
            None => &self.tariffs,
        }
    }
}

/// A copy of the tariffs that a change says, if it says any.
fn copy_of_some(alloc: Global, tariffs: &Option<Tariffs>) -> Result<Option<Tariffs>, AllocError>
    ensures { IfOk result (λ copy. copy ≡ tariffs.now) }
{
    match tariffs {
        Some(tariffs) => Ok(Some(tariffs.copy(alloc)?)),
        None => Ok(None),
    }
}
