//! Subscription-Ids in order, each found in a time that does not grow with them.

ghost use Rattle.std.specs.Prelude.{◌≡◌, ◌++◌, ◌∷◌, [], List, not, IfOk, OnOk};
ghost use Rattle.std.specs.List.{filter, list_any};
ghost use Rattle.cc_book.specs.TermsChange.{is_among, owns};
ghost use Rattle.cc_book.specs.Owners.{Knows};

use crate::account::Account;
use cc_view::Subscription;
use indexmap::IndexSet;
use std::alloc::{AllocError, Global};
use std::marker::Model;

/// Subscription-Ids in order.
#[derive(Debug)]
pub struct Subscriptions {
    items: Vec<Subscription>,
    known: IndexSet<Subscription>,
}

// By hand, so that each exit of an owner is proved with one call.
impl Drop for Subscriptions {
    fn drop(self) {
        let Subscriptions { items: _, known: _ } = self;
    }
}

impl Model for Subscriptions {
    ghost use Rattle.std.specs.Prelude.{List};
    ghost use Rattle.cc_view.specs.declared.request.Subscription.{Subscription};
    ghost use Rattle.cc_book.specs.Owners.{Knows};

    ghost Value = { List Subscription };

    ghost view = { λ ids. ids.items.items };

    ghost invariant = { λ ids. Knows ids.items.items ids.known };
}

impl Subscriptions {
    /// No Subscription-Ids, which takes no memory.
    pub fn empty(alloc: Global) -> Self
        ensures { result ≡ [] }
    {
        Subscriptions {
            items: Vec::new(alloc),
            known: IndexSet::new(alloc),
        }
    }

    /// These, in this order.
    pub fn from_vec(alloc: Global, items: Vec<Subscription>) -> Result<Self, AllocError>
        ensures { IfOk result (λ ids. ids ≡ items.items) }
    {
        let known = known_of(alloc, &items)?;
        Ok(Subscriptions { items, known })
    }

    /// The Subscription-Ids themselves.
    pub fn as_slice(&self) -> &[Subscription]
        ensures { result.now ≡ self.now }
    {
        &self.items
    }

    /// Whether one of them is this one, by type and text.
    pub fn contains(&self, id: &Subscription) -> bool
        ensures { result ≡ is_among self.now id.now }
    {
        self.known.contains(id)
    }

    /// Those that are not among some, and behind them others.
    pub fn without(
        &self,
        alloc: Global,
        some: &Subscriptions,
        others: &[Subscription],
    ) -> Result<Vec<Subscription>, AllocError>
        ensures { IfOk result (λ ids. ids.items ≡ filter (λ id. not (is_among some.now id)) self.now ++ others.now) }
    {
        let mut ids = self.items.to_vec(alloc)?;
        ids.retain(|id| !some.contains(id));
        ids.append(&mut others.to_vec(alloc)?)?;
        Ok(ids)
    }

    /// Whether one of them is that of an account.
    pub fn contains_owner_of(&self, account: &Account) -> bool
        ensures { result ≡ list_any (λ id. owns id account.now) self.now }
    {
        self.known.contains(account.owner())
    }
}

/// The set of these Subscription-Ids.
fn known_of(alloc: Global, ids: &[Subscription]) -> Result<IndexSet<Subscription>, AllocError>
    ensures { IfOk result (Knows ids.now) }
{
    let mut known = IndexSet::with_capacity(alloc, ids.len())?;
    for id in ids {
        add_known(&mut known, id)?;
    }
    Ok(known)
}

/// Adds a Subscription-Id.
fn add_known(known: &mut IndexSet<Subscription>, id: &Subscription) -> Result<(), AllocError>
    ensures ok { OnOk result ((ids : List Subscription) → Knows ids known.old → Knows (ids ++ id.now ∷ []) known.new) }
{
    known.insert(id.clone()?)?;
    Ok(())
}
