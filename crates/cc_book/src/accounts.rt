//! Accounts in order, each found by its Subscription-Id in a time that does not grow with them.

ghost use Rattle.std.specs.Prelude.{◌≡◌, ◌==◌, ◌<◌, ◌++◌, ◌∷◌, [], IfOk, IfSome, OnOk, OnErr, length, take};
ghost use Rattle.std.specs.List.{list_any};
ghost use Rattle.cc_book.specs.TermsChange.{account_with, owns, same_owner};
ghost use Rattle.cc_book.specs.Owners.{Finds, confirmed, digest_of, has_digest};

use crate::account::Account;
use cc_view::Subscription;
use dia_avp::Octets;
use indexmap::{Equivalent, IndexMap};
use std::alloc::{AllocError, Global};
use std::hash::{DefaultHasher, Hash, Hasher};
use std::marker::Model;

/// The Subscription-Id of an account, to be looked up.
#[derive(Clone, Copy, PartialEq, Eq, Hash)]
pub struct Owner<'a> {
    pub kind: u32,
    pub text: &'a Octets,
}

impl<'a> Equivalent<Subscription> for Owner<'a> {
    ghost use Rattle.std.specs.Prelude.{◌&&◌, ◌==◌, ◌++◌};
    ghost use Rattle.std.proofs.Common.{ap, rules};
    ghost use Rattle.std.specs.Hash as fed;
    ghost use Rattle.cc_view.specs.declared.request.Subscription.{Subscription};
    ghost use Rattle.cc_book.specs.Duplicate.{same_session};
    ghost use Rattle.cc_book.specs.TermsChange.{same_subscription};
    ghost use Rattle.cc_book.specs.Owners.{one_subscription};

    ghost equivalent = { λ owner id. owner.kind == id.kind && same_session owner.text.now id.text };

    ghost respects_hash = { λ owner id same. ap (λ (s : Subscription). fed.u32 s.kind ++ fed.slice fed.u8 s.text) (one_subscription (record { kind = owner.kind; text = owner.text.now }) id (Prim.search rules)) };

    ghost respects_eq = { λ owner one other same. ap (λ (s : Subscription). same_subscription s other) (one_subscription (record { kind = owner.kind; text = owner.text.now }) one (Prim.search rules)) };

    fn equivalent(&self, key: &Subscription) -> bool {
        self.kind == key.kind && *self.text == key.text
    }
}

impl<'a> Owner<'a> {
    /// A number that few other owners have: SipHash over the text and the type, in this order, since it reads a text from its
    /// beginning eight octets at a time.
    #[tactic(auto, unfolding(crate::specs::Owners::digest_of))]
    fn digest(self) -> u64
        ensures { result ≡ digest_of (record { kind = self.entry.kind; text = self.entry.text.now }) }
    {
        let mut hasher = DefaultHasher::new();
        hasher.write(self.text.as_slice());
        hasher.write_u32(self.kind);
        hasher.finish()
    }
}

impl Account {
    /// The Subscription-Id of its owner.
    pub fn owner(&self) -> Owner<'_>
        ensures kind { result.kind ≡ self.now.id_kind }
        ensures text { result.text.now ≡ self.now.id }
    {
        Owner {
            kind: self.id_kind,
            text: &self.id,
        }
    }
}

/// Accounts in order, each found by its Subscription-Id.
#[derive(Debug)]
pub struct Accounts {
    items: Vec<Account>,
    /// The place of the first account with each digest. A place is to be confirmed: a join that wanted memory leaves
    /// places at which no such account stands. None of a list alone.
    firsts: Option<IndexMap<u64, usize>>,
}

// By hand, so that each exit of an owner is proved with one call.
impl Drop for Accounts {
    fn drop(self) {
        let Accounts {
            items: _,
            firsts: _,
        } = self;
    }
}

impl Model for Accounts {
    ghost use Rattle.std.specs.Prelude.{IfSome, List};
    ghost use Rattle.cc_book.specs.declared.account.Account.{Account};
    ghost use Rattle.cc_book.specs.Owners.{Finds};

    ghost Value = { List Account };

    ghost view = { λ accounts. accounts.items.items };

    ghost invariant = { λ accounts. IfSome accounts.firsts (Finds accounts.items.items) };
}

impl Accounts {
    /// These accounts, in this order.
    pub fn from_vec(alloc: Global, items: Vec<Account>) -> Result<Self, AllocError>
        ensures { IfOk result (λ accounts. accounts ≡ items.items) }
    {
        let firsts = firsts_of(alloc, &items)?;
        Ok(Accounts {
            items,
            firsts: Some(firsts),
        })
    }

    /// These accounts, in this order, as a list alone: in it an account is looked for from the first on.
    pub fn list(items: Vec<Account>) -> Self
        ensures { result ≡ items.items }
    {
        Accounts {
            items,
            firsts: None,
        }
    }

    /// How many there are.
    pub fn len(&self) -> usize
        ensures { result ≡ length self.now }
    {
        self.items.len()
    }

    /// Whether there is none.
    pub fn is_empty(&self) -> bool
        ensures { result ≡ (length self.now == 0) }
    {
        self.items.is_empty()
    }

    /// The same, each found by its Subscription-Id.
    pub fn indexed(self, alloc: Global) -> Result<Self, AllocError>
        ensures { IfOk result (λ accounts. accounts ≡ self) }
    {
        if self.firsts.is_some() {
            return Ok(self);
        }
        let Accounts { items, firsts: _ } = self;
        Accounts::from_vec(alloc, items)
    }

    /// The same as a list alone, which takes less memory.
    pub fn into_list(self) -> Self
        ensures { result ≡ self }
    {
        let Accounts { items, firsts: _ } = self;
        Accounts::list(items)
    }

    /// The accounts themselves.
    pub fn as_slice(&self) -> &[Account]
        ensures { result.now ≡ self.now }
    {
        &self.items
    }

    /// The place of the first account with this Subscription-Id.
    pub fn find(&self, id: &Subscription) -> Option<usize>
        ensures value { result ≡ account_with self.now id.now }
        ensures within { IfSome result (λ account. account < length self.now) }
    {
        self.place_of(Owner {
            kind: id.kind,
            text: &id.text,
        })
    }

    /// Whether one of them has the Subscription-Id of this one.
    pub fn has_owner_of(&self, account: &Account) -> bool
        ensures { result ≡ list_any (same_owner account.now) self.now }
    {
        self.place_of(account.owner()).is_some()
    }

    /// Whether one of them before this place has the Subscription-Id of this one.
    pub fn has_owner_before(&self, place: usize, account: &Account) -> bool
        ensures { result ≡ list_any (same_owner account.now) (take place self.now) }
    {
        match self.place_of(account.owner()) {
            Some(first) => first < place,
            None => false,
        }
    }

    /// The place of the first account of an owner.
    fn place_of(&self, owner: Owner<'_>) -> Option<usize>
        ensures value { result ≡ account_with self.now (record { kind = owner.entry.kind; text = owner.entry.text.now }) }
        ensures within { IfSome result (λ account. account < length self.now) }
    {
        match &self.firsts {
            Some(firsts) => indexed_place(&self.items, firsts, owner),
            None => first_place(&self.items, owner),
        }
    }

    /// An account joins behind these. An error leaves them as they are.
    fn push(&mut self, account: Account) -> Result<(), AllocError>
        ensures ok { OnOk result (self.new ≡ self.old ++ account ∷ []) }
        ensures err { OnErr result (self.new ≡ self.old) }
    {
        if let Some(firsts) = &mut self.firsts {
            add_place(&self.items, firsts, &account)?;
        }
        self.items.push(account)?;
        Ok(())
    }

    /// Accounts join behind these, all of them or, after an error, none.
    pub fn join(&mut self, joining: &[Account]) -> Result<(), AllocError>
        ensures ok { OnOk result (self.new ≡ self.old ++ joining.now) }
        ensures err { OnErr result (self.new ≡ self.old) }
    {
        let count = self.items.len();
        let joined = self.push_all(joining);
        if joined.is_err() {
            self.items.truncate(count);
        }
        joined
    }

    /// Accounts join behind these. After an error some may have joined.
    fn push_all(&mut self, joining: &[Account]) -> Result<(), AllocError>
        ensures ok { OnOk result (self.new ≡ self.old ++ joining.now) }
        ensures err { take (length self.old) self.new ≡ self.old }
    {
        for account in joining {
            self.push(account.clone()?)?;
        }
        Ok(())
    }
}

/// The place of the first account of an owner, looked for from the first account on.
fn first_place(accounts: &[Account], owner: Owner<'_>) -> Option<usize>
    ensures value { result ≡ account_with accounts.now (record { kind = owner.entry.kind; text = owner.entry.text.now }) }
    ensures within { IfSome result (λ place. place < length accounts.now) }
{
    accounts.iter().position(|account| is_of(account, owner))
}

/// Whether an account is that of an owner.
fn is_of(account: &Account, owner: Owner<'_>) -> bool
    ensures { result ≡ owns (record { kind = owner.entry.kind; text = owner.entry.text.now }) account.now }
{
    account.owner() == owner
}

/// The place of the first account of an owner, by the place of the first account with each digest.
fn indexed_place(
    accounts: &[Account],
    firsts: &IndexMap<u64, usize>,
    owner: Owner<'_>,
) -> Option<usize>
    requires { Finds accounts.now firsts.now }
    ensures value { result ≡ account_with accounts.now (record { kind = owner.entry.kind; text = owner.entry.text.now }) }
    ensures within { IfSome result (λ place. place < length accounts.now) }
{
    let digest = owner.digest();
    let told = firsts.get(&digest).copied();
    let own = confirmed_for(accounts, told, owner);
    if own.is_some() {
        return own;
    }
    // Nobody has the digest, or another owner.
    let _other = confirmed(accounts, told, digest)?;
    first_place(accounts, owner)
}

/// A place that an index tells, if the account there is that of an owner.
fn confirmed_for(accounts: &[Account], told: Option<usize>, owner: Owner<'_>) -> Option<usize>
    ensures { result ≡ confirmed (owns (record { kind = owner.entry.kind; text = owner.entry.text.now })) accounts.now told }
{
    let place = told?;
    if is_of(accounts.get(place)?, owner) {
        Some(place)
    } else {
        None
    }
}

/// The place of the first account with each digest.
fn firsts_of(alloc: Global, accounts: &[Account]) -> Result<IndexMap<u64, usize>, AllocError>
    ensures { IfOk result (Finds accounts.now) }
{
    let mut firsts = IndexMap::with_capacity(alloc, accounts.len())?;
    for (place, account) in accounts.iter().enumerate() {
        add_place(&accounts[..place], &mut firsts, account)?;
    }
    Ok(firsts)
}

/// A place that an index tells, if the account there has this digest.
fn confirmed(accounts: &[Account], told: Option<usize>, digest: u64) -> Option<usize>
    ensures { result ≡ confirmed (has_digest digest) accounts.now told }
{
    let place = told?;
    if has_digest(accounts.get(place)?, digest) {
        Some(place)
    } else {
        None
    }
}

/// Whether this is the digest of an account's owner.
fn has_digest(account: &Account, digest: u64) -> bool
    ensures { result ≡ has_digest digest account.now }
{
    account.owner().digest() == digest
}

/// Adds the place of an account that joins these, if none of them has its digest.
fn add_place(
    accounts: &[Account],
    firsts: &mut IndexMap<u64, usize>,
    account: &Account,
) -> Result<(), AllocError>
    ensures ok { OnOk result (Finds accounts.now firsts.old → Finds (accounts.now ++ account.now ∷ []) firsts.new) }
    ensures always { Finds accounts.now firsts.old → Finds accounts.now firsts.new }
{
    let digest = account.owner().digest();
    let told = firsts.get(&digest).copied();
    if confirmed(accounts, told, digest).is_none() {
        firsts.insert(digest, accounts.len())?;
    }
    Ok(())
}
