//! The change that leads from the terms that hold in a book to those of a site.

ghost use Rattle.std.specs.Prelude.{◌≡◌, ◌≤◌, ◌⊎◌, ◌++◌, ◌∷◌, [], ℕ, length, Err, IfErr, IfOk, IfSome, MatchOption, OnErr, OnOk, Some, is_some, false, true};
ghost use Rattle.std.specs.Bool.{Decides};
ghost use Rattle.std.specs.List.{list_any, position};
ghost use Rattle.book_terms.specs.declared.differences.NeededFault.TheVariants.{OutOfMemory, Stays};
ghost use Rattle.book_terms.specs.declared.key.TermsKey.TheVariants as keys;
ghost use Rattle.book_terms.specs.declared.key.TermsKey.{TermsKey as TermsKeyValue};
ghost use Rattle.book_terms.specs.Stance.{IsStance};
ghost use Rattle.book_terms.specs.Difference.{AgreeAsFarAsBothGo, AgreeInNumbers, DifferAt, DifferInNumbers, DiffersIn, IsNeeded, SaysTariffs, has_other_opening, is_there, joining_of, same_account};

use crate::key::TermsKey;
use cc_book::{Account, Accounts, Terms, TermsChange};
use cc_rating::{Tariff, Tariffs};
use dia_base::Listing;
use std::alloc::{AllocError, Global};

/// Why no change is told that leads from the terms that hold to others.
#[derive(Clone, Copy, PartialEq, Eq)]
pub enum NeededFault {
    /// No change can bring it: this is the first key that differs.
    Stays(TermsKey),
    OutOfMemory,
}

impl From<AllocError> for NeededFault {
    ghost from_gives = { λ _ e. e ≡ OutOfMemory };

    fn from(_: AllocError) -> NeededFault {
        NeededFault::OutOfMemory
    }
}

/// The change that leads from the terms that hold to those that are wanted: the accounts that are not there join, and the tariffs hold
/// where others do. It says nothing where the terms that are wanted hold. The money, the validity, and the opening of an account
/// that is there stay: the first of these that differs is told, in this order.
pub fn needed_change(alloc: Global, now: &Terms, wanted: &Terms) -> Result<TermsChange, NeededFault>
    ensures needed { IfOk result (IsNeeded now.now wanted.now) }
    ensures stays { IfErr result (λ fault. (fault ≡ OutOfMemory) ⊎ ((key : TermsKeyValue) × (fault ≡ Stays key) × DiffersIn key now.now wanted.now)) }
{
    if let Some(key) = difference_in_numbers(now, wanted) {
        return Err(NeededFault::Stays(key));
    }
    let joining = joining_of(alloc, &now.accounts, wanted.accounts.as_slice())?;
    Ok(TermsChange {
        joining: Accounts::from_vec(alloc, joining)?,
        closing: Listing::empty(alloc),
        reopening: Listing::empty(alloc),
        tariffs: needed_tariffs(alloc, &now.tariffs, &wanted.tariffs)?,
    })
}

fn difference_in_numbers(one: &Terms, other: &Terms) -> Option<TermsKey>
    ensures { MatchOption result (AgreeInNumbers one.now other.now) (λ key. DifferInNumbers key one.now other.now) }
{
    if one.money.currency != other.money.currency {
        Some(TermsKey::Currency)
    } else if one.money.exponent != other.money.exponent {
        Some(TermsKey::Exponent)
    } else if one.validity != other.validity {
        Some(TermsKey::Validity)
    } else {
        None
    }
}

// ---- tariffs

/// The tariffs that a change says.
fn needed_tariffs(
    alloc: Global,
    now: &Tariffs,
    wanted: &Tariffs,
) -> Result<Option<Tariffs>, AllocError>
    ensures { IfOk result (SaysTariffs now.now wanted.now) }
{
    if same_tariffs(now.as_slice(), wanted.as_slice()) {
        return Ok(None);
    }
    Ok(Some(wanted.copy(alloc)?))
}

fn same_tariffs(one: &[Tariff], other: &[Tariff]) -> bool
    ensures { Decides result (one.now ≡ other.now) }
{
    one.len() == other.len() && first_other_tariff(one, other).is_none()
}

/// The first place where both have a tariff, and not the same one.
fn first_other_tariff(one: &[Tariff], other: &[Tariff]) -> Option<u64>
    ensures { MatchOption result (AgreeAsFarAsBothGo one.now other.now) (λ place. DifferAt place one.now other.now) }
{
    for place in 0..one.len().min(other.len()) {
        if !same_tariff(&one[place], &other[place]) {
            return Some(place as u64);
        }
    }
    None
}

fn same_tariff(one: &Tariff, other: &Tariff) -> bool
    ensures { Decides result (one.now ≡ other.now) }
{
    one == other
}

// ---- accounts

/// Where an account stands among those that are there.
#[derive(Clone, Copy)]
enum Stance {
    /// It is there, before this place.
    There { before: usize },
    /// Its owner has another opening there.
    OtherOpening,
    /// Its owner has no account there.
    Unknown,
}

/// Of the accounts that are wanted, those that join these. The first that is there with another opening is told by its place.
/// Both lists have the same accounts in the same order for the most part: each account is looked for where the one before it was found.
fn joining_of(
    alloc: Global,
    there: &Accounts,
    wanted: &[Account],
) -> Result<Vec<Account>, NeededFault>
    ensures joining { IfOk result (λ joining. joining.items ≡ joining_of there.now wanted.now) }
    ensures openings { OnOk result (list_any (has_other_opening there.now) wanted.now ≡ false) }
    ensures stays { IfErr result (λ fault. (fault ≡ OutOfMemory) ⊎ ((place : ℕ) × (fault ≡ Stays (keys.Opening place)) × (position (has_other_opening there.now) wanted.now ≡ Some place))) }
{
    let mut joining = Vec::new(alloc);
    let mut next = 0;
    for (place, account) in wanted.iter().enumerate() {
        match stance_of(there, account, next) {
            Stance::There { before } => next = before,
            Stance::OtherOpening => {
                let place = place as u64;
                return Err(NeededFault::Stays(TermsKey::Opening { place }));
            }
            Stance::Unknown => join(&mut joining, account)?,
        }
    }
    Ok(joining)
}

/// Adds a copy of an account.
fn join(joining: &mut Vec<Account>, account: &Account) -> Result<(), AllocError>
    ensures { OnOk result (joining.new.items ≡ joining.old.items ++ account.now ∷ []) }
{
    joining.push(account.clone()?)?;
    Ok(())
}

/// Where an account stands among those that are there: if its owner has one, it is looked for from a place on, and then before it.
fn stance_of(there: &Accounts, account: &Account, from: usize) -> Stance
    requires { from ≤ length there.now }
    ensures { IsStance there.now account.now result }
{
    if !there.has_owner_of(account) {
        return Stance::Unknown;
    }
    match place_behind(there.as_slice(), account, from) {
        Some(before) => Stance::There { before },
        None => Stance::OtherOpening,
    }
}

/// The place behind an account, if it is there.
fn place_behind(there: &[Account], account: &Account, from: usize) -> Option<usize>
    requires { from ≤ length there.now }
    ensures there { is_some result ≡ is_there there.now account.now }
    ensures within { IfSome result (λ place. place ≤ length there.now) }
{
    match place_in(&there[from..], account) {
        Some(place) => Some(from + place + 1),
        None => match place_in(&there[..from], account) {
            Some(place) => Some(place + 1),
            None => None,
        },
    }
}

/// The place of an account, if it is there.
fn place_in(there: &[Account], account: &Account) -> Option<usize>
    ensures { result ≡ position (same_account account.now) there.now }
{
    there.iter().position(|other| same_account(account, other))
}

fn same_account(one: &Account, other: &Account) -> bool
    ensures { result ≡ same_account one.now other.now }
{
    one.has_same_owner(other) && one.opening == other.opening
}
