//! Which accounts of a site join a book: each is looked for in the book as it is read, so that no list of them all is made.

ghost use Rattle.std.specs.Prelude.{◌≡◌, ◌++◌, ◌∷◌, [], ◌<◌, IfOk, IfSome, IsTrue, false, get_or, length, not, slice_set, true};
ghost use Rattle.std.specs.List.{list_any};
ghost use Rattle.std.specs.Ordering.{int_eq};
ghost use Rattle.cc_book.specs.Owners.{owner_of, same_owner};
ghost use Rattle.farm_terms.specs.Joining.{AreJoining, GoesOn, IsLineNamed, IsNamed, IsTextNamed};

use crate::accounts::{ACCOUNT_LIMIT, is_cut_off};
use cc_book::{Account, Accounts};
use cc_view::Subscription;
use farm_base::Site;
use farm_script::{LineFault, account_in, first_line};
use std::alloc::{AllocError, Global};

/// The accounts that were named so far, one after another, beside those of a book.
#[derive(Drop)]
pub(crate) struct Named {
    /// For each place of the book, whether the first account of an owner stands there and the owner was named.
    marks: Vec<bool>,
    /// Those whose owners have none in the book.
    joining: Accounts,
    /// How many there are.
    count: usize,
}

impl Named {
    /// None was named, beside these accounts of a book.
    fn none(alloc: Global, there: &Accounts) -> Result<Named, AllocError>
        ensures { IfOk result (IsNamed there.now []) }
    {
        Ok(Named {
            marks: vec![in alloc; false; there.len()]?,
            joining: Accounts::from_vec(alloc, Vec::new(alloc))?,
            count: 0,
        })
    }

    /// One account more is named. False if one with its Subscription-Id was named before, or the book has it with another opening.
    fn name(&mut self, there: &Accounts, account: Account) -> Result<bool, AllocError>
        ensures { IfOk result (λ done. IsTrue done → GoesOn there.now (account ∷ []) self.old self.new) }
    {
        let Some(count) = self.count.checked_add(1) else {
            return Ok(false);
        };
        self.count = count;
        let sought = sought_of(account);
        match there.find(&sought.owner) {
            Some(place) => {
                if has_opening(&there.as_slice()[place], &sought) {
                    return Ok(self.mark(place));
                }
                Ok(false)
            }
            None => self.join(account_of(sought)),
        }
    }

    /// The owner of the account at a place of the book is named. False if it was named before.
    fn mark(&mut self, place: usize) -> bool
        ensures fresh { IsTrue result → get_or self.old.marks.items place false ≡ false }
        ensures within { IsTrue result → place < length self.old.marks.items }
        ensures marks { IsTrue result → self.new.marks.items ≡ slice_set self.old.marks.items place true }
        ensures joining { self.new.joining ≡ self.old.joining }
        ensures count { self.new.count ≡ self.old.count }
    {
        if place >= self.marks.len() || self.marks[place] {
            return false;
        }
        self.marks[place] = true;
        true
    }

    /// An account joins whose owner has none in the book. False if one with its Subscription-Id joins already.
    fn join(&mut self, account: Account) -> Result<bool, AllocError>
        ensures fresh { IfOk result (λ done. IsTrue done → list_any (same_owner account) self.old.joining ≡ false) }
        ensures joining { IfOk result (λ done. IsTrue done → self.new.joining ≡ self.old.joining ++ account ∷ []) }
        ensures marks { self.new.marks ≡ self.old.marks }
        ensures count { self.new.count ≡ self.old.count }
    {
        if self.joining.has_owner_of(&account) {
            return Ok(false);
        }
        let one = [account];
        self.joining.join(&one)?;
        Ok(true)
    }

    /// All these accounts are named. False at the first that [`Named::name`] does not take.
    fn name_all(&mut self, there: &Accounts, accounts: &[Account]) -> Result<bool, AllocError>
        ensures { IfOk result (λ done. IsTrue done → GoesOn there.now accounts.now self.old self.new) }
    {
        for account in accounts {
            if !self.name(there, account.clone()?)? {
                return Ok(false);
            }
        }
        Ok(true)
    }

    /// The account of a line is named, if it has one. False if it spells none, or one that [`Named::name`] does not take.
    fn name_line(
        &mut self,
        alloc: Global,
        there: &Accounts,
        line: &[u8],
    ) -> Result<bool, AllocError>
        ensures { IfOk result (λ done. IsTrue done → IsLineNamed there.now line.now self.old self.new) }
    {
        match account_in(alloc, line) {
            Ok(Some(account)) => self.name(there, account),
            Ok(None) => Ok(true),
            Err(LineFault::OutOfMemory) => Err(AllocError),
            Err(_) => Ok(false),
        }
    }

    /// The accounts of all lines of a text are named. False at the first line that [`Named::name_line`] does not take.
    fn name_lines(
        &mut self,
        alloc: Global,
        there: &Accounts,
        text: &[u8],
    ) -> Result<bool, AllocError>
        ensures { IfOk result (λ done. IsTrue done → IsTextNamed there.now text.now self.old self.new) }
    {
        let mut rest = text;
        while !rest.is_empty() {
            let (first, behind) = first_line(rest);
            if !self.name_line(alloc, there, first)? {
                return Ok(false);
            }
            rest = behind;
        }
        Ok(true)
    }
}

/// An account that is looked for by its owner.
#[derive(Drop)]
struct Sought {
    owner: Subscription,
    opening: i64,
}

fn sought_of(account: Account) -> Sought
    ensures owner { result.owner ≡ owner_of account }
    ensures opening { result.opening ≡ account.opening }
{
    let Account {
        id_kind,
        id,
        opening,
    } = account;
    let owner = Subscription {
        kind: id_kind,
        text: id,
    };
    Sought { owner, opening }
}

fn account_of(sought: Sought) -> Account
    ensures owner { owner_of result ≡ sought.owner }
    ensures opening { result.opening ≡ sought.opening }
{
    let Sought { owner, opening } = sought;
    let Subscription { kind, text } = owner;
    Account {
        id_kind: kind,
        id: text,
        opening,
    }
}

/// Whether an account has the opening of the one that is looked for.
fn has_opening(account: &Account, sought: &Sought) -> bool
    ensures { result ≡ int_eq sought.now.opening account.now.opening }
{
    account.opening == sought.opening
}

/// The accounts of a site and, behind them, of the lines of a text, that join those of a book. None if the text is refused
/// ([`accounts_with`](crate::accounts_with) says why), or if the book has one of them with another opening.
pub(crate) fn joining_in(
    alloc: Global,
    site: &Site,
    text: &[u8],
    there: &Accounts,
) -> Result<Option<Accounts>, AllocError>
    ensures { IfOk result (λ found. IfSome found (AreJoining site.now text.now there.now)) }
{
    if is_cut_off(text) {
        return Ok(None);
    }
    let mut named = Named::none(alloc, there)?;
    let own = site.accounts.as_slice();
    if !named.name_all(there, own)? {
        return Ok(None);
    }
    if !named.name_lines(alloc, there, text)? {
        return Ok(None);
    }
    if named.count.saturating_sub(own.len()) > ACCOUNT_LIMIT {
        return Ok(None);
    }
    let Named { joining, .. } = named;
    Ok(Some(joining))
}
