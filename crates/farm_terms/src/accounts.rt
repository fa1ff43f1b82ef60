//! The accounts that stand in a file of their own, beside those of the site file.

ghost use Rattle.std.specs.Prelude.{◌≡◌, ◌≤◌, IfErr, IfNone, IfOk, IfSome, Ok, ◌++◌, length, not};
ghost use Rattle.cc_book.specs.declared.account.Account.{Account};
ghost use Rattle.farm_base.specs.CheckedSite.{IsChecked};
ghost use Rattle.farm_script.specs.AccountLines.{accounts_of};
ghost use Rattle.farm_terms.specs.Lines.{ends};
ghost use Rattle.farm_terms.specs.SiteAccounts.{AreAccountsOf, AreNoAccountsOf, AreSound, IsReadFault, StandsTwiceAt, StandOnce, terms_with};

use crate::fault::AccountsFault;
use cc_book::{Account, Accounts, Money, Subscriptions, Terms};
use cc_rating::Tariffs;
use farm_base::Site;
use farm_script::{LineFault, ScriptFault, accounts_of, line_of_account};
use std::alloc::{AllocError, Global};

/// The most accounts of a file.
pub const ACCOUNT_LIMIT: usize = 1_000_000;

/// The accounts of a site and, behind them, those of the lines of a text, as a list alone; or the first fault of the text.
pub fn accounts_with(alloc: Global, site: &Site, text: &[u8]) -> Result<Accounts, AccountsFault>
    ensures accounts { IfOk result (AreAccountsOf site.now text.now) }
    ensures fault { IfErr result (AreNoAccountsOf site.now text.now) }
{
    let read = accounts_in(alloc, text)?;
    let accounts = Accounts::from_vec(alloc, joined(alloc, site, read)?)?;
    match first_twice(&accounts) {
        None => Ok(accounts.into_list()),
        Some(place) => {
            let place = place.saturating_sub(site.accounts.len());
            let line = line_of_account(text, place);
            Err(AccountsFault::Twice { line })
        }
    }
}

/// The accounts of a site and, behind them, those of the lines of a text that [`accounts_with`] takes, as a list alone. None of them is
/// looked for again, so that no memory is wanted for that.
pub fn sound_accounts(alloc: Global, site: &Site, text: &[u8]) -> Result<Accounts, AccountsFault>
    requires { AreSound site.now text.now }
    ensures accounts { IfOk result (AreAccountsOf site.now text.now) }
    ensures fault { IfErr result (AreNoAccountsOf site.now text.now) }
{
    let read = accounts_in(alloc, text)?;
    Ok(Accounts::list(joined(alloc, site, read)?))
}

/// The accounts that the lines of a text spell, of which each ends.
fn accounts_in(alloc: Global, text: &[u8]) -> Result<Vec<Account>, AccountsFault>
    ensures accounts { IfOk result (λ read. (accounts_of text.now ≡ Ok read.items) × (length read.items ≤ ACCOUNT_LIMIT)) }
    ensures fault { IfErr result (IsReadFault text.now) }
{
    if is_cut_off(text) {
        return Err(AccountsFault::CutOff);
    }
    match accounts_of(alloc, text) {
        Ok(read) if read.len() > ACCOUNT_LIMIT => Err(AccountsFault::TooMany),
        Ok(read) => Ok(read),
        Err(
            ScriptFault::Line {
                fault: LineFault::OutOfMemory,
                ..
            },
        ) => Err(AccountsFault::OutOfMemory),
        Err(ScriptFault::Line { line, fault }) => Err(AccountsFault::Line { line, fault }),
        Err(ScriptFault::TooLong) => Err(AccountsFault::OutOfMemory),
    }
}

/// Whether the last line of a text does not end.
pub(crate) fn is_cut_off(text: &[u8]) -> bool
    ensures { result ≡ not (ends text.now) }
{
    !text.is_empty() && text[text.len() - 1] != b'\n'
}

/// The accounts of a site, and others behind them.
fn joined(alloc: Global, site: &Site, others: Vec<Account>) -> Result<Vec<Account>, AllocError>
    ensures { IfOk result (λ accounts. accounts.items ≡ site.now.accounts ++ others.items) }
{
    let mut own = site.accounts.as_slice().to_vec(alloc)?;
    let mut accounts = others;
    let behind = accounts.len();
    accounts.append(&mut own)?;
    accounts.rotate_left(behind);
    Ok(accounts)
}

/// The place of the first account whose Subscription-Id one before it has.
#[tactic(auto, using(crate::proofs::Once::once_at))]
fn first_twice(accounts: &Accounts) -> Option<usize>
    ensures none { IfNone result (StandOnce accounts.now) }
    ensures some { IfSome result (StandsTwiceAt accounts.now) }
{
    for (place, account) in accounts.as_slice().iter().enumerate() {
        if accounts.has_owner_before(place, account) {
            return Some(place);
        }
    }
    None
}

/// The terms that the book of a site begins with, whose accounts are these.
pub fn terms_with(alloc: Global, site: &Site, accounts: Accounts) -> Result<Terms, AllocError>
    requires { IsChecked site.now }
    ensures { IfOk result (λ terms. terms ≡ terms_with site.now accounts) }
{
    let tariffs = tariffs_of(alloc, site)?;
    Ok(Terms {
        accounts,
        closed: Subscriptions::empty(alloc),
        tariffs,
        validity: site.validity,
        money: Money {
            currency: site.currency,
            exponent: site.exponent,
        },
    })
}

/// The tariffs of a site, as its book has them.
pub fn tariffs_of(alloc: Global, site: &Site) -> Result<Tariffs, AllocError>
    requires { IsChecked site.now }
    ensures { IfOk result (λ tariffs. tariffs ≡ site.now.tariffs) }
{
    let copies = Vec::from_slice(alloc, site.tariffs.as_slice())?;
    match Tariffs::new(alloc, copies) {
        Ok(tariffs) => Ok(tariffs),
        Err(_) => Err(AllocError),
    }
}
