//! The change that leads from the terms of a book to those of a site.

ghost use Rattle.std.specs.Prelude.{◌≡◌, IfErr, IfOk, IfSome, is_some, true};
ghost use Rattle.farm_base.specs.CheckedSite.{IsChecked};
ghost use Rattle.farm_terms.specs.SiteAccounts.{AreNoTerms, AreTermsOf, terms_with};
ghost use Rattle.farm_terms.specs.SiteChange.{IsNoChange, IsNoChangeAt, LeadsToSite};
ghost use Rattle.farm_terms.specs.declared.change.SiteChangeFault.TheVariants as change;
ghost use Rattle.farm_terms.specs.declared.opening.SiteTermsFault.TheVariants as terms;

use crate::accounts::{accounts_with, terms_with};
use crate::joining::joining_in;
use crate::opening::{AccountsText, SiteTermsFault, read_accounts};
use book_terms::{NeededFault, TermsKey, needed_change};
use cc_book::{Accounts, Terms, TermsChange};
use farm_base::Site;
use std::alloc::{AllocError, Global};

/// Why no change leads from the terms of a book to those of a site.
#[derive(Clone, Copy)]
pub enum SiteChangeFault {
    /// The site has no terms.
    Terms(SiteTermsFault),
    /// No change can bring them: this is the first key that differs.
    Stays(TermsKey),
}

impl From<SiteTermsFault> for SiteChangeFault {
    ghost from_gives = { λ fault e. e ≡ change.Terms fault };

    fn from(fault: SiteTermsFault) -> SiteChangeFault {
        SiteChangeFault::Terms(fault)
    }
}

impl From<AllocError> for SiteChangeFault {
    ghost from_gives = { λ _ e. e ≡ change.Terms terms.OutOfMemory };

    fn from(_e: AllocError) -> SiteChangeFault {
        SiteChangeFault::Terms(SiteTermsFault::OutOfMemory)
    }
}

/// The change that leads from the terms that hold in a book to those of a site, with the accounts of a text, if there is one. The text is
/// checked. Its accounts are looked for in the book one after another, and only those that join take memory. Where it is refused, or a key
/// stays, all of them are read once more into a list, which tells the fault: one of the text before one of the terms.
pub(crate) fn change_of_text(
    alloc: Global,
    site: &Site,
    read: &AccountsText,
    now: &Terms,
) -> Result<TermsChange, SiteChangeFault>
    requires { IsChecked site.now }
    ensures leads { IfOk result (LeadsToSite site.now (is_some read.now.text) now.now) }
    ensures refused { IfErr result (IsNoChange site.now read.now now.now) }
{
    if let Some(text) = &read.text {
        if let Some(change) = change_by_lines(alloc, site, text, now)? {
            return Ok(change);
        }
    }
    change_by_list(alloc, site, read, now)
}

/// The same, if no fault is to be told.
fn change_by_lines(
    alloc: Global,
    site: &Site,
    text: &[u8],
    now: &Terms,
) -> Result<Option<TermsChange>, AllocError>
    requires { IsChecked site.now }
    ensures { IfOk result (λ found. IfSome found (LeadsToSite site.now true now.now)) }
{
    let Some(joining) = joining_in(alloc, site, text, &now.accounts)? else {
        return Ok(None);
    };
    let own = terms_with(alloc, site, Accounts::list(Vec::new(alloc)))?;
    match needed_change(alloc, now, &own) {
        Ok(change) => Ok(Some(with_joining(change, joining))),
        Err(NeededFault::Stays(_)) => Ok(None),
        Err(NeededFault::OutOfMemory) => Err(AllocError),
    }
}

/// A change by which these accounts join instead.
fn with_joining(change: TermsChange, joining: Accounts) -> TermsChange
    ensures { result ≡ record change { joining = joining } }
{
    let mut change = change;
    change.joining = joining;
    change
}

/// The same, by a list of all accounts.
fn change_by_list(
    alloc: Global,
    site: &Site,
    read: &AccountsText,
    now: &Terms,
) -> Result<TermsChange, SiteChangeFault>
    requires { IsChecked site.now }
    ensures leads { IfOk result (LeadsToSite site.now (is_some read.now.text) now.now) }
    ensures refused { IfErr result (IsNoChange site.now read.now now.now) }
{
    let wanted = checked_terms(alloc, site, read)?;
    match needed_change(alloc, now, &wanted) {
        Ok(change) => Ok(change),
        Err(NeededFault::Stays(key)) => Err(SiteChangeFault::Stays(key)),
        Err(NeededFault::OutOfMemory) => Err(SiteChangeFault::Terms(SiteTermsFault::OutOfMemory)),
    }
}

/// The terms that the book of a site begins with, with the accounts of a text, if there is one, which is checked.
fn checked_terms(alloc: Global, site: &Site, read: &AccountsText) -> Result<Terms, SiteTermsFault>
    requires { IsChecked site.now }
    ensures terms { IfOk result (AreTermsOf site.now (is_some read.now.text)) }
    ensures none { IfErr result (AreNoTerms site.now read.now) }
{
    let accounts = checked_accounts(alloc, site, read)?;
    Ok(terms_with(alloc, site, accounts)?)
}

/// The accounts of a site and, behind them, those of a text, if there is one, which is checked.
fn checked_accounts(
    alloc: Global,
    site: &Site,
    read: &AccountsText,
) -> Result<Accounts, SiteTermsFault>
    ensures terms { IfOk result (λ accounts. AreTermsOf site.now (is_some read.now.text) (terms_with site.now accounts)) }
    ensures none { IfErr result (AreNoTerms site.now read.now) }
{
    match &read.text {
        Some(text) => Ok(accounts_with(alloc, site, text)?),
        None => Ok(Accounts::list(site.accounts.as_slice().to_vec(alloc)?)),
    }
}

/// The change that leads from the terms that hold in a book to those of a site, with the accounts of the file at a path, if the site file
/// names one. No list of the file's accounts is made: only those that join take memory.
pub fn site_change(
    rt: &HostRuntime,
    site: &Site,
    path: Option<&str>,
    now: &Terms,
) -> Result<TermsChange, SiteChangeFault>
    requires { IsChecked site.now }
    ensures leads { IfOk result (LeadsToSite site.now (is_some path.entry) now.now) }
    ensures refused { IfErr result (IsNoChangeAt site.now (is_some path.entry) now.now) }
{
    let read = read_accounts(rt, path)?;
    change_of_text(rt.alloc(), site, &read, now)
}
