//! The terms that the book of a site begins with, and the file that its accounts may stand in.

ghost use Rattle.std.specs.Prelude.{◌≡◌, IfErr, IfOk, IsTrue, is_some};
ghost use Rattle.farm_base.specs.CheckedSite.{IsChecked};
ghost use Rattle.farm_terms.specs.SiteAccounts.{AreNoTerms, AreNoTermsAt, AreTermsOf, IsNotRead, IsSoundFor};
ghost use Rattle.farm_terms.specs.declared.opening.SiteTermsFault.TheVariants as terms;

use crate::accounts::{accounts_with, sound_accounts, terms_with};
use crate::fault::AccountsFault;
use cc_book::{Accounts, Terms};
use farm_base::Site;
use farm_text::{ReadFault, file_up_to};
use std::alloc::{AllocError, Global};
use thiserror::Error;

/// The longest file of accounts, in octets.
const FILE_LIMIT: usize = 134_217_728;

/// Why there are no terms that the book of a site begins with.
#[derive(Clone, Copy, Debug, PartialEq, Eq, Error)]
pub enum SiteTermsFault {
    /// The file of accounts that the site file names cannot be read.
    #[error("the file of accounts cannot be read")]
    NotRead,
    /// It is refused, or memory ran out while it was read.
    #[error("{0}")]
    Accounts(AccountsFault),
    #[error("out of memory")]
    OutOfMemory,
}

impl From<AllocError> for SiteTermsFault {
    ghost from_gives = { λ _ e. e ≡ terms.OutOfMemory };

    fn from(_e: AllocError) -> SiteTermsFault {
        SiteTermsFault::OutOfMemory
    }
}

impl From<AccountsFault> for SiteTermsFault {
    ghost from_gives = { λ fault e. e ≡ terms.Accounts fault };

    fn from(fault: AccountsFault) -> SiteTermsFault {
        SiteTermsFault::Accounts(fault)
    }
}

/// The octets of a file of accounts.
pub fn accounts_file(rt: &HostRuntime, path: &str) -> Result<Vec<u8>, SiteTermsFault>
    ensures { IfErr result IsNotRead }
{
    match file_up_to(rt, path, FILE_LIMIT) {
        Ok(text) if text.len() > FILE_LIMIT => Err(AccountsFault::TooMany.into()),
        Ok(text) => Ok(text),
        Err(ReadFault::Failed) => Err(SiteTermsFault::NotRead),
        Err(ReadFault::OutOfMemory) => Err(SiteTermsFault::OutOfMemory),
    }
}

/// The text of a file of accounts. None if the site file names no file.
#[derive(Drop)]
pub struct AccountsText {
    pub text: Option<Vec<u8>>,
}

/// Reads the file of accounts at a path, if the site file names one. Nothing is checked yet.
pub(crate) fn read_accounts(
    rt: &HostRuntime,
    path: Option<&str>,
) -> Result<AccountsText, SiteTermsFault>
    ensures named { IfOk result (λ read. is_some read.text ≡ is_some path.entry) }
    ensures not_read { IfErr result (λ fault. IsTrue (is_some path.entry) × IsNotRead fault) }
{
    match path {
        Some(path) => Ok(AccountsText {
            text: Some(accounts_file(rt, path)?),
        }),
        None => Ok(AccountsText { text: None }),
    }
}

/// Reads that file, and checks it: each account stands once, also beside those of the site.
pub(crate) fn accounts_text(
    rt: &HostRuntime,
    site: &Site,
    path: Option<&str>,
) -> Result<AccountsText, SiteTermsFault>
    ensures named { IfOk result (λ read. is_some read.text ≡ is_some path.entry) }
    ensures sound { IfOk result (IsSoundFor site.now) }
    ensures none { IfErr result (AreNoTermsAt site.now (is_some path.entry)) }
{
    let Some(path) = path else {
        return Ok(AccountsText { text: None });
    };
    let text = accounts_file(rt, path)?;
    drop(accounts_with(rt.alloc(), site, &text)?);
    Ok(AccountsText { text: Some(text) })
}

/// The terms that the book of a site begins with: its accounts and, behind them, those of a text, if there is one.
pub(crate) fn terms_of_text(
    alloc: Global,
    site: &Site,
    read: &AccountsText,
) -> Result<Terms, SiteTermsFault>
    requires checked { IsChecked site.now }
    requires sound { IsSoundFor site.now read.now }
    ensures terms { IfOk result (AreTermsOf site.now (is_some read.now.text)) }
    ensures none { IfErr result (AreNoTerms site.now read.now) }
{
    let accounts = match &read.text {
        Some(text) => sound_accounts(alloc, site, text)?,
        None => Accounts::list(site.accounts.as_slice().to_vec(alloc)?),
    };
    Ok(terms_with(alloc, site, accounts)?)
}

/// The terms that the book of a site begins with: its accounts and, behind them, those of the file at a path, if the site file names one.
/// The accounts are a list alone. They take memory of their own, some 90 octets each, so they are best made last.
pub fn site_terms(
    rt: &HostRuntime,
    site: &Site,
    path: Option<&str>,
) -> Result<Terms, SiteTermsFault>
    requires { IsChecked site.now }
    ensures terms { IfOk result (AreTermsOf site.now (is_some path.entry)) }
    ensures none { IfErr result (AreNoTermsAt site.now (is_some path.entry)) }
{
    let read = accounts_text(rt, site, path)?;
    terms_of_text(rt.alloc(), site, &read)
}
