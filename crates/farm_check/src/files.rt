//! Which files a site file names: the book of its fronts, and accounts beside its own.

ghost use Rattle.std.specs.Prelude.{◌≡◌, IfErr, OnOk, Some};
ghost use Rattle.toml.specs.Parse.{parse_document};
ghost use Rattle.toml.specs.View.{table_view};
ghost use Rattle.farm_check.specs.Checking.{IsPlacedFile, IsRefused};

use crate::fault::CheckFault;
use crate::keys::push_unknown_keys;
use crate::lines::Lines;
use crate::places::place_of_value;
use book_place::{FileKey, FileKeyFault, path_in};
use cc_book::Accounts;
use farm_base::Site;
use farm_terms::{AccountsFault, SiteTermsFault, accounts_file, accounts_with};
use std::alloc::{AllocError, Global};
use toml::Table;

/// The files that a site file names, as their paths stand there.
#[derive(Drop)]
pub struct Files {
    pub book: Option<String>,
    pub accounts: Option<String>,
}

/// The path that the file of this document names at a key, if it names one, or why it does not.
pub fn check_path<'a>(
    alloc: Global,
    file: &[u8],
    document: &'a Table,
    key: FileKey,
) -> Result<Option<&'a str>, CheckFault>
    requires { parse_document file.now ≡ Some (table_view document.now) }
    ensures ok { OnOk result (IsPlacedFile file.now key) }
    ensures fault { IfErr result (IsRefused file.now) }
{
    match path_in(document, key) {
        Ok(path) => Ok(path),
        Err(fault) => Err(CheckFault::File(fault, fault_text(alloc, file, document, key, fault)?)),
    }
}

/// The lines of a fault: its own, its place with what was expected there, and then the keys that nothing reads.
fn fault_text(
    alloc: Global,
    file: &[u8],
    document: &Table,
    key: FileKey,
    fault: FileKeyFault,
) -> Result<String, AllocError> {
    let place = place_text(alloc, file, key)?;
    let mut lines = Lines::new(alloc);
    lines.push(format!(in alloc; "{fault}")?.as_str())?;
    lines.push(format!(in alloc; "{place}: expected a text that names a file")?.as_str())?;
    push_unknown_keys(alloc, &mut lines, document)?;
    Ok(lines.into_text())
}

/// The place of what stands at a key.
fn place_text(alloc: Global, file: &[u8], key: FileKey) -> Result<String, AllocError> {
    let Ok(text) = std::str::from_utf8(file) else {
        return String::from_str(alloc, "the file");
    };
    match place_of_value(text, 0, key.as_str()) {
        Some(place) => format!(in alloc; "{place}"),
        None => String::from_str(alloc, "above the tables of the file"),
    }
}

/// Why the accounts of a file are not had.
#[derive(Drop)]
pub enum AccountsRefusal {
    /// The file at this path cannot be read.
    NotRead(String),
    /// It is refused; and what is told of it: its own line, and what was expected there.
    Refused(AccountsFault, String),
    OutOfMemory,
}

impl From<AllocError> for AccountsRefusal {
    fn from(_e: AllocError) -> AccountsRefusal {
        AccountsRefusal::OutOfMemory
    }
}

/// All accounts of a site: its own and, behind them, those of the file at a path, if it names one.
pub fn accounts_at(
    rt: &HostRuntime,
    site: &Site,
    path: Option<&str>,
) -> Result<Accounts, AccountsRefusal> {
    let Some(path) = path else {
        let own = site.accounts.as_slice().to_vec(rt.alloc())?;
        return Ok(Accounts::list(own));
    };
    match accounts_file(rt, path) {
        Ok(text) => match accounts_with(rt.alloc(), site, &text) {
            Ok(accounts) => Ok(accounts),
            Err(fault) => refused(rt.alloc(), path, fault),
        },
        Err(SiteTermsFault::Accounts(fault)) => refused(rt.alloc(), path, fault),
        Err(SiteTermsFault::NotRead) => {
            Err(AccountsRefusal::NotRead(String::from_str(rt.alloc(), path)?))
        }
        Err(SiteTermsFault::OutOfMemory) => Err(AccountsRefusal::OutOfMemory),
    }
}

/// The refusal of the file of accounts at a path, with what was expected there.
fn refused(alloc: Global, path: &str, fault: AccountsFault) -> Result<Accounts, AccountsRefusal> {
    if fault == AccountsFault::OutOfMemory {
        return Err(AccountsRefusal::OutOfMemory);
    }
    let mut lines = Lines::new(alloc);
    lines.push(format!(in alloc; "{fault}")?.as_str())?;
    let expected = format!(in alloc; "{path}: expected lines of the form account TYPE ID OPENING")?;
    lines.push(expected.as_str())?;
    Err(AccountsRefusal::Refused(fault, lines.into_text()))
}

/// A line for each file that the site names.
pub fn push_files(alloc: Global, lines: &mut Lines, files: &Files) -> Result<(), AllocError> {
    if let Some(path) = files.book.as_deref() {
        let line = format!(in alloc;
            "the book of the fronts is in the file {path:?}, unless --book names another"
        )?;
        lines.push(line.as_str())?;
    }
    if let Some(path) = files.accounts.as_deref() {
        let line = format!(in alloc; "more accounts are in the file {path:?}")?;
        lines.push(line.as_str())?;
    }
    Ok(())
}
