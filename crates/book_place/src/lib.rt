//! Which files a site file names: its book, and its accounts.
//!
//! ```text
//! book = "farm.book"         # absent: in memory alone
//! accounts = "farm.accounts" # absent: those of the site file alone
//! ```
//!
//! - [`path_in`]: what a document says at one of these keys ([`FileKey`]), or why it says nothing ([`FileKeyFault`]).
//! - [`path_from`]: the path of a file that a site file names. A relative one begins at the folder of the site file, wherever
//!   the process was started.
//! - [`book_path`]: the file of the book that is served on: the one that the command line names, else that of the site file.
//! - [`accounts_path`]: the file of the accounts, if the site file names one.
//!
//! All other keys of the file are read elsewhere. `specs/Place` says which value names a file, and which path is meant.
#![tactic(auto)]

ghost use Rattle.std.specs.Prelude.{◌≡◌, IfErr, IfOk, option_map, string_bytes};
ghost use Rattle.toml.specs.Data.{get_member};
ghost use Rattle.toml.specs.View.{table_view, view};
ghost use Rattle.book_place.specs.Place.{IsFaultAt, IsKeyFault, IsNamedPath, IsServedPath, Names, NamesAt, folder_of, from_folder_of, spelled};

use std::alloc::{AllocError, Global};
use std::fmt;
use thiserror::Error;
use toml::{Table, Value};

/// A key of a site file that names a file. It is printed as the site file spells it.
#[derive(Clone, Copy, Debug, PartialEq, Eq)]
pub enum FileKey {
    Book,
    Accounts,
}

impl FileKey {
    /// The key as the site file spells it.
    pub fn as_str(self) -> &'static str
        ensures { result.now ≡ spelled self }
    {
        match self {
            FileKey::Book => "book",
            FileKey::Accounts => "accounts",
        }
    }
}

impl fmt::Display for FileKey {
    fn fmt<W: fmt::Write>(&self, f: &mut fmt::Formatter<W>) -> fmt::Result {
        let spelled = self.as_str();
        write!(f, "{spelled}")
    }
}

/// Why a document does not say where a file is.
#[derive(Clone, Copy, Debug, PartialEq, Eq, Error)]
pub enum FileKeyFault {
    /// What stands at the key is no text.
    #[error("site: WrongType {key}")]
    NoText { key: FileKey },
    /// The text at the key is empty.
    #[error("site: OutOfRange {key}")]
    Empty { key: FileKey },
    #[error("out of memory")]
    OutOfMemory,
}

impl From<AllocError> for FileKeyFault {
    ghost use Rattle.std.specs.Prelude.{◌≡◌};
    ghost use Rattle.book_place.specs.declared.FileKeyFault.TheVariants.{OutOfMemory};

    ghost from_gives = { λ _ e. e ≡ OutOfMemory };

    fn from(_: AllocError) -> FileKeyFault {
        FileKeyFault::OutOfMemory
    }
}

/// What stands at a key of a table, if the key is there.
fn find<'a>(table: &'a Table, key: &str) -> Option<&'a Value>
    ensures { option_map (λ value. view value.now) result ≡ get_member key.now (table_view table.now) }
{
    table.get(key)
}

/// The path that the value at a key names.
fn path_at(key: FileKey, value: &Value) -> Result<&str, FileKeyFault>
    ensures path { IfOk result (λ path. Names (view value.now) path.now) }
    ensures fault { IfErr result (IsKeyFault key (view value.now)) }
{
    match value.as_str() {
        None => Err(FileKeyFault::NoText { key }),
        Some("") => Err(FileKeyFault::Empty { key }),
        Some(path) => Ok(path),
    }
}

/// The path that the document of a site file names at a key, as it stands there; none where the key is absent.
pub fn path_in(document: &Table, key: FileKey) -> Result<Option<&str>, FileKeyFault>
    ensures path { IfOk result (λ path. NamesAt (get_member (spelled key) (table_view document.now)) (option_map (λ s. s.now) path)) }
    ensures fault { IfErr result (IsFaultAt key (get_member (spelled key) (table_view document.now))) }
{
    match find(document, key.as_str()) {
        None => Ok(None),
        Some(value) => match path_at(key, value) {
            Ok(path) => Ok(Some(path)),
            Err(fault) => Err(fault),
        },
    }
}

/// The folder of a file, with the slash behind it; no octet where its path has no slash.
fn folder_of(path: &str) -> &str
    ensures { result.now ≡ folder_of path.now }
{
    match path.rfind('/') {
        Some(at) => &path[..at + 1],
        None => "",
    }
}

/// The path that is meant where the site file at a path names a file: a relative one begins at the folder of the site file.
pub fn path_from(alloc: Global, site: &str, named: &str) -> Result<String, AllocError>
    ensures { IfOk result (λ path. string_bytes path ≡ from_folder_of site.now named.now) }
{
    if named.starts_with('/') {
        return String::from_str(alloc, named);
    }
    let mut path = String::from_str(alloc, folder_of(site))?;
    path.push_str(named)?;
    Ok(path)
}

/// The path of the book that is served on, if there is one: the one that the command line names, else the one that the document of
/// the site file at a path names. What stands at `book` is looked at in any case.
pub fn book_path(
    alloc: Global,
    told: Option<&str>,
    site: &str,
    document: &Table,
) -> Result<Option<String>, FileKeyFault>
    ensures path { IfOk result (λ path. IsServedPath (option_map (λ s. s.now) told.entry) site.now (get_member (spelled FileKey.Book) (table_view document.now)) (option_map string_bytes path)) }
    ensures fault { IfErr result (IsFaultAt FileKey.Book (get_member (spelled FileKey.Book) (table_view document.now))) }
{
    let named = path_in(document, FileKey::Book)?;
    match (told, named) {
        (Some(path), _) => Ok(Some(String::from_str(alloc, path)?)),
        (None, Some(named)) => Ok(Some(path_from(alloc, site, named)?)),
        (None, None) => Ok(None),
    }
}

/// The path of the file of accounts that the document of the site file at a path names, if it names one.
pub fn accounts_path(
    alloc: Global,
    site: &str,
    document: &Table,
) -> Result<Option<String>, FileKeyFault>
    ensures path { IfOk result (λ path. IsNamedPath site.now (get_member (spelled FileKey.Accounts) (table_view document.now)) (option_map string_bytes path)) }
    ensures fault { IfErr result (IsFaultAt FileKey.Accounts (get_member (spelled FileKey.Accounts) (table_view document.now))) }
{
    match path_in(document, FileKey::Accounts)? {
        Some(named) => Ok(Some(path_from(alloc, site, named)?)),
        None => Ok(None),
    }
}
