//! Files that have a book.

ghost use Rattle.std.specs.Prelude.{◌≡◌, [], IfOk, IsTrue, Ok, OnOk};
ghost use Rattle.sqlite_std_file.specs.File.{file_is_usable};
ghost use Rattle.sqlite_store.specs.Unopened.{AreUsable};
ghost use Rattle.sqlite_store.specs.FileStore as kit;
ghost use Rattle.sqlite_trees.specs.View.{IsClean};
ghost use Rattle.book_store.specs.Damage.{IsFresh, MayReopen};
ghost use Rattle.book_rows.specs.About.{about as about_form, whole};
ghost use Rattle.book_store.specs.Table.{HasTables, IsReady, Stored, about_in, rows_in};

use crate::error::FileError;
use crate::trees::{all_trees, first_trees, has_tables, with_beside};
use book_rows::{About, ReadError, read_about, spell_about};
use book_store::{RowStore, TreeStore, create_tree, open_tree};
use sqlite_disk::{Disk, Files, Unknown};
use sqlite_pager::{Options, Pager};
use sqlite_std_file::{File, FileFrom, Start, open};
use sqlite_store::{FileStore, Unopened};
use sqlite_trees::schema::Object;
use sqlite_trees::store::Store;
use sqlite_wal::PageSize;
use std::alloc::Global;
use std::hash::{BuildHasher, RandomState};
use std::{fs, io};

/// How many octets a page of the file has.
const PAGE: usize = 4096;

/// How many pages that were read are kept in memory. A book is read once from its beginning, and then grows at its end.
const CACHED: usize = 128;

/// A book in a file.
pub type FileBook = TreeStore<FileStore<File>>;

/// The files of a database that is to have these trees, of which nothing is known yet. The seed is for the salts of its log.
fn unopened<D: Disk + Drop>(
    alloc: Global,
    files: Files<D>,
    seed: u64,
    trees: &[Object<'_>],
) -> Result<Unopened<D>, FileError>
    requires log { IsTrue (D.Disk.is_usable files.log) }
    requires db { IsTrue (D.Disk.is_usable files.db) }
    ensures { IfOk result AreUsable }
{
    let Some(size) = PageSize::new(PAGE) else {
        return Err(FileError::Full);
    };
    let mut options = Options::new(seed);
    options.cache_pages = CACHED;
    let pager = match Pager::new(alloc, files, size, options) {
        Ok(pager) => pager,
        Err(_) => return Err(FileError::OutOfMemory),
    };
    match Unopened::new(alloc, pager, trees) {
        Ok(files) => Ok(files),
        Err(_) => Err(FileError::OutOfMemory),
    }
}

/// The files of a database, and a random number.
fn files_at<S: Start>(
    rt: &HostRuntime,
    path: &str,
    start: S,
) -> Result<(Files<FileFrom<S>>, u64), FileError>
    ensures log { IfOk result (λ found. IsTrue (file_is_usable S.Start found.0.log)) }
    ensures db { IfOk result (λ found. IsTrue (file_is_usable S.Start found.0.db)) }
{
    let seed = RandomState::new(rt)?.hash_one(&0_u8);
    let files = open(rt, path, start)?;
    Ok((files, seed))
}

/// The database, where it has the tables of a book.
fn with_tables<D: Disk + Drop>(store: FileStore<D>) -> Result<FileStore<D>, FileError>
    ensures tables { IfOk result (λ found. HasTables (kit.view found)) }
    ensures same { IfOk result (λ found. found ≡ store) }
{
    if has_tables(&store) {
        Ok(store)
    } else {
        Err(FileError::NoBooksFile)
    }
}

/// The database in the files, whose tables are there.
fn opened<D: Disk + Drop>(files: Unopened<D>) -> Result<FileStore<D>, FileError>
    requires { AreUsable files }
    ensures tables { IfOk result (λ store. HasTables (kit.view store)) }
    ensures fresh { IfOk result (λ store. IsClean (kit.view store) → IsFresh (kit.view store)) }
{
    match files.open() {
        Ok(store) => with_tables(store),
        Err((error, _files)) => Err(error.into()),
    }
}

/// A database in the files, whose tables are there: it is made where there is none.
fn made<D: Disk + Drop>(files: Unopened<D>) -> Result<FileStore<D>, FileError>
    requires { AreUsable files }
    ensures tables { IfOk result (λ store. HasTables (kit.view store)) }
    ensures fresh { IfOk result (λ store. IsClean (kit.view store) → IsFresh (kit.view store)) }
{
    match files.create() {
        Ok(store) => with_tables(store),
        Err((error, _files)) => Err(error.into()),
    }
}

/// How many octets the file at a path has, none where there is no file.
fn length_of(rt: &HostRuntime, path: &str) -> Result<Option<u64>, FileError> {
    match fs::metadata(rt, path) {
        Ok(found) => Ok(Some(found.len())),
        Err(error) if error.kind() == io::ErrorKind::NotFound => Ok(None),
        Err(error) => Err(FileError::Io(error)),
    }
}

/// The database at a path: a new one where there is no file, or an empty one.
fn database_at(rt: &HostRuntime, path: &str) -> Result<FileStore<File>, FileError>
    ensures tables { IfOk result (λ store. HasTables (kit.view store)) }
    ensures fresh { IfOk result (λ store. IsClean (kit.view store) → IsFresh (kit.view store)) }
{
    let length = length_of(rt, path)?;
    let (files, seed) = files_at(rt, path, Unknown)?;
    let files = unopened(rt.alloc(), files, seed, &all_trees())?;
    match length {
        None | Some(0) => made(files),
        Some(_) => opened(files),
    }
}

/// What the book in a store is. `OtherFormat` is told of one that another release wrote in another format. What is stored stays.
pub fn about_of<L: RowStore>(alloc: Global, store: &mut L) -> Result<About, FileError>
    requires { L.is_clean store.old → L.is_ready store.old }
    ensures clean { L.is_clean store.new → L.is_clean store.old }
    ensures ready { OnOk result (L.is_clean store.new → L.is_ready store.new) }
    ensures about { IfOk result (λ about. L.is_clean store.new → whole about_form (L.about store.old) ≡ Ok about) }
    ensures same { OnOk result (L.is_clean store.new → L.rows store.new ≡ L.rows store.old) }
    ensures same_book { OnOk result (L.is_clean store.new → L.about store.new ≡ L.about store.old) }
    ensures same_beside { OnOk result (L.is_clean store.new → L.beside store.new ≡ L.beside store.old) }
    ensures crash { (left : Stored) → L.may_leave store.new left → L.may_leave store.old left }
    ensures reopens { L.may_reopen store.old → L.may_reopen store.new }
{
    let octets = store.about(alloc)?;
    match read_about(alloc, &octets) {
        Ok(about) => Ok(about),
        Err(ReadError::NoRow(fault)) => Err(fault.into()),
        Err(ReadError::OutOfMemory) => Err(FileError::OutOfMemory),
    }
}

/// The book in a database whose tables are there.
fn book_in<D: Disk + Drop>(
    alloc: Global,
    store: FileStore<D>,
) -> Result<TreeStore<FileStore<D>>, FileError>
    requires tables { HasTables (kit.view store) }
    requires fresh { IsClean (kit.view store) → IsFresh (kit.view store) }
    ensures { IfOk result (λ opened. IsClean (kit.view opened.store) → IsReady (kit.view opened.store) opened.standing) }
{
    match open_tree(alloc, store) {
        Ok(book) => Ok(book),
        Err((error, _store)) => Err(error.into()),
    }
}

/// The database in the files at a path, whose trees are there.
fn found_at(rt: &HostRuntime, path: &str) -> Result<FileStore<File>, FileError>
    ensures tables { IfOk result (λ store. HasTables (kit.view store)) }
    ensures fresh { IfOk result (λ store. IsClean (kit.view store) → IsFresh (kit.view store)) }
{
    let (files, seed) = files_at(rt, path, Unknown)?;
    opened(unopened(rt.alloc(), files, seed, &all_trees())?)
}

/// Adds the trees beside the rows to the database in the files, which is to have those of the first format and no others.
fn renewed<D: Disk + Drop>(alloc: Global, files: Unopened<D>) -> Result<FileStore<D>, FileError>
    requires { AreUsable files }
{
    match files.open_numbered() {
        Ok(store) => with_beside(alloc, store),
        Err((error, _files)) => Err(error.into()),
    }
}

/// Brings the book in the files at a path from the first format to this one, in one commit. A file that has no book of the first
/// format is left as it is.
fn renew_at(rt: &HostRuntime, path: &str) -> Result<(), FileError> {
    let (files, seed) = files_at(rt, path, Unknown)?;
    let store = renewed(
        rt.alloc(),
        unopened(rt.alloc(), files, seed, &first_trees())?,
    )?;
    drop(store.close());
    Ok(())
}

/// The database in the files at a path, whose trees are there. One of the first format is brought to this one before.
fn renewed_at(rt: &HostRuntime, path: &str) -> Result<FileStore<File>, FileError>
    ensures tables { IfOk result (λ store. HasTables (kit.view store)) }
    ensures fresh { IfOk result (λ store. IsClean (kit.view store) → IsFresh (kit.view store)) }
{
    match found_at(rt, path) {
        Err(FileError::NoBooksFile) => {
            renew_at(rt, path)?;
            found_at(rt, path)
        }
        found => found,
    }
}

/// Opens the book in a file. Each way in which this can fail has a name, and none begins anything anew. A book of the first format
/// is brought to this one first: its rows stay. What the book is, and whether it is of this format, [`about_of`] says.
pub fn open_file(rt: &HostRuntime, path: &str) -> Result<FileBook, FileError>
    ensures { IfOk result (λ opened. IsClean (kit.view opened.store) → IsReady (kit.view opened.store) opened.standing) }
{
    if length_of(rt, path)?.is_none() {
        return Err(FileError::Missing);
    }
    let store = renewed_at(rt, path)?;
    book_in(rt.alloc(), store)
}

/// Makes a book with no row in a file, which is made too if it is missing. A file that has a book, and one of another
/// program, are left as they are; one that a crash left where a book was being made may have to be removed first.
pub fn create_file(rt: &HostRuntime, path: &str, about: &About) -> Result<FileBook, FileError>
    ensures ready { IfOk result (λ made. IsClean (kit.view made.store) → IsReady (kit.view made.store) made.standing) }
    ensures about { IfOk result (λ made. IsClean (kit.view made.store) → about_in ((kit.view made.store).committed 1) ≡ about_form.spell about.now) }
    ensures empty { IfOk result (λ made. IsClean (kit.view made.store) → rows_in ((kit.view made.store).committed 0) ≡ []) }
{
    let alloc = rt.alloc();
    let octets = spell_about(alloc, about)?;
    let store = database_at(rt, path)?;
    match create_tree(alloc, store, &octets) {
        Ok(book) => Ok(book),
        Err((error, _)) => Err(error.into()),
    }
}

/// Copies the log into the file, and lets go of both.
pub fn close_file(book: FileBook) -> Result<(), FileError> {
    let mut store = book.into_store();
    store.checkpoint()?;
    drop(store.close());
    Ok(())
}
