//! Making a book on disk, and opening it.

ghost use Rattle.std.specs.Prelude.{◌≡◌, ◌≤◌, ◌/◌, ◌%◌, ◌^◌, [], IfNone, IfOk, IfSome, None, Ok, OnOk, is_some, max, true};
ghost use Rattle.book_entries.specs.Replayed.{stored_in, sum_in};
ghost use Rattle.book_rows.specs.About.{whole};
ghost use Rattle.book_terms.specs.Terms.{terms as terms_form};
ghost use Rattle.book_opening.specs.Opened.{HasIdentity, IsOfTerms, last_in, now_in};
ghost use Rattle.book_terms.specs.Difference.{Hold};
ghost use Rattle.book_journal.specs.Kept.{IsKeptBy, IsSettled};

use crate::fault::BookFault;
use crate::renewing::renewed;
use book_file::{FileBook, FileError, about_of, close_file, create_file, open_file};
use book_journal::{Journal, open_journal};
use book_rows::{About, Identity, Sum};
use book_store::RowStore;
use book_terms::{read_terms, spell_terms};
use cc_book::{Book, Entry, Terms};
use dia_avp::Octets;
use dia_base::{HISTORY_LIMIT, Moment};
use farm_clock::Timer;
use std::alloc::{AllocError, Global};
use std::hash::{BuildHasher, RandomState};

/// How many Origin-State-Ids there are.
const STATES: u64 = 4_294_967_296;

/// An identity: its highest 32 bits are the second, since 1970, in which it is drawn, and the others are drawn at random.
fn drawn(rt: &HostRuntime) -> Result<Identity, BookFault> {
    let seconds = Timer::start(rt)?.first().0 / 1_000 % STATES;
    let random = RandomState::new(rt)?;
    let (high, low) = (random.hash_one(&0_u8) % STATES, random.hash_one(&1_u8));
    Ok(Identity(u128::from(seconds) << 96 | u128::from(high) << 64 | u128::from(low)))
}

/// The Origin-State-Id of who serves on the book of this identity (RFC 6733, section 8.16): the second in which the book was made, since
/// 1970, or a number by chance where a release before this format of identities made it. It stays for the book's life.
pub fn state_id_of(identity: Identity) -> u32
    ensures { result ≡ (identity.0 / 2 ^ 96) % 2 ^ 32 }
{
    (identity.0 >> 96) as u32
}

/// The identity of the book in a store, and the store.
fn identity_in<S: RowStore + Drop>(alloc: Global, store: S) -> Result<(S, Identity), BookFault>
    requires { S.is_clean store → S.is_ready store }
    ensures clean { IfOk result (λ told. S.is_clean told.0 → S.is_clean store) }
    ensures ready { IfOk result (λ told. S.is_clean told.0 → S.is_ready told.0) }
    ensures identity { IfOk result (λ told. S.is_clean told.0 → HasIdentity (S.about store) told.1) }
    ensures same { IfOk result (λ told. S.is_clean told.0 → (S.rows told.0 ≡ S.rows store) × (S.about told.0 ≡ S.about store)) }
{
    let mut store = store;
    let about = about_of(alloc, &mut store)?;
    Ok((store, about.identity))
}

/// The identity of the book in a file. It lets go of the file.
pub fn identity_at(rt: &HostRuntime, path: &str) -> Result<Identity, BookFault> {
    let file = open_file(rt, path)?;
    let (file, identity) = identity_in(rt.alloc(), file)?;
    close_file(file)?;
    Ok(identity)
}

/// A book under these terms, with room for so many entries, and none.
pub fn empty_under(alloc: Global, terms: Terms, limit: u64) -> Result<Book, AllocError>
    requires { limit ≤ HISTORY_LIMIT }
    ensures { IfOk result (λ book. book ≡ record { terms = terms; limit = limit; history = [] }) }
{
    Book::under(alloc, terms, limit)
}

/// A book with no entry, under the terms that the octets of a book say it was made under.
fn empty_of(alloc: Global, about: About, limit: u64) -> Result<Book, BookFault>
    requires { limit ≤ HISTORY_LIMIT }
    ensures terms { IfOk result (λ book. whole terms_form about.terms ≡ Ok book.terms) }
    ensures limit { IfOk result (λ book. book.limit ≡ limit) }
    ensures history { IfOk result (λ book. book.history ≡ []) }
{
    let terms = read_terms(alloc, about.terms.as_slice())?;
    drop(about);
    Ok(empty_under(alloc, terms, limit)?)
}

/// The book in a store, under the terms that it was made under, with room for so many entries.
#[tactic(auto, using(crate::proofs::Stored::has_store))]
fn open_in<S: RowStore + Drop>(
    alloc: Global,
    store: S,
    limit: u64,
) -> Result<(Journal<S>, Book), BookFault>
    requires ready { S.is_clean store → S.is_ready store }
    requires limit { limit ≤ HISTORY_LIMIT }
    ensures kept { IfOk result (λ opened. IsKeptBy S.is_clean S.is_ready S.rows S.beside opened.0 opened.1) }
    ensures settled { IfOk result (λ opened. IsSettled opened.0) }
    ensures stored { IfOk result (λ opened. is_some opened.0.store ≡ true) }
    ensures limit { IfOk result (λ opened. opened.1.limit ≡ limit) }
    ensures terms { IfOk result (λ opened. IfSome opened.0.store (λ now. S.is_clean now → IsOfTerms (S.about now) opened.1.terms)) }
    ensures clean { IfOk result (λ opened. IfSome opened.0.store (λ now. S.is_clean now → S.is_clean store)) }
    ensures same { IfOk result (λ opened. IfSome opened.0.store (λ now. S.is_clean now → (S.rows now ≡ S.rows store) × (S.about now ≡ S.about store))) }
{
    let mut store = store;
    let about = about_of(alloc, &mut store)?;
    let empty = empty_of(alloc, about, limit)?;
    match open_journal(alloc, store, empty) {
        Ok(opened) => Ok(opened),
        Err(error) => Err(error.into()),
    }
}

/// Opens the book in a file, under the terms that it was made under, with room for so many entries. It has all entries that are stored,
/// and its journal keeps it from then on.
pub fn open_book(
    rt: &HostRuntime,
    path: &str,
    limit: u64,
) -> Result<(Journal<FileBook>, Book), BookFault>
    requires { limit ≤ HISTORY_LIMIT }
    ensures kept { IfOk result (λ opened. IsKeptBy ⟦<FileBook as RowStore>⟧.is_clean ⟦<FileBook as RowStore>⟧.is_ready ⟦<FileBook as RowStore>⟧.rows ⟦<FileBook as RowStore>⟧.beside opened.0 opened.1) }
    ensures settled { IfOk result (λ opened. IsSettled opened.0) }
    ensures stored { IfOk result (λ opened. is_some opened.0.store ≡ true) }
    ensures limit { IfOk result (λ opened. opened.1.limit ≡ limit) }
    ensures terms { IfOk result (λ opened. IfSome opened.0.store (λ now. ⟦<FileBook as RowStore>⟧.is_clean now → IsOfTerms (⟦<FileBook as RowStore>⟧.about now) opened.1.terms)) }
{
    let file = open_file(rt, path)?;
    open_in(rt.alloc(), file, limit)
}

/// A book that is kept in memory alone.
fn in_memory<S: RowStore>(alloc: Global, empty: Book) -> (Journal<S>, Book)
    ensures kept { IsKeptBy S.is_clean S.is_ready S.rows S.beside result.0 result.1 }
    ensures settled { IsSettled result.0 }
    ensures memory { result.0.store ≡ None }
    ensures book { result.1 ≡ empty }
{
    (Journal::in_memory(alloc), empty)
}

/// The book that serves, before it comes under the terms of the site ([`renew`](crate::renew)): that of the file, opened as [`open_book`]
/// does, with room for so many entries, or where no file is named an empty one in memory, under those terms.
pub fn serving_book(
    rt: &HostRuntime,
    path: Option<&str>,
    limit: u64,
    wanted: &Terms,
) -> Result<(Journal<FileBook>, Book), BookFault>
    requires most { limit ≤ HISTORY_LIMIT }
    ensures kept { IfOk result (λ opened. IsKeptBy ⟦<FileBook as RowStore>⟧.is_clean ⟦<FileBook as RowStore>⟧.is_ready ⟦<FileBook as RowStore>⟧.rows ⟦<FileBook as RowStore>⟧.beside opened.0 opened.1) }
    ensures settled { IfOk result (λ opened. IsSettled opened.0) }
    ensures limit { IfOk result (λ opened. opened.1.limit ≡ limit) }
    ensures stored { IfOk result (λ opened. is_some opened.0.store ≡ is_some path.entry) }
    ensures terms { IfOk result (λ opened. IfSome opened.0.store (λ now. ⟦<FileBook as RowStore>⟧.is_clean now → IsOfTerms (⟦<FileBook as RowStore>⟧.about now) opened.1.terms)) }
    ensures memory { IfNone path.entry (IfOk result (λ opened. (opened.0.store ≡ None) × (opened.1 ≡ record { terms = wanted.now; limit = limit; history = [] }))) }
{
    match path {
        Some(path) => open_book(rt, path, limit),
        None => {
            let terms = wanted.copy(rt.alloc())?;
            let empty = empty_under(rt.alloc(), terms, limit)?;
            Ok(in_memory(rt.alloc(), empty))
        }
    }
}

/// A book as it is stored.
pub struct StoredBook {
    pub identity: Identity,
    /// It has all entries that are stored, under the terms that it was made under.
    pub book: Book,
    /// The sum of its history, which is that of its last row. It names the whole history.
    pub sum: Sum,
}

// By hand, so that each exit of an owner is proved with one call.
impl Drop for StoredBook {
    fn drop(self) {
        let StoredBook {
            identity: _,
            book: _,
            sum: _,
        } = self;
    }
}

/// The book in a store, as it is opened, and what it is stored in.
fn read_in<S: RowStore + Drop>(
    alloc: Global,
    store: S,
    limit: u64,
) -> Result<(Option<S>, StoredBook), BookFault>
    requires ready { S.is_clean store → S.is_ready store }
    requires limit { limit ≤ HISTORY_LIMIT }
    ensures limit { IfOk result (λ read. read.1.book.limit ≡ limit) }
    ensures sum { IfOk result (λ read. IfSome read.0 (λ _. read.1.sum.0 ≡ sum_in read.1.book)) }
    ensures identity { IfOk result (λ read. IfSome read.0 (λ now. S.is_clean now → HasIdentity (S.about store) read.1.identity)) }
    ensures terms { IfOk result (λ read. IfSome read.0 (λ now. S.is_clean now → IsOfTerms (S.about store) read.1.book.terms)) }
    ensures read { IfOk result (λ read. IfSome read.0 (λ now. S.is_clean now → (S.rows now ≡ S.rows store) × (S.rows store ≡ stored_in read.1.book))) }
{
    let (store, identity) = identity_in(alloc, store)?;
    let opened = open_in(alloc, store, limit)?;
    Ok(stored_of(identity, opened))
}

/// A book that is stored, and what it is stored in.
fn stored_of<S: RowStore + Drop>(
    identity: Identity,
    opened: (Journal<S>, Book),
) -> (Option<S>, StoredBook)
    requires kept { IsKeptBy S.is_clean S.is_ready S.rows S.beside opened.0 opened.1 }
    requires settled { IsSettled opened.0 }
    ensures identity { result.1.identity ≡ identity }
    ensures book { result.1.book ≡ opened.1 }
    ensures store { result.0 ≡ opened.0.store }
    ensures rows { IfSome result.0 (λ store. S.is_clean store → S.rows store ≡ stored_in result.1.book) }
    ensures sum { IfSome result.0 (λ _. result.1.sum.0 ≡ sum_in result.1.book) }
{
    let (journal, book) = opened;
    let (store, sum) = journal.into_parts();
    let stored = StoredBook {
        identity,
        book,
        sum,
    };
    (store, stored)
}

/// The book in a store, as it is opened and has come under these terms by an entry, where they did not hold in it; and what it is stored
/// in. The entry is of this moment, or of the latest before it.
fn change_in<S: RowStore + Drop>(
    alloc: Global,
    store: S,
    limit: u64,
    wanted: &Terms,
    now: Moment,
) -> Result<(Option<S>, StoredBook), BookFault>
    requires ready { S.is_clean store → S.is_ready store }
    requires limit { limit ≤ HISTORY_LIMIT }
    ensures hold { IfOk result (λ read. Hold (now_in read.1.book) wanted.now) }
    ensures limit { IfOk result (λ read. read.1.book.limit ≡ limit) }
    ensures sum { IfOk result (λ read. IfSome read.0 (λ _. read.1.sum.0 ≡ sum_in read.1.book)) }
{
    let (store, identity) = identity_in(alloc, store)?;
    let opened = open_in(alloc, store, limit)?;
    let moment = not_before(opened.1.history(), now);
    let opened = renewed(alloc, opened, wanted, moment, true)?;
    Ok(stored_of(identity, opened))
}

/// This moment, or that of the last entry where it stands behind.
fn not_before(history: &[Entry], moment: Moment) -> Moment
    ensures { result.0 ≡ max moment.0 (last_in history.now) }
{
    let last = match history.last() {
        None => 0,
        Some(
            Entry::Take { moment, .. }
            | Entry::Sweep { moment }
            | Entry::ChangeTerms { moment, .. },
        ) => moment.0,
    };
    Moment(moment.0.max(last))
}

/// Reads the book in a file, under the terms that it was made under, with room for so many entries, and lets go of the file. A book that
/// is not opened is not read.
pub fn read_book(rt: &HostRuntime, path: &str, limit: u64) -> Result<StoredBook, BookFault>
    requires { limit ≤ HISTORY_LIMIT }
    ensures limit { IfOk result (λ read. read.book.limit ≡ limit) }
    ensures sum { IfOk result (λ read. read.sum.0 ≡ sum_in read.book) }
{
    let file = open_file(rt, path)?;
    let (file, read) = read_in(rt.alloc(), file, limit)?;
    let Some(file) = file else {
        return Err(BookFault::File(FileError::NoBook));
    };
    close_file(file)?;
    Ok(read)
}

/// Opens the book in a file, with room for so many entries, brings it under these terms by one entry where they do not hold in it, which
/// is stored, and lets go of the file. Of a book that is not changed nothing is stored.
pub fn change_book(
    rt: &HostRuntime,
    path: &str,
    limit: u64,
    wanted: &Terms,
) -> Result<StoredBook, BookFault>
    requires { limit ≤ HISTORY_LIMIT }
    ensures hold { IfOk result (λ read. Hold (now_in read.book) wanted.now) }
    ensures limit { IfOk result (λ read. read.book.limit ≡ limit) }
    ensures sum { IfOk result (λ read. read.sum.0 ≡ sum_in read.book) }
{
    let file = open_file(rt, path)?;
    let now = Timer::start(rt)?.first();
    let (file, read) = change_in(rt.alloc(), file, limit, wanted, now)?;
    let Some(file) = file else {
        return Err(BookFault::File(FileError::NoBook));
    };
    close_file(file)?;
    Ok(read)
}

/// Makes a book under these terms, by which no account is closed, in a file, with no entry, and gives the identity that it was drawn.
/// The file is made too if it is missing.
pub fn create_book(rt: &HostRuntime, path: &str, terms: &Terms) -> Result<Identity, BookFault>
    requires { terms.now.closed ≡ [] }
{
    let octets = spell_terms(rt.alloc(), terms)?;
    let about = About {
        identity: drawn(rt)?,
        terms: Octets::from_vec(octets)?,
    };
    close_file(create_file(rt, path, &about)?)?;
    Ok(about.identity)
}
