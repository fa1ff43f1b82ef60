//! Rows in a table of a database.

ghost use Rattle.std.specs.Prelude.{◌≡◌, ◌⊎◌, ◌+◌, ◌<◌, ◌≤◌, ◌^◌, ◌++◌, [], ℕ, List, IsTrue, IfErr, IfOk, OnOk, length, slice_index_or, false};
ghost use Rattle.sqlite_value.specs.Order.{column};
ghost use Rattle.sqlite_value.specs.declared.value.Value.TheVariants.{Blob};
ghost use Rattle.sqlite_trees.specs.Tree.{Trees, put_row, with_tree};
ghost use Rattle.sqlite_trees.specs.View.{IsClean};
ghost use Rattle.sqlite_trees.specs.declared.store.Shape.TheVariants.{Table};
ghost use Rattle.book_rows.specs.About.{standing, standing_with};
ghost use Rattle.book_store.specs.Damage.{IsDamagedAt, IsFresh, KeepsShapes, MayReopen, StandsElsewhere};
ghost use Rattle.book_beside.specs.Beside.{beside_in};
ghost use Rattle.book_store.specs.Table.{about_in, octets_in, put_from, rows_in, stored, stored_in, stored_with, HasTables, IsInOrder, IsMade, IsPut, IsReady, Leaves};

use crate::error::{AppendError, CreateError, OpenError, RowError};
use crate::opening::{count_beside, find_book, find_nothing, octets_beside};
use crate::store::RowStore;
use book_beside::{Side, Write, put_writes};
use book_rows::{Standing, spell_standing, standing_behind};
use sqlite_trees::error::StoreError;
use sqlite_trees::store::{Reopen, Store};
use sqlite_value::row::Row;
use sqlite_value::value::ValueRef;
use std::alloc::{AllocError, Global};

/// The number of the table of rows. It has one column, with the octets of a row of the book; the rowid is the place.
pub const TABLE: u32 = 0;

/// The number of the table that says what the book is, and where it stands. It has one column, with octets.
pub const BOOK: u32 = 1;

/// How many places a table has.
pub const PLACES: u64 = 1 << 62;

/// A store of rows in two tables of a database.
pub struct TreeStore<S> {
    /// The database.
    pub store: S,
    /// Where the book stands.
    pub standing: Standing,
}

// By hand, so that each exit of an owner is proved with one call.
impl<S: Drop> Drop for TreeStore<S> {
    fn drop(self) {
        let TreeStore {
            store: _,
            standing: _,
        } = self;
    }
}

impl<S> TreeStore<S> {
    /// The database.
    pub fn into_store(self) -> S
        ensures { result ≡ self.store }
    {
        let TreeStore { store, standing: _ } = self;
        store
    }
}

/// Opens the tables of a database in which nothing is under way, and finds the book that they hold. `NoBook` is told where
/// there is none: nothing is begun anew. A row that is not that of its place is refused with the place, as is a place that is
/// skipped, and a book that is said to stand elsewhere than its rows say: rows are missing at its end, or are too many. An
/// error hands the database back, with its rows as they were.
pub fn open_tree<S: Store>(alloc: Global, store: S) -> Result<TreeStore<S>, (OpenError, S)>
    requires tables { IsClean (S.Store.view store) → HasTables (S.Store.view store) }
    requires fresh { IsClean (S.Store.view store) → IsFresh (S.Store.view store) }

    ensures clean { IfOk result (λ opened. IsClean (S.Store.view opened.store) → IsClean (S.Store.view store)) }
    ensures ready { IfOk result (λ opened. IsClean (S.Store.view opened.store) → IsReady (S.Store.view opened.store) opened.standing) }
    ensures found { IfOk result (λ opened. IsClean (S.Store.view opened.store) → (S.Store.view opened.store).committed ≡ (S.Store.view store).committed) }
    ensures crash { IfOk result (λ opened. (db : Trees) → S.Store.recovers opened.store db → S.Store.recovers store db) }
    ensures reopens { IfOk result (λ opened. MayReopen (S.Store.view store) → MayReopen (S.Store.view opened.store)) }

    ensures damaged { (place : ℕ) → IfErr result (λ refused. refused.0 ≡ OpenError.Damaged place → IsClean (S.Store.view refused.1) → IsDamagedAt ((S.Store.view store).committed 0) place) }
    ensures elsewhere { IfErr result (λ refused. refused.0 ≡ OpenError.StandsElsewhere → IsClean (S.Store.view refused.1) → StandsElsewhere ((S.Store.view store).committed 0) ((S.Store.view store).committed 1)) }
    ensures no_book { IfErr result (λ refused. refused.0 ≡ OpenError.NoBook → IsClean (S.Store.view refused.1) → (S.Store.view store).committed 1 ≡ []) }
    ensures unharmed { IfErr result (λ refused. (db : Trees) → S.Store.recovers refused.1 db → S.Store.recovers store db) }
{
    let mut store = store;
    match find_book(&mut store, alloc) {
        Ok(standing) => Ok(TreeStore { store, standing }),
        Err(error) => Err((error, store)),
    }
}

/// Makes a book with no row in the tables of a database, in one commit. `NotEmpty` is told where one of them has a row:
/// nothing is overwritten.
pub fn create_tree<S: Store>(
    alloc: Global,
    store: S,
    about: &[u8],
) -> Result<TreeStore<S>, (CreateError, S)>
    requires tables { IsClean (S.Store.view store) → HasTables (S.Store.view store) }
    requires fresh { IsClean (S.Store.view store) → IsFresh (S.Store.view store) }

    ensures clean { IfOk result (λ made. IsClean (S.Store.view made.store) → IsClean (S.Store.view store)) }
    ensures ready { IfOk result (λ made. IsClean (S.Store.view made.store) → IsReady (S.Store.view made.store) made.standing) }
    ensures about { IfOk result (λ made. IsClean (S.Store.view made.store) → about_in ((S.Store.view made.store).committed 1) ≡ about.now) }
    ensures empty { IfOk result (λ made. IsClean (S.Store.view made.store) → rows_in ((S.Store.view made.store).committed 0) ≡ []) }
    ensures crash { IfOk result (λ made. IsClean (S.Store.view made.store) → (db : Trees) → S.Store.recovers made.store db → S.Store.recovers store db ⊎ (stored_in db ≡ stored_with about.now [] (beside_in (S.Store.view store).committed))) }
    ensures reopens { IfOk result (λ made. MayReopen (S.Store.view store) → MayReopen (S.Store.view made.store)) }

    ensures unharmed { IfErr result (λ refused. IsClean (S.Store.view refused.1) → (db : Trees) → S.Store.recovers refused.1 db → S.Store.recovers store db ⊎ (stored_in db ≡ stored_with about.now [] (beside_in (S.Store.view store).committed))) }
    ensures kept { IfErr result (λ refused. refused.0 ≡ CreateError.NotEmpty → (db : Trees) → S.Store.recovers refused.1 db → S.Store.recovers store db) }
{
    let mut store = store;
    match find_nothing(&mut store, alloc) {
        Ok(true) => {}
        Ok(false) => return Err((CreateError::NotEmpty, store)),
        Err(error) => return Err((CreateError::Store(error), store)),
    }
    let standing = standing_behind(0, &[]);
    match commit_book(&mut store, alloc, about, standing) {
        Ok(()) => Ok(TreeStore { store, standing }),
        Err(error) => Err((CreateError::Store(error), store)),
    }
}

/// Has the database crash, and opens it again. It finds one of the books that a crash may leave, as `may_leave` of
/// [`RowStore`] names them.
pub fn reopen_tree<S: Reopen>(
    alloc: Global,
    opened: TreeStore<S>,
) -> Result<TreeStore<S>, (OpenError, S)>
    requires { MayReopen (S.Store.view opened.store) }
    ensures clean { IfOk result (λ again. IsClean (S.Store.view again.store) → IsClean (S.Store.view opened.store)) }
    ensures ready { IfOk result (λ again. IsClean (S.Store.view again.store) → IsReady (S.Store.view again.store) again.standing) }
    ensures found { IfOk result (λ again. IsClean (S.Store.view again.store) → Leaves (S.Store.recovers opened.store) (stored_in (S.Store.view again.store).committed)) }
    ensures reopens { IfOk result (λ again. MayReopen (S.Store.view again.store)) }
{
    let mut store = opened.into_store();
    match store.crash_and_reopen() {
        Ok(()) => open_tree(alloc, store),
        Err(error) => Err((OpenError::Store(error), store)),
    }
}

/// The row of a table for the octets at a place.
fn stored(alloc: Global, place: u64, octets: &[u8]) -> Result<Row, AllocError>
    requires { place < 2 ^ 63 }
    ensures { IfOk result (λ row. row ≡ stored place octets.now) }
{
    let mut row = Row::new(alloc);
    row.push(ValueRef::Int(place as i64))?;
    row.push(ValueRef::Blob(octets))?;
    Ok(row)
}

/// Puts the row of a place into a table, in this transaction. No crash shows it yet.
fn put_one<S: Store>(
    store: &mut S,
    alloc: Global,
    table: u32,
    place: u64,
    octets: &[u8],
) -> Result<(), StoreError>
    requires table { IsClean (S.Store.view store.old) → (S.Store.view store.old).shape table ≡ Table }
    requires place { place < 2 ^ 63 }
    ensures clean { IsClean (S.Store.view store.new) → IsClean (S.Store.view store.old) }
    ensures put { OnOk result (IsClean (S.Store.view store.new) → (S.Store.view store.new).trees ≡ with_tree (S.Store.view store.old).trees table (put_row (stored place octets.now) ((S.Store.view store.old).trees table))) }
    ensures stays_open { OnOk result (IsClean (S.Store.view store.new) → (S.Store.view store.new).is_open ≡ (S.Store.view store.old).is_open) }
    ensures quiet { (db : Trees) → S.Store.recovers store.new db → S.Store.recovers store.old db }
    ensures reopens { KeepsShapes (S.Store.view store.old) (S.Store.view store.new) }
{
    let row = stored(alloc, place, octets)?;
    store.put(table, &row)
}

/// Puts the rows from a place on into their table, in this transaction. No crash shows them yet.
fn put_all<S: Store>(
    store: &mut S,
    alloc: Global,
    place: u64,
    batch: &[Vec<u8>],
) -> Result<(), StoreError>
    requires table { IsClean (S.Store.view store.old) → (S.Store.view store.old).shape 0 ≡ Table }
    requires place { place + length batch.now ≤ 2 ^ 63 }
    ensures clean { IsClean (S.Store.view store.new) → IsClean (S.Store.view store.old) }
    ensures put { OnOk result (IsClean (S.Store.view store.new) → (S.Store.view store.new).trees 0 ≡ put_from place (octets_in batch.now) ((S.Store.view store.old).trees 0)) }
    ensures book { OnOk result (IsClean (S.Store.view store.new) → (S.Store.view store.new).trees 1 ≡ (S.Store.view store.old).trees 1) }
    ensures beside { OnOk result (IsClean (S.Store.view store.new) → beside_in (S.Store.view store.new).trees ≡ beside_in (S.Store.view store.old).trees) }
    ensures stays_open { OnOk result (IsClean (S.Store.view store.new) → (S.Store.view store.new).is_open ≡ (S.Store.view store.old).is_open) }
    ensures quiet { (db : Trees) → S.Store.recovers store.new db → S.Store.recovers store.old db }
    ensures reopens { KeepsShapes (S.Store.view store.old) (S.Store.view store.new) }
{
    let mut next = place;
    for octets in batch {
        put_one(store, alloc, TABLE, next, octets)?;
        next += 1;
    }
    Ok(())
}

/// Says where the book stands, in this transaction. No crash shows it yet.
fn put_standing<S: Store>(store: &mut S, alloc: Global, here: Standing) -> Result<(), StoreError>
    requires table { IsClean (S.Store.view store.old) → (S.Store.view store.old).shape 1 ≡ Table }
    ensures clean { IsClean (S.Store.view store.new) → IsClean (S.Store.view store.old) }
    ensures put { OnOk result (IsClean (S.Store.view store.new) → (S.Store.view store.new).trees ≡ with_tree (S.Store.view store.old).trees 1 (put_row (stored 1 (standing.spell here)) ((S.Store.view store.old).trees 1))) }
    ensures stays_open { OnOk result (IsClean (S.Store.view store.new) → (S.Store.view store.new).is_open ≡ (S.Store.view store.old).is_open) }
    ensures quiet { (db : Trees) → S.Store.recovers store.new db → S.Store.recovers store.old db }
    ensures reopens { KeepsShapes (S.Store.view store.old) (S.Store.view store.new) }
{
    let octets = spell_standing(alloc, here)?;
    put_one(store, alloc, BOOK, 1, &octets)
}

/// Puts the rows, says where the book stands then, and makes the writes beside them, in this transaction.
#[tactic(auto, using(crate::proofs::Tables::put_all_three))]
fn put_batch<S: Store>(
    store: &mut S,
    alloc: Global,
    place: u64,
    batch: &[Vec<u8>],
    here: Standing,
    writes: &[Write],
) -> Result<(), StoreError>
    requires tables { IsClean (S.Store.view store.old) → HasTables (S.Store.view store.old) }
    requires place { place + length batch.now ≤ 2 ^ 63 }
    ensures clean { IsClean (S.Store.view store.new) → IsClean (S.Store.view store.old) }
    ensures put { OnOk result (IsClean (S.Store.view store.new) → IsPut place (octets_in batch.now) here writes.now (S.Store.view store.old).trees (S.Store.view store.new).trees) }
    ensures stays_open { OnOk result (IsClean (S.Store.view store.new) → (S.Store.view store.new).is_open ≡ (S.Store.view store.old).is_open) }
    ensures quiet { (db : Trees) → S.Store.recovers store.new db → S.Store.recovers store.old db }
    ensures reopens { KeepsShapes (S.Store.view store.old) (S.Store.view store.new) }
{
    put_all(store, alloc, place, batch)?;
    put_standing(store, alloc, here)?;
    put_writes(store, alloc, writes)
}

/// Puts the rows, says where the book stands then, makes the writes beside them, and commits all.
fn commit_batch<S: Store>(
    store: &mut S,
    alloc: Global,
    place: u64,
    batch: &[Vec<u8>],
    here: Standing,
    writes: &[Write],
) -> Result<(), StoreError>
    requires tables { IsClean (S.Store.view store.old) → HasTables (S.Store.view store.old) }
    requires place { place + length batch.now ≤ 2 ^ 63 }
    ensures clean { IsClean (S.Store.view store.new) → IsClean (S.Store.view store.old) }
    ensures committed { OnOk result (IsClean (S.Store.view store.new) → IsPut place (octets_in batch.now) here writes.now (S.Store.view store.old).trees (S.Store.view store.new).committed) }
    ensures settled { OnOk result (IsClean (S.Store.view store.new) → (S.Store.view store.new).trees ≡ (S.Store.view store.new).committed) }
    ensures sound { OnOk result (IsClean (S.Store.view store.new) → (S.Store.view store.new).is_broken ≡ false) }
    ensures tables { OnOk result (IsClean (S.Store.view store.new) → HasTables (S.Store.view store.new)) }
    ensures stays_open { OnOk result (IsClean (S.Store.view store.new) → (S.Store.view store.new).is_open ≡ (S.Store.view store.old).is_open) }
    ensures crash { IsClean (S.Store.view store.new) → (db : Trees) → S.Store.recovers store.new db
        → S.Store.recovers store.old db ⊎ IsPut place (octets_in batch.now) here writes.now (S.Store.view store.old).trees db }
    ensures reopens { MayReopen (S.Store.view store.old) → MayReopen (S.Store.view store.new) }
{
    put_batch(store, alloc, place, batch, here, writes)?;
    store.commit()
}

/// Says what a book is and where it stands, in tables with no row, and commits both.
fn commit_book<S: Store>(
    store: &mut S,
    alloc: Global,
    about: &[u8],
    here: Standing,
) -> Result<(), StoreError>
    requires tables { IsClean (S.Store.view store.old) → HasTables (S.Store.view store.old) }
    ensures clean { IsClean (S.Store.view store.new) → IsClean (S.Store.view store.old) }
    ensures committed { OnOk result (IsClean (S.Store.view store.new) → IsMade about.now here (S.Store.view store.old).trees (S.Store.view store.new).committed) }
    ensures settled { OnOk result (IsClean (S.Store.view store.new) → (S.Store.view store.new).trees ≡ (S.Store.view store.new).committed) }
    ensures sound { OnOk result (IsClean (S.Store.view store.new) → (S.Store.view store.new).is_broken ≡ false) }
    ensures tables { OnOk result (IsClean (S.Store.view store.new) → HasTables (S.Store.view store.new)) }
    ensures stays_open { OnOk result (IsClean (S.Store.view store.new) → (S.Store.view store.new).is_open ≡ (S.Store.view store.old).is_open) }
    ensures crash { IsClean (S.Store.view store.new) → (db : Trees) → S.Store.recovers store.new db
        → S.Store.recovers store.old db ⊎ IsMade about.now here (S.Store.view store.old).trees db }
    ensures reopens { MayReopen (S.Store.view store.old) → MayReopen (S.Store.view store.new) }
{
    put_one(store, alloc, BOOK, 0, about)?;
    put_standing(store, alloc, here)?;
    store.commit()
}

/// The octets of a row of a table: those of its second column.
fn octets_of(alloc: Global, row: &Row) -> Result<Vec<u8>, RowError>
    ensures { IfOk result (λ octets. column row.now 1 ≡ Blob octets.items) }
{
    match row.get(1) {
        ValueRef::Blob(octets) => Ok(Vec::from_slice(alloc, octets)?),
        _ => Err(RowError::Damaged),
    }
}

/// The octets at a place of a table whose rows are those of their places.
pub fn octets_at<S: Store>(
    store: &mut S,
    alloc: Global,
    table: u32,
    place: u64,
) -> Result<Vec<u8>, RowError>
    requires table { IsClean (S.Store.view store.old) → (S.Store.view store.old).shape table ≡ Table }
    requires order { IsClean (S.Store.view store.old) → IsInOrder ((S.Store.view store.old).trees table) }
    requires within { IsClean (S.Store.view store.old) → place < length (rows_in ((S.Store.view store.old).trees table)) }
    ensures clean { IsClean (S.Store.view store.new) → IsClean (S.Store.view store.old) }
    ensures octets { IfOk result (λ octets. IsClean (S.Store.view store.new) → octets.items ≡ slice_index_or (rows_in ((S.Store.view store.old).trees table)) place []) }
    ensures same { OnOk result (IsClean (S.Store.view store.new) → S.Store.view store.new ≡ S.Store.view store.old) }
    ensures quiet { (db : Trees) → S.Store.recovers store.new db → S.Store.recovers store.old db }
    ensures reopens { KeepsShapes (S.Store.view store.old) (S.Store.view store.new) }
{
    let Ok(id) = i64::try_from(place) else {
        return Err(RowError::Damaged);
    };
    let mut row = Row::new(alloc);
    match store.get(table, id, &mut row) {
        Ok(true) => octets_of(alloc, &row),
        Ok(false) => Err(RowError::Damaged),
        Err(error) => Err(RowError::Store(error)),
    }
}

/// Where a book stands behind a batch.
fn standing_after(before: Standing, batch: &[Vec<u8>]) -> Standing
    requires { before.count + length batch.now < 2 ^ 64 }
    ensures { (rows : List (List ℕ)) → before ≡ standing_with rows → result ≡ standing_with (rows ++ octets_in batch.now) }
{
    if batch.is_empty() {
        return before;
    }
    let last = &batch[batch.len() - 1];
    standing_behind(before.count + batch.len() as u64, last)
}

impl<S: Store> RowStore for TreeStore<S> {
    ghost use Rattle.book_store.specs.Table.{committed_may_stay, left_at_rest};

    ghost is_clean = { λ t. IsClean (S.Store.view t.store) };

    ghost is_ready = { λ t. IsReady (S.Store.view t.store) t.standing };

    ghost about = { λ t. about_in ((S.Store.view t.store).committed 1) };

    ghost rows = { λ t. rows_in ((S.Store.view t.store).committed 0) };

    ghost beside = { λ t. beside_in (S.Store.view t.store).committed };

    ghost may_leave = { λ t. Leaves (S.Store.recovers t.store) };

    ghost may_reopen = { λ t. MayReopen (S.Store.view t.store) };

    ghost at_rest = { λ t left clean ready leaves. left_at_rest (S.Store.recovers t.store) ((S.Store.view t.store).committed) left ready.rest.book (λ db. S.Store.settled t.store db ready.rest.is_open) leaves };

    ghost may_stay = { λ t clean ready. committed_may_stay (S.Store.recovers t.store) ((S.Store.view t.store).committed) ready.rest.book (S.Store.stays t.store ready.rest.is_open) };

    fn standing(&self) -> Standing {
        self.standing
    }

    fn about(&mut self, alloc: Global) -> Result<Vec<u8>, RowError> {
        octets_at(&mut self.store, alloc, BOOK, 0)
    }

    fn append(
        &mut self,
        alloc: Global,
        place: u64,
        batch: &[Vec<u8>],
        writes: &[Write],
    ) -> Result<(), AppendError> {
        if place != self.standing.count {
            return Err(AppendError::NotBehind);
        }
        let len = batch.len() as u64;
        if place > PLACES || len > PLACES - place {
            return Err(AppendError::NoPlace);
        }
        let here = standing_after(self.standing, batch);
        match commit_batch(&mut self.store, alloc, place, batch, here, writes) {
            Ok(()) => {
                self.standing = here;
                Ok(())
            }
            Err(error) => Err(AppendError::Store(error)),
        }
    }

    fn row(&mut self, alloc: Global, place: u64) -> Result<Vec<u8>, RowError> {
        octets_at(&mut self.store, alloc, TABLE, place)
    }

    #[tactic(auto, using(crate::proofs::Scanned::still_ready, crate::proofs::Scanned::counted_committed))]
    fn count_beside(&mut self, alloc: Global, side: Side) -> Result<u64, RowError> {
        count_beside(&mut self.store, alloc, side)
    }

    #[tactic(auto, using(crate::proofs::Scanned::order_now, crate::proofs::Scanned::within_now, crate::proofs::Scanned::octets_committed))]
    fn beside_at(&mut self, alloc: Global, side: Side, place: u64) -> Result<Vec<u8>, RowError> {
        octets_beside(&mut self.store, alloc, side, place)
    }
}
