//! Opening the tables of a book.

ghost use Rattle.std.specs.Prelude.{◌≡◌, ◌≢◌, ◌↔◌, ◌<◌, ◌^◌, [], ℕ, List, Err, IsSome, IsTrue, IfOk, OnOk, false, length, slice_index_or};
ghost use Rattle.sqlite_value.specs.Order.{column};
ghost use Rattle.sqlite_trees.specs.Tree.{Trees};
ghost use Rattle.sqlite_trees.specs.View.{IsClean};
ghost use Rattle.sqlite_trees.specs.declared.store.Shape.TheVariants.{Table};
ghost use Rattle.book_rows.specs.About.{last_of, standing, standing_with};
ghost use Rattle.book_store.specs.Damage.{HasRead, HasReadAll, IsAlike, IsDamagedAt, IsEmpty, IsFound, KeepsShapes, StandsElsewhere};
ghost use Rattle.book_beside.specs.Beside.{HasBeside, beside_in, table_of};
ghost use Rattle.book_store.specs.Table.{octets_of, rows_in, standing_in, stored, HasTables, IsCounted, IsInOrder};

use crate::error::{OpenError, RowError};
use crate::tree::{BOOK, PLACES, TABLE, octets_at};
use book_beside::{ACCOUNTS, SESSIONS, Side};
use book_rows::{Standing, spell_standing, standing_behind};
use sqlite_trees::error::StoreError;
use sqlite_trees::store::{Direction, Store};
use sqlite_value::row::Row;
use sqlite_value::value::ValueRef;
use std::alloc::Global;

/// Whether the row of the table is that of a place.
fn is_stored(place: u64, row: &Row) -> bool
    requires { place < 2 ^ 63 }
    ensures yes { IsTrue result → row.now ≡ stored place (octets_of (column row.now 1)) }
    ensures no { result ≡ false → (octets : List ℕ) → row.now ≡ stored place octets → ⊥ }
{
    if row.len() != 2 {
        return false;
    }
    match (row.get(0), row.get(1)) {
        (ValueRef::Int(id), ValueRef::Blob(_)) => id == place as i64,
        _ => false,
    }
}

/// Places the cursor before the first row. The key is empty.
fn go_to_first<S: Store>(store: &mut S, table: u32, key: &Row) -> Result<(), StoreError>
    requires table { IsClean (S.Store.view store.old) → (S.Store.view store.old).shape table ≡ Table }
    requires key { key.now ≡ [] }
    ensures clean { IsClean (S.Store.view store.new) → IsClean (S.Store.view store.old) }
    ensures live { OnOk result (IsSome ((S.Store.view store.new).cursors 0)) }
    ensures read { OnOk result (IsClean (S.Store.view store.new) → HasRead table (S.Store.view store.old) (S.Store.view store.new) 0) }
    ensures quiet { (db : Trees) → S.Store.recovers store.new db → S.Store.recovers store.old db }
    ensures reopens { KeepsShapes (S.Store.view store.old) (S.Store.view store.new) }
{
    store.seek(0, table, key, Direction::Forward)?;
    Ok(())
}

/// How many rows a table has, where each is that of its place.
fn count_rows<S: Store>(store: &mut S, alloc: Global, table: u32) -> Result<u64, OpenError>
    requires { IsClean (S.Store.view store.old) → (S.Store.view store.old).shape table ≡ Table }
    ensures clean { IsClean (S.Store.view store.new) → IsClean (S.Store.view store.old) }
    ensures all { IfOk result (λ count. IsClean (S.Store.view store.new) → HasReadAll table (S.Store.view store.old) (S.Store.view store.new) count) }
    ensures damaged { (place : ℕ) → result ≡ Err (OpenError.Damaged place) → IsClean (S.Store.view store.new) → IsDamagedAt ((S.Store.view store.old).trees table) place }
    ensures others { (result ≢ Err OpenError.NoBook) × (result ≢ Err OpenError.StandsElsewhere) }
    ensures quiet { (db : Trees) → S.Store.recovers store.new db → S.Store.recovers store.old db }
    ensures reopens { KeepsShapes (S.Store.view store.old) (S.Store.view store.new) }
{
    let mut row = Row::new(alloc);
    if let Err(error) = go_to_first(store, table, &row) {
        return Err(OpenError::Store(error));
    }
    for place in 0..PLACES {
        match store.next(0, &mut row) {
            Ok(true) => {}
            Ok(false) => return Ok(place),
            Err(error) => return Err(OpenError::Store(error)),
        }
        if !is_stored(place, &row) {
            return Err(OpenError::Damaged(place));
        }
    }
    Err(OpenError::TooLong)
}

/// The octets of the last of so many rows of the table of rows, none where it has no row.
fn last_row<S: Store>(store: &mut S, alloc: Global, count: u64) -> Result<Vec<u8>, RowError>
    requires table { IsClean (S.Store.view store.old) → (S.Store.view store.old).shape 0 ≡ Table }
    requires order { IsClean (S.Store.view store.old) → IsInOrder ((S.Store.view store.old).trees 0) }
    requires count { IsClean (S.Store.view store.old) → count ≡ length (rows_in ((S.Store.view store.old).trees 0)) }
    ensures clean { IsClean (S.Store.view store.new) → IsClean (S.Store.view store.old) }
    ensures last { IfOk result (λ octets. IsClean (S.Store.view store.new) → octets.items ≡ last_of (rows_in ((S.Store.view store.old).trees 0))) }
    ensures same { OnOk result (IsClean (S.Store.view store.new) → S.Store.view store.new ≡ S.Store.view store.old) }
    ensures quiet { (db : Trees) → S.Store.recovers store.new db → S.Store.recovers store.old db }
    ensures reopens { KeepsShapes (S.Store.view store.old) (S.Store.view store.new) }
{
    if count == 0 {
        return Ok(Vec::new(alloc));
    }
    octets_at(store, alloc, TABLE, count - 1)
}

/// Whether the book is said to stand here, in a table of what it is with two rows.
fn is_said<S: Store>(store: &mut S, alloc: Global, here: Standing) -> Result<bool, RowError>
    requires table { IsClean (S.Store.view store.old) → (S.Store.view store.old).shape 1 ≡ Table }
    requires order { IsClean (S.Store.view store.old) → IsInOrder ((S.Store.view store.old).trees 1) }
    requires count { IsClean (S.Store.view store.old) → length (rows_in ((S.Store.view store.old).trees 1)) ≡ 2 }
    ensures clean { IsClean (S.Store.view store.new) → IsClean (S.Store.view store.old) }
    ensures said { IfOk result (λ said. IsClean (S.Store.view store.new) → (IsTrue said ↔ standing_in ((S.Store.view store.old).trees 1) ≡ standing.spell here)) }
    ensures same { OnOk result (IsClean (S.Store.view store.new) → S.Store.view store.new ≡ S.Store.view store.old) }
    ensures quiet { (db : Trees) → S.Store.recovers store.new db → S.Store.recovers store.old db }
    ensures reopens { KeepsShapes (S.Store.view store.old) (S.Store.view store.new) }
{
    let said = octets_at(store, alloc, BOOK, 1)?;
    let spelled = spell_standing(alloc, here)?;
    Ok(said.as_slice() == spelled.as_slice())
}

/// Whether the table of what the book is has its two rows. `NoBook` is told where it has none.
fn has_book<S: Store>(store: &mut S, alloc: Global) -> Result<(), OpenError>
    requires { IsClean (S.Store.view store.old) → (S.Store.view store.old).shape 1 ≡ Table }
    ensures clean { IsClean (S.Store.view store.new) → IsClean (S.Store.view store.old) }
    ensures two { OnOk result (IsClean (S.Store.view store.new) → HasReadAll 1 (S.Store.view store.old) (S.Store.view store.new) 2) }
    ensures none { result ≡ Err OpenError.NoBook → IsClean (S.Store.view store.new) → (S.Store.view store.old).trees 1 ≡ [] }
    ensures others { (result ≢ Err OpenError.StandsElsewhere) × ((place : ℕ) → result ≢ Err (OpenError.Damaged place)) }
    ensures quiet { (db : Trees) → S.Store.recovers store.new db → S.Store.recovers store.old db }
    ensures reopens { KeepsShapes (S.Store.view store.old) (S.Store.view store.new) }
{
    match count_rows(store, alloc, BOOK) {
        Ok(2) => Ok(()),
        Ok(0) => Err(OpenError::NoBook),
        Ok(_) | Err(OpenError::Damaged(_)) => Err(OpenError::DamagedBook),
        Err(error) => Err(error),
    }
}

/// Where the book stands by the rows of its table, each of which is that of its place.
fn stands_by_rows<S: Store>(store: &mut S, alloc: Global) -> Result<Standing, OpenError>
    requires { IsClean (S.Store.view store.old) → (S.Store.view store.old).shape 0 ≡ Table }
    ensures clean { IsClean (S.Store.view store.new) → IsClean (S.Store.view store.old) }
    ensures alike { OnOk result (IsClean (S.Store.view store.new) → IsAlike (S.Store.view store.old) (S.Store.view store.new)) }
    ensures order { OnOk result (IsClean (S.Store.view store.new) → IsInOrder ((S.Store.view store.old).trees 0)) }
    ensures stands { IfOk result (λ here. IsClean (S.Store.view store.new) → here ≡ standing_with (rows_in ((S.Store.view store.old).trees 0))) }
    ensures damaged { (place : ℕ) → result ≡ Err (OpenError.Damaged place) → IsClean (S.Store.view store.new) → IsDamagedAt ((S.Store.view store.old).trees 0) place }
    ensures others { (result ≢ Err OpenError.NoBook) × (result ≢ Err OpenError.StandsElsewhere) }
    ensures quiet { (db : Trees) → S.Store.recovers store.new db → S.Store.recovers store.old db }
    ensures reopens { KeepsShapes (S.Store.view store.old) (S.Store.view store.new) }
{
    let count = match count_rows(store, alloc, TABLE) {
        Ok(count) => count,
        Err(error) => return Err(error),
    };
    match last_row(store, alloc, count) {
        Ok(last) => Ok(standing_behind(count, &last)),
        Err(RowError::Damaged) => Err(OpenError::TooLong),
        Err(RowError::Store(error)) => Err(OpenError::Store(error)),
    }
}

/// Where the book in the tables stands.
pub fn find_book<S: Store>(store: &mut S, alloc: Global) -> Result<Standing, OpenError>
    requires { IsClean (S.Store.view store.old) → HasTables (S.Store.view store.old) }
    ensures clean { IsClean (S.Store.view store.new) → IsClean (S.Store.view store.old) }
    ensures found { IfOk result (λ here. IsClean (S.Store.view store.new) → IsFound (S.Store.view store.old) (S.Store.view store.new) here) }
    ensures damaged { (place : ℕ) → result ≡ Err (OpenError.Damaged place) → IsClean (S.Store.view store.new) → IsDamagedAt ((S.Store.view store.old).trees 0) place }
    ensures elsewhere { result ≡ Err OpenError.StandsElsewhere → IsClean (S.Store.view store.new) → StandsElsewhere ((S.Store.view store.old).trees 0) ((S.Store.view store.old).trees 1) }
    ensures no_book { result ≡ Err OpenError.NoBook → IsClean (S.Store.view store.new) → (S.Store.view store.old).trees 1 ≡ [] }
    ensures quiet { (db : Trees) → S.Store.recovers store.new db → S.Store.recovers store.old db }
    ensures reopens { KeepsShapes (S.Store.view store.old) (S.Store.view store.new) }
{
    has_book(store, alloc)?;
    let here = match stands_by_rows(store, alloc) {
        Ok(here) => here,
        Err(error) => return Err(error),
    };
    match is_said(store, alloc, here) {
        Ok(true) => Ok(here),
        Ok(false) => Err(OpenError::StandsElsewhere),
        Err(RowError::Damaged) => Err(OpenError::DamagedBook),
        Err(RowError::Store(error)) => Err(OpenError::Store(error)),
    }
}

/// Whether both tables have no row.
pub fn find_nothing<S: Store>(store: &mut S, alloc: Global) -> Result<bool, StoreError>
    requires { IsClean (S.Store.view store.old) → HasTables (S.Store.view store.old) }
    ensures clean { IsClean (S.Store.view store.new) → IsClean (S.Store.view store.old) }
    ensures nothing { IfOk result (λ nothing. IsClean (S.Store.view store.new) → IsTrue nothing → IsEmpty (S.Store.view store.old) (S.Store.view store.new)) }
    ensures quiet { (db : Trees) → S.Store.recovers store.new db → S.Store.recovers store.old db }
    ensures reopens { KeepsShapes (S.Store.view store.old) (S.Store.view store.new) }
{
    let book = count_rows(store, alloc, BOOK);
    let rows = count_rows(store, alloc, TABLE);
    match (book, rows) {
        (Ok(0), Ok(0)) => Ok(true),
        (Err(OpenError::Store(error)), _) | (_, Err(OpenError::Store(error))) => Err(error),
        _ => Ok(false),
    }
}

/// How many rows a table beside the rows has, each of which is that of its place. `Damaged` is told where one is not.
#[tactic(auto, using(crate::proofs::Scanned::counted_beside, crate::proofs::Scanned::shape_is))]
pub fn count_beside<S: Store>(store: &mut S, alloc: Global, side: Side) -> Result<u64, RowError>
    requires { IsClean (S.Store.view store.old) → HasBeside (S.Store.view store.old) }
    ensures clean { IsClean (S.Store.view store.new) → IsClean (S.Store.view store.old) }
    ensures counted { IfOk result (λ count. IsClean (S.Store.view store.new) → IsCounted (table_of side (beside_in (S.Store.view store.old).trees)) count) }
    ensures alike { OnOk result (IsClean (S.Store.view store.new) → IsAlike (S.Store.view store.old) (S.Store.view store.new)) }
    ensures quiet { (db : Trees) → S.Store.recovers store.new db → S.Store.recovers store.old db }
    ensures reopens { KeepsShapes (S.Store.view store.old) (S.Store.view store.new) }
{
    match count_rows(store, alloc, side.tree()) {
        Ok(count) => Ok(count),
        Err(OpenError::Store(error)) => Err(RowError::Store(error)),
        Err(_) => Err(RowError::Damaged),
    }
}

/// The octets at a place of a table beside the rows, each of whose rows is that of its place.
#[tactic(auto, using(crate::proofs::Scanned::tree_is, crate::proofs::Scanned::shape_is))]
pub fn octets_beside<S: Store>(
    store: &mut S,
    alloc: Global,
    side: Side,
    place: u64,
) -> Result<Vec<u8>, RowError>
    requires table { IsClean (S.Store.view store.old) → HasBeside (S.Store.view store.old) }
    requires order { IsClean (S.Store.view store.old) → IsInOrder (table_of side (beside_in (S.Store.view store.old).trees)) }
    requires within { IsClean (S.Store.view store.old) → place < length (rows_in (table_of side (beside_in (S.Store.view store.old).trees))) }
    ensures clean { IsClean (S.Store.view store.new) → IsClean (S.Store.view store.old) }
    ensures octets { IfOk result (λ octets. IsClean (S.Store.view store.new) → octets.items ≡ slice_index_or (rows_in (table_of side (beside_in (S.Store.view store.old).trees))) place []) }
    ensures same { OnOk result (IsClean (S.Store.view store.new) → S.Store.view store.new ≡ S.Store.view store.old) }
    ensures quiet { (db : Trees) → S.Store.recovers store.new db → S.Store.recovers store.old db }
    ensures reopens { KeepsShapes (S.Store.view store.old) (S.Store.view store.new) }
{
    match side {
        Side::Accounts => octets_at(store, alloc, ACCOUNTS, place),
        Side::Sessions => octets_at(store, alloc, SESSIONS, place),
    }
}
