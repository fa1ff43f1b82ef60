//! Tables that are not of rows, and rows that are not those that were written.

ghost use Rattle.sqlite_trees.specs.Memory.{memory_view};
ghost use Rattle.sqlite_trees.specs.View.{IsClean};
ghost use Rattle.book_store.specs.Damage.{IsFresh};
ghost use Rattle.book_store.specs.Table.{HasTables};

use super::appending::batch;
use super::tables;
use book_store::{
    Batch, CreateError, OpenError, RowStore, append_all, check_rows, create_tree, open_tree,
};
use sqlite_trees::memory::MemStore;
use sqlite_value::value::ValueRef;
use std::alloc::Global;

/// How many rows an opening finds.
fn opening(alloc: Global, store: MemStore) -> Result<u64, OpenError>
    requires tables { IsClean (memory_view store) → HasTables (memory_view store) }
    requires fresh { IsClean (memory_view store) → IsFresh (memory_view store) }
{
    match open_tree(alloc, store) {
        Ok(opened) => Ok(opened.standing.count),
        Err((error, _)) => Err(error),
    }
}

/// What opening a table says.
fn print_opening(rt: &impl Print, alloc: Global, store: MemStore) -> anyhow::Result<()>
    requires tables { IsClean (memory_view store) → HasTables (memory_view store) }
    requires fresh { IsClean (memory_view store) → IsFresh (memory_view store) }
{
    match opening(alloc, store) {
        Ok(count) => println!(rt; "{count} rows")?,
        Err(error) => println!(rt; "{error}")?,
    }
    Ok(())
}

/// The tables of a book with these two rows, each under its number, which stands where it has none.
fn print_table(
    rt: &impl Print,
    alloc: Global,
    first: (i64, ValueRef<'_>),
    second: (i64, ValueRef<'_>),
) -> anyhow::Result<()> {
    let mut store = tables::store(alloc)?.into_store();
    tables::put(alloc, &mut store, first.0, first.1)?;
    tables::put(alloc, &mut store, second.0, second.1)?;
    tables::commit(&mut store)?;
    print_opening(rt, alloc, store)
}

/// The tables of a book with these octets under this number where it is said what it is.
fn print_book(rt: &impl Print, alloc: Global, number: i64, octets: &[u8]) -> anyhow::Result<()> {
    let mut store = tables::store(alloc)?.into_store();
    tables::put_book(alloc, &mut store, number, octets)?;
    tables::commit(&mut store)?;
    print_opening(rt, alloc, store)
}

/// Whether a book is made where one is.
fn is_made_over(alloc: Global, store: MemStore) -> Result<(), CreateError>
    requires tables { IsClean (memory_view store) → HasTables (memory_view store) }
    requires fresh { IsClean (memory_view store) → IsFresh (memory_view store) }
{
    match create_tree(alloc, store, b"another") {
        Ok(_) => Ok(()),
        Err((error, _)) => Err(error),
    }
}

/// Tables with no book, and a book that would be made where one is.
fn print_making(rt: &impl Print, alloc: Global) -> anyhow::Result<()> {
    print_opening(rt, alloc, tables::empty(alloc)?)?;
    let store = tables::store(alloc)?.into_store();
    match is_made_over(alloc, store) {
        Ok(()) => println!(rt; "made")?,
        Err(error) => println!(rt; "{error}")?,
    }
    Ok(())
}

/// What a check of these rows says.
fn print_check(rt: &impl Print, alloc: Global, batch: Batch) -> anyhow::Result<()> {
    let mut store = tables::store(alloc)?;
    append_all(&mut store, alloc, &[batch])?;
    match check_rows(alloc, &mut store) {
        Ok(_) => println!(rt; "{} rows", store.standing().count)?,
        Err(error) => println!(rt; "{error}")?,
    }
    Ok(())
}

/// Rows of which one has another octet at a place.
fn print_flipped(
    rt: &impl Print,
    alloc: Global,
    rows: &[Vec<u8>],
    row: usize,
    at: usize,
) -> anyhow::Result<()> {
    let mut batch = batch(alloc, rows, 0, 9)?;
    if let Some(octets) = batch.rows.get_mut(row)
        && let Some(octet) = octets.get_mut(at)
    {
        *octet ^= 1;
    }
    print!(rt; "a bit of octet {at} of row {row}: ")?;
    print_check(rt, alloc, batch)
}

/// Two rows that have changed places, and rows of another beginning.
fn print_moved(rt: &impl Print, alloc: Global, rows: &[Vec<u8>]) -> anyhow::Result<()> {
    let mut moved = batch(alloc, rows, 0, 9)?;
    if moved.rows.len() > 4 {
        moved.rows.swap(3, 4);
    }
    print!(rt; "rows 3 and 4 have changed places: ")?;
    print_check(rt, alloc, moved)?;
    print!(rt; "row 0 is missing: ")?;
    print_check(rt, alloc, batch(alloc, rows, 1, 9)?)?;
    print!(rt; "row 8 is missing: ")?;
    print_check(rt, alloc, batch(alloc, rows, 0, 8)?)
}

/// What is wrong with tables, and with rows.
pub fn print_all(rt: &impl Print, alloc: Global, rows: &[Vec<u8>]) -> anyhow::Result<()> {
    print_making(rt, alloc)?;
    let blob = ValueRef::Blob(b"any");
    print_table(rt, alloc, (0, blob), (1, blob))?;
    print_table(rt, alloc, (0, blob), (2, blob))?;
    print_table(rt, alloc, (1, blob), (2, blob))?;
    print_table(rt, alloc, (-1, blob), (0, blob))?;
    print_table(rt, alloc, (0, blob), (1, ValueRef::Text(b"any")))?;
    print_book(rt, alloc, 1, b"elsewhere")?;
    print_book(rt, alloc, 2, b"more")?;
    for (row, at) in [(0, 7), (1, 15), (3, 40), (5, 100), (8, 16), (8, 32)] {
        print_flipped(rt, alloc, rows, row, at)?;
    }
    print_moved(rt, alloc, rows)
}
