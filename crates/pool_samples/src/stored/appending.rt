//! Rows in a store.

ghost use Rattle.std.specs.Prelude.{OnOk};

use super::tables;
use book_rows::{Standing, Sum};
use book_store::{AppendError, Batch, RowStore, append_all, check_rows};
use std::alloc::Global;

/// How many rows a store has, and the last sum.
pub fn print_store<L: RowStore>(rt: &impl Print, alloc: Global, store: &mut L) -> anyhow::Result<()>
    requires { L.is_clean store.old → L.is_ready store.old }
    ensures ready { OnOk result (L.is_clean store.new → L.is_ready store.new) }
    ensures reopens { L.may_reopen store.old → L.may_reopen store.new }
{
    let Standing { count, moment, .. } = store.standing();
    match check_rows(alloc, store) {
        Ok(Sum(sum)) => {
            println!(rt; "{count} rows until {}, sum {sum:032x}", moment.0)?;
            Ok(())
        }
        Err(error) => Err(error.into()),
    }
}

/// A batch of the rows from one place up to another.
pub fn batch(alloc: Global, rows: &[Vec<u8>], first: usize, end: usize) -> anyhow::Result<Batch> {
    let mut batch = Vec::new(alloc);
    for row in rows.iter().take(end).skip(first) {
        batch.push(Vec::from_slice(alloc, row.as_slice())?)?;
    }
    Ok(Batch {
        rows: batch,
        writes: Vec::new(alloc),
    })
}

/// Whether the row of a place is this one.
fn has_row<L: RowStore>(
    alloc: Global,
    store: &mut L,
    place: u64,
    octets: &[u8],
) -> anyhow::Result<bool>
    requires { L.is_clean store.old → L.is_ready store.old }
    ensures { OnOk result (L.is_clean store.new → L.is_ready store.new) }
{
    if place >= store.standing().count {
        return Ok(false);
    }
    let found = store.row(alloc, place)?;
    Ok(found.as_slice() == octets)
}

/// How many rows are those that were written.
fn print_same<L: RowStore>(
    rt: &impl Print,
    alloc: Global,
    store: &mut L,
    rows: &[Vec<u8>],
) -> anyhow::Result<()>
    requires { L.is_clean store.old → L.is_ready store.old }
{
    let mut same = 0_u64;
    let mut place = 0_u64;
    for octets in rows {
        if has_row(alloc, store, place, octets.as_slice())? {
            same = same.saturating_add(1);
        }
        place = place.saturating_add(1);
    }
    println!(rt; "{same} rows read back")?;
    Ok(())
}

/// A batch whose first row has another place than the next one is refused, and leaves the store as it was.
fn print_elsewhere<L: RowStore>(
    rt: &impl Print,
    alloc: Global,
    store: &mut L,
    place: u64,
    batch: &Batch,
) -> anyhow::Result<()>
    requires { L.is_clean store.old → L.is_ready store.old }
    ensures { OnOk result (L.is_clean store.new → L.is_ready store.new) }
{
    match store.append(alloc, place, &batch.rows, &batch.writes) {
        Ok(()) => println!(rt; "appended at {place}")?,
        Err(AppendError::NotBehind) => println!(rt;
            "at {place}: the rows do not begin behind the last one"
        )?,
        Err(error) => return Err(error.into()),
    }
    Ok(())
}

/// An empty store, three batches, of which one has no row, and batches at other places.
pub fn print_all(rt: &impl Print, alloc: Global, rows: &[Vec<u8>]) -> anyhow::Result<()> {
    let mut store = tables::store(alloc)?;
    print_store(rt, alloc, &mut store)?;
    let first = batch(alloc, rows, 0, 4)?;
    print_elsewhere(rt, alloc, &mut store, 1, &first)?;
    let none = batch(alloc, rows, 4, 4)?;
    let rest = batch(alloc, rows, 4, 9)?;
    append_all(&mut store, alloc, &[first, none, rest])?;
    print_store(rt, alloc, &mut store)?;
    let again = batch(alloc, rows, 8, 9)?;
    print_elsewhere(rt, alloc, &mut store, 8, &again)?;
    print_elsewhere(rt, alloc, &mut store, 10, &again)?;
    print_store(rt, alloc, &mut store)?;
    print_same(rt, alloc, &mut store, rows)
}
