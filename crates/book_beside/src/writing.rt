//! Writes are made, in the transaction that is open.

ghost use Rattle.std.specs.Prelude.{◌≡◌, ◌<◌, ◌^◌, IfOk, OnOk, pos};
ghost use Rattle.sqlite_trees.specs.Tree.{Trees, put_row, with_tree, without_rowid};
ghost use Rattle.sqlite_trees.specs.View.{IsClean};
ghost use Rattle.sqlite_trees.specs.declared.store.Shape.TheVariants.{Table};
ghost use Rattle.book_beside.specs.Beside.{placed, AreWritten, HasBeside, IsUncommitted, IsWritten};

use crate::write::{ACCOUNTS, SESSIONS, Write};
use sqlite_trees::error::StoreError;
use sqlite_trees::store::Store;
use sqlite_value::row::Row;
use sqlite_value::value::ValueRef;
use std::alloc::Global;

/// The number under which a table has a place. `Full` is told of a place from 2^63 on, which no table has.
fn rowid(place: u64) -> Result<i64, StoreError>
    ensures is { IfOk result (λ id. id ≡ pos place) }
    ensures below { OnOk result (place < 2 ^ 63) }
{
    match i64::try_from(place) {
        Ok(id) => Ok(id),
        Err(_) => Err(StoreError::Full),
    }
}

/// The row of a table that has these octets at a place.
fn placed(alloc: Global, place: u64, octets: &[u8]) -> Result<Row, StoreError>
    ensures { IfOk result (λ row. row ≡ placed place octets.now) }
{
    let mut row = Row::new(alloc);
    row.push(ValueRef::Int(rowid(place)?))?;
    row.push(ValueRef::Blob(octets))?;
    Ok(row)
}

/// Puts octets at a place of a table.
fn put_octets<S: Store>(
    store: &mut S,
    alloc: Global,
    table: u32,
    place: u64,
    octets: &[u8],
) -> Result<(), StoreError>
    requires { IsClean (S.Store.view store.old) → (S.Store.view store.old).shape table ≡ Table }
    ensures put { OnOk result (IsClean (S.Store.view store.new) → (S.Store.view store.new).trees ≡ with_tree (S.Store.view store.old).trees table (put_row (placed place octets.now) ((S.Store.view store.old).trees table))) }
    ensures stays_open { OnOk result (IsClean (S.Store.view store.new) → (S.Store.view store.new).is_open ≡ (S.Store.view store.old).is_open) }
    ensures uncommitted { IsUncommitted S.Store.view S.Store.recovers store.old store.new }
{
    let row = placed(alloc, place, octets)?;
    store.put(table, &row)
}

/// Takes what stands at a place off a table.
fn take_off<S: Store>(store: &mut S, table: u32, place: u64) -> Result<(), StoreError>
    requires { IsClean (S.Store.view store.old) → (S.Store.view store.old).shape table ≡ Table }
    ensures gone { OnOk result (IsClean (S.Store.view store.new) → (S.Store.view store.new).trees ≡ with_tree (S.Store.view store.old).trees table (without_rowid (pos place) ((S.Store.view store.old).trees table))) }
    ensures stays_open { OnOk result (IsClean (S.Store.view store.new) → (S.Store.view store.new).is_open ≡ (S.Store.view store.old).is_open) }
    ensures uncommitted { IsUncommitted S.Store.view S.Store.recovers store.old store.new }
{
    store.delete(table, rowid(place)?)
}

/// Makes one write.
fn put_write<S: Store>(store: &mut S, alloc: Global, write: &Write) -> Result<(), StoreError>
    requires { IsClean (S.Store.view store.old) → HasBeside (S.Store.view store.old) }
    ensures written { OnOk result (IsClean (S.Store.view store.new) → IsWritten (S.Store.view store.old).trees write.now (S.Store.view store.new).trees) }
    ensures stays_open { OnOk result (IsClean (S.Store.view store.new) → (S.Store.view store.new).is_open ≡ (S.Store.view store.old).is_open) }
    ensures uncommitted { IsUncommitted S.Store.view S.Store.recovers store.old store.new }
{
    match write {
        Write::Account { place, octets } => put_octets(store, alloc, ACCOUNTS, *place, octets),
        Write::NoAccount { place } => take_off(store, ACCOUNTS, *place),
        Write::Session { place, octets } => put_octets(store, alloc, SESSIONS, *place, octets),
        Write::NoSession { place } => take_off(store, SESSIONS, *place),
    }
}

/// Makes these writes in their order, in the transaction that is open. No crash shows them yet. `Full` is told of
/// a place from 2^63 on, which no table has. After an error some may be made.
pub fn put_writes<S: Store>(
    store: &mut S,
    alloc: Global,
    writes: &[Write],
) -> Result<(), StoreError>
    requires { IsClean (S.Store.view store.old) → HasBeside (S.Store.view store.old) }
    ensures written { OnOk result (IsClean (S.Store.view store.new) → AreWritten (S.Store.view store.old).trees writes.now (S.Store.view store.new).trees) }
    ensures stays_open { OnOk result (IsClean (S.Store.view store.new) → (S.Store.view store.new).is_open ≡ (S.Store.view store.old).is_open) }
    ensures uncommitted { IsUncommitted S.Store.view S.Store.recovers store.old store.new }
{
    for write in writes {
        put_write(store, alloc, write)?;
    }
    Ok(())
}
