//! Tables in memory.

ghost use Rattle.std.specs.Prelude.{◌≡◌, IfOk, OnOk};
ghost use Rattle.sqlite_trees.specs.Memory.{memory_view};
ghost use Rattle.sqlite_trees.specs.View.{IsClean};
ghost use Rattle.sqlite_trees.specs.declared.store.Shape.TheVariants.{Table};
ghost use Rattle.book_store.specs.Damage.{IsFresh, MayReopen};
ghost use Rattle.book_store.specs.Table.{HasTables, IsReady};

use book_rows::{About, Identity, spell_about};
use book_store::{BOOK, TABLE, TreeStore, create_tree};
use dia_avp::Octets;
use sqlite_trees::memory::MemStore;
use sqlite_trees::schema::Object;
use sqlite_trees::store::{Shape, Store};
use sqlite_value::row::Row;
use sqlite_value::value::ValueRef;
use std::alloc::Global;

/// A table of this name with no row.
fn table(name: &'static str) -> Object<'static>
    ensures { result.shape ≡ Table }
{
    Object {
        shape: Shape::Table,
        kind: "table",
        name,
        table: name,
        reals: 0,
        sql: Some("CREATE TABLE t (octets BLOB NOT NULL)"),
    }
}

/// A database with the empty trees of a book.
pub fn empty(alloc: Global) -> anyhow::Result<MemStore>
    ensures tables { IfOk result (λ store. HasTables (memory_view store)) }
    ensures fresh { IfOk result (λ store. IsFresh (memory_view store)) }
    ensures reopens { IfOk result (λ store. MayReopen (memory_view store)) }
{
    let trees = [
        table("entry"),
        table("book"),
        table("account"),
        table("session"),
    ];
    let store = MemStore::new(alloc, &trees)?;
    Ok(store)
}

/// Puts a row into the table of rows, and does not commit it.
pub fn put<S: Store>(
    alloc: Global,
    store: &mut S,
    place: i64,
    value: ValueRef<'_>,
) -> anyhow::Result<()>
    requires { IsClean (S.Store.view store.old) → HasTables (S.Store.view store.old) }
    ensures tables { IsClean (S.Store.view store.new) → HasTables (S.Store.view store.new) }
    ensures reopens { MayReopen (S.Store.view store.old) → MayReopen (S.Store.view store.new) }
{
    let mut row = Row::new(alloc);
    row.push(ValueRef::Int(place))?;
    row.push(value)?;
    store.put(TABLE, &row)?;
    Ok(())
}

/// Puts a row into the table of what the book is, and does not commit it.
pub fn put_book<S: Store>(
    alloc: Global,
    store: &mut S,
    place: i64,
    octets: &[u8],
) -> anyhow::Result<()>
    requires { IsClean (S.Store.view store.old) → HasTables (S.Store.view store.old) }
    ensures { IsClean (S.Store.view store.new) → HasTables (S.Store.view store.new) }
{
    let mut row = Row::new(alloc);
    row.push(ValueRef::Int(place))?;
    row.push(ValueRef::Blob(octets))?;
    store.put(BOOK, &row)?;
    Ok(())
}

/// Commits what was put.
pub fn commit<S: Store>(store: &mut S) -> anyhow::Result<()>
    requires { IsClean (S.Store.view store.old) → HasTables (S.Store.view store.old) }
    ensures tables { OnOk result (IsClean (S.Store.view store.new) → HasTables (S.Store.view store.new)) }
    ensures fresh { OnOk result (IsClean (S.Store.view store.new) → IsFresh (S.Store.view store.new)) }
{
    store.commit()?;
    Ok(())
}

/// What the books of the samples are.
pub fn about(alloc: Global) -> anyhow::Result<Vec<u8>> {
    let about = About {
        identity: Identity(7),
        terms: Octets::copy_of(alloc, b"terms")?,
    };
    Ok(spell_about(alloc, &about)?)
}

/// A book with no row.
pub fn store(alloc: Global) -> anyhow::Result<TreeStore<MemStore>>
    ensures ready { IfOk result (λ made. IsClean (memory_view made.store) → IsReady (memory_view made.store) made.standing) }
    ensures reopens { IfOk result (λ made. MayReopen (memory_view made.store)) }
{
    let about = about(alloc)?;
    match create_tree(alloc, empty(alloc)?, &about) {
        Ok(store) => Ok(store),
        Err((error, _)) => Err(error.into()),
    }
}
