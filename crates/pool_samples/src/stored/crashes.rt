//! Crashes.

ghost use Rattle.std.specs.Prelude.{IfOk};
ghost use Rattle.sqlite_trees.specs.View.{IsClean};
ghost use Rattle.book_store.specs.Damage.{MayReopen};
ghost use Rattle.book_store.specs.Table.{IsReady};

use super::appending::{batch, print_store};
use super::tables;
use book_store::{TreeStore, append_all, reopen_tree};
use sqlite_trees::store::Reopen;
use sqlite_value::value::ValueRef;
use std::alloc::Global;

/// A crash, and what stands behind it.
fn crash<S: Reopen + Drop>(alloc: Global, store: TreeStore<S>) -> anyhow::Result<TreeStore<S>>
    requires { MayReopen (S.Store.view store.store) }
    ensures ready { IfOk result (λ again. IsClean (S.Store.view again.store) → IsReady (S.Store.view again.store) again.standing) }
    ensures reopens { IfOk result (λ again. MayReopen (S.Store.view again.store)) }
{
    match reopen_tree(alloc, store) {
        Ok(store) => Ok(store),
        Err((error, _)) => Err(error.into()),
    }
}

/// Crashes where a row of the second batch stands in the table and is not committed.
fn print_between(rt: &impl Print, alloc: Global, rows: &[Vec<u8>]) -> anyhow::Result<()> {
    let mut store = tables::store(alloc)?;
    let first = batch(alloc, rows, 0, 2)?;
    append_all(&mut store, alloc, &[first])?;
    tables::put(alloc, &mut store.store, 2, ValueRef::Blob(b"half"))?;
    let mut store = crash(alloc, store)?;
    print!(rt; "a crash between two commits: ")?;
    print_store(rt, alloc, &mut store)?;
    let second = batch(alloc, rows, 2, 9)?;
    append_all(&mut store, alloc, &[second])?;
    let mut store = crash(alloc, store)?;
    print!(rt; "a crash behind a commit: ")?;
    print_store(rt, alloc, &mut store)
}

/// Crashes before the first commit, between two, and behind one.
pub fn print_all(rt: &impl Print, alloc: Global, rows: &[Vec<u8>]) -> anyhow::Result<()> {
    let mut store = crash(alloc, tables::store(alloc)?)?;
    print!(rt; "a crash before the first commit: ")?;
    print_store(rt, alloc, &mut store)?;
    print_between(rt, alloc, rows)
}
