//! The trees of a book in a database.

ghost use Rattle.std.specs.Prelude.{◌≡◌, ◌≢◌, ◌⊎◌, ◌<◌, IfOk, IsTrue, OnOk, false};
ghost use Rattle.std.specs.List.{AllByRecursion};
ghost use Rattle.sqlite_value.specs.Order.{column};
ghost use Rattle.sqlite_value.specs.declared.value.Value.TheVariants.{Text};
ghost use Rattle.sqlite_trees.specs.Objects.{catalog_tree, is_frozen, Creates};
ghost use Rattle.sqlite_trees.specs.Tree.{Trees};
ghost use Rattle.sqlite_trees.specs.View.{IsClean};
ghost use Rattle.sqlite_trees.specs.declared.store.Shape.TheVariants.{Absent};
ghost use Rattle.book_beside.specs.Beside.{HasBeside};
ghost use Rattle.book_store.specs.Table.{HasTables};
ghost use Rattle.book_file.specs.Added.{HasNothingBeside};

use crate::error::FileError;
use book_beside::{ACCOUNTS, SESSIONS};
use book_store::{BOOK, TABLE};
use sqlite_trees::schema::Object;
use sqlite_trees::store::{Alter, Shape, Store};
use sqlite_value::row::Row;
use sqlite_value::value::ValueRef;
use std::alloc::{AllocError, Global};

const ENTRY: &str = "CREATE TABLE entry (octets BLOB NOT NULL)";

const ABOUT: &str = "CREATE TABLE book (octets BLOB NOT NULL)";

const ACCOUNT: &str = "CREATE TABLE account (balance BLOB NOT NULL)";

const SESSION: &str = "CREATE TABLE session (octets BLOB NOT NULL)";

fn table(name: &'static str, sql: &'static str) -> Object<'static>
    ensures present { result.shape ≢ Absent }
    ensures thawed { is_frozen result.shape ≡ false }
{
    Object {
        shape: Shape::Table,
        kind: "table",
        name,
        table: name,
        reals: 0,
        sql: Some(sql),
    }
}

/// The trees of the first format, in which nothing stands beside the rows.
pub fn first_trees() -> [Object<'static>; 2] {
    [table("entry", ENTRY), table("book", ABOUT)]
}

/// The trees of a book.
pub fn all_trees() -> [Object<'static>; 4] {
    [
        table("entry", ENTRY),
        table("book", ABOUT),
        table("account", ACCOUNT),
        table("session", SESSION),
    ]
}

/// Whether the database has the trees beside the rows.
fn has_beside<S: Store>(store: &S) -> bool
    ensures { IsTrue result → HasBeside (S.Store.view store.now) }
{
    store.shape(ACCOUNTS) == Shape::Table && store.shape(SESSIONS) == Shape::Table
}

/// Whether the database has the trees of a book.
pub fn has_tables<S: Store>(store: &S) -> bool
    ensures { IsTrue result → HasTables (S.Store.view store.now) }
{
    store.shape(TABLE) == Shape::Table && store.shape(BOOK) == Shape::Table && has_beside(store)
}

/// Whether an object of a database has a name.
fn is_named(object: &Row, name: &[u8]) -> bool
    ensures { result ≡ false → column object.now 2 ≢ Text name.now }
{
    match object.get(2) {
        ValueRef::Text(found) => found == name,
        _ => false,
    }
}

/// Whether no object of a database has a name.
fn is_free<S: Alter>(store: &S, alloc: Global, name: &str) -> Result<bool, AllocError>
    ensures { IfOk result (λ free. IsTrue free → IsClean (S.Store.view store.now) → AllByRecursion (λ r. column r 2 ≢ Text name.now) ((S.Store.view store.now).trees catalog_tree)) }
{
    let objects = store.objects(alloc)?;
    for object in &objects {
        if is_named(object, name.as_bytes()) {
            return Ok(false);
        }
    }
    Ok(true)
}

/// Makes a tree with no row, in this transaction. `NoBooksFile` is told where something has its number or its name.
fn add_tree<S: Alter>(
    store: &mut S,
    alloc: Global,
    tree: u32,
    object: &Object<'_>,
) -> Result<(), FileError>
    requires numbered { IsClean (S.Store.view store.old) → IsTrue (S.Store.view store.old).is_numbered }
    requires low { tree < 65536 }
    requires present { object.now.shape ≢ Absent }
    requires thawed { is_frozen object.now.shape ≡ false }
    ensures clean { IsClean (S.Store.view store.new) → IsClean (S.Store.view store.old) }
    ensures made { OnOk result (IsClean (S.Store.view store.new) → Creates (S.Store.view store.old) (S.Store.view store.new) tree object.now) }
    ensures quiet { (db : Trees) → S.Store.recovers store.new db → S.Store.recovers store.old db }
{
    if store.shape(tree) != Shape::Absent {
        return Err(FileError::NoBooksFile);
    }
    if !is_free(store, alloc, object.name)? {
        return Err(FileError::NoBooksFile);
    }
    store.create(tree, object)?;
    Ok(())
}

/// Makes the trees beside the rows, and commits them. A crash leaves the database as it was, or with all of these trees.
#[tactic(auto, using(crate::proofs::Added::nothing_beside))]
fn add_beside<S: Alter>(store: &mut S, alloc: Global) -> Result<(), FileError>
    requires { IsClean (S.Store.view store.old) → IsTrue (S.Store.view store.old).is_numbered }
    ensures clean { IsClean (S.Store.view store.new) → IsClean (S.Store.view store.old) }
    ensures added { OnOk result (IsClean (S.Store.view store.new) → HasNothingBeside (S.Store.view store.old).trees (S.Store.view store.new).committed) }
    ensures crash { IsClean (S.Store.view store.new) → (db : Trees) → S.Store.recovers store.new db → S.Store.recovers store.old db ⊎ HasNothingBeside (S.Store.view store.old).trees db }
{
    add_tree(store, alloc, ACCOUNTS, &table("account", ACCOUNT))?;
    add_tree(store, alloc, SESSIONS, &table("session", SESSION))?;
    store.commit()?;
    Ok(())
}

/// A database of the first format, with the trees beside the rows. They were made in one commit: the rows stay, and nothing stands
/// beside them.
pub fn with_beside<S: Alter + Drop>(alloc: Global, store: S) -> Result<S, FileError>
    requires { IsClean (S.Store.view store) → IsTrue (S.Store.view store).is_numbered }
    ensures clean { IfOk result (λ made. IsClean (S.Store.view made) → IsClean (S.Store.view store)) }
    ensures added { IfOk result (λ made. IsClean (S.Store.view made) → HasNothingBeside (S.Store.view store).trees (S.Store.view made).committed) }
    ensures crash { IfOk result (λ made. IsClean (S.Store.view made) → (db : Trees) → S.Store.recovers made db → S.Store.recovers store db ⊎ HasNothingBeside (S.Store.view store).trees db) }
{
    let mut store = store;
    add_beside(&mut store, alloc)?;
    Ok(store)
}
