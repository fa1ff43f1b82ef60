//! Keys in an index.

ghost use Rattle.std.specs.Prelude.{◌≡◌, ◌<◌, ◌^◌, ◌++◌, [], IfOk, OnOk, IsSome, IsTrue, None, Some};
ghost use Rattle.sqlite_value.specs.Keys.{plain};
ghost use Rattle.sqlite_trees.specs.Tree.{Trees, IsIndex, from_key, insert_entry, with_tree};
ghost use Rattle.sqlite_trees.specs.View.{IsClean, KeepsSchema};
ghost use Rattle.sqlite_trees.specs.declared.store.Shape.TheVariants.{Index};
ghost use Rattle.book_keys.specs.Keys.{entry, has_key, key, with_place, Gives, IsAlike, IsFoundIn, IsIndexOf, IsPlaceOf, Places};

use crate::error::KeyError;
use sqlite_trees::error::StoreError;
use sqlite_trees::store::{Direction, Store};
use sqlite_value::keys::Order;
use sqlite_value::row::Row;
use sqlite_value::value::ValueRef;
use std::alloc::{AllocError, Global};
use std::cmp::Ordering;

/// The columns by which a request is found.
fn key(alloc: Global, session: &[u8], number: u32) -> Result<Row, AllocError>
    ensures { IfOk result (λ row. row ≡ key session.now number) }
{
    let mut row = Row::new(alloc);
    row.push(ValueRef::Blob(session))?;
    row.push(ValueRef::Int(i64::from(number)))?;
    Ok(row)
}

/// The entry of the request that has this place.
fn entry(alloc: Global, session: &[u8], number: u32, place: u64) -> Result<Row, AllocError>
    requires { place < 2 ^ 63 }
    ensures { IfOk result (λ row. row ≡ entry session.now number place) }
{
    let mut row = key(alloc, session, number)?;
    row.push(ValueRef::Int(place as i64))?;
    Ok(row)
}

/// Writes the first entry that is not below a key over `row`, if there is one.
fn first_from<S: Store>(
    store: &mut S,
    index: u32,
    key: &Row,
    row: &mut Row,
) -> Result<bool, StoreError>
    requires index { IsClean (S.Store.view store.old) → (S.Store.view store.old).shape index ≡ Index plain }
    ensures clean { IsClean (S.Store.view store.new) → IsClean (S.Store.view store.old) }
    ensures gives { IfOk result (λ found. IsClean (S.Store.view store.new) → Gives (from_key plain key.now ((S.Store.view store.old).trees index)) row.new found) }
    ensures alike { OnOk result (IsClean (S.Store.view store.new) → IsAlike (S.Store.view store.old) (S.Store.view store.new)) }
    ensures order { OnOk result (IsClean (S.Store.view store.new) → IsIndex plain ((S.Store.view store.old).trees index)) }
    ensures quiet { (db : Trees) → S.Store.recovers store.new db → S.Store.recovers store.old db }
    ensures schema { KeepsSchema (S.Store.view store.old) (S.Store.view store.new) }
{
    store.seek(0, index, key, Direction::Forward)?;
    store.next(0, row)
}

/// Whether an entry begins with a key.
fn has_key(row: &Row, sought: &Row) -> bool
    ensures { result ≡ has_key sought.now row.now }
{
    row.cmp_prefix(Order::PLAIN, sought) == Ordering::Equal
}

/// The place that an entry has.
fn place_in(row: &Row) -> Option<u64>
    ensures { IsPlaceOf row.now result }
{
    match row.get(2) {
        ValueRef::Int(place) => u64::try_from(place).ok(),
        _ => None,
    }
}

/// The place that the index has for a key; none if no entry has it.
#[tactic(auto, using(crate::proofs::Looking::none_found, crate::proofs::Looking::other_found, crate::proofs::Looking::this_found, crate::proofs::Keeping::found_is_place))]
pub fn find<S: Store>(
    store: &mut S,
    alloc: Global,
    index: u32,
    session: &[u8],
    number: u32,
) -> Result<Option<u64>, KeyError>
    requires index { IsClean (S.Store.view store.old) → (S.Store.view store.old).shape index ≡ Index plain }
    ensures clean { IsClean (S.Store.view store.new) → IsClean (S.Store.view store.old) }
    ensures alike { OnOk result (IsClean (S.Store.view store.new) → IsAlike (S.Store.view store.old) (S.Store.view store.new)) }
    ensures found { IfOk result (λ found. IsClean (S.Store.view store.new) → IsFoundIn ((S.Store.view store.old).trees index) (key session.now number) found) }
    ensures place { IfOk result (λ found. IsClean (S.Store.view store.new) → (places : Places) → IsIndexOf ((S.Store.view store.old).trees index) places → found ≡ places session.now number) }
    ensures quiet { (db : Trees) → S.Store.recovers store.new db → S.Store.recovers store.old db }
    ensures schema { KeepsSchema (S.Store.view store.old) (S.Store.view store.new) }
{
    let sought = key(alloc, session, number)?;
    let mut row = Row::new(alloc);
    if !first_from(store, index, &sought, &mut row)? {
        return Ok(None);
    }
    if !has_key(&row, &sought) {
        return Ok(None);
    }
    match place_in(&row) {
        Some(place) => Ok(Some(place)),
        None => Err(KeyError::Damaged),
    }
}

/// Puts the place of a key, in this transaction. No crash shows it yet.
#[tactic(auto, using(crate::proofs::Keeping::stays_index))]
pub fn add<S: Store>(
    store: &mut S,
    alloc: Global,
    index: u32,
    session: &[u8],
    number: u32,
    place: u64,
) -> Result<(), KeyError>
    requires index { IsClean (S.Store.view store.old) → (S.Store.view store.old).shape index ≡ Index plain }
    requires place { place < 2 ^ 63 }
    ensures clean { IsClean (S.Store.view store.new) → IsClean (S.Store.view store.old) }
    ensures put { OnOk result (IsClean (S.Store.view store.new) → (S.Store.view store.new).trees ≡ with_tree (S.Store.view store.old).trees index (insert_entry plain (entry session.now number place) ((S.Store.view store.old).trees index))) }
    ensures stays { OnOk result (IsClean (S.Store.view store.new) → (places : Places) → IsIndexOf ((S.Store.view store.old).trees index) places → places session.now number ≡ None → IsIndexOf ((S.Store.view store.new).trees index) (with_place places session.now number place)) }
    ensures stays_open { OnOk result (IsClean (S.Store.view store.new) → (S.Store.view store.new).is_open ≡ (S.Store.view store.old).is_open) }
    ensures quiet { (db : Trees) → S.Store.recovers store.new db → S.Store.recovers store.old db }
    ensures schema { KeepsSchema (S.Store.view store.old) (S.Store.view store.new) }
{
    let row = entry(alloc, session, number, place)?;
    store.insert(index, &row)?;
    Ok(())
}
