//! A book in a store: opening it checks the sum of each row.

ghost use Rattle.std.specs.Prelude.{◌≡◌, ◌<◌, [], ℕ, List, Some, None, Err, IfOk, OnOk, length, option_map, slice_index_or};
ghost use Rattle.book_store.specs.Chain.{checked_sum, next_sum, sum_of, IsWrongAt};
ghost use Rattle.book_store.specs.Table.{Stored};

use crate::error::{CheckError, RowError};
use crate::store::RowStore;
use book_rows::{ReadError, Row, Sum, is_chained, read_row};
use std::alloc::{AllocError, Global};

/// The sum before the first row.
pub const FIRST_SUM: Sum = Sum(0);

/// The sum of a row, where it has this place and is chained to the sum before.
fn checked_sum(alloc: Global, place: u64, before: Sum, row: &Row) -> Result<Option<Sum>, AllocError>
    ensures { IfOk result (λ sum. option_map (λ s. s.0) sum ≡ checked_sum place before.0 row.now) }
{
    if row.place != place {
        return Ok(None);
    }
    if !is_chained(alloc, before, row)? {
        return Ok(None);
    }
    Ok(Some(row.sum))
}

/// The sum of the row that octets spell, where it has this place and is chained to the sum before.
fn next_sum(
    alloc: Global,
    place: u64,
    before: Sum,
    octets: &[u8],
) -> Result<Option<Sum>, AllocError>
    ensures { IfOk result (λ sum. option_map (λ s. s.0) sum ≡ next_sum place before.0 octets.now) }
{
    match read_row(alloc, octets) {
        Ok(row) => checked_sum(alloc, place, before, &row),
        Err(ReadError::NoRow(_)) => Ok(None),
        Err(ReadError::OutOfMemory) => Err(AllocError),
    }
}

/// The sum of the row at a place, where it has this place and is chained to the sum before.
fn sum_at<L: RowStore>(
    alloc: Global,
    store: &mut L,
    place: u64,
    before: Sum,
) -> Result<Sum, CheckError>
    requires ready { L.is_clean store.old → L.is_ready store.old }
    requires within { L.is_clean store.old → place < length (L.rows store.old) }
    ensures clean { L.is_clean store.new → L.is_clean store.old }
    ensures ready { OnOk result (L.is_clean store.new → L.is_ready store.new) }
    ensures same { OnOk result (L.is_clean store.new → L.rows store.new ≡ L.rows store.old) }
    ensures same_book { OnOk result (L.is_clean store.new → L.about store.new ≡ L.about store.old) }
    ensures same_beside { OnOk result (L.is_clean store.new → L.beside store.new ≡ L.beside store.old) }
    ensures next { IfOk result (λ sum. L.is_clean store.new → next_sum place before.0 (slice_index_or (L.rows store.old) place []) ≡ Some sum.0) }
    ensures wrong { (p : ℕ) → result ≡ Err (CheckError.Wrong p) → L.is_clean store.new → (p ≡ place) × (next_sum place before.0 (slice_index_or (L.rows store.old) place []) ≡ None) }
    ensures crash { (left : Stored) → L.may_leave store.new left → L.may_leave store.old left }
    ensures reopens { L.may_reopen store.old → L.may_reopen store.new }
{
    let octets = match store.row(alloc, place) {
        Ok(octets) => octets,
        Err(error) => return Err(CheckError::Row(error)),
    };
    match next_sum(alloc, place, before, octets.as_slice()) {
        Ok(Some(sum)) => Ok(sum),
        Ok(None) => Err(CheckError::Wrong(place)),
        Err(error) => Err(CheckError::Row(RowError::from(error))),
    }
}

/// Reads all rows of a store, and gives the last sum. `Wrong` is told for the first place whose row is none, has
/// another place, or has a sum that does not chain it to the row before. Nothing is changed.
pub fn check_rows<L: RowStore>(alloc: Global, store: &mut L) -> Result<Sum, CheckError>
    requires { L.is_clean store.old → L.is_ready store.old }
    ensures clean { L.is_clean store.new → L.is_clean store.old }
    ensures ready { OnOk result (L.is_clean store.new → L.is_ready store.new) }
    ensures same { OnOk result (L.is_clean store.new → L.rows store.new ≡ L.rows store.old) }
    ensures same_book { OnOk result (L.is_clean store.new → L.about store.new ≡ L.about store.old) }
    ensures same_beside { OnOk result (L.is_clean store.new → L.beside store.new ≡ L.beside store.old) }
    ensures sum { IfOk result (λ sum. L.is_clean store.new → sum_of 0 0 (L.rows store.old) ≡ Some sum.0) }
    ensures wrong { (place : ℕ) → result ≡ Err (CheckError.Wrong place) → L.is_clean store.new → IsWrongAt (L.rows store.old) place }
    ensures crash { (left : Stored) → L.may_leave store.new left → L.may_leave store.old left }
    ensures reopens { L.may_reopen store.old → L.may_reopen store.new }
{
    let mut sum = FIRST_SUM;
    let count = store.standing().count;
    for place in 0..count {
        sum = sum_at(alloc, store, place, sum)?;
    }
    Ok(sum)
}
