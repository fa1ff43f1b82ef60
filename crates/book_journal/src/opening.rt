//! A book that is opened from what is stored of it.

ghost use Rattle.std.specs.Prelude.{◌≡◌, ◌<◌, [], ℕ, List, IfOk, IfSome, OnOk, OnErr, length, slice_index_or};
ghost use Rattle.book_entries.specs.Replayed.{HasTaken, stored_in, sum_in};
ghost use Rattle.book_store.specs.Table.{Stored};
ghost use Rattle.book_journal.specs.Kept.{IsKeptBy, IsSettled, IsStored, IsUnder};
ghost use Rattle.book_journal.specs.Tables.{IsBeside};

use crate::error::JournalError;
use crate::filling::stand_beside;
use crate::journal::Journal;
use crate::touched::Touched;
use book_entries::take_octets;
use book_rows::Sum;
use book_store::{FIRST_SUM, RowStore};
use cc_book::Book;
use std::alloc::Global;

/// Takes the row at a place into a book whose history has this sum. The sum behind it.
fn take_row<S: RowStore>(
    alloc: Global,
    store: &mut S,
    book: &mut Book,
    place: u64,
    before: Sum,
) -> Result<Sum, JournalError>
    requires ready { S.is_clean store.old → S.is_ready store.old }
    requires within { S.is_clean store.old → place < length (S.rows store.old) }
    requires sum { before.0 ≡ sum_in book.old }
    ensures clean { S.is_clean store.new → S.is_clean store.old }
    ensures ready { OnOk result (S.is_clean store.new → S.is_ready store.new) }
    ensures same { OnOk result (S.is_clean store.new → S.rows store.new ≡ S.rows store.old) }
    ensures same_book { OnOk result (S.is_clean store.new → S.about store.new ≡ S.about store.old) }
    ensures same_beside { OnOk result (S.is_clean store.new → S.beside store.new ≡ S.beside store.old) }
    ensures taken { IfOk result (λ sum. (octets : List ℕ) × HasTaken book.old book.new octets sum.0 × (S.is_clean store.new → octets ≡ slice_index_or (S.rows store.old) place [])) }
    ensures crash { (left : Stored) → S.may_leave store.new left → S.may_leave store.old left }
    ensures reopens { S.may_reopen store.old → S.may_reopen store.new }
{
    let octets = match store.row(alloc, place) {
        Ok(octets) => octets,
        Err(why) => return Err(JournalError::Unread { place, why }),
    };
    match take_octets(alloc, book, before, octets.as_slice()) {
        Ok(sum) => Ok(sum),
        Err(why) => Err(JournalError::Refused { place, why }),
    }
}

/// Takes all rows of a store into a book, the first at place 0. The sum of the last.
fn take_rows<S: RowStore>(
    alloc: Global,
    store: &mut S,
    book: &mut Book,
) -> Result<Sum, JournalError>
    requires ready { S.is_clean store.old → S.is_ready store.old }
    requires none { book.old.history ≡ [] }
    ensures clean { OnOk result (S.is_clean store.new → S.is_clean store.old) }
    ensures ready { OnOk result (S.is_clean store.new → S.is_ready store.new) }
    ensures same { OnOk result (S.is_clean store.new → S.rows store.new ≡ S.rows store.old) }
    ensures same_book { OnOk result (S.is_clean store.new → S.about store.new ≡ S.about store.old) }
    ensures same_beside { OnOk result (S.is_clean store.new → S.beside store.new ≡ S.beside store.old) }
    ensures under { OnOk result (IsUnder book.old book.new) }
    ensures stored { OnOk result (S.is_clean store.new → S.rows store.old ≡ stored_in book.new) }
    ensures sum { IfOk result (λ sum. sum.0 ≡ sum_in book.new) }
    ensures crash { (left : Stored) → S.may_leave store.new left → S.may_leave store.old left }
    ensures reopens { S.may_reopen store.old → S.may_reopen store.new }
{
    let mut sum = FIRST_SUM;
    let count = store.standing().count;
    for place in 0..count {
        sum = take_row(alloc, store, book, place, sum)?;
    }
    Ok(sum)
}

/// Takes what is stored of a book into an empty book under its terms: the journal keeps that book from then on. Each row is read,
/// and each one that the book does not give to its entry there is refused with its place. What stands beside the rows is compared with
/// the book, and refused with its place where it differs; where nothing stands there, it is stored, in one commit. The rows stay as
/// they are, also where a crash comes meanwhile.
pub fn open_journal<S: RowStore + Drop>(
    alloc: Global,
    store: S,
    book: Book,
) -> Result<(Journal<S>, Book), JournalError>
    requires ready { S.is_clean store → S.is_ready store }
    requires none { book.history ≡ [] }
    ensures kept { IfOk result (λ opened. IsKeptBy S.is_clean S.is_ready S.rows S.beside opened.0 opened.1) }
    ensures settled { IfOk result (λ opened. IsSettled opened.0) }
    ensures stored { IfOk result (λ opened. IsStored opened.0) }
    ensures under { IfOk result (λ opened. IsUnder book opened.1) }
    ensures clean { IfOk result (λ opened. IfSome opened.0.store (λ now. S.is_clean now → S.is_clean store)) }
    ensures same { IfOk result (λ opened. IfSome opened.0.store (λ now. S.is_clean now → S.rows now ≡ S.rows store)) }
    ensures same_book { IfOk result (λ opened. IfSome opened.0.store (λ now. S.is_clean now → S.about now ≡ S.about store)) }
{
    let mut store = store;
    let mut book = book;
    let sum = take_rows(alloc, &mut store, &mut book)?;
    stand_beside(alloc, &mut store, &book)?;
    let journal = Journal {
        alloc,
        store: Some(store),
        sum,
        waiting: Vec::new(alloc),
        touched: Touched::nothing(alloc),
    };
    Ok((journal, book))
}
