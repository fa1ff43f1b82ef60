//! What stands beside the rows, when a book is opened: it is compared with the book, or stored where nothing stands there.

ghost use Rattle.std.specs.Prelude.{◌≡◌, ◌<◌, [], ℕ, Some, IfOk, OnOk, length, slice_index_or};
ghost use Rattle.book_beside.specs.declared.write.Side.{Side};
ghost use Rattle.book_beside.specs.Beside.{table_of};
ghost use Rattle.book_store.specs.Table.{rows_in, IsCounted, IsInOrder};
ghost use Rattle.book_journal.specs.Tables.{standing, Has, IsBeside, IsCountOf};

use crate::error::JournalError;
use crate::journal::store_all;
use crate::tables::standing_at;
use crate::touched::Touched;
use book_beside::Side;
use book_store::{RowError, RowStore};
use cc_book::Book;
use std::alloc::Global;

/// How many rows a table beside the rows of a book is to have.
fn count_of(book: &Book, side: Side) -> usize
    ensures { IsCountOf side book.now result }
{
    match side {
        Side::Accounts => book.accounts().len(),
        Side::Sessions => book.session_count(),
    }
}

/// The refusal of what stands at a place of a table.
fn differs(side: Side, place: u64) -> JournalError {
    match side {
        Side::Accounts => JournalError::OtherAccount { place },
        Side::Sessions => JournalError::OtherSession { place },
    }
}

/// Compares what a table has at a place with the book.
fn check_place<S: RowStore>(
    alloc: Global,
    store: &mut S,
    book: &Book,
    side: Side,
    place: usize,
) -> Result<(), JournalError>
    requires ready { S.is_clean store.old → S.is_ready store.old }
    requires order { S.is_clean store.old → IsInOrder (table_of side (S.beside store.old)) }
    requires within { S.is_clean store.old → place < length (rows_in (table_of side (S.beside store.old))) }
    ensures clean { S.is_clean store.new → S.is_clean store.old }
    ensures ready { OnOk result (S.is_clean store.new → S.is_ready store.new) }
    ensures same { OnOk result (S.is_clean store.new → S.rows store.new ≡ S.rows store.old) }
    ensures same_book { OnOk result (S.is_clean store.new → S.about store.new ≡ S.about store.old) }
    ensures same_beside { OnOk result (S.is_clean store.new → S.beside store.new ≡ S.beside store.old) }
    ensures alike { OnOk result (S.is_clean store.new → standing side book.now place ≡ Some (slice_index_or (rows_in (table_of side (S.beside store.old))) place [])) }
{
    let there = match store.beside_at(alloc, side, place as u64) {
        Ok(octets) => octets,
        Err(why) => return Err(JournalError::TableUnread { why }),
    };
    match standing_at(alloc, book, side, place) {
        Ok(Some(octets)) if octets.as_slice() == there.as_slice() => Ok(()),
        Ok(_) => Err(differs(side, place as u64)),
        Err(error) => Err(JournalError::TableUnread {
            why: RowError::from(error),
        }),
    }
}

/// Compares a table of so many rows with the book.
#[tactic(auto, using(crate::proofs::Filled::has_compared, crate::proofs::Filled::one_more_alike, crate::proofs::Filled::order_still, crate::proofs::Filled::within_still))]
fn check_table<S: RowStore>(
    alloc: Global,
    store: &mut S,
    book: &Book,
    side: Side,
    count: u64,
) -> Result<(), JournalError>
    requires ready { S.is_clean store.old → S.is_ready store.old }
    requires counted { S.is_clean store.old → IsCounted (table_of side (S.beside store.old)) count }
    ensures clean { S.is_clean store.new → S.is_clean store.old }
    ensures ready { OnOk result (S.is_clean store.new → S.is_ready store.new) }
    ensures same { OnOk result (S.is_clean store.new → S.rows store.new ≡ S.rows store.old) }
    ensures same_book { OnOk result (S.is_clean store.new → S.about store.new ≡ S.about store.old) }
    ensures same_beside { OnOk result (S.is_clean store.new → S.beside store.new ≡ S.beside store.old) }
    ensures has { OnOk result (S.is_clean store.new → Has (table_of side (S.beside store.old)) (standing side book.now)) }
{
    let wanted = count_of(book, side);
    if count != wanted as u64 {
        return Err(differs(side, count.min(wanted as u64)));
    }
    for place in 0..wanted {
        check_place(alloc, store, book, side, place)?;
    }
    Ok(())
}

/// Stores what stands beside the rows of a book, where nothing does.
fn fill<S: RowStore>(alloc: Global, store: &mut S, book: &Book) -> Result<(), JournalError>
    requires ready { S.is_clean store.old → S.is_ready store.old }
    requires none { S.is_clean store.old → (side : Side) → IsCounted (table_of side (S.beside store.old)) 0 }
    ensures clean { S.is_clean store.new → S.is_clean store.old }
    ensures ready { OnOk result (S.is_clean store.new → S.is_ready store.new) }
    ensures same { OnOk result (S.is_clean store.new → S.rows store.new ≡ S.rows store.old) }
    ensures same_book { OnOk result (S.is_clean store.new → S.about store.new ≡ S.about store.old) }
    ensures stands { OnOk result (S.is_clean store.new → IsBeside book.now (S.beside store.new)) }
{
    let touched = match Touched::all(alloc, book) {
        Ok(touched) => touched,
        Err(error) => {
            return Err(JournalError::TableUnread {
                why: RowError::from(error),
            });
        }
    };
    let place = store.standing().count;
    match store_all(alloc, store, place, &[], &touched, book) {
        Ok(()) => Ok(()),
        Err(why) => Err(JournalError::Unwritten { why }),
    }
}

/// How many rows a table beside the rows has.
fn count_in<S: RowStore>(alloc: Global, store: &mut S, side: Side) -> Result<u64, JournalError>
    requires { S.is_clean store.old → S.is_ready store.old }
    ensures clean { S.is_clean store.new → S.is_clean store.old }
    ensures ready { OnOk result (S.is_clean store.new → S.is_ready store.new) }
    ensures same { OnOk result (S.is_clean store.new → S.rows store.new ≡ S.rows store.old) }
    ensures same_book { OnOk result (S.is_clean store.new → S.about store.new ≡ S.about store.old) }
    ensures same_beside { OnOk result (S.is_clean store.new → S.beside store.new ≡ S.beside store.old) }
    ensures counted { IfOk result (λ count. S.is_clean store.new → IsCounted (table_of side (S.beside store.old)) count) }
{
    match store.count_beside(alloc, side) {
        Ok(count) => Ok(count),
        Err(why) => Err(JournalError::TableUnread { why }),
    }
}

/// Has what stands beside the rows be what stands so of a book: it is compared, and stored where nothing stands there.
#[tactic(auto, using(crate::proofs::Filled::both_counted, crate::proofs::Filled::both_stand, crate::proofs::Filled::counted_still, crate::proofs::Filled::has_still))]
pub fn stand_beside<S: RowStore>(
    alloc: Global,
    store: &mut S,
    book: &Book,
) -> Result<(), JournalError>
    requires { S.is_clean store.old → S.is_ready store.old }
    ensures clean { S.is_clean store.new → S.is_clean store.old }
    ensures ready { OnOk result (S.is_clean store.new → S.is_ready store.new) }
    ensures same { OnOk result (S.is_clean store.new → S.rows store.new ≡ S.rows store.old) }
    ensures same_book { OnOk result (S.is_clean store.new → S.about store.new ≡ S.about store.old) }
    ensures stands { OnOk result (S.is_clean store.new → IsBeside book.now (S.beside store.new)) }
{
    let accounts = count_in(alloc, store, Side::Accounts)?;
    let sessions = count_in(alloc, store, Side::Sessions)?;
    if accounts == 0 && sessions == 0 {
        return fill(alloc, store, book);
    }
    check_table(alloc, store, book, Side::Accounts, accounts)?;
    check_table(alloc, store, book, Side::Sessions, sessions)
}
