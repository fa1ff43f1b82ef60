//! Rows that are copied from one store to another.

ghost use Rattle.std.specs.Prelude.{◌≡◌, ◌<◌, ◌⊎◌, ◌++◌, ◌∷◌, [], ℕ, List, IfOk, OnOk, Some, length, slice_index_or};
ghost use Rattle.book_store.specs.Chain.{sum_of};
ghost use Rattle.book_store.specs.Table.{Stored, octets_in, stored_with};
ghost use Rattle.book_copy.specs.Copied.{IsBeginning};

use crate::error::CopyError;
use book_rows::Sum;
use book_store::{RowStore, check_rows};
use std::alloc::Global;

/// How many rows are stored together.
const BATCH: usize = 256;

/// Appends rows behind the last one, in one commit.
fn append_all<B: RowStore>(alloc: Global, copy: &mut B, rows: &[Vec<u8>]) -> Result<(), CopyError>
    requires { B.is_clean copy.old → B.is_ready copy.old }
    ensures clean { B.is_clean copy.new → B.is_clean copy.old }
    ensures ready { OnOk result (B.is_clean copy.new → B.is_ready copy.new) }
    ensures appended { OnOk result (B.is_clean copy.new → B.rows copy.new ≡ B.rows copy.old ++ octets_in rows.now) }
    ensures same_book { OnOk result (B.is_clean copy.new → B.about copy.new ≡ B.about copy.old) }
    ensures same_beside { OnOk result (B.is_clean copy.new → B.beside copy.new ≡ B.beside copy.old) }
    ensures crash { B.is_clean copy.new → (left : Stored) → B.may_leave copy.new left → B.may_leave copy.old left ⊎ (left ≡ stored_with (B.about copy.old) (B.rows copy.old ++ octets_in rows.now) (B.beside copy.old)) }
    ensures reopens { B.may_reopen copy.old → B.may_reopen copy.new }
{
    let place = copy.standing().count;
    match copy.append(alloc, place, rows, &[]) {
        Ok(()) => Ok(()),
        Err(error) => Err(CopyError::Append(error)),
    }
}

/// Puts the row of a place behind those that wait, and stores all of them where they are a batch. Those that wait then.
fn copy_row<A: RowStore, B: RowStore>(
    alloc: Global,
    book: &mut A,
    copy: &mut B,
    place: u64,
    waiting: Vec<Vec<u8>>,
) -> Result<Vec<Vec<u8>>, CopyError>
    requires ready { A.is_clean book.old → A.is_ready book.old }
    requires copy_ready { B.is_clean copy.old → B.is_ready copy.old }
    requires within { A.is_clean book.old → place < length (A.rows book.old) }
    ensures clean { A.is_clean book.new → A.is_clean book.old }
    ensures ready { OnOk result (A.is_clean book.new → A.is_ready book.new) }
    ensures same { OnOk result (A.is_clean book.new → A.rows book.new ≡ A.rows book.old) }
    ensures same_book { OnOk result (A.is_clean book.new → A.about book.new ≡ A.about book.old) }
    ensures same_beside { OnOk result (A.is_clean book.new → A.beside book.new ≡ A.beside book.old) }
    ensures unharmed { (left : Stored) → A.may_leave book.new left → A.may_leave book.old left }
    ensures reopens { A.may_reopen book.old → A.may_reopen book.new }
    ensures copy_clean { B.is_clean copy.new → B.is_clean copy.old }
    ensures copy_ready { OnOk result (B.is_clean copy.new → B.is_ready copy.new) }
    ensures copied { IfOk result (λ now. A.is_clean book.new → B.is_clean copy.new
        → B.rows copy.new ++ octets_in now.items ≡ (B.rows copy.old ++ octets_in waiting.items) ++ slice_index_or (A.rows book.old) place [] ∷ []) }
    ensures copy_of { OnOk result (B.is_clean copy.new → B.about copy.new ≡ B.about copy.old) }
    ensures copy_beside { OnOk result (B.is_clean copy.new → B.beside copy.new ≡ B.beside copy.old) }
    ensures crash { A.is_clean book.new → B.is_clean copy.new → (left : Stored) → B.may_leave copy.new left
        → B.may_leave copy.old left ⊎ (left ≡ stored_with (B.about copy.old) ((B.rows copy.old ++ octets_in waiting.items) ++ slice_index_or (A.rows book.old) place [] ∷ []) (B.beside copy.old)) }
    ensures copy_reopens { B.may_reopen copy.old → B.may_reopen copy.new }
{
    let octets = book.row(alloc, place)?;
    let mut waiting = waiting;
    waiting.push(octets)?;
    if waiting.len() < BATCH {
        return Ok(waiting);
    }
    append_all(alloc, copy, &waiting)?;
    Ok(Vec::new(alloc))
}

/// Puts the rows of so many places behind each other in a store that has none, in batches. Those that are not stored yet.
fn copy_batches<A: RowStore, B: RowStore>(
    alloc: Global,
    book: &mut A,
    copy: &mut B,
) -> Result<Vec<Vec<u8>>, CopyError>
    requires ready { A.is_clean book.old → A.is_ready book.old }
    requires copy_ready { B.is_clean copy.old → B.is_ready copy.old }
    requires empty { B.is_clean copy.old → B.rows copy.old ≡ [] }
    ensures clean { A.is_clean book.new → A.is_clean book.old }
    ensures ready { OnOk result (A.is_clean book.new → A.is_ready book.new) }
    ensures same { OnOk result (A.is_clean book.new → A.rows book.new ≡ A.rows book.old) }
    ensures same_book { OnOk result (A.is_clean book.new → A.about book.new ≡ A.about book.old) }
    ensures same_beside { OnOk result (A.is_clean book.new → A.beside book.new ≡ A.beside book.old) }
    ensures unharmed { (left : Stored) → A.may_leave book.new left → A.may_leave book.old left }
    ensures reopens { A.may_reopen book.old → A.may_reopen book.new }
    ensures copy_clean { B.is_clean copy.new → B.is_clean copy.old }
    ensures copy_ready { OnOk result (B.is_clean copy.new → B.is_ready copy.new) }
    ensures copied { IfOk result (λ now. A.is_clean book.new → B.is_clean copy.new → B.rows copy.new ++ octets_in now.items ≡ A.rows book.old) }
    ensures copy_of { OnOk result (B.is_clean copy.new → B.about copy.new ≡ B.about copy.old) }
    ensures copy_beside { OnOk result (B.is_clean copy.new → B.beside copy.new ≡ B.beside copy.old) }
    ensures crash { A.is_clean book.new → B.is_clean copy.new → (left : Stored) → B.may_leave copy.new left → IsBeginning (B.about copy.old) (A.rows book.old) (B.beside copy.old) left }
    ensures copy_reopens { B.may_reopen copy.old → B.may_reopen copy.new }
{
    let mut waiting = Vec::new(alloc);
    let count = book.standing().count;
    for place in 0..count {
        waiting = copy_row(alloc, book, copy, place, waiting)?;
    }
    Ok(waiting)
}

/// Appends the rows of a store to another one that has none, 256 in a commit: after `Ok` it has the same rows, and what it is stays.
/// Whenever it stops, by an error or a crash, the copy has a beginning of the rows, none skipped and none in part, and stands
/// where they say. After an error both stores have to be opened again. The first store is left as it is.
pub fn copy_rows<A: RowStore, B: RowStore>(
    alloc: Global,
    book: &mut A,
    copy: &mut B,
) -> Result<(), CopyError>
    requires ready { A.is_clean book.old → A.is_ready book.old }
    requires copy_ready { B.is_clean copy.old → B.is_ready copy.old }
    requires empty { B.is_clean copy.old → B.rows copy.old ≡ [] }
    ensures clean { A.is_clean book.new → A.is_clean book.old }
    ensures ready { OnOk result (A.is_clean book.new → A.is_ready book.new) }
    ensures same { OnOk result (A.is_clean book.new → A.rows book.new ≡ A.rows book.old) }
    ensures same_book { OnOk result (A.is_clean book.new → A.about book.new ≡ A.about book.old) }
    ensures same_beside { OnOk result (A.is_clean book.new → A.beside book.new ≡ A.beside book.old) }
    ensures unharmed { (left : Stored) → A.may_leave book.new left → A.may_leave book.old left }
    ensures reopens { A.may_reopen book.old → A.may_reopen book.new }
    ensures copy_clean { B.is_clean copy.new → B.is_clean copy.old }
    ensures copy_ready { OnOk result (B.is_clean copy.new → B.is_ready copy.new) }
    ensures copied { OnOk result (A.is_clean book.new → B.is_clean copy.new → B.rows copy.new ≡ A.rows book.old) }
    ensures copy_of { OnOk result (B.is_clean copy.new → B.about copy.new ≡ B.about copy.old) }
    ensures copy_beside { OnOk result (B.is_clean copy.new → B.beside copy.new ≡ B.beside copy.old) }
    ensures crash { A.is_clean book.new → B.is_clean copy.new → (left : Stored) → B.may_leave copy.new left → IsBeginning (B.about copy.old) (A.rows book.old) (B.beside copy.old) left }
    ensures copy_reopens { B.may_reopen copy.old → B.may_reopen copy.new }
{
    let last = copy_batches(alloc, book, copy)?;
    append_all(alloc, copy, &last)
}

/// Checks the rows of a store, and copies them as [`copy_rows`] does. The sum of the last row, which names the whole history. A store
/// whose rows are not those of a book is refused before anything is copied.
pub fn copy_book<A: RowStore, B: RowStore>(
    alloc: Global,
    book: &mut A,
    copy: &mut B,
) -> Result<Sum, CopyError>
    requires ready { A.is_clean book.old → A.is_ready book.old }
    requires copy_ready { B.is_clean copy.old → B.is_ready copy.old }
    requires empty { B.is_clean copy.old → B.rows copy.old ≡ [] }
    ensures clean { A.is_clean book.new → A.is_clean book.old }
    ensures copy_clean { B.is_clean copy.new → B.is_clean copy.old }
    ensures copied { OnOk result (A.is_clean book.new → B.is_clean copy.new → B.rows copy.new ≡ A.rows book.old) }
    ensures copy_of { OnOk result (B.is_clean copy.new → B.about copy.new ≡ B.about copy.old) }
    ensures copy_beside { OnOk result (B.is_clean copy.new → B.beside copy.new ≡ B.beside copy.old) }
    ensures sum { IfOk result (λ sum. A.is_clean book.new → sum_of 0 0 (A.rows book.old) ≡ Some sum.0) }
    ensures unharmed { (left : Stored) → A.may_leave book.new left → A.may_leave book.old left }
    ensures crash { A.is_clean book.new → B.is_clean copy.new → (left : Stored) → B.may_leave copy.new left → IsBeginning (B.about copy.old) (A.rows book.old) (B.beside copy.old) left }
{
    let sum = check_rows(alloc, book)?;
    copy_rows(alloc, book, copy)?;
    Ok(sum)
}
