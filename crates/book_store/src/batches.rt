//! Batches of rows, one commit each.

ghost use Rattle.std.specs.Prelude.{◌≡◌, ◌≤◌, ◌++◌, ℕ, List, OnOk, length, take};
ghost use Rattle.book_store.specs.Batches.{written_by, rows_of};
ghost use Rattle.book_store.specs.Table.{Stored, stored_with};

use crate::error::AppendError;
use crate::store::RowStore;
use book_beside::Write;
use std::alloc::Global;

/// Rows that are stored together.
#[derive(Drop)]
pub struct Batch {
    /// The octets of each row.
    pub rows: Vec<Vec<u8>>,
    /// The writes beside them.
    pub writes: Vec<Write>,
}

/// Appends these batches, one commit each. A crash at any moment leaves the rows with some of the batches, in their
/// order, none skipped and none in part, and the book stands where they say; after `Ok` with all. After an error the store
/// has to be opened again.
#[tactic(auto, using(crate::proofs::Batched::one_more_batch, crate::proofs::Batched::no_batch, crate::proofs::Batched::no_batch_stored, crate::proofs::Batched::all_batches, crate::proofs::Batched::all_written))]
pub fn append_all<L: RowStore>(
    store: &mut L,
    alloc: Global,
    batches: &[Batch],
) -> Result<(), AppendError>
    requires { L.is_clean store.old → L.is_ready store.old }
    ensures clean { L.is_clean store.new → L.is_clean store.old }
    ensures ready { OnOk result (L.is_clean store.new → L.is_ready store.new) }
    ensures appended { OnOk result (L.is_clean store.new → L.rows store.new ≡ L.rows store.old ++ rows_of batches.now) }
    ensures written { OnOk result (L.is_clean store.new → L.beside store.new ≡ written_by (L.beside store.old) batches.now) }
    ensures same_book { OnOk result (L.is_clean store.new → L.about store.new ≡ L.about store.old) }
    ensures crash { L.is_clean store.new → (left : Stored) → L.may_leave store.new left
        → (n : ℕ) × (n ≤ length batches.now) × (left ≡ stored_with (L.about store.old) (L.rows store.old ++ rows_of (take n batches.now)) (written_by (L.beside store.old) (take n batches.now))) }
    ensures reopens { L.may_reopen store.old → L.may_reopen store.new }
{
    for batch in batches {
        let place = store.standing().count;
        store.append(alloc, place, &batch.rows, &batch.writes)?;
    }
    Ok(())
}
