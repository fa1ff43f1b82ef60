//! What a book is stored in.

use crate::error::{AppendError, RowError};
use book_beside::{Side, Write};
use book_rows::Standing;
use std::alloc::Global;

/// What a book is, its rows in the order of their places, and where it stands, on something that outlasts the process. What
/// a book is and a row are their octets.
pub trait RowStore {
    ghost use Rattle.std.specs.Prelude.{◌≡◌, ◌≢◌, ◌⊎◌, ◌<◌, ◌+◌, ◌^◌, ◌++◌, [], ℕ, List, IfOk, OnOk, length, slice_index_or};
    ghost use Rattle.book_rows.specs.About.{standing_with};
    ghost use Rattle.book_beside.specs.Beside.{Beside, table_of, written_all};
    ghost use Rattle.book_store.specs.Table.{Stored, octets_in, rows_in, stored_with, IsCounted, IsInOrder};
    ghost use Rattle.book_store.specs.declared.error.AppendError.TheVariants.{NoPlace, NotBehind};

    // No wrong answer of what lies below has been taken as true. Each clause on values is hedged by it, and by it alone.
    ghost is_clean: { Self → Type 0 };

    // No call has failed since it was opened.
    ghost is_ready: { Self → Type 0 };

    // What the book is, which stays.
    ghost about: { Self → List ℕ };

    // The rows that it holds, the first at place 0.
    ghost rows: { Self → List (List ℕ) };

    // What stands beside the rows.
    ghost beside: { Self → Beside };

    // What an opening after a crash at this moment may find.
    ghost may_leave: { Self → Stored → Type 0 };

    // It can be opened after a crash. Each call keeps this, also one that fails.
    ghost may_reopen: { Self → Type 0 };

    /// Where the book stands: how many rows it has, and the moment and the sum of the last.
    fn standing(&self) -> Standing
        requires { is_clean self.now → is_ready self.now }
        ensures { is_clean self.now → result ≡ standing_with (rows self.now) };

    /// What the book is.
    fn about(&mut self, alloc: Global) -> Result<Vec<u8>, RowError>
        requires { is_clean self.old → is_ready self.old }
        ensures clean { is_clean self.new → is_clean self.old }
        ensures ready { OnOk result (is_clean self.new → is_ready self.new) }
        ensures octets { IfOk result (λ octets. is_clean self.new → octets.items ≡ about self.old) }
        ensures same { OnOk result (is_clean self.new → rows self.new ≡ rows self.old) }
        ensures same_book { OnOk result (is_clean self.new → about self.new ≡ about self.old) }
        ensures same_beside { OnOk result (is_clean self.new → beside self.new ≡ beside self.old) }
        ensures crash { (left : Stored) → may_leave self.new left → may_leave self.old left }
        ensures reopens { may_reopen self.old → may_reopen self.new };

    /// Adds rows behind the last one, where the first of them has this place, says where the book stands then, and makes these
    /// writes beside the rows in their order, all in one commit. `NotBehind` is told where it has another place, and `NoPlace`
    /// behind place 2^62; both leave everything as it was. A write with a place from 2^63 on is told as `Store(Full)`. After another
    /// error than those two whether the batch is stored is not known, and the store has to be opened again.
    fn append(
        &mut self,
        alloc: Global,
        place: u64,
        batch: &[Vec<u8>],
        writes: &[Write],
    ) -> Result<(), AppendError>
        requires { is_clean self.old → is_ready self.old }
        ensures clean { is_clean self.new → is_clean self.old }
        ensures ready { OnOk result (is_clean self.new → is_ready self.new) }
        ensures place { OnOk result (is_clean self.new → place ≡ length (rows self.old)) }
        ensures appended { OnOk result (is_clean self.new → rows self.new ≡ rows self.old ++ octets_in batch.now) }
        ensures written { OnOk result (is_clean self.new → beside self.new ≡ written_all (beside self.old) writes.now) }
        ensures same_book { OnOk result (is_clean self.new → about self.new ≡ about self.old) }
        ensures not_behind { result ≡ Err NotBehind → self.new ≡ self.old }
        ensures no_place { result ≡ Err NoPlace → (self.new ≡ self.old) × (2 ^ 62 < place + length batch.now) }
        ensures elsewhere { is_clean self.old → place ≢ length (rows self.old) → result ≡ Err NotBehind }
        ensures crash { is_clean self.new → (left : Stored) → may_leave self.new left
            → may_leave self.old left ⊎ (left ≡ stored_with (about self.old) (rows self.old ++ octets_in batch.now) (written_all (beside self.old) writes.now)) }
        ensures reopens { may_reopen self.old → may_reopen self.new };

    /// The octets of the row at a place.
    fn row(&mut self, alloc: Global, place: u64) -> Result<Vec<u8>, RowError>
        requires ready { is_clean self.old → is_ready self.old }
        requires within { is_clean self.old → place < length (rows self.old) }
        ensures clean { is_clean self.new → is_clean self.old }
        ensures ready { OnOk result (is_clean self.new → is_ready self.new) }
        ensures octets { IfOk result (λ octets. is_clean self.new → octets.items ≡ slice_index_or (rows self.old) place []) }
        ensures same { OnOk result (is_clean self.new → rows self.new ≡ rows self.old) }
        ensures same_book { OnOk result (is_clean self.new → about self.new ≡ about self.old) }
        ensures same_beside { OnOk result (is_clean self.new → beside self.new ≡ beside self.old) }
        ensures crash { (left : Stored) → may_leave self.new left → may_leave self.old left }
        ensures reopens { may_reopen self.old → may_reopen self.new };

    /// How many rows a table beside the rows has, each of which is that of its place. `Damaged` is told where one is not.
    fn count_beside(&mut self, alloc: Global, side: Side) -> Result<u64, RowError>
        requires { is_clean self.old → is_ready self.old }
        ensures clean { is_clean self.new → is_clean self.old }
        ensures ready { OnOk result (is_clean self.new → is_ready self.new) }
        ensures counted { IfOk result (λ count. is_clean self.new → IsCounted (table_of side (beside self.old)) count) }
        ensures same { OnOk result (is_clean self.new → rows self.new ≡ rows self.old) }
        ensures same_book { OnOk result (is_clean self.new → about self.new ≡ about self.old) }
        ensures same_beside { OnOk result (is_clean self.new → beside self.new ≡ beside self.old) }
        ensures crash { (left : Stored) → may_leave self.new left → may_leave self.old left }
        ensures reopens { may_reopen self.old → may_reopen self.new };

    /// The octets at a place of a table beside the rows, each of whose rows is that of its place.
    fn beside_at(&mut self, alloc: Global, side: Side, place: u64) -> Result<Vec<u8>, RowError>
        requires ready { is_clean self.old → is_ready self.old }
        requires order { is_clean self.old → IsInOrder (table_of side (beside self.old)) }
        requires within { is_clean self.old → place < length (rows_in (table_of side (beside self.old))) }
        ensures clean { is_clean self.new → is_clean self.old }
        ensures ready { OnOk result (is_clean self.new → is_ready self.new) }
        ensures octets { IfOk result (λ octets. is_clean self.new → octets.items ≡ slice_index_or (rows_in (table_of side (beside self.old))) place []) }
        ensures same { OnOk result (is_clean self.new → rows self.new ≡ rows self.old) }
        ensures same_book { OnOk result (is_clean self.new → about self.new ≡ about self.old) }
        ensures same_beside { OnOk result (is_clean self.new → beside self.new ≡ beside self.old) }
        ensures crash { (left : Stored) → may_leave self.new left → may_leave self.old left }
        ensures reopens { may_reopen self.old → may_reopen self.new };

    // While it is ready, a crash leaves what it holds and nothing else.
    ghost at_rest: { (s : Self) (left : Stored) → is_clean s → is_ready s → may_leave s left → left ≡ stored_with (about s) (rows s) (beside s) };

    // A crash may leave what it holds.
    ghost may_stay: { (s : Self) → is_clean s → is_ready s → may_leave s (stored_with (about s) (rows s) (beside s)) };
}
