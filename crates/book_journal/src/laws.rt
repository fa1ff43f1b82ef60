//! What holds of all journals.

ghost use Rattle.std.specs.Prelude.{◌≡◌, Some};
ghost use Rattle.cc_book.specs.Taking.{Ledger};
ghost use Rattle.book_store.specs.Table.{Stored};
ghost use Rattle.book_journal.specs.Kept.{IsKeptBy, IsLeft, IsLeftBefore, IsSettled};
ghost use Rattle.book_journal.specs.Tables.{IsBeside};
ghost use Rattle.book_journal.specs.declared.journal.Journal.{Journal};

use book_store::RowStore;

/// Of a book that is kept by a journal in which nothing waits, a crash leaves the whole history, and beside it the balance of each
/// account and each open session as this history leaves them, and nothing else. They stand so at rest. While something waits, a crash
/// leaves the history that was stored last, and beside it what that history leaves.
pub fn a_crash_leaves_the_history<S: RowStore>()
    ensures settled { (journal : Journal S) (store : S) (ledger : Ledger) (left : Stored) → journal.store ≡ Some store → IsSettled journal
        → IsKeptBy S.is_clean S.is_ready S.rows S.beside journal ledger → S.is_clean store → S.may_leave store left → IsLeft (S.about store) ledger left }
    ensures at_rest { (journal : Journal S) (store : S) (ledger : Ledger) → journal.store ≡ Some store → IsSettled journal
        → IsKeptBy S.is_clean S.is_ready S.rows S.beside journal ledger → S.is_clean store → IsBeside ledger (S.beside store) }
    ensures waiting { (journal : Journal S) (store : S) (ledger : Ledger) (left : Stored) → journal.store ≡ Some store
        → IsKeptBy S.is_clean S.is_ready S.rows S.beside journal ledger → S.is_clean store → S.may_leave store left → IsLeftBefore (S.about store) ledger left }
{}
