//! What a book is stored in, behind a pointer: it has some thousand octets, which the book's workers would move at each request.

ghost use Rattle.std.specs.Prelude.{◌≡◌, IfOk, is_some};
ghost use Rattle.cc_book.specs.Taking.{Ledger};
ghost use Rattle.book_journal.specs.Kept.{IsKeptBy, IsSettled};

use book_beside::{Side, Write};
use book_journal::Journal;
use book_rows::Standing;
use book_store::{AppendError, RowError, RowStore};
use std::alloc::{AllocError, Global};

/// What a book is stored in, behind a pointer: whoever has the book moves that alone.
#[derive(Drop)]
pub struct Boxed<S> {
    store: Box<S>,
}

impl<S: RowStore> RowStore for Boxed<S> {
    ghost is_clean = { λ b. S.is_clean b.store.value };

    ghost is_ready = { λ b. S.is_ready b.store.value };

    ghost about = { λ b. S.about b.store.value };

    ghost rows = { λ b. S.rows b.store.value };

    ghost beside = { λ b. S.beside b.store.value };

    ghost may_leave = { λ b left. S.may_leave b.store.value left };

    ghost may_reopen = { λ b. S.may_reopen b.store.value };

    fn standing(&self) -> Standing {
        self.store.standing()
    }

    fn about(&mut self, alloc: Global) -> Result<Vec<u8>, RowError> {
        self.store.about(alloc)
    }

    fn append(
        &mut self,
        alloc: Global,
        place: u64,
        batch: &[Vec<u8>],
        writes: &[Write],
    ) -> Result<(), AppendError> {
        self.store.append(alloc, place, batch, writes)
    }

    fn row(&mut self, alloc: Global, place: u64) -> Result<Vec<u8>, RowError> {
        self.store.row(alloc, place)
    }

    fn count_beside(&mut self, alloc: Global, side: Side) -> Result<u64, RowError> {
        self.store.count_beside(alloc, side)
    }

    fn beside_at(&mut self, alloc: Global, side: Side, place: u64) -> Result<Vec<u8>, RowError> {
        self.store.beside_at(alloc, side, place)
    }

    ghost at_rest = { λ b left clean ready leaves. S.at_rest b.store.value left clean ready leaves };

    ghost may_stay = { λ b clean ready. S.may_stay b.store.value clean ready };
}

impl<S: RowStore + Drop> Boxed<S> {
    /// The same store.
    fn new(alloc: Global, store: S) -> Result<Self, AllocError>
        ensures { IfOk result (λ boxed. boxed.store.value ≡ store) }
    {
        Ok(Boxed {
            store: Box::new(alloc, store)?,
        })
    }
}

/// The same journal, whose store stands behind a pointer. Without memory it is let go of.
pub fn behind_pointer<S: RowStore + Drop>(
    alloc: Global,
    journal: Journal<S>,
) -> Result<Journal<Boxed<S>>, AllocError>
    requires { IsSettled journal }
    ensures kept { IfOk result (λ boxed. (ledger : Ledger) → IsKeptBy S.is_clean S.is_ready S.rows S.beside journal ledger → IsKeptBy ⟦<Boxed<S> as RowStore>⟧.is_clean ⟦<Boxed<S> as RowStore>⟧.is_ready ⟦<Boxed<S> as RowStore>⟧.rows ⟦<Boxed<S> as RowStore>⟧.beside boxed ledger) }
    ensures settled { IfOk result (λ boxed. IsSettled boxed) }
    ensures store { IfOk result (λ boxed. is_some boxed.store ≡ is_some journal.store) }
{
    let (store, sum) = journal.into_parts();
    let mut boxed = Journal::in_memory(alloc);
    if let Some(store) = store {
        boxed.store = Some(Boxed::new(alloc, store)?);
        boxed.sum = sum;
    }
    Ok(boxed)
}
