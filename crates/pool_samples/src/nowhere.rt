//! What a book in memory alone is stored in: nothing.

ghost use Rattle.std.specs.Prelude.{[]};
ghost use Rattle.book_beside.specs.Beside.{nothing};

use book_beside::{Side, Write};
use book_rows::{Standing, Sum};
use book_store::{AppendError, RowError, RowStore};
use dia_base::Moment;
use std::alloc::Global;

/// A store that has no book, and takes none. No journal of these samples has one.
#[derive(Drop)]
pub struct Nowhere;

impl RowStore for Nowhere {
    ghost is_clean = { λ store. ⊥ };

    ghost is_ready = { λ store. ⊥ };

    ghost about = { λ store. [] };

    ghost rows = { λ store. [] };

    ghost beside = { λ store. nothing };

    ghost may_leave = { λ store left. ⊥ };

    ghost may_reopen = { λ store. ⊥ };

    ghost at_rest = { λ store left clean ready leaves. absurd clean };

    ghost may_stay = { λ store clean ready. absurd clean };

    fn standing(&self) -> Standing {
        Standing {
            count: 0,
            moment: Moment(0),
            sum: Sum(0),
        }
    }

    fn about(&mut self, _alloc: Global) -> Result<Vec<u8>, RowError> {
        Err(RowError::Damaged)
    }

    fn append(
        &mut self,
        _alloc: Global,
        _place: u64,
        _batch: &[Vec<u8>],
        _writes: &[Write],
    ) -> Result<(), AppendError> {
        Err(AppendError::NotBehind)
    }

    fn row(&mut self, _alloc: Global, _place: u64) -> Result<Vec<u8>, RowError> {
        Err(RowError::Damaged)
    }

    fn count_beside(&mut self, _alloc: Global, _side: Side) -> Result<u64, RowError> {
        Err(RowError::Damaged)
    }

    fn beside_at(&mut self, _alloc: Global, _side: Side, _place: u64) -> Result<Vec<u8>, RowError> {
        Err(RowError::Damaged)
    }
}
