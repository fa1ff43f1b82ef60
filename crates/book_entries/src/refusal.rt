//! Why a book does not take a stored row.

use book_rows::Fault;
use cc_book::{BookRefusal, ChangeRefusal};
use std::alloc::AllocError;
use thiserror::Error;

/// Why a book does not take a stored row. It is unchanged then.
#[derive(Clone, Copy, Debug, PartialEq, Eq, Error)]
pub enum RowRefusal {
    #[error("out of memory")]
    OutOfMemory,
    /// The octets are no row.
    #[error("it is no row of a book: {0:?}")]
    NoRow(Fault),
    /// The book keeps a request with this key already.
    #[error("its request stands at an earlier place")]
    Repeated,
    /// The sweep ends no session.
    #[error("its sweep ends no session")]
    EndsNothing,
    /// The change of the terms says nothing, or an account that joins is there already.
    #[error("its change of the terms is refused: {0}")]
    NoChange(ChangeRefusal),
    /// The book gives its entry another row: another place, reply, debit or sum.
    #[error("these terms make another row of its entry")]
    Another,
    /// The book has no room for it.
    #[error("the history has {0} entries, which is its limit")]
    Full(u64),
}

impl From<AllocError> for RowRefusal {
    fn from(_: AllocError) -> RowRefusal {
        RowRefusal::OutOfMemory
    }
}

impl From<BookRefusal> for RowRefusal {
    fn from(refusal: BookRefusal) -> RowRefusal {
        match refusal {
            BookRefusal::Full { limit } => RowRefusal::Full(limit),
            BookRefusal::OutOfMemory => RowRefusal::OutOfMemory,
        }
    }
}

impl From<ChangeRefusal> for RowRefusal {
    fn from(refusal: ChangeRefusal) -> RowRefusal {
        match refusal {
            ChangeRefusal::Full { limit } => RowRefusal::Full(limit),
            ChangeRefusal::OutOfMemory => RowRefusal::OutOfMemory,
            refusal => RowRefusal::NoChange(refusal),
        }
    }
}
