//! Why the entries of a history are not told.

use cc_book::{BookRefusal, ChangeRefusal};
use std::alloc::{AllocError, AllocFailed};
use thiserror::Error;

/// Why the entries of a history are not told.
#[derive(Clone, Copy, Debug, PartialEq, Eq, Error)]
pub enum LinesFault {
    /// The entry at this place is none that a book takes there.
    #[error("a book does not take the entry at place {0}")]
    NotTaken(u64),
    /// The history has more entries than the book may have.
    #[error("the history has {0} entries, which is its limit")]
    Full(u64),
    /// The entry changes the terms as no book does there.
    #[error("a book refuses a change of the terms: {0}")]
    NoChange(ChangeRefusal),
    #[error("out of memory")]
    OutOfMemory,
}

impl From<BookRefusal> for LinesFault {
    fn from(refusal: BookRefusal) -> LinesFault {
        match refusal {
            BookRefusal::Full { limit } => LinesFault::Full(limit),
            BookRefusal::OutOfMemory => LinesFault::OutOfMemory,
        }
    }
}

impl From<ChangeRefusal> for LinesFault {
    fn from(refusal: ChangeRefusal) -> LinesFault {
        match refusal {
            ChangeRefusal::Full { limit } => LinesFault::Full(limit),
            ChangeRefusal::OutOfMemory => LinesFault::OutOfMemory,
            refusal => LinesFault::NoChange(refusal),
        }
    }
}

impl From<AllocError> for LinesFault {
    fn from(_: AllocError) -> LinesFault {
        LinesFault::OutOfMemory
    }
}

impl<T: Drop> From<AllocFailed<T>> for LinesFault {
    fn from(_: AllocFailed<T>) -> LinesFault {
        LinesFault::OutOfMemory
    }
}
