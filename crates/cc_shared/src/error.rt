//! Why a shared book does not do what it is told.

use cc_book::{Book, ChangeRefusal};
use cc_view::CcRequest;
use thiserror::Error;

/// Why a request is not served.
#[derive(Clone, Copy, Debug, PartialEq, Eq, Error)]
pub enum ServeRefusal {
    #[error("the history has {limit} entries, which is its limit")]
    Full { limit: u64 },
    #[error("out of memory")]
    OutOfMemory,
    #[error("the book is closed")]
    Closed,
}

/// A request that was not served, as it was handed in, and why. The book is as it was.
#[derive(Drop)]
pub struct ServeError {
    pub why: ServeRefusal,
    pub request: CcRequest,
}

/// Why the terms of a shared book are not changed.
#[derive(Clone, Copy, Debug, PartialEq, Eq, Error)]
pub enum ChangeError {
    /// The book refuses the change, and is as it was.
    #[error("{0}")]
    Refused(ChangeRefusal),
    #[error("the book is closed")]
    Closed,
    /// The book was changed, and the change was not stored: whether it stands is not known. The book is closed, and the process is to
    /// end.
    #[error("the change cannot be stored: whether it stands is not known")]
    NotStored,
}

/// Why a shared book was not finished. It is closed all the same, and handed back where it was not closed before.
#[derive(Drop)]
pub enum CloseError {
    /// A receipt does not stand in the history, at the place that it names.
    ReceiptNotInHistory { place: u64, book: Book },
    /// The seats have not counted as many takes as were made since the book is shared.
    CountsDiffer { book: Book },
    OutOfMemory { book: Book },
    /// Another handle has finished.
    Closed,
}
