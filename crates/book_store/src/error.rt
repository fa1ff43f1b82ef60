//! Why a book could not be stored, read or opened.

use sqlite_trees::error::StoreError;
use std::alloc::AllocError;
use thiserror::Error;

/// Why rows were not appended.
#[derive(Clone, Copy, Debug, PartialEq, Eq, Error)]
pub enum AppendError {
    /// The rows do not begin behind the last one.
    #[error("the rows do not begin behind the last one")]
    NotBehind,
    /// No place is left.
    #[error("no place is left")]
    NoPlace,
    /// What lies below failed. Whether the rows are stored is not known.
    #[error("{0}")]
    Store(StoreError),
}

/// Why a row was not read.
#[derive(Clone, Copy, Debug, PartialEq, Eq, Error)]
pub enum RowError {
    /// The row is not there, or is no row of a book.
    #[error("the row is damaged")]
    Damaged,
    /// What lies below failed.
    #[error("{0}")]
    Store(StoreError),
}

impl From<AllocError> for RowError {
    ghost use Rattle.std.specs.Prelude.{◌≡◌};
    ghost use Rattle.book_store.specs.declared.error.RowError.TheVariants.{Store};
    ghost use Rattle.sqlite_trees.specs.declared.error.StoreError.TheVariants.{OutOfMemory};

    ghost from_gives = { λ _ e. e ≡ Store OutOfMemory };

    fn from(_: AllocError) -> RowError {
        RowError::Store(StoreError::OutOfMemory)
    }
}

/// Why a book was not made.
#[derive(Clone, Copy, Debug, PartialEq, Eq, Error)]
pub enum CreateError {
    /// The database has rows already.
    #[error("there is something already")]
    NotEmpty,
    /// What lies below failed.
    #[error("{0}")]
    Store(StoreError),
}

/// Why a store was not opened.
#[derive(Clone, Copy, Debug, PartialEq, Eq, Error)]
pub enum OpenError {
    /// The database has no book.
    #[error("there is no book")]
    NoBook,
    /// What the book is, or where it stands, is not there as it was written.
    #[error("what the book is, or where it stands, is damaged or missing")]
    DamagedBook,
    /// The book is said to stand elsewhere than its rows say: rows are missing at its end, or are too many.
    #[error("the book does not stand where its rows say")]
    StandsElsewhere,
    /// What stands where the row of this place belongs is none.
    #[error("the row at place {0} is damaged or missing")]
    Damaged(u64),
    /// Rows stand behind the last place that there is.
    #[error("there are more rows than places")]
    TooLong,
    /// What lies below failed.
    #[error("{0}")]
    Store(StoreError),
}

/// Why the rows of a store are not those of a book.
#[derive(Clone, Copy, Debug, PartialEq, Eq, Error)]
pub enum CheckError {
    /// The row of this place is no row, has another place, or has a sum that does not chain it to the row before.
    #[error("the row at place {0} is not the one that was written")]
    Wrong(u64),
    /// The row was not read.
    #[error("{0}")]
    Row(RowError),
}
