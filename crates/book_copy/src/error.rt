//! Why a book is not copied.

use book_file::FileError;
use book_store::{AppendError, CheckError, RowError};
use std::alloc::{AllocError, AllocFailed};
use std::io;
use thiserror::Error;

/// Why the rows of a store are not copied.
#[derive(Clone, Copy, Debug, PartialEq, Eq, Error)]
pub enum CopyError {
    /// A row is not the one that was written, or was not read.
    #[error("{0}")]
    Check(CheckError),
    /// A row was not read.
    #[error("{0}")]
    Read(RowError),
    /// Rows were not stored in the copy.
    #[error("the copy: {0}")]
    Append(AppendError),
    #[error("out of memory")]
    OutOfMemory,
}

impl From<CheckError> for CopyError {
    fn from(error: CheckError) -> CopyError {
        CopyError::Check(error)
    }
}

impl From<RowError> for CopyError {
    fn from(error: RowError) -> CopyError {
        CopyError::Read(error)
    }
}

impl From<AppendError> for CopyError {
    fn from(error: AppendError) -> CopyError {
        CopyError::Append(error)
    }
}

impl<T: Drop> From<AllocFailed<T>> for CopyError {
    fn from(_: AllocFailed<T>) -> CopyError {
        CopyError::OutOfMemory
    }
}

/// Why a book is not copied to another file. The book is as it was.
#[derive(Clone, Copy, Debug, Error)]
pub enum CopyFault {
    /// Something stands where the copy is to be, or its log.
    #[error("a file of this name stands there already")]
    Stands,
    /// The book is not opened.
    #[error("{0}")]
    Book(FileError),
    /// The copy is not made, or not closed.
    #[error("the copy: {0}")]
    Copy(FileError),
    /// Its rows.
    #[error("{0}")]
    Rows(CopyError),
    /// The system does not say what stands where the copy is to be.
    #[error("{0}")]
    Io(io::Error),
    #[error("out of memory")]
    OutOfMemory,
}

impl From<CopyError> for CopyFault {
    fn from(error: CopyError) -> CopyFault {
        CopyFault::Rows(error)
    }
}

impl From<io::Error> for CopyFault {
    fn from(error: io::Error) -> CopyFault {
        CopyFault::Io(error)
    }
}

impl From<AllocError> for CopyFault {
    fn from(_: AllocError) -> CopyFault {
        CopyFault::OutOfMemory
    }
}
