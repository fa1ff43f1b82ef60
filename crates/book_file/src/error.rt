//! Why a file is not opened, or no book is made in it.

use book_rows::Fault;
use book_store::{CreateError, OpenError, RowError};
use sqlite_trees::error::StoreError;
use std::alloc::AllocError;
use std::io;
use thiserror::Error;

/// Why a file is not opened, or no book is made in it.
#[derive(Clone, Copy, Debug, Error)]
pub enum FileError {
    /// There is no file of this name.
    #[error("there is no such file")]
    Missing,
    /// The file has a book already.
    #[error("the file has a book already")]
    Exists,
    /// Another process has the file open.
    #[error("another process has the file open")]
    Busy,
    /// It is no database of a book: another program's file, or one that was cut or written over.
    #[error("the file is no book's")]
    NoBooksFile,
    /// The file is one that a book may be made in, and none was.
    #[error("the file has no book yet")]
    NoBook,
    /// The book is of another format than this release writes.
    #[error("the book is of another format")]
    OtherFormat,
    /// What the book is, or where it stands, is not there as it was written.
    #[error("what the book is, or where it stands, is damaged")]
    DamagedBook,
    /// The book does not stand where its rows say.
    #[error("the book does not stand where its rows say")]
    StandsElsewhere,
    /// The row of this place is not there as it was written.
    #[error("the row at place {0} is damaged or missing")]
    Damaged(u64),
    /// The file has met a limit of its format.
    #[error("the file has met a limit of its format")]
    Full,
    #[error("out of memory")]
    OutOfMemory,
    /// The system refused a call.
    #[error("{0}")]
    Io(io::Error),
    /// The disk failed, or has no room.
    #[error("{0}")]
    Store(StoreError),
}

impl From<AllocError> for FileError {
    fn from(_: AllocError) -> FileError {
        FileError::OutOfMemory
    }
}

impl From<io::Error> for FileError {
    fn from(error: io::Error) -> FileError {
        FileError::Io(error)
    }
}

impl From<StoreError> for FileError {
    fn from(error: StoreError) -> FileError {
        FileError::Store(error)
    }
}

impl From<sqlite_std_file::OpenError> for FileError {
    fn from(error: sqlite_std_file::OpenError) -> FileError {
        match error {
            sqlite_std_file::OpenError::Io(error) => FileError::Io(error),
            sqlite_std_file::OpenError::OutOfMemory => FileError::OutOfMemory,
            sqlite_std_file::OpenError::Busy => FileError::Busy,
            sqlite_std_file::OpenError::HotJournal => FileError::NoBooksFile,
        }
    }
}

impl From<sqlite_store::OpenError> for FileError {
    fn from(error: sqlite_store::OpenError) -> FileError {
        match error {
            sqlite_store::OpenError::OutOfMemory => FileError::OutOfMemory,
            sqlite_store::OpenError::Io => FileError::Store(StoreError::Io),
            sqlite_store::OpenError::Full => FileError::Full,
            sqlite_store::OpenError::Refused => FileError::NoBooksFile,
        }
    }
}

impl From<OpenError> for FileError {
    fn from(error: OpenError) -> FileError {
        match error {
            OpenError::NoBook => FileError::NoBook,
            OpenError::DamagedBook => FileError::DamagedBook,
            OpenError::StandsElsewhere => FileError::StandsElsewhere,
            OpenError::Damaged(place) => FileError::Damaged(place),
            OpenError::TooLong => FileError::Full,
            OpenError::Store(error) => FileError::Store(error),
        }
    }
}

impl From<CreateError> for FileError {
    fn from(error: CreateError) -> FileError {
        match error {
            CreateError::NotEmpty => FileError::Exists,
            CreateError::Store(error) => FileError::Store(error),
        }
    }
}

impl From<RowError> for FileError {
    fn from(error: RowError) -> FileError {
        match error {
            RowError::Damaged => FileError::DamagedBook,
            RowError::Store(error) => FileError::Store(error),
        }
    }
}

impl From<Fault> for FileError {
    fn from(fault: Fault) -> FileError {
        match fault {
            Fault::OtherFormat => FileError::OtherFormat,
            _ => FileError::DamagedBook,
        }
    }
}
