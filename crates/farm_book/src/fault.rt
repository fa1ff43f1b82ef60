//! Why a task is not done.

ghost use Rattle.std.specs.Prelude.{◌≡◌};
ghost use Rattle.farm_book.specs.Ending.{status_of, status_of_copy, status_of_rows};

use book_copy::{CopyError, CopyFault};
use book_ending::{status_of_append, status_of_book, status_of_file, status_of_store};
use book_lines::LinesFault;
use book_opening::BookFault;
use book_place::FileKeyFault;
use book_store::{CheckError, RowError};
use farm_command::Status;
use farm_site::SiteFault;
use farm_terms::{AccountsFault, SiteChangeFault, SiteTermsFault};
use std::alloc::AllocError;
use thiserror::Error;

/// Why a task is not done. What is stored is as it was.
#[derive(Debug, Drop, Error)]
pub enum TaskFault {
    #[error("the site file cannot be read")]
    SiteFile,
    #[error("{0}")]
    Site(SiteFault),
    /// What the site file says of where the accounts are is refused, or memory ran out.
    #[error("{0}")]
    FileKey(FileKeyFault),
    /// The file of accounts is not read, or refused.
    #[error("{0}")]
    Terms(SiteTermsFault),
    #[error("the book is not made: {0}")]
    NotMade(BookFault),
    #[error("the book is not read: {0}")]
    NotRead(BookFault),
    #[error("the book is not changed: {0}")]
    NotChanged(BookFault),
    #[error("the book is not backed up: {0}")]
    NotCopied(CopyFault),
    #[error("the backup is not read: {0}")]
    CopyNotRead(BookFault),
    #[error("the backup is another book than the one that was copied")]
    OtherCopy,
    /// Its entries are not told.
    #[error("{0}")]
    Lines(LinesFault),
    #[error("the output cannot be written")]
    Write,
    #[error("out of memory")]
    OutOfMemory,
}

impl TaskFault {
    /// How the program ends by this fault.
    pub fn status(&self) -> Status
        ensures { result ≡ status_of self.now }
    {
        match self {
            TaskFault::SiteFile | TaskFault::Terms(SiteTermsFault::NotRead) | TaskFault::Write =>
                Status::Failed,
            TaskFault::NotMade(fault)
            | TaskFault::NotRead(fault)
            | TaskFault::NotChanged(fault)
            | TaskFault::CopyNotRead(fault) => status_of_book(*fault),
            TaskFault::NotCopied(fault) => copy_status(*fault),
            TaskFault::OtherCopy => Status::Refused,
            TaskFault::Site(SiteFault::OutOfMemory)
            | TaskFault::FileKey(FileKeyFault::OutOfMemory)
            | TaskFault::Terms(
                SiteTermsFault::OutOfMemory | SiteTermsFault::Accounts(AccountsFault::OutOfMemory),
            )
            | TaskFault::Lines(LinesFault::OutOfMemory)
            | TaskFault::OutOfMemory => Status::OutOfMemory,
            TaskFault::Site(_)
            | TaskFault::FileKey(_)
            | TaskFault::Terms(SiteTermsFault::Accounts(_))
            | TaskFault::Lines(_) => Status::Refused,
        }
    }
}

/// How the program ends by a fault of a copy.
fn copy_status(fault: CopyFault) -> Status
    ensures { result ≡ status_of_copy fault }
{
    match fault {
        CopyFault::Stands => Status::Refused,
        CopyFault::Book(error) | CopyFault::Copy(error) => status_of_file(error),
        CopyFault::Rows(error) => rows_status(error),
        CopyFault::Io(_) => Status::Failed,
        CopyFault::OutOfMemory => Status::OutOfMemory,
    }
}

/// How the program ends by rows that are not copied.
fn rows_status(error: CopyError) -> Status
    ensures { result ≡ status_of_rows error }
{
    match error {
        CopyError::Check(CheckError::Row(RowError::Store(error)))
        | CopyError::Read(RowError::Store(error)) => status_of_store(error),
        CopyError::Append(error) => status_of_append(error),
        CopyError::Check(_) | CopyError::Read(_) => Status::Refused,
        CopyError::OutOfMemory => Status::OutOfMemory,
    }
}

impl From<SiteTermsFault> for TaskFault {
    fn from(fault: SiteTermsFault) -> TaskFault {
        TaskFault::Terms(fault)
    }
}

impl From<SiteChangeFault> for TaskFault {
    fn from(fault: SiteChangeFault) -> TaskFault {
        match fault {
            SiteChangeFault::Terms(fault) => TaskFault::Terms(fault),
            SiteChangeFault::Stays(key) => TaskFault::NotRead(BookFault::OtherTerms(key)),
        }
    }
}

impl From<AllocError> for TaskFault {
    fn from(_: AllocError) -> TaskFault {
        TaskFault::OutOfMemory
    }
}
