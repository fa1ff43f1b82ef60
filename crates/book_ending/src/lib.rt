//! How a program ends by a fault of its book: the fronts, and `farm book`. What another try may mend has failed (1), what stays so is
//! refused (3); so who starts the fronts again after a failure does not start them for ever on a book that is damaged.
//!
//! [`status_of_book`] and its parts, for each fault, by definitions of the same names.
#![tactic(auto)]

ghost use Rattle.std.specs.Prelude.{◌≡◌};
ghost use Rattle.book_ending.specs.Ending.{status_of_append, status_of_book, status_of_file, status_of_journal, status_of_store};

use book_entries::RowRefusal;
use book_file::FileError;
use book_journal::JournalError;
use book_opening::BookFault;
use book_store::{AppendError, RowError};
use farm_command::Status;
use sqlite_trees::error::StoreError;

/// How a program ends by a fault of a book.
pub fn status_of_book(fault: BookFault) -> Status
    ensures { result ≡ status_of_book fault }
{
    match fault {
        BookFault::File(error) => status_of_file(error),
        BookFault::Row(error) => status_of_journal(error),
        BookFault::NotStored(error) => status_of_append(error),
        BookFault::OtherTerms(_)
        | BookFault::TermsDiffer(_)
        | BookFault::NotChanged(_)
        | BookFault::DamagedTerms => Status::Refused,
        BookFault::OutOfMemory => Status::OutOfMemory,
    }
}

/// How a program ends by a fault of a file: one that is not there, is in use, or that the system does not read or write, has
/// failed; one that is read, and is no book, is refused.
pub fn status_of_file(error: FileError) -> Status
    ensures { result ≡ status_of_file error }
{
    match error {
        FileError::Missing | FileError::Busy | FileError::Io(_) => Status::Failed,
        FileError::Store(error) => status_of_store(error),
        FileError::OutOfMemory => Status::OutOfMemory,
        FileError::Exists
        | FileError::NoBooksFile
        | FileError::NoBook
        | FileError::OtherFormat
        | FileError::DamagedBook
        | FileError::StandsElsewhere
        | FileError::Damaged(_)
        | FileError::Full => Status::Refused,
    }
}

/// How a program ends by rows that are not stored.
pub fn status_of_append(error: AppendError) -> Status
    ensures { result ≡ status_of_append error }
{
    match error {
        AppendError::Store(error) => status_of_store(error),
        AppendError::NotBehind | AppendError::NoPlace => Status::Refused,
    }
}

/// How a program ends by a row that is not taken.
fn status_of_journal(error: JournalError) -> Status
    ensures { result ≡ status_of_journal error }
{
    match error {
        JournalError::Unread {
            why: RowError::Store(error),
            ..
        } => status_of_store(error),
        JournalError::Refused {
            why: RowRefusal::OutOfMemory,
            ..
        } => Status::OutOfMemory,
        JournalError::TableUnread {
            why: RowError::Store(error),
        } => status_of_store(error),
        JournalError::Unwritten { why } => status_of_append(why),
        JournalError::Unread { .. }
        | JournalError::Refused { .. }
        | JournalError::TableUnread { .. }
        | JournalError::OtherAccount { .. }
        | JournalError::OtherSession { .. } => Status::Refused,
    }
}

/// How a program ends by a fault of the disk, or by a page that is not what was written.
pub fn status_of_store(error: StoreError) -> Status
    ensures { result ≡ status_of_store error }
{
    match error {
        StoreError::OutOfMemory => Status::OutOfMemory,
        StoreError::Corrupt => Status::Refused,
        StoreError::Io | StoreError::Full | StoreError::Broken | StoreError::Unstorable =>
            Status::Failed,
    }
}
