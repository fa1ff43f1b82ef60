//! Why a book on disk is not made or opened.

ghost use Rattle.std.specs.Prelude.{◌≡◌, Some};
ghost use Rattle.book_opening.specs.declared.fault.BookFault.TheVariants.{NotStored, OutOfMemory};
ghost use Rattle.book_opening.specs.Refused.{fault_of};
ghost use Rattle.book_opening.specs.Words.{difference_text, noun_of};

use book_file::FileError;
use book_journal::JournalError;
use book_rows::ReadError;
use book_store::AppendError;
use book_terms::TermsKey;
use cc_book::ChangeRefusal;
use std::alloc::{AllocError, AllocFailed};
use std::{fmt, io};
use thiserror::Error;

/// What a change of the terms of a book would bring, so that those of a site hold.
#[derive(Clone, Copy, Debug)]
pub struct TermsDifference {
    /// How many accounts would join.
    pub accounts: u64,
    /// Whether the tariffs would change.
    pub tariffs: bool,
}

/// What so many accounts are called.
fn noun_of(accounts: u64) -> &'static str
    ensures { result.now ≡ noun_of accounts }
{
    if accounts == 1 { "account" } else { "accounts" }
}

impl fmt::Display for TermsDifference {
    ghost output = { λ difference. Some (difference_text difference) };

    fn fmt<W: fmt::Write>(&self, f: &mut fmt::Formatter<W>) -> fmt::Result {
        let (accounts, noun) = (self.accounts, noun_of(self.accounts));
        if self.tariffs {
            write!(
                f,
                "{accounts} {noun} would join, and the tariffs would change"
            )
        } else {
            write!(
                f,
                "{accounts} {noun} would join, and the tariffs would not change"
            )
        }
    }
}

/// Why a book on disk is not made or opened. What is stored is as it was.
#[derive(Clone, Copy, Debug, Error)]
pub enum BookFault {
    /// The file.
    #[error("{0}")]
    File(FileError),
    /// The book has other terms than the site, which no change can make the site's: this key differs first.
    #[error("the book was made under other terms: {0} differs")]
    OtherTerms(TermsKey),
    /// The terms of the site do not hold in the book, and it is not to change its terms.
    #[error("the site has other terms than the book: {0}; farm check --book tells which, --change-terms changes them")]
    TermsDiffer(TermsDifference),
    /// The book does not change its terms.
    #[error("its terms are not changed: {0}")]
    NotChanged(ChangeRefusal),
    /// The change was not stored: whether it stands is not known.
    #[error("the change of its terms cannot be stored: {0}")]
    NotStored(AppendError),
    /// What the book says of its terms is damaged.
    #[error("the terms of the book are damaged")]
    DamagedTerms,
    /// A row.
    #[error("{0}")]
    Row(JournalError),
    #[error("out of memory")]
    OutOfMemory,
}

impl From<ChangeRefusal> for BookFault {
    ghost from_gives = { λ refusal fault. fault ≡ fault_of refusal };

    fn from(refusal: ChangeRefusal) -> BookFault {
        match refusal {
            ChangeRefusal::OutOfMemory => BookFault::OutOfMemory,
            refusal => BookFault::NotChanged(refusal),
        }
    }
}

impl From<AppendError> for BookFault {
    ghost from_gives = { λ error fault. fault ≡ NotStored error };

    fn from(error: AppendError) -> BookFault {
        BookFault::NotStored(error)
    }
}

impl From<FileError> for BookFault {
    fn from(error: FileError) -> BookFault {
        BookFault::File(error)
    }
}

impl From<JournalError> for BookFault {
    fn from(error: JournalError) -> BookFault {
        BookFault::Row(error)
    }
}

impl From<ReadError> for BookFault {
    fn from(error: ReadError) -> BookFault {
        match error {
            ReadError::NoRow(_) => BookFault::DamagedTerms,
            ReadError::OutOfMemory => BookFault::OutOfMemory,
        }
    }
}

impl From<io::Error> for BookFault {
    fn from(error: io::Error) -> BookFault {
        BookFault::File(FileError::Io(error))
    }
}

impl From<AllocError> for BookFault {
    ghost from_gives = { λ _ fault. fault ≡ OutOfMemory };

    fn from(_: AllocError) -> BookFault {
        BookFault::OutOfMemory
    }
}

impl<T: Drop> From<AllocFailed<T>> for BookFault {
    fn from(_: AllocFailed<T>) -> BookFault {
        BookFault::OutOfMemory
    }
}
