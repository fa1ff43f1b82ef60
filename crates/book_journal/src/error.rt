//! Why a stored book was not taken.

use book_entries::RowRefusal;
use book_store::{AppendError, RowError};
use thiserror::Error;

/// Why a stored book was not taken. Its rows are as they were.
#[derive(Clone, Copy, Debug, PartialEq, Eq, Error)]
pub enum JournalError {
    /// The row of this place was not read.
    #[error("the row at place {place}: {why}")]
    Unread { place: u64, why: RowError },
    /// The row of this place is not the one that the book gives to its entry there.
    #[error("the row at place {place}: {why}")]
    Refused { place: u64, why: RowRefusal },
    /// A table beside the rows was not read.
    #[error("the tables of accounts and sessions: {why}")]
    TableUnread { why: RowError },
    /// The account of this place does not stand so.
    #[error("the table of accounts at place {place} does not have what the entries make of it")]
    OtherAccount { place: u64 },
    /// The open session of this place does not stand so.
    #[error("the table of sessions at place {place} does not have what the entries make of it")]
    OtherSession { place: u64 },
    /// The tables beside the rows, which were empty, were not written.
    #[error("the tables of accounts and sessions were not written: {why}")]
    Unwritten { why: AppendError },
}
