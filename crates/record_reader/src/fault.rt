//! Why a record has no next entry.

use crate::group::GroupFault;
use crate::lines::LinesFault;
use crate::position::{Position, Source};
use farm_script::LineFault;
use std::alloc::{AllocError, AllocFailed};
use thiserror::Error;

/// What is wrong with a line of a record.
#[derive(Clone, Copy, Debug, Error)]
pub enum EntryFault {
    #[error("{0}")]
    Group(GroupFault),
    #[error("a process is one relay, one client, or fronts")]
    Mixed,
    #[error("the record of another process")]
    OtherProcess,
    #[error("another record is of this node too")]
    TwoRecords,
    #[error("the fronts begin again, and with them the book: this is another run")]
    FrontsAgain,
    #[error("this is not the next place of the book")]
    OtherPlace,
    #[error("no such connection can be made here")]
    NoSuchConnection,
    #[error("unknown connection")]
    UnknownConnection,
    #[error("this connection is known already")]
    KnownAlready,
    #[error("no such request is with a worker")]
    NoSuchRequest,
}

/// Why there is no next entry.
#[derive(Clone, Copy, Debug, Error)]
pub enum RecordFault {
    #[error("line {}: {why}", position.line)]
    Found { position: Position, why: EntryFault },
    #[error("a record cannot be read")]
    Unreadable { source: Source },
    #[error("out of memory")]
    OutOfMemory,
}

/// Something is wrong with that line.
pub fn found<T>(position: Position, why: EntryFault) -> Result<T, RecordFault> {
    Err(RecordFault::Found { position, why })
}

/// Why a record has no next event, as a fault of it.
pub fn of_group(fault: GroupFault, position: Position) -> RecordFault {
    match fault {
        GroupFault::OutOfMemory
        | GroupFault::Lines(LinesFault::OutOfMemory)
        | GroupFault::Words(LineFault::OutOfMemory) => RecordFault::OutOfMemory,
        GroupFault::Lines(LinesFault::Failed) => RecordFault::Unreadable {
            source: position.source,
        },
        GroupFault::Lines(LinesFault::TooLong)
        | GroupFault::Words(_)
        | GroupFault::NoBegin
        | GroupFault::SentForNothing
        | GroupFault::Lost => RecordFault::Found {
            position,
            why: EntryFault::Group(fault),
        },
    }
}

impl From<AllocError> for RecordFault {
    fn from(_e: AllocError) -> RecordFault {
        RecordFault::OutOfMemory
    }
}

impl<T: Drop> From<AllocFailed<T>> for RecordFault {
    fn from(_e: AllocFailed<T>) -> RecordFault {
        RecordFault::OutOfMemory
    }
}
