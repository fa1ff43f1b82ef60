//! Why records are not put in order, or come to something else.

ghost use Rattle.std.specs.Prelude.{IsErr};

use record_reader::{Position, RecordFault};
use std::alloc::{AllocError, AllocFailed};
use thiserror::Error;

/// What is wrong with an entry, beside the other records and the farm that plays.
#[derive(Clone, Copy, Debug, Error)]
pub enum Difference {
    #[error("there is no record of the node at the other end")]
    NoRecord,
    #[error("place {place} of the book is told twice")]
    PlaceTwice { place: u64 },
    #[error("place {place} of the book is told by no line")]
    PlaceMissing { place: u64 },
    #[error("this is not what was sent next on this connection")]
    NotNext,
    #[error("what was sent then is not what a relay or a front sends")]
    SentOtherwise,
    #[error("this request is answered otherwise")]
    AnsweredOtherwise,
    #[error("this is no new request")]
    NotNew,
    #[error("this is a new request")]
    IsNew,
    #[error("the book has another entry at this place")]
    OtherEntry,
    #[error("no line tells of this entry, and no request was under way that can have it")]
    Untold,
    #[error("the terms cannot be changed so")]
    OtherTerms,
    #[error("such a sweep ends other sessions")]
    SweepsOtherwise,
    #[error("the book comes to something else")]
    OtherBook,
    #[error("this cannot happen")]
    CannotHappen,
}

/// Why records are not played to their ends.
#[derive(Clone, Copy, Debug, Error)]
pub enum PlayFault {
    #[error("{0}")]
    Record(RecordFault),
    #[error("line {}: {why}", position.line)]
    Found { position: Position, why: Difference },
    /// What relays and clients have received in the end is not what their records tell.
    #[error("the run that was played is not what the records tell")]
    OtherRun,
    #[error("out of memory")]
    OutOfMemory,
}

/// What comes of playing an entry.
pub type PlayResult<T> = Result<T, PlayFault>;

/// Something is wrong there.
pub fn found<T>(position: Position, why: Difference) -> PlayResult<T>
    ensures { IsErr result }
{
    Err(PlayFault::Found { position, why })
}

impl From<AllocError> for PlayFault {
    fn from(_e: AllocError) -> PlayFault {
        PlayFault::OutOfMemory
    }
}

impl<T: Drop> From<AllocFailed<T>> for PlayFault {
    fn from(_e: AllocFailed<T>) -> PlayFault {
        PlayFault::OutOfMemory
    }
}

impl From<RecordFault> for PlayFault {
    fn from(e: RecordFault) -> PlayFault {
        PlayFault::Record(e)
    }
}
