//! Why the program does not do what it is asked to do.

use farm_command::Status;
use farm_site::SiteFault;
use record_player::PlayFault;
use record_reader::{RecordFault, Source};
use std::alloc::{AllocError, AllocFailed};
use thiserror::Error;

#[derive(Clone, Copy, Debug, Error)]
pub enum AuditFault {
    #[error("the site file cannot be read")]
    SiteFile,
    #[error("{0}")]
    Site(SiteFault),
    /// A record, by its place among those of the command line.
    #[error("a record cannot be read")]
    RecordFile { record: usize },
    #[error("the entries of the book cannot be read")]
    BookFile,
    #[error("{0}")]
    Play(PlayFault),
    #[error("the output cannot be written")]
    Write,
    #[error("out of memory")]
    OutOfMemory,
}

impl AuditFault {
    /// How the program ends by this fault.
    pub fn status(&self) -> Status {
        match self {
            AuditFault::SiteFile
            | AuditFault::RecordFile { .. }
            | AuditFault::BookFile
            | AuditFault::Write => Status::Failed,
            AuditFault::Site(SiteFault::OutOfMemory) | AuditFault::OutOfMemory =>
                Status::OutOfMemory,
            AuditFault::Site(_) => Status::Refused,
            AuditFault::Play(fault) => status_of(fault),
        }
    }

    /// The record or the book of which something is told.
    pub fn source(&self) -> Option<Source> {
        match self {
            AuditFault::RecordFile { record } => Some(Source::Record(*record)),
            AuditFault::Play(PlayFault::Record(RecordFault::Unreadable { source })) => Some(
                *source,
            ),
            AuditFault::Play(
                PlayFault::Found { position, .. }
                | PlayFault::Record(RecordFault::Found { position, .. }),
            ) => Some(position.source),
            AuditFault::Play(
                PlayFault::OtherRun
                | PlayFault::OutOfMemory
                | PlayFault::Record(RecordFault::OutOfMemory),
            )
            | AuditFault::SiteFile
            | AuditFault::BookFile
            | AuditFault::Site(_)
            | AuditFault::Write
            | AuditFault::OutOfMemory => None,
        }
    }
}

fn status_of(fault: &PlayFault) -> Status {
    match fault {
        PlayFault::Record(RecordFault::Unreadable { .. }) => Status::Failed,
        PlayFault::OutOfMemory | PlayFault::Record(RecordFault::OutOfMemory) => Status::OutOfMemory,
        PlayFault::Found { .. }
        | PlayFault::OtherRun
        | PlayFault::Record(RecordFault::Found { .. }) => Status::Refused,
    }
}

impl From<AllocError> for AuditFault {
    fn from(_e: AllocError) -> AuditFault {
        AuditFault::OutOfMemory
    }
}

impl<T: Drop> From<AllocFailed<T>> for AuditFault {
    fn from(_e: AllocFailed<T>) -> AuditFault {
        AuditFault::OutOfMemory
    }
}

impl From<PlayFault> for AuditFault {
    fn from(e: PlayFault) -> AuditFault {
        AuditFault::Play(e)
    }
}
