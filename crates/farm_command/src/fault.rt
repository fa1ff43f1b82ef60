//! Why the words of a command line are no command.

use crate::word::Word;
use thiserror::Error;

/// Why the words of a command line are no command.
#[derive(Debug, Drop, Error)]
pub enum CliFault {
    /// They ask for help or the version, which is this text.
    #[error("{0}")]
    Asked(String),
    /// They are refused, as this text says.
    #[error("{0}")]
    Refused(String),
    /// A word that must be there is not.
    #[error("error: {0} is missing")]
    Missing(Word),
    /// The value of an option is none that it may have.
    #[error("error: {0} is malformed")]
    Malformed(Word),
    /// They ask for what another program does.
    #[error("error: another program does this")]
    Elsewhere,
    /// A word is no text.
    #[error("error: the words of the command line are no UTF-8")]
    NotUtf8,
    #[error("out of memory")]
    OutOfMemory,
}
