//! Why a connection is lost.

use dia_message::FrameFault;
use thiserror::Error;

/// Why a connection is lost. It is told once.
#[derive(Clone, Copy, Debug, PartialEq, Eq, Error)]
pub enum Loss {
    #[error("a read has failed")]
    Read,
    #[error("the other side has ended it")]
    End,
    /// What was read begins with no message.
    #[error("{0}")]
    Frame(FrameFault),
    #[error("a write has failed")]
    Write,
    /// The other side does not read.
    #[error("more than 1048576 octets are unsent")]
    Unsent,
    #[error("out of memory")]
    OutOfMemory,
}
