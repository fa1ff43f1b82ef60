//! Why a relay refuses a call.

ghost use Rattle.std.specs.Prelude.{◌≡◌};
ghost use Rattle.relay_core.specs.declared.error.RelayError.TheVariants.{OutOfMemory};

use dia_base::{ConnId, NodeNo};
use std::alloc::{AllocError, AllocFailed};
use thiserror::Error;

/// A call that a relay refused. The relay is as it was.
#[derive(Clone, Copy, Debug, PartialEq, Eq, Error)]
pub enum RelayError {
    #[error("out of memory")]
    OutOfMemory,
    #[error("connection {} is not up", conn.0)]
    UnknownConn { conn: ConnId },
    #[error("peer {}, or another one on its connection, is up", peer.0)]
    PeerUp { peer: NodeNo },
    #[error("peer {} is not linked", peer.0)]
    UnknownPeer { peer: NodeNo },
}

impl From<AllocError> for RelayError {
    ghost from_gives = { λ _ e. e ≡ OutOfMemory };

    fn from(_e: AllocError) -> RelayError {
        RelayError::OutOfMemory
    }
}

impl<T: Drop> From<AllocFailed<T>> for RelayError {
    ghost from_gives = { λ _ e. e ≡ OutOfMemory };

    fn from(_e: AllocFailed<T>) -> RelayError {
        RelayError::OutOfMemory
    }
}
