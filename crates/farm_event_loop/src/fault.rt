//! Why a process cannot go on.

use crate::tell::Named;
use std::alloc::{AllocError, AllocFailed, Global};
use std::io;
use std::io::ErrorKind;
use std::net::SocketAddr;
use thiserror::Error;

/// Why a process cannot go on.
#[derive(Debug, Drop, Error)]
pub enum LoopFault {
    /// The system has refused what a socket or the clock was asked for.
    #[error("sockets: {0}")]
    Sockets(io::Error),
    /// The system does not let this node listen at its address.
    #[error("{node} cannot listen at {address}: {error}")]
    Listening {
        node: String,
        address: SocketAddr,
        error: io::Error,
    },
    #[error("out of memory")]
    OutOfMemory,
}

impl LoopFault {
    /// This node cannot listen at its address, since the system has answered so.
    pub fn listening(
        alloc: Global,
        node: Named<'_>,
        address: SocketAddr,
        error: io::Error,
    ) -> LoopFault {
        if error.kind() == ErrorKind::OutOfMemory {
            return LoopFault::OutOfMemory;
        }
        match format!(in alloc; "{node}") {
            Ok(node) => LoopFault::Listening {
                node,
                address,
                error,
            },
            Err(_) => LoopFault::OutOfMemory,
        }
    }
}

impl From<io::Error> for LoopFault {
    fn from(error: io::Error) -> LoopFault {
        if error.kind() == ErrorKind::OutOfMemory {
            LoopFault::OutOfMemory
        } else {
            LoopFault::Sockets(error)
        }
    }
}

impl From<AllocError> for LoopFault {
    fn from(_e: AllocError) -> LoopFault {
        LoopFault::OutOfMemory
    }
}

impl<T: Drop> From<AllocFailed<T>> for LoopFault {
    fn from(_e: AllocFailed<T>) -> LoopFault {
        LoopFault::OutOfMemory
    }
}
