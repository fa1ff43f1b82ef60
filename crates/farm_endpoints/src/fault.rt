//! Why a process cannot be these nodes of its site.

ghost use Rattle.farm_endpoints.specs.declared.fault.EndpointFault.TheVariants.{OutOfMemory};
ghost use Rattle.std.specs.Prelude.{◌≡◌};

use std::alloc::{AllocError, AllocFailed};
use std::fmt;
use thiserror::Error;

/// Which of the names on the command line is meant.
#[derive(Clone, Copy, Debug, PartialEq, Eq)]
pub enum Role {
    /// The relay that serves.
    Name,
    /// The client that sends.
    Client,
    /// The node that it connects to.
    Peer,
}

impl fmt::Display for Role {
    fn fmt<W: fmt::Write>(&self, f: &mut fmt::Formatter<W>) -> fmt::Result {
        f.write_str(match self {
            Role::Name => "name",
            Role::Client => "client",
            Role::Peer => "peer",
        })
    }
}

/// Why a process cannot be these nodes of its site.
#[derive(Clone, Copy, Debug, PartialEq, Eq, Error)]
pub enum EndpointFault {
    /// A node that has to be reached has no address.
    #[error("site: Missing address")]
    NoAddress,
    /// A name of no node, or of a node that is none of this kind, or that this client does not connect to.
    #[error("site: UnknownName {role}")]
    UnknownName { role: Role },
    #[error("out of memory")]
    OutOfMemory,
}

impl From<AllocError> for EndpointFault {
    ghost from_gives = { λ _ e. e ≡ OutOfMemory };

    fn from(_e: AllocError) -> EndpointFault {
        EndpointFault::OutOfMemory
    }
}

impl<T: Drop> From<AllocFailed<T>> for EndpointFault {
    ghost from_gives = { λ _ e. e ≡ OutOfMemory };

    fn from(_e: AllocFailed<T>) -> EndpointFault {
        EndpointFault::OutOfMemory
    }
}
