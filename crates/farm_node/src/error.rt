//! Why a node does not do what it is told.

ghost use Rattle.std.specs.Prelude.{◌≡◌};
ghost use Rattle.farm_node.specs.Nodes.{error_of_front, error_of_relay};

use dia_base::{ConnId, NodeNo};
use front_core::FrontError;
use relay_core::RelayError;
use thiserror::Error;

/// Why a node does not do what it is told.
#[derive(Clone, Copy, Debug, PartialEq, Eq, Error)]
pub enum NodeError {
    #[error("out of memory")]
    OutOfMemory,
    /// Nobody is up on the connection.
    #[error("connection {} is not up", conn.0)]
    UnknownConn { conn: ConnId },
    #[error("node {}, or another one on its connection, is up", peer.0)]
    PeerUp { peer: NodeNo },
    #[error("node {} is not linked", peer.0)]
    UnknownPeer { peer: NodeNo },
    /// None of the nodes that are served here is this one.
    #[error("node {} is not served here", node.0)]
    UnknownNode { node: NodeNo },
    /// A request that came on the connection has no answer, for want of memory; it may have been charged. The connection
    /// is to end, so that whoever sent it learns that none comes.
    #[error("out of memory for an answer on connection {}", conn.0)]
    Unanswered { conn: ConnId },
    /// Sessions are due, and the book has no room to end them.
    #[error("the book has {limit} entries, which is its limit")]
    BookFull { limit: u64 },
}

impl NodeError {
    /// The same of a relay.
    pub fn of_relay(error: RelayError) -> Self
        ensures { result ≡ error_of_relay error }
    {
        match error {
            RelayError::OutOfMemory => NodeError::OutOfMemory,
            RelayError::UnknownConn { conn } => NodeError::UnknownConn { conn },
            RelayError::PeerUp { peer } => NodeError::PeerUp { peer },
            RelayError::UnknownPeer { peer } => NodeError::UnknownPeer { peer },
        }
    }

    /// The same of a front.
    pub fn of_front(error: FrontError) -> Self
        ensures { result ≡ error_of_front error }
    {
        match error {
            FrontError::OutOfMemory => NodeError::OutOfMemory,
            FrontError::UnknownConn { conn } => NodeError::UnknownConn { conn },
        }
    }
}
