//! Why connections end, and why they are not made.

use dia_base::{ConnId, NodeNo};
use farm_net::{Conn, Loss};
use farm_node::NodeError;
use farm_watch::DisconnectCause;
use thiserror::Error;

/// Why a connection has ended.
#[derive(Clone, Copy, Debug, PartialEq, Eq, Error)]
pub enum End {
    #[error("{0}")]
    Loss(Loss),
    /// What came first was no exchange of capabilities with a node that may come up here, from where it is and by the name
    /// that it gives itself, and is not up.
    #[error("the other end is not welcome")]
    Unwelcome,
    /// The other end has said nothing, or has not answered, for an interval.
    #[error("the other end is silent")]
    Silent,
    /// The other end has sent Disconnect-Peer-Request.
    #[error("the other end has disconnected")]
    Disconnected,
    /// This process has closed it.
    #[error("it was closed here")]
    Closed,
    /// The node refused what was told of it.
    #[error("{0}")]
    Refused(NodeError),
    #[error("out of memory")]
    OutOfMemory,
}

/// A connection that has ended, for those who have its sockets.
#[derive(Drop)]
pub struct Ended<R, W> {
    pub conn: ConnId,
    /// The node of this process whose connection it was.
    pub local: NodeNo,
    /// The node at the other end, if it was ever up.
    pub peer: Option<NodeNo>,
    pub why: End,
    /// Why the node at the other end has said goodbye, where the node here was told of that.
    pub farewell: Option<DisconnectCause>,
    /// Its reader and its writer, of which nothing is read or written any more.
    pub streams: Conn<R, W>,
}

/// Why a connection is not made.
#[derive(Clone, Copy, Debug, PartialEq, Eq, Error)]
pub enum Refusal {
    #[error("node {} is not served here", local.0)]
    UnknownLocal { local: NodeNo },
    /// As many connections as may be wait for the other end to say who it is.
    #[error("{limit} connections have not said whose they are")]
    TooManyUnknown { limit: usize },
    /// No number is left for it.
    #[error("no number is left for a connection")]
    NoNumber,
    #[error("out of memory")]
    OutOfMemory,
}

/// A connection that is not made: its reader and its writer as they were handed in, and why.
#[derive(Drop)]
pub struct NotTaken<R, W> {
    pub reader: R,
    pub writer: W,
    pub why: Refusal,
}
