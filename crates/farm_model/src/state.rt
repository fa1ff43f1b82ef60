//! What the farm consists of between two steps.

use cc_book::Book;
use dia_base::{ConnId, Listing, NodeNo};
use dia_message::Message;
use front_core::Front;
use relay_core::Relay;

/// One direction of a connection, with the messages in flight in it. A connection that is made has two, each of
/// which stands until the node that it goes to has dropped the connection.
#[derive(Drop)]
pub struct Direction {
    pub conn: ConnId,
    pub from: NodeNo,
    pub to: NodeNo,
    /// Whether the node that it goes to knows the connection: one that opens it learns of it later than the other.
    pub known: bool,
    /// What is in flight, the first sent first.
    pub messages: Listing<Message>,
}

/// A front, with the node that it is.
#[derive(Drop)]
pub struct FrontAt {
    pub node: NodeNo,
    pub front: Front,
}

/// A relay, with the node that it is.
#[derive(Drop)]
pub struct RelayAt {
    pub node: NodeNo,
    pub relay: Relay,
}

/// What is told of a run.
#[derive(Debug, Drop)]
pub struct Trace {
    /// What clients have sent, each message with its connection.
    pub sent: Listing<(ConnId, Message)>,
    /// What clients have received.
    pub received: Listing<(ConnId, Message)>,
    pub book: Book,
    /// How many steps did not apply.
    pub skipped: u64,
    /// The two nodes of connection 1, 2, and so on.
    pub ends: Listing<(NodeNo, NodeNo)>,
}
