//! What records tell: of nodes, of the requests that fronts have finished, and of the book.

use crate::position::Position;
use dia_base::{Moment, NodeNo};
use dia_message::Message;

/// A node's end of a connection.
#[derive(Clone, Copy, Debug)]
pub struct End {
    /// The place of this end among all that the records tell of.
    pub conn: usize,
    pub node: NodeNo,
    pub peer: NodeNo,
}

/// What a node does with a connection, or what happens to it.
#[derive(Debug, Drop)]
pub enum Action {
    Dial,
    Accept,
    /// The connection that the node dialled is made.
    Opened,
    Send(Message),
    Receive(Message),
    /// The connection has ended, or is given up that was never made.
    Drop { was_up: bool },
}

/// An event of a node on a connection.
#[derive(Debug)]
pub struct NodeEvent {
    pub position: Position,
    pub end: End,
    pub action: Action,
    /// What the node sent for it, each message with the node at the other end.
    pub sent: Vec<(NodeNo, Message)>,
    /// Nothing of this start of the process is told behind it; so not all that was sent need be.
    pub is_last: bool,
    /// The number of the request that it hands to the workers of a front. Requests count from 0, those of all fronts together.
    pub request: Option<u64>,
}

// By hand, so that each exit of an owner is proved with one call.
impl Drop for NodeEvent {
    fn drop(self) {
        let NodeEvent {
            position: _,
            end: _,
            action: _,
            sent: _,
            is_last: _,
            request: _,
        } = self;
    }
}

impl NodeEvent {
    /// Whether a message came.
    pub fn is_received(&self) -> bool {
        matches!(&self.action, Action::Receive(_))
    }
}

/// What a line tells of a request that a worker has finished.
#[derive(Debug)]
pub struct Finished {
    pub position: Position,
    /// The end of the connection that the request came on.
    pub end: End,
    pub request: u64,
    pub moment: Moment,
    /// Its place in the book; none where the book was not asked.
    pub place: Option<u64>,
    pub is_new: bool,
    pub answer: Option<Message>,
    /// Whether the answer was sent.
    pub was_posted: bool,
    /// How many requests were told before this line.
    pub requests_before: u64,
}

// By hand, so that each exit of an owner is proved with one call.
impl Drop for Finished {
    fn drop(self) {
        let Finished {
            position: _,
            end: _,
            request: _,
            moment: _,
            place: _,
            is_new: _,
            answer: _,
            was_posted: _,
            requests_before: _,
        } = self;
    }
}

/// A sweep that has ended so many sessions.
#[derive(Clone, Copy, Debug)]
pub struct Sweep {
    pub position: Position,
    pub moment: Moment,
    pub sessions: u64,
    /// How many requests were told before this line.
    pub requests_before: u64,
}

/// What a line of a record tells, with the messages that were sent for it.
#[derive(Debug, Drop)]
pub enum Entry {
    /// A process begins, for the first time or again.
    Begin {
        position: Position,
        nodes: Vec<NodeNo>,
        is_first: bool,
        moment: Moment,
        /// How many requests were told before this line.
        requests_before: u64,
    },
    /// A node dials or accepts a connection, which both ends call by this label.
    Connection {
        event: NodeEvent,
        label: u64,
    },
    Event(NodeEvent),
    Finished(Finished),
    Sweep(Sweep),
    /// A line of what the book has come to.
    Report {
        position: Position,
        line: Vec<u8>,
    },
}
