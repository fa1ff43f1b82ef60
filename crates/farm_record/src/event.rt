//! What happened at a process.

use dia_base::{ConnId, Moment, NodeNo};
use dia_message::Message;

/// Whether a request was new to the book.
#[derive(Clone, Copy, PartialEq, Eq)]
pub enum Age {
    New,
    /// It has the place of the first with its key.
    Kept,
}

/// What a line of a record tells. Connections have the numbers that their process gives them.
#[derive(Drop)]
pub enum Event {
    /// A process begins, which is these nodes of the site, at this moment.
    Begin {
        nodes: Vec<NodeNo>,
        moment: Moment,
    },
    /// What follows happened at this moment.
    Time {
        moment: Moment,
    },
    /// A node opens a connection. `label` is what both ends call it: the port of the node that opens it.
    Dial {
        conn: ConnId,
        node: NodeNo,
        peer: NodeNo,
        label: u64,
    },
    /// A node has accepted a connection and knows the node at the other end.
    Accept {
        conn: ConnId,
        node: NodeNo,
        peer: NodeNo,
        label: u64,
    },
    /// The connection that a node opens is made.
    Opened {
        conn: ConnId,
    },
    /// A message came.
    Deliver {
        conn: ConnId,
        message: Message,
    },
    /// A client sends a message.
    Send {
        conn: ConnId,
        message: Message,
    },
    /// A relay or a front sends a message, for the event before.
    Out {
        conn: ConnId,
        message: Message,
    },
    /// A connection has ended, or is given up that was never made.
    Drop {
        conn: ConnId,
    },
    /// A front's job, by its number, was charged at this moment, and has this place in the book. The answer was sent if its
    /// connection was still there; there is none where memory was missing.
    Charge {
        front: NodeNo,
        job: u64,
        moment: Moment,
        place: u64,
        age: Age,
        answer: Option<Message>,
    },
    /// A front's job was answered without the book.
    Refuse {
        front: NodeNo,
        job: u64,
        answer: Option<Message>,
    },
    /// A sweep at this moment has ended so many sessions.
    Sweep {
        moment: Moment,
        sessions: u64,
    },
    /// A line of the book's report at the end of the process.
    Report {
        line: Vec<u8>,
    },
    /// The process has ended in good order.
    End,
    /// The record could not be written any further.
    Lost,
}
