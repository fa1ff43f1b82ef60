//! Connections, as records tell of their ends, and as they stand in the farm that plays.

use dia_base::NodeNo;
use dia_message::Message;
use farm_base::Link;
use record_reader::End;
use std::alloc::{AllocError, Global};
use std::collections::VecDeque;

/// The node at the other end of a link, if this one is at one end.
pub fn linked_with(link: &Link, node: NodeNo) -> Option<NodeNo> {
    if link.from == node {
        Some(link.to)
    } else if link.to == node {
        Some(link.from)
    } else {
        None
    }
}

/// An end of a connection, as the record of its node tells of it.
#[derive(Drop)]
struct Told {
    node: NodeNo,
    peer: NodeNo,
    /// What both ends call the connection.
    label: u64,
    was_dialled: bool,
    /// Whether an `accept` was played that is of it, or that is of a later one with its label.
    is_accepted: bool,
    /// Whether it was lost or given up.
    is_gone: bool,
    /// A front has lost it and did not drop it yet, since requests wait that came on it.
    is_closing: bool,
    /// The client at the other end, which has no record, has sent what arrives next.
    was_sent: bool,
    /// What a front has sent on it and nobody has received.
    answers: VecDeque<Message>,
}

impl Told {
    /// Whether it is a dial of these nodes under this label that an `accept` may be of.
    fn is_open_dial(&self, opener: NodeNo, acceptor: NodeNo, label: u64) -> bool {
        self.was_dialled
            && !self.is_accepted
            && self.node == opener
            && self.peer == acceptor
            && self.label == label
    }
}

/// The dials of one node with another under one label that an `accept` may be of.
#[derive(Clone, Copy)]
pub struct OpenDials {
    /// The first one.
    pub first: usize,
    /// Whether the last one was not given up.
    pub is_awaited: bool,
}

/// A connection that stands in the farm that plays, with its ends by their places among all.
#[derive(Clone, Copy)]
struct Established {
    opener: NodeNo,
    acceptor: NodeNo,
    /// The end of the node that has opened it, once that knows it; none of a client without a record.
    opened: Option<usize>,
    accepted: Option<usize>,
    label: u64,
    /// The dial that was accepted, as far as is known; none of a client without a record.
    dial: Option<usize>,
}

impl Established {
    fn joins(&self, a: NodeNo, b: NodeNo) -> bool {
        self.opener == a && self.acceptor == b || self.opener == b && self.acceptor == a
    }

    fn end_of(&self, node: NodeNo) -> Option<usize> {
        if self.opener == node {
            self.opened
        } else {
            self.accepted
        }
    }
}

/// All ends of connections that the records tell of, and the connections that stand.
pub struct Connections {
    alloc: Global,
    told: Vec<Told>,
    established: Vec<Established>,
}

// By hand, so that each exit of an owner is proved with one call.
impl Drop for Connections {
    fn drop(self) {
        let Connections {
            alloc: _,
            told: _,
            established: _,
        } = self;
    }
}

impl Connections {
    pub fn new(alloc: Global) -> Self {
        Connections {
            alloc,
            told: Vec::new(alloc),
            established: Vec::new(alloc),
        }
    }

    /// An end more, which has the next place.
    pub fn add(&mut self, end: End, label: u64) -> Result<(), AllocError> {
        self.told.push(Told {
            node: end.node,
            peer: end.peer,
            label,
            was_dialled: false,
            is_accepted: false,
            is_gone: false,
            is_closing: false,
            was_sent: false,
            answers: VecDeque::new(self.alloc),
        })?;
        Ok(())
    }

    /// How many ends were told.
    pub fn ends(&self) -> usize {
        self.told.len()
    }

    fn label(&self, conn: usize) -> u64 {
        self.told.get(conn).map_or(0, |told| told.label)
    }

    // ---- dials

    pub fn dial(&mut self, conn: usize) {
        if let Some(told) = self.told.get_mut(conn) {
            told.was_dialled = true;
        }
    }

    /// The dials that the `accept` at this end may be of: those under its label; none where each was accepted.
    pub fn open_dials(&self, end: End) -> Option<OpenDials> {
        let (opener, acceptor, label) = (end.peer, end.node, self.label(end.conn));
        let first = self
            .told
            .iter()
            .position(|told| told.is_open_dial(opener, acceptor, label))?;
        let is_awaited = self.told.iter().any(|told| told.is_open_dial(opener, acceptor, label)
            && !told.is_gone);
        Some(OpenDials { first, is_awaited })
    }

    pub fn is_accepted(&self, conn: usize) -> bool {
        self.told.get(conn).map_or(false, |told| told.is_accepted)
    }

    /// An `accept` was of this dial.
    fn accept(&mut self, conn: usize) {
        if let Some(told) = self.told.get_mut(conn) {
            told.is_accepted = true;
        }
    }

    // ---- ends that are lost

    pub fn is_gone(&self, conn: usize) -> bool {
        self.told.get(conn).map_or(false, |told| told.is_gone)
    }

    /// An end was lost or given up.
    pub fn lose(&mut self, conn: usize) {
        if let Some(told) = self.told.get_mut(conn) {
            told.is_gone = true;
        }
    }

    /// All that a node has dialled is lost.
    pub fn lose_dials_of(&mut self, node: NodeNo) {
        for told in self.told.iter_mut() {
            if told.node == node && told.was_dialled {
                told.is_gone = true;
            }
        }
    }

    /// A node has lost all its connections.
    pub fn lose_all_of(&mut self, node: NodeNo) {
        for told in self.told.iter_mut() {
            if told.node == node {
                told.is_gone = true;
                told.is_closing = false;
            }
        }
    }

    /// Whether a front has lost it and did not drop it yet.
    pub fn is_closing(&self, conn: usize) -> bool {
        self.told.get(conn).map_or(false, |told| told.is_closing)
    }

    pub fn set_closing(&mut self, conn: usize, is_closing: bool) {
        if let Some(told) = self.told.get_mut(conn) {
            told.is_closing = is_closing;
        }
    }

    // ---- messages

    /// Whether the client at the other end, which has no record, has sent what arrives next.
    pub fn was_sent(&self, conn: usize) -> bool {
        self.told.get(conn).map_or(false, |told| told.was_sent)
    }

    pub fn set_sent(&mut self, conn: usize, was_sent: bool) {
        if let Some(told) = self.told.get_mut(conn) {
            told.was_sent = was_sent;
        }
    }

    /// A front has sent an answer.
    pub fn add_answer(&mut self, conn: usize, answer: Message) -> Result<(), AllocError> {
        if let Some(told) = self.told.get_mut(conn) {
            told.answers.push_back(answer)?;
        }
        Ok(())
    }

    /// What a front has sent next on it.
    pub fn next_answer(&self, conn: usize) -> Option<&Message> {
        self.told.get(conn)?.answers.front()
    }

    /// What a front has sent next on it was received.
    pub fn take_answer(&mut self, conn: usize) {
        if let Some(told) = self.told.get_mut(conn) {
            let _received = told.answers.pop_front();
        }
    }

    // ---- connections that stand

    /// The connection that stands between these nodes.
    fn between(&self, a: NodeNo, b: NodeNo) -> Option<&Established> {
        self.established
            .iter()
            .find(|established| established.joins(a, b))
    }

    /// The end of a node of its connection with another one that stands.
    pub fn end_between(&self, node: NodeNo, peer: NodeNo) -> Option<usize> {
        self.between(node, peer)?.end_of(node)
    }

    /// A connection stands from now on, in place of the one before: `accepted` is the end of the node that accepted it, and `dial` that
    /// of the node that opens it, as far as is known; none of a client without a record. After an error none stands.
    pub fn establish(
        &mut self,
        opener: NodeNo,
        acceptor: NodeNo,
        accepted: Option<usize>,
        dial: Option<usize>,
    ) -> Result<(), AllocError> {
        if let Some(dial) = dial {
            self.accept(dial);
        }
        let label = accepted.or(dial).map_or(0, |conn| self.label(conn));
        self.established.retain(|old| !old.joins(opener, acceptor));
        self.established.push(Established {
            opener,
            acceptor,
            opened: None,
            accepted,
            label,
            dial,
        })?;
        Ok(())
    }

    /// Whether a connection stands under the label of this end, which the node of the end opens and does not know.
    pub fn is_awaited(&self, end: End) -> bool {
        self.awaited(end).is_some()
    }

    fn awaited(&self, end: End) -> Option<usize> {
        let label = self.label(end.conn);
        self.established.iter().position(|established| {
            established.opener == end.node
                && established.acceptor == end.peer
                && established.opened.is_none()
                && established.label == label
        })
    }

    /// The node that opens a connection knows it from now on, by this end. No other dial under its label is accepted any more.
    pub fn open(&mut self, end: End) {
        let label = self.label(end.conn);
        if let Some(place) = self.awaited(end) {
            if let Some(established) = self.established.get_mut(place) {
                established.opened = Some(end.conn);
            }
        }
        for told in self.told.iter_mut() {
            if told.is_open_dial(end.node, end.peer, label) {
                told.is_accepted = true;
            }
        }
    }

    /// Whether the connection that stands under the label of this end, which its node accepts, may be of a dial that the other one has given
    /// up, while that one waits for a later dial to be accepted.
    pub fn is_given_up(&self, end: End) -> bool {
        let Some(established) = self.between(end.peer, end.node) else {
            return false;
        };
        established.opened.is_none()
            && established.opener == end.peer
            && established.label == self.label(end.conn)
            && established.dial.map_or(false, |dial| self.is_gone(dial))
    }
}
