//! The entries that were read and are not played yet, of each node in the order of its record.

use dia_base::{Moment, NodeNo};
use record_reader::{NodeEvent, Position, Source};
use std::alloc::{AllocError, Global};
use std::collections::VecDeque;

/// The process of a node begins, for the first time or again.
#[derive(Clone, Copy)]
pub struct Beginning {
    pub position: Position,
    pub node: NodeNo,
    pub is_first: bool,
    pub moment: Moment,
    /// How many requests were told before.
    pub requests_before: u64,
}

/// An entry of a node.
#[derive(Drop)]
pub enum NodeEntry {
    Begin(Beginning),
    Event(NodeEvent),
}

impl NodeEntry {
    pub fn position(&self) -> Position {
        match self {
            NodeEntry::Begin(beginning) => beginning.position,
            NodeEntry::Event(event) => event.position,
        }
    }

    /// The node at the other end of its connection.
    fn peer(&self) -> Option<NodeNo> {
        match self {
            NodeEntry::Begin(_) => None,
            NodeEntry::Event(event) => Some(event.end.peer),
        }
    }
}

/// The entries of a node.
#[derive(Drop)]
struct Queue {
    source: Source,
    node: NodeNo,
    entries: VecDeque<NodeEntry>,
}

/// The entries of all nodes. What the nodes of one process do is in no order of its own, so each node has a queue.
pub struct Queues {
    alloc: Global,
    queues: Vec<Queue>,
}

// By hand, so that each exit of an owner is proved with one call.
impl Drop for Queues {
    fn drop(self) {
        let Queues {
            alloc: _,
            queues: _,
        } = self;
    }
}

impl Queues {
    pub fn new(alloc: Global) -> Self {
        Queues {
            alloc,
            queues: Vec::new(alloc),
        }
    }

    /// How many nodes have a queue.
    pub fn len(&self) -> usize {
        self.queues.len()
    }

    /// A node more, which this record is of.
    pub fn add(&mut self, source: Source, node: NodeNo) -> Result<(), AllocError> {
        let entries = VecDeque::new(self.alloc);
        self.queues.push(Queue {
            source,
            node,
            entries,
        })?;
        Ok(())
    }

    /// Puts an entry behind the others of a node.
    pub fn push(&mut self, node: NodeNo, entry: NodeEntry) -> Result<(), AllocError> {
        let queue = self.queues.iter_mut().find(|queue| queue.node == node);
        if let Some(queue) = queue {
            queue.entries.push_back(entry)?;
        }
        Ok(())
    }

    /// The record that a queue is read from.
    pub fn record_of(&self, place: usize) -> Option<usize> {
        match self.queues.get(place)?.source {
            Source::Record(record) => Some(record),
            Source::Book => None,
        }
    }

    /// Whether entries of a record are left.
    pub fn has_entries_of(&self, record: usize) -> bool {
        self.queues.iter().any(|queue| queue.source == Source::Record(record)
            && !queue.entries.is_empty())
    }

    /// The next entry of a queue.
    pub fn head(&self, place: usize) -> Option<&NodeEntry> {
        self.queues.get(place)?.entries.front()
    }

    /// The next entry of a queue was played.
    pub fn advance(&mut self, place: usize) {
        if let Some(queue) = self.queues.get_mut(place) {
            let _played = queue.entries.pop_front();
        }
    }

    /// The next entry of the node that the node of this one may wait for.
    fn waited_for(&self, entry: &NodeEntry) -> Option<&NodeEntry> {
        let peer = entry.peer()?;
        self.queues
            .iter()
            .find(|queue| queue.node == peer)?
            .entries
            .front()
    }

    /// From the first node that waits to the one that it waits for, and so on: where the entry stands that the last one waits to
    /// play.
    pub fn first_that_waits(&self) -> Option<Position> {
        let waiting = self
            .queues
            .iter()
            .filter(|queue| !queue.entries.is_empty())
            .count();
        let mut head = self.queues.iter().find_map(|queue| queue.entries.front())?;
        for _ in 0..waiting {
            match self.waited_for(head) {
                Some(next) => head = next,
                None => return Some(head.position()),
            }
        }
        Some(head.position())
    }
}
