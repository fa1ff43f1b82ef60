//! What is known of the process that writes a record, as far as it was read.

use crate::entry::End;
use dia_base::{ConnId, NodeNo};
use std::alloc::{AllocError, Global};

/// A connection that stands, by the number that its process gives it.
#[derive(Clone, Copy, Debug)]
pub struct Standing {
    pub number: ConnId,
    pub end: End,
    /// Whether its node dialled it.
    pub is_dialled: bool,
    /// Whether its node knows that it is made.
    pub is_up: bool,
}

/// A request that is with the workers of a front: its number there, and its number among all.
#[derive(Clone, Copy)]
pub struct Job {
    pub front: NodeNo,
    pub number: u64,
    pub request: u64,
    pub end: End,
}

/// How many requests a front has handed to its workers.
#[derive(Clone, Copy)]
struct JobCount {
    front: NodeNo,
    count: u64,
}

/// The process that writes a record.
pub struct Process {
    /// Its nodes; none before it has begun.
    nodes: Vec<NodeNo>,
    standing: Vec<Standing>,
    /// The requests of which no line tells yet what became of them.
    jobs: Vec<Job>,
    counts: Vec<JobCount>,
}

// By hand, so that each exit of an owner is proved with one call.
impl Drop for Process {
    fn drop(self) {
        let Process {
            nodes: _,
            standing: _,
            jobs: _,
            counts: _,
        } = self;
    }
}

impl Process {
    /// A process that has not begun.
    pub fn new(alloc: Global) -> Self {
        Process {
            nodes: Vec::new(alloc),
            standing: Vec::new(alloc),
            jobs: Vec::new(alloc),
            counts: Vec::new(alloc),
        }
    }

    pub fn nodes(&self) -> &[NodeNo] {
        &self.nodes
    }

    /// The process begins, for the first time or again: it has no connection and no request.
    pub fn begin(&mut self) {
        self.standing.clear();
        self.jobs.clear();
        self.counts.clear();
    }

    /// The process is this node too.
    pub fn add_node(&mut self, node: NodeNo) -> Result<(), AllocError> {
        self.nodes.push(node)?;
        Ok(())
    }

    /// A connection that stands.
    pub fn standing(&self, number: ConnId) -> Option<&Standing> {
        self.standing
            .iter()
            .find(|standing| standing.number == number)
    }

    /// A connection stands from now on.
    pub fn connect(&mut self, standing: Standing) -> Result<(), AllocError> {
        self.standing.push(standing)?;
        Ok(())
    }

    /// A node knows that its connection is made.
    pub fn set_up(&mut self, number: ConnId) {
        let standing = self
            .standing
            .iter_mut()
            .find(|standing| standing.number == number);
        if let Some(standing) = standing {
            standing.is_up = true;
        }
    }

    /// A connection stands no longer.
    pub fn disconnect(&mut self, number: ConnId) {
        self.standing.retain(|standing| standing.number != number);
    }

    /// Whether a node knows its end of a connection.
    pub fn is_up(&self, end: End) -> bool {
        self.standing
            .iter()
            .any(|standing| standing.end.conn == end.conn && standing.is_up)
    }

    /// A request is with the workers of the front at this end from now on.
    pub fn add_job(&mut self, end: End, request: u64) -> Result<(), AllocError> {
        let number = self.next_number(end.node)?;
        self.jobs.push(Job {
            front: end.node,
            number,
            request,
            end,
        })?;
        Ok(())
    }

    /// The number that the next job of a front has. They count from 1.
    fn next_number(&mut self, front: NodeNo) -> Result<u64, AllocError> {
        for known in self.counts.iter_mut() {
            if known.front == front {
                known.count = known.count.saturating_add(1);
                return Ok(known.count);
            }
        }
        self.counts.push(JobCount { front, count: 1 })?;
        Ok(1)
    }

    /// Takes out a front's job, of which a line tells what became of it.
    pub fn take_job(&mut self, front: NodeNo, number: u64) -> Option<Job> {
        let place = self
            .jobs
            .iter()
            .position(|job| job.front == front && job.number == number)?;
        if place >= self.jobs.len() {
            return None;
        }
        Some(self.jobs.remove(place))
    }
}
