//! How many lines the log has of what happens to the connections of a process.

use crate::kind::{KINDS, Kind};
use crate::tell;
use crate::tell::Named;
use dia_base::{Moment, NodeNo};
use farm_base::Site;
use farm_log::{Held, Limiter};
use log::Log;
use std::alloc::{AllocError, Global};

/// How many lines of each kind there are about each node of a site, and about those who have not said who they are.
#[derive(Drop)]
pub struct Limits {
    lines: Limiter,
    nodes: usize,
}

/// The second of a moment.
fn second_of(moment: Moment) -> u64 {
    moment.0 / 1_000
}

impl Limits {
    /// None yet, of a site with so many nodes.
    pub fn new(alloc: Global, nodes: usize) -> Result<Limits, AllocError> {
        let lines = Limiter::new(alloc, KINDS.len(), nodes.saturating_add(1))?;
        Ok(Limits { lines, nodes })
    }

    /// Whether a line of this kind is written at this moment, about this node or about one that has not said who it is.
    pub fn admit(&mut self, kind: Kind, peer: Option<NodeNo>, moment: Moment) -> bool {
        let peer = match peer {
            Some(peer) => (peer.0 as usize).min(self.nodes),
            None => self.nodes,
        };
        self.lines.line(kind.place(), peer, second_of(moment))
    }

    /// Tells how many lines were held back.
    pub fn tell_held<L: Log>(&mut self, log: &L, site: &Site, moment: Moment) {
        for _ in 0..self.lines.counts.len() {
            let Some(held) = self.lines.take_held(second_of(moment)) else {
                return;
            };
            self.tell_one(log, site, held);
        }
    }

    /// Tells it of one kind and one node.
    fn tell_one<L: Log>(&self, log: &L, site: &Site, held: Held) {
        let Some(kind) = KINDS.get(held.kind) else {
            return;
        };
        if held.peer < self.nodes && held.peer < 65_536 {
            let node = NodeNo(held.peer as u32);
            tell::held(log, *kind, Named { site, node }, held.lines);
        } else {
            tell::held_of_strangers(log, *kind, held.lines);
        }
    }
}
