//! How many requests a connection may have open of the room of its node, where the site asks for fairness: what one client sends is not to
//! be charged to the others.

ghost use Rattle.std.specs.Prelude.{◌≡◌, ◌≤◌, ◌*◌};
ghost use Rattle.farm_event_loop.specs.Sharing.{links_of, room_left, room_of, share_at, share_of};

use crate::pause::Traffic;
use dia_base::{NodeKind, NodeNo, PENDING_LIMIT};
use farm_base::{Node, Site};
use std::alloc::{AllocError, Global};

/// The share of each connection of a node that has so many links: its room by them, and one request at least.
#[tactic(auto, using(crate::proofs::Shares::shares_fit))]
pub fn share_of(room: u32, links: usize) -> u64
    ensures share { result ≡ share_of room links }
    ensures fits { links ≤ room → links * result ≤ room }
{
    let each = u64::from(room) / (links as u64).max(1);
    each.max(1)
}

/// How many messages are read at most of a connection that brings this, and on which so many requests wait for answers: what its share
/// leaves. Where it has its share, none, and one if it has waited for too long, so that its neighbour is heard. Who brings answers
/// does not wait.
pub fn room_left(traffic: Traffic, share: Option<u64>, unanswered: u64, is_over: bool) -> usize
    ensures { result ≡ room_left traffic share unanswered is_over }
{
    match (traffic, share) {
        (Traffic::Requests, Some(share)) if unanswered < share => (share - unanswered) as usize,
        (Traffic::Requests, Some(_)) if is_over => 1,
        (Traffic::Requests, Some(_)) => 0,
        (Traffic::Requests | Traffic::Answers | Traffic::Both, _) => usize::MAX,
    }
}

/// The shares of the connections of each node of a site, by its number. None where nobody asks for fairness.
#[derive(Drop)]
pub struct Shares {
    by_node: Vec<u64>,
}

/// How many requests a node has room for: a front in its queue, a relay in its pending table.
fn room_of(site: &Site, node: &Node) -> u32
    ensures { result ≡ room_of site.now node.now.kind }
{
    match node.kind {
        NodeKind::Front => site.queue,
        NodeKind::Relay => PENDING_LIMIT,
        NodeKind::Client => 0,
    }
}

/// How many links of a site a node has.
fn links_of(site: &Site, node: NodeNo) -> usize
    ensures { result ≡ links_of site.now node }
{
    site.links
        .as_slice()
        .iter()
        .filter(|link| link.from.0 == node.0 || link.to.0 == node.0)
        .count()
}

/// The share of each connection of a node of the site.
fn share_at(site: &Site, number: NodeNo, node: &Node) -> u64
    ensures { result ≡ share_at site.now number node.now.kind }
{
    share_of(room_of(site, node), links_of(site, number))
}

impl Shares {
    /// None: a connection may have as many open as it brings.
    pub fn none(alloc: Global) -> Shares {
        Shares {
            by_node: Vec::new(alloc),
        }
    }

    /// Those of the nodes of a site.
    pub fn of(alloc: Global, site: &Site) -> Result<Shares, AllocError> {
        let mut by_node = Vec::new(alloc);
        let mut number: u32 = 0;
        for node in site.nodes.as_slice() {
            by_node.push(share_at(site, NodeNo(number), node))?;
            number = number.saturating_add(1);
        }
        Ok(Shares { by_node })
    }

    /// The share of a connection of this node.
    pub fn share(&self, node: NodeNo) -> Option<u64> {
        self.by_node.get(node.0 as usize).copied()
    }
}
