//! Connections that end: one end goes after another, and nodes learn it.

ghost use Rattle.std.specs.Prelude.{◌≡◌, List, IfOk, OnOk, OnErr};
ghost use Rattle.farm_model.specs.FarmStep.{Outcome, Cuts, DropsIt, Restarts, after_crash_at};
ghost use Rattle.farm_model.specs.Loss.{LossAt, LearnsLoss, EndGoes, DropAll, end_with, peers_of};
ghost use Rattle.farm_model.specs.Run.{TellsSame};
ghost use Rattle.farm_model.specs.World.{front_at};

use crate::directions::{knows, lose_all, place_between, post, remove_end, remove_ends};
use crate::fronts::{self, place_of_front};
use crate::nodes::{is_front, is_relay};
use crate::world::World;
use crate::{events, relays};
use dia_avp::Wire;
use dia_base::{ConnId, NodeNo};
use farm_model::{Direction, Site};
use std::alloc::{AllocError, Global};
use std::marker::Model;

/// A node is to learn that a connection of it has ended.
#[derive(Debug, Drop)]
struct Loss {
    pub node: NodeNo,
    pub conn: ConnId,
}

impl Model for Loss {
    ghost use Rattle.farm_model.specs.Loss.{Loss as FarmLoss};

    ghost Value = { FarmLoss };

    ghost view = { λ l. record { node = l.node; conn = l.conn } };
}

/// Whom a node has connections with that they have not dropped, the connection that was made first first.
fn peers_of(
    alloc: Global,
    directions: &[Direction],
    node: NodeNo,
) -> Result<Vec<NodeNo>, AllocError>
    ensures { IfOk result (λ peers. peers.items ≡ peers_of node directions.now) }
{
    let mut peers = Vec::new(alloc);
    for direction in directions {
        if direction.from == node {
            peers.push(direction.to)?;
        }
    }
    Ok(peers)
}

impl World {
    /// A node learns that a connection of it has ended. A front forgets the connection, and keeps in its
    /// queue and with its workers what came on it; a relay sends again what it had sent on it, or tells
    /// the asker why not; a client does nothing. After an error nothing is known of the node, nor of what
    /// is in flight.
    fn learn_loss<W: Wire>(&mut self, alloc: Global, loss: &Loss) -> Result<(), AllocError>
        ensures ok { OnOk result (LearnsLoss self.old loss.now (front_at loss.now.node self.old.fronts) self.new) }
        ensures same { TellsSame self.old self.new }
    {
        let Some(place) = place_of_front(&self.fronts, loss.node) else {
            let out = relays::conn_lost::<W>(alloc, &mut self.relays, loss.node, loss.conn)?;
            return post(&mut self.directions, loss.node, out);
        };
        let out = events::lose::<_, W>(&mut self.fronts[place].front, alloc, loss.conn)?;
        post(&mut self.directions, loss.node, out)
    }

    /// A node gives up its end of what it has with another one, if there is one. What is in flight to it is
    /// gone, and what it sent before is not. Where it knew the connection, it learns that it has ended.
    pub(crate) fn drop_end<W: Wire>(
        &mut self,
        alloc: Global,
        a: NodeNo,
        b: NodeNo,
    ) -> Result<bool, AllocError>
        ensures ok { IfOk result (λ applied. (known : List LossAt) × DropsIt self.old a (end_with self.old.directions a b) applied known self.new) }
        ensures same { TellsSame self.old self.new }
    {
        let Some(place) = place_between(&self.directions, b, a) else {
            return Ok(false);
        };
        let direction = &self.directions[place];
        let (conn, known) = (direction.conn, direction.known);
        remove_end(&mut self.directions, a, conn);
        if known {
            self.learn_loss::<W>(alloc, &Loss { node: a, conn })?;
        }
        Ok(true)
    }

    /// The connection between two nodes ends, with all that is in flight on it. First the one drops it,
    /// then the other.
    pub(crate) fn cut<W: Wire>(
        &mut self,
        alloc: Global,
        a: NodeNo,
        b: NodeNo,
    ) -> Result<bool, AllocError>
        ensures ok { IfOk result (λ applied. (known : List LossAt) × Cuts self.old a b applied known self.new) }
        ensures err { OnErr result (TellsSame self.old self.new) }
    {
        if !knows(&self.directions, a, b) && !knows(&self.directions, b, a) {
            return Ok(false);
        }
        lose_all(alloc, &mut self.directions, a, b);
        self.drop_end::<W>(alloc, a, b)?;
        self.drop_end::<W>(alloc, b, a)?;
        Ok(true)
    }

    /// A relay or a front forgets everything. Its peers know nothing of it yet.
    pub(crate) fn crash(&mut self, site: &Site, node: NodeNo) -> bool
        ensures applied { Outcome (after_crash_at site.now self.old node) result self.old self.new }
        ensures same { TellsSame self.old self.new }
    {
        if !is_relay(site, node) && !is_front(site, node) {
            return false;
        }
        remove_ends(&mut self.directions, node);
        fronts::restart(&mut self.fronts, node);
        relays::restart(&mut self.relays, node);
        true
    }

    /// One peer after the other drops its connection with the node.
    fn drop_all<W: Wire>(
        &mut self,
        alloc: Global,
        node: NodeNo,
        peers: &[NodeNo],
    ) -> Result<(), AllocError>
        ensures ok { OnOk result ((known : List LossAt) × DropAll node peers.now self.old known self.new) }
        ensures same { TellsSame self.old self.new }
    {
        for peer in peers {
            self.drop_end::<W>(alloc, *peer, node)?;
        }
        Ok(())
    }

    /// A relay or a front begins anew, and its peers drop their connections with it.
    pub(crate) fn restart<W: Wire>(
        &mut self,
        alloc: Global,
        site: &Site,
        node: NodeNo,
    ) -> Result<bool, AllocError>
        ensures ok { IfOk result (λ applied. (known : List LossAt) × Restarts site.now self.old node applied known self.new) }
        ensures err { OnErr result (TellsSame self.old self.new) }
    {
        let peers = peers_of(alloc, &self.directions, node)?;
        if !self.crash(site, node) {
            return Ok(false);
        }
        self.drop_all::<W>(alloc, node, &peers)?;
        Ok(true)
    }
}
