//! The farm that plays, and the steps that the records ask of it.

ghost use Rattle.std.specs.Prelude.{◌≡◌, [], IfOk, IsTrue, OnOk};
ghost use Rattle.farm_base.specs.CheckedSite.{IsChecked};
ghost use Rattle.farm_base.specs.Nodes.{is_front, kind_at};
ghost use Rattle.farm_player.specs.Reconciling.{Agrees, Stays};
ghost use Rattle.record_player.specs.Telling.{told_with};

use crate::fault::{Difference, PlayResult, found};
use dia_base::{Moment, NodeKind, NodeNo};
use dia_message::Message;
use farm_player::{Passed, PlayedFarm, Reconciled};
use farm_world::{Site, Step};
use record_reader::{NodeEvent, Position};
use record_state::{Worker, linked_with};
use std::alloc::{AllocError, Global};
use std::marker::Model;

/// The farm that plays, which changes by the steps below alone, and what is known of its nodes beside it.
///
/// A step is asked for by a line of a record or an entry of the book, whose position goes with it. If it does not apply, that is the
/// fault [`Difference::CannotHappen`] there, and the farm is as it was. After want of memory it should not be played any further.
#[derive(Drop)]
pub struct Played<'s> {
    farm: Reconciled<'s>,
    /// The nodes that have a record.
    recorded: Vec<NodeNo>,
    /// The relays of which the start of their identifiers is known since they began.
    numbered: Vec<NodeNo>,
}

impl<'s> Model for Played<'s> {
    ghost use Rattle.farm_player.specs.Reconciling.{Reconciling};

    ghost Value = { Reconciling };

    ghost view = { λ p. p.farm };
}

impl<'s> Played<'s> {
    ghost use Rattle.std.specs.Prelude.{true};
    ghost use Rattle.farm_base.specs.declared.step.Step.TheVariants.{Accept, Opened, Send, Deliver, Drop};
    ghost use Rattle.farm_base.specs.declared.step.Step.TheVariants.{Pick, Charge, Refuse, Emit, Sweep};
    ghost use Rattle.farm_player.specs.PlayedRun.{PlaysStep};

    /// The farm of a site before its first event. `prints`: whether the lines of its steps are asked for.
    pub fn open(alloc: Global, site: &'s Site, prints: bool) -> Result<Self, AllocError>
        requires { IsChecked site.now }
        ensures told { IfOk result (λ played. played.told ≡ []) }
        ensures site { IfOk result (λ played. played.farm.site ≡ site.now) }
    {
        Ok(Played {
            farm: Reconciled::open(alloc, site, prints)?,
            recorded: Vec::new(alloc),
            numbered: Vec::new(alloc),
        })
    }

    pub fn farm(&self) -> &PlayedFarm<'s>
        ensures { result.now ≡ self.now.farm }
    {
        self.farm.farm()
    }

    /// Whether each relay and each client that has a record has received all that it tells.
    pub fn agrees(&self) -> bool
        ensures { IsTrue result → Agrees self.now }
    {
        self.farm.agrees()
    }

    /// Hands out the lines of the steps since the last time.
    pub fn take_lines(&mut self) -> Vec<u8>
        ensures stays { Stays self.old self.new }
    {
        self.farm.take_lines()
    }

    // ---- nodes

    /// A node has a record, which begins at this position.
    pub fn add_node(&mut self, position: Position, node: NodeNo) -> PlayResult<()>
        ensures stays { Stays self.old self.new }
    {
        self.recorded.push(node)?;
        if self.is_front(node) || self.farm.watch(node) {
            Ok(())
        } else {
            found(position, Difference::CannotHappen)
        }
    }

    /// A record tells that a message passes at a node. At relays and clients that alone does.
    pub fn tell(&mut self, position: Position, passed: Passed, message: &Message) -> PlayResult<()>
        ensures told { OnOk result (self.new.told ≡ told_with self.old.farm.site passed message.now self.old.told) }
        ensures site { self.new.farm.site ≡ self.old.farm.site }
    {
        if self.is_front(passed.node) || self.farm.tell(passed, message)? {
            Ok(())
        } else {
            found(position, Difference::CannotHappen)
        }
    }

    fn kind_at(&self, node: NodeNo) -> Option<NodeKind>
        ensures { result ≡ kind_at self.now.farm.site node }
    {
        let node = self.farm().site().nodes.as_slice().get(node.0 as usize)?;
        Some(node.kind)
    }

    pub fn is_front(&self, node: NodeNo) -> bool
        ensures { result ≡ is_front self.now.farm.site node }
    {
        matches!(self.kind_at(node), Some(NodeKind::Front))
    }

    pub fn is_relay(&self, node: NodeNo) -> bool {
        matches!(self.kind_at(node), Some(NodeKind::Relay))
    }

    /// Whether this is a client without a record. It is a fault if a relay or a front has none.
    pub fn is_silent(&self, position: Position, node: NodeNo) -> PlayResult<bool> {
        if self.recorded.contains(&node) {
            return Ok(false);
        }
        match self.kind_at(node) {
            Some(NodeKind::Relay | NodeKind::Front) => found(position, Difference::NoRecord),
            Some(NodeKind::Client) | None => Ok(true),
        }
    }

    /// The first identifier that a relay gives since it began is its start, which it drew by itself. It is no step.
    pub fn learn_start(&mut self, event: &NodeEvent) -> Result<(), AllocError>
        ensures stays { Stays self.old self.new }
    {
        let node = event.end.node;
        if !self.is_relay(node) || self.numbered.contains(&node) {
            return Ok(());
        }
        for (_, message) in &event.sent {
            if message.header.request {
                self.farm.number_from(node, message.header.hop);
                self.numbered.push(node)?;
                return Ok(());
            }
        }
        Ok(())
    }

    // ---- steps

    fn play(&mut self, position: Position, step: &Step) -> PlayResult<()>
        ensures stays { Stays self.old self.new }
        ensures played { OnOk result (PlaysStep self.old.farm step.now true self.new.farm) }
    {
        if self.farm.play(step)? {
            Ok(())
        } else {
            found(position, Difference::CannotHappen)
        }
    }

    /// A node accepts a connection of another one.
    pub fn accept(&mut self, position: Position, at: NodeNo, from: NodeNo) -> PlayResult<()>
        ensures stays { Stays self.old self.new }
        ensures played { OnOk result (PlaysStep self.old.farm (Accept at from) true self.new.farm) }
    {
        self.play(position, &Step::Accept { at, from })
    }

    /// The first node learns that its connection with the second is made.
    pub fn opened(&mut self, position: Position, a: NodeNo, b: NodeNo) -> PlayResult<()>
        ensures stays { Stays self.old self.new }
        ensures played { OnOk result (PlaysStep self.old.farm (Opened a b) true self.new.farm) }
    {
        self.play(position, &Step::Opened { a, b })
    }

    /// A client sends a message to a node.
    pub fn send(
        &mut self,
        position: Position,
        client: NodeNo,
        to: NodeNo,
        message: &Message,
    ) -> PlayResult<()>
        ensures stays { Stays self.old self.new }
        ensures played { OnOk result (PlaysStep self.old.farm (Send client to message.now) true self.new.farm) }
    {
        let message = message.clone()?;
        let step = Step::Send {
            client,
            to,
            message,
        };
        self.play(position, &step)
    }

    /// The message at this place of those in flight arrives.
    pub fn deliver(
        &mut self,
        position: Position,
        from: NodeNo,
        to: NodeNo,
        place: usize,
    ) -> PlayResult<()>
        ensures stays { Stays self.old self.new }
        ensures played { OnOk result (PlaysStep self.old.farm (Deliver from to place) true self.new.farm) }
    {
        let place = place as u64;
        self.play(position, &Step::Deliver { from, to, place })
    }

    /// The first node drops its end of its connection with the second.
    pub fn drop_end(&mut self, position: Position, a: NodeNo, b: NodeNo) -> PlayResult<()>
        ensures stays { Stays self.old self.new }
        ensures played { OnOk result (PlaysStep self.old.farm (Drop a b) true self.new.farm) }
    {
        self.play(position, &Step::Drop { a, b })
    }

    /// A worker, which is idle, picks the first request of the queue.
    pub fn pick(&mut self, position: Position, worker: Worker) -> PlayResult<()>
        ensures stays { Stays self.old self.new }
        ensures played { OnOk result (PlaysStep self.old.farm (Pick worker.front worker.worker) true self.new.farm) }
    {
        let Worker { front, worker } = worker;
        self.play(position, &Step::Pick { front, worker })
    }

    /// A worker has the request that it holds charged at this moment.
    pub fn charge(&mut self, position: Position, worker: Worker, moment: Moment) -> PlayResult<()>
        ensures stays { Stays self.old self.new }
        ensures played { OnOk result (PlaysStep self.old.farm (Charge worker.front worker.worker moment) true self.new.farm) }
    {
        let Worker { front, worker } = worker;
        let step = Step::Charge {
            front,
            worker,
            moment,
        };
        self.play(position, &step)
    }

    /// A worker answers the request that it holds without the book.
    pub fn refuse(&mut self, position: Position, worker: Worker) -> PlayResult<()>
        ensures stays { Stays self.old self.new }
        ensures played { OnOk result (PlaysStep self.old.farm (Refuse worker.front worker.worker) true self.new.farm) }
    {
        let Worker { front, worker } = worker;
        self.play(position, &Step::Refuse { front, worker })
    }

    /// A worker sends its answer, and is idle.
    pub fn emit(&mut self, position: Position, worker: Worker) -> PlayResult<()>
        ensures stays { Stays self.old self.new }
        ensures played { OnOk result (PlaysStep self.old.farm (Emit worker.front worker.worker) true self.new.farm) }
    {
        let Worker { front, worker } = worker;
        self.play(position, &Step::Emit { front, worker })
    }

    /// The book is swept at this moment.
    pub fn sweep(&mut self, position: Position, moment: Moment) -> PlayResult<()>
        ensures stays { Stays self.old self.new }
        ensures played { OnOk result (PlaysStep self.old.farm (Sweep moment) true self.new.farm) }
    {
        self.play(position, &Step::Sweep { moment })
    }

    /// The terms change by a step that was read.
    pub fn change_terms(&mut self, position: Position, step: &Step) -> PlayResult<()>
        ensures stays { Stays self.old self.new }
        ensures played { OnOk result (PlaysStep self.old.farm step.now true self.new.farm) }
    {
        self.play(position, step)
    }

    // ---- with those of clients without a record

    /// A relay or a front crashes, and the clients without a record drop their connections with it.
    pub fn crash(&mut self, position: Position, node: NodeNo) -> PlayResult<()>
        ensures stays { Stays self.old self.new }
    {
        self.numbered.retain(|known| *known != node);
        self.play(position, &Step::Crash { node })?;
        for link in self.farm().site().links.as_slice() {
            let Some(client) = linked_with(link, node) else {
                continue;
            };
            if self.farm().has_end(client, node) {
                self.drop_silent(position, node, client)?;
            }
        }
        Ok(())
    }

    /// A node drops all its connections.
    pub fn drop_all_of(&mut self, position: Position, node: NodeNo) -> PlayResult<()>
        ensures stays { Stays self.old self.new }
    {
        for _ in 0..self.farm().site().links.as_slice().len() {
            let Some(peer) = self.farm().some_peer(node) else {
                return Ok(());
            };
            self.drop_end(position, node, peer)?;
        }
        Ok(())
    }

    /// A client without a record drops its connection when the other node does.
    pub fn drop_silent(&mut self, position: Position, node: NodeNo, peer: NodeNo) -> PlayResult<()>
        ensures stays { Stays self.old self.new }
    {
        if self.is_silent(position, peer)? {
            self.drop_end(position, peer, node)?;
        }
        Ok(())
    }

    /// A client without a record receives what is in flight to it from this place on.
    pub fn hand_to_silent(
        &mut self,
        position: Position,
        node: NodeNo,
        peer: NodeNo,
        since: usize,
    ) -> PlayResult<()>
        ensures stays { Stays self.old self.new }
    {
        let count = self.farm().flight(node, peer).len().saturating_sub(since);
        if count == 0 || !self.is_silent(position, peer)? {
            return Ok(());
        }
        for _ in 0..count {
            self.deliver(position, node, peer, since)?;
        }
        Ok(())
    }
}
