//! One step of the farm.

ghost use Rattle.std.specs.Prelude.{◌≡◌, List, Some, IfOk, OnOk, OnErr};
ghost use Rattle.farm_model.specs.Arrival.{Arrives};
ghost use Rattle.farm_model.specs.FarmStep.{Outcome, can_connect, after_accept, after_opened, after_up, after_send, flight_at, loss_at, Delivers, after_lost_message, FarmStep, after_sweep_at, after_change_at};
ghost use Rattle.farm_model.specs.Loss.{LossAt};
ghost use Rattle.farm_model.specs.Run.{TellsSame};

use crate::directions::{
    conn_known, empty_direction, is_connected, place_unheard, post, post_one, remove_lost,
    remove_message,
};
use crate::fronts::{self, place_of_front};
use crate::nodes::{is_client, is_linked};
use crate::world::World;
use crate::{events, relays};
use cc_book::{BookRefusal, ChangeRefusal, TermsChange};
use dia_avp::Wire;
use dia_base::{ConnId, Moment, NodeNo};
use dia_message::Message;
use farm_model::{Site, Step};
use std::alloc::{AllocError, Global};

impl World {
    fn can_connect(&self, site: &Site, a: NodeNo, b: NodeNo) -> bool
        ensures { result ≡ can_connect site.now self.now a b }
    {
        is_linked(site, a, b) && !is_connected(&self.directions, a, b)
    }

    /// A new connection. The node that is connected to knows it, and the one that opens it not yet.
    pub(crate) fn accept(
        &mut self,
        alloc: Global,
        site: &Site,
        at: NodeNo,
        from: NodeNo,
    ) -> Result<bool, AllocError>
        ensures ok { IfOk result (λ applied. Outcome (after_accept site.now self.old at from) applied self.old self.new) }
        ensures err { OnErr result (TellsSame self.old self.new) }
    {
        if !self.can_connect(site, from, at) {
            return Ok(false);
        }
        let conn = ConnId(self.ends.len() as u64 + 1);
        self.directions
            .push(empty_direction(alloc, conn, from, at, true))?;
        self.directions
            .push(empty_direction(alloc, conn, at, from, false))?;
        fronts::connect(alloc, &mut self.fronts, at, from, conn)?;
        relays::connect(alloc, &mut self.relays, at, from, conn)?;
        self.ends.push((from, at))?;
        Ok(true)
    }

    /// The node that has opened a connection learns that it is made.
    pub(crate) fn opened(&mut self, alloc: Global, a: NodeNo, b: NodeNo) -> Result<bool, AllocError>
        ensures ok { IfOk result (λ applied. Outcome (after_opened self.old a b) applied self.old self.new) }
        ensures same { TellsSame self.old self.new }
    {
        let Some(place) = place_unheard(&self.directions, b, a) else {
            return Ok(false);
        };
        let direction = &mut self.directions[place];
        direction.known = true;
        let conn = direction.conn;
        fronts::connect(alloc, &mut self.fronts, a, b, conn)?;
        relays::connect(alloc, &mut self.relays, a, b, conn)?;
        Ok(true)
    }

    /// A new connection, which both nodes learn.
    pub(crate) fn up(
        &mut self,
        alloc: Global,
        site: &Site,
        a: NodeNo,
        b: NodeNo,
    ) -> Result<bool, AllocError>
        ensures ok { IfOk result (λ applied. Outcome (after_up site.now self.old a b) applied self.old self.new) }
        ensures err { OnErr result (TellsSame self.old self.new) }
    {
        if !self.accept(alloc, site, b, a)? {
            return Ok(false);
        }
        let opened = self.opened(alloc, a, b);
        if opened.is_err() {
            self.ends.pop();
        }
        opened
    }

    /// A client sends a message on the connection that it knows. Where the other node has dropped it, the
    /// message is lost.
    pub(crate) fn send(
        &mut self,
        site: &Site,
        client: NodeNo,
        to: NodeNo,
        message: &Message,
    ) -> Result<bool, AllocError>
        ensures ok { IfOk result (λ applied. Outcome (after_send site.now self.old client to message.now) applied self.old self.new) }
        ensures err { OnErr result (TellsSame self.old self.new) }
    {
        if !is_client(site, client) {
            return Ok(false);
        }
        let Some(conn) = conn_known(&self.directions, client, to) else {
            return Ok(false);
        };
        post_one(&mut self.directions, client, conn, message.clone()?)?;
        self.sent.push((conn, message.clone()?))?;
        Ok(true)
    }

    /// A message comes to a node. A client has received it then; what a relay or a front sends for it is
    /// in flight.
    fn arrive<W: Wire>(
        &mut self,
        alloc: Global,
        site: &Site,
        node: NodeNo,
        conn: ConnId,
        message: Message,
    ) -> Result<(), AllocError>
        ensures ok { OnOk result (Arrives site.now self.old node conn message self.new) }
        ensures err { OnErr result (TellsSame self.old self.new) }
    {
        if is_client(site, node) {
            self.received.push((conn, message))?;
            return Ok(());
        }
        let Some(place) = place_of_front(&self.fronts, node) else {
            let out = relays::receive::<W>(alloc, &mut self.relays, node, conn, message)?;
            return post(&mut self.directions, node, out);
        };
        let front = &mut self.fronts[place].front;
        let out = events::receive::<_, W>(front, alloc, conn, message)?;
        post(&mut self.directions, node, out)
    }

    /// A message in flight arrives at a node that knows the connection.
    pub(crate) fn deliver<W: Wire>(
        &mut self,
        alloc: Global,
        site: &Site,
        from: NodeNo,
        to: NodeNo,
        place: u64,
    ) -> Result<bool, AllocError>
        ensures ok { IfOk result (λ applied. Delivers site.now self.old to (flight_at self.old.directions from to place) applied self.new) }
        ensures err { OnErr result (TellsSame self.old self.new) }
    {
        let Some((conn, message)) = remove_message(&mut self.directions, from, to, place) else {
            return Ok(false);
        };
        self.arrive::<W>(alloc, site, to, conn, message)?;
        Ok(true)
    }

    /// A message in flight is lost.
    pub(crate) fn lose(&mut self, from: NodeNo, to: NodeNo, place: u64) -> bool
        ensures { Outcome (after_lost_message self.old (loss_at self.old.directions from to place)) result self.old self.new }
    {
        remove_lost(&mut self.directions, from, to, place).is_some()
    }

    /// The book ends the sessions that are due. Where it has no room for an entry, nothing changes.
    pub(crate) fn sweep(&mut self, moment: Moment) -> Result<bool, AllocError>
        ensures ok { IfOk result (λ applied. Outcome (Some (after_sweep_at self.old moment)) applied self.old self.new) }
        ensures err { OnErr result (TellsSame self.old self.new) }
    {
        match self.book.sweep(moment) {
            Ok(_) | Err(BookRefusal::Full { .. }) => Ok(true),
            Err(BookRefusal::OutOfMemory) => Err(AllocError),
        }
    }

    /// The terms of the book change. Where the book refuses the change, nothing changes.
    pub(crate) fn change_terms(
        &mut self,
        alloc: Global,
        moment: Moment,
        change: &TermsChange,
    ) -> Result<bool, AllocError>
        ensures ok { IfOk result (λ applied. Outcome (Some (after_change_at self.old moment change.now)) applied self.old self.new) }
        ensures err { OnErr result (TellsSame self.old self.new) }
    {
        match self.book.change_terms(alloc, moment, change.copy(alloc)?) {
            Ok(_)
            | Err(
                ChangeRefusal::Nothing
                | ChangeRefusal::AlreadyThere { .. }
                | ChangeRefusal::Twice { .. }
                | ChangeRefusal::NotThere { .. }
                | ChangeRefusal::ClosedAlready { .. }
                | ChangeRefusal::ClosedTwice { .. }
                | ChangeRefusal::NotClosed { .. }
                | ChangeRefusal::ReopenedTwice { .. }
                | ChangeRefusal::Full { .. },
            ) => Ok(true),
            Err(ChangeRefusal::OutOfMemory) => Err(AllocError),
        }
    }

    /// One step. The answer is whether it applied; where not, nothing has changed. After an error, which is
    /// want of memory, what clients sent and received, the book and the ends of connections are as they
    /// were, and nothing is known of the rest.
    pub fn step<W: Wire>(
        &mut self,
        alloc: Global,
        site: &Site,
        step: &Step,
    ) -> Result<bool, AllocError>
        ensures ok { IfOk result (λ applied. (losses : List LossAt) × FarmStep site.now self.old step.now applied losses self.new) }
        ensures err { OnErr result (TellsSame self.old self.new) }
    {
        match step {
            Step::Up { a, b } => self.up(alloc, site, *a, *b),
            Step::Accept { at, from } => self.accept(alloc, site, *at, *from),
            Step::Opened { a, b } => self.opened(alloc, *a, *b),
            Step::Send {
                client,
                to,
                message,
            } => self.send(site, *client, *to, message),
            Step::Deliver { from, to, place } => self.deliver::<W>(alloc, site, *from, *to, *place),
            Step::Lose { from, to, place } => Ok(self.lose(*from, *to, *place)),
            Step::Cut { a, b } => self.cut::<W>(alloc, *a, *b),
            Step::Drop { a, b } => self.drop_end::<W>(alloc, *a, *b),
            Step::Restart { node } => self.restart::<W>(alloc, site, *node),
            Step::Crash { node } => Ok(self.crash(site, *node)),
            Step::Pick { front, worker } => Ok(self.pick(*front, *worker)),
            Step::Charge {
                front,
                worker,
                moment,
            } => self.charge::<W>(alloc, *front, *worker, *moment),
            Step::Refuse { front, worker } => self.refuse::<W>(alloc, *front, *worker),
            Step::Emit { front, worker } => self.emit(alloc, *front, *worker),
            Step::Sweep { moment } => self.sweep(*moment),
            Step::ChangeTerms { moment, change } => self.change_terms(alloc, *moment, change),
        }
    }
}
