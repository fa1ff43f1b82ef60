//! Connections begin: which dial an `accept` is of.
//!
//! A label is a port, and a port is given out again: so dials of one node with another may have the same label, one after
//! the other. Each but the last was given up or lost by the node that opens, and each is accepted once at most, in their
//! order. Of one that was given up nobody knows whether it was accepted. So while some of them may be what an `accept` is of,
//! the first one counts as accepted, and the node that opens does not learn of it yet:
//! - either it learns that the last one is made, once nothing else may happen: then that was accepted, and none before it;
//! - or the other node drops it, and accepts one more: then the first one was.

ghost use Rattle.farm_player.specs.Reconciling.{Stays};

use crate::fault::PlayResult;
use crate::links::LinkPlayer;
use record_reader::{Action, End, NodeEvent, Position};
use record_state::{NodeEntry, OpenDials};

impl<'s> LinkPlayer<'s> {
    /// A connection is accepted, of the first of these dials; where there are none, of a client without a record, which learns it at
    /// once. If each of them was given up, it waits until nothing else may happen. Whether it is accepted.
    pub fn accept(
        &mut self,
        position: Position,
        end: End,
        dials: Option<OpenDials>,
    ) -> PlayResult<bool>
        ensures stays { Stays self.old.played self.new.played }
    {
        let Some(dials) = dials else {
            self.establish(position, end, None)?;
            self.played.opened(position, end.peer, end.node)?;
            return Ok(true);
        };
        if dials.is_awaited {
            self.establish(position, end, Some(dials.first))?;
        }
        Ok(dials.is_awaited)
    }

    /// A connection is accepted, of this dial as far as is known.
    fn establish(&mut self, position: Position, end: End, dial: Option<usize>) -> PlayResult<()>
        ensures stays { Stays self.old.played self.new.played }
    {
        let End { conn, node, peer } = end;
        self.played.accept(position, node, peer)?;
        self.connections.establish(peer, node, Some(conn), dial)?;
        Ok(())
    }

    /// A node learns that its connection is made, once the other one has accepted it; a client without a record does so then. Whether
    /// it has.
    pub fn opened(&mut self, position: Position, end: End, is_silent: bool) -> PlayResult<bool>
        ensures stays { Stays self.old.played self.new.played }
    {
        let End { conn, node, peer } = end;
        if is_silent {
            self.played.accept(position, peer, node)?;
            self.connections.establish(node, peer, None, Some(conn))?;
        } else if !self.connections.is_accepted(conn) {
            return Ok(false);
        }
        self.come_up(position, end)
    }

    /// Whether a connection stands under the label of this one, which the other node has accepted, and the node of this one
    /// does not know and has not given up.
    fn is_awaited(&self, end: End) -> bool {
        self.played.farm().has_end(end.node, end.peer) && self.connections.is_awaited(end)
    }

    /// A node learns that its connection is made, if the other one has accepted one under its label. Whether it has.
    fn come_up(&mut self, position: Position, end: End) -> PlayResult<bool>
        ensures stays { Stays self.old.played self.new.played }
    {
        if !self.is_awaited(end) {
            return Ok(false);
        }
        self.connections.open(end);
        self.played.opened(position, end.node, end.peer)?;
        Ok(true)
    }

    /// A node gives up a connection that it has dialled and does not know, whether or not the other one has accepted it.
    pub fn give_up(&mut self, position: Position, end: End) -> PlayResult<()>
        ensures stays { Stays self.old.played self.new.played }
    {
        if self.is_awaited(end) {
            self.played.drop_end(position, end.node, end.peer)?;
        }
        Ok(())
    }

    // ---- where nothing else may happen

    /// The first dial that an entry may be of where nothing else may happen: an `accept`, of dials that were all given up.
    pub fn late_dial(&self, entry: &NodeEntry) -> Option<usize> {
        let end = match entry {
            NodeEntry::Event(event) if matches!(&event.action, Action::Accept) => event.end,
            _ => return None,
        };
        if !self.played.farm().is_free(end.peer, end.node) && !self.was_given_up(end) {
            return None;
        }
        Some(self.connections.open_dials(end)?.first)
    }

    /// Whether the node of this end has dropped the connection that it accepted under its label, which may be of a dial that the other one
    /// has given up, while that one waits for a later dial to be accepted.
    fn was_given_up(&self, end: End) -> bool {
        let farm = self.played.farm();
        farm.has_end(end.peer, end.node)
            && !farm.has_end(end.node, end.peer)
            && self.connections.is_given_up(end)
    }

    /// A connection is accepted that may be of this dial, which was given up. The one before it was, where that still waits.
    pub fn accept_late(&mut self, event: &NodeEvent, dial: usize) -> PlayResult<()>
        ensures stays { Stays self.old.played self.new.played }
    {
        let (position, end) = (event.position, event.end);
        if !self.played.farm().is_free(end.peer, end.node) {
            self.played.drop_end(position, end.peer, end.node)?;
        }
        self.establish(position, end, Some(dial))?;
        let dials = self.connections.open_dials(end);
        let is_awaited = dials.map_or(false, |dials| dials.is_awaited);
        if self.connections.is_gone(dial) && !is_awaited {
            self.played.drop_end(position, end.peer, end.node)?;
        }
        Ok(())
    }

    /// A node learns that its connection is made, though a dial before it may be the one that was accepted. Whether the entry
    /// tells that, and it did.
    pub fn open_late(&mut self, entry: &NodeEntry) -> PlayResult<bool>
        ensures stays { Stays self.old.played self.new.played }
    {
        match entry {
            NodeEntry::Event(event) if matches!(&event.action, Action::Opened) => {
                self.come_up(event.position, event.end)
            }
            _ => Ok(false),
        }
    }
}
