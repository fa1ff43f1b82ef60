//! Connections that fronts have lost. A front drops one once all requests are charged that came on it, or before its nodes connect again.

ghost use Rattle.farm_player.specs.Reconciling.{Stays};

use crate::fault::PlayResult;
use crate::player::Player;
use dia_base::NodeNo;
use record_reader::{End, Position};

impl<'s> Player<'s> {
    /// A front drops a connection that it has lost once all requests are charged that came on it.
    pub(super) fn drop_if_done(&mut self, position: Position, end: End) -> PlayResult<()>
        ensures stays { Stays self.old.links.played self.new.links.played }
    {
        if self.links.connections.is_closing(end.conn) && !self.fronts.has_requests_on(end.conn) {
            self.drop_here(position, end)?;
        }
        Ok(())
    }

    /// A front drops a connection that it has lost.
    fn drop_here(&mut self, position: Position, end: End) -> PlayResult<()>
        ensures stays { Stays self.old.links.played self.new.links.played }
    {
        let End { conn, node, peer } = end;
        self.links.connections.set_closing(conn, false);
        self.links.played.drop_end(position, node, peer)?;
        self.links.played.drop_silent(position, node, peer)
    }

    /// Whether the nodes of a connection, which is to stand with this end and that of the other node, have no other one any more. A front
    /// that has lost one drops it then.
    pub(super) fn make_free(
        &mut self,
        position: Position,
        end: End,
        other: usize,
    ) -> PlayResult<bool>
        ensures stays { Stays self.old.links.played self.new.links.played }
    {
        self.close(position, end.peer, end.node, other)?;
        self.close(position, end.node, end.peer, end.conn)?;
        Ok(self.farm().is_free(end.peer, end.node))
    }

    /// A front that has lost its connection, as the node at the other end has too, drops it, since they connect again, with this end.
    /// Requests that came on it are charged before, if lines above tell so; the others are handed over, if there is room for them.
    fn close(
        &mut self,
        position: Position,
        node: NodeNo,
        peer: NodeNo,
        next: usize,
    ) -> PlayResult<()>
        ensures stays { Stays self.old.links.played self.new.links.played }
    {
        let Some(conn) = self.links.connections.end_between(node, peer) else {
            return Ok(());
        };
        if !self.links.connections.is_closing(conn)
            || (self.farm().has_end(peer, node) && !self.links.played.is_silent(position, peer)?)
            || self.waits_for_told(conn, next)?
        {
            return Ok(());
        }
        if let Some(last) = self.fronts.last_arrived_on(conn) {
            if self.lacks_lines(node, last) || !self.fronts.has_room(node, last)? {
                return Ok(());
            }
            let count = self.fronts.arrived_up_to(node, last);
            self.hand_over_some(position, node, last, count)?;
        }
        self.drop_here(position, End { conn, node, peer })
    }

    /// Whether requests wait that came on a lost connection, and of which lines tell above that of the next one, with this end; or the
    /// last is charged, and the connection dropped. Those are charged now that the book has already, or that are answered without it.
    fn waits_for_told(&mut self, conn: usize, next: usize) -> PlayResult<bool>
        ensures stays { Stays self.old.links.played self.new.links.played }
    {
        for _ in 0..self.book.repeats() {
            if !self.charge_repeat_of(Some((conn, next)))? {
                break;
            }
        }
        Ok(!self.links.connections.is_closing(conn) || self.fronts.has_told_above(conn, next))
    }
}
