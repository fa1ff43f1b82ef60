//! What the farm consists of between two steps.

ghost use Rattle.std.specs.Prelude.{◌≡◌, ◌%◌, ◌^◌};
ghost use Rattle.farm_model.specs.World.{relay_at};
ghost use Rattle.farm_world.specs.RelayEvents.{with_start_of_relay};

use crate::relays::number_from;
use cc_book::Book;
use dia_base::{ConnId, NodeNo};
use dia_message::Message;
use farm_model::{Direction, FrontAt, RelayAt};
use std::marker::Model;

/// The farm. [`World::open`] makes it, [`World::step`] takes it from one step to the next.
pub struct World {
    /// For each connection those to a node that has not dropped it.
    pub(crate) directions: Vec<Direction>,
    pub(crate) fronts: Vec<FrontAt>,
    pub(crate) relays: Vec<RelayAt>,
    pub(crate) book: Book,
    /// What clients have sent, each message with its connection.
    pub(crate) sent: Vec<(ConnId, Message)>,
    /// What clients have received.
    pub(crate) received: Vec<(ConnId, Message)>,
    /// The two nodes of each connection that was made. Connections are numbered from 1.
    pub(crate) ends: Vec<(NodeNo, NodeNo)>,
}

// By hand, so that each exit of an owner is proved with one call.
impl Drop for World {
    fn drop(self) {
        let World {
            directions: _,
            fronts: _,
            relays: _,
            book: _,
            sent: _,
            received: _,
            ends: _,
        } = self;
    }
}

impl Model for World {
    ghost use Rattle.farm_model.specs.World.{WorldState};

    ghost Value = { WorldState };

    ghost view = { λ w. record {
      directions = w.directions.items;
      fronts = w.fronts.items;
      relays = w.relays.items;
      book = w.book;
      sent = w.sent.items;
      received = w.received.items;
      ends = w.ends.items;
    } };
}

impl World {
    /// Of each connection the directions to those of its nodes that have not dropped it, the connection that
    /// was made first first, with the messages in flight in each.
    pub fn directions(&self) -> &[Direction]
        ensures { result.now ≡ self.now.directions }
    {
        &self.directions
    }

    /// A relay gives identifiers from another start from now on: for those who play what a relay did that drew its own.
    /// It is no step. Where the node is no relay, nothing happens.
    pub fn number_from(&mut self, node: NodeNo, start: u32)
        ensures { self.new ≡ record self.old { relays = with_start_of_relay node (start % 2 ^ 31) self.old.relays (relay_at node self.old.relays) } }
    {
        number_from(&mut self.relays, node, start);
    }

    /// What clients have sent and received, the book, and the nodes of each connection.
    pub(crate) fn into_parts(
        self,
    ) -> (
        Vec<(ConnId, Message)>,
        Vec<(ConnId, Message)>,
        Book,
        Vec<(NodeNo, NodeNo)>,
    )
        ensures sent { result.0.items ≡ self.sent }
        ensures received { result.1.items ≡ self.received }
        ensures book { result.2 ≡ self.book }
        ensures ends { result.3.items ≡ self.ends }
    {
        let World {
            directions: _,
            fronts: _,
            relays: _,
            book,
            sent,
            received,
            ends,
        } = self;
        (sent, received, book, ends)
    }

    /// The account book, which all fronts share.
    pub fn book(&self) -> &Book
        ensures { result.now ≡ self.now.book }
    {
        &self.book
    }
}
