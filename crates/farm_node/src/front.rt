//! A front as a node.

ghost use Rattle.farm_node.specs.Nodes.{OnFrontEvent};

use crate::error::NodeError;
use crate::node::{Node, Reaction};
use dia_avp::Wire;
use dia_base::{ConnId, Moment, NodeNo};
use dia_message::Message;
use front_core::Front;
use std::alloc::Global;

/// Requests wait in its queue: what its workers do, those say who have its book. It asks nobody who is at the other
/// end of a connection.
impl Node for Front {
    ghost on_event = { OnFrontEvent };

    fn on_up(&mut self, alloc: Global, _local: NodeNo, _peer: NodeNo, conn: ConnId) -> Reaction {
        match self.conn_up(conn) {
            Ok(()) => Reaction::nothing(alloc),
            Err(error) => Reaction::refuses(alloc, NodeError::of_front(error)),
        }
    }

    fn on_message<W: Wire>(&mut self, alloc: Global, conn: ConnId, message: Message) -> Reaction {
        match Front::on_message::<W>(self, alloc, conn, message) {
            Ok(out) => Reaction::sends(out),
            Err(error) => Reaction::refuses(alloc, NodeError::of_front(error)),
        }
    }

    fn on_leaving(&mut self, alloc: Global, _conn: ConnId) -> Reaction {
        Reaction::nothing(alloc)
    }

    fn on_lost<W: Wire>(&mut self, alloc: Global, conn: ConnId) -> Reaction {
        self.conn_lost(conn);
        Reaction::nothing(alloc)
    }

    fn on_tick<W: Wire>(&mut self, alloc: Global, _moment: Moment) -> Reaction {
        Reaction::nothing(alloc)
    }

    fn on_wake<W: Wire>(&mut self, alloc: Global) -> Reaction {
        Reaction::nothing(alloc)
    }
}
