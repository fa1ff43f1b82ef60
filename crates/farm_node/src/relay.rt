//! A relay as a node.

ghost use Rattle.std.specs.Prelude.{◌≡◌, [], Ok, Err, IfOk, IfErr};
ghost use Rattle.farm_node.specs.Nodes.{OnMatchingEvent, OnPartingEvent, OnRelayEvent, error_of_relay};

use crate::error::NodeError;
use crate::node::{Node, Reaction};
use dia_avp::Wire;
use dia_base::{ConnId, Moment, NodeNo};
use dia_message::{Message, Out};
use relay_core::{MatchingRelay, PartingRelay, Relay, RelayError};
use std::alloc::Global;

/// What a relay sends, or why it does nothing.
fn reaction(alloc: Global, answer: Result<Out, RelayError>) -> Reaction
    ensures sent { IfOk answer (λ out. (result.out.items ≡ out.items) × (result.outcome ≡ Ok tt)) }
    ensures refused { IfErr answer (λ error. (result.out.items ≡ []) × (result.outcome ≡ Err (error_of_relay error))) }
{
    match answer {
        Ok(out) => Reaction::sends(out),
        Err(error) => Reaction::refuses(alloc, NodeError::of_relay(error)),
    }
}

/// Which of the nodes that are served here it is, is of no account: it is served alone. It does not tell who leaves from who
/// stays: [`PartingRelay`] does.
impl Node for Relay {
    ghost on_event = { OnRelayEvent };

    fn on_up(&mut self, alloc: Global, _local: NodeNo, peer: NodeNo, conn: ConnId) -> Reaction {
        match self.conn_up(peer, conn) {
            Ok(()) => Reaction::nothing(alloc),
            Err(error) => Reaction::refuses(alloc, NodeError::of_relay(error)),
        }
    }

    fn on_message<W: Wire>(&mut self, alloc: Global, conn: ConnId, message: Message) -> Reaction {
        reaction(alloc, Relay::on_message::<W>(self, alloc, conn, message))
    }

    fn on_leaving(&mut self, alloc: Global, _conn: ConnId) -> Reaction {
        Reaction::nothing(alloc)
    }

    fn on_lost<W: Wire>(&mut self, alloc: Global, conn: ConnId) -> Reaction {
        reaction(alloc, self.conn_lost::<W>(alloc, conn))
    }

    fn on_tick<W: Wire>(&mut self, alloc: Global, _moment: Moment) -> Reaction {
        Reaction::nothing(alloc)
    }

    fn on_wake<W: Wire>(&mut self, alloc: Global) -> Reaction {
        Reaction::nothing(alloc)
    }
}

/// The same, with the answers that it drops.
impl Node for MatchingRelay {
    ghost on_event = { OnMatchingEvent };

    fn on_up(&mut self, alloc: Global, local: NodeNo, peer: NodeNo, conn: ConnId) -> Reaction {
        self.relay.on_up(alloc, local, peer, conn)
    }

    fn on_message<W: Wire>(&mut self, alloc: Global, conn: ConnId, message: Message) -> Reaction {
        reaction(
            alloc,
            MatchingRelay::on_message::<W>(self, alloc, conn, message),
        )
    }

    fn on_leaving(&mut self, alloc: Global, conn: ConnId) -> Reaction {
        self.relay.on_leaving(alloc, conn)
    }

    fn on_lost<W: Wire>(&mut self, alloc: Global, conn: ConnId) -> Reaction {
        self.relay.on_lost::<W>(alloc, conn)
    }

    fn on_tick<W: Wire>(&mut self, alloc: Global, moment: Moment) -> Reaction {
        self.relay.on_tick::<W>(alloc, moment)
    }

    fn on_wake<W: Wire>(&mut self, alloc: Global) -> Reaction {
        self.relay.on_wake::<W>(alloc)
    }
}

/// The same, with those of its peers that stay.
impl Node for PartingRelay {
    ghost on_event = { OnPartingEvent };

    fn on_up(&mut self, alloc: Global, _local: NodeNo, peer: NodeNo, conn: ConnId) -> Reaction {
        match self.conn_up(alloc, peer, conn) {
            Ok(()) => Reaction::nothing(alloc),
            Err(error) => Reaction::refuses(alloc, NodeError::of_relay(error)),
        }
    }

    fn on_message<W: Wire>(&mut self, alloc: Global, conn: ConnId, message: Message) -> Reaction {
        reaction(
            alloc,
            PartingRelay::on_message::<W>(self, alloc, conn, message),
        )
    }

    fn on_leaving(&mut self, alloc: Global, conn: ConnId) -> Reaction {
        match self.leaves(conn) {
            Ok(()) => Reaction::nothing(alloc),
            Err(error) => Reaction::refuses(alloc, NodeError::of_relay(error)),
        }
    }

    fn on_lost<W: Wire>(&mut self, alloc: Global, conn: ConnId) -> Reaction {
        reaction(alloc, self.conn_lost::<W>(alloc, conn))
    }

    fn on_tick<W: Wire>(&mut self, alloc: Global, _moment: Moment) -> Reaction {
        Reaction::nothing(alloc)
    }

    fn on_wake<W: Wire>(&mut self, alloc: Global) -> Reaction {
        Reaction::nothing(alloc)
    }
}
