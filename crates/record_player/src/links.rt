//! What relays and clients do, and how connections begin. Nothing here knows of the requests of fronts, or of the book.
//!
//! - `messages`: those that arrive, and what nodes send then. `dials`: connections begin.

mod dials;
mod messages;

ghost use Rattle.std.specs.Prelude.{◌≡◌};
ghost use Rattle.farm_player.specs.Reconciling.{Stays};

use crate::fault::PlayResult;
use crate::played::Played;
use dia_base::NodeNo;
use record_reader::{NodeEvent, Position};
use record_state::Connections;
use std::alloc::Global;

/// The farm that plays, and its connections as records tell of them.
#[derive(Drop)]
pub struct LinkPlayer<'s> {
    alloc: Global,
    pub played: Played<'s>,
    pub connections: Connections,
}

impl<'s> LinkPlayer<'s> {
    /// A farm of which no connection was told yet.
    pub fn new(alloc: Global, played: Played<'s>) -> Self
        ensures { result.played ≡ played.entry }
    {
        LinkPlayer {
            alloc,
            played,
            connections: Connections::new(alloc),
        }
    }

    /// The process of a relay or a client begins again: a relay crashes, and a client drops all its connections.
    pub fn begin_again(&mut self, position: Position, node: NodeNo) -> PlayResult<()>
        ensures stays { Stays self.old.played self.new.played }
    {
        self.connections.lose_dials_of(node);
        if self.played.is_relay(node) {
            self.played.crash(position, node)
        } else {
            self.played.drop_all_of(position, node)
        }
    }

    /// A relay or a client learns that its connection has ended.
    pub fn drop_end(&mut self, event: &NodeEvent) -> PlayResult<()>
        ensures stays { Stays self.old.played self.new.played }
    {
        let (position, node, peer) = (event.position, event.end.node, event.end.peer);
        let before = self.flights_from(node)?;
        self.played.drop_end(position, node, peer)?;
        self.compare_all(event, &before)?;
        self.played.drop_silent(position, node, peer)
    }
}
