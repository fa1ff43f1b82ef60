//! A node by its events.

ghost use Rattle.std.specs.Prelude.{◌≡◌, [], Ok, Err, Result};
ghost use Rattle.dia_message.specs.Traffic.{Traffic};
ghost use Rattle.farm_node.specs.declared.error.NodeError.{NodeError};
ghost use Rattle.farm_node.specs.Events.{NodeEvent};
ghost use Rattle.farm_node.specs.Events as event;

use crate::error::NodeError;
use dia_avp::Wire;
use dia_base::{ConnId, Moment, NodeNo};
use dia_message::{Message, Out};
use std::alloc::Global;

/// What a node does at an event.
#[derive(Drop)]
pub struct Reaction {
    /// What it sends, in order. It may be something where the outcome is an error too.
    pub out: Out,
    /// Whether it did what it was told, and why not.
    pub outcome: Result<(), NodeError>,
}

impl Reaction {
    /// It sends this.
    pub fn sends(out: Out) -> Self
        ensures sent { result.out.items ≡ out.items }
        ensures outcome { result.outcome ≡ Ok tt }
    {
        Reaction {
            out,
            outcome: Ok(()),
        }
    }

    /// It sends nothing, which takes no memory.
    pub fn nothing(alloc: Global) -> Self
        ensures sent { result.out.items ≡ [] }
        ensures outcome { result.outcome ≡ Ok tt }
    {
        Reaction::sends(Out::nothing(alloc))
    }

    /// It does not do it, and sends nothing, which takes no memory.
    pub fn refuses(alloc: Global, error: NodeError) -> Self
        ensures sent { result.out.items ≡ [] }
        ensures outcome { result.outcome ≡ Err error }
    {
        Reaction {
            out: Out::nothing(alloc),
            outcome: Err(error),
        }
    }
}

/// A node of a farm, by what happens to it (RFC 6733, sections 2.8 and 5.5.4).
///
/// Those who keep its connections give each a number that no other connection has or had, and tell it of each: once
/// that it is up, before anything else, then the messages that come on it and that the other end leaves, and once, last, that it
/// has ended. Nothing here waits, and what is sent comes out.
pub trait Node {
    /// What it was, what happened, what it has sent and whether it did what it was told, and what it is now.
    ghost on_event: { Self → NodeEvent → Traffic → Result (Unit {0}) NodeError → Self → Type 0 };

    /// The node `peer` is at the other end of a connection of the node `local`, which is this node, or one of those
    /// that are served here.
    fn on_up(&mut self, alloc: Global, local: NodeNo, peer: NodeNo, conn: ConnId) -> Reaction
        ensures { on_event self.old (event.up local peer conn) result.out.items result.outcome self.new };

    /// A message came on a connection that is up. What answers it may go out now, at a tick, or when it is woken.
    fn on_message<W: Wire>(&mut self, alloc: Global, conn: ConnId, message: Message) -> Reaction
        ensures { on_event self.old (event.message conn message) result.out.items result.outcome self.new };

    /// The node at the other end of a connection that is up has said goodbye: it gets no new request from now on, and what it sends
    /// is taken as before. The connection ends later.
    fn on_leaving(&mut self, alloc: Global, conn: ConnId) -> Reaction
        ensures { on_event self.old (event.leaving conn) result.out.items result.outcome self.new };

    /// A connection that was up has ended.
    fn on_lost<W: Wire>(&mut self, alloc: Global, conn: ConnId) -> Reaction
        ensures { on_event self.old (event.lost conn) result.out.items result.outcome self.new };

    /// Time has passed.
    fn on_tick<W: Wire>(&mut self, alloc: Global, moment: Moment) -> Reaction
        ensures { on_event self.old (event.tick moment) result.out.items result.outcome self.new };

    /// Something that works for it elsewhere, as a thread does, has something for it.
    fn on_wake<W: Wire>(&mut self, alloc: Global) -> Reaction
        ensures { on_event self.old event.wake result.out.items result.outcome self.new };
}
