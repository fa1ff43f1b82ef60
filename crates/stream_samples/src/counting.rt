//! A node that counts what it is told. It answers each message alike, if it has an answer, and does not do what it refuses.

use dia_avp::Wire;
use dia_base::{ConnId, Moment, NodeNo};
use dia_message::{Message, Out};
use farm_node::{Node, NodeError, Reaction};
use std::alloc::{AllocError, Global};

/// What a node does not do, for want of memory.
#[derive(Clone, Copy)]
pub enum Refused {
    Nothing,
    /// What it is to do at a message.
    Message,
    /// An answer that it owes on the first connection, of which it tells at a tick.
    Answer,
    /// What it is to do at the end of a connection.
    End,
}

/// How often a node was told of something.
#[derive(Clone, Copy)]
pub struct Counts {
    pub ups: u32,
    pub messages: u32,
    pub lost: u32,
    pub ticks: u32,
    pub wakes: u32,
}

/// A node that counts what it is told.
#[derive(Drop)]
pub struct Counting {
    pub counts: Counts,
    answer: Option<Message>,
    refused: Refused,
}

/// An answer, on a connection.
fn reply(alloc: Global, conn: ConnId, answer: &Message) -> Result<Out, AllocError> {
    Out::of_one(alloc, conn, answer.clone()?)
}

impl Counting {
    /// A node that was told nothing.
    pub fn new(answer: Option<Message>, refused: Refused) -> Counting {
        let counts = Counts {
            ups: 0,
            messages: 0,
            lost: 0,
            ticks: 0,
            wakes: 0,
        };
        Counting {
            counts,
            answer,
            refused,
        }
    }

    /// Its answer on a connection, if it has one.
    fn answers(&self, alloc: Global, conn: ConnId) -> Reaction {
        let Some(answer) = &self.answer else {
            return Reaction::nothing(alloc);
        };
        match reply(alloc, conn, answer) {
            Ok(out) => Reaction::sends(out),
            Err(AllocError) => Reaction::refuses(alloc, NodeError::OutOfMemory),
        }
    }
}

impl Node for Counting {
    ghost on_event = { λ old event sent outcome new. Unit {0} };

    fn on_up(&mut self, alloc: Global, _local: NodeNo, _peer: NodeNo, _conn: ConnId) -> Reaction {
        self.counts.ups = self.counts.ups.saturating_add(1);
        Reaction::nothing(alloc)
    }

    fn on_message<W: Wire>(&mut self, alloc: Global, conn: ConnId, _message: Message) -> Reaction {
        self.counts.messages = self.counts.messages.saturating_add(1);
        match self.refused {
            Refused::Message => Reaction::refuses(alloc, NodeError::OutOfMemory),
            _ => self.answers(alloc, conn),
        }
    }

    fn on_leaving(&mut self, alloc: Global, _conn: ConnId) -> Reaction {
        Reaction::nothing(alloc)
    }

    fn on_lost<W: Wire>(&mut self, alloc: Global, _conn: ConnId) -> Reaction {
        self.counts.lost = self.counts.lost.saturating_add(1);
        match self.refused {
            Refused::End => Reaction::refuses(alloc, NodeError::OutOfMemory),
            _ => Reaction::nothing(alloc),
        }
    }

    fn on_tick<W: Wire>(&mut self, alloc: Global, _moment: Moment) -> Reaction {
        self.counts.ticks = self.counts.ticks.saturating_add(1);
        match self.refused {
            Refused::Answer => Reaction::refuses(alloc, NodeError::Unanswered { conn: ConnId(1) }),
            _ => Reaction::nothing(alloc),
        }
    }

    fn on_wake<W: Wire>(&mut self, alloc: Global) -> Reaction {
        self.counts.wakes = self.counts.wakes.saturating_add(1);
        Reaction::nothing(alloc)
    }
}
