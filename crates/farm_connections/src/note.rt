//! What an operator may want to read.

ghost use Rattle.std.specs.Prelude.{◌≡◌, ◌++◌, [], option_to_list, IfNone};

use crate::end::End;
use crate::link::Standing;
use dia_avp::{Octets, Wire};
use dia_base::{ConnId, Identity, NodeNo};
use dia_message::{Message, Out};
use farm_node::{NodeError, Refused, result_code};
use farm_watch::{DisconnectCause, name_in};
use std::alloc::Global;
use std::collections::VecDeque;

/// The most notes that are kept. Further ones are counted.
pub const NOTE_LIMIT: usize = 1_024;

/// Something that has happened. Whoever writes a log chooses the words.
#[derive(Drop)]
pub enum Note {
    /// The node at the other end of a connection is up.
    Up {
        conn: ConnId,
        local: NodeNo,
        peer: NodeNo,
    },
    /// The node at the other end of a connection has said goodbye.
    Leaves {
        conn: ConnId,
        peer: NodeNo,
        cause: DisconnectCause,
    },
    /// A connection has ended on which a node was up.
    Lost {
        conn: ConnId,
        peer: NodeNo,
        why: End,
    },
    /// A node that was connected to does not come up, since its answer does not name it: the name that the answer says, if it
    /// says one.
    Misnamed {
        conn: ConnId,
        peer: NodeNo,
        name: Option<Identity>,
    },
    /// A connection has ended on which no node was up.
    Refused {
        conn: ConnId,
        why: End,
    },
    /// A request that was not answered on a lost connection was sent again.
    FailedOver {
        lost: ConnId,
        to: ConnId,
    },
    /// A request that was not answered on a lost connection was answered with this Result-Code, 0 where it cannot be
    /// read.
    GivenUp {
        lost: ConnId,
        to: ConnId,
        code: u32,
    },
    /// The node has refused a request.
    Refusal {
        refused: Refused,
    },
    /// The node did not do what it was told, which was of no connection.
    Failed {
        error: NodeError,
    },
}

/// Notes that wait to be read, the oldest first.
#[derive(Drop)]
pub struct Notes {
    waiting: VecDeque<Note>,
    dropped: u64,
}

impl Notes {
    pub(crate) fn new(alloc: Global) -> Self
        ensures waiting { result.waiting.items ≡ [] }
        ensures dropped { result.dropped ≡ 0 }
    {
        Notes {
            waiting: VecDeque::new(alloc),
            dropped: 0,
        }
    }

    /// Takes the oldest one.
    pub(crate) fn take_first(&mut self) -> Option<Note>
        ensures taken { self.old.waiting.items ≡ option_to_list result ++ self.new.waiting.items }
        ensures none { IfNone result (self.old.waiting.items ≡ []) }
        ensures dropped { self.new.dropped ≡ self.old.dropped }
    {
        self.waiting.pop_front()
    }

    /// How many had no place.
    pub(crate) fn dropped(&self) -> u64
        ensures { result ≡ self.now.dropped }
    {
        self.dropped
    }

    fn add(&mut self, note: Note) {
        if self.waiting.len() >= NOTE_LIMIT || self.waiting.push_back(note).is_err() {
            self.dropped = self.dropped.saturating_add(1);
        }
    }

    pub(crate) fn up(
        &mut self,
        conn: ConnId,
        local: NodeNo,
        peer: NodeNo,
        outcome: Result<(), NodeError>,
    ) {
        if outcome.is_ok() {
            self.add(Note::Up { conn, local, peer });
        }
    }

    /// The node that was connected to is not welcome: this answer does not name it.
    pub(crate) fn misnamed<P: Wire>(
        &mut self,
        alloc: Global,
        conn: ConnId,
        peer: NodeNo,
        answer: &Message,
    ) {
        let name = name_in::<P>(alloc, &answer.body);
        self.add(Note::Misnamed { conn, peer, name });
    }

    pub(crate) fn leaves(&mut self, conn: ConnId, peer: NodeNo, cause: DisconnectCause) {
        self.add(Note::Leaves { conn, peer, cause });
    }

    pub(crate) fn lost(&mut self, conn: ConnId, peer: NodeNo, why: End) {
        self.add(Note::Lost { conn, peer, why });
    }

    /// A connection is let go. Where a node was up on it, its end was noted when the node here was told of it.
    pub(crate) fn let_go(&mut self, conn: ConnId, standing: Standing, why: End) {
        match standing {
            Standing::Waiting => self.add(Note::Refused { conn, why }),
            Standing::Up { .. } | Standing::Over { .. } => {}
        }
    }

    pub(crate) fn failed(&mut self, error: NodeError) {
        self.add(Note::Failed { error });
    }

    /// The refusals among what a node sends where a message with this body came on this connection: an error that goes back there.
    pub(crate) fn answers<P: Wire>(
        &mut self,
        alloc: Global,
        conn: ConnId,
        body: Option<&Octets>,
        out: &Out,
    ) {
        for (to, message) in out.items.as_slice() {
            if to.0 == conn.0 && message.header.error && !message.header.request {
                self.refusal::<P>(alloc, conn, body, message);
            }
        }
    }

    /// A request with this body was refused with an answer. Without memory it is one of the notes that have no place.
    fn refusal<P: Wire>(
        &mut self,
        alloc: Global,
        conn: ConnId,
        body: Option<&Octets>,
        answer: &Message,
    ) {
        let code = result_code::<P>(alloc, answer);
        if let Some(body) = body
            && let Ok(refused) = Refused::of::<P>(alloc, conn, body, code)
        {
            self.refused(refused);
        } else {
            self.dropped = self.dropped.saturating_add(1);
        }
    }

    /// The node has refused a request.
    pub(crate) fn refused(&mut self, refused: Refused) {
        self.add(Note::Refusal { refused });
    }

    /// What a node sends where a connection is lost: requests again, and answers to those that it gives up.
    pub(crate) fn failovers<P: Wire>(&mut self, alloc: Global, lost: ConnId, out: &Out) {
        for (to, message) in out.items.as_slice() {
            let to = *to;
            if message.header.request {
                self.add(Note::FailedOver { lost, to });
            } else {
                let code = result_code::<P>(alloc, message);
                self.add(Note::GivenUp { lost, to, code });
            }
        }
    }
}

/// What is kept of a message while the node is told of it: the body of a request, by which it is named if it is refused.
pub(crate) fn kept_body(message: &Message) -> Option<Octets> {
    if message.header.request {
        message.body.clone().ok()
    } else {
        None
    }
}
