//! A client that sends requests, and keeps their answers.

ghost use Rattle.std.specs.Prelude.{◌≡◌, ◌≤◌, ◌↔◌, ◌++◌, ◌∷◌, [], length, false, IfOk, OnOk, OnErr, IsTrue};
ghost use Rattle.farm_client.specs.Client.{GoesOn, OnClientEvent, SendsNext, flight_after_answer, length_of, may_send};

use dia_avp::Wire;
use dia_base::{ConnId, Listing, Moment, NodeNo};
use dia_message::{HEADER_LEN, Message, Out};
use farm_node::{Node, NodeError, Reaction};
use std::alloc::{AllocError, Global};
use std::marker::Model;

/// The most octets of requests that are sent and not answered. The first request is always sent.
pub const FLIGHT_LIMIT: u64 = 524_288;

/// A client on its one connection: it sends its requests in their order, as many as may be unanswered, and keeps what
/// answers them. It sends none any more once the node at the other end has said goodbye.
#[derive(Drop)]
pub struct Sender {
    requests: Vec<Message>,
    sent: usize,
    flight: u64,
    answers: Vec<Message>,
    has_left: bool,
    has_ended: bool,
}

impl Model for Sender {
    ghost use Rattle.std.specs.Prelude.{◌≤◌, length};
    ghost use Rattle.farm_client.specs.Client.{Client};

    ghost Value = { Client };

    ghost view = { λ s. record {
      requests = s.requests.items;
      sent = s.sent;
      flight = s.flight;
      answers = s.answers.items;
      has_left = s.has_left;
      has_ended = s.has_ended;
    } };

    ghost invariant = { λ s. s.sent ≤ length s.requests.items };
}

/// The octets of a message.
fn length_of(message: &Message) -> u64
    ensures { result ≡ length_of message.now }
{
    (message.body.as_slice().len() as u64).saturating_add(HEADER_LEN as u64)
}

/// A copy of a message.
fn copy_of(message: &Message) -> Result<Message, AllocError>
    ensures { IfOk result (λ copy. copy ≡ message.now) }
{
    Ok(Message {
        header: message.header,
        body: message.body.clone()?,
    })
}

impl Sender {
    /// It has sent nothing yet.
    pub fn new(alloc: Global, requests: Vec<Message>) -> Self
        ensures { result ≡ record { requests = requests.items; sent = 0; flight = 0; answers = []; has_left = false; has_ended = false } }
    {
        Sender {
            requests,
            sent: 0,
            flight: 0,
            answers: Vec::new(alloc),
            has_left: false,
            has_ended: false,
        }
    }

    /// The answers that came, in their order.
    pub fn answers(&self) -> &[Message]
        ensures { result.now ≡ self.now.answers }
    {
        &self.answers
    }

    /// Whether as many answers came as there are requests.
    pub fn is_done(&self) -> bool
        ensures { IsTrue result ↔ (length self.now.requests ≤ length self.now.answers) }
    {
        self.requests.len() <= self.answers.len()
    }

    /// Whether its connection has come up and ended.
    pub fn has_ended(&self) -> bool
        ensures { result ≡ self.now.has_ended }
    {
        self.has_ended
    }

    /// Whether the next request, of so many octets, may go out.
    fn may_send(&self, length: u64) -> bool
        ensures { result ≡ may_send self.now.flight length }
    {
        self.flight == 0 || self.flight.saturating_add(length) <= FLIGHT_LIMIT
    }

    /// The requests that may go out now.
    fn next_requests(&mut self, alloc: Global, conn: ConnId) -> Result<Out, AllocError>
        ensures sends { IfOk result (λ out. SendsNext conn self.old out.items self.new) }
        ensures others { (self.new.requests ≡ self.old.requests) × (self.new.answers ≡ self.old.answers) × (self.new.has_left ≡ self.old.has_left) × (self.new.has_ended ≡ self.old.has_ended) }
        ensures forward { self.old.sent ≤ self.new.sent }
    {
        let mut items = Vec::new(alloc);
        for place in self.sent..self.requests.len() {
            let request = &self.requests[place];
            let length = length_of(request);
            if !self.may_send(length) {
                break;
            }
            items.push((conn, copy_of(request)?))?;
            self.flight = self.flight.saturating_add(length);
            self.sent = place + 1;
        }
        Ok(Out {
            items: Listing::from_vec(items),
        })
    }

    /// What it does next: nothing where the other end has said goodbye.
    fn goes_on(&mut self, alloc: Global, conn: ConnId) -> Reaction
        ensures { GoesOn conn self.old result.out.items result.outcome self.new }
    {
        if self.has_left {
            return Reaction::nothing(alloc);
        }
        match self.next_requests(alloc, conn) {
            Ok(out) => Reaction::sends(out),
            Err(AllocError) => Reaction::refuses(alloc, NodeError::OutOfMemory),
        }
    }

    /// An answer has come: it answers one of the requests that are unanswered, of which the oldest counts.
    fn take_answer(&mut self, answer: Message) -> Result<(), AllocError>
        ensures ok { OnOk result (self.new ≡ record self.old { answers = self.old.answers ++ answer ∷ []; flight = flight_after_answer self.old }) }
        ensures err { OnErr result (self.new ≡ record self.old { flight = self.new.flight }) }
    {
        if let Some(request) = self.requests.get(self.answers.len()) {
            self.flight = self.flight.saturating_sub(length_of(request));
        }
        self.answers.push(answer)?;
        Ok(())
    }
}

impl Node for Sender {
    ghost on_event = { OnClientEvent };

    fn on_up(&mut self, alloc: Global, _local: NodeNo, _peer: NodeNo, conn: ConnId) -> Reaction {
        self.goes_on(alloc, conn)
    }

    fn on_message<W: Wire>(&mut self, alloc: Global, conn: ConnId, message: Message) -> Reaction {
        // A client is asked nothing.
        if message.header.request {
            return Reaction::nothing(alloc);
        }
        match self.take_answer(message) {
            Ok(()) => self.goes_on(alloc, conn),
            Err(AllocError) => Reaction::refuses(alloc, NodeError::OutOfMemory),
        }
    }

    fn on_leaving(&mut self, alloc: Global, _conn: ConnId) -> Reaction {
        self.has_left = true;
        Reaction::nothing(alloc)
    }

    fn on_lost<W: Wire>(&mut self, alloc: Global, _conn: ConnId) -> Reaction {
        self.has_ended = true;
        Reaction::nothing(alloc)
    }

    fn on_tick<W: Wire>(&mut self, alloc: Global, _moment: Moment) -> Reaction {
        Reaction::nothing(alloc)
    }

    fn on_wake<W: Wire>(&mut self, alloc: Global) -> Reaction {
        Reaction::nothing(alloc)
    }
}
