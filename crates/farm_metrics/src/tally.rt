//! What a node counts.

ghost use Rattle.std.specs.Prelude.{◌≡◌};
ghost use Rattle.farm_metrics.specs.Counting.{IsBegun, IsCounted, IsNothing, IsTimed, IsUntimed, plus};
ghost use Rattle.farm_metrics.specs.Neighbours.{IsCountedUp, IsNoted, changed, place_of, place_on, with_answer, with_loss, with_request, without};

use crate::answers::Answers;
use crate::clocks::Clocks;
use crate::peers::Peers;
use crate::times::{Micros, Times};
use dia_base::{ConnId, NodeNo};
use std::alloc::Global;

/// What a node counts while it serves.
#[derive(Drop)]
pub struct Tally {
    /// Requests that nodes which are up have sent to it.
    pub requests: u64,
    /// Requests that it has sent, each as often as it was sent.
    pub sent: u64,
    /// Answers that it has sent.
    pub answers: Answers,
    /// Requests that it has sent again, since a connection was lost.
    pub failovers: u64,
    /// Requests that it has answered itself, since a connection was lost and they could not be sent again.
    pub given_up: u64,
    /// Connections that others have made and that ended with nobody up.
    pub refused: u64,
    /// Connections of its own that were not made, or ended with nobody up.
    pub dial_failures: u64,
    /// From when a request came until its answer was handed to its connection.
    pub times: Times,
    /// What was counted of each neighbour.
    pub peers: Peers,
    clocks: Clocks,
    /// What the clock said last.
    clock: Micros,
}

impl Tally {
    /// Nothing yet.
    pub fn nothing(alloc: Global) -> Self
        ensures { IsNothing result }
    {
        Tally {
            requests: 0,
            sent: 0,
            answers: Answers::none(alloc),
            failovers: 0,
            given_up: 0,
            refused: 0,
            dial_failures: 0,
            times: Times::none(),
            peers: Peers::none(alloc),
            clocks: Clocks::none(alloc),
            clock: Micros(0),
        }
    }

    /// The clock says this: what is counted from now on happens then.
    pub fn set_clock(&mut self, now: Micros)
        ensures { self.new ≡ record self.old { clock = now } }
    {
        self.clock = now;
    }

    /// A neighbour of a node here is up on a connection.
    pub fn peer_up(&mut self, conn: ConnId, local: NodeNo, peer: NodeNo)
        ensures counted { IsCountedUp local peer self.old.clock (place_of local peer self.old.peers.counts.items) self.old.peers.counts.items self.new.peers.counts.items }
        ensures conns { IsNoted conn (place_of local peer self.new.peers.counts.items) self.old.peers.conns.items self.new.peers.conns.items }
        ensures others { self.new ≡ record self.old { peers = self.new.peers } }
    {
        self.peers.up(conn, local, peer, self.clock);
    }

    /// The neighbour that was up on a connection is lost, since it was silent or not.
    pub fn peer_lost(&mut self, conn: ConnId, is_silent: bool)
        ensures counted { self.new.peers.counts.items ≡ changed (with_loss is_silent self.old.clock) (place_on self.old.peers conn) self.old.peers.counts.items }
        ensures conns { self.new.peers.conns.items ≡ without conn self.old.peers.conns.items }
        ensures others { self.new ≡ record self.old { peers = self.new.peers } }
    {
        self.peers.lost(conn, is_silent, self.clock);
    }

    /// What the clock said last.
    pub fn clock(&self) -> Micros
        ensures { result ≡ self.now.clock }
    {
        self.clock
    }

    /// A request came on a connection, under this Hop-by-Hop Identifier.
    pub fn request_came(&mut self, conn: ConnId, hop: u32)
        ensures counted { self.new ≡ record self.old { requests = plus self.old.requests 1; clocks = self.new.clocks; peers = self.new.peers } }
        ensures by_peer { self.new.peers.counts.items ≡ changed with_request (place_on self.old.peers conn) self.old.peers.counts.items }
        ensures conns { self.new.peers.conns ≡ self.old.peers.conns }
        ensures timed { IsBegun self.old.clocks conn hop self.old.clock self.new.clocks }
    {
        self.requests = self.requests.saturating_add(1);
        self.peers.request_came(conn);
        self.clocks.begin(conn, hop, self.clock);
    }

    /// The node has sent a request.
    pub fn request_sent(&mut self)
        ensures { self.new ≡ record self.old { sent = plus self.old.sent 1 } }
    {
        self.sent = self.sent.saturating_add(1);
    }

    /// The node has sent an answer on a connection, under this Hop-by-Hop Identifier and with this Result-Code.
    pub fn answer_sent(&mut self, conn: ConnId, hop: u32, code: u32)
        ensures counted { IsCounted code self.old.answers self.new.answers }
        ensures timed { IsTimed self.old conn hop self.new }
        ensures once { IsUntimed self.new.clocks conn hop }
        ensures others { self.new ≡ record self.old { answers = self.new.answers; times = self.new.times; clocks = self.new.clocks; peers = self.new.peers } }
        ensures by_peer { self.new.peers.counts.items ≡ changed (with_answer code) (place_on self.old.peers conn) self.old.peers.counts.items }
        ensures conns { self.new.peers.conns ≡ self.old.peers.conns }
    {
        self.answers.add(code);
        self.peers.answer_sent(conn, code);
        if let Some(micros) = self.clocks.end(conn, hop, self.clock) {
            self.times.add(micros);
        }
    }

    /// The node has sent a request again, since a connection was lost.
    pub fn failed_over(&mut self)
        ensures { self.new ≡ record self.old { failovers = plus self.old.failovers 1 } }
    {
        self.failovers = self.failovers.saturating_add(1);
    }

    /// A connection that somebody has made was not taken, or ended with nobody up.
    pub fn conn_refused(&mut self)
        ensures { self.new ≡ record self.old { refused = plus self.old.refused 1 } }
    {
        self.refused = self.refused.saturating_add(1);
    }

    /// A connection of its own was not made, or ended with nobody up.
    pub fn dial_failed(&mut self)
        ensures { self.new ≡ record self.old { dial_failures = plus self.old.dial_failures 1 } }
    {
        self.dial_failures = self.dial_failures.saturating_add(1);
    }

    /// The node has answered a request itself, since a connection was lost.
    pub fn gave_up(&mut self)
        ensures { self.new ≡ record self.old { given_up = plus self.old.given_up 1 } }
    {
        self.given_up = self.given_up.saturating_add(1);
    }
}
