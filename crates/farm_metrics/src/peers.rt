//! What is counted of each neighbour.

ghost use Rattle.std.specs.Prelude.{◌≡◌, [], IfSome, Some};
ghost use Rattle.farm_metrics.specs.Neighbours.{IsCountedUp, IsNoted, changed, count_of, is_refusal, new_count, place_of, place_on, with_answer, with_loss, with_request, with_up, without};

use crate::times::Micros;
use dia_base::{ConnId, NodeNo};
use std::alloc::Global;

/// What is counted of a neighbour of a node.
#[derive(Clone, Copy, PartialEq, Eq)]
pub struct PeerCount {
    pub local: NodeNo,
    pub peer: NodeNo,
    /// How often it was lost.
    pub losses: u64,
    /// How often it was lost since it was silent (RFC 6733, section 5.5).
    pub silences: u64,
    /// Requests that came from it, answers that were sent to it, and how many of those were no success.
    pub requests: u64,
    pub answers: u64,
    pub refusals: u64,
    /// Since when it is up, or lost.
    pub since: Micros,
}

/// On which connection a neighbour is up.
#[derive(Clone, Copy, PartialEq, Eq)]
pub struct PeerConn {
    pub conn: ConnId,
    /// The place of what is counted of it.
    pub place: usize,
}

/// What is counted of each neighbour that was ever up.
#[derive(Drop)]
pub struct Peers {
    pub counts: Vec<PeerCount>,
    /// The connections on which one is up.
    conns: Vec<PeerConn>,
}

/// Whether a Result-Code, 0 where there is none, is that of a refusal: 3000 and above (RFC 6733, section 7.1).
fn is_refusal(code: u32) -> bool
    ensures { result ≡ is_refusal code }
{
    code >= 3_000 || code == 0
}

impl PeerCount {
    /// Of a neighbour that was never up.
    fn of(local: NodeNo, peer: NodeNo) -> PeerCount
        ensures { result ≡ new_count local peer }
    {
        PeerCount {
            local,
            peer,
            losses: 0,
            silences: 0,
            requests: 0,
            answers: 0,
            refusals: 0,
            since: Micros(0),
        }
    }

    /// It comes up now.
    fn up(&mut self, now: Micros)
        ensures { self.new ≡ with_up now self.old }
    {
        self.since = now;
    }

    /// It is lost now, since it was silent or not.
    fn lost(&mut self, is_silent: bool, now: Micros)
        ensures { self.new ≡ with_loss is_silent now self.old }
    {
        self.losses = self.losses.saturating_add(1);
        if is_silent {
            self.silences = self.silences.saturating_add(1);
        }
        self.since = now;
    }

    /// A request came from it.
    fn request(&mut self)
        ensures { self.new ≡ with_request self.old }
    {
        self.requests = self.requests.saturating_add(1);
    }

    /// An answer with this Result-Code, 0 where it has none, is sent to it.
    fn answer(&mut self, code: u32)
        ensures { self.new ≡ with_answer code self.old }
    {
        self.answers = self.answers.saturating_add(1);
        if is_refusal(code) {
            self.refusals = self.refusals.saturating_add(1);
        }
    }
}

/// The place of what is counted of a neighbour.
fn place_of(counts: &[PeerCount], local: NodeNo, peer: NodeNo) -> Option<usize>
    ensures { result ≡ place_of local peer counts.now }
{
    counts
        .iter()
        .position(|count| count.local.0 == local.0 && count.peer.0 == peer.0)
}

impl Peers {
    /// None yet.
    pub fn none(alloc: Global) -> Self
        ensures counts { result.counts.items ≡ [] }
        ensures conns { result.conns.items ≡ [] }
    {
        Peers {
            counts: Vec::new(alloc),
            conns: Vec::new(alloc),
        }
    }

    /// The place of what is counted of the neighbour that is up on a connection.
    fn place_on(&self, conn: ConnId) -> Option<usize>
        ensures { result ≡ place_on self.now conn }
    {
        let found = self.conns.iter().find(|up| up.conn.0 == conn.0)?;
        Some(found.place)
    }

    /// Nobody is up on a connection any more.
    fn remove(&mut self, conn: ConnId)
        ensures counts { self.new.counts ≡ self.old.counts }
        ensures conns { self.new.conns.items ≡ without conn self.old.conns.items }
    {
        self.conns.retain(|up| up.conn.0 != conn.0);
    }

    /// A neighbour comes up: the place of what is counted of it. None without memory.
    fn count_up(&mut self, local: NodeNo, peer: NodeNo, now: Micros) -> Option<usize>
        ensures conns { self.new.conns ≡ self.old.conns }
        ensures counts { IsCountedUp local peer now (place_of local peer self.old.counts.items) self.old.counts.items self.new.counts.items }
        ensures place { IfSome result (λ place. place_of local peer self.new.counts.items ≡ Some place) }
    {
        if let Some(place) = place_of(&self.counts, local, peer) {
            self.counts[place].up(now);
            return Some(place);
        }
        let mut count = PeerCount::of(local, peer);
        count.up(now);
        match self.counts.push(count) {
            Ok(()) => place_of(&self.counts, local, peer),
            Err(_) => None,
        }
    }

    /// A neighbour comes up on a connection. Without memory nothing more is counted of it on that.
    pub fn up(&mut self, conn: ConnId, local: NodeNo, peer: NodeNo, now: Micros)
        ensures counts { IsCountedUp local peer now (place_of local peer self.old.counts.items) self.old.counts.items self.new.counts.items }
        ensures conns { IsNoted conn (place_of local peer self.new.counts.items) self.old.conns.items self.new.conns.items }
    {
        if let Some(place) = self.count_up(local, peer, now) {
            let _ = self.conns.push(PeerConn { conn, place });
        }
    }

    /// The neighbour that was up on a connection is lost, since it was silent or not.
    pub fn lost(&mut self, conn: ConnId, is_silent: bool, now: Micros)
        ensures counts { self.new.counts.items ≡ changed (with_loss is_silent now) (place_on self.old conn) self.old.counts.items }
        ensures conns { self.new.conns.items ≡ without conn self.old.conns.items }
    {
        if let Some(place) = self.place_on(conn)
            && place < self.counts.len()
        {
            self.counts[place].lost(is_silent, now);
        }
        self.remove(conn);
    }

    /// A request came on a connection.
    pub fn request_came(&mut self, conn: ConnId)
        ensures counts { self.new.counts.items ≡ changed with_request (place_on self.old conn) self.old.counts.items }
        ensures conns { self.new.conns ≡ self.old.conns }
    {
        if let Some(place) = self.place_on(conn)
            && place < self.counts.len()
        {
            self.counts[place].request();
        }
    }

    /// An answer with this Result-Code, 0 where it has none, is sent on a connection.
    pub fn answer_sent(&mut self, conn: ConnId, code: u32)
        ensures counts { self.new.counts.items ≡ changed (with_answer code) (place_on self.old conn) self.old.counts.items }
        ensures conns { self.new.conns ≡ self.old.conns }
    {
        if let Some(place) = self.place_on(conn)
            && place < self.counts.len()
        {
            self.counts[place].answer(code);
        }
    }

    /// What is counted of a neighbour, if it was ever up.
    pub fn of(&self, local: NodeNo, peer: NodeNo) -> Option<PeerCount>
        ensures { result ≡ count_of local peer self.now.counts.items }
    {
        let place = place_of(&self.counts, local, peer)?;
        Some(self.counts[place])
    }
}
