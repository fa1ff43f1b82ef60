//! All fronts of a site as one node.

ghost use Rattle.std.specs.Prelude.{◌≡◌, ◌<◌, length, position, true, IfSome, None};
ghost use Rattle.cc_book.specs.History.{IsLegal};
ghost use Rattle.cc_shared.specs.Closing.{IsWhole};
ghost use Rattle.pool_node.specs.Fronts.{CollectsMore, CollectsSweep, OnFrontsEvent, TakesIn, after_asking, is_node, is_up, strangers_of, told_of_all, told_of_one, told_of_sweep, with_fronts};
ghost use Rattle.pool_node.specs.Measure.{AddsFew, AddsOne};

use crate::booked::Booked;
use crate::ending::stop_all;
use crate::figures::BookFigures;
use crate::front::PoolFront;
use crate::timing::Timing;
use book_store::RowStore;
use cc_book::BookRefusal;
use cc_shared::{ClosedBook, Commits, SharedBook};
use cc_sweeper::{SweepDone, Sweeper};
use dia_avp::Wire;
use dia_base::{ConnId, Listing, Moment, NodeNo};
use dia_message::{Message, Out};
use farm_node::{Node, NodeError, Reaction, Refused, Refuses};
use farm_record::{Recorded, Recorder};
use front_pool::Pooling;
use std::alloc::Global;
use std::marker::Model;
use std::rt::Clock;
use std::sync::Wait;
use std::thread::Threads;

/// The most finished jobs that are collected of a front at one event.
pub const COLLECT_LIMIT: u32 = 1_024;

/// So many octets of answers end the collecting at a front, at one event: as many as a turn reads of a connection.
pub const COLLECT_OCTETS: usize = 262_144;

/// All fronts of a site in one process, on one book, each with workers of its own. `S` is what the book is stored in, `R` what
/// their threads run on. It waits neither for the book's lock nor for a disk: workers charge, and a sweeper sweeps.
pub struct PoolFronts<L: Pooling, S: RowStore, R> {
    rt: R,
    shared: SharedBook<L, S>,
    sweeper: Sweeper<L>,
    fronts: Vec<PoolFront<L>>,
    book: Booked,
}

// By hand, so that each exit of an owner is proved with one call.
impl<L: Pooling, S: RowStore + Drop, R: Drop> Drop for PoolFronts<L, S, R> {
    fn drop(self) {
        let PoolFronts {
            rt: _,
            shared: _,
            sweeper: _,
            fronts: _,
            book: _,
        } = self;
    }
}

impl<L: Pooling, S: RowStore, R> Model for PoolFronts<L, S, R> {
    ghost use Rattle.pool_node.specs.Fronts.{FrontsState};

    ghost Value = { FrontsState };

    ghost view = { λ p. record { fronts = p.fronts.items; under_way = p.sweeper; next_sweep = p.book.next_sweep; figures = p.book.figures; is_recorded = p.book.events.is_on } };
}

/// The place of the front that is this node.
fn place_of_node<L: Pooling>(fronts: &[PoolFront<L>], node: NodeNo) -> Option<usize>
    ensures { result ≡ position (is_node node) fronts.now }
{
    fronts.iter().position(|front| front.is_node(node))
}

/// The place of the front at which a connection is up.
fn place_of_conn<L: Pooling>(fronts: &[PoolFront<L>], conn: ConnId) -> Option<usize>
    ensures { result ≡ position (is_up conn) fronts.now }
{
    fronts.iter().position(|front| front.is_up(conn))
}

/// What a node says that has sent this.
fn reaction(sent: Vec<(ConnId, Message)>, outcome: Result<(), NodeError>) -> Reaction
    ensures sent { result.out.items ≡ sent.items }
    ensures outcome { result.outcome ≡ outcome }
{
    let out = Out {
        items: Listing::from_vec(sent),
    };
    Reaction { out, outcome }
}

/// How a node tells of a sweep that it has collected, where it has.
fn outcome_of_sweep(done: &Option<SweepDone>) -> Result<(), NodeError>
    ensures { result ≡ told_of_sweep done.now }
{
    let Some(done) = done else {
        return Ok(());
    };
    match done.swept {
        Ok(_ended) => Ok(()),
        Err(BookRefusal::Full { limit }) => Err(NodeError::BookFull { limit }),
        Err(BookRefusal::OutOfMemory) => Err(NodeError::OutOfMemory),
    }
}

/// How a node tells of the jobs that it has collected and of a sweep: the first fault, if there is one.
fn outcome_of_all(
    collected: Result<(), NodeError>,
    done: &Option<SweepDone>,
) -> Result<(), NodeError>
    ensures { result ≡ told_of_all collected done.now }
{
    match collected {
        Err(error) => Err(error),
        Ok(()) => outcome_of_sweep(done),
    }
}

impl<L: Pooling, S: RowStore + Drop, R: Wait> PoolFronts<L, S, R> {
    /// These fronts, whose workers serve on this book, and their sweeper.
    pub fn new(
        rt: R,
        alloc: Global,
        shared: SharedBook<L, S>,
        sweeper: Sweeper<L>,
        fronts: Vec<PoolFront<L>>,
        timing: Timing,
    ) -> Self
        requires { sweeper ≡ None }
        ensures { result ≡ with_fronts timing fronts.items }
    {
        PoolFronts {
            rt,
            shared,
            sweeper,
            fronts,
            book: Booked::new(alloc, timing),
        }
    }

    /// Takes in what the sweep has come to that is under way, if it is done.
    #[tactic(auto, using(crate::proofs::Collecting::tells_sweep_on))]
    fn collect_sweep(&mut self) -> Option<SweepDone>
        ensures { CollectsSweep L.shared self.old result self.new }
    {
        let done = self.sweeper.collect(&self.rt)?;
        self.book.swept(&done);
        Some(done)
    }

    /// Asks for a sweep at this moment, where one is due and none is under way.
    #[tactic(auto, using(crate::proofs::Asking::nothing_under_way, crate::proofs::Asking::asks, crate::proofs::Asking::is_early, crate::proofs::Asking::waits_still))]
    fn ask_if_due(&mut self, moment: Moment)
        ensures { self.new ≡ after_asking self.old moment }
    {
        if self.book.is_due(moment) && !self.sweeper.is_under_way() {
            self.sweeper.ask(&self.rt, moment);
        }
    }

    /// From now on it keeps what its workers do until it is told ([`Recorded`]).
    pub fn begin_record(&mut self)
        ensures { self.new ≡ record self.old { is_recorded = true } }
    {
        self.book.begin_record();
    }

    /// From now on it keeps also what credit control itself refuses until it is taken ([`Refuses`]).
    pub fn log_credit(&mut self)
        ensures { self.new ≡ self.old }
    {
        self.book.log_credit();
    }

    /// Whether something that the book has done was not stored. The process is to end then: whether it stands is not known.
    pub fn has_failed(&self) -> bool {
        self.shared.has_failed()
    }

    /// How often something of the book was stored since the process began, and how many entries that were; none where it is kept in
    /// memory alone.
    pub fn commits(&self) -> Option<Commits> {
        if self.shared.is_stored() {
            Some(self.shared.commits())
        } else {
            None
        }
    }

    /// What the book's open sessions have reserved, in minor units: 2^64 - 1 where it is more.
    pub fn reserved(&self) -> u64 {
        self.shared.reserved()
    }

    /// What the book has come to, as far as answers were collected.
    pub fn figures(&self) -> BookFigures
        ensures { result ≡ self.now.figures }
    {
        self.book.figures()
    }

    /// How many finished jobs were dropped that no front waited for. There is none as long as workers finish what they take.
    pub fn strangers(&self) -> u64
        ensures { result ≡ strangers_of self.now.fronts }
    {
        let mut count: u64 = 0;
        for front in &self.fronts {
            count = count.saturating_add(front.strangers());
        }
        count
    }

    /// Collects a finished job of a front and puts its answer behind what is sent. How many octets were put there; none
    /// where no job is finished. It is a fault where there is no room for its answer, and nothing is collected then, or
    /// where it has none, for want of memory.
    fn collect_one(
        &mut self,
        place: usize,
        sent: &mut Vec<(ConnId, Message)>,
    ) -> Result<Option<usize>, NodeError>
        requires { place < length self.old.fronts }
        ensures collects { CollectsMore L.site L.shared self.old sent.old.items sent.new.items (told_of_one result) self.new }
        ensures places { length self.new.fronts ≡ length self.old.fronts }
        ensures adds { AddsOne result sent.old.items sent.new.items }
    {
        if sent.reserve(1).is_err() {
            return Err(NodeError::OutOfMemory);
        }
        let front = &mut self.fronts[place];
        let Some(finished) = front.collect(&self.rt) else {
            return Ok(None);
        };
        self.book.collected(finished.as_finished());
        let octets = front.post(finished, sent)?;
        Ok(Some(octets))
    }

    /// Collects what is finished at a front, until that comes to [`COLLECT_OCTETS`] or more: what goes out at one event is
    /// not to end a connection on which no more than four times as many octets may be unsent. What is left is collected
    /// at the next event, and a tick comes with each turn, whether the node is woken or not.
    fn collect_at(
        &mut self,
        place: usize,
        sent: &mut Vec<(ConnId, Message)>,
    ) -> Result<(), NodeError>
        requires { place < length self.old.fronts }
        ensures collects { CollectsMore L.site L.shared self.old sent.old.items sent.new.items result self.new }
        ensures places { length self.new.fronts ≡ length self.old.fronts }
        ensures few { AddsFew 1 sent.old.items sent.new.items }
    {
        let mut octets: usize = 0;
        for round in 0..COLLECT_LIMIT {
            let Some(more) = self.collect_one(place, sent)? else {
                break;
            };
            octets = octets.saturating_add(more);
            if octets >= COLLECT_OCTETS {
                break;
            }
        }
        Ok(())
    }

    /// Collects what is finished at all fronts.
    fn collect_all(&mut self, sent: &mut Vec<(ConnId, Message)>) -> Result<(), NodeError>
        ensures collects { CollectsMore L.site L.shared self.old sent.old.items sent.new.items result self.new }
        ensures few { AddsFew (length self.old.fronts) sent.old.items sent.new.items }
    {
        for place in 0..self.fronts.len() {
            self.collect_at(place, sent)?;
        }
        Ok(())
    }

    /// Collects what is finished at all fronts, and the sweep that is done.
    fn take_in(&mut self, alloc: Global) -> Reaction
        ensures { TakesIn L.site L.shared self.old result.out.items result.outcome self.new }
    {
        let mut sent = Vec::new(alloc);
        let collected = self.collect_all(&mut sent);
        let done = self.collect_sweep();
        reaction(sent, outcome_of_all(collected, &done))
    }
}

impl<L: Pooling, S: RowStore + Drop, R: Drop> PoolFronts<L, S, R> {
    /// Ends all workers and the sweeper, and closes the book. What they have done and nobody has collected is told, the sweep that was
    /// under way with it. The book, with all of its history; none where memory was missing.
    pub fn end<T: Threads + Wait + Clock>(
        self,
        rt: &T,
        alloc: Global,
        recorder: &mut Recorder,
    ) -> Option<ClosedBook>
        ensures legal { IfSome result (λ closed. IsLegal closed.book.terms closed.book.history) }
        ensures whole { IfSome result (λ closed. IsWhole L.shared closed.book closed.seen.book closed.seen.log) }
    {
        let PoolFronts {
            rt: _,
            shared,
            sweeper,
            fronts,
            mut book,
        } = self;
        let stopped = stop_all(rt, alloc, &shared, fronts, sweeper, &mut book);
        book.tell(alloc, recorder);
        let Ok(seats) = stopped else {
            return None;
        };
        match shared.close(rt, alloc, seats, &[]) {
            Ok(closed) => Some(closed),
            Err(_) => None,
        }
    }
}

impl<L: Pooling, S: RowStore + Drop, R: Wait> Node for PoolFronts<L, S, R> {
    ghost on_event = { OnFrontsEvent L.site L.shared };

    fn on_up(&mut self, alloc: Global, local: NodeNo, _peer: NodeNo, conn: ConnId) -> Reaction {
        let Some(place) = place_of_node(&self.fronts, local) else {
            return Reaction::refuses(alloc, NodeError::UnknownNode { node: local });
        };
        match self.fronts[place].conn_up(conn) {
            Ok(()) => Reaction::nothing(alloc),
            Err(_) => Reaction::refuses(alloc, NodeError::OutOfMemory),
        }
    }

    fn on_message<W: Wire>(&mut self, alloc: Global, conn: ConnId, message: Message) -> Reaction {
        let Some(place) = place_of_conn(&self.fronts, conn) else {
            return Reaction::refuses(alloc, NodeError::UnknownConn { conn });
        };
        match self.fronts[place].on_message::<W, R>(&self.rt, alloc, conn, message) {
            Ok(None) => Reaction::nothing(alloc),
            Ok(Some(out)) => Reaction::sends(out),
            Err(error) => Reaction::refuses(alloc, error),
        }
    }

    fn on_leaving(&mut self, alloc: Global, _conn: ConnId) -> Reaction {
        Reaction::nothing(alloc)
    }

    fn on_lost<W: Wire>(&mut self, alloc: Global, conn: ConnId) -> Reaction {
        if let Some(place) = place_of_conn(&self.fronts, conn) {
            self.fronts[place].conn_lost(conn);
        }
        Reaction::nothing(alloc)
    }

    fn on_tick<W: Wire>(&mut self, alloc: Global, moment: Moment) -> Reaction {
        let reaction = self.take_in(alloc);
        self.ask_if_due(moment);
        reaction
    }

    fn on_wake<W: Wire>(&mut self, alloc: Global) -> Reaction {
        self.take_in(alloc)
    }
}

/// Their charges, refusals and sweeps.
impl<L: Pooling, S: RowStore + Drop, R> Recorded for PoolFronts<L, S, R> {
    fn tell_events(&mut self, alloc: Global, recorder: &mut Recorder) {
        self.book.tell(alloc, recorder);
    }
}

/// What their workers have refused.
impl<L: Pooling, S: RowStore + Drop, R> Refuses for PoolFronts<L, S, R> {
    fn take_refused(&mut self) -> Option<Refused> {
        self.book.take_refused()
    }
}
