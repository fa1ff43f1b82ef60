//! The sweeper's own thread.

ghost use Rattle.std.specs.Prelude.{◌≡◌, MatchResult, None, Some, Ok, Err};
ghost use Rattle.std.specs.Arc.{arc_value};
ghost use Rattle.crossbeam_utils.specs.Seq.{cell_view};
ghost use Rattle.cc_sweeper.specs.Errands.{idle_hand};
ghost use Rattle.cc_sweeper.specs.Sweeps.{IsSweptTo};

use crate::desk::SweepDesk;
use crate::errand::{Answers, Errand, ErrandPass, SweepDone, Takes};
use book_store::RowStore;
use cc_book::BookRefusal;
use cc_shared::{SharedBook, Sharing, Swept};
use dia_base::Moment;
use front_pool::Wake;
use std::marker::Model;
use std::sync::{Arc, Wait};

/// The sweeper in its thread, with a handle of its own on the book. Contracts see at which moment it is to sweep, where it has
/// looked and has not done that yet.
#[derive(Drop)]
pub struct Hand<L: Sharing, S: RowStore, K> {
    desk: Arc<SweepDesk<L>>,
    pass: ErrandPass,
    shared: SharedBook<L, S>,
    waker: K,
}

impl<L: Sharing, S: RowStore, K> Model for Hand<L, S, K> {
    ghost use Rattle.std.specs.Prelude.{◌≡◌, Option};
    ghost use Rattle.std.specs.Arc.{arc_value};
    ghost use Rattle.crossbeam_utils.specs.Seq.{cell_view};
    ghost use Rattle.dia_base.specs.declared.number.Moment.{Moment as At};
    ghost use Rattle.cc_sweeper.specs.Errands.{to_do};
    ghost use Rattle.cc_sweeper.specs.declared.errand.User.TheVariants.{Hand as OfHand};

    ghost Value = { Option At };

    ghost view = { λ h. to_do (cell_view h.pass) };

    ghost invariant = { λ h. (h.pass.table_id ≡ (arc_value h.desk).errand.table.shared.table_id) × (cell_view h.pass ≡ OfHand (to_do (cell_view h.pass))) };
}

/// How many sessions a sweep has ended, or why it was refused.
pub fn ended_by(swept: Result<Swept, BookRefusal>) -> Result<u64, BookRefusal>
    ensures { MatchResult swept (λ swept. result ≡ Ok swept.ended) (λ refusal. result ≡ Err refusal) }
{
    match swept {
        Ok(swept) => Ok(swept.ended),
        Err(refusal) => Err(refusal),
    }
}

/// Sweeps the book at this moment, behind its lock.
pub fn sweep_now<L: Sharing, S: RowStore + Drop, R: Wait>(
    rt: &R,
    shared: &SharedBook<L, S>,
    moment: Moment,
) -> SweepDone
    ensures moment { result.moment ≡ moment }
    ensures swept { IsSweptTo L.shared moment result.swept }
{
    let swept = ended_by(shared.sweep(rt, moment));
    SweepDone { moment, swept }
}

impl<L: Sharing, S: RowStore + Drop, K: Wake + Drop> Hand<L, S, K> {
    /// One that has not looked yet.
    pub fn new(
        desk: Arc<SweepDesk<L>>,
        pass: ErrandPass,
        shared: SharedBook<L, S>,
        waker: K,
    ) -> Self
        requires desk { pass.table_id ≡ (arc_value desk).errand.table.shared.table_id }
        requires idle { cell_view pass ≡ idle_hand }
        ensures { result ≡ None }
    {
        Hand {
            desk,
            pass,
            shared,
            waker,
        }
    }

    /// At which moment it is to sweep. None where nothing is to be done.
    fn look<R: Wait>(&mut self, rt: &R) -> Option<Moment>
        ensures { result ≡ self.new }
    {
        match self.desk.errand.load_as::<Takes, R>(rt, &mut self.pass) {
            Errand::Asked { moment } => Some(moment),
            Errand::Nothing | Errand::Done { .. } => None,
        }
    }

    /// Puts what the sweep has come to where it is collected.
    fn answer<R: Wait>(&mut self, rt: &R, done: SweepDone)
        requires asked { self.old ≡ Some done.moment }
        requires swept { IsSweptTo L.shared done.moment done.swept }
        ensures { self.new ≡ None }
    {
        self.desk
            .errand
            .swap_as::<Answers, R>(rt, &mut self.pass, Errand::Done { done });
    }

    /// Sweeps the book, and wakes who has asked for it.
    fn carry_out<R: Wait>(&mut self, rt: &R, moment: Moment)
        requires { self.old ≡ Some moment }
        ensures { self.new ≡ None }
    {
        let done = sweep_now(rt, &self.shared, moment);
        self.answer(rt, done);
        self.waker.wake();
    }

    /// Does what is asked for, one after the other, until it is to end. What it was asked for then is done.
    fn work<R: Wait>(&mut self, rt: &R)
        ensures { self.new ≡ None }
    {
        for _ in rt.forever() {
            let seen = self.desk.news();
            let is_stopping = self.desk.is_stopping();
            match self.look(rt) {
                Some(moment) => self.carry_out(rt, moment),
                None if is_stopping => return,
                None => self.desk.wait(rt, seen),
            }
        }
        unreachable!()
    }

    /// Works until it is to end.
    pub fn run<R: Wait>(self, rt: &R) {
        let mut hand = self;
        hand.work(rt);
    }
}
