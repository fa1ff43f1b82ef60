//! A sweeper, as whoever asks it has it.

ghost use Rattle.std.specs.Prelude.{◌≡◌, None, Some, is_some};
ghost use Rattle.std.specs.Arc.{arc_value};
ghost use Rattle.crossbeam_utils.specs.Seq.{cell_view};
ghost use Rattle.cc_sweeper.specs.Errands.{idle_asker};
ghost use Rattle.cc_sweeper.specs.Sweeps.{Collects as CollectsIt, EndsWith};

use crate::desk::SweepDesk;
use crate::errand::{Asks, Collects, Errand, ErrandPass, Sees, SweepDone};
use crate::hand::sweep_now;
use book_store::RowStore;
use cc_shared::{SharedBook, Sharing};
use dia_base::Moment;
use std::marker::Model;
use std::sync::{Arc, Wait};
use std::thread::{JoinHandle, Threads};

/// A thread that sweeps a shared book where it is asked to. Contracts see at which moment a sweep is under way: asked for, and not
/// collected.
#[derive(Drop)]
pub struct Sweeper<L: Sharing> {
    desk: Arc<SweepDesk<L>>,
    pass: ErrandPass,
    thread: JoinHandle<()>,
    asked: Option<Moment>,
}

impl<L: Sharing> Model for Sweeper<L> {
    ghost use Rattle.std.specs.Prelude.{◌≡◌, Option, true};
    ghost use Rattle.std.specs.Arc.{arc_value};
    ghost use Rattle.crossbeam_utils.specs.Seq.{cell_view};
    ghost use Rattle.dia_base.specs.declared.number.Moment.{Moment as At};
    ghost use Rattle.cc_sweeper.specs.Errands.{IsAsker};

    ghost Value = { Option At };

    ghost view = { λ s. s.asked };

    ghost invariant = { λ s. (s.pass.table_id ≡ (arc_value s.desk).errand.table.shared.table_id) × IsAsker (cell_view s.pass) s.asked };
}

impl<L: Sharing> Sweeper<L> {
    /// One of which nothing was asked yet, with a thread that looks at this desk.
    pub fn of_thread(desk: Arc<SweepDesk<L>>, pass: ErrandPass, thread: JoinHandle<()>) -> Self
        requires desk { pass.table_id ≡ (arc_value desk).errand.table.shared.table_id }
        requires idle { cell_view pass ≡ idle_asker }
        ensures { result ≡ None }
    {
        Sweeper {
            desk,
            pass,
            thread,
            asked: None,
        }
    }

    /// Whether a sweep is under way: no other can be asked for then.
    pub fn is_under_way(&self) -> bool
        ensures { result ≡ is_some self.now }
    {
        self.asked.is_some()
    }

    /// Asks for a sweep at this moment, and does not wait for it.
    pub fn ask<R: Wait>(&mut self, rt: &R, moment: Moment)
        requires { self.old ≡ None }
        ensures { self.new ≡ Some moment }
    {
        self.desk
            .errand
            .swap_as::<Asks, R>(rt, &mut self.pass, Errand::Asked { moment });
        self.asked = Some(moment);
        self.desk.tell();
    }

    /// What the sweep that is under way has come to, once it is done. None where it is not, or where none is.
    pub fn collect<R: Wait>(&mut self, rt: &R) -> Option<SweepDone>
        ensures { CollectsIt L.shared self.old result self.new }
    {
        self.asked?;
        let Errand::Done { done } = self.desk.errand.load_as::<Sees<L>, R>(rt, &mut self.pass)
        else {
            return None;
        };
        self.desk
            .errand
            .swap_as::<Collects, R>(rt, &mut self.pass, Errand::Nothing);
        self.asked = None;
        Some(done)
    }

    /// Ends the thread, which does before what is asked for, and joins it. What the sweep has come to that was under way; where the
    /// thread has left it, the book is swept here, by this handle.
    pub fn stop<S: RowStore + Drop, R: Threads + Wait>(
        self,
        rt: &R,
        shared: &SharedBook<L, S>,
    ) -> Option<SweepDone>
        ensures { EndsWith L.shared self result }
    {
        let Sweeper {
            desk,
            mut pass,
            thread,
            asked,
        } = self;
        desk.stop();
        thread.join(rt);
        let asked = asked?;
        match desk.errand.load_as::<Sees<L>, R>(rt, &mut pass) {
            Errand::Done { done } => Some(done),
            Errand::Nothing | Errand::Asked { .. } => Some(sweep_now(rt, shared, asked)),
        }
    }
}
