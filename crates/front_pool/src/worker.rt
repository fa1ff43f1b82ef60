//! A worker, in a thread of its own.

ghost use Rattle.std.specs.Prelude.{◌≡◌, ◌+◌, ◌≤◌, [], ◌∷◌, All, IfSome, IfNone, IfOk, IfErr, OnOk, map, sum_by, vec_capacity, vec_len};
ghost use Rattle.std.specs.Arc.{arc_value};
ghost use Rattle.crossbeam_queue.specs.Passes.{IsPassOf, view};
ghost use Rattle.front_pool.specs.Answering.{AreServed, IsAnsweredByOne, IsAskedOf, IsServedAt, Reads};
ghost use Rattle.front_pool.specs.Counting.{takes_served, takes_told};
ghost use Rattle.front_pool.specs.Moving.{of_worker};
ghost use Rattle.front_pool.specs.Working.{AsksAll, HandsIn, ReadsAll, TakesMore, TurnsOver, WorksOff, no_turns, with_jobs_finished, with_jobs_taken};

use crate::answering::{Reading, read, refuse, spell};
use crate::desk::Desk;
use crate::gate::Gate;
use crate::queues::{FinishedPass, JobPass, Puts, Takes};
use crate::site::Pooling;
use crate::task::{Done, Task};
use book_store::RowStore;
use cc_shared::{Asked, Seat, Served, SharedBook};
use dia_avp::Wire;
use std::alloc::Global;
use std::marker::Model;
use std::rt::Clock;
use std::sync::Wait;
use std::thread;
use std::time::Duration;

/// The most jobs that a worker has in hand.
const IN_HAND: usize = 256;

/// How many milliseconds a worker sleeps that finds no room for an answer, before it tries again.
const NO_ROOM: u64 = 1;

/// A worker: what it shares with the others of its pool, and what is its own. Contracts see its front, the jobs that it has
/// taken, those that it has finished, and what its seat has counted.
#[derive(Drop)]
pub struct Worker<L: Pooling, S: RowStore, G> {
    desk: Desk<L, G>,
    job_pass: JobPass,
    finished_pass: FinishedPass,
    shared: SharedBook<L, S>,
    seat: Seat<L>,
}

impl<L: Pooling, S: RowStore, G> Model for Worker<L, S, G> {
    ghost use Rattle.std.specs.Prelude.{◌≡◌, false};
    ghost use Rattle.std.specs.Arc.{arc_value};
    ghost use Rattle.crossbeam_queue.specs.Passes.{IsPassOf, view as known_to};
    ghost use Rattle.front_pool.specs.Working.{Turns};

    ghost Value = { Turns };

    ghost view = { λ w. record { front = w.desk.front; taken = (known_to w.job_pass).taken; finished = (known_to w.finished_pass).put; counted = w.seat } };

    ghost invariant = { λ w. (arc_value w.desk.site ≡ L.site w.desk.front) × IsPassOf (arc_value w.desk.jobs) w.job_pass
        × IsPassOf (arc_value w.desk.finished) w.finished_pass
        × ((known_to w.job_pass).by_pool ≡ false) × ((known_to w.finished_pass).by_pool ≡ false) };
}

impl<L: Pooling, S: RowStore + Drop, G: Gate + Drop> Worker<L, S, G> {
    /// A worker that has done nothing yet.
    pub fn new(
        desk: Desk<L, G>,
        job_pass: JobPass,
        finished_pass: FinishedPass,
        shared: SharedBook<L, S>,
        seat: Seat<L>,
    ) -> Self
        requires site { arc_value desk.site ≡ L.site desk.front }
        requires jobs { IsPassOf (arc_value desk.jobs) job_pass × (view job_pass ≡ of_worker) }
        requires finished { IsPassOf (arc_value desk.finished) finished_pass × (view finished_pass ≡ of_worker) }
        ensures { result ≡ no_turns desk.front seat }
    {
        Worker {
            desk,
            job_pass,
            finished_pass,
            shared,
            seat,
        }
    }

    /// A job that waits. None where none does.
    fn take<R: Wait>(&mut self, rt: &R) -> Option<Task>
        ensures some { IfSome result (λ job. self.new ≡ with_jobs_taken self.old (job ∷ [])) }
        ensures none { IfNone result (self.new ≡ self.old) }
    {
        self.desk.jobs.pop_as::<Takes, R>(rt, &mut self.job_pass)
    }

    /// How many jobs it takes in hand, with the one that it has: all that wait, where the book is stored. In memory it takes no other
    /// while another worker has none; else its share of those that wait.
    fn share<R: Wait>(&mut self, rt: &R) -> usize
        ensures { self.new ≡ self.old }
    {
        let is_stored = self.shared.is_stored();
        if !is_stored && !self.desk.control.are_all_busy() {
            return 1;
        }
        let waiting = self.desk.jobs.len_as::<Takes, R>(rt, &mut self.job_pass);
        let among = if is_stored {
            1
        } else {
            self.desk.control.workers().max(1)
        };
        (waiting / among as usize).saturating_add(1).min(IN_HAND)
    }

    /// Takes jobs that wait behind those that it has in hand, until it has so many, or none waits.
    fn take_more<R: Wait>(&mut self, rt: &R, jobs: Vec<Task>, share: usize) -> Vec<Task>
        requires one { vec_len jobs ≡ 1 }
        requires room { share ≤ vec_capacity jobs }
        ensures taken { TakesMore self.old jobs.items result.items self.new }
        ensures few { vec_len result ≤ vec_capacity jobs }
    {
        let mut jobs = jobs;
        for _more in 1..share {
            let Some(job) = self.take(rt) else {
                break;
            };
            jobs.push_reserved(job);
        }
        jobs
    }

    /// Puts a finished job where it is collected. One for which there is no room comes back.
    fn put<R: Wait>(&mut self, rt: &R, finished: Done) -> Result<(), Done>
        requires { IsAnsweredByOne L.site L.shared finished }
        ensures ok { OnOk result (self.new ≡ with_jobs_finished self.old (finished ∷ [])) }
        ensures err { IfErr result (λ back. (back ≡ finished) × (self.new ≡ self.old)) }
    {
        self.desk
            .finished
            .push_as::<Puts, R>(rt, &mut self.finished_pass, finished)
    }

    /// Puts a finished job where it is collected, and waits for room.
    fn hand_in<R: Wait + Clock>(&mut self, rt: &R, finished: Done)
        requires { IsAnsweredByOne L.site L.shared finished }
        ensures { self.new ≡ with_jobs_finished self.old (finished ∷ []) }
    {
        let mut finished = finished;
        for _ in rt.forever() {
            match self.put(rt, finished) {
                Ok(()) => return,
                Err(back) => finished = back,
            }
            thread::sleep(rt, Duration::from_millis(NO_ROOM));
        }
        unreachable!()
    }

    /// Reads the message of a job.
    fn read<W: Wire, R: Wait + Clock>(&self, rt: &R, alloc: Global, job: Task) -> Reading
        ensures { Reads L.site L.shared self.now.front job result }
    {
        let Desk {
            front,
            site,
            timer,
            gate,
            ..
        } = &self.desk;
        read::<W, L, R, G>(rt, alloc, *front, site, *timer, &**gate, job)
    }

    /// Hands in a finished job. Its gate hears of it.
    fn finish<R: Wait + Clock>(&mut self, rt: &R, finished: Done)
        requires { IsAnsweredByOne L.site L.shared finished }
        ensures { self.new ≡ with_jobs_finished self.old (finished ∷ []) }
    {
        let number = finished.as_finished().job;
        self.hand_in(rt, finished);
        self.desk.gate.answered(rt, number);
    }

    /// Finishes a job. The batch has ended: where the book is asked, by the call that asks it.
    fn serve<W: Wire, R: Wait + Clock>(&mut self, rt: &R, alloc: Global, job: Task)
        ensures { WorksOff L.site L.shared (job ∷ []) self.old self.new }
    {
        match self.read::<W, R>(rt, alloc, job) {
            Reading::Answered { finished } => {
                self.shared.end_batch();
                self.finish(rt, finished);
            }
            Reading::Asks { asked } => {
                let Asked {
                    job,
                    moment,
                    request,
                } = asked;
                let result = self
                    .shared
                    .serve(rt, alloc, &mut self.seat, moment, request);
                let served = Served {
                    job,
                    moment,
                    result,
                };
                let done = spell::<W, L>(alloc, self.desk.front, &self.desk.site, served);
                self.finish(rt, done);
            }
        }
    }

    /// Reads the messages of these jobs. What is answered without the book is finished; of the others the book is to be asked.
    fn read_all<W: Wire, R: Wait + Clock>(
        &mut self,
        rt: &R,
        alloc: Global,
        jobs: Vec<Task>,
        asked: Vec<Asked<Task>>,
    ) -> Vec<Asked<Task>>
        requires none { asked.items ≡ [] }
        requires room { vec_len jobs ≤ vec_capacity asked }
        ensures reads { ReadsAll L.site L.shared self.old.front jobs.items result.items self.old self.new }
    {
        let mut asked = asked;
        for job in jobs {
            match self.read::<W, R>(rt, alloc, job) {
                Reading::Answered { finished } => self.finish(rt, finished),
                Reading::Asks { asked: one } => asked.push_reserved(one),
            }
        }
        asked
    }

    /// Has the book serve these requests, one behind the other. Without memory they are handed back. The batch has ended.
    fn ask_all<R: Wait>(
        &mut self,
        rt: &R,
        alloc: Global,
        asked: Vec<Asked<Task>>,
    ) -> Result<Vec<Served<Task>>, Vec<Asked<Task>>>
        requires { All (IsAskedOf (L.site self.old.front)) asked.items }
        ensures ok { IfOk result (λ served. AsksAll (L.site self.old.front) L.shared asked.items served.items self.old self.new) }
        ensures err { IfErr result (λ back. (back ≡ asked) × (self.new ≡ self.old)) }
    {
        self.shared.serve_all(rt, alloc, &mut self.seat, asked)
    }

    /// Finishes these jobs, which the book has served or refused.
    fn finish_served<W: Wire, R: Wait + Clock>(
        &mut self,
        rt: &R,
        alloc: Global,
        served: Vec<Served<Task>>,
    )
        requires { All (IsServedAt (L.site self.old.front) L.shared) served.items }
        ensures { HandsIn L.site L.shared (map (λ one. one.job) served.items) (sum_by takes_served served.items) self.old self.new }
    {
        for one in served {
            let done = spell::<W, L>(alloc, self.desk.front, &self.desk.site, one);
            self.finish(rt, done);
        }
    }

    /// Finishes these jobs, of which the book was not asked for want of memory.
    fn finish_refused<W: Wire, R: Wait + Clock>(
        &mut self,
        rt: &R,
        alloc: Global,
        asked: Vec<Asked<Task>>,
    )
        ensures { HandsIn L.site L.shared (map (λ one. one.job) asked.items) 0 self.old self.new }
    {
        for one in asked {
            let Asked {
                job,
                moment: _,
                request: _,
            } = one;
            let done = refuse::<W, L>(alloc, self.desk.front, &self.desk.site, job);
            self.finish(rt, done);
        }
    }

    /// Finishes these jobs, for which the book is asked with its lock held once.
    fn serve_all<W: Wire, R: Wait + Clock>(
        &mut self,
        rt: &R,
        alloc: Global,
        jobs: Vec<Task>,
        asked: Vec<Asked<Task>>,
    )
        requires none { asked.items ≡ [] }
        requires room { vec_len jobs ≤ vec_capacity asked }
        ensures { WorksOff L.site L.shared jobs.items self.old self.new }
    {
        let asked = self.read_all::<W, R>(rt, alloc, jobs, asked);
        match self.ask_all(rt, alloc, asked) {
            Ok(served) => self.finish_served::<W, R>(rt, alloc, served),
            Err(asked) => self.finish_refused::<W, R>(rt, alloc, asked),
        }
    }

    /// Finishes a job, and with it its share of those that wait.
    fn serve_share<W: Wire, R: Wait + Clock>(&mut self, rt: &R, alloc: Global, job: Task)
        ensures { TurnsOver L.site L.shared job self.old self.new }
    {
        let share = self.share(rt);
        if share <= 1 {
            return self.serve::<W, R>(rt, alloc, job);
        }
        let Ok(mut jobs) = Vec::with_capacity(alloc, share) else {
            return self.serve::<W, R>(rt, alloc, job);
        };
        let Ok(asked) = Vec::with_capacity(alloc, share) else {
            return self.serve::<W, R>(rt, alloc, job);
        };
        jobs.push_reserved(job);
        let jobs = self.take_more(rt, jobs, share);
        self.serve_all::<W, R>(rt, alloc, jobs, asked);
    }

    /// One turn: it has jobs in hand, and finishes them.
    fn turn<W: Wire, R: Wait + Clock>(&mut self, rt: &R, alloc: Global, job: Task)
        ensures { TurnsOver L.site L.shared job self.old self.new }
    {
        self.desk.control.begin_turn();
        self.serve_share::<W, R>(rt, alloc, job);
        self.desk.control.end_turn();
    }

    /// Takes jobs and finishes them, one after the other, until the pool stops. It collects the jobs of a stored book while no other
    /// worker does, so that one commit has all that wait. Each take that its seat counts has its receipt
    /// among what it has finished.
    fn work<W: Wire, R: Wait + Clock>(&mut self, rt: &R, alloc: Global)
        requires { self.old ≡ no_turns self.old.front self.old.counted }
        ensures served { AreServed L.site L.shared self.new.taken self.new.finished }
        ensures count { self.new.counted ≡ self.old.counted + takes_told self.new.finished }
    {
        for _ in rt.forever() {
            let seen = self.desk.control.news();
            if self.desk.control.is_stopping() {
                break;
            }
            self.shared.begin_batch(rt);
            match self.take(rt) {
                Some(job) => self.turn::<W, R>(rt, alloc, job),
                None => {
                    self.shared.end_batch();
                    self.desk.control.wait(rt, seen);
                }
            }
        }
    }

    /// Works until the pool stops, and gives the seat back.
    pub fn run<W: Wire, R: Wait + Clock>(self, rt: &R, alloc: Global) -> Seat<L>
        requires { self ≡ no_turns self.front self.counted }
    {
        let mut worker = self;
        worker.work::<W, R>(rt, alloc);
        worker.desk.control.end();
        let Worker {
            desk: _,
            job_pass: _,
            finished_pass: _,
            shared: _,
            seat,
        } = worker;
        seat
    }
}
