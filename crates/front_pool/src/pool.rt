//! A pool: the jobs that were handed over, and the threads that work on them.

ghost use Rattle.std.specs.Prelude.{◌≡◌, ◌+◌, ◌≤◌, List, [], ◌∷◌, ◌++◌, length, All, IfErr, IfNone, IfOk, IfSome, MatchBool, true, false, vec_len, vec_capacity};
ghost use Rattle.std.specs.List.Sorted.{IsPermutation};
ghost use Rattle.std.specs.Arc.{arc_value};
ghost use Rattle.crossbeam_queue.specs.Passes.{IsPassOf, ruled_capacity, view};
ghost use Rattle.front_pool.specs.Answering.{IsAnsweredBy, IsAnsweredByOne};
ghost use Rattle.front_pool.specs.declared.job.Job.{Job};
ghost use Rattle.front_pool.specs.Jobs.{job_of, jobs_of};
ghost use Rattle.front_pool.specs.Keeping.{Balances, Collects, HandsBack, IsAt, IsStranger, IsTakenOff, more_by, new_pool};
ghost use Rattle.front_pool.specs.Moving.{of_pool, with_put, with_taken};

use crate::control::Control;
use crate::desk::Desk;
use crate::error::SubmitError;
use crate::job::{Finished, Job, Stopped, is_of};
use crate::queues::{FinishedPass, FinishedQueue, JobPass, JobQueue, Puts, TakesAnswered};
use crate::site::Pooling;
use crate::task::{Done, Task};
use cc_shared::Seat;
use dia_base::{ConnId, NodeNo};
use dia_message::Message;
use std::alloc::Global;
use std::marker::Model;
use std::rt::Clock;
use std::sync::{Arc, Wait};
use std::thread;
use std::thread::{JoinHandle, Threads};
use std::time::Duration;

/// How many milliseconds a pool that stops sleeps, while its workers end, before it looks again.
const NOT_YET: u64 = 1;

/// Worker threads on one shared book. Contracts see how many there are, how many jobs may wait for them, the last number given,
/// the jobs that were handed over and not collected, all that it has put into its queue of jobs and taken out of that of
/// finished ones, and how many of these it has dropped.
pub struct Pool<L: Pooling> {
    /// Of it comes the memory for tasks.
    alloc: Global,
    front: NodeNo,
    jobs: Arc<JobQueue>,
    job_pass: JobPass,
    finished: Arc<FinishedQueue<L>>,
    finished_pass: FinishedPass,
    control: Arc<Control>,
    workers: Vec<JoinHandle<Seat<L>>>,
    /// Empty, with room for the seat of each worker.
    seats: Vec<Seat<L>>,
    last: u64,
    strangers: u64,
    unanswered: Vec<Job>,
    /// Empty, with room for each job that is not collected.
    room: Vec<Finished>,
}

// By hand, so that each exit of an owner is proved with one call.
impl<L: Pooling> Drop for Pool<L> {
    fn drop(self) {
        let Pool {
            alloc: _,
            front: _,
            jobs: _,
            job_pass: _,
            finished: _,
            finished_pass: _,
            control: _,
            workers: _,
            seats: _,
            last: _,
            strangers: _,
            unanswered: _,
            room: _,
        } = self;
    }
}

impl<L: Pooling> Model for Pool<L> {
    ghost use Rattle.std.specs.Prelude.{◌≡◌, ◌≤◌, [], true, vec_len, vec_capacity};
    ghost use Rattle.std.specs.Arc.{arc_value};
    ghost use Rattle.crossbeam_queue.specs.Passes.{IsPassOf, ruled_capacity, view as known_to};
    ghost use Rattle.front_pool.specs.Keeping.{IsNumbered, PoolState};

    ghost Value = { PoolState };

    ghost view = { λ p. record {
      front = p.front;
      workers = vec_len p.workers;
      room = ruled_capacity (arc_value p.jobs);
      last = p.last;
      unanswered = p.unanswered.items;
      put = (known_to p.job_pass).put;
      taken = (known_to p.finished_pass).taken;
      strangers = p.strangers;
    } };

    ghost invariant = { λ p. IsPassOf (arc_value p.jobs) p.job_pass × IsPassOf (arc_value p.finished) p.finished_pass
        × ((known_to p.job_pass).by_pool ≡ true) × ((known_to p.finished_pass).by_pool ≡ true)
        × (p.seats.items ≡ []) × (vec_len p.workers ≤ vec_capacity p.seats)
        × (p.room.items ≡ []) × (vec_len p.unanswered ≤ vec_capacity p.room) × IsNumbered p.unanswered.items p.last };
}

impl<L: Pooling> Pool<L> {
    /// A pool with these workers, before its first job.
    pub fn of_workers<G: Drop>(
        alloc: Global,
        desk: Desk<L, G>,
        job_pass: JobPass,
        finished_pass: FinishedPass,
        workers: Vec<JoinHandle<Seat<L>>>,
        seats: Vec<Seat<L>>,
    ) -> Self
        requires jobs { IsPassOf (arc_value desk.jobs) job_pass × (view job_pass ≡ of_pool) }
        requires finished { IsPassOf (arc_value desk.finished) finished_pass × (view finished_pass ≡ of_pool) }
        requires seats { (seats.items ≡ []) × (vec_len workers ≤ vec_capacity seats) }
        ensures { result ≡ new_pool desk.front (vec_len workers) (ruled_capacity (arc_value desk.jobs)) }
    {
        let Desk {
            jobs,
            finished,
            front,
            site: _,
            timer: _,
            gate: _,
            control,
        } = desk;
        Pool {
            alloc,
            front,
            jobs,
            job_pass,
            finished,
            finished_pass,
            control,
            workers,
            seats,
            last: 0,
            strangers: 0,
            unanswered: Vec::new(alloc),
            room: Vec::new(alloc),
        }
    }

    /// Hands a request over that came on this connection: it is a job from then on, under the next number, the first being 1.
    /// A request for which there is no room or no memory is handed back, and the pool is as it was.
    pub fn submit<R: Wait>(
        &mut self,
        rt: &R,
        conn: ConnId,
        request: Message,
    ) -> Result<u64, SubmitError>
        ensures { HandsBack self.old conn request result self.new }
    {
        let Some(number) = self.last.checked_add(1) else {
            return Err(SubmitError::PoolFull { request });
        };
        let Ok(copy) = request.clone() else {
            return Err(SubmitError::OutOfMemory { request });
        };
        if self.unanswered.reserve(1).is_err()
            || self.room.reserve(self.unanswered.len() + 1).is_err()
        {
            return Err(SubmitError::OutOfMemory { request });
        }
        let job = Job {
            number,
            conn,
            request: copy,
        };
        let Ok(task) = Task::new(self.alloc, self.front, job) else {
            return Err(SubmitError::OutOfMemory { request });
        };
        let unanswered = self.unanswered.len();
        if put(rt, &self.jobs, &mut self.job_pass, unanswered, task).is_err() {
            return Err(SubmitError::PoolFull { request });
        }
        self.unanswered.push_reserved(Job {
            number,
            conn,
            request,
        });
        self.last = number;
        self.control.tell_one();
        Ok(number)
    }

    /// A finished job. None where none that it waits for is there: what else is there is dropped, and counted.
    pub fn collect<R: Wait>(&mut self, rt: &R) -> Option<Done>
        ensures collects { Collects self.old result self.new }
        ensures answered { IfSome result (λ finished. IsAnsweredBy self.old.front L.site L.shared finished) }
    {
        for _ in rt.forever() {
            let finished = self.take(rt)?;
            match self.own(finished) {
                Some(own) => return Some(own),
                None => {}
            }
        }
        unreachable!()
    }

    /// The finished job, if the pool waits for it, from now on no more. Else it is dropped, and counted.
    fn own(&mut self, finished: Done) -> Option<Done>
        ensures some { IfSome result (λ own. (own ≡ finished) × (own.front ≡ self.old.front)
            × IsTakenOff (job_of own) self.old.unanswered self.new.unanswered × (self.new ≡ record self.old { unanswered = self.new.unanswered })) }
        ensures none { IfNone result (IsStranger self.old finished × (self.new ≡ record self.old { strangers = more_by self.old.strangers 1 })) }
    {
        if take_off(self.front, &mut self.unanswered, finished.as_finished()) {
            return Some(finished);
        }
        self.strangers = self.strangers.saturating_add(1);
        None
    }

    /// What a worker has put among the finished jobs. None where nothing is, which is asked first, since it takes less.
    fn take<R: Wait>(&mut self, rt: &R) -> Option<Done>
        ensures some { IfSome result (λ finished. self.new ≡ record self.old { taken = self.old.taken ++ finished ∷ [] }) }
        ensures none { IfNone result (self.new ≡ self.old) }
        ensures answered { IfSome result (λ finished. IsAnsweredByOne L.site L.shared finished) }
    {
        let there = self
            .finished
            .len_as::<TakesAnswered<L>, R>(rt, &mut self.finished_pass);
        if there == 0 {
            return None;
        }
        self.finished
            .pop_as::<TakesAnswered<L>, R>(rt, &mut self.finished_pass)
    }

    /// How many finished jobs it has dropped that it did not wait for. There is none as long as its workers finish what they take.
    pub fn strangers(&self) -> u64
        ensures { result ≡ self.now.strangers }
    {
        self.strangers
    }

    /// Ends all workers, each after the job that it holds, and joins them. Each job that was handed over and not collected
    /// is there once: finished, or, where no worker has finished it, unserved. It takes no memory.
    pub fn stop<R: Threads + Wait + Clock>(self, rt: &R) -> Stopped<L>
        ensures balances { Balances self (length result.seats.items) result.finished.items result.unserved.items }
        ensures answered { All (IsAnsweredBy self.front L.site L.shared) result.finished.items }
    {
        let Pool {
            alloc: _,
            front,
            jobs: _,
            job_pass: _,
            finished,
            finished_pass,
            control,
            workers,
            seats,
            last: _,
            strangers: _,
            unanswered,
            room,
        } = self;
        control.stop();
        let count = workers.len() as u64;
        let (finished, unserved) = drain::<L, R>(
            rt,
            front,
            &finished,
            finished_pass,
            &control,
            count,
            unanswered,
            room,
        );
        let seats = joined(rt, workers, seats);
        Stopped {
            seats,
            finished,
            unserved,
        }
    }
}

/// Puts a job into the queue of the workers. It comes back from a full queue. Each job in the queue is unanswered, so a queue that
/// seems full while fewer jobs are unanswered than it has room for is asked again.
fn put<R: Wait>(
    rt: &R,
    queue: &JobQueue,
    pass: &mut JobPass,
    unanswered: usize,
    job: Task,
) -> Result<(), Task>
    requires pass { IsPassOf queue.now pass.old × ((view pass.old).by_pool ≡ true) }
    ensures pass { IsPassOf queue.now pass.new }
    ensures put { IfOk result (λ _. view pass.new ≡ with_put (view pass.old) job) }
    ensures same { IfErr result (λ back. (back ≡ job) × (view pass.new ≡ view pass.old)) }
    ensures full { IfErr result (λ _. (ruled_capacity queue.now ≤ length (view pass.old).put) × (ruled_capacity queue.now ≤ unanswered)) }
{
    let mut job = job;
    for _ in rt.forever() {
        match queue.push_as::<Puts, R>(rt, pass, job) {
            Ok(()) => return Ok(()),
            Err(back) => {
                if unanswered >= queue.capacity() {
                    return Err(back);
                }
                job = back;
            }
        }
    }
    unreachable!()
}

/// The place of the job that is finished. None where it is not among these.
fn place_of(jobs: &[Job], finished: &Finished) -> Option<usize>
    ensures some { IfSome result (λ place. IsAt jobs.now place (job_of finished.now)) }
    ensures none { IfNone result ((rest : List Job) → IsTakenOff (job_of finished.now) jobs.now rest → ⊥) }
{
    for place in 0..jobs.len() {
        if is_of(&jobs[place], finished) {
            return Some(place);
        }
    }
    None
}

/// Takes off the job that is finished in the name of this front, where it is among these.
fn take_off(front: NodeNo, jobs: &mut Vec<Job>, finished: &Finished) -> bool
    ensures front { result ≡ true → finished.now.front ≡ front }
    ensures taken { MatchBool result (IsTakenOff (job_of finished.now) jobs.old.items jobs.new.items) (jobs.new.items ≡ jobs.old.items) }
    ensures stranger { result ≡ false → finished.now.front ≡ front → (rest : List Job) → IsTakenOff (job_of finished.now) jobs.old.items rest → ⊥ }
    ensures len { MatchBool result (vec_len jobs.new + 1 ≡ vec_len jobs.old) (vec_len jobs.new ≡ vec_len jobs.old) }
{
    if finished.front != front {
        return false;
    }
    let Some(place) = place_of(jobs, finished) else {
        return false;
    };
    let _job = jobs.remove(place);
    true
}

/// Takes finished jobs out until all of so many workers have ended and no more is there: those, and the jobs that are left.
fn drain<L: Pooling, R: Wait + Clock>(
    rt: &R,
    front: NodeNo,
    queue: &FinishedQueue<L>,
    pass: FinishedPass,
    control: &Control,
    workers: u64,
    unanswered: Vec<Job>,
    room: Vec<Finished>,
) -> (Vec<Finished>, Vec<Job>)
    requires pass { IsPassOf queue.now pass × ((view pass).by_pool ≡ true) }
    requires empty { room.items ≡ [] }
    requires room { vec_len unanswered ≤ vec_capacity room }
    ensures jobs { IsPermutation unanswered.items (jobs_of result.0.items ++ result.1.items) }
    ensures answered { All (IsAnsweredBy front L.site L.shared) result.0.items }
{
    let mut pass = pass;
    let mut left = unanswered;
    let mut finished = room;
    for _ in rt.forever() {
        let all_ended = control.ended() >= workers;
        match queue.pop_as::<TakesAnswered<L>, R>(rt, &mut pass) {
            Some(next) => {
                if take_off(front, &mut left, next.as_finished()) {
                    finished.push_reserved(next.into_finished());
                }
            }
            None if all_ended => break,
            None => thread::sleep(rt, Duration::from_millis(NOT_YET)),
        }
    }
    (finished, left)
}

/// These seats, and those of workers that end.
pub fn joined<L: Pooling, R: Threads>(
    rt: &R,
    workers: Vec<JoinHandle<Seat<L>>>,
    room: Vec<Seat<L>>,
) -> Vec<Seat<L>>
    requires { vec_len room + vec_len workers ≤ vec_capacity room }
    ensures { length result.items ≡ vec_len room + vec_len workers }
{
    let mut seats = room;
    for worker in workers {
        seats.push_reserved(worker.join(rt));
    }
    seats
}
