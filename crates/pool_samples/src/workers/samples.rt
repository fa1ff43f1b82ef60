//! Workers at work, and what comes of full queues and of a stop.

ghost use Rattle.std.specs.Prelude.{◌≡◌, ◌<◌, false};

use crate::messages::{DEBIT_WITHOUT_NUMBER, INITIAL, TERMINATION};
use crate::told::print_book;
use crate::workers::gates::{Bell, Hold, Holding, Signs};
use crate::workers::lines::{
    print_charged, print_counts, print_jobs, print_late, print_refused, print_times, print_wakes,
};
use crate::workers::running::{Ended, Running, front, start};
use cc_book::Book;
use cc_shared::BlankHistory;
use front_pool::{Gate, PoolQueue, Pooling, Wakes};
use samples_given::{ONE_ACCOUNT, book, debit, message};
use std::alloc::Global;
use std::marker::Brand;
use std::rt::Clock;
use std::sync::atomic::Ordering;
use std::sync::ledger::Blank;
use std::sync::{Arc, Wait};
use std::thread::Threads;

/// What is done with a pool.
#[derive(Clone, Copy)]
pub enum Sample {
    Jobs { places: bool },
    Woken,
    Told,
    Crowded,
    Stopped,
    Repeated,
    Refused,
    Session,
    Held,
}

/// Two jobs, of which each comes to an end.
fn jobs<L: Pooling, R: Threads + Wait + Clock + Print>(
    rt: &R,
    alloc: Global,
    running: &mut Running<L>,
    signs: &Signs,
    places: bool,
) -> anyhow::Result<()> {
    running.submit(rt, alloc, 0)?;
    running.submit(rt, alloc, 1)?;
    running.collect(rt, 2)?;
    print_jobs(rt, alloc, &running.finished, places)?;
    print_late(rt, signs)
}

/// One worker that wakes after each answer, which waits until it is collected.
fn woken<L: Pooling, R: Threads + Wait + Clock + Print>(
    rt: &R,
    alloc: Global,
    running: &mut Running<L>,
    signs: &Signs,
) -> anyhow::Result<()> {
    running.submit(rt, alloc, 0)?;
    running.submit(rt, alloc, 1)?;
    signs.hold(rt, &signs.wakes, 2);
    running.collect(rt, 2)?;
    print_late(rt, signs)
}

/// A worker that tells of its answer stands still as it does: the answer is there to be collected.
fn told<L: Pooling, R: Threads + Wait + Clock + Print>(
    rt: &R,
    alloc: Global,
    running: &mut Running<L>,
    signs: &Signs,
) -> anyhow::Result<()> {
    running.submit(rt, alloc, 0)?;
    signs.hold(rt, &signs.answered, 1);
    let is_there = running.take_one(rt)?;
    println!(rt; "there when it is told {is_there}")?;
    signs.door.store(1, Ordering::SeqCst);
    running.collect(rt, 1)?;
    print_late(rt, signs)
}

/// A worker holds one job, and one waits: there is no room for a third, which comes back.
fn crowded<L: Pooling, R: Threads + Wait + Clock + Print>(
    rt: &R,
    alloc: Global,
    running: &mut Running<L>,
    signs: &Signs,
) -> anyhow::Result<()> {
    running.submit(rt, alloc, 0)?;
    signs.hold(rt, &signs.before, 1);
    running.submit(rt, alloc, 1)?;
    running.print_full(rt, alloc, 2)?;
    signs.door.store(1, Ordering::SeqCst);
    running.collect(rt, 2)?;
    print_late(rt, signs)
}

/// Five jobs, one worker, and a pool that stops at once: each job is there once, and what is finished is what was charged.
fn stopped<L: Pooling, R: Threads + Wait + Clock + Print>(
    rt: &R,
    alloc: Global,
    running: &mut Running<L>,
) -> anyhow::Result<()> {
    for number in 0..5 {
        running.submit(rt, alloc, number)?;
    }
    Ok(())
}

/// A debit, and the same once more: it is charged once, and answered alike. One worker, which sleeps before each.
fn repeated<L: Pooling, R: Threads + Wait + Clock + Print>(
    rt: &R,
    alloc: Global,
    running: &mut Running<L>,
) -> anyhow::Result<()> {
    let began = running.timer.now(rt)?;
    running.ask(rt, debit(alloc, 0)?)?;
    running.ask(rt, debit(alloc, 0)?)?;
    print_jobs(rt, alloc, &running.finished, true)?;
    running.print_moments(rt, began)
}

/// A request that lacks an AVP: it is answered what it lacks, and the book is not asked.
fn refused<L: Pooling, R: Threads + Wait + Clock + Print>(
    rt: &R,
    alloc: Global,
    running: &mut Running<L>,
) -> anyhow::Result<()> {
    running.ask(rt, message(alloc, DEBIT_WITHOUT_NUMBER)?)?;
    print_refused(rt, alloc, &running.finished)
}

/// A session that begins and ends: it is open still when it says what it has used, and that is debited.
fn session<L: Pooling, R: Threads + Wait + Clock + Print>(
    rt: &R,
    alloc: Global,
    running: &mut Running<L>,
) -> anyhow::Result<()> {
    running.ask(rt, message(alloc, INITIAL)?)?;
    running.ask(rt, message(alloc, TERMINATION)?)?;
    print_jobs(rt, alloc, &running.finished, true)
}

/// A pool of two workers that stops while one of them holds a job, and the other one none: the job is finished.
fn held<L: Pooling, R: Threads + Wait + Clock + Print>(
    rt: &R,
    alloc: Global,
    running: &mut Running<L>,
    signs: &Signs,
) -> anyhow::Result<()> {
    running.submit(rt, alloc, 0)?;
    signs.hold(rt, &signs.before, 1);
    print_late(rt, signs)
}

/// What is done with a pool before it stops.
fn perform<L: Pooling, R: Threads + Wait + Clock + Print>(
    rt: &R,
    alloc: Global,
    running: &mut Running<L>,
    signs: &Signs,
    sample: Sample,
) -> anyhow::Result<()> {
    match sample {
        Sample::Jobs { places } => jobs(rt, alloc, running, signs, places),
        Sample::Woken => woken(rt, alloc, running, signs),
        Sample::Told => told(rt, alloc, running, signs),
        Sample::Crowded => crowded(rt, alloc, running, signs),
        Sample::Stopped => stopped(rt, alloc, running),
        Sample::Repeated => repeated(rt, alloc, running),
        Sample::Refused => refused(rt, alloc, running),
        Sample::Session => session(rt, alloc, running),
        Sample::Held => held(rt, alloc, running, signs),
    }
}

/// Tells what there is to tell of a pool that was stopped.
fn print_ended<L: Pooling, R: Print>(
    rt: &R,
    ended: &Ended<L>,
    signs: &Signs,
    sample: Sample,
) -> anyhow::Result<()> {
    match sample {
        Sample::Woken => print_wakes(rt, signs, ended.count()),
        Sample::Crowded | Sample::Held => print_counts(rt, ended.count(), ended.unserved.len()),
        Sample::Stopped => print_times(rt, &ended.finished, &ended.unserved),
        Sample::Jobs { places: _ }
        | Sample::Told
        | Sample::Repeated
        | Sample::Refused
        | Sample::Session => Ok(()),
    }
}

/// Tells what stands in the book behind so many jobs.
fn print_closed<R: Print>(rt: &R, book: &Book, count: usize, sample: Sample) -> anyhow::Result<()> {
    match sample {
        Sample::Stopped => print_charged(rt, book, count),
        _ => print_book(rt, "", book),
    }
}

/// A pool that was stopped, and its book.
fn end<L: Pooling, R: Wait + Print>(
    rt: &R,
    alloc: Global,
    ended: Ended<L>,
    signs: &Signs,
    sample: Sample,
) -> anyhow::Result<()> {
    print_ended(rt, &ended, signs, sample)?;
    let count = ended.count();
    let book = ended.close(rt, alloc)?;
    print_closed(rt, &book, count, sample)
}

fn print<L: Pooling, R: Threads + Wait + Clock + Print>(
    rt: &R,
    alloc: Global,
    running: Running<L>,
    signs: &Signs,
    sample: Sample,
) -> anyhow::Result<()> {
    let mut running = running;
    perform(rt, alloc, &mut running, signs, sample)?;
    end(rt, alloc, running.stop(rt), signs, sample)
}

fn run<L, R, G>(
    rt: &R,
    alloc: Global,
    blank: Blank,
    history: BlankHistory,
    book: Book,
    queue: PoolQueue,
    workers: u64,
    gate: G,
    signs: &Signs,
    sample: Sample,
) -> anyhow::Result<()>
where
    L: Pooling + Send + Sync + 'static,
    R: Threads + Wait + Clock + Print + Copy + Send + 'static,
    G: Gate + Drop + Send + Sync + 'static,
    requires name { blank.name ≡ L.name }
    requires parts { (blank.parts ≡ L.parts) × (blank.parts ≡ workers) }
    requires book { book ≡ L.shared.opened }
    requires history { history ≡ L.shared.log }
    requires memory { L.shared.stored ≡ false }
    requires jobs { 0 < queue.jobs }
    requires site { L.site queue.front ≡ record { name = queue.name; realm = queue.realm; profile = queue.profile } }
    requires some { 0 < workers }
{
    let running = start::<L, R, G>(rt, alloc, blank, history, book, queue, workers, gate)?;
    print(rt, alloc, running, signs, sample)
}

/// The sample with so many workers, and so many places for jobs.
fn print_gated<R, G>(
    rt: &R,
    alloc: Global,
    workers: u64,
    places: usize,
    gate: G,
    signs: &Signs,
    sample: Sample,
) -> anyhow::Result<()>
where
    R: Threads + Wait + Clock + Print + Copy + Send + 'static,
    G: Gate + Drop + Send + Sync + 'static,
    requires some { 0 < workers }
    requires places { 0 < places }
{
    let book = book(alloc, &ONE_ACCOUNT, 100)?;
    let queue = front(rt, alloc, places)?;
    run::<Brand, R, G>(
        rt,
        alloc,
        Blank::new(workers),
        BlankHistory::new(),
        book,
        queue,
        workers,
        gate,
        signs,
        sample,
    )
}

/// The sample with a gate that holds so.
fn print_held<R>(
    rt: &R,
    alloc: Global,
    workers: u64,
    places: usize,
    hold: Hold,
    sample: Sample,
) -> anyhow::Result<()>
where
    R: Threads + Wait + Clock + Print + Copy + Send + 'static,
    requires some { 0 < workers }
    requires places { 0 < places }
{
    let signs = Arc::new(alloc, Signs::new())?;
    let gate = Holding {
        signs: Arc::try_clone(&signs)?,
        hold,
    };
    print_gated::<R, Holding>(rt, alloc, workers, places, gate, &signs, sample)
}

/// One worker that wakes whoever waits.
fn print_woken<R>(rt: &R, alloc: Global) -> anyhow::Result<()>
where
    R: Threads + Wait + Clock + Print + Copy + Send + 'static,
{
    let signs = Arc::new(alloc, Signs::new())?;
    let waker = Bell(Arc::try_clone(&signs)?);
    print_gated::<R, Wakes<Bell>>(rt, alloc, 1, 8, Wakes { waker }, &signs, Sample::Woken)
}

/// Prints what becomes of jobs.
///
/// Job 1 waits before the book until job 2 is answered: only another worker can answer it. Then each job waits, once it is
/// answered, until both are: the book's lock is free while a worker waits. A job that waits once it is answered can be collected.
pub fn print_all<R>(rt: &R, alloc: Global) -> anyhow::Result<()>
where
    R: Threads + Wait + Clock + Print + Copy + Send + 'static,
{
    let (overtaken, together) = (
        Sample::Jobs { places: true },
        Sample::Jobs { places: false },
    );
    print_held(rt, alloc, 2, 8, Hold::FirstLast, overtaken)?;
    print_held(rt, alloc, 2, 8, Hold::Together, together)?;
    print_woken(rt, alloc)?;
    print_held(rt, alloc, 1, 8, Hold::Answered, Sample::Told)?;
    print_held(rt, alloc, 1, 1, Hold::Door, Sample::Crowded)?;
    print_held(rt, alloc, 1, 8, Hold::Nothing, Sample::Stopped)?;
    print_held(rt, alloc, 1, 8, Hold::Nothing, Sample::Repeated)?;
    print_held(rt, alloc, 1, 8, Hold::Nothing, Sample::Refused)?;
    print_held(rt, alloc, 1, 8, Hold::Nothing, Sample::Session)?;
    print_held(rt, alloc, 2, 8, Hold::Slowly, Sample::Held)
}
