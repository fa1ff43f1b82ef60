//! Answers of two fronts, many at a time, a session that is due, a full book, a record, and one for which memory is missing.

ghost use Rattle.std.specs.Prelude.{◌≡◌, ◌≤◌, ◌<◌, ◌^◌, false};
ghost use Rattle.dia_base.specs.declared.number.NodeNo.{NodeNo};
ghost use Rattle.pool_node.specs.Fronts.{site_of};

use crate::fronts::running::{Rings, Running};
use crate::fronts::site::{CLIENT, FIRST, SECOND, site};
use crate::messages::INITIAL;
use crate::nowhere::Nowhere;
use cc_book::Book;
use cc_shared::{BlankHistory, SharedBook};
use dia_avp::ViewWire;
use dia_base::Identity;
use dia_message::Message;
use farm_base::Site;
use farm_clock::Timer;
use farm_record::Recorder;
use front_pool::Pooling;
use pool_node::{PoolFronts, Timing, start_fronts};
use samples_given::{ONE_ACCOUNT, book, debit, message};
use std::alloc::{AllocError, Global};
use std::marker::Brand;
use std::rt::Clock;
use std::sync::atomic::AtomicU64;
use std::sync::ledger::Blank;
use std::sync::{Arc, Wait};
use std::thread::Threads;

/// What is done with the fronts.
#[derive(Clone, Copy)]
pub enum Sample {
    Answers,
    Many,
    Session,
    Full,
    Record,
    Lost,
}

/// How many milliseconds after its last request a session is due: twice its validity.
const DUE: u64 = 1_200_000;

/// One debit at both fronts: each answers it on its own connection, and it is charged once.
fn answers<L: Pooling, R: Threads + Wait + Clock + Print + Copy>(
    rt: &R,
    alloc: Global,
    running: &mut Running<'_, L, R>,
) -> anyhow::Result<()> {
    running.come_up(rt, alloc, FIRST, 1)?;
    running.come_up(rt, alloc, SECOND, 2)?;
    running.come_up(rt, alloc, CLIENT, 3)?;
    running.hear(rt, alloc, 1, debit(alloc, 0)?)?;
    running.wake(rt, alloc, 1)?;
    running.hear(rt, alloc, 2, debit(alloc, 0)?)?;
    running.wait(rt, 2)?;
    running.tick(rt, alloc, 1_000)?;
    running.lose(rt, alloc, 1)?;
    running.hear(rt, alloc, 1, debit(alloc, 1)?)?;
    running.print_figures(rt)
}

/// A debit that has the flag T where it is asked for: it may have been sent before.
fn debit_with(alloc: Global, number: u32, resent: bool) -> anyhow::Result<Message> {
    let mut request = debit(alloc, number)?;
    request.header.resent = resent;
    Ok(request)
}

/// As many debits at once as may wait at a front. One of them may have been sent before, and is charged like the others.
fn many<L: Pooling, R: Threads + Wait + Clock + Print + Copy>(
    rt: &R,
    alloc: Global,
    running: &mut Running<'_, L, R>,
) -> anyhow::Result<()> {
    running.come_up(rt, alloc, FIRST, 1)?;
    for number in 0..8 {
        let request = debit_with(alloc, number, number == 3)?;
        running.hear(rt, alloc, 1, request)?;
    }
    running.wake(rt, alloc, 8)?;
    running.print_figures(rt)
}

/// A session stands as long as it is not due, and then ends: a tick asks for the sweep, which wakes the node once it is done.
fn session<L: Pooling, R: Threads + Wait + Clock + Print + Copy>(
    rt: &R,
    alloc: Global,
    running: &mut Running<'_, L, R>,
) -> anyhow::Result<()> {
    running.come_up(rt, alloc, FIRST, 1)?;
    let before = running.timer.now(rt)?.0;
    running.hear(rt, alloc, 1, message(alloc, INITIAL)?)?;
    running.wake(rt, alloc, 1)?;
    let behind = running.timer.now(rt)?.0;
    running.tick(rt, alloc, before.saturating_add(DUE - 2_000))?;
    running.print_figures(rt)?;
    running.tick(rt, alloc, behind.saturating_add(DUE + 2_000))?;
    running.wake(rt, alloc, 2)?;
    running.print_figures(rt)
}

/// A session that is due in a book that has no room to end it: that is told once.
fn full<L: Pooling, R: Threads + Wait + Clock + Print + Copy>(
    rt: &R,
    alloc: Global,
    running: &mut Running<'_, L, R>,
) -> anyhow::Result<()> {
    running.come_up(rt, alloc, FIRST, 1)?;
    running.hear(rt, alloc, 1, message(alloc, INITIAL)?)?;
    running.wake(rt, alloc, 1)?;
    let behind = running.timer.now(rt)?.0;
    running.tick(rt, alloc, behind.saturating_add(DUE + 2_000))?;
    running.wake(rt, alloc, 2)?;
    running.tick(rt, alloc, behind.saturating_add(DUE + 9_000))
}

/// The names of both fronts.
fn names(alloc: Global) -> anyhow::Result<Vec<Identity>> {
    let first = Identity::read(alloc, b"f1.example")?;
    let second = Identity::read(alloc, b"f2.example")?;
    Ok(vec![in alloc; first, second]?)
}

/// A debit, the same again, a session, the sweep that ends it, and a debit that is finished and not collected.
fn record<L: Pooling, R: Threads + Wait + Clock + Print + Copy>(
    rt: &R,
    alloc: Global,
    running: &mut Running<'_, L, R>,
) -> anyhow::Result<()> {
    running.begin_record(alloc, names(alloc)?);
    running.come_up(rt, alloc, FIRST, 1)?;
    running.hear(rt, alloc, 1, debit(alloc, 5)?)?;
    running.wake(rt, alloc, 1)?;
    running.hear(rt, alloc, 1, debit(alloc, 5)?)?;
    running.wake(rt, alloc, 2)?;
    running.tell(alloc);
    running.hear(rt, alloc, 1, message(alloc, INITIAL)?)?;
    running.wake(rt, alloc, 3)?;
    let behind = running.timer.now(rt)?.0;
    running.tick(rt, alloc, behind.saturating_add(DUE + 2_000))?;
    running.wake(rt, alloc, 4)?;
    running.tell(alloc);
    running.hear(rt, alloc, 1, debit(alloc, 6)?)?;
    running.wait(rt, 5)
}

/// A record for which memory is missing: its last line says so, and the debit behind that is not told.
fn lost<L: Pooling, R: Threads + Wait + Clock + Print + Copy>(
    rt: &R,
    alloc: Global,
    running: &mut Running<'_, L, R>,
) -> anyhow::Result<()> {
    running.begin_record(alloc, names(alloc)?);
    running.come_up(rt, alloc, FIRST, 1)?;
    running.recorder.fail();
    running.hear(rt, alloc, 1, debit(alloc, 5)?)?;
    running.wait(rt, 1)
}

/// The fronts of the site, on this book. Their workers wake by this.
fn start<L, R>(
    rt: &R,
    alloc: Global,
    site: &Site,
    waker: Rings,
    blank: Blank,
    history: BlankHistory,
    book: Book,
) -> anyhow::Result<PoolFronts<L, Nowhere, R>>
where
    L: Pooling + Send + Sync + 'static,
    R: Threads + Wait + Clock + Copy + Send + 'static,
    requires queue { 0 < site.now.queue }
    requires workers { site.now.workers ≡ 1 }
    requires name { blank.name ≡ L.name }
    requires parts { (blank.parts ≡ L.parts) × (blank.parts ≡ 2) }
    requires book { book ≡ L.shared.opened }
    requires history { history ≡ L.shared.log }
    requires memory { L.shared.stored ≡ false }
    requires site { (front : NodeNo) → L.site front ≡ site_of site.now front }
{
    let timing = Timing::on(Timer::start(rt)?, &book);
    match SharedBook::<L, Nowhere>::share(alloc, blank, history, book, 2) {
        Ok((shared, seats)) => Ok(start_fronts::<ViewWire, L, Nowhere, R, Rings>(
            *rt,
            alloc,
            shared,
            seats,
            site,
            &[FIRST, SECOND],
            timing,
            waker,
        )?),
        Err(_) => Err(AllocError.into()),
    }
}

/// Does with the fronts what the sample says.
fn perform<L: Pooling, R: Threads + Wait + Clock + Print + Copy>(
    rt: &R,
    alloc: Global,
    running: &mut Running<'_, L, R>,
    sample: Sample,
) -> anyhow::Result<()> {
    match sample {
        Sample::Answers => answers(rt, alloc, running),
        Sample::Many => many(rt, alloc, running),
        Sample::Session => session(rt, alloc, running),
        Sample::Full => full(rt, alloc, running),
        Sample::Record => record(rt, alloc, running),
        Sample::Lost => lost(rt, alloc, running),
    }
}

/// The sample with these fronts, whose workers wake by `rings`.
fn print_fronts<L: Pooling, R: Threads + Wait + Clock + Print + Copy>(
    rt: &R,
    alloc: Global,
    fronts: PoolFronts<L, Nowhere, R>,
    rings: &AtomicU64,
    sample: Sample,
) -> anyhow::Result<()> {
    let timer = Timer::start(rt)?;
    let mut running = Running {
        fronts,
        rings,
        timer,
        recorder: Recorder::off(alloc),
    };
    perform(rt, alloc, &mut running, sample)?;
    running.end(rt, alloc)
}

fn print_on<L, R>(
    rt: &R,
    alloc: Global,
    site: &Site,
    rings: &Arc<AtomicU64>,
    blank: Blank,
    history: BlankHistory,
    book: Book,
    sample: Sample,
) -> anyhow::Result<()>
where
    L: Pooling + Send + Sync + 'static,
    R: Threads + Wait + Clock + Print + Copy + Send + 'static,
    requires queue { 0 < site.now.queue }
    requires workers { site.now.workers ≡ 1 }
    requires name { blank.name ≡ L.name }
    requires parts { (blank.parts ≡ L.parts) × (blank.parts ≡ 2) }
    requires book { book ≡ L.shared.opened }
    requires history { history ≡ L.shared.log }
    requires memory { L.shared.stored ≡ false }
    requires site { (front : NodeNo) → L.site front ≡ site_of site.now front }
{
    let waker = Rings(Arc::try_clone(rings)?);
    let fronts = start::<L, R>(rt, alloc, site, waker, blank, history, book)?;
    print_fronts(rt, alloc, fronts, &**rings, sample)
}

/// The sample with a book that has so many entries at most.
pub fn print_sample<R>(rt: &R, alloc: Global, limit: u64, sample: Sample) -> anyhow::Result<()>
where
    R: Threads + Wait + Clock + Print + Copy + Send + 'static,
    requires { limit ≤ 2 ^ 20 }
{
    let rings = Arc::new(alloc, AtomicU64::new(0))?;
    let site = site(alloc, limit)?;
    let book = book(alloc, &ONE_ACCOUNT, limit)?;
    print_on::<Brand, R>(
        rt,
        alloc,
        &site,
        &rings,
        Blank::new(2),
        BlankHistory::new(),
        book,
        sample,
    )
}
