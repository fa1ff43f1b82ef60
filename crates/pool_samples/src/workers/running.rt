//! A pool from its start to its end, with what is printed of it.

ghost use Rattle.std.specs.Prelude.{◌≡◌, ◌<◌, IfOk, false};

use crate::nowhere::Nowhere;
use anyhow::{Context, bail};
use cc_book::Book;
use cc_shared::{BlankHistory, Receipt, Seat, SharedBook};
use dia_avp::ViewWire;
use dia_base::{ConnId, Identity, Listing, Moment, NodeNo};
use dia_grammar::SiteProfile;
use dia_message::Message;
use farm_clock::Timer;
use front_pool::{Finished, Gate, Job, Pool, PoolQueue, Pooling, Stopped, SubmitError};
use samples_given::debit;
use std::alloc::{AllocError, Global};
use std::rt::Clock;
use std::sync::Wait;
use std::sync::ledger::Blank;
use std::thread;
use std::thread::Threads;
use std::time::Duration;

/// How often finished jobs are looked for at most, and how many microseconds after the last time.
const LOOKS: u32 = 100_000;

const PAUSE: u64 = 100;

/// After how many milliseconds without a job a worker sleeps.
const IDLE: u64 = 20;

/// A pool, a handle on its book, and the jobs that were collected.
#[derive(Drop)]
pub struct Running<L: Pooling> {
    pub pool: Pool<L>,
    pub shared: SharedBook<L, Nowhere>,
    /// By which its requests are charged.
    pub timer: Timer,
    pub finished: Vec<Finished>,
}

/// A pool that was stopped.
#[derive(Drop)]
pub struct Ended<L: Pooling> {
    pub shared: SharedBook<L, Nowhere>,
    pub seats: Vec<Seat<L>>,
    pub collected: Vec<Finished>,
    /// The jobs that were finished by then, and not collected.
    pub finished: Vec<Finished>,
    pub unserved: Vec<Job>,
}

/// The front f1, at which so many jobs may wait.
pub fn front(rt: &impl Clock, alloc: Global, jobs: usize) -> anyhow::Result<PoolQueue>
    requires { 0 < jobs }
    ensures { IfOk result (λ queue. queue.jobs ≡ jobs) }
{
    let timer = Timer::start(rt)?;
    let name = Identity::read(alloc, b"f1.example")?;
    let realm = Identity::read(alloc, b"ocs.example")?;
    Ok(PoolQueue {
        front: NodeNo(0),
        name,
        realm,
        profile: SiteProfile::strict(alloc, Listing::empty(alloc)),
        timer,
        jobs,
    })
}

/// A pool of so many workers.
pub fn start<L, R, G>(
    rt: &R,
    alloc: Global,
    blank: Blank,
    history: BlankHistory,
    book: Book,
    queue: PoolQueue,
    workers: u64,
    gate: G,
) -> anyhow::Result<Running<L>>
where
    L: Pooling + Send + Sync + 'static,
    R: Threads + Wait + Clock + Copy + Send + 'static,
    G: Gate + Drop + Send + Sync + 'static,
    requires name { blank.name ≡ L.name }
    requires parts { (blank.parts ≡ L.parts) × (blank.parts ≡ workers) }
    requires book { book ≡ L.shared.opened }
    requires history { history ≡ L.shared.log }
    requires memory { L.shared.stored ≡ false }
    requires jobs { 0 < queue.jobs }
    requires site { L.site queue.front ≡ record { name = queue.name; realm = queue.realm; profile = queue.profile } }
    requires some { 0 < workers }
{
    let Ok((shared, seats)) = SharedBook::<L, Nowhere>::share(alloc, blank, history, book, workers)
    else {
        return Err(AllocError.into());
    };
    let handle = shared.another()?;
    let timer = queue.timer;
    match Pool::<L>::start::<ViewWire, Nowhere, R, G>(rt, alloc, handle, seats, gate, queue) {
        Ok(pool) => Ok(Running {
            pool,
            shared,
            timer,
            finished: Vec::new(alloc),
        }),
        Err(_failed) => Err(AllocError.into()),
    }
}

impl<L: Pooling> Running<L> {
    /// Hands over the debit of this number.
    pub fn submit<R: Wait>(&mut self, rt: &R, alloc: Global, number: u32) -> anyhow::Result<()> {
        self.hand_over(rt, debit(alloc, number)?)
    }

    /// Hands over a request.
    fn hand_over<R: Wait>(&mut self, rt: &R, request: Message) -> anyhow::Result<()> {
        match self.pool.submit(rt, ConnId(7), request) {
            Ok(_number) => Ok(()),
            Err(_refused) => bail!("refused"),
        }
    }

    /// Hands over a request when all workers have been idle for a while, and takes what is finished out.
    pub fn ask<R: Wait + Clock>(&mut self, rt: &R, request: Message) -> anyhow::Result<()> {
        thread::sleep(rt, Duration::from_millis(IDLE));
        self.hand_over(rt, request)?;
        let count = self.finished.len().saturating_add(1);
        self.collect(rt, count)
    }

    /// Hands over a debit for which there is no room: it comes back.
    pub fn print_full<R: Wait + Print>(
        &mut self,
        rt: &R,
        alloc: Global,
        number: u32,
    ) -> anyhow::Result<()> {
        let expected = debit(alloc, number)?;
        let request = expected.clone()?;
        let same = match came_back(self.pool.submit(rt, ConnId(7), request)) {
            Some(back) => back == expected,
            None => false,
        };
        println!(rt; "full, same {same}")?;
        Ok(())
    }

    /// Takes a finished job out, if one is there; whether one was.
    pub fn take_one<R: Wait>(&mut self, rt: &R) -> anyhow::Result<bool> {
        let Some(next) = self.pool.collect(rt) else {
            return Ok(false);
        };
        self.finished.push(next.into_finished())?;
        Ok(true)
    }

    /// Takes so many finished jobs out, or fewer, where no more come.
    pub fn collect<R: Wait + Clock>(&mut self, rt: &R, count: usize) -> anyhow::Result<()> {
        for _ in 0..LOOKS {
            if self.finished.len() >= count {
                break;
            }
            match self.pool.collect(rt) {
                Some(next) => self.finished.push(next.into_finished())?,
                None => thread::sleep(rt, Duration::from_micros(PAUSE)),
            }
        }
        Ok(())
    }

    /// Tells whether each request was charged from this moment on, and not after now.
    pub fn print_moments<R: Clock + Print>(&self, rt: &R, began: Moment) -> anyhow::Result<()> {
        let now = self.timer.now(rt)?;
        let in_time = self.finished.iter().all(|job| match job.moment {
            Some(moment) => began.0 <= moment.0 && moment.0 <= now.0,
            None => false,
        });
        println!(rt; "charged in time {in_time}")?;
        Ok(())
    }

    /// Stops the pool.
    pub fn stop<R: Threads + Wait + Clock>(self, rt: &R) -> Ended<L> {
        let Running {
            pool,
            shared,
            timer: _,
            finished: collected,
        } = self;
        let Stopped {
            seats,
            finished,
            unserved,
        } = pool.stop(rt);
        Ended {
            shared,
            seats,
            collected,
            finished,
            unserved,
        }
    }
}

/// The request that was not handed over, for want of room.
fn came_back(submitted: Result<u64, SubmitError>) -> Option<Message> {
    match submitted {
        Ok(_number) => None,
        Err(error) => match error {
            SubmitError::PoolFull { request } => Some(request),
            SubmitError::OutOfMemory { request: _request } => None,
        },
    }
}

/// Takes the receipts of finished jobs out.
fn take_receipts(finished: &mut [Finished], receipts: &mut Vec<Receipt>) -> anyhow::Result<()> {
    for job in finished.iter_mut() {
        if let Some(receipt) = job.receipt.take() {
            receipts.push(receipt)?;
        }
    }
    Ok(())
}

impl<L: Pooling> Ended<L> {
    /// How many jobs are finished.
    pub fn count(&self) -> usize {
        self.collected.len().saturating_add(self.finished.len())
    }

    /// Takes the receipts of all jobs out.
    fn receipts(&mut self, alloc: Global) -> anyhow::Result<Vec<Receipt>> {
        let mut receipts = Vec::new(alloc);
        take_receipts(&mut self.collected, &mut receipts)?;
        take_receipts(&mut self.finished, &mut receipts)?;
        Ok(receipts)
    }

    /// Closes the book with all seats and receipts.
    pub fn close<R: Wait>(self, rt: &R, alloc: Global) -> anyhow::Result<Book> {
        let mut ended = self;
        let receipts = ended.receipts(alloc)?;
        ended
            .shared
            .finish(rt, alloc, ended.seats, &receipts)
            .ok()
            .context("not finished")
    }
}
