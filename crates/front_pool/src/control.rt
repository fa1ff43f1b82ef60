//! How a pool and its workers tell each other that there is something to do.

use std::sync::Wait;
use std::sync::atomic::{AtomicBool, AtomicU64, Ordering};

/// Shared by a pool and its workers. Of plain words that threads share no clause knows anything: what is promised rests on
/// none of them.
#[derive(Drop)]
pub struct Control {
    stopping: AtomicBool,
    /// Counts what a worker that waits is to look at.
    news: AtomicU64,
    workers: AtomicU64,
    /// Workers that have jobs in hand.
    busy: AtomicU64,
    ended: AtomicU64,
}

impl Control {
    pub fn new() -> Control {
        Control {
            stopping: AtomicBool::new(false),
            news: AtomicU64::new(0),
            workers: AtomicU64::new(0),
            busy: AtomicU64::new(0),
            ended: AtomicU64::new(0),
        }
    }

    pub fn is_stopping(&self) -> bool {
        self.stopping.load(Ordering::SeqCst)
    }

    /// What a worker reads before it looks for a job, and waits with where it has found none.
    pub fn news(&self) -> u64 {
        self.news.load(Ordering::SeqCst)
    }

    /// Waits for as long as there is nothing new.
    pub fn wait<R: Wait>(&self, rt: &R, seen: u64) {
        self.news.park(rt, (seen & 0xffff_ffff) as u32);
    }

    /// One job more.
    pub fn tell_one(&self) {
        self.news.fetch_add(1, Ordering::SeqCst);
        self.news.wake_one();
    }

    /// One worker more.
    pub fn hire(&self) {
        self.workers.fetch_add(1, Ordering::SeqCst);
    }

    /// How many workers there are.
    pub fn workers(&self) -> u64 {
        self.workers.load(Ordering::SeqCst)
    }

    /// A worker has a job in hand.
    pub fn begin_turn(&self) {
        self.busy.fetch_add(1, Ordering::SeqCst);
    }

    /// It has none any more.
    pub fn end_turn(&self) {
        self.busy.fetch_sub(1, Ordering::SeqCst);
    }

    /// Whether each worker has a job in hand.
    pub fn are_all_busy(&self) -> bool {
        self.busy.load(Ordering::SeqCst) >= self.workers()
    }

    /// All workers are to end after the job that they hold.
    pub fn stop(&self) {
        self.stopping.store(true, Ordering::SeqCst);
        self.news.fetch_add(1, Ordering::SeqCst);
        self.news.wake_all();
    }

    /// A worker has ended.
    pub fn end(&self) {
        self.ended.fetch_add(1, Ordering::SeqCst);
    }

    pub fn ended(&self) -> u64 {
        self.ended.load(Ordering::SeqCst)
    }
}
