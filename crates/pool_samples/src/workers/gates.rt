//! Gates that hold jobs until something has come about, and no longer than so many turns.

use front_pool::{Gate, Wake};
use std::rt::Clock;
use std::sync::atomic::{AtomicU64, Ordering};
use std::sync::{Arc, Wait};
use std::thread;
use std::time::Duration;

/// How many turns a hold lasts at most.
const TURNS: u32 = 100_000;

/// How many microseconds a turn sleeps.
const TURN: u64 = 100;

/// What has come about, as the workers and the program count it.
#[derive(Drop)]
pub struct Signs {
    /// Jobs that have come before the book.
    pub before: AtomicU64,
    /// Jobs that are answered.
    pub answered: AtomicU64,
    /// Whether the door is open.
    pub door: AtomicU64,
    /// Holds that have met the limit.
    pub late: AtomicU64,
    /// How often somebody was woken.
    pub wakes: AtomicU64,
}

impl Signs {
    pub fn new() -> Signs {
        Signs {
            before: AtomicU64::new(0),
            answered: AtomicU64::new(0),
            door: AtomicU64::new(0),
            late: AtomicU64::new(0),
            wakes: AtomicU64::new(0),
        }
    }

    /// Waits until the word has come to this count, or the limit is met.
    pub fn hold<R: Clock>(&self, rt: &R, word: &AtomicU64, count: u64) {
        for _ in 0..TURNS {
            if word.load(Ordering::SeqCst) >= count {
                return;
            }
            thread::sleep(rt, Duration::from_micros(TURN));
        }
        self.late.fetch_add(1, Ordering::SeqCst);
    }
}

/// What is held.
#[derive(Clone, Copy)]
pub enum Hold {
    /// Nothing.
    Nothing,
    /// Job 1 before the book, until a job is answered.
    FirstLast,
    /// Each job, once it is answered, until two are.
    Together,
    /// All jobs before the book, until the door is open.
    Door,
    /// Each job, once it is answered, until the door is open.
    Answered,
    /// Each job before the book, for a while.
    Slowly,
}

/// How many milliseconds a slow job takes.
const SLOW: u64 = 500;

/// A gate that holds jobs so.
#[derive(Drop)]
pub struct Holding {
    pub signs: Arc<Signs>,
    pub hold: Hold,
}

impl Gate for Holding {
    fn before_book<R: Wait + Clock>(&self, rt: &R, job: u64) {
        self.signs.before.fetch_add(1, Ordering::SeqCst);
        match self.hold {
            Hold::FirstLast if job == 1 => self.signs.hold(rt, &self.signs.answered, 1),
            Hold::Door => self.signs.hold(rt, &self.signs.door, 1),
            Hold::Slowly => thread::sleep(rt, Duration::from_millis(SLOW)),
            Hold::Nothing | Hold::FirstLast | Hold::Together | Hold::Answered => {}
        }
    }

    fn answered<R: Wait + Clock>(&self, rt: &R, _job: u64) {
        self.signs.answered.fetch_add(1, Ordering::SeqCst);
        match self.hold {
            Hold::Together => self.signs.hold(rt, &self.signs.answered, 2),
            Hold::Answered => self.signs.hold(rt, &self.signs.door, 1),
            Hold::Nothing | Hold::FirstLast | Hold::Door | Hold::Slowly => {}
        }
    }
}

/// Counts how often it wakes.
#[derive(Drop)]
pub struct Bell(pub Arc<Signs>);

impl Wake for Bell {
    fn wake(&self) {
        self.0.wakes.fetch_add(1, Ordering::SeqCst);
    }
}
