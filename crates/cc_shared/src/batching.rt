//! Who collects requests for a stored book.

ghost use Rattle.std.specs.Prelude.{◌≡◌};

use std::sync::Wait;
use std::sync::atomic::{AtomicU64, Ordering};

/// Nobody makes a batch.
const FREE: u64 = 0;

/// Somebody makes a batch.
const TAKEN: u64 = 1;

/// Somebody makes a batch, and others may wait to make the next one.
const AWAITED: u64 = 2;

/// Lets one thread at a time collect requests for a book that is stored, so that all that wait are stored in one commit. Of a plain
/// word that threads share no clause knows anything: what is promised rests on the lock of the book, and not on this.
#[derive(Drop)]
pub struct Batching {
    /// Whether the book is stored. Nobody waits for a batch of a book in memory.
    is_stored: bool,
    state: AtomicU64,
}

impl Batching {
    pub fn new(is_stored: bool) -> Batching
        ensures { result.is_stored ≡ is_stored }
    {
        Batching {
            is_stored,
            state: AtomicU64::new(FREE),
        }
    }

    pub fn is_stored(&self) -> bool
        ensures { result ≡ self.now.is_stored }
    {
        self.is_stored
    }

    /// Begins a batch, where nobody makes one.
    fn try_begin(&self) -> bool {
        self.state
            .compare_exchange(FREE, TAKEN, Ordering::SeqCst, Ordering::SeqCst)
            .is_ok()
    }

    /// Begins a batch as soon as nobody makes one. It begins at once where the book is in memory.
    pub fn begin<R: Wait>(&self, rt: &R) {
        if !self.is_stored || self.try_begin() {
            return;
        }
        for _ in rt.forever() {
            if self.state.swap(AWAITED, Ordering::SeqCst) == FREE {
                return;
            }
            self.state.park(rt, AWAITED as u32);
        }
        unreachable!()
    }

    /// Ends a batch, and wakes one that waits to make the next.
    pub fn end(&self) {
        if self.is_stored && self.state.swap(FREE, Ordering::SeqCst) == AWAITED {
            self.state.wake_one();
        }
    }
}
