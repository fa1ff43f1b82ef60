//! How often a stored book was committed.

use std::sync::atomic::{AtomicU64, Ordering};

/// How often something of a book was stored, each time in one commit, and how many entries that were.
#[derive(Clone, Copy, Debug, PartialEq, Eq)]
pub struct Commits {
    pub count: u64,
    pub entries: u64,
}

/// The same, while threads count. Of plain words that threads share no clause knows anything.
#[derive(Drop)]
pub struct CommitCounts {
    count: AtomicU64,
    entries: AtomicU64,
}

impl CommitCounts {
    /// None yet.
    pub fn none() -> CommitCounts {
        CommitCounts {
            count: AtomicU64::new(0),
            entries: AtomicU64::new(0),
        }
    }

    /// So many entries were stored in one commit; where there are none, nothing was.
    pub fn add(&self, entries: u64) {
        if entries > 0 {
            self.count.fetch_add(1, Ordering::SeqCst);
            self.entries.fetch_add(entries, Ordering::SeqCst);
        }
    }

    /// What it has come to.
    pub fn so_far(&self) -> Commits {
        Commits {
            count: self.count.load(Ordering::SeqCst),
            entries: self.entries.load(Ordering::SeqCst),
        }
    }
}
