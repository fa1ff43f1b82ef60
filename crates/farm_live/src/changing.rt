//! Changes of the terms of the book while fronts serve, which are asked for at the status port.

use crate::setting::Setting;
use book_store::RowStore;
use cc_book::TermsChange;
use cc_shared::{ChangeError, Sharing};
use cc_sweeper::{ChangeFault, ChangeResult, Changes};
use farm_clock::Timer;
use farm_status::Job;
use farm_terms::{TextFault, change_in};
use std::fmt;
use std::rt::Clock;
use std::sync::Wait;
use std::thread::Threads;

/// What has become of the change of the terms that was asked for last.
#[derive(Clone, Copy)]
pub enum LastChange {
    /// None was asked for yet.
    Nothing,
    UnderWay,
    /// It was made, by the entry at this place, and is stored where the book is.
    Made { place: u64 },
    /// Its text spells no change.
    Unread(TextFault),
    /// The process writes down what happens, and a record has no line for it.
    Recorded,
    NotBegun(ChangeFault),
    NotMade(ChangeError),
    /// The clock cannot be read.
    NoTime,
}

impl fmt::Display for LastChange {
    fn fmt<W: fmt::Write>(&self, f: &mut fmt::Formatter<W>) -> fmt::Result {
        match self {
            LastChange::Nothing => f.write_str("no change of the terms was asked for"),
            LastChange::UnderWay => f.write_str("a change of the terms is under way"),
            LastChange::Made { place } => write!(
                f,
                "the terms were changed by the entry at place {place}"
            ),
            LastChange::Unread(fault) => write!(f, "the terms were not changed: {fault}"),
            LastChange::Recorded => f.write_str(
                "the terms were not changed: a process that records what happens changes none",
            ),
            LastChange::NotBegun(fault) => write!(f, "the terms were not changed: {fault}"),
            LastChange::NotMade(ChangeError::NotStored) => f.write_str(
                "the change of the terms cannot be stored: whether it stands is not known",
            ),
            LastChange::NotMade(error) => write!(f, "the terms were not changed: {error}"),
            LastChange::NoTime => f.write_str(
                "the terms were not changed: the clock cannot be read",
            ),
        }
    }
}

/// How a change has ended.
fn ending(ended: &ChangeResult) -> LastChange {
    match ended {
        Ok(changed) => LastChange::Made {
            place: changed.place,
        },
        Err(error) => LastChange::NotMade(*error),
    }
}

/// The fronts of a process, on one book. One change is under way at most.
#[derive(Drop)]
pub struct BookTerms<L: Sharing, S: RowStore> {
    changes: Changes<L, S>,
    /// The moments of the entries.
    timer: Timer,
    last: LastChange,
    /// How many entries the book had behind the last change that was made, 0 where none was.
    entries: u64,
}

impl<L, S> BookTerms<L, S>
where
    L: Sharing + Send + Sync + 'static,
    S: RowStore + Drop + Send + 'static,
{
    /// Of a book of which no change was asked for yet.
    pub fn new(changes: Changes<L, S>, timer: Timer) -> Self {
        BookTerms {
            changes,
            timer,
            last: LastChange::Nothing,
            entries: 0,
        }
    }

    /// Begins a change, in a thread of its own. What has become of it.
    fn begin<O: Threads + Wait + Clock + Copy + Send + 'static>(
        &mut self,
        setting: &Setting<'_, O>,
        change: TermsChange,
    ) -> LastChange {
        let Ok(moment) = self.timer.now(setting.os) else {
            return LastChange::NoTime;
        };
        match self
            .changes
            .begin(setting.os, setting.rt.alloc(), moment, change)
        {
            Ok(()) => LastChange::UnderWay,
            Err(fault) => LastChange::NotBegun(fault),
        }
    }

    /// Whether a change may be asked for.
    pub fn job(&self) -> Job {
        if self.changes.is_under_way() {
            Job::Busy
        } else {
            Job::Free
        }
    }

    /// What has become of the last one.
    pub fn last(&self) -> LastChange {
        self.last
    }

    /// How many entries the book had behind the last one that was made, 0 where none was.
    pub fn entries(&self) -> u64 {
        self.entries
    }

    /// Begins the change that a text spells.
    pub fn ask<O: Threads + Wait + Clock + Copy + Send + 'static>(
        &mut self,
        setting: &Setting<'_, O>,
        text: &[u8],
    ) {
        if setting.command.record_path.is_some() {
            self.last = LastChange::Recorded;
            return;
        }
        self.last = match change_in(setting.rt.alloc(), setting.site, text) {
            Ok(change) => self.begin(setting, change),
            Err(fault) => LastChange::Unread(fault),
        };
    }

    /// Takes in what the change that is under way has come to; whether it is done since the last look.
    pub fn look<O: Threads>(&mut self, os: &O) -> bool {
        let Some(result) = self.changes.collect(os) else {
            return false;
        };
        self.last = ending(&result);
        if let LastChange::Made { place } = self.last {
            self.entries = place.saturating_add(1);
        }
        true
    }
}
