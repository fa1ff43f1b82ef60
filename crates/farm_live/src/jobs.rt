//! The jobs on the book of fronts that are asked for at the status port.

use crate::changing::{BookTerms, LastChange};
use crate::looking::{BookLooks, LastLook};
use crate::setting::Setting;
use book_store::RowStore;
use cc_shared::{SharedBook, Sharing};
use cc_sweeper::{Changes, Looks};
use farm_clock::Timer;
use farm_event_loop::Wanted;
use farm_status::{Job, Jobs};
use std::alloc::{AllocError, Global};
use std::rt::Clock;
use std::sync::Wait;
use std::thread::Threads;

/// Who does the jobs on the book of the fronts of a process.
#[derive(Drop)]
pub struct BookJobs<L: Sharing, S: RowStore> {
    terms: BookTerms<L, S>,
    looks: BookLooks<L, S>,
}

impl<L, S> BookJobs<L, S>
where
    L: Sharing + Send + Sync + 'static,
    S: RowStore + Drop + Send + 'static,
{
    /// Jobs on this book, none of which was asked for yet. The timer has the moments of its entries.
    pub fn on(shared: &SharedBook<L, S>, timer: Timer) -> Result<Self, AllocError> {
        let changes = Changes::new(shared.another()?);
        let looks = Looks::new(shared.another()?);
        Ok(BookJobs {
            terms: BookTerms::new(changes, timer),
            looks: BookLooks::new(looks),
        })
    }

    /// Takes in what the jobs that are under way have come to; whether a change of the terms is done since the last look.
    pub fn look<O: Threads>(&mut self, os: &O, alloc: Global) -> bool {
        self.looks.look(os, alloc);
        self.terms.look(os)
    }

    /// Begins the jobs that are asked for.
    pub fn ask<O: Threads + Wait + Clock + Copy + Send + 'static>(
        &mut self,
        setting: &Setting<'_, O>,
        wanted: &Wanted,
    ) {
        if let Some(text) = &wanted.change {
            self.terms.ask(setting, text);
        }
        if let Some(text) = &wanted.look {
            self.looks.ask(setting, text);
        }
    }

    /// Which jobs may be asked for.
    pub fn jobs(&self) -> Jobs {
        Jobs {
            change: self.terms.job(),
            look: self.looks.job(),
        }
    }

    /// What has become of the last change of the terms.
    pub fn last_change(&self) -> LastChange {
        self.terms.last()
    }

    /// What has become of the last look at an account.
    pub fn last_look(&self) -> &LastLook {
        self.looks.last()
    }

    /// How many entries the book had behind the last change that was made, 0 where none was.
    pub fn changed_entries(&self) -> u64 {
        self.terms.entries()
    }
}

/// What the status port tells of the jobs of a process.
#[derive(Clone, Copy)]
pub struct JobsTold<'a> {
    /// Which may be asked for.
    pub jobs: Jobs,
    pub last_change: LastChange,
    /// None of a process without a book.
    pub last_look: Option<&'a LastLook>,
    /// How many entries the book had behind the last change that was made, 0 where none was.
    pub changed_entries: u64,
}

/// How many entries the book of a process had behind the last change that was made, 0 where none was, or where it has no book.
pub fn changed_entries<L, S>(jobs: &Option<BookJobs<L, S>>) -> u64
where
    L: Sharing + Send + Sync + 'static,
    S: RowStore + Drop + Send + 'static,
{
    match jobs {
        Some(jobs) => jobs.changed_entries(),
        None => 0,
    }
}

/// What is told of the jobs of a process, if it has a book.
pub fn told_of<L, S>(jobs: &Option<BookJobs<L, S>>) -> JobsTold<'_>
where
    L: Sharing + Send + Sync + 'static,
    S: RowStore + Drop + Send + 'static,
{
    match jobs {
        Some(jobs) => JobsTold {
            jobs: jobs.jobs(),
            last_change: jobs.last_change(),
            last_look: Some(jobs.last_look()),
            changed_entries: jobs.changed_entries(),
        },
        None => JobsTold {
            jobs: Jobs {
                change: Job::Never,
                look: Job::Never,
            },
            last_change: LastChange::Nothing,
            last_look: None,
            changed_entries: 0,
        },
    }
}
