//! Changes of the terms of a shared book, one at a time.

ghost use Rattle.std.specs.Prelude.{◌≡◌, None, is_some};
ghost use Rattle.cc_sweeper.specs.Changes.{Begins, CollectsChange};

use crate::changer::{ChangeResult, Changer, start_change};
use book_store::RowStore;
use cc_book::TermsChange;
use cc_shared::{SharedBook, Sharing};
use dia_base::Moment;
use std::alloc::Global;
use std::marker::Model;
use std::sync::Wait;
use std::thread::Threads;
use thiserror::Error;

/// Why a change of the terms is not begun.
#[derive(Clone, Copy, Debug, PartialEq, Eq, Error)]
pub enum ChangeFault {
    /// One is under way, or what it has come to was not collected.
    #[error("another change of the terms is under way")]
    Busy,
    /// Memory or a thread is missing.
    #[error("out of memory")]
    OutOfMemory,
}

/// Who changes the terms of a shared book, one change at a time, each in a thread of its own. Contracts see which one is under way: begun,
/// and not collected.
#[derive(Drop)]
pub struct Changes<L: Sharing, S: RowStore> {
    shared: SharedBook<L, S>,
    under_way: Option<Changer<L>>,
}

impl<L: Sharing, S: RowStore> Model for Changes<L, S> {
    ghost use Rattle.std.specs.Prelude.{Option};
    ghost use Rattle.cc_sweeper.specs.Changes.{Change};

    ghost Value = { Option Change };

    ghost view = { λ c. c.under_way };
}

impl<L, S> Changes<L, S>
where
    L: Sharing + Send + Sync + 'static,
    S: RowStore + Drop + Send + 'static,
{
    /// Changes of the book of this handle. None is under way.
    pub fn new(shared: SharedBook<L, S>) -> Self
        ensures { result ≡ None }
    {
        Changes {
            shared,
            under_way: None,
        }
    }

    /// Whether a change is under way: no other can be begun then.
    pub fn is_under_way(&self) -> bool
        ensures { result ≡ is_some self.now }
    {
        self.under_way.is_some()
    }

    /// Begins a change of the terms by one entry of this moment, where none is under way, and does not wait for it.
    pub fn begin<R: Threads + Wait + Copy + Send + 'static>(
        &mut self,
        rt: &R,
        alloc: Global,
        moment: Moment,
        change: TermsChange,
    ) -> Result<(), ChangeFault>
        ensures { Begins moment change self.old result self.new }
    {
        if self.under_way.is_some() {
            return Err(ChangeFault::Busy);
        }
        let Ok(handle) = self.shared.another() else {
            return Err(ChangeFault::OutOfMemory);
        };
        let Ok(changer) = start_change(rt, alloc, handle, moment, change) else {
            return Err(ChangeFault::OutOfMemory);
        };
        self.under_way = Some(changer);
        Ok(())
    }

    /// What the change that is under way has come to, once it is done. None where it is not, or where none is.
    pub fn collect<R: Threads>(&mut self, rt: &R) -> Option<ChangeResult>
        ensures { CollectsChange L.shared self.old result self.new }
    {
        let changer = self.under_way.take()?;
        if !changer.is_done() {
            self.under_way = Some(changer);
            return None;
        }
        Some(changer.end(rt))
    }
}
