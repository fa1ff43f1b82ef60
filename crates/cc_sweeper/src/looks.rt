//! Looks at accounts of a shared book, one at a time.

ghost use Rattle.std.specs.Prelude.{◌≡◌, None, is_some};
ghost use Rattle.cc_sweeper.specs.Looks.{BeginsLook, CollectsLook};

use crate::looker::{LookResult, Looker, start_look};
use book_store::RowStore;
use cc_shared::{SharedBook, Sharing};
use cc_view::Subscription;
use std::alloc::Global;
use std::marker::Model;
use std::sync::Wait;
use std::thread::Threads;
use thiserror::Error;

/// Why a look is not begun.
#[derive(Clone, Copy, Debug, PartialEq, Eq, Error)]
pub enum LookFault {
    /// One is under way, or what it has come to was not collected.
    #[error("another account is looked at")]
    Busy,
    /// Memory or a thread is missing.
    #[error("out of memory")]
    OutOfMemory,
}

/// Who looks at accounts of a shared book, at one at a time, each in a thread of its own. Contracts see the Subscription-Id of the look
/// that is under way: begun, and not collected.
#[derive(Drop)]
pub struct Looks<L: Sharing, S: RowStore> {
    shared: SharedBook<L, S>,
    under_way: Option<Looker<L>>,
}

impl<L: Sharing, S: RowStore> Model for Looks<L, S> {
    ghost use Rattle.std.specs.Prelude.{Option};
    ghost use Rattle.cc_view.specs.declared.request.Subscription.{Subscription};

    ghost Value = { Option Subscription };

    ghost view = { λ l. l.under_way };
}

impl<L, S> Looks<L, S>
where
    L: Sharing + Send + Sync + 'static,
    S: RowStore + Drop + Send + 'static,
{
    /// Looks at the book of this handle. None is under way.
    pub fn new(shared: SharedBook<L, S>) -> Self
        ensures { result ≡ None }
    {
        Looks {
            shared,
            under_way: None,
        }
    }

    /// Whether a look is under way: no other can be begun then.
    pub fn is_under_way(&self) -> bool
        ensures { result ≡ is_some self.now }
    {
        self.under_way.is_some()
    }

    /// Begins a look at the account of this Subscription-Id, where none is under way, and does not wait for it.
    pub fn begin<R: Threads + Wait + Copy + Send + 'static>(
        &mut self,
        rt: &R,
        alloc: Global,
        id: Subscription,
    ) -> Result<(), LookFault>
        ensures { BeginsLook id self.old result self.new }
    {
        if self.under_way.is_some() {
            return Err(LookFault::Busy);
        }
        let Ok(handle) = self.shared.another() else {
            return Err(LookFault::OutOfMemory);
        };
        let Ok(looker) = start_look(rt, alloc, handle, id) else {
            return Err(LookFault::OutOfMemory);
        };
        self.under_way = Some(looker);
        Ok(())
    }

    /// What the look that is under way has come to, once it is done. None where it is not, or where none is.
    pub fn collect<R: Threads>(&mut self, rt: &R) -> Option<LookResult>
        ensures { CollectsLook L.shared self.old result self.new }
    {
        let looker = self.under_way.take()?;
        if !looker.is_done() {
            self.under_way = Some(looker);
            return None;
        }
        Some(looker.end(rt))
    }
}
