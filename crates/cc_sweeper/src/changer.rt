//! A thread that changes the terms of a shared book, once.

ghost use Rattle.std.specs.Prelude.{◌≡◌, IfOk};
ghost use Rattle.cc_sweeper.specs.Changes.{IsChangedTo};

use book_store::RowStore;
use cc_book::TermsChange;
use cc_shared::{ChangeError, SharedBook, Sharing, TermsChanged};
use dia_base::Moment;
use std::alloc::{AllocError, Global};
use std::marker::{Model, PhantomData};
use std::snapshot::Snapshot;
use std::sync::atomic::{AtomicBool, Ordering};
use std::sync::{Arc, Wait};
use std::thread;
use std::thread::{Promise, PromisedHandle, Threads};

/// What a change of the terms came to.
pub type ChangeResult = Result<TermsChanged, ChangeError>;

/// What a thread promises that makes a change of the terms at a moment.
#[derive(Drop)]
pub struct ChangePromise<L> {
    moment: Moment,
    change: Snapshot<TermsChange>,
    of: PhantomData<L>,
}

impl<L: Sharing> Promise<ChangeResult> for ChangePromise<L> {
    ghost use Rattle.cc_sweeper.specs.Changes.{IsChangedTo};

    ghost kept_by = { λ p result. IsChangedTo L.shared p.moment p.change.value result };
}

/// A thread that changes the terms of a shared book, so that who asks for it waits neither for the book's lock nor for a disk. Contracts
/// see the change and its moment.
#[derive(Drop)]
pub struct Changer<L: Sharing> {
    done: Arc<AtomicBool>,
    thread: PromisedHandle<ChangeResult, ChangePromise<L>>,
}

impl<L: Sharing> Model for Changer<L> {
    ghost use Rattle.cc_sweeper.specs.Changes.{Change};

    ghost Value = { Change };

    ghost view = { λ c. record { moment = c.thread.promise.moment; change = c.thread.promise.change.value } };
}

/// Changes the terms of the book behind its lock, and tells that it is done.
fn change_now<L: Sharing, S: RowStore + Drop, R: Wait>(
    rt: &R,
    alloc: Global,
    shared: &SharedBook<L, S>,
    moment: Moment,
    change: TermsChange,
    done: &AtomicBool,
) -> ChangeResult
    ensures { IsChangedTo L.shared moment change result }
{
    let result = shared.change_terms(rt, alloc, moment, change);
    done.store(true, Ordering::SeqCst);
    result
}

/// Starts a thread that changes the terms of the book of this handle by one entry of this moment. Where memory or a thread is missing
/// nothing is changed.
pub fn start_change<L, S, R>(
    rt: &R,
    alloc: Global,
    shared: SharedBook<L, S>,
    moment: Moment,
    change: TermsChange,
) -> Result<Changer<L>, AllocError>
where
    L: Sharing + Send + Sync + 'static,
    S: RowStore + Drop + Send + 'static,
    R: Threads + Wait + Copy + Send + 'static,
    ensures { IfOk result (λ changer. changer ≡ record { moment = moment; change = change }) }
{
    let done = Arc::new(alloc, AtomicBool::new(false))?;
    let own = Arc::try_clone(&done)?;
    let promise = ChangePromise {
        moment,
        change: Snapshot::of(&change),
        of: PhantomData,
    };
    let runtime = *rt;
    let thread = thread::spawn_with(
        rt,
        promise,
        move || change_now::<L, S, R>(&runtime, alloc, &shared, moment, change, &own),
    )?;
    Ok(Changer { done, thread })
}

impl<L: Sharing> Changer<L> {
    /// Whether the change was made or refused: to join the thread takes no time then.
    pub fn is_done(&self) -> bool {
        self.done.load(Ordering::SeqCst)
    }

    /// What the change has come to. It waits until that is done.
    pub fn end<R: Threads>(self, rt: &R) -> ChangeResult
        ensures { IsChangedTo L.shared self.moment self.change result }
    {
        let Changer { done: _, thread } = self;
        thread.join(rt)
    }
}
