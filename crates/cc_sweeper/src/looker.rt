//! A thread that looks at one account of a shared book, once.

ghost use Rattle.std.specs.Prelude.{◌≡◌, IfOk};
ghost use Rattle.cc_sweeper.specs.Looks.{IsLookedAt};

use book_store::RowStore;
use cc_shared::{AccountLook, SharedBook, Sharing};
use cc_view::Subscription;
use std::alloc::{AllocError, Global};
use std::marker::{Model, PhantomData};
use std::snapshot::Snapshot;
use std::sync::atomic::{AtomicBool, Ordering};
use std::sync::{Arc, Wait};
use std::thread;
use std::thread::{Promise, PromisedHandle, Threads};

/// What a look at an account came to.
pub type LookResult = Result<AccountLook, AllocError>;

/// What a thread promises that looks at the account of a Subscription-Id.
#[derive(Drop)]
pub struct LookPromise<L> {
    id: Snapshot<Subscription>,
    of: PhantomData<L>,
}

impl<L: Sharing> Promise<LookResult> for LookPromise<L> {
    ghost use Rattle.cc_sweeper.specs.Looks.{IsLookedAt};

    ghost kept_by = { λ p result. IsLookedAt L.shared p.id.value result };
}

/// A thread that looks at one account of a shared book, so that who asks for it does not wait for the book's lock. Contracts see the
/// Subscription-Id.
#[derive(Drop)]
pub struct Looker<L: Sharing> {
    done: Arc<AtomicBool>,
    thread: PromisedHandle<LookResult, LookPromise<L>>,
}

impl<L: Sharing> Model for Looker<L> {
    ghost use Rattle.cc_view.specs.declared.request.Subscription.{Subscription};

    ghost Value = { Subscription };

    ghost view = { λ l. l.thread.promise.id.value };
}

/// Looks at an account behind the lock of its book, and tells that it is done.
fn look_now<L: Sharing, S: RowStore + Drop, R: Wait>(
    rt: &R,
    alloc: Global,
    shared: &SharedBook<L, S>,
    id: Subscription,
    done: &AtomicBool,
) -> LookResult
    ensures { IsLookedAt L.shared id result }
{
    let result = shared.account(rt, alloc, &id);
    done.store(true, Ordering::SeqCst);
    result
}

/// Starts a thread that looks at the account of a Subscription-Id in the book of this handle. Where memory or a thread is missing nobody
/// looks.
pub fn start_look<L, S, R>(
    rt: &R,
    alloc: Global,
    shared: SharedBook<L, S>,
    id: Subscription,
) -> Result<Looker<L>, AllocError>
where
    L: Sharing + Send + Sync + 'static,
    S: RowStore + Drop + Send + 'static,
    R: Threads + Wait + Copy + Send + 'static,
    ensures { IfOk result (λ looker. looker ≡ id) }
{
    let done = Arc::new(alloc, AtomicBool::new(false))?;
    let own = Arc::try_clone(&done)?;
    let promise = LookPromise {
        id: Snapshot::of(&id),
        of: PhantomData,
    };
    let runtime = *rt;
    let thread = thread::spawn_with(
        rt,
        promise,
        move || look_now::<L, S, R>(&runtime, alloc, &shared, id, &own),
    )?;
    Ok(Looker { done, thread })
}

impl<L: Sharing> Looker<L> {
    /// Whether it has looked: to join the thread takes no time then.
    pub fn is_done(&self) -> bool {
        self.done.load(Ordering::SeqCst)
    }

    /// What the look has come to. It waits until that is done.
    pub fn end<R: Threads>(self, rt: &R) -> LookResult
        ensures { IsLookedAt L.shared self result }
    {
        let Looker { done: _, thread } = self;
        thread.join(rt)
    }
}
