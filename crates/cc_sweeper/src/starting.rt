//! How a sweeper is started.

ghost use Rattle.std.specs.Prelude.{◌≡◌, IfOk, None};

use crate::desk::new_desk;
use crate::hand::Hand;
use crate::sweeper::Sweeper;
use book_store::RowStore;
use cc_shared::{SharedBook, Sharing};
use front_pool::Wake;
use std::alloc::{AllocError, Global};
use std::sync::{Arc, Wait};
use std::thread;
use std::thread::Threads;

/// Starts a thread that sweeps the book of this handle where it is asked to, and then wakes by this. Where memory or a thread is
/// missing, nothing is started.
pub fn start_sweeper<L, S, R, K>(
    rt: &R,
    alloc: Global,
    shared: SharedBook<L, S>,
    waker: K,
) -> Result<Sweeper<L>, AllocError>
where
    L: Sharing + Send + Sync + 'static,
    S: RowStore + Drop + Send + 'static,
    R: Threads + Wait + Copy + Send + 'static,
    K: Wake + Drop + Send + 'static,
    ensures { IfOk result (λ sweeper. sweeper ≡ None) }
{
    let (desk, asker, hand) = new_desk::<L>(alloc)?;
    let own = Arc::try_clone(&desk)?;
    let hand = Hand::new(own, hand, shared, waker);
    let runtime = *rt;
    let thread = thread::spawn(rt, move || hand.run::<R>(&runtime))?;
    Ok(Sweeper::of_thread(desk, asker, thread))
}
