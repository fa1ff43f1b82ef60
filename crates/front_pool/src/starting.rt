//! How a pool is started.

ghost use Rattle.std.specs.Prelude.{◌≡◌, ◌<◌, length, IfErr, IfOk};
ghost use Rattle.std.specs.Arc.{arc_value};
ghost use Rattle.crossbeam_queue.specs.Passes.{IsPassOf, view};
ghost use Rattle.front_pool.specs.Keeping.{new_pool};
ghost use Rattle.front_pool.specs.Moving.{of_pool};

use crate::desk::Desk;
use crate::error::StartFailed;
use crate::gate::Gate;
use crate::pool::{Pool, joined};
use crate::queues::{FinishedPass, JobPass};
use crate::site::{PoolQueue, Pooling};
use crate::worker::Worker;
use book_store::RowStore;
use cc_shared::{Seat, SharedBook};
use dia_avp::Wire;
use std::alloc::Global;
use std::rt::Clock;
use std::sync::Wait;
use std::thread;
use std::thread::{JoinHandle, Threads};

/// A thread for one worker more, or its seat, where there is no memory or no thread for it.
fn hire<W, L, S, R, G>(
    rt: &R,
    alloc: Global,
    desk: &Desk<L, G>,
    job_pass: &mut JobPass,
    finished_pass: &mut FinishedPass,
    shared: &SharedBook<L, S>,
    seat: Seat<L>,
) -> Result<JoinHandle<Seat<L>>, Seat<L>>
where
    W: Wire + Send + 'static,
    L: Pooling + Send + Sync + 'static,
    S: RowStore + Drop + Send + 'static,
    R: Threads + Wait + Clock + Copy + Send + 'static,
    G: Gate + Drop + Send + Sync + 'static,
    requires site { arc_value desk.now.site ≡ L.site desk.now.front }
    requires jobs { IsPassOf (arc_value desk.now.jobs) job_pass.old × (view job_pass.old ≡ of_pool) }
    requires finished { IsPassOf (arc_value desk.now.finished) finished_pass.old × (view finished_pass.old ≡ of_pool) }
    ensures jobs { IsPassOf (arc_value desk.now.jobs) job_pass.new × (view job_pass.new ≡ of_pool) }
    ensures finished { IsPassOf (arc_value desk.now.finished) finished_pass.new × (view finished_pass.new ≡ of_pool) }
{
    let Ok(own) = desk.another() else {
        return Err(seat);
    };
    let Ok(handle) = shared.another() else {
        return Err(seat);
    };
    let (to_take, to_put) = desk.passes(job_pass, finished_pass);
    desk.control.hire();
    let worker = Worker::new(own, to_take, to_put, handle, seat);
    let runtime = *rt;
    match thread::spawn(rt, move || worker.run::<W, R>(&runtime, alloc)) {
        Ok(thread) => Ok(thread),
        Err(refused) => {
            // A worker of a pool that stops gives its seat back at once.
            desk.control.stop();
            Err((refused.value)())
        }
    }
}

impl<L: Pooling + Send + Sync + 'static> Pool<L> {
    /// Starts a worker for each seat, each in a thread of its own, and all on this book. Where memory or a thread is missing,
    /// those that were started are ended and joined, and the handle and the seats handed back. The caller keeps a handle
    /// for [`SharedBook::finish`].
    pub fn start<W, S, R, G>(
        rt: &R,
        alloc: Global,
        shared: SharedBook<L, S>,
        seats: Vec<Seat<L>>,
        gate: G,
        queue: PoolQueue,
    ) -> Result<Pool<L>, StartFailed<L, S>>
    where
        W: Wire + Send + 'static,
        S: RowStore + Drop + Send + 'static,
        R: Threads + Wait + Clock + Copy + Send + 'static,
        G: Gate + Drop + Send + Sync + 'static,
        requires jobs { 0 < queue.jobs }
        requires site { L.site queue.front ≡ record { name = queue.name; realm = queue.realm; profile = queue.profile } }
        ensures pool { IfOk result (λ pool. pool ≡ new_pool queue.front (length seats.items) queue.jobs) }
        ensures failed { IfErr result (λ failed. length failed.seats.items ≡ length seats.items) }
    {
        let Ok(mut workers) = Vec::with_capacity(alloc, seats.len()) else {
            return Err(StartFailed { shared, seats });
        };
        let Ok(mut back) = Vec::with_capacity(alloc, seats.len()) else {
            return Err(StartFailed { shared, seats });
        };
        let Ok((desk, mut job_pass, mut finished_pass)) = Desk::new(alloc, gate, queue) else {
            return Err(StartFailed { shared, seats });
        };
        for seat in seats {
            match hire::<W, L, S, R, G>(
                rt,
                alloc,
                &desk,
                &mut job_pass,
                &mut finished_pass,
                &shared,
                seat,
            ) {
                Ok(thread) => workers.push_reserved(thread),
                Err(seat) => back.push_reserved(seat),
            }
        }
        if back.is_empty() {
            return Ok(Pool::of_workers(alloc, desk, job_pass, finished_pass, workers, back));
        }
        desk.control.stop();
        let seats = joined(rt, workers, back);
        Err(StartFailed { shared, seats })
    }
}
