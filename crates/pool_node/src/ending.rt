//! How the workers of all fronts end, and the sweeper of their book.

ghost use Rattle.pool_node.specs.Booked.{EndsSwept, KeepsLast};

use crate::booked::Booked;
use crate::front::PoolFront;
use book_store::RowStore;
use cc_shared::{Seat, SharedBook};
use cc_sweeper::Sweeper;
use front_pool::{Finished, Pooling, Stopped};
use std::alloc::{AllocFailed, Global};
use std::rt::Clock;
use std::sync::Wait;
use std::thread::Threads;

/// Jobs that were finished and not collected.
fn collect_last(finished: &[Finished], book: &mut Booked) {
    for job in finished {
        book.collected(job);
    }
}

/// Ends the workers of these fronts, and keeps what they have finished and nobody has collected: their seats, unless memory
/// was missing for these.
fn stop_fronts<L: Pooling, R: Threads + Wait + Clock>(
    rt: &R,
    alloc: Global,
    fronts: Vec<PoolFront<L>>,
    book: &mut Booked,
) -> Result<Vec<Seat<L>>, AllocFailed<Seat<L>>> {
    let mut all = Vec::new(alloc);
    for front in fronts {
        let Stopped {
            seats,
            finished,
            unserved: _,
        } = front.stop(rt);
        collect_last(&finished, book);
        for seat in seats {
            all.push(seat)?;
        }
    }
    Ok(all)
}

/// Ends the sweeper, and keeps what the sweep has come to that was under way.
fn stop_sweeper<L: Pooling, S: RowStore + Drop, R: Threads + Wait>(
    rt: &R,
    shared: &SharedBook<L, S>,
    sweeper: Sweeper<L>,
    book: &mut Booked,
)
    ensures { KeepsLast L.shared sweeper book.old book.new }
{
    if let Some(done) = sweeper.stop(rt, shared) {
        book.swept(&done);
    }
}

/// Ends the workers of these fronts and then the sweeper. What they have done and nobody has collected is kept, the sweep that was
/// under way behind all else: their seats, unless memory was missing for these.
pub fn stop_all<L: Pooling, S: RowStore + Drop, R: Threads + Wait + Clock>(
    rt: &R,
    alloc: Global,
    shared: &SharedBook<L, S>,
    fronts: Vec<PoolFront<L>>,
    sweeper: Sweeper<L>,
    book: &mut Booked,
) -> Result<Vec<Seat<L>>, AllocFailed<Seat<L>>>
    ensures { EndsSwept L.shared sweeper book.new }
{
    let seats = stop_fronts(rt, alloc, fronts, book);
    stop_sweeper(rt, shared, sweeper, book);
    seats
}
