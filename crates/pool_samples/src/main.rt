//! What no clause can say of threads and of a stored book, one function for each subject: a shared account book as threads call
//! it, a front's worker threads at work, all fronts of a site over their pools of workers, and rows and stores of a book. It
//! prints what they answer.
//!
//! - `shared`: seats and receipts that are handed in, or kept back, a sweep through the lock, and two threads that serve the
//!   same requests.
//! - `workers`: two workers, one that wakes, no room, and a stop with jobs that wait; what a repeat, a request that is refused,
//!   and a session are answered; and a stop while one of two workers holds a job.
//! - `fronts`: answers of two fronts, many at a time, a session that is due, a full book, a record, and one that is lost. No
//!   other program runs them so but the one that serves.
//! - `stored`: rows as octets, and stores of them over trees in memory: batches, crashes, damage.
//! - `messages`: requests besides the first debit. `nowhere`: what their books are stored in, nothing. `told`: what stands in a book.
//!
//! What it must print, `stdout`, was worked out by hand, in this order. It is the same however the threads run.
#![tactic(auto)]

mod fronts;
mod messages;
mod nowhere;
mod shared;
mod stored;
mod told;
mod workers;

fn main(rt: HostRuntime) -> anyhow::Result<()> {
    shared::print_all(&rt, rt.alloc())?;
    workers::print_all(&rt, rt.alloc())?;
    fronts::print_all(&rt, rt.alloc())?;
    stored::print_all(&rt, rt.alloc())
}
