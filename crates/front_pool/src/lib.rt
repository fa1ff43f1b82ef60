//! Worker threads of a front, on one account book that they share.
//!
//! - [`Pool`]: [`Pool::start`] starts a thread for each seat; [`Pool::submit`] hands over a request, [`Pool::collect`] takes
//!   a finished answer out, [`Pool::stop`] ends all threads and gives everything back.
//! - [`Gate`]: is passed by a job before the book is asked and once it is answered. [`Wakes`] is the gate that wakes whoever
//!   waits for answers, by a [`Wake`]; [`NoGate`] holds nobody.
//! - [`Pooling`]: names the pools on one book: its sharing, and what the answers of each front name.
//!
//! Jobs and finished answers travel in two bounded queues. A worker takes a job, reads the request in it, has it served
//! through its seat, and spells the answer; the book's lock is held for the serving alone. The pool keeps each job until
//! its answer is collected, so that no job is lost, whatever its worker does.
//!
//! What a finished answer says stands in `specs/Answering`, what travels in the queues in `specs/Moving`, and what the calls
//! do with the jobs in `specs/Keeping`. That receipts are charges of a front, in the order of their places, is the law
//! [`fresh_receipts_are_charges`], over `specs/Charging`.
//!
//! ```text
//! let queue = PoolQueue { front, name, realm, profile, timer, jobs: 1024 };
//! let mut pool = Pool::start::<ViewWire, _, _, _>(&rt, alloc, shared.another()?, seats, Wakes { waker }, queue)?;
//! let number = pool.submit(&rt, conn, request)?;          // a full queue hands the request back
//! while let Some(finished) = pool.collect(&rt) {
//!     let (conn, answer) = finished.into_answer();
//!     send(conn, answer);
//! }
//! let stopped = pool.stop(&rt);                           // each job once: in finished or in unserved
//! let book = shared.finish(&rt, alloc, stopped.seats, &receipts)?;
//! ```
#![tactic(auto)]

mod answering;
mod control;
mod desk;
mod error;
mod gate;
mod job;
mod laws;
mod pool;
mod queues;
mod site;
mod starting;
mod task;
mod worker;

pub use error::{StartFailed, SubmitError};
pub use gate::{Gate, NoGate, Wake, Wakes};
pub use job::{Finished, Job, Stopped};
pub use laws::fresh_receipts_are_charges;
pub use pool::Pool;
pub use queues::Moves;
pub use site::{PoolQueue, PoolSite, Pooling};
pub use task::Done;
