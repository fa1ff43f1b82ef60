//! A front's worker threads at work: what no clause can say of them, that they run at the same time, and what comes of full
//! queues and of a stop.
//!
//! - `gates`: what holds a job on its way. `running`: a pool from its start to its end. `lines`: how finished jobs are told.
//! - `samples`: what is done with a pool.

mod gates;
mod lines;
mod running;
mod samples;

pub use samples::print_all;
