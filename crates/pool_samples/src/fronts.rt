//! All fronts of a site over their pools of workers, as one node, without sockets: what the node says at each event, and what
//! the book has come to.
//!
//! - `site`: a site with two fronts. `running`: the node, what its workers wake, and how events are told.
//! - `samples`: what the node is told.

mod running;
mod samples;
mod site;

use samples::{Sample, print_sample};
use std::alloc::Global;
use std::rt::Clock;
use std::sync::Wait;
use std::thread::Threads;

/// Prints what the fronts of a site say, and what their book has come to.
pub fn print_all<R>(rt: &R, alloc: Global) -> anyhow::Result<()>
where
    R: Threads + Wait + Clock + Print + Copy + Send + 'static,
{
    print_sample(rt, alloc, 100, Sample::Answers)?;
    print_sample(rt, alloc, 100, Sample::Many)?;
    print_sample(rt, alloc, 100, Sample::Session)?;
    print_sample(rt, alloc, 1, Sample::Full)?;
    print_sample(rt, alloc, 100, Sample::Record)?;
    print_sample(rt, alloc, 100, Sample::Lost)
}
