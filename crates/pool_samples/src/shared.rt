//! A shared account book, called as threads call it.
//!
//! - `lines`: how answers are told. `table`: the book as one thread uses it.
//! - `seats`: what comes of seats and receipts that are handed in, or kept back, and of a sweep through the lock.
//! - `crowd`: two threads that serve the same requests, and others.

mod crowd;
mod lines;
mod seats;
mod table;

use seats::{Sample, print_sample};
use std::alloc::Global;
use std::sync::Wait;
use std::thread::Threads;

/// Prints what the calls of a shared book answer.
pub fn print_all<R: Threads + Wait + Print + Sync>(rt: &R, alloc: Global) -> anyhow::Result<()> {
    print_sample(rt, alloc, 10, false, Sample::Repeat)?;
    print_sample(rt, alloc, 1, false, Sample::Full)?;
    print_sample(rt, alloc, 10, false, Sample::Stray)?;
    print_sample(rt, alloc, 10, true, Sample::KeptBack)?;
    print_sample(rt, alloc, 10, true, Sample::Closed)?;
    print_sample(rt, alloc, 10, false, Sample::Sweeps)?;
    print_sample(rt, alloc, 2, false, Sample::Together)?;
    crowd::print_crowd(rt, alloc)
}
