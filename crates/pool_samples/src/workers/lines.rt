//! How finished jobs and the book are told.

use crate::workers::gates::Signs;
use anyhow::Context;
use cc_book::Book;
use front_pool::{Finished, Job};
use std::alloc::Global;
use std::sync::atomic::Ordering;

/// Tells of the first two jobs, in the order of their numbers, with their places in the history where that is asked.
pub fn print_jobs<R: Print>(
    rt: &R,
    alloc: Global,
    finished: &[Finished],
    places: bool,
) -> anyhow::Result<()> {
    for number in 1..=2u64 {
        let job = finished.iter().find(|job| job.job == number);
        print_job(rt, alloc, job.context("no job")?, places)?;
    }
    Ok(())
}

fn print_job<R: Print>(rt: &R, alloc: Global, job: &Finished, places: bool) -> anyhow::Result<()> {
    let receipt = job.receipt.as_ref().context("no receipt")?;
    println!(rt;
        "job {} conn {} fresh {}",
        job.job, job.conn.0, receipt.fresh
    )?;
    if places {
        println!(rt; "place {}", receipt.place)?;
    }
    print_answer(rt, alloc, job)
}

fn print_answer<R: Print>(rt: &R, alloc: Global, job: &Finished) -> anyhow::Result<()> {
    let answer = job.answer.as_ref().context("no answer")?;
    let avps = hex::encode(alloc, answer.body.as_slice())?;
    println!(rt; "{avps}")?;
    Ok(())
}

/// Tells of a job that the book was not asked for: whether its answer has the flag E, and its AVPs.
pub fn print_refused<R: Print>(rt: &R, alloc: Global, finished: &[Finished]) -> anyhow::Result<()> {
    let job = finished.first().context("no job")?;
    let error = job.answer.as_ref().context("no answer")?.header.error;
    let receipt = job.receipt.is_some();
    println!(rt;
        "job {} conn {} receipt {receipt} error {error}",
        job.job, job.conn.0
    )?;
    print_answer(rt, alloc, job)
}

/// Tells how many holds have met their limit.
pub fn print_late<R: Print>(rt: &R, signs: &Signs) -> anyhow::Result<()> {
    let late = signs.late.load(Ordering::SeqCst);
    println!(rt; "holds that met the limit {late}")?;
    Ok(())
}

/// Tells how often each of the first five jobs is among these.
pub fn print_times<R: Print>(
    rt: &R,
    finished: &[Finished],
    unserved: &[Job],
) -> anyhow::Result<()> {
    for number in 1..=5u64 {
        let done = finished.iter().filter(|job| job.job == number).count();
        let left = unserved.iter().filter(|job| job.number == number).count();
        println!(rt; "job {number} times {}", done.saturating_add(left))?;
    }
    Ok(())
}

/// Tells how often somebody was woken, for how many jobs.
pub fn print_wakes<R: Print>(rt: &R, signs: &Signs, count: usize) -> anyhow::Result<()> {
    let wakes = signs.wakes.load(Ordering::SeqCst);
    println!(rt; "wakes {wakes} of {count}")?;
    Ok(())
}

/// Tells how many jobs are finished, and how many are not.
pub fn print_counts<R: Print>(rt: &R, finished: usize, unserved: usize) -> anyhow::Result<()> {
    println!(rt; "finished {finished} unserved {unserved}")?;
    Ok(())
}

/// Tells whether so many jobs are what was charged, each by 20.
pub fn print_charged<R: Print>(rt: &R, book: &Book, count: usize) -> anyhow::Result<()> {
    let spent = 1_000i128.saturating_sub(book.balance(0).unwrap_or(0));
    let same = book.history().len() == count && spent == (count as i128).saturating_mul(20);
    println!(rt; "charged what is finished {same}")?;
    Ok(())
}
