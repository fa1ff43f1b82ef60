//! A book that is asked again where memory was refused.

ghost use Rattle.farm_base.specs.CheckedSite.{IsChecked};

use crate::replay::farm::print_report;
use anyhow::bail;
use cc_book::{Answered, Book, BookRefusal};
use cc_view::{CcRequest, ViewError, request_under};
use dia_avp::ViewWire;
use dia_base::Moment;
use dia_message::Message;
use farm_base::{Site, Step};
use farm_model::Trace;
use farm_world::run;
use std::alloc::Global;

/// The moment of the first request, in milliseconds; each other one comes a second after the one before.
const FIRST: u64 = 1_000;

/// A sweep at this moment ends each session.
const LAST: u64 = 1_000_000_000;

/// What the book answers, once more where memory was refused.
fn taken(
    alloc: Global,
    book: &mut Book,
    moment: Moment,
    request: &CcRequest,
) -> Result<Answered, BookRefusal> {
    match book.take(alloc, moment, request) {
        Err(BookRefusal::OutOfMemory) => book.take(alloc, moment, request),
        answer => answer,
    }
}

fn book_of(trace: Trace) -> Book {
    let Trace {
        sent: _sent,
        received: _received,
        book,
        skipped: _skipped,
        ends: _ends,
    } = trace;
    book
}

/// A book of the site without an entry: that of a run without a step.
fn fresh_book(alloc: Global, site: &Site) -> anyhow::Result<Book>
    requires { IsChecked site.now }
{
    match run::<ViewWire>(alloc, site, &[]) {
        Ok(trace) => Ok(book_of(trace)),
        Err(_error) => bail!("out of memory"),
    }
}

/// Has the book take each request of the schedule, and prints what it answers.
fn take_all(
    rt: &impl Print,
    alloc: Global,
    book: &mut Book,
    site: &Site,
    steps: &[Step],
) -> anyhow::Result<()> {
    let mut moment = FIRST;
    for step in steps {
        if let Step::Send { message, .. } = step {
            print_message(rt, alloc, book, site, Moment(moment), message)?;
            moment = moment.saturating_add(1_000);
        }
    }
    Ok(())
}

/// Prints what the book holds, before a sweep that ends each session and behind it.
fn print_swept(rt: &impl Print, alloc: Global, book: &mut Book) -> anyhow::Result<()> {
    print_report(rt, alloc, book)?;
    let ended = book.sweep(Moment(LAST)).unwrap_or(0);
    println!(rt; "ended {ended}")?;
    print_report(rt, alloc, book)
}

/// Has a fresh book take each request of the schedule, and then sweep, and prints what it answers and holds.
pub fn print(rt: &impl Print, alloc: Global, site: &Site, steps: &[Step]) -> anyhow::Result<()>
    requires { IsChecked site.now }
{
    let mut book = fresh_book(alloc, site)?;
    take_all(rt, alloc, &mut book, site, steps)?;
    print_swept(rt, alloc, &mut book)
}

fn print_message(
    rt: &impl Print,
    alloc: Global,
    book: &mut Book,
    site: &Site,
    moment: Moment,
    message: &Message,
) -> anyhow::Result<()> {
    let profile = site.front_profile()?;
    match request_under::<ViewWire>(alloc, message, profile.as_profile()) {
        Ok(request) => print_taken(rt, alloc, book, moment, &request),
        Err(ViewError::Refused(_refusal)) => {
            println!(rt; "no request")?;
            Ok(())
        }
        Err(ViewError::OutOfMemory) => bail!("out of memory"),
    }
}

fn print_taken(
    rt: &impl Print,
    alloc: Global,
    book: &mut Book,
    moment: Moment,
    request: &CcRequest,
) -> anyhow::Result<()> {
    match taken(alloc, book, moment, request) {
        Ok(answered) => println!(rt;
            "place {} fresh {} code {}",
            answered.place,
            answered.fresh,
            answered.reply.code.number()
        )?,
        Err(refusal) => println!(rt; "{refusal}")?,
    }
    Ok(())
}
