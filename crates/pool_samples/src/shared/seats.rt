//! What comes of seats and receipts that are handed in, or kept back, and of a sweep through the lock.

ghost use Rattle.std.specs.Prelude.{◌≡◌, ◌≤◌, ◌<◌, ◌^◌, false};

use crate::messages::{DEBIT_WITH_TIME, INITIAL, LARGER_DEBIT, debit_request, request};
use crate::shared::lines::print_answers;
use crate::shared::table::{Table, share};
use anyhow::Context;
use cc_book::Book;
use cc_shared::{BlankHistory, Receipt, Sharing};
use samples_given::{ONE_ACCOUNT, book};
use std::alloc::Global;
use std::marker::Brand;
use std::sync::Wait;
use std::sync::ledger::Blank;

/// What is done with a shared book.
#[derive(Clone, Copy)]
pub enum Sample {
    Repeat,
    Full,
    Stray,
    KeptBack,
    Closed,
    Sweeps,
    Together,
}

/// Four times one Session-Id and CC-Request-Number through one seat: a request, another that asks for more, the first
/// again, and once more with what a server does not read.
fn repeat<L: Sharing, R: Wait + Print>(
    rt: &R,
    alloc: Global,
    table: &mut Table<L>,
) -> anyhow::Result<()> {
    table.debit(rt, alloc, 1_000, 0)?;
    table.serve(rt, alloc, 2_000, request(alloc, LARGER_DEBIT)?)?;
    table.debit(rt, alloc, 3_000, 0)?;
    table.serve(rt, alloc, 4_000, request(alloc, DEBIT_WITH_TIME)?)?;
    print_answers(rt, alloc, &table.receipts)
}

/// A book that has one entry at most: the second request is refused, a repeat of the first is not.
fn full<L: Sharing, R: Wait + Print>(
    rt: &R,
    alloc: Global,
    table: &mut Table<L>,
) -> anyhow::Result<()> {
    table.debit(rt, alloc, 1_000, 0)?;
    table.debit(rt, alloc, 1_000, 1)?;
    table.debit(rt, alloc, 1_000, 0)
}

/// The receipt of the sixth request that a book takes.
fn sixth<L: Sharing, R: Wait + Print>(
    rt: &R,
    alloc: Global,
    blank: Blank,
    history: BlankHistory,
    book: Book,
) -> anyhow::Result<Receipt>
    requires name { blank.name ≡ L.name }
    requires parts { (blank.parts ≡ L.parts) × (blank.parts ≡ 1) }
    requires book { book ≡ L.shared.opened }
    requires history { history ≡ L.shared.log }
    requires memory { L.shared.stored ≡ false }
{
    let mut table = share::<L>(alloc, blank, history, book, 1)?;
    for number in 0..6 {
        table.debit(rt, alloc, 1_000, number)?;
    }
    table.receipts.pop().context("refused")
}

fn another_receipt<R: Wait + Print>(rt: &R, alloc: Global) -> anyhow::Result<Receipt> {
    let book = book(alloc, &ONE_ACCOUNT, 10)?;
    sixth::<Brand, R>(rt, alloc, Blank::new(1), BlankHistory::new(), book)
}

/// A receipt of another book, which has no place in this one.
fn stray<L: Sharing, R: Wait + Print>(
    rt: &R,
    alloc: Global,
    table: &mut Table<L>,
) -> anyhow::Result<()> {
    let receipt = another_receipt(rt, alloc)?;
    table.debit(rt, alloc, 1_000, 0)?;
    Ok(table.receipts.push(receipt)?)
}

/// Two seats, of which the one that has served is kept back.
fn kept_back<L: Sharing, R: Wait + Print>(
    rt: &R,
    alloc: Global,
    table: &mut Table<L>,
) -> anyhow::Result<()> {
    table.debit(rt, alloc, 1_000, 0)?;
    let _kept = table.seats.pop();
    Ok(())
}

/// A session that begins at 1000, and is due at twice its validity of 600 seconds after that.
fn sweeps<L: Sharing, R: Wait + Print>(
    rt: &R,
    alloc: Global,
    table: &mut Table<L>,
) -> anyhow::Result<()> {
    table.serve(rt, alloc, 1_000, request(alloc, INITIAL)?)?;
    table.print_snapshot(rt, alloc)?;
    table.print_sweep(rt, 1_200_999)?;
    table.print_sweep(rt, 1_201_000)?;
    table.print_snapshot(rt, alloc)
}

/// A debit, the same again, another content under its key, and two more, by one call, in a book that has two entries at most. The
/// same again in another call.
fn together<L: Sharing, R: Wait + Print>(
    rt: &R,
    alloc: Global,
    table: &mut Table<L>,
) -> anyhow::Result<()> {
    let mut requests = Vec::new(alloc);
    requests.push(debit_request(alloc, 0)?)?;
    requests.push(debit_request(alloc, 0)?)?;
    requests.push(request(alloc, LARGER_DEBIT)?)?;
    requests.push(debit_request(alloc, 1)?)?;
    requests.push(debit_request(alloc, 2)?)?;
    table.serve_all(rt, alloc, 1_000, requests)?;
    let again = vec![in alloc; debit_request(alloc, 1)?]?;
    table.serve_all(rt, alloc, 9_000, again)
}

/// A book that another handle has closed.
fn find_closed<L: Sharing, R: Wait + Print>(
    rt: &R,
    alloc: Global,
    table: &mut Table<L>,
) -> anyhow::Result<()> {
    table.debit(rt, alloc, 1_000, 7)?;
    let more = vec![in alloc; debit_request(alloc, 8)?]?;
    table.serve_all(rt, alloc, 1_000, more)?;
    table.print_sweep(rt, 1_000)?;
    table.print_snapshot(rt, alloc)
}

/// What is done with a shared book before it is closed.
fn perform<L: Sharing, R: Wait + Print>(
    rt: &R,
    alloc: Global,
    table: &mut Table<L>,
    sample: Sample,
) -> anyhow::Result<()> {
    match sample {
        Sample::Repeat => repeat(rt, alloc, table),
        Sample::Full => full(rt, alloc, table),
        Sample::Stray => stray(rt, alloc, table),
        Sample::KeptBack => kept_back(rt, alloc, table),
        Sample::Closed => find_closed(rt, alloc, table),
        Sample::Sweeps => sweeps(rt, alloc, table),
        Sample::Together => together(rt, alloc, table),
    }
}

/// Does with a shared book what the sample says, and closes it.
fn print<L: Sharing, R: Wait + Print>(
    rt: &R,
    alloc: Global,
    table: Table<L>,
    sample: Sample,
) -> anyhow::Result<()> {
    let mut table = table;
    perform(rt, alloc, &mut table, sample)?;
    table.finish(rt, alloc)
}

/// Two handles: once one of them has finished, the other finds the book closed.
fn print_closed<L: Sharing, R: Wait + Print>(
    rt: &R,
    alloc: Global,
    table: Table<L>,
) -> anyhow::Result<()> {
    let mut table = table;
    let other = table.split(alloc)?;
    table.finish(rt, alloc)?;
    print(rt, alloc, other, Sample::Closed)
}

fn run<L: Sharing, R: Wait + Print>(
    rt: &R,
    alloc: Global,
    blank: Blank,
    history: BlankHistory,
    book: Book,
    seats: u64,
    sample: Sample,
) -> anyhow::Result<()>
    requires name { blank.name ≡ L.name }
    requires parts { (blank.parts ≡ L.parts) × (blank.parts ≡ seats) }
    requires some { 0 < seats }
    requires book { book ≡ L.shared.opened }
    requires history { history ≡ L.shared.log }
    requires memory { L.shared.stored ≡ false }
{
    let table = share::<L>(alloc, blank, history, book, seats)?;
    match sample {
        Sample::Closed => print_closed(rt, alloc, table),
        _ => print(rt, alloc, table, sample),
    }
}

/// The sample with a book of 1000 that has so many entries at most, and two seats or one.
pub fn print_sample<R: Wait + Print>(
    rt: &R,
    alloc: Global,
    limit: u64,
    two: bool,
    sample: Sample,
) -> anyhow::Result<()>
    requires { limit ≤ 2 ^ 20 }
{
    let seats = if two { 2 } else { 1 };
    let book = book(alloc, &ONE_ACCOUNT, limit)?;
    run::<Brand, R>(
        rt,
        alloc,
        Blank::new(seats),
        BlankHistory::new(),
        book,
        seats,
        sample,
    )
}
