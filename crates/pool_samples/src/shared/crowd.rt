//! Two threads that serve the same requests, and others.

ghost use Rattle.std.specs.Prelude.{◌≡◌, false};

use crate::messages::debit_request;
use crate::shared::table::{Table, share};
use cc_book::Book;
use cc_shared::{BlankHistory, Sharing};
use dia_base::Moment;
use samples_given::book;
use std::alloc::Global;
use std::marker::Brand;
use std::sync::Wait;
use std::sync::ledger::Blank;
use std::thread;
use std::thread::Threads;

/// How many requests a thread serves that the other serves too, and how many that it does not.
const EACH: u32 = 100;

/// Serves one debit, and keeps the receipt.
fn serve<L: Sharing, R: Wait>(
    rt: &R,
    alloc: Global,
    table: &mut Table<L>,
    number: u32,
) -> Option<()> {
    let request = debit_request(alloc, number).ok()?;
    let mut seat = table.seats.pop()?;
    let served = table
        .shared
        .serve(rt, alloc, &mut seat, Moment(1_000), request);
    table.seats.push(seat).ok()?;
    table.receipts.push(served.ok()?).ok()
}

/// Serves the debits of these numbers.
fn serve_from<L: Sharing, R: Wait>(
    rt: &R,
    alloc: Global,
    table: &mut Table<L>,
    first: u32,
) -> Option<()> {
    for number in 0..EACH {
        serve(rt, alloc, table, first.saturating_add(number))?;
    }
    Some(())
}

/// Serves the debits of these numbers, and then those that both threads serve. Where one was not served, it ends there.
fn work<L: Sharing, R: Wait>(rt: &R, alloc: Global, table: Table<L>, first: u32) -> Table<L> {
    let mut table = table;
    if serve_from(rt, alloc, &mut table, first).is_some() {
        let _served = serve_from(rt, alloc, &mut table, 0);
    }
    table
}

/// Puts the seats and receipts of both together.
fn put_together<L: Sharing>(left: Table<L>, right: Table<L>) -> anyhow::Result<Table<L>> {
    let mut left = left;
    let Table {
        shared: _,
        seats,
        receipts,
    } = right;
    for seat in seats {
        left.seats.push(seat)?;
    }
    for receipt in receipts {
        left.receipts.push(receipt)?;
    }
    Ok(left)
}

/// Two threads serve 200 debits each, of which 100 are the same: 300 are charged.
fn crowd<L: Sharing + Send + Sync, R: Threads + Wait + Print + Sync>(
    rt: &R,
    alloc: Global,
    blank: Blank,
    history: BlankHistory,
    book: Book,
) -> anyhow::Result<()>
    requires name { blank.name ≡ L.name }
    requires parts { (blank.parts ≡ L.parts) × (blank.parts ≡ 2) }
    requires book { book ≡ L.shared.opened }
    requires history { history ≡ L.shared.log }
    requires memory { L.shared.stored ≡ false }
{
    let mut one = share::<L>(alloc, blank, history, book, 2)?;
    let two = one.split(alloc)?;
    let (left, right) = thread::join(
        rt,
        move || work(rt, alloc, one, 1_000),
        move || work(rt, alloc, two, 2_000),
    );
    let table = put_together(left, right)?;
    println!(rt; "receipts {}", table.receipts.len())?;
    table.finish(rt, alloc)
}

pub fn print_crowd<R: Threads + Wait + Print + Sync>(rt: &R, alloc: Global) -> anyhow::Result<()> {
    let book = book(alloc, &[("491700000001", 6_000)], 1_000)?;
    crowd::<Brand, R>(rt, alloc, Blank::new(2), BlankHistory::new(), book)
}
