//! A shared book as one thread uses it, with what it prints of each call.

ghost use Rattle.std.specs.Prelude.{◌≡◌, ◌<◌, false};

use crate::messages::debit_request;
use crate::nowhere::Nowhere;
use crate::shared::lines::{print_finished, print_served};
use anyhow::Context;
use cc_book::Book;
use cc_shared::{Asked, BlankHistory, Receipt, Seat, Served, SharedBook, Sharing};
use cc_view::CcRequest;
use dia_base::Moment;
use std::alloc::{AllocError, AllocFailed, Global};
use std::sync::Wait;
use std::sync::ledger::Blank;

/// A handle on a shared book, seats at it, and the receipts that were given.
#[derive(Drop)]
pub struct Table<L: Sharing> {
    pub shared: SharedBook<L, Nowhere>,
    pub seats: Vec<Seat<L>>,
    pub receipts: Vec<Receipt>,
}

/// A shared book with all its seats.
pub fn share<L: Sharing>(
    alloc: Global,
    blank: Blank,
    history: BlankHistory,
    book: Book,
    seats: u64,
) -> anyhow::Result<Table<L>>
    requires name { blank.name ≡ L.name }
    requires parts { (blank.parts ≡ L.parts) × (blank.parts ≡ seats) }
    requires some { 0 < seats }
    requires book { book ≡ L.shared.opened }
    requires history { history ≡ L.shared.log }
    requires memory { L.shared.stored ≡ false }
{
    match SharedBook::<L, Nowhere>::share(alloc, blank, history, book, seats) {
        Ok((shared, seats)) => Ok(Table {
            shared,
            seats,
            receipts: Vec::new(alloc),
        }),
        Err(_) => Err(AllocError.into()),
    }
}

/// These requests, the first at this moment, and each a second later than the one before. Each is told by its number among them.
fn asked_from(
    alloc: Global,
    moment: u64,
    requests: Vec<CcRequest>,
) -> Result<Vec<Asked<u32>>, AllocFailed<Asked<u32>>> {
    let (mut asked, mut job, mut next) = (Vec::new(alloc), 0u32, moment);
    for request in requests {
        let moment = Moment(next);
        asked.push(Asked {
            job,
            moment,
            request,
        })?;
        job = job.saturating_add(1);
        next = next.saturating_add(1_000);
    }
    Ok(asked)
}

impl<L: Sharing> Table<L> {
    /// Serves a request through the last seat.
    pub fn serve<R: Wait + Print>(
        &mut self,
        rt: &R,
        alloc: Global,
        moment: u64,
        request: CcRequest,
    ) -> anyhow::Result<()> {
        let mut seat = self.seats.pop().context("no seat")?;
        let served = self
            .shared
            .serve(rt, alloc, &mut seat, Moment(moment), request);
        self.seats.push(seat)?;
        print_served(rt, &served)?;
        match served {
            Ok(receipt) => self.receipts.push(receipt)?,
            Err(_refused) => {}
        }
        Ok(())
    }

    /// Serves these requests through the last seat by one call, the first of them at this moment, and each a second later than the
    /// one before.
    pub fn serve_all<R: Wait + Print>(
        &mut self,
        rt: &R,
        alloc: Global,
        moment: u64,
        requests: Vec<CcRequest>,
    ) -> anyhow::Result<()> {
        let mut seat = self.seats.pop().context("no seat")?;
        let asked = asked_from(alloc, moment, requests)?;
        let served = self.shared.serve_all(rt, alloc, &mut seat, asked);
        self.seats.push(seat)?;
        for one in served.ok().context("handed back")? {
            self.take_in(rt, one)?;
        }
        Ok(())
    }

    /// Prints what one of several requests came to, and keeps its receipt.
    fn take_in(&mut self, rt: &impl Print, served: Served<u32>) -> anyhow::Result<()> {
        print!(rt; "number {} at {}: ", served.job, served.moment.0)?;
        print_served(rt, &served.result)?;
        match served.result {
            Ok(receipt) => self.receipts.push(receipt)?,
            Err(_refused) => {}
        }
        Ok(())
    }

    /// Serves the debit of this number.
    pub fn debit<R: Wait + Print>(
        &mut self,
        rt: &R,
        alloc: Global,
        moment: u64,
        number: u32,
    ) -> anyhow::Result<()> {
        let request = debit_request(alloc, number)?;
        self.serve(rt, alloc, moment, request)
    }

    /// One more handle on the book, with the last seat of this.
    pub fn split(&mut self, alloc: Global) -> anyhow::Result<Table<L>> {
        let seat = self.seats.pop().context("no seat")?;
        let shared = self.shared.another()?;
        Ok(Table {
            shared,
            seats: vec![in alloc; seat]?,
            receipts: Vec::new(alloc),
        })
    }

    /// Balance and reserved amount of each account.
    pub fn print_snapshot<R: Wait + Print>(&self, rt: &R, alloc: Global) -> anyhow::Result<()> {
        let standings = self.shared.snapshot(rt, alloc)?.standings;
        println!(rt; "accounts {}", standings.len())?;
        for (balance, reserved) in &standings {
            println!(rt; "balance {balance} reserved {reserved}")?;
        }
        Ok(())
    }

    pub fn print_sweep<R: Wait + Print>(&self, rt: &R, moment: u64) -> anyhow::Result<()> {
        let swept = self.shared.sweep(rt, Moment(moment)).ok();
        println!(rt; "ended {}", swept.context("refused")?.ended)?;
        Ok(())
    }

    /// Closes the book with these seats and receipts.
    pub fn finish<R: Wait + Print>(self, rt: &R, alloc: Global) -> anyhow::Result<()> {
        let Table {
            shared,
            seats,
            receipts,
        } = self;
        let finished = shared.finish(rt, alloc, seats, &receipts);
        print_finished(rt, &finished)
    }
}
