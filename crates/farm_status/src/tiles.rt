//! What is to be seen of a node at one look: numbers that stand large on the page.

use crate::figures::{Refusal, mean, peers_up, refusals};
use crate::lately::lately;
use crate::numbers::{Grouped, Millis};
use crate::status::{Status, Work};
use std::alloc::AllocError;

/// A number that is seen at once, and what it counts.
fn tile(out: &mut String, is_bad: bool, number: u64, what: &str) -> Result<(), AllocError> {
    let class = if is_bad { "tile bad" } else { "tile" };
    let number = Grouped(number);
    write!(
        out,
        "<div class=\"{class}\"><b>{number}</b><span>{what}</span></div>\n"
    )
}

/// A part of a whole that is seen at once.
fn tile_of(
    out: &mut String,
    is_bad: bool,
    part: u64,
    whole: u64,
    what: &str,
) -> Result<(), AllocError> {
    let class = if is_bad { "tile bad" } else { "tile" };
    let (part, whole) = (Grouped(part), Grouped(whole));
    write!(
        out,
        "<div class=\"{class}\"><b>{part} of {whole}</b><span>{what}</span></div>\n"
    )
}

/// A time that is seen at once, in microseconds, and what it is of.
fn tile_of_time(out: &mut String, micros: u64, what: &str) -> Result<(), AllocError> {
    let millis = Millis(micros);
    write!(
        out,
        "<div class=\"tile\"><b>{millis}</b><span>{what}</span></div>\n"
    )
}

/// What is to be seen at one look.
pub(crate) fn push_tiles(out: &mut String, status: &Status<'_>) -> Result<(), AllocError> {
    let tally = status.tally;
    let (up, all) = (peers_up(&status.peers), status.peers.len() as u64);
    out.push_str("<div class=\"tiles\">\n")?;
    tile_of(out, up < all, up, all, "neighbours up")?;
    tile(out, false, tally.requests, "requests")?;
    if let Some(rates) = lately(status.trend.samples()) {
        tile(out, false, rates.requests, "requests a second")?;
    }
    tile(out, false, tally.answers.total(), "answers")?;
    let for_credit = refusals(&tally.answers, Refusal::Credit);
    tile(out, false, for_credit, "refused for credit")?;
    let others = refusals(&tally.answers, Refusal::Other);
    tile(out, false, others, "other refusals")?;
    push_work_tiles(out, &status.work)?;
    tile(out, false, tally.failovers, "failovers")?;
    tile_of_time(out, mean(&tally.times), "ms a request")?;
    out.push_str("</div>\n")
}

/// What is under way, and what the book has come to.
fn push_work_tiles(out: &mut String, work: &Work) -> Result<(), AllocError> {
    match work {
        Work::Relay {
            pending,
            limit,
            mismatched,
        } => {
            tile_of(
                out,
                pending >= limit,
                *pending,
                *limit,
                "requests under way",
            )?;
            tile(out, *mismatched > 0, *mismatched, "answers mismatched")
        }
        Work::Fronts { fronts, book } => {
            let mut waiting: u64 = 0;
            for front in fronts {
                waiting = waiting.saturating_add(front.waiting);
            }
            tile(out, false, waiting, "requests under way")?;
            match book {
                Some(book) => tile(out, false, book.served.charges, "charges"),
                None => Ok(()),
            }
        }
    }
}
