//! What two fronts say of themselves after a few requests, and what requests over HTTP are answered.
//!
//! - `fronts`: what is known of them.
//! - `asking`: a request over HTTP, in memory.
//! - `health`: whether a relay or fronts can do their work.

mod asking;
mod fronts;
mod health;

use farm_metrics::{Tally, Trend, code_of_answer};
use farm_status::{Status, push_json, push_metrics, push_page};
use fronts::{status_of, tally_of, trend_of};
use std::alloc::Global;
use std::random::RandomSource;

/// A Session-Id and a Result-Code, DIAMETER_SUCCESS; then with the flag V, which makes it another AVP; then cut short.
const SUCCESS: [u8; 24] =
    *b"\x00\x00\x01\x07\x40\x00\x00\x0babc\x00\x00\x00\x01\x0c\x40\x00\x00\x0c\x00\x00\x07\xd1";

const VENDOR: [u8; 24] =
    *b"\x00\x00\x01\x07\x40\x00\x00\x0babc\x00\x00\x00\x01\x0c\xc0\x00\x00\x0c\x00\x00\x07\xd1";

/// Prints the Result-Code that is read in the AVPs of answers: with the flag V it is another AVP, and one that is cut short is
/// none.
fn print_codes(rt: &impl Print) -> anyhow::Result<()> {
    let (success, vendor, short) = (
        code_of_answer(&SUCCESS),
        code_of_answer(&VENDOR),
        code_of_answer(&SUCCESS[..23]),
    );
    println!(rt; "{success} {vendor} {short}")?;
    Ok(())
}

fn print_metrics(rt: &impl Print, alloc: Global, status: &Status<'_>) -> anyhow::Result<()> {
    let mut text = String::new(alloc);
    push_metrics(&mut text, status)?;
    print!(rt; "{text}")?;
    Ok(())
}

/// Prints the page from its body on.
fn print_page(rt: &impl Print, alloc: Global, status: &Status<'_>) -> anyhow::Result<()> {
    let mut page = String::new(alloc);
    push_page(&mut page, status)?;
    if let Some((_, body)) = page.split_once("<body>\n") {
        print!(rt; "{body}")?;
    }
    Ok(())
}

fn print_json(rt: &impl Print, alloc: Global, status: &Status<'_>) -> anyhow::Result<()> {
    let mut text = String::new(alloc);
    push_json(&mut text, status)?;
    print!(rt; "{text}")?;
    Ok(())
}

fn print_each(rt: &impl Print, alloc: Global, tally: &Tally, trend: &Trend) -> anyhow::Result<()> {
    let status = status_of(alloc, tally, trend)?;
    print_metrics(rt, alloc, &status)?;
    print_page(rt, alloc, &status)?;
    print_json(rt, alloc, &status)
}

/// Prints what two fronts say of themselves, and what requests over HTTP are answered.
pub fn print_all(rt: &(impl Print + RandomSource), alloc: Global) -> anyhow::Result<()> {
    print_codes(rt)?;
    print_each(rt, alloc, &tally_of(alloc), &trend_of(alloc))?;
    health::print_all(rt, alloc)?;
    asking::print_all(rt, alloc)
}
