//! One stream in pieces of any length, and streams that begin with no message.

use crate::connections::{Exchange, Outcome, serve};
use crate::messages::{ANSWER, CEA, REQUEST};
use samples_given::{CER, Ways, octets};
use std::alloc::Global;

/// The longest piece, which is longer than the stream.
const LONGEST: usize = 400;

/// Prints how often the answers are the same, whatever the length of a read.
fn print_same(rt: &impl Print, alloc: Global, asked: &[u8], answers: &[u8]) -> anyhow::Result<()> {
    let mut same: u32 = 0;
    for length in 1..=LONGEST {
        let outcome = serve(
            alloc,
            &Exchange {
                asked,
                answers,
                reads: Ways::sound(),
                writes: Ways::sound(),
                piece: length,
                // Seven turns of 64 reads, of an octet at least, read the 396 octets.
                turns: 7,
            },
        )?;
        if outcome.begins && outcome.written == answers.len() && outcome.why.is_none() {
            same = same.saturating_add(1);
        }
    }
    println!(rt; "reads of 1 to 400 octets: {same} times the same answers")?;
    Ok(())
}

fn print_lengths(rt: &impl Print, alloc: Global) -> anyhow::Result<()> {
    let asked = octets(alloc, &[CER, REQUEST])?;
    let answers = octets(alloc, &[CEA, ANSWER])?;
    print_same(rt, alloc, &asked, &answers)
}

/// What becomes of a connection behind the exchange of capabilities where this comes, an octet a read.
fn beginning(alloc: Global, text: &str) -> anyhow::Result<Outcome> {
    let asked = octets(alloc, &[CER, text])?;
    serve(
        alloc,
        &Exchange {
            asked: &asked,
            answers: &[],
            reads: Ways::few(1),
            writes: Ways::sound(),
            piece: 1,
            turns: 4,
        },
    )
}

/// Prints what becomes of it.
fn print_beginning(rt: &impl Print, alloc: Global, text: &str) -> anyhow::Result<()> {
    let outcome = beginning(alloc, text)?;
    let (ups, lost) = (outcome.counts.ups, outcome.counts.lost);
    match outcome.why {
        Some(why) => println!(rt; "{text}: {ups} up, {lost} lost: {why}")?,
        None => println!(rt; "{text}: {ups} up, {lost} lost")?,
    }
    Ok(())
}

/// Pieces of all lengths, and the first octets of what is no message, or may be one.
pub fn print_all(rt: &impl Print, alloc: Global) -> anyhow::Result<()> {
    print_lengths(rt, alloc)?;
    for text in [
        "02", "00", "01", "010000", "01000010", "01000014", "01000016", "01010004", "01040000",
        "01040004",
    ] {
        print_beginning(rt, alloc, text)?;
    }
    Ok(())
}
