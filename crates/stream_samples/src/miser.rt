//! A writer that takes nothing: octets wait until more would than may, and the connection is lost once.

use crate::connections::{Exchange, PIECE, serve};
use crate::messages::REQUEST;
use samples_given::{CER, Ways, octets};
use std::alloc::Global;
use std::io::ErrorKind;

/// How many debits come: their answers, of 180 octets each, are more than 1,048,576 octets.
const DEBITS: usize = 6_000;

/// The turns: 64 reads each, which is more than all that comes.
const TURNS: usize = 8;

/// Prints what becomes of a connection on which this comes, and whose writer goes so.
fn print(
    rt: &impl Print,
    alloc: Global,
    name: &str,
    asked: &[u8],
    writes: Ways,
) -> anyhow::Result<()> {
    let exchange = Exchange {
        asked,
        answers: &[],
        reads: Ways::sound(),
        writes,
        piece: PIECE,
        turns: TURNS,
    };
    let outcome = serve(alloc, &exchange)?;
    println!(rt;
        "{name}: {} up, {} messages, {} lost, {} octets written, {} unsent",
        outcome.counts.ups,
        outcome.counts.messages,
        outcome.counts.lost,
        outcome.written,
        outcome.unsent
    )?;
    if let Some(why) = outcome.why {
        println!(rt; "{name}: {why}")?;
    }
    Ok(())
}

/// Writers that take nothing, would block, are interrupted, and one that takes all.
fn print_of(rt: &impl Print, alloc: Global, asked: &[u8]) -> anyhow::Result<()> {
    let blocks = Ways::cut_behind(0, ErrorKind::WouldBlock);
    let interrupted = Ways::cut_behind(0, ErrorKind::Interrupted);
    print(rt, alloc, "takes nothing", asked, Ways::few(0))?;
    print(rt, alloc, "would block", asked, blocks)?;
    print(rt, alloc, "is interrupted", asked, interrupted)?;
    print(rt, alloc, "takes all", asked, Ways::sound())
}

/// Capabilities, and this request again and again.
fn asked(alloc: Global, request: &[u8]) -> anyhow::Result<Vec<u8>> {
    let mut asked = octets(alloc, &[CER])?;
    for _ in 0..DEBITS {
        asked.extend_from_slice(request)?;
    }
    Ok(asked)
}

/// Capabilities and debits, whose answers wait.
pub fn print_all(rt: &impl Print, alloc: Global) -> anyhow::Result<()> {
    let debit = octets(alloc, &[REQUEST])?;
    let asked = asked(alloc, &debit)?;
    print_of(rt, alloc, &asked)
}
