//! Connections that wait: for somebody to say who it is, and for what is to be written still.

use crate::connections::{let_go, silent};
use crate::counting::{Counting, Counts};
use crate::messages::DPR;
use crate::sites::FRONT;
use dia_avp::ViewWire;
use dia_base::{ConnId, Moment};
use farm_connections::{Refusal, UNKNOWN_LIMIT};
use samples_given::{CER, MOMENT, Served, Ways, accept, octets, read};
use std::alloc::Global;
use std::io::ErrorKind;

/// Someone connects, and has said this.
fn connect<'a>(
    alloc: Global,
    serving: &mut Served<'a, Counting>,
    said: &'a [u8],
    writes: Ways,
) -> Result<ConnId, Refusal> {
    accept(alloc, serving, FRONT, said, Ways::sound(), writes)
}

/// As many connect as may be unknown, of whom the first has said who it is, and one more; and one more once that was heard.
fn fill<'a>(
    rt: &impl Print,
    alloc: Global,
    serving: &mut Served<'a, Counting>,
    cer: &'a [u8],
) -> anyhow::Result<()> {
    for place in 0..UNKNOWN_LIMIT {
        let said: &[u8] = if place == 0 { cer } else { &[] };
        if let Err(why) = connect(alloc, serving, said, Ways::sound()) {
            println!(rt; "connection {place}: {why}")?;
        }
    }
    if let Err(why) = connect(alloc, serving, &[], Ways::sound()) {
        println!(rt; "{why}")?;
    }
    read(serving, ConnId(1));
    let one_more = connect(alloc, serving, &[], Ways::sound()).is_ok();
    println!(rt; "one more {one_more}, {} in all", serving.count())?;
    Ok(())
}

fn print_unknown(rt: &impl Print, alloc: Global) -> anyhow::Result<()> {
    let cer = octets(alloc, &[CER])?;
    let mut serving = silent(alloc)?;
    fill(rt, alloc, &mut serving, &cer)
}

/// Behind a connection that stands, one that its other end ends: on its writer no call works from this one on. Prints from which
/// of these moments on it may be let go.
fn part<'a>(
    rt: &impl Print,
    alloc: Global,
    name: &str,
    serving: &mut Served<'a, Counting>,
    parting: &'a [u8],
    writes: u32,
) -> anyhow::Result<()> {
    connect(alloc, serving, &[], Ways::sound())?;
    let writes = Ways::failing_from(writes, ErrorKind::WouldBlock);
    let conn = connect(alloc, serving, parting, writes)?;
    read(serving, conn);
    serving.write_all::<ViewWire>(MOMENT);
    for moment in [1_000, 5_999, 6_000] {
        if let Some((conn, why)) = let_go(serving, Moment(moment)) {
            println!(rt; "{name}: {} let go at {moment}: {why}", conn.0)?;
        }
    }
    Ok(())
}

fn print_let_go(rt: &impl Print, alloc: Global, name: &str, writes: u32) -> anyhow::Result<()> {
    let parting = octets(alloc, &[CER, DPR])?;
    let mut serving = silent(alloc)?;
    part(rt, alloc, name, &mut serving, &parting, writes)
}

/// A node without connections for which time has passed twice, and which was woken once.
fn woken(alloc: Global) -> anyhow::Result<Counts> {
    let mut serving = silent(alloc)?;
    serving.tick::<ViewWire>(MOMENT);
    serving.tick::<ViewWire>(Moment(2_000));
    serving.wake::<ViewWire>(Moment(2_000));
    Ok(serving.node().counts)
}

fn print_told(rt: &impl Print, alloc: Global) -> anyhow::Result<()> {
    let counts = woken(alloc)?;
    println!(rt; "ticks {} wakes {}", counts.ticks, counts.wakes)?;
    Ok(())
}

/// Who may be unknown, how long what is written may wait, and what a node is told without connections.
pub fn print_all(rt: &impl Print, alloc: Global) -> anyhow::Result<()> {
    print_unknown(rt, alloc)?;
    print_let_go(rt, alloc, "all is written", u32::MAX)?;
    print_let_go(rt, alloc, "nothing is written", 0)?;
    print_told(rt, alloc)
}
