//! A connection for each way to end.

use crate::connections::{Exchange, PIECE, let_go, serve_on, silent};
use crate::counting::Counting;
use crate::messages::{DPR, DWR};
use dia_avp::ViewWire;
use dia_base::Moment;
use samples_given::{CER, Served, Ways, octets};
use std::alloc::Global;
use std::io::ErrorKind;

/// Serves a connection on which this comes for three turns and an interval.
fn serve<'a>(
    alloc: Global,
    serving: &mut Served<'a, Counting>,
    asked: &'a [u8],
    reads: Ways,
    writes: Ways,
) {
    let mut piece = [0u8; PIECE];
    let exchange = Exchange {
        asked,
        answers: &[],
        reads,
        writes,
        piece: PIECE,
        turns: 3,
    };
    serve_on(alloc, serving, &exchange, &mut piece);
    serving.tick::<ViewWire>(Moment(31_000));
}

/// Prints what the node was told, and why connections have ended: of one connection that is once.
fn print_ends(
    rt: &impl Print,
    name: &str,
    serving: &mut Served<'_, Counting>,
) -> anyhow::Result<()> {
    let counts = serving.node().counts;
    for _ in 0..2 {
        if let Some((_, why)) = let_go(serving, Moment(31_000)) {
            println!(rt;
                "{name}: up {} message {} lost {}: {why}",
                counts.ups, counts.messages, counts.lost
            )?;
        }
    }
    Ok(())
}

/// Serves a connection on which these messages come, and prints what the node was told and why it has ended.
fn print(
    rt: &impl Print,
    alloc: Global,
    name: &str,
    texts: &[&str],
    reads: Ways,
    writes: Ways,
) -> anyhow::Result<()> {
    let asked = octets(alloc, texts)?;
    let mut serving = silent(alloc)?;
    serve(alloc, &mut serving, &asked, reads, writes);
    print_ends(rt, name, &mut serving)
}

/// A connection for each way to end.
pub fn print_all(rt: &impl Print, alloc: Global) -> anyhow::Result<()> {
    let (sound, ends) = (Ways::sound(), Ways::ending());
    let reset = Ways::failing_from(1, ErrorKind::ConnectionReset);
    let refused = Ways::failing_from(0, ErrorKind::ConnectionReset);
    print(rt, alloc, "read", &[CER], reset, sound)?;
    print(rt, alloc, "write", &[CER], sound, refused)?;
    print(rt, alloc, "end", &[CER], ends, sound)?;
    print(rt, alloc, "frame", &[CER, "02"], ends, sound)?;
    print(rt, alloc, "disconnect", &[CER, DPR], ends, sound)?;
    print(rt, alloc, "no capabilities", &[DWR], ends, sound)?;
    print(rt, alloc, "nothing", &[], sound, sound)
}
