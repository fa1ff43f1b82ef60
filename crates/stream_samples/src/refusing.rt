//! A node that does not do what it is told, for want of memory: once with a message, once with an answer that it owes, once
//! with the end of a connection.

use crate::connections::serving;
use crate::counting::{Counting, Refused};
use crate::sites::FRONT;
use dia_avp::ViewWire;
use samples_given::{CER, DEBIT, MOMENT, Served, Ways, accept, end_of, octets, read};
use std::alloc::Global;
use std::io::ErrorKind;

/// Has the node told of a connection, of a request on it and of the time, and of its end where it ends by itself. Prints why it
/// has ended, if it has, and whether the node can go on.
fn tell<'a>(
    rt: &impl Print,
    alloc: Global,
    name: &str,
    serving: &mut Served<'a, Counting>,
    asked: &'a [u8],
    then: ErrorKind,
) -> anyhow::Result<()> {
    let reads = Ways::failing_from(1, then);
    let conn = accept(alloc, serving, FRONT, asked, reads, Ways::sound())?;
    read(serving, conn);
    serving.tick::<ViewWire>(MOMENT);
    let failed = serving.has_failed();
    match end_of(serving, conn) {
        Some(why) => println!(rt; "refuses {name}: {why}, failed {failed}")?,
        None => println!(rt; "refuses {name}: it stands, failed {failed}")?,
    }
    Ok(())
}

fn print(
    rt: &impl Print,
    alloc: Global,
    name: &str,
    refused: Refused,
    then: ErrorKind,
) -> anyhow::Result<()> {
    let asked = octets(alloc, &[CER, DEBIT])?;
    let mut serving = serving(alloc, Counting::new(None, refused))?;
    tell(rt, alloc, name, &mut serving, &asked, then)
}

/// What becomes of a connection and of the process where the node does not do what it is told.
pub fn print_all(rt: &impl Print, alloc: Global) -> anyhow::Result<()> {
    let (reset, later) = (ErrorKind::ConnectionReset, ErrorKind::WouldBlock);
    print(rt, alloc, "a message", Refused::Message, later)?;
    print(rt, alloc, "an answer", Refused::Answer, later)?;
    print(rt, alloc, "an end", Refused::End, reset)
}
