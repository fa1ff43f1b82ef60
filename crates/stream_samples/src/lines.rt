//! Streams of a client, one on a line of standard input in hexadecimal, each on a connection of its own: what is written
//! back, and why the connection has ended.

use crate::farm::{Farm, locals};
use crate::sites::RELAY;
use dia_avp::ViewWire;
use dia_base::{ConnId, Moment};
use farm_connections::{Ended, Serving};
use hex::FromHexError;
use samples_given::{MOMENT, Reader, Served, Ways, Writer, accept};
use std::alloc::{AllocError, Global};

/// When what has ended is let go, though something waits on it.
const LATER: Moment = Moment(61_000);

/// Serves a connection on which so many octets come, `piece` at a time, until all is read or it ends.
fn serve(serving: &mut Served<'_, Farm>, conn: ConnId, octets: usize, piece: &mut [u8]) {
    for _ in 0..octets.saturating_add(2) {
        if !piece.is_empty() {
            serving.readable::<ViewWire>(conn, piece, usize::MAX, MOMENT);
        }
        serving.write_all::<ViewWire>(MOMENT);
        if serving.link(conn).is_none_or(|link| link.end.is_some()) {
            break;
        }
    }
}

/// Prints how often a node was up and lost on a connection, what is written, and why it has ended.
fn print_end(
    rt: &impl Print,
    alloc: Global,
    ups: u64,
    lost: u64,
    ended: &Ended<Reader<'_>, Writer>,
) -> anyhow::Result<()> {
    let written = ended.streams.writer().device().inner.as_slice();
    println!(rt;
        "{ups} {lost} {} {}",
        hex::encode(alloc, written)?,
        ended.why
    )?;
    Ok(())
}

/// Serves a connection on which this comes, and prints what has come of it.
fn print<'a>(
    rt: &impl Print,
    alloc: Global,
    serving: &mut Served<'a, Farm>,
    octets: &'a [u8],
    piece: &mut [u8],
) -> anyhow::Result<()> {
    let (ups, lost) = (serving.node().ups, serving.node().lost);
    let (reads, writes) = (Ways::ending(), Ways::sound());
    let Ok(conn) = accept(alloc, serving, RELAY, octets, reads, writes) else {
        println!(rt; "not taken")?;
        return Ok(());
    };
    serve(serving, conn, octets.len(), piece);
    let ups = serving.node().ups.saturating_sub(ups);
    let lost = serving.node().lost.saturating_sub(lost);
    match serving.take_ended(LATER) {
        Some(ended) => print_end(rt, alloc, ups, lost, &ended),
        None => Ok(()),
    }
}

/// Puts the octets of a line behind other streams. A line that is empty or no hexadecimal is none.
fn push_line(alloc: Global, line: &[u8], streams: &mut Vec<Vec<u8>>) -> anyhow::Result<()> {
    if line.is_empty() {
        return Ok(());
    }
    match hex::decode(alloc, line) {
        Ok(octets) => Ok(streams.push(octets)?),
        Err(FromHexError::OutOfMemory) => Err(AllocError.into()),
        Err(_) => Ok(()),
    }
}

/// The streams of a text, one on a line.
fn streams_of(alloc: Global, text: &[u8]) -> anyhow::Result<Vec<Vec<u8>>> {
    let mut streams = Vec::new(alloc);
    for line in text.split(|octet| *octet == b'\n') {
        push_line(alloc, line, &mut streams)?;
    }
    Ok(streams)
}

/// The farm, without connections.
fn serving<'a>(alloc: Global) -> anyhow::Result<Served<'a, Farm>> {
    let locals = locals(alloc)?;
    Ok(Serving::new(alloc, Farm::new(alloc, MOMENT)?, locals))
}

/// Serves streams one after the other, and prints how many entries the book has then.
fn print_streams<'a>(
    rt: &impl Print,
    alloc: Global,
    serving: &mut Served<'a, Farm>,
    streams: &'a [Vec<u8>],
    piece: &mut [u8],
) -> anyhow::Result<()> {
    for octets in streams {
        print(rt, alloc, serving, octets.as_slice(), piece)?;
    }
    let book = serving.node().book();
    println!(rt;
        "{} streams, {} entries, balance {}",
        streams.len(),
        book.history().len(),
        book.balance(0).unwrap_or(0)
    )?;
    Ok(())
}

/// Serves the streams of standard input.
pub fn print_all(rt: &impl Print, alloc: Global, text: &[u8], piece: usize) -> anyhow::Result<()> {
    let streams = streams_of(alloc, text)?;
    let mut piece = Vec::from_elem(alloc, 0u8, piece)?;
    let mut serving = serving(alloc)?;
    print_streams(rt, alloc, &mut serving, &streams, piece.as_mut_slice())
}
