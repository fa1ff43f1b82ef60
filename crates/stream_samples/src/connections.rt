//! A connection of a node that counts what it is told, over streams in memory.

ghost use Rattle.std.specs.Prelude.{◌<◌, length};

use crate::counting::{Counting, Counts, Refused};
use crate::messages::ANSWER;
use crate::sites::{FRONT, fronts};
use dia_avp::ViewWire;
use dia_base::{ConnId, Moment};
use farm_connections::{End, Serving};
use samples_given::{MOMENT, Served, Ways, accept, end_of, message, unsent, written};
use std::alloc::Global;

/// The octets of a read.
pub const PIECE: usize = 4_096;

/// What comes on a connection, and how it is served.
#[derive(Clone, Copy)]
pub struct Exchange<'a> {
    pub asked: &'a [u8],
    /// What is to be written.
    pub answers: &'a [u8],
    pub reads: Ways,
    pub writes: Ways,
    /// How many octets are read at a time.
    pub piece: usize,
    /// How often is read, up to 64 times, and then written.
    pub turns: usize,
}

/// What came of a connection.
#[derive(Clone, Copy)]
pub struct Outcome {
    pub counts: Counts,
    /// How many octets were written, and whether they are a beginning of what is to be written.
    pub written: usize,
    pub begins: bool,
    /// How many octets waited in the end.
    pub unsent: usize,
    /// Why it has ended, if it has.
    pub why: Option<End>,
}

/// The front f2.example, without connections.
pub fn serving<'a>(alloc: Global, node: Counting) -> anyhow::Result<Served<'a, Counting>> {
    let locals = fronts(alloc, &[(FRONT, "f2.example")])?;
    Ok(Serving::new(alloc, node, locals))
}

/// The same of a node that counts, and does nothing else.
pub fn silent<'a>(alloc: Global) -> anyhow::Result<Served<'a, Counting>> {
    serving(alloc, Counting::new(None, Refused::Nothing))
}

/// What came of this connection.
fn outcome_of(serving: &Served<'_, Counting>, conn: ConnId, answers: &[u8]) -> Outcome {
    let written = written(serving, conn);
    Outcome {
        counts: serving.node().counts,
        written: written.len(),
        begins: answers.starts_with(written),
        unsent: unsent(serving, conn),
        why: end_of(serving, conn),
    }
}

/// Serves a connection of the node.
pub fn serve_on<'a>(
    alloc: Global,
    serving: &mut Served<'a, Counting>,
    exchange: &Exchange<'a>,
    piece: &mut [u8],
) -> ConnId
    requires { 0 < length piece.old }
{
    let (reads, writes) = (exchange.reads, exchange.writes);
    let Ok(conn) = accept(alloc, serving, FRONT, exchange.asked, reads, writes) else {
        return ConnId(0);
    };
    for _ in 0..exchange.turns {
        serving.readable::<ViewWire>(conn, piece, usize::MAX, MOMENT);
        serving.write_all::<ViewWire>(MOMENT);
    }
    conn
}

/// Serves a connection of a node that answers each request with one answer.
pub fn serve(alloc: Global, exchange: &Exchange<'_>) -> anyhow::Result<Outcome> {
    let mut piece = Vec::from_elem(alloc, 0u8, exchange.piece.max(1))?;
    let answer = message(alloc, ANSWER)?;
    let mut serving = serving(alloc, Counting::new(Some(answer), Refused::Nothing))?;
    let conn = serve_on(alloc, &mut serving, exchange, piece.as_mut_slice());
    Ok(outcome_of(&serving, conn, exchange.answers))
}

/// Lets a connection go with which there is nothing more to do. Which one, and why it has ended.
pub fn let_go(serving: &mut Served<'_, Counting>, moment: Moment) -> Option<(ConnId, End)> {
    let ended = serving.take_ended(moment)?;
    Some((ended.conn, ended.why))
}
