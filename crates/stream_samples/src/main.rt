//! Connections over streams in memory, one function for each subject: streams that fail at each call in turn, are cut behind
//! each octet or read in pieces of any length, a writer that takes nothing, each way to end, nodes that refuse what they are
//! told. And whole streams of a client, read from standard input, through the frames, the life of a connection, a relay and a
//! front.
//!
//! - `counting`: a node that counts what it is told. `connections`: its connections. `sites`: what these know of it.
//!   `messages`: what the other ends write.
//! - `failing`, `miser`, `pieces`, `losses`: what becomes of a connection.
//! - `refusing`: a node that does not do what it is told. `waiting`: how many may be unknown, and how long an ended connection
//!   may write. `elsewhere`: a node that may not come from where it is.
//! - `debit`: the first debit through a front, and through two in one process.
//! - `lists`: lists of AVPs that end too early, and groups that are too deep. `long`: a long stream in pieces. `texts`: those of
//!   faults.
//! - `lives`: the life of a connection from both of its ends.
//! - `matching`: a relay whose server answers under identifiers that it chooses.
//! - `farm`: a relay and a front as one node. `lines`: a client's streams through both.
//!
//! With a number behind its name it reads so many octets at a time of each line, and prints nothing else: `bench/fuzz.py` runs
//! it so. What it must print without one, `stdout`, was worked out by hand, in this order.
#![tactic(auto)]

mod connections;
mod counting;
mod debit;
mod elsewhere;
mod failing;
mod farm;
mod lines;
mod lists;
mod lives;
mod long;
mod losses;
mod matching;
mod messages;
mod miser;
mod pieces;
mod refusing;
mod sites;
mod texts;
mod waiting;

use connections::PIECE;
use farm_text::read_text;
use std::env;

/// The number behind the program's name.
fn piece_of(rt: &HostRuntime) -> anyhow::Result<Option<usize>> {
    for word in env::args(rt)?.skip(1) {
        return Ok(word.parse::<usize>().ok());
    }
    Ok(None)
}

/// What needs no input.
fn print_samples(rt: &HostRuntime) -> anyhow::Result<()> {
    let alloc = rt.alloc();
    failing::print_all(rt, alloc)?;
    miser::print_all(rt, alloc)?;
    pieces::print_all(rt, alloc)?;
    lists::print_all(rt, alloc)?;
    long::print_all(rt, alloc)?;
    texts::print_all(rt)?;
    lives::print_all(rt, alloc)?;
    losses::print_all(rt, alloc)?;
    failing::print_cuts(rt, alloc)?;
    debit::print_all(rt, alloc)?;
    refusing::print_all(rt, alloc)?;
    waiting::print_all(rt, alloc)?;
    elsewhere::print_all(rt, alloc)?;
    matching::print_all(rt, alloc)
}

fn main(rt: HostRuntime) -> anyhow::Result<()> {
    let piece = piece_of(&rt)?;
    if piece.is_none() {
        print_samples(&rt)?;
    }
    let text = read_text(rt.alloc(), &mut rt.reader())?;
    lines::print_all(&rt, rt.alloc(), &text, piece.unwrap_or(PIECE))
}
