//! Connections whose streams fail at a call or behind an octet.

use crate::connections::{Exchange, Outcome, PIECE, serve};
use crate::messages::{ANSWER, CEA, REQUEST};
use samples_given::{CER, Ways, octets};
use std::alloc::Global;
use std::io::ErrorKind;

/// What several connections came to.
#[derive(Clone, Copy)]
struct Sum {
    connections: u32,
    ups: u32,
    messages: u32,
    lost: u32,
    /// Those of which more was told than one loss of a node that was up.
    twice: u32,
    /// What they have written, where that is a beginning of what is to be written.
    octets: usize,
    ended: u32,
}

impl Sum {
    fn none() -> Sum {
        Sum {
            connections: 0,
            ups: 0,
            messages: 0,
            lost: 0,
            twice: 0,
            octets: 0,
            ended: 0,
        }
    }

    /// One connection more.
    fn add(&mut self, outcome: Outcome) {
        let counts = outcome.counts;
        self.connections = self.connections.saturating_add(1);
        self.ups = self.ups.saturating_add(counts.ups);
        self.messages = self.messages.saturating_add(counts.messages);
        self.lost = self.lost.saturating_add(counts.lost);
        if counts.lost > counts.ups || counts.ups > 1 {
            self.twice = self.twice.saturating_add(1);
        }
        if outcome.why.is_some() {
            self.ended = self.ended.saturating_add(1);
        }
        if outcome.begins {
            self.octets = self.octets.saturating_add(outcome.written);
        }
    }
}

/// Which stream of a connection fails: at one call as this, or behind one octet.
#[derive(Clone, Copy)]
enum Failing {
    Read(ErrorKind),
    Write(ErrorKind),
    ReadBehind,
    WriteBehind,
}

/// The exchange with a failure at this call, or behind so many octets.
fn failing_at<'a>(exchange: &Exchange<'a>, failing: Failing, place: u32) -> Exchange<'a> {
    let cut = Ways::cut_behind(place as usize, ErrorKind::ConnectionReset);
    let mut failed = *exchange;
    match failing {
        Failing::Read(kind) => failed.reads = Ways::failing_at(place, kind),
        Failing::Write(kind) => failed.writes = Ways::failing_at(place, kind),
        Failing::ReadBehind => failed.reads = cut,
        Failing::WriteBehind => failed.writes = cut,
    }
    failed
}

/// So many connections, each of which fails one call or one octet later.
fn sum_of(
    alloc: Global,
    exchange: &Exchange<'_>,
    failing: Failing,
    places: u32,
) -> anyhow::Result<Sum> {
    let mut sum = Sum::none();
    for place in 0..places {
        sum.add(serve(alloc, &failing_at(exchange, failing, place))?);
    }
    Ok(sum)
}

/// Each call from the first on to the last that there is, and one behind that; and each octet.
const CASES: [(&str, Failing, u32); 6] = [
    (
        "a read fails",
        Failing::Read(ErrorKind::ConnectionReset),
        58,
    ),
    (
        "a read would block",
        Failing::Read(ErrorKind::WouldBlock),
        58,
    ),
    ("a write fails", Failing::Write(ErrorKind::BrokenPipe), 47),
    (
        "a write would block",
        Failing::Write(ErrorKind::WouldBlock),
        47,
    ),
    ("a read is cut", Failing::ReadBehind, 397),
    ("a write is cut", Failing::WriteBehind, 321),
];

fn exchange_of<'a>(asked: &'a [u8], answers: &'a [u8]) -> Exchange<'a> {
    Exchange {
        asked,
        answers,
        reads: Ways::sound(),
        writes: Ways::sound(),
        piece: PIECE,
        turns: 2,
    }
}

fn print_cases(rt: &impl Print, alloc: Global, exchange: &Exchange<'_>) -> anyhow::Result<()> {
    for (name, failing, places) in CASES {
        let sum = sum_of(alloc, exchange, failing, places)?;
        println!(rt;
            "{name}: {} connections, {} ended, {} up, {} messages, {} lost, {} twice, {} octets written",
            sum.connections, sum.ended, sum.ups, sum.messages, sum.lost, sum.twice, sum.octets
        )?;
    }
    Ok(())
}

/// Capabilities and a debit of 128 and 268 octets, read seven at a time, and their answers of 140 and 180 octets, written so.
pub fn print_all(rt: &impl Print, alloc: Global) -> anyhow::Result<()> {
    let asked = octets(alloc, &[CER, REQUEST])?;
    let answers = octets(alloc, &[CEA, ANSWER])?;
    print_cases(rt, alloc, &exchange_of(&asked, &answers))
}

/// Each octet of a message: behind 0 to 128 of the 128 of a request, and behind 0 to 139 of the 140 of its answer.
const CUTS: [(&str, Failing, u32); 2] = [
    ("128 octets of a request", Failing::ReadBehind, 129),
    ("139 octets of an answer", Failing::WriteBehind, 140),
];

fn print_each_cut(rt: &impl Print, alloc: Global, exchange: &Exchange<'_>) -> anyhow::Result<()> {
    for (name, failing, places) in CUTS {
        let sum = sum_of(alloc, exchange, failing, places)?;
        println!(rt;
            "cut behind 0 to {name}: {} up, {} lost, {} octets written",
            sum.ups, sum.lost, sum.octets
        )?;
    }
    Ok(())
}

/// Capabilities alone, cut while they are read, or while their answer is written.
pub fn print_cuts(rt: &impl Print, alloc: Global) -> anyhow::Result<()> {
    let asked = octets(alloc, &[CER])?;
    let answers = octets(alloc, &[CEA])?;
    print_each_cut(rt, alloc, &exchange_of(&asked, &answers))
}
