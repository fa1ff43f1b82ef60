//! Lines of the log in both spellings, and how many of them a limiter lets through.

use farm_log::{Format, Limiter, Line};
use log::kv::With;
use log::{Level, Metadata, Record};
use std::alloc::Global;

/// 09:07:01.123 on 28 November 2026, in milliseconds since 1970.
const MOMENT: u64 = 1_795_856_821_123;

/// Prints a record in both spellings, as lines of the process f1.example,f2.example.
macro_rules! print_both {
    ($rt:expr, $record:expr) => {
        for format in [Format::Text, Format::Logfmt] {
            let line = Line {
                format,
                millis: MOMENT,
                node: "f1.example,f2.example",
                record: &$record,
            };
            println!($rt; "{line}")?;
        }
    };
}

/// A pair behind others.
fn pair<'a, S>(before: S, key: &'a str, value: &'a str) -> With<'a, S, &'a str> {
    With { before, key, value }
}

/// Prints a fact of a node, with its pairs.
fn print_fact(rt: &impl Print) -> anyhow::Result<()> {
    let node = pair(pair((), "node", "f1.example"), "event", "lost");
    let pairs = pair(
        pair(node, "peer", "r1.example"),
        "why",
        "Connection reset by peer",
    );
    let record = Record::new(
        Metadata::new(Level::Warn, "farm"),
        "f1.example, connection 3: r1.example is lost: Connection reset by peer",
        pairs,
        (),
    );
    print_both!(rt, record);
    Ok(())
}

/// Prints a text without pairs.
fn print_text(rt: &impl Print) -> anyhow::Result<()> {
    let metadata = Metadata::new(Level::Info, "farm");
    let record = Record::new(metadata, "the book is \"full\"", (), ());
    print_both!(rt, record);
    Ok(())
}

/// Prints values that cannot stand bare.
fn print_values(rt: &impl Print) -> anyhow::Result<()> {
    let pairs = pair(
        pair(pair((), "event", "a=b"), "none", ""),
        "odd",
        "\\\n\u{e9}",
    );
    let record = Record::new(Metadata::new(Level::Error, "farm"), "values", pairs, ());
    print_both!(rt, record);
    Ok(())
}

/// How many of so many lines of the second kind from the third peer are written in this second.
fn written(limiter: &mut Limiter, lines: u32, second: u64) -> u32 {
    let mut written: u32 = 0;
    for _ in 0..lines {
        if limiter.line(1, 2, second) {
            written = written.saturating_add(1);
        }
    }
    written
}

/// Prints how many lines are held back that are to be told now.
fn print_held(rt: &impl Print, limiter: &mut Limiter, second: u64) -> anyhow::Result<()> {
    match limiter.take_held(second) {
        Some(held) => {
            let (kind, peer, lines) = (held.kind, held.peer, held.lines);
            println!(rt;
                "in second {second}: {lines} of kind {kind} from peer {peer} were held back"
            )?;
        }
        None => println!(rt; "in second {second}: none to tell")?,
    }
    Ok(())
}

/// Prints what a limiter of two kinds and three peers lets through.
fn print_limits(rt: &impl Print, alloc: Global) -> anyhow::Result<()> {
    let mut limiter = Limiter::new(alloc, 2, 3)?;
    let count = written(&mut limiter, 13, 7);
    println!(rt; "in second 7: {count} of 13")?;
    let other = limiter.line(0, 2, 7);
    println!(rt; "one of another kind: {other}")?;
    print_held(rt, &mut limiter, 7)?;
    let count = written(&mut limiter, 1, 8);
    println!(rt; "in second 8: {count} of 1")?;
    print_held(rt, &mut limiter, 8)?;
    print_held(rt, &mut limiter, 8)?;
    let count = written(&mut limiter, 12, 8);
    println!(rt; "in second 8: {count} of 12")?;
    Ok(())
}

/// Prints all of it.
pub fn print_all(rt: &impl Print, alloc: Global) -> anyhow::Result<()> {
    print_fact(rt)?;
    print_text(rt)?;
    print_values(rt)?;
    print_limits(rt, alloc)
}
