//! The node, what its workers wake, and how events are told.

use crate::fronts::site::CLIENT;
use crate::nowhere::Nowhere;
use crate::told::print_book;
use anyhow::Context;
use cc_shared::ClosedBook;
use dia_avp::ViewWire;
use dia_base::{ConnId, Identity, Moment, NodeNo};
use dia_message::Message;
use farm_clock::Timer;
use farm_node::{Node, Reaction};
use farm_record::{Recorded, Recorder};
use front_pool::{Pooling, Wake};
use pool_node::PoolFronts;
use std::alloc::Global;
use std::rt::Clock;
use std::sync::atomic::{AtomicU64, Ordering};
use std::sync::{Arc, Wait};
use std::thread;
use std::thread::Threads;
use std::time::Duration;

/// How often it is looked whether the node was waked, and how many microseconds after the last time.
const LOOKS: u32 = 100_000;

const PAUSE: u64 = 100;

/// Counts how often workers wake, and their sweeper.
#[derive(Drop)]
pub struct Rings(pub Arc<AtomicU64>);

impl Wake for Rings {
    fn wake(&self) {
        self.0.fetch_add(1, Ordering::SeqCst);
    }
}

/// The fronts, how often their workers and the sweeper have waked, and by what they charge.
#[derive(Drop)]
pub struct Running<'a, L: Pooling, R> {
    pub fronts: PoolFronts<L, Nowhere, R>,
    pub rings: &'a AtomicU64,
    pub timer: Timer,
    pub recorder: Recorder,
}

/// Prints whether the node did what it was told, and what it sends.
fn print_reaction(
    rt: &impl Print,
    alloc: Global,
    name: &str,
    reaction: &Reaction,
) -> anyhow::Result<()> {
    let sent = reaction.out.items.as_slice();
    match reaction.outcome {
        Ok(()) => println!(rt; "{name}: {} sent", sent.len())?,
        Err(error) => println!(rt; "{name}: {error}, {} sent", sent.len())?,
    }
    for (conn, answer) in sent {
        let avps = hex::encode(alloc, answer.body.as_slice())?;
        println!(rt; "on {}: {avps}", conn.0)?;
    }
    Ok(())
}

impl<L: Pooling, R: Threads + Wait + Clock + Print + Copy> Running<'_, L, R> {
    /// A client comes up at this node.
    pub fn come_up(
        &mut self,
        rt: &R,
        alloc: Global,
        local: NodeNo,
        conn: u64,
    ) -> anyhow::Result<()> {
        let reaction = self.fronts.on_up(alloc, local, CLIENT, ConnId(conn));
        print_reaction(rt, alloc, "up", &reaction)
    }

    /// A message comes.
    pub fn hear(
        &mut self,
        rt: &R,
        alloc: Global,
        conn: u64,
        message: Message,
    ) -> anyhow::Result<()> {
        let reaction = self
            .fronts
            .on_message::<ViewWire>(alloc, ConnId(conn), message);
        print_reaction(rt, alloc, "message", &reaction)
    }

    /// A connection ends.
    pub fn lose(&mut self, rt: &R, alloc: Global, conn: u64) -> anyhow::Result<()> {
        let reaction = self.fronts.on_lost::<ViewWire>(alloc, ConnId(conn));
        print_reaction(rt, alloc, "lost", &reaction)
    }

    /// Time has passed.
    pub fn tick(&mut self, rt: &R, alloc: Global, moment: u64) -> anyhow::Result<()> {
        let reaction = self.fronts.on_tick::<ViewWire>(alloc, Moment(moment));
        print_reaction(rt, alloc, "tick", &reaction)
    }

    /// The node is woken, once it was waked so often.
    pub fn wake(&mut self, rt: &R, alloc: Global, rings: u64) -> anyhow::Result<()> {
        self.wait(rt, rings)?;
        let reaction = self.fronts.on_wake::<ViewWire>(alloc);
        print_reaction(rt, alloc, "wake", &reaction)
    }

    /// Waits until workers and the sweeper have waked so often, or for ten seconds. Prints where they have not.
    pub fn wait(&self, rt: &R, rings: u64) -> anyhow::Result<()> {
        for _ in 0..LOOKS {
            if self.rings.load(Ordering::SeqCst) >= rings {
                return Ok(());
            }
            thread::sleep(rt, Duration::from_micros(PAUSE));
        }
        println!(rt; "nobody wakes")?;
        Ok(())
    }

    /// Prints what the book has come to.
    pub fn print_figures(&self, rt: &R) -> anyhow::Result<()> {
        let figures = self.fronts.figures();
        println!(rt;
            "entries {} charges {} opened {} ended {}",
            figures.entries, figures.served.charges, figures.opened, figures.ended
        )?;
        Ok(())
    }

    /// From now on the node is recorded, with nodes of these names.
    pub fn begin_record(&mut self, alloc: Global, names: Vec<Identity>) {
        self.recorder = Recorder::on(alloc, names, false);
        self.fronts.begin_record();
    }

    /// What it has done is told.
    pub fn tell(&mut self, alloc: Global) {
        self.fronts.tell_events(alloc, &mut self.recorder);
    }

    /// Ends all workers. Prints what is recorded then, and what the book has come to.
    pub fn end(self, rt: &R, alloc: Global) -> anyhow::Result<()> {
        let mut recorder = self.recorder;
        let closed = self.fronts.end(rt, alloc, &mut recorder);
        print_end(rt, recorder.lines(), closed.as_ref())
    }
}

/// Prints what is recorded, and what the book has come to.
fn print_end(rt: &impl Print, lines: &[u8], closed: Option<&ClosedBook>) -> anyhow::Result<()> {
    print_record(rt, lines)?;
    let closed = closed.context("no book")?;
    print_book(rt, "", &closed.book)
}

/// Prints the short words of each line: no moments, and no messages.
fn print_record(rt: &impl Print, lines: &[u8]) -> anyhow::Result<()> {
    for line in lines.split(|octet| *octet == b'\n') {
        if line.is_empty() {
            continue;
        }
        print!(rt; "recorded:")?;
        for word in line.split(|octet| *octet == b' ') {
            if word.len() <= 12 {
                print!(rt; " {}", std::str::from_utf8(word).unwrap_or("?"))?;
            }
        }
        println!(rt; "")?;
    }
    Ok(())
}
