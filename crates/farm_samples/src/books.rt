//! The book by maps and the book by lists take one list of requests and sweeps, made at random, and are compared after
//! each of them: what they answer, whether it is a repeat, and at which place; what they would have answered; and the
//! balance and the reservations of each account, the open sessions and the entries that they have then.
//!
//! It prints how many requests of each kind there were, how many of them were repeats, how many sweeps, and how often
//! the books differed. The second list is that of books that are soon full.
//!
//! What it must print is what examples/models/dice.py says, which makes the same lists.

mod both;
mod dice;
mod requests;
mod site;

use both::Both;
use cc_view::RequestKind;
use dia_base::Moment;
use dice::Dice;
use requests::request;
use std::alloc::Global;

/// How many requests and sweeps a list has.
const STEPS: u64 = 2_000;

/// What a list had.
#[derive(Clone, Copy)]
struct Tally {
    initials: u64,
    updates: u64,
    terminations: u64,
    events: u64,
    repeats: u64,
    sweeps: u64,
    differences: u64,
}

impl Tally {
    fn none() -> Tally {
        Tally {
            initials: 0,
            updates: 0,
            terminations: 0,
            events: 0,
            repeats: 0,
            sweeps: 0,
            differences: 0,
        }
    }

    fn count(&mut self, kind: RequestKind) {
        let counter = match kind {
            RequestKind::Initial => &mut self.initials,
            RequestKind::Update => &mut self.updates,
            RequestKind::Termination => &mut self.terminations,
            RequestKind::Event => &mut self.events,
        };
        *counter = counter.saturating_add(1);
    }
}

/// One request or sweep at random.
fn step(
    alloc: Global,
    dice: &mut Dice,
    both: &mut Both,
    tally: &mut Tally,
    now: Moment,
) -> anyhow::Result<()> {
    if dice.roll(12) == 0 {
        both.sweep(now);
        tally.sweeps = tally.sweeps.saturating_add(1);
        return Ok(());
    }
    let request = request(alloc, dice)?;
    tally.count(request.kind);
    if both.take(alloc, now, &request) {
        tally.repeats = tally.repeats.saturating_add(1);
    }
    Ok(())
}

/// Both books take a list that is made from this seed.
fn take_list(alloc: Global, seed: u64, both: &mut Both) -> anyhow::Result<Tally> {
    let mut dice = Dice::new(seed);
    let mut tally = Tally::none();
    let mut now: u64 = 0;
    for _ in 0..STEPS {
        now = now.saturating_add(dice.roll(6_000));
        step(alloc, &mut dice, both, &mut tally, Moment(now))?;
    }
    tally.differences = both.differences;
    Ok(tally)
}

/// Both books of a limit take a list that is made from this seed.
fn run(alloc: Global, seed: u64, limit: u16) -> anyhow::Result<Tally> {
    let mut both = Both::new(alloc, limit)?;
    take_list(alloc, seed, &mut both)
}

/// Prints what the two lists had.
pub fn print_all(rt: &impl Print, alloc: Global) -> anyhow::Result<()> {
    let ample = run(alloc, 1, 4_000)?;
    println!(rt; "INITIAL {} UPDATE {}", ample.initials, ample.updates)?;
    println!(rt; "TERMINATION {} EVENT {}", ample.terminations, ample.events)?;
    println!(rt; "repeats {} sweeps {}", ample.repeats, ample.sweeps)?;
    println!(rt; "{} differences", ample.differences)?;
    let full = run(alloc, 2, 400)?;
    println!(rt; "full books: {} differences", full.differences)?;
    Ok(())
}
