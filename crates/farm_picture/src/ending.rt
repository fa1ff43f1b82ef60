//! What stands below the picture: what the run came to, what is left out, and what the marks mean.

use crate::accounts::Purse;
use crate::notes::account_name;
use crate::svg::{Anchor, Class, Point, Svg};
use crate::timeline::{Event, LeftOut, Row, Timeline};
use cc_book::Account;
use std::alloc::{AllocError, Global};

/// The most accounts that have a line.
const ACCOUNT_LIMIT: usize = 12;

/// From one line to the next.
const LINE: usize = 16;

/// The left edge.
const LEFT: usize = 14;

/// What the marks mean.
const LEGEND: [&str; 5] = [
    "CCR, CCA: Credit-Control-Request and -Answer, with CC-Request-Type,",
    "Hop-by-Hop Identifier, T (may have been sent before), and Result-Code;",
    "o--o: connection made; thick bar: connection ended; cross: message lost;",
    "dashed: still on its way; held: reserved for open sessions;",
    "skipped: the step does not apply.",
];

/// The same, in a run whose nodes learn of a connection apart.
const LEGEND_APART: &str =
    "dashes with a circle: one node alone learns of a connection, or of its end.";

/// The lines, in their order.
#[derive(Drop)]
pub struct Ending {
    lines: Vec<(Class, String)>,
}

impl Ending {
    fn push(&mut self, class: Class, words: String) -> Result<(), AllocError> {
        self.lines.push((class, words))?;
        Ok(())
    }

    /// What the lines take in height.
    pub fn height(&self) -> usize {
        self.lines.len().saturating_add(1).saturating_mul(LINE)
    }

    /// The lengths of the lines, the longest of them.
    pub fn longest(&self) -> usize {
        self.lines
            .iter()
            .map(|(_, words)| words.len())
            .max()
            .unwrap_or(0)
    }

    /// Writes the lines below this height.
    pub fn draw(&self, svg: &mut Svg, top: usize) -> Result<(), AllocError> {
        let mut y = top;
        for (class, words) in &self.lines {
            y = y.saturating_add(LINE);
            svg.words(*class, Anchor::Start, Point::new(LEFT, y), words.as_bytes())?;
        }
        Ok(())
    }
}

/// What stands below a run of which so many messages that are still on their way have no line.
pub fn ending_of(
    alloc: Global,
    timeline: &Timeline,
    in_flight: usize,
) -> Result<Ending, AllocError> {
    let mut ending = Ending {
        lines: Vec::new(alloc),
    };
    push_left_out(alloc, &mut ending, timeline.left_out, in_flight)?;
    let entries = timeline.end.entries;
    let open = timeline.open_sessions;
    ending.push(
        Class::Name,
        format!(in alloc; "Book at the end: entries {entries}, open sessions {open}")?,
    )?;
    push_accounts(alloc, &mut ending, &timeline.accounts, &timeline.end.purses)?;
    ending.push(Class::Note, String::new(alloc))?;
    for line in LEGEND {
        ending.push(Class::Note, String::from_str(alloc, line)?)?;
    }
    if timeline.rows.iter().any(learns_apart) {
        ending.push(Class::Note, String::from_str(alloc, LEGEND_APART)?)?;
    }
    Ok(ending)
}

/// Whether one node alone has learned that a connection is made, or has ended.
fn learns_apart(row: &Row) -> bool {
    matches!(row.event, Event::Learned { .. }) || !row.ended.ends.is_empty()
}

fn push_left_out(
    alloc: Global,
    ending: &mut Ending,
    left_out: LeftOut,
    in_flight: usize,
) -> Result<(), AllocError> {
    if in_flight > 0 {
        ending.push(
            Class::Note,
            format!(in alloc; "Not drawn: messages still on their way: {in_flight}")?,
        )?;
    }
    let (before, behind, next) = (left_out.before, left_out.behind, left_out.next);
    if before > 0 {
        ending.push(
            Class::Cut,
            format!(in alloc; "Left out: {before} steps before these")?,
        )?;
    }
    if behind > 0 {
        ending.push(
            Class::Cut,
            format!(in alloc;
                "Left out: {behind} further steps (--from {next}); the book is that after all of them"
            )?,
        )?;
    }
    Ok(())
}

/// Adds a line for each account that has changed, and one for those that have none.
fn push_accounts(
    alloc: Global,
    ending: &mut Ending,
    accounts: &[Account],
    purses: &[Purse],
) -> Result<(), AllocError> {
    let mut changed = 0usize;
    for (place, (account, purse)) in accounts.iter().zip(purses.iter()).enumerate() {
        let opening = i128::from(account.opening);
        if purse.balance != opening || purse.held != 0 {
            changed = changed.saturating_add(1);
            if changed <= ACCOUNT_LIMIT {
                let mut words = account_name(alloc, accounts, place)?;
                push_purse(&mut words, opening, *purse)?;
                ending.push(Class::Money, words)?;
            }
        }
    }
    let more = changed.saturating_sub(ACCOUNT_LIMIT);
    if more > 0 {
        ending.push(
            Class::Money,
            format!(in alloc; "other changed accounts: {more}")?,
        )?;
    }
    let others = purses.len().saturating_sub(changed);
    ending.push(
        Class::Note,
        format!(in alloc; "unchanged accounts: {others}")?,
    )
}

/// Adds what an account had at the start, what it has now, and what sessions hold of it.
fn push_purse(words: &mut String, opening: i128, purse: Purse) -> Result<(), AllocError> {
    let balance = purse.balance;
    let held = purse.held;
    write!(words, ": {opening}")?;
    if balance != opening {
        write!(words, " -> {balance}")?;
    }
    if held != 0 {
        write!(words, ", held {held}")?;
    }
    Ok(())
}
