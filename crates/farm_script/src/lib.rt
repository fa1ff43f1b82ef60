//! Schedules: a text, one step on a line.
//!
//! ```text
//! up A B                 a connection between two nodes comes up, and both know it
//! accept B A             B accepts a connection that A opens, and knows it; A does not yet
//! opened A B             A learns that the connection that it opens with B is made
//! send C N HEX           a client sends a node the message that HEX writes
//! deliver A B K          the message at place K of those in flight from A to B arrives
//! lose A B K             the message at place K of those in flight from A to B is lost
//! cut A B                the connection between two nodes ends, and both learn it
//! drop A B               A learns that its connection with B has ended, and B does not yet
//! restart N              a relay or a front begins anew, and its peers learn it
//! crash N                a relay or a front forgets everything, and its peers know nothing of it yet
//! pick F W               worker W of front F takes the first job of the queue
//! charge F W MOMENT      worker W of front F charges its job at this moment
//! refuse F W             worker W of front F refuses its job without the book
//! emit F W               worker W of front F sends its answer
//! sweep MOMENT           the book ends the sessions that are due at this moment
//! terms MOMENT ITEMS     the terms of the book change at this moment: the accounts of ITEMS join, and its tariffs hold
//! ```
//!
//! The items of `terms` are any number of accounts, and then, where the tariffs change, the word `tariffs` and all of them that
//! hold from then on:
//!
//! ```text
//! account TYPE ID OPENING
//! tariffs
//! tariff GROUP IDENT UNITS BLOCK PRICE QUANTUM GREATEST
//! ```
//!
//! Places and workers count from 0. The words are in small letters. Nodes have their whole names,
//! compared without ASCII case; a node of any kind may stand wherever one is named. Where the step
//! does not apply to that node, as a restart of a client, this is no fault of the schedule: the
//! farm skips the step.
//!
//! - [`steps_of`]: the steps that a text spells, or the fault of the first line that spells none.
//! - [`accounts_of`]: the accounts that a text spells, one on a line, in the words of `terms`. [`line_of_account`]: on which.
//!   [`first_line`] and [`account_in`]: the same line by line, for who keeps no list of them.
//! - [`words_of`], [`node_of`], [`number_of`], [`message_of`]: the words of a line, and what one stands for, for those who
//!   read other lines in the same words.
//! - [`LineFault`], [`ScriptFault`]: why a text is no schedule, with the words that are printed.
//!
//! What a text spells stands in `specs/Schedule` (a step for each line, the first fault of all), `specs/TermsWords` (the items of
//! `terms`) and `specs/Words` (the words of a line, and what each stands for). Inside, `line` parts the text,
//! `reading` has a function for each form of line, `terms` those of `terms`, and `word` one for each kind of word.
//!
//! ```text
//! use farm_base::Site;
//! use farm_script::steps_of;
//!
//! fn count(alloc: Global, site: &Site) -> usize {
//!     match steps_of(alloc, b"up c1.example f1.example\n", site) {
//!         Ok(read) => read.len(),
//!         Err(_) => 0,
//!     }
//! }
//! ```
#![tactic(auto)]

ghost use Rattle.std.specs.Prelude.{◌≡◌, length};
ghost use Rattle.std.specs.Str.Lines.{lines};
ghost use Rattle.farm_script.specs.Schedule.{AnswersText, limited, step_of, steps_of};
ghost use Rattle.farm_script.specs.Words.{Answers, words_of};

mod accounts;
mod fault;
mod line;
mod reading;
mod terms;
mod word;

pub use accounts::{account_in, accounts_of, line_of_account};
use dia_base::{SCHEDULE_LIMIT, STEP_LIMIT};
use farm_base::{Site, Step};
pub use fault::{LineFault, ScriptFault};
use line::is_skipped;
pub use line::{first_line, words_of};
use reading::step_of;
use std::alloc::Global;
pub use word::{message_of, node_of, number_of};

/// The steps that a schedule's text spells, or the fault of the first line that spells none.
///
/// A line ends with a line feed, which the last may lack, or with a carriage return and a line
/// feed. Empty lines and lines that begin with `#` are skipped. In a line the faults are looked
/// for in the order of [`LineFault`]. A text above 16,777,216 octets has the fault `TooLong` alone.
pub fn steps_of(alloc: Global, text: &[u8], site: &Site) -> Result<Vec<Step>, ScriptFault>
    ensures { AnswersText (length (lines text.now)) (steps_of site.now text.now) result }
{
    if text.len() > SCHEDULE_LIMIT {
        return Err(ScriptFault::TooLong);
    }
    let mut steps = Vec::new(alloc);
    let mut line = 0u64;
    let mut rest = text;
    while !rest.is_empty() {
        let (first, behind) = first_line(rest);
        line += 1;
        if !is_skipped(first) {
            let step = step_in(alloc, first, site, steps.len()).map_err(|fault| ScriptFault::Line {
                line,
                fault,
            })?;
            steps.push(step).map_err(|_| no_memory_at(line))?;
        }
        rest = behind;
    }
    Ok(steps)
}

/// The step of a line that is not skipped, where so many steps stand before it.
fn step_in(alloc: Global, line: &[u8], site: &Site, before: usize) -> Result<Step, LineFault>
    ensures { Answers (limited before (step_of site.now (words_of line.now))) result }
{
    let words = words_of(alloc, line)?;
    let step = step_of(alloc, &words, site)?;
    if before >= STEP_LIMIT {
        return Err(LineFault::TooManySteps);
    }
    Ok(step)
}

pub(crate) fn no_memory_at(line: u64) -> ScriptFault
    ensures { result ≡ ScriptFault.Line line LineFault.OutOfMemory }
{
    ScriptFault::Line {
        line,
        fault: LineFault::OutOfMemory,
    }
}
