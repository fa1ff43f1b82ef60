//! Terms of a book as lines of text: a change of them, and the accounts that it begins with.
//!
//! ```text
//! account TYPE ID OPENING                                        an account joins
//! tariffs                                                        the tariffs change: those of the lines behind hold from now on
//! tariff GROUP IDENT UNITS BLOCK PRICE QUANTUM GREATEST
//! ```
//!
//! The words are those of a schedule's step `terms`.
//!
//! - [`change_in`] reads a change, all of it or nothing, by [`farm_script`]. Each line ends an item where it pleases. What a text spells
//!   stands in `specs/Lines`.
//! - [`site_terms`] reads the terms that the book of a site begins with: the site's own, and the accounts of a file that its site file
//!   names, each `account` on a line of its own ([`accounts_with`]). `specs/SiteAccounts` says which these are, and why there are none.
//! - [`site_change`] gives the change that leads to these terms from those of a book that is there, without a list of all accounts: each
//!   account of the file is looked for in the book (`specs/Joining`, `specs/SiteChange`).
#![tactic(auto)]

ghost use Rattle.std.specs.Prelude.{◌≡◌, ◌∷◌, [], IfOk};
ghost use Rattle.dia_base.specs.declared.number.Moment.{Moment};
ghost use Rattle.farm_base.specs.declared.step.Step.TheVariants.{ChangeTerms};
ghost use Rattle.farm_terms.specs.Lines.{IsSpelled, blank_of, step_line};

mod accounts;
mod change;
mod fault;
mod finding;
mod joining;
mod opening;

use accounts::is_cut_off;
pub use accounts::{ACCOUNT_LIMIT, accounts_with, tariffs_of};
use cc_book::TermsChange;
pub use change::{SiteChangeFault, site_change};
use farm_base::{Site, Step};
use farm_script::{ScriptFault, steps_of};
pub use fault::{AccountsFault, TextFault};
use finding::line_with_fault;
pub use opening::{AccountsText, SiteTermsFault, accounts_file, site_terms};
use std::alloc::{AllocError, Global};

/// The most lines of a text.
pub const LINE_LIMIT: u64 = 4_096;

/// The octet in a step's line for one of a text: a blank for each end of a line.
fn blank_of(octet: u8) -> u8
    ensures { result ≡ blank_of octet }
{
    if octet == b'\n' || octet == b'\r' {
        b' '
    } else {
        octet
    }
}

/// The line of a schedule whose step has the items of a text.
pub(crate) fn step_line(alloc: Global, text: &[u8]) -> Result<Vec<u8>, AllocError>
    ensures { IfOk result (λ line. line.items ≡ step_line text.now) }
{
    let mut line = Vec::from_slice(alloc, b"terms 0 ")?;
    let items: Vec<u8> = text.iter().map(|octet| blank_of(*octet)).collect(alloc)?;
    line.extend_from_slice(&items)?;
    Ok(line)
}

/// How many lines end in a text.
fn lines_in(text: &[u8]) -> u64 {
    text.iter().filter(|octet| **octet == b'\n').count() as u64
}

/// The change that the only step of a schedule makes.
fn change_of(steps: Vec<Step>) -> Result<TermsChange, TextFault>
    ensures { IfOk result (λ change. (moment : Moment) × (steps.items ≡ ChangeTerms moment change ∷ [])) }
{
    let mut steps = steps;
    match (steps.pop(), steps.is_empty()) {
        (Some(Step::ChangeTerms { change, .. }), true) => Ok(change),
        (Some(_) | None, _) => Err(TextFault::NoChange),
    }
}

/// The change of the terms that the lines of a text spell, or the first fault with its line. A text has 4,096 lines at most, and each of
/// them ends with a line feed. The site is
/// that of the schedules in whose words it is spelled; no word of it names a node.
pub fn change_in(alloc: Global, site: &Site, text: &[u8]) -> Result<TermsChange, TextFault>
    ensures { IfOk result (IsSpelled site.now text.now) }
{
    if lines_in(text) > LINE_LIMIT {
        return Err(TextFault::TooLong);
    }
    if is_cut_off(text) {
        return Err(TextFault::CutOff);
    }
    let line = step_line(alloc, text)?;
    match steps_of(alloc, &line, site) {
        Ok(steps) => change_of(steps),
        Err(ScriptFault::TooLong) => Err(TextFault::TooLong),
        Err(ScriptFault::Line { fault, .. }) => Err(TextFault::Line {
            line: line_with_fault(alloc, site, text)?,
            fault,
        }),
    }
}
