//! The requests that charged an account last, each on a line.

use book_lines::{kind_word, push_quoted};
use cc_shared::AccountCharge;
use std::alloc::{AllocError, Global};

/// A line for each of these requests, with the words of an exported entry (`farm book export`).
pub fn charge_lines(alloc: Global, charges: &[AccountCharge]) -> Result<String, AllocError> {
    let mut lines = Vec::new(alloc);
    for charge in charges {
        push_charge(alloc, &mut lines, charge)?;
    }
    match String::from_utf8(lines) {
        Ok(lines) => Ok(lines),
        // There is none: what is quoted is ASCII.
        Err(_) => Err(AllocError),
    }
}

/// Adds the line of a request behind a line feed.
fn push_charge(
    alloc: Global,
    lines: &mut Vec<u8>,
    charge: &AccountCharge,
) -> Result<(), AllocError> {
    let (place, moment) = (charge.place, charge.moment.0);
    let begin = format!(in alloc; "\nentry {place} moment {moment} charge session ")?;
    lines.extend_from_slice(begin.as_bytes())?;
    push_quoted(lines, charge.session.as_slice())?;
    let (number, kind) = (charge.number, kind_word(charge.kind));
    let (debit, code) = (charge.debit, charge.code.number());
    let end = format!(in alloc; " number {number} type {kind} debit {debit} result {code}")?;
    lines.extend_from_slice(end.as_bytes())
}
