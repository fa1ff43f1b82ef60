//! What a book comes to.

ghost use Rattle.std.specs.Prelude.{◌≡◌, ◌++◌, IfOk, OnOk, count_by, string_bytes};
ghost use Rattle.book_lines.specs.Summary.{changes_text, counts_text, digits, ending_text, filling_line, filling_text, heading_text, is_change, is_charge, is_nearly_full, is_sweep, last_moment, made_line, summary_of};

use crate::words::push_optional;
use book_rows::{Identity, Sum};
use byteorder::{BigEndian, ByteOrder};
use cc_book::Entry;
use std::alloc::{AllocError, Global};

/// How many entries of each kind there are.
#[derive(Clone, Copy)]
struct Counts {
    /// Requests that were taken.
    charges: usize,
    /// Looks at the clock that ended sessions.
    sweeps: usize,
    /// Changes of the terms.
    changes: usize,
}

fn counts_in(history: &[Entry]) -> Counts
    ensures charges { result.charges ≡ count_by is_charge history.now }
    ensures sweeps { result.sweeps ≡ count_by is_sweep history.now }
    ensures changes { result.changes ≡ count_by is_change history.now }
{
    let mut counts = Counts {
        charges: 0,
        sweeps: 0,
        changes: 0,
    };
    for entry in history {
        match entry {
            Entry::Take { .. } => counts.charges += 1,
            Entry::Sweep { .. } => counts.sweeps += 1,
            Entry::ChangeTerms { .. } => counts.changes += 1,
        }
    }
    counts
}

/// The moment of the last entry, if there is one.
fn last_moment(history: &[Entry]) -> Option<u64>
    ensures { result ≡ last_moment history.now }
{
    match history.last() {
        None => None,
        Some(Entry::Take { moment, .. }) => Some(moment.0),
        Some(Entry::Sweep { moment }) => Some(moment.0),
        Some(Entry::ChangeTerms { moment, .. }) => Some(moment.0),
    }
}

fn counts_text(
    alloc: Global,
    entries: usize,
    charges: usize,
    sweeps: usize,
) -> Result<String, AllocError>
    ensures { IfOk result (λ text. string_bytes text ≡ counts_text entries charges sweeps) }
{
    format!(in alloc; "\nentries {entries} charges {charges} sweeps {sweeps}")
}

/// Adds how many entries change the terms, where some do.
fn push_changes(alloc: Global, out: &mut Vec<u8>, changes: usize) -> Result<(), AllocError>
    ensures { OnOk result (out.new.items ≡ out.old.items ++ changes_text changes) }
{
    if changes == 0 {
        return Ok(());
    }
    let text = format!(in alloc; " changes {changes}")?;
    out.extend_from_slice(text.as_bytes())
}

/// A number of 16 octets as 32 hexadecimal digits.
fn digits(alloc: Global, number: u128) -> Result<String, AllocError>
    ensures { IfOk result (λ text. string_bytes text ≡ digits number) }
{
    let mut octets = [0; 16];
    BigEndian::write_u128(&mut octets, number);
    hex::encode(alloc, octets)
}

/// What is told of a book that was made.
pub fn made_line(alloc: Global, identity: Identity) -> Result<Vec<u8>, AllocError>
    ensures { IfOk result (λ text. text.items ≡ made_line identity) }
{
    let identity = digits(alloc, identity.0)?;
    let mut out = Vec::new(alloc);
    out.extend_from_slice(b"made book ")?;
    out.extend_from_slice(identity.as_bytes())?;
    out.extend_from_slice(b"\n")?;
    Ok(out)
}

/// Whether a book has 90 hundredths or more of the entries that it can have.
pub fn is_nearly_full(entries: u64, limit: u64) -> bool
    ensures { result ≡ is_nearly_full entries limit }
{
    let (entries, limit) = (u128::from(entries), u128::from(limit));
    entries * 100 >= limit * 90
}

fn filling_text(alloc: Global, entries: u64, limit: u64) -> Result<String, AllocError>
    ensures { IfOk result (λ text. string_bytes text ≡ filling_text entries limit) }
{
    format!(in alloc; "look: the book is nearly full: {entries} of {limit} entries\n")
}

/// Adds a line where a book is nearly full.
fn push_filling(
    alloc: Global,
    out: &mut Vec<u8>,
    entries: u64,
    limit: u64,
) -> Result<(), AllocError>
    ensures { OnOk result (out.new.items ≡ out.old.items ++ filling_line entries limit) }
{
    if is_nearly_full(entries, limit) {
        out.extend_from_slice(filling_text(alloc, entries, limit)?.as_bytes())?;
    }
    Ok(())
}

/// Adds which book it is, and how many entries it has, of each kind.
#[tactic(auto, unfolding(crate::specs::Summary::heading_text))]
fn push_heading(
    alloc: Global,
    out: &mut Vec<u8>,
    identity: Identity,
    history: &[Entry],
) -> Result<(), AllocError>
    ensures { OnOk result (out.new.items ≡ out.old.items ++ heading_text identity history.now) }
{
    let counts = counts_in(history);
    let identity = digits(alloc, identity.0)?;
    let text = counts_text(alloc, history.len(), counts.charges, counts.sweeps)?;
    out.extend_from_slice(b"book ")?;
    out.extend_from_slice(identity.as_bytes())?;
    out.extend_from_slice(text.as_bytes())?;
    push_changes(alloc, out, counts.changes)?;
    out.extend_from_slice(b"\n")
}

/// Adds the moment and the sum of the last entry.
#[tactic(auto, unfolding(crate::specs::Summary::ending_text))]
fn push_ending(
    alloc: Global,
    out: &mut Vec<u8>,
    history: &[Entry],
    sum: Sum,
) -> Result<(), AllocError>
    ensures { OnOk result (out.new.items ≡ out.old.items ++ ending_text history.now sum) }
{
    let sum = digits(alloc, sum.0)?;
    out.extend_from_slice(b"last")?;
    push_optional(alloc, out, last_moment(history))?;
    out.extend_from_slice(b"\nsum ")?;
    out.extend_from_slice(sum.as_bytes())?;
    out.extend_from_slice(b"\n")
}

/// Which book it is, how many entries it has, of each kind, and the moment and the sum of the last; and whether it is nearly full, of
/// so many entries that it can have.
pub fn summary(
    alloc: Global,
    identity: Identity,
    history: &[Entry],
    sum: Sum,
    limit: u64,
) -> Result<Vec<u8>, AllocError>
    ensures { IfOk result (λ text. text.items ≡ summary_of identity history.now sum limit) }
{
    let mut out = Vec::new(alloc);
    push_heading(alloc, &mut out, identity, history)?;
    push_ending(alloc, &mut out, history, sum)?;
    push_filling(alloc, &mut out, history.len() as u64, limit)?;
    Ok(out)
}
