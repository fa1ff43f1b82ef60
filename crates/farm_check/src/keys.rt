//! Keys of a site file that nothing reads, with the key that may be meant.

use crate::lines::Lines;
use crate::parts::TABLES;
use std::alloc::{AllocError, Global};
use toml::Table;

/// The most keys that have a line.
const LINE_LIMIT: usize = 20;

/// The most characters of a key that are looked at.
const KEY_LIMIT: usize = 64;

/// The keys of the file itself.
const OWN_KEYS: [&str; 20] = [
    "realm",
    "validity",
    "limit",
    "workers",
    "queue",
    "vendors",
    "currency",
    "exponent",
    "watchdog",
    "node",
    "link",
    "route",
    "tariff",
    "account",
    "known",
    "tolerate",
    "advertise",
    "strict",
    "book",
    "accounts",
];

/// The keys of the entries of each table, in the order of [`TABLES`].
const ENTRY_KEYS: [&[&str]; 5] = [
    &["name", "kind", "address", "from"],
    &["from", "to"],
    &["at", "realm", "app", "peers"],
    &[
        "group", "ident", "kind", "block", "price", "quantum", "greatest",
    ],
    &["type", "id", "opening"],
];

/// A line for each key of a document that nothing reads, up to a limit.
pub fn push_unknown_keys(
    alloc: Global,
    lines: &mut Lines,
    document: &Table,
) -> Result<(), AllocError> {
    let mut count = push_unknown(alloc, lines, "the file", document, &OWN_KEYS, 0)?;
    for (table, known) in TABLES.iter().zip(ENTRY_KEYS.iter()) {
        count = push_of_table(alloc, lines, document, table, known, count)?;
    }
    let more = count.saturating_sub(LINE_LIMIT);
    if more > 0 {
        lines.push(format!(in alloc; "look: and {more} more")?.as_str())?;
    }
    Ok(())
}

/// Those of a table's entries, of which so many were found before; how many are found then.
fn push_of_table(
    alloc: Global,
    lines: &mut Lines,
    document: &Table,
    table: &str,
    known: &[&str],
    before: usize,
) -> Result<usize, AllocError> {
    let mut count = before;
    let Some(value) = document.get(table) else {
        return Ok(count);
    };
    let Some(entries) = value.as_array() else {
        return Ok(count);
    };
    for (place, entry) in entries.iter().enumerate() {
        if let Some(fields) = entry.as_table() {
            let number = place.saturating_add(1);
            let words = format!(in alloc; "{table} {number}")?;
            count = push_unknown(alloc, lines, words.as_str(), fields, known, count)?;
        }
    }
    Ok(count)
}

/// Those of one table, of which so many were found before; how many are found then.
fn push_unknown(
    alloc: Global,
    lines: &mut Lines,
    place: &str,
    fields: &Table,
    known: &[&str],
    before: usize,
) -> Result<usize, AllocError> {
    let mut count = before;
    for key in fields.keys() {
        let key = key.as_str();
        if !known.iter().any(|other| *other == key) {
            if count < LINE_LIMIT {
                lines.push(unknown_line(alloc, place, key, known)?.as_str())?;
            }
            count = count.saturating_add(1);
        }
    }
    Ok(count)
}

fn unknown_line(
    alloc: Global,
    place: &str,
    key: &str,
    known: &[&str],
) -> Result<String, AllocError> {
    let word: String = key.chars().take(KEY_LIMIT).collect(alloc)?;
    let nearest = nearest_of(alloc, word.as_str(), known)?;
    format!(in alloc;
        "look: {place} has a key {word:?} that nothing reads; the nearest that is read is {nearest}"
    )
}

/// The known key that takes the fewest changes of letters.
fn nearest_of<'a>(alloc: Global, key: &str, known: &[&'a str]) -> Result<&'a str, AllocError> {
    let mut nearest = ("none", usize::MAX);
    for other in known {
        let changes = changes_between(alloc, key.as_bytes(), other.as_bytes())?;
        if changes < nearest.1 {
            nearest = (*other, changes);
        }
    }
    Ok(nearest.0)
}

/// The fewest letters that are put in, taken out or changed to come from one word to another.
fn changes_between(alloc: Global, one: &[u8], other: &[u8]) -> Result<usize, AllocError> {
    let mut row: Vec<usize> = (0..other.len().saturating_add(1)).collect(alloc)?;
    for octet in one {
        row = next_row(alloc, &row, *octet, other)?;
    }
    Ok(row.last().copied().unwrap_or(0))
}

/// The changes to each beginning of the other word, with one letter more of the first.
fn next_row(
    alloc: Global,
    row: &[usize],
    octet: u8,
    other: &[u8],
) -> Result<Vec<usize>, AllocError> {
    let mut diagonal = row.first().copied().unwrap_or(0);
    let mut left = diagonal.saturating_add(1);
    let mut next = Vec::new(alloc);
    next.push(left)?;
    for (above, theirs) in row.iter().skip(1).zip(other) {
        let changed = if *theirs == octet {
            diagonal
        } else {
            diagonal.saturating_add(1)
        };
        left = changed
            .min(above.saturating_add(1))
            .min(left.saturating_add(1));
        next.push(left)?;
        diagonal = *above;
    }
    Ok(next)
}
