//! Where in the text of a site file something stands.

use crate::parts::Entry;
use std::fmt;

/// A place in a text. Lines and columns count from 1, columns in characters.
#[derive(Clone, Copy, PartialEq, Eq)]
pub struct Place {
    line: usize,
    column: usize,
}

impl fmt::Display for Place {
    fn fmt<W: fmt::Write>(&self, f: &mut fmt::Formatter<W>) -> fmt::Result {
        let (line, column) = (self.line, self.column);
        write!(f, "line {line}, column {column}")
    }
}

/// The place behind so many octets.
pub fn place_behind(octets: &[u8], count: usize) -> Place {
    let (mut line, mut column) = (1usize, 1usize);
    for octet in octets.iter().take(count) {
        if *octet == b'\n' {
            line = line.saturating_add(1);
            column = 1;
        } else if *octet < 0x80 || *octet >= 0xC0 {
            column = column.saturating_add(1);
        }
    }
    Place { line, column }
}

/// Where the header of an entry stands; none where its table is written as an array.
pub fn place_of_header(text: &str, entry: Entry) -> Option<Place> {
    let mut seen = 0usize;
    for (before, line) in text.lines().enumerate() {
        if is_header_of(line, entry.table) {
            seen = seen.saturating_add(1);
            if seen == entry.number {
                return Some(place_in(before, line, line.trim_start()));
            }
        }
    }
    None
}

/// Where a table is made that is written as `[table]` or as `table = ..`.
pub fn place_of_table(text: &str, table: &str) -> Option<Place> {
    for (before, line) in text.lines().enumerate() {
        let words = line.trim_start();
        if let Some(rest) = words
            .strip_prefix("[")
            .unwrap_or(words)
            .trim_start()
            .strip_prefix(table)
        {
            if rest.trim_start().starts_with("]") || rest.trim_start().starts_with("=") {
                return Some(place_in(before, line, words));
            }
        }
    }
    None
}

/// Where the value stands that a key is given behind so many lines, before the next header.
pub fn place_of_value(text: &str, behind: usize, key: &str) -> Option<Place> {
    for (before, line) in text.lines().enumerate().skip(behind) {
        if let Some(value) = value_in(line, key) {
            return Some(place_in(before, line, value));
        }
        if line.trim_start().starts_with("[") {
            return None;
        }
    }
    None
}

/// Where the value stands that a key of an entry is given, else where the header of the entry stands.
pub fn place_in_entry(text: &str, entry: Entry, key: &str) -> Option<Place> {
    let header = place_of_header(text, entry)?;
    Some(place_of_value(text, header.line, key).unwrap_or(header))
}

/// The place of what a line ends with.
fn place_in(before: usize, line: &str, end: &str) -> Place {
    Place {
        line: before.saturating_add(1),
        column: line.len().saturating_sub(end.len()).saturating_add(1),
    }
}

fn is_header_of(line: &str, table: &str) -> bool {
    match line.trim_start().strip_prefix("[[") {
        Some(rest) => match rest.trim_start().strip_prefix(table) {
            Some(rest) => rest.trim_start().starts_with("]]"),
            None => false,
        },
        None => false,
    }
}

/// What a line gives a key.
fn value_in<'a>(line: &'a str, key: &str) -> Option<&'a str> {
    let rest = line.trim_start().strip_prefix(key)?;
    Some(rest.trim_start().strip_prefix("=")?.trim_start())
}
