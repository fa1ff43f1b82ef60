//! What is told of the fault of a site file.

use crate::expected::{expected_at, key_of};
use crate::keys::push_unknown_keys;
use crate::lines::Lines;
use crate::names::names_for;
use crate::parts::{Part, part_at_fault};
use crate::places::{place_behind, place_in_entry, place_of_table, place_of_value};
use farm_site::SiteFault;
use std::alloc::{AllocError, Global};

/// The lines of a fault: its own, its place with what was expected there, and then the keys that nothing reads, since one of
/// them may be the one that is missing.
pub fn fault_text(alloc: Global, file: &[u8], fault: SiteFault) -> Result<String, AllocError> {
    let mut lines = Lines::new(alloc);
    lines.push(format!(in alloc; "{fault}")?.as_str())?;
    match std::str::from_utf8(file) {
        Ok(text) => lines.push(place_line(alloc, text, fault)?.as_str())?,
        Err(error) => {
            let (place, expected) = (place_behind(file, error.valid_up_to()), expected_at(fault));
            lines.push(format!(in alloc; "{place}: expected {expected}")?.as_str())?;
        }
    }
    if let Ok(document) = toml::table_from_slice(alloc, file) {
        push_unknown_keys(alloc, &mut lines, &document)?;
    }
    Ok(lines.into_text())
}

/// The line with the place of a fault in the text, and what was expected there.
fn place_line(alloc: Global, text: &str, fault: SiteFault) -> Result<String, AllocError> {
    if fault == SiteFault::NotToml {
        return broken_line(alloc, text);
    }
    let part = part_at_fault(alloc, text, fault);
    let (place, expected) = (
        place_text(alloc, text, part, fault)?,
        expected_text(alloc, text, part, fault)?,
    );
    format!(in alloc; "{place}: expected {expected}")
}

/// The line of a text that is no TOML: where its reader stopped.
fn broken_line(alloc: Global, text: &str) -> Result<String, AllocError> {
    let expected = expected_at(SiteFault::NotToml);
    let stopped = match toml::table_from_str(alloc, text) {
        Ok(_) => None,
        Err(error) => error.span(),
    };
    match stopped {
        Some(span) => {
            let place = place_behind(text.as_bytes(), span.start);
            format!(in alloc; "{place}: expected {expected}")
        }
        None => format!(in alloc; "the file: expected {expected}"),
    }
}

/// The place of a part, or of the value of the fault's key in it.
fn place_text(
    alloc: Global,
    text: &str,
    part: Part,
    fault: SiteFault,
) -> Result<String, AllocError> {
    let key = match key_of(fault) {
        Some(key) => key.as_str(),
        None => "",
    };
    match part {
        Part::Own => match place_of_value(text, 0, key) {
            Some(place) => format!(in alloc; "{place}"),
            None => String::from_str(alloc, "above the tables of the file"),
        },
        Part::Table(table) => match place_of_table(text, table) {
            Some(place) => format!(in alloc; "{place}, {table}"),
            None => String::from_str(alloc, table),
        },
        Part::Entry(entry) => {
            let (table, number) = (entry.table, entry.number);
            match place_in_entry(text, entry, key) {
                Some(place) => format!(in alloc; "{place}, {table} {number}"),
                None => format!(in alloc; "{table} {number}"),
            }
        }
        Part::Unknown => String::from_str(alloc, "the file"),
    }
}

/// What was expected: of a name that is unknown those that may stand there.
fn expected_text(
    alloc: Global,
    text: &str,
    part: Part,
    fault: SiteFault,
) -> Result<String, AllocError> {
    let expected = expected_at(fault);
    if let (SiteFault::UnknownName { key }, Part::Entry(entry)) = (fault, part) {
        let names = names_for(alloc, text, entry, key)?;
        if names.is_empty() {
            return format!(in alloc; "{expected}; there is none");
        }
        return format!(in alloc; "{expected}: {names}");
    }
    String::from_str(alloc, expected)
}
