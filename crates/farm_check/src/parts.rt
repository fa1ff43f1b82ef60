//! Which part of a site file is at fault.

use crate::expected::key_of;
use farm_base::Site;
use farm_site::{SiteFault, site_of};
use std::alloc::Global;
use toml::Table;

/// The tables of a site file, in the order in which they are checked.
pub const TABLES: [&str; 5] = ["node", "link", "route", "tariff", "account"];

/// What of a site file a fault is told of.
#[derive(Clone, Copy, PartialEq, Eq)]
pub enum Part {
    /// The file's own keys, which stand above its tables.
    Own,
    /// A table that is no list of entries.
    Table(&'static str),
    /// An entry of a table.
    Entry(Entry),
    /// It was not found.
    Unknown,
}

/// An entry of a table.
#[derive(Clone, Copy, Debug, PartialEq, Eq)]
pub struct Entry {
    pub table: &'static str,
    /// Counted from 1.
    pub number: usize,
}

/// The part that has the first fault of the file.
///
/// Tables are checked in their order, entry by entry. So an entry is at fault where the file is without fault if it ends before
/// the entry, and has this fault if it ends behind it: that is asked of beginnings of the file.
pub fn part_at_fault(alloc: Global, text: &str, fault: SiteFault) -> Part {
    let Ok(document) = toml::table_from_str(alloc, text) else {
        return Part::Unknown;
    };
    for (place, table) in TABLES.iter().enumerate() {
        let count = entry_count(&document, table);
        if has_fault(alloc, text, place, count, fault) {
            return part_of_table(alloc, text, place, count, fault);
        }
    }
    Part::Unknown
}

/// The part, where the file has the fault if it ends behind so many entries of the table at this place, and none if it ends
/// before that table.
fn part_of_table(alloc: Global, text: &str, place: usize, count: usize, fault: SiteFault) -> Part {
    let Some(table) = TABLES.get(place).copied() else {
        return Part::Unknown;
    };
    if !has_fault(alloc, text, place, 0, fault) {
        let number = fewest_entries(alloc, text, place, count, fault);
        return Part::Entry(Entry { table, number });
    }
    if is_of_table(fault, table) {
        Part::Table(table)
    } else {
        Part::Own
    }
}

/// Whether a fault is told of the table itself.
fn is_of_table(fault: SiteFault, table: &str) -> bool {
    match key_of(fault) {
        Some(key) => key.as_str() == table,
        None => false,
    }
}

/// How many entries a table has.
fn entry_count(document: &Table, table: &str) -> usize {
    match document.get(table) {
        Some(value) => match value.as_array() {
            Some(entries) => entries.len(),
            None => 0,
        },
        None => 0,
    }
}

/// The file up to so many entries of the table at this place, with the tables that are checked before it; none where that
/// cannot be had.
pub fn beginning_of(alloc: Global, text: &str, place: usize, count: usize) -> Option<String> {
    let mut document = toml::table_from_str(alloc, text).ok()?;
    for (other, table) in TABLES.iter().enumerate() {
        if other > place {
            let _ = document.remove(*table);
        } else if other == place {
            if let Some(value) = document.get_mut(*table) {
                if let Some(entries) = value.as_array_mut() {
                    entries.truncate(count);
                }
            }
        }
    }
    toml::table_to_string(alloc, &document).ok()
}

/// Whether the file has this fault where it ends behind so many entries of the table at this place.
fn has_fault(alloc: Global, text: &str, place: usize, count: usize, fault: SiteFault) -> bool {
    match beginning_of(alloc, text, place, count) {
        Some(beginning) => match site_of(alloc, beginning.as_str()) {
            Ok(_) => false,
            Err(found) => found == fault,
        },
        None => false,
    }
}

/// The fewest entries of the table at this place with which the fault is there, where it is there with so many.
fn fewest_entries(
    alloc: Global,
    text: &str,
    place: usize,
    count: usize,
    fault: SiteFault,
) -> usize {
    let (mut without, mut with) = (0usize, count);
    for _ in 0..usize::BITS {
        let middle = without.saturating_add(with.saturating_sub(without) / 2);
        if middle == without {
            break;
        }
        if has_fault(alloc, text, place, middle, fault) {
            with = middle;
        } else {
            without = middle;
        }
    }
    with
}

/// The site of the file where it ends before an entry.
pub fn site_before(alloc: Global, text: &str, entry: Entry) -> Option<Site> {
    let place = TABLES.iter().position(|table| *table == entry.table)?;
    let beginning = beginning_of(alloc, text, place, entry.number.saturating_sub(1))?;
    site_of(alloc, beginning.as_str()).ok()
}
