//! Rows as octets.

use super::given::NAMES;
use book_rows::{ReadError, is_chained, read_row, spell_row};
use book_store::FIRST_SUM;
use std::alloc::Global;

/// Octets that are changed: the row, the place of the octet in it, what it becomes.
const CHANGES: [(usize, usize, u8); 15] = [
    // The kind of an entry.
    (8, 16, 3),
    // The opening of an account that joins: its sign, and its size, which stays below 2^63.
    (9, 49, 2),
    (9, 50, 1),
    // Whether there are tariffs, what the units of one are, and its price, at most 2^20.
    (9, 130, 2),
    (9, 145, 3),
    (9, 158, 1),
    (9, 161, 0),
    // CC-Request-Type, and whether there is a Requested-Action.
    (3, 37, 5),
    (3, 38, 2),
    // Requested-Action.
    (3, 39, 4),
    // A count of Used-Service-Unit, which may stay below 2^78.
    (1, 103, 62),
    (1, 103, 64),
    // Result-Code.
    (2, 50, 1),
    // The size of a debit, which stays below 2^127.
    (2, 62, 127),
    (2, 62, 128),
];

/// Each row as octets.
fn print_rows(rt: &impl Print, alloc: Global, rows: &[Vec<u8>]) -> anyhow::Result<()> {
    for (name, octets) in NAMES.iter().zip(rows.iter()) {
        let text = hex::encode(alloc, octets.as_slice())?;
        println!(rt; "{name}: {}", text.as_str())?;
    }
    Ok(())
}

/// Whether octets are read as a row that spells the same.
fn is_read_back(alloc: Global, octets: &[u8]) -> anyhow::Result<bool> {
    let Ok(row) = read_row(alloc, octets) else {
        return Ok(false);
    };
    let again = spell_row(alloc, &row)?;
    Ok(again.as_slice() == octets)
}

/// How many rows are chained to the one before, or the first to nothing.
fn count_chained(alloc: Global, rows: &[Vec<u8>]) -> anyhow::Result<u64> {
    let mut sum = FIRST_SUM;
    let mut chained = 0_u64;
    for octets in rows {
        if let Ok(row) = read_row(alloc, octets.as_slice()) {
            if is_chained(alloc, sum, &row)? {
                chained = chained.saturating_add(1);
            }
            sum = row.sum;
        }
    }
    Ok(chained)
}

fn print_read(rt: &impl Print, alloc: Global, rows: &[Vec<u8>]) -> anyhow::Result<()> {
    let mut same = 0_u64;
    for octets in rows {
        if is_read_back(alloc, octets.as_slice())? {
            same = same.saturating_add(1);
        }
    }
    let chained = count_chained(alloc, rows)?;
    println!(rt; "{} rows, {same} read back, {chained} chained", rows.len())?;
    Ok(())
}

/// What is wrong with octets.
fn print_fault(rt: &impl Print, alloc: Global, octets: &[u8]) -> anyhow::Result<()> {
    match read_row(alloc, octets) {
        Ok(_) => println!(rt; "a row")?,
        Err(ReadError::NoRow(fault)) => println!(rt; "{fault:?}")?,
        Err(ReadError::OutOfMemory) => println!(rt; "out of memory")?,
    }
    Ok(())
}

/// What is wrong with a row whose octet is another one.
fn print_change(
    rt: &impl Print,
    alloc: Global,
    rows: &[Vec<u8>],
    change: (usize, usize, u8),
) -> anyhow::Result<()> {
    let (row, at, octet) = change;
    let Some(octets) = rows.get(row) else {
        return Ok(());
    };
    let mut changed = Vec::from_slice(alloc, octets.as_slice())?;
    if let Some(place) = changed.get_mut(at) {
        *place = octet;
    }
    print!(rt; "octet {at} of row {row} is {octet}: ")?;
    print_fault(rt, alloc, changed.as_slice())
}

/// How many beginnings of the rows are too short.
fn print_beginnings(rt: &impl Print, alloc: Global, rows: &[Vec<u8>]) -> anyhow::Result<()> {
    let mut beginnings = 0_u64;
    let mut rows_among = 0_u64;
    for octets in rows {
        for len in 0..octets.len() {
            beginnings = beginnings.saturating_add(1);
            if read_row(alloc, &octets.as_slice()[..len]).is_ok() {
                rows_among = rows_among.saturating_add(1);
            }
        }
    }
    println!(rt; "{beginnings} beginnings of rows, {rows_among} of them rows")?;
    Ok(())
}

/// An octet more behind each row.
fn print_longer(rt: &impl Print, alloc: Global, rows: &[Vec<u8>]) -> anyhow::Result<()> {
    for octets in rows.iter().take(1) {
        let mut longer = Vec::from_slice(alloc, octets.as_slice())?;
        longer.push(0)?;
        print!(rt; "an octet more: ")?;
        print_fault(rt, alloc, longer.as_slice())?;
        print!(rt; "none: ")?;
        print_fault(rt, alloc, &[])?;
    }
    Ok(())
}

/// The octets of the rows, and what is wrong with others.
pub fn print_all(rt: &impl Print, alloc: Global, rows: &[Vec<u8>]) -> anyhow::Result<()> {
    print_rows(rt, alloc, rows)?;
    print_read(rt, alloc, rows)?;
    for change in CHANGES {
        print_change(rt, alloc, rows, change)?;
    }
    print_beginnings(rt, alloc, rows)?;
    print_longer(rt, alloc, rows)
}
