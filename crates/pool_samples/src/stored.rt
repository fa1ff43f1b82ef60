//! A book that is stored, without the book: rows as octets, and stores of them over trees in memory, one function for each
//! subject.
//!
//! - `given`: what rows are made of, one request of each kind with its reply and debit, a sweep, and a change of the
//!   terms.
//! - `spelling`: the octets of each row, which are read back, and what is wrong with octets that are no row.
//! - `abouts`: what a book is, which is read back, and a book of another format.
//! - `appending`: an empty store, batches that are appended and read back, and batches that are refused.
//! - `crashes`: a crash between two commits, and one behind a commit.
//! - `damage`: a table that is not one of rows, and rows that are not those that were written.
//! - `tables`: tables in memory.
//!
//! What it must print is what `examples/models/stored_rows.py` prints, in this order.

mod abouts;
mod appending;
mod crashes;
mod damage;
mod given;
mod spelling;
mod tables;

use std::alloc::Global;

/// Prints what such rows and stores answer.
pub fn print_all(rt: &impl Print, alloc: Global) -> anyhow::Result<()> {
    let rows = given::rows(alloc)?;
    spelling::print_all(rt, alloc, &rows)?;
    abouts::print_all(rt, alloc)?;
    appending::print_all(rt, alloc, &rows)?;
    crashes::print_all(rt, alloc, &rows)?;
    damage::print_all(rt, alloc, &rows)
}
