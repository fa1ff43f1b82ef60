//! A copy of a stored book: another file with the same book, which is what a backup is.
//!
//! - [`copy_rows`] appends the rows of one store to another one that has none: it has the first's rows then. Wherever it stops,
//!   the other store has a beginning of them.
//! - [`copy_book`] does so once it has checked the sum of each row, and gives the last one, which names the whole history.
//! - [`copy_file`] makes a file with the book of another file: the same identity, terms and rows. It never writes over a file.
//!
//! `specs/Copied` says what an opening finds of a copy that was not finished.
#![tactic(auto)]

mod error;
mod file;
mod rows;

pub use error::{CopyError, CopyFault};
pub use file::{Copied, copy_file};
pub use rows::{copy_book, copy_rows};
