//! A book that is stored: rows in the order of their places, on something that outlasts the process.
//!
//! - [`RowStore`] is what the book rests on: rows are appended behind the last one, all of a batch in one commit, and
//!   read by their places. The same commit says where the book stands: how many rows it has, and the moment and the sum of
//!   the last, and makes the writes beside the rows (`book_beside`). What the book is stays. A row is its octets.
//! - [`TreeStore`] is one over any `Store` of the kit: tables 0 and 1 of a database, in memory or in a file, and beside them the
//!   tables of accounts and of open sessions, 2 and 3.
//!   [`create_tree`] makes a book in them, once. [`open_tree`] opens it, and refuses a table whose rows are not those of
//!   places 0, 1, 2 and so on, or do not end where the book stands; [`reopen_tree`] does so after a crash, and finds what
//!   `may_leave` says.
//! - [`append_all`] appends batches: a crash at any moment leaves the rows with some of the batches, in their order,
//!   none in part, and after `Ok` with all.
//! - [`check_rows`] reads all rows, and refuses the first that is no row, has another place or a sum that does not chain.
//!
//! What is said of values and of crashes holds as long as no wrong answer of the disk has been taken as true. That is
//! `is_clean` of the trait, the kit's `IsClean`, and each clause that it hedges has it as its first premise.
//!
//! The definitions, in `specs/`: `Table` says which tables stand for which book, `Batches` the rows of batches, `Damage`
//! what an opening finds and refuses, and `Chain` the sums.
#![tactic(auto)]

mod batches;
mod book;
mod error;
mod opening;
mod store;
mod tree;

pub use batches::{Batch, append_all};
pub use book::{FIRST_SUM, check_rows};
pub use error::{AppendError, CheckError, CreateError, OpenError, RowError};
pub use store::RowStore;
pub use tree::{BOOK, TABLE, TreeStore, create_tree, open_tree, reopen_tree};
