//! What stands beside the rows of a book, and changes in the same commit: its accounts and its open sessions as they stand.
//!
//! A table has octets at the place of an account, and one at the place of an open session. [`put_writes`] makes the writes of a batch
//! in their order, in the transaction that is open; the caller commits. The definitions stand in `specs/Beside`, which says what a
//! table has by a look-up at each place. What is said of values holds as long as no wrong answer of the disk has been taken as true
//! (the kit's `IsClean`).
#![tactic(auto)]

mod write;
mod writing;

pub use write::{ACCOUNTS, SESSIONS, Side, Write};
pub use writing::put_writes;
