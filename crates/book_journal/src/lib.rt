//! The journal of a book: what is stored of it while it goes on. Its entries wait to be stored, and are stored together. Beside them
//! stand its accounts and its open sessions, as the history leaves them.
//!
//! - [`open_journal`] takes what is stored into a book again: the book has the history that is stored, and no other.
//! - [`Journal::row_of_take`], [`Journal::row_of_sweep`] and [`Journal::row_of_change`] make the row of the next entry, and
//!   room for it; [`Journal::add`] puts it behind those that wait, and takes no memory.
//! - [`Journal::store`] stores all that wait, and beside them accounts and sessions where they have changed, in one commit. A crash at
//!   any moment leaves what was stored before, or that with all that waited.
//! - [`a_crash_leaves_the_history`]: while nothing waits, a crash leaves the whole history of the book, and beside it what this history
//!   makes of accounts and sessions, and nothing else.
//!
//! A journal of a book that is kept in memory alone stores nothing, and its calls do nothing.
//!
//! The definitions, in `specs/`: `Tables` says what stands beside the rows of a book, and `Kept` when a book is kept by a journal.
#![tactic(auto)]

mod error;
mod filling;
mod journal;
mod laws;
mod opening;
mod tables;
mod touched;

pub use error::JournalError;
pub use journal::{Journal, NewRow};
pub use laws::a_crash_leaves_the_history;
pub use opening::open_journal;
pub use touched::Touched;
