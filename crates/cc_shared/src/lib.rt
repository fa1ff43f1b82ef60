//! One account book that threads share, behind one lock.
//!
//! - [`SharedBook`]: a handle on the book. [`SharedBook::serve`] takes a request and answers a [`Receipt`];
//!   [`SharedBook::serve_all`] takes several, one behind the other, while it holds the lock once; [`SharedBook::finish`] gives
//!   the book back, once it has seen that every receipt stands in its one history.
//! - [`SharedBook::sweep`] ends sessions that are due, and [`SharedBook::change_terms`] changes the terms (`specs/Changing`).
//! - [`SharedBook::snapshot`] shows all accounts, and [`SharedBook::account`] one (`specs/Looking`).
//! - [`SharedBook::commits`]: how often something was stored; [`SharedBook::reserved`]: what open sessions have reserved.
//! - [`Seat`]: what a thread serves through. It counts its takes, in a ledger whose total stands beside the book.
//! - [`Sharing`]: names one sharing.
//!
//! The lock is held for one call and no longer: requests are read and answers are spelled outside it. Whenever it is free all
//! that has happened to the book is stored, where the book is stored at all ([`book_journal`]): what a call has done is stored
//! before the call returns. A call that cannot store it answers nobody: [`SharedBook::has_failed`] says so then. Threads that serve on
//! a stored book collect their requests one after the other ([`SharedBook::begin_batch`]), so that one commit stores all that wait.
//! The next one collects as soon as this one has the lock, and so while this one stores.
//!
//! What receipts say stands in `specs/Receipts`, what a shared book is in `specs/Sharing`, what a call of `serve` answers
//! in `specs/Serving`, and when a book is finished in `specs/Closing`.
//!
//! ```text
//! let Ok((shared, seats)) = SharedBook::<L>::share(alloc, Blank::new(2), history, book, 2) else { .. };
//! // in each thread, with a handle and a seat of its own:
//! match shared.serve(rt, alloc, &mut seat, moment, request) {
//!     Ok(receipt) => answer(&receipt),
//!     Err(ServeError { why, request }) => refuse(why, request),   // the book is as it was
//! }
//! // once the threads have ended:
//! let book = shared.finish(rt, alloc, seats, receipts)?;         // each receipt stands in book.history()
//! ```
#![tactic(auto)]

mod asking;
mod batching;
mod charged;
mod checking;
mod commits;
mod error;
mod history;
mod kept;
mod locked;
mod logged;
mod looks;
mod open;
mod receipt;
mod same;
mod seat;
mod shared;
mod sharing;
mod untold;

pub use asking::{Asked, Served};
pub use charged::SHOWN_CHARGES;
pub use commits::Commits;
pub use error::{ChangeError, CloseError, ServeError, ServeRefusal};
pub use history::{Beginning, BlankHistory, Length, OneHistory, SeenHistory};
pub use logged::Logged;
pub use looks::{
    AccountCharge, AccountLook, ClosedBook, Found, Snapshot, Standing, Swept, TermsChanged,
};
pub use receipt::Receipt;
pub use seat::Seat;
pub use shared::SharedBook;
pub use sharing::Sharing;
