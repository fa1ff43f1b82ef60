//! The rows of a book's history, and the history of rows: what is stored of a book is its history, each place once.
//!
//! - [`row_of_plan`] makes the row of the request that a plan takes, [`row_of_sweep`] that of a sweep, and [`row_of_change`]
//!   that of a change of the terms: with it the rows of the book before are those of the book after.
//! - [`entry_of`] reads a row as an entry again.
//! - [`take_octets`] takes a stored row into a book again. A row that is not the one that this book gives to its entry is
//!   refused by name, and the book is as it was: so a book that has taken all stored rows has the history that was stored.
//! - The laws: the rows of a history, read as entries again, are this history; each place has its row, with the reply and
//!   the debit that the account machine gives there; a longer history keeps its rows; and histories of which the same
//!   octets are stored are the same.
//!
//! The definitions, in `specs/`: `Rows` says what the rows of a history are, `Entries` what rows tell, and `Replayed` what
//! a book is that has taken a stored row.
#![tactic(auto)]

mod entries;
mod laws;
mod refusal;
mod replay;
mod rows;

pub use entries::entry_of;
pub use laws::{
    each_place_has_its_row, longer_histories_keep_their_rows, rows_tell_their_history,
    same_octets_tell_one_history,
};
pub use refusal::RowRefusal;
pub use replay::take_octets;
pub use rows::{row_of_change, row_of_plan, row_of_sweep};
