//! A book on disk: made by a word, and opened under the terms of a site.
//!
//! - [`create_book`] makes a book with no entry in a file. A file that has a book is refused.
//! - [`open_book`] opens the book in a file, with all of its history, under the terms that it was made under: each row is worked out
//!   again, and the book is the one that answered then. A file that is missing, is no book's, is open elsewhere, or has a row that the
//!   book's terms do not give is refused by name, and nothing is begun anew.
//! - [`serving_book`] is that book, or one in memory where no file is named. [`renew`] brings it under the terms of a site: by one
//!   entry that changes its terms, if that is allowed.
//! - [`change_for`] is the change that this entry makes. [`renew_by`] makes it where it is handed in.
//! - [`change_book`] does that in one, and lets go of the file.
//! - [`identity_at`] is the identity of the book in a file, and [`state_id_of`] the Origin-State-Id of who serves on it.
//! - [`read_book`] opens it so, lets go of the file, and gives the book with the sum of its history. [`empty_under`] is a book under
//!   such terms that has no entry.
#![tactic(auto)]

mod fault;
mod opening;
mod renewing;

pub use fault::{BookFault, TermsDifference};
pub use opening::{
    StoredBook, change_book, create_book, empty_under, identity_at, open_book, read_book,
    serving_book, state_id_of,
};
pub use renewing::{change_for, renew, renew_by, renewed, renewed_by};
