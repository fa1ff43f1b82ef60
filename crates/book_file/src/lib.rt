//! A book in a file: the tables of a stored book (`book_store`) in a database file that `sqlite3` reads once the process has
//! stopped or was killed.
//!
//! - [`create_file`] makes a book in a file, which is a word of its own, and refuses a file that has one.
//! - [`open_file`] opens the book in a file, and begins nothing anew: a file that is missing, that another process has open,
//!   that is another program's or that has no book is refused by name. A book of the first format, which has nothing beside its
//!   rows, is brought to this one in one commit.
//! - [`about_of`] says what the book is, and refuses one of another format by name.
//! - [`close_file`] copies the log into the file and lets go of both.
//!
//! Beside FILE stands its log, FILE-wal: after a crash both are the book. The file is SQLite's, with four tables: `entry`, whose
//! rowid is the place of a row of the book and whose column has its octets; `book`, whose first row says what the book is, and
//! whose second one where it stands; and beside the rows (`book_beside`) `account`, whose rowid is the place of an account and whose
//! column has its balance, and `session`, whose rowid is the place of an open session and whose column has its octets.
#![tactic(auto)]

mod error;
mod file;
mod trees;

pub use error::FileError;
pub use file::{FileBook, about_of, close_file, create_file, open_file};
