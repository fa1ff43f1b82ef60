//! The places of requests by their keys, in an index of a database.
//!
//! An entry has three columns: the Session-Id, the CC-Request-Number, and the place of the request in its book. [`find`] gives the
//! place of a key, and [`add`] puts one. The definitions stand in `specs/Keys`. What is said of values holds as long as no wrong answer
//! of the disk has been taken as true (the kit's `IsClean`).
#![tactic(auto)]

mod error;
mod keys;

pub use error::KeyError;
pub use keys::{add, find};
