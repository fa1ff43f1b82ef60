//! What every run of a farm keeps, whatever is lost, cut or sent again, over any graph of relays. No function here
//! does anything.
//!
//! A farm is seen as the messages on their way, the requests that relays await answers for, the book, and what
//! clients have sent and received. Each step of a farm is some moves, small changes that say little of where a
//! message stands; everything is said of one connection, one node that asks and one identifier, and never of the way
//! that a request takes.
//!
//! - [`moves_keep_a_farm`]: whatever moves are made, no request is answered more often than a client sent it, each
//!   answer is that of a front with the book's reply or the refusal of a node, no refusal answers twice, and the book's
//!   entries are requests of clients, sweeps that end sessions, and changes of the terms with which nothing is wrong.
//!
//! The definitions are in `specs/`: `Parties` (what stays the same), `Farm` (what changes), `Moves`, `Counts`,
//! `Answers`, `Invariant` and `Tally` (each error answer has a refusal of its own).
//!
//! ```text
//! use farm_law::moves_keep_a_farm;
//!
//! // A law of one's own stands on it by calling it.
//! fn my_law()
//!     ensures { .. }
//! {
//!     moves_keep_a_farm();
//! }
//! ```
#![tactic(auto)]

mod laws;

pub use laws::moves_keep_a_farm;
