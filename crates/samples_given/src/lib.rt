//! What the sample programs are given: messages, a book, all fronts of a site as one node, and connections over streams in
//! memory. No product crate stands on it.
//!
//! - `messages`: the first debit, exchanges of capabilities, and texts in hexadecimal as octets.
//! - `account_book`: accounts, one tariff, and a book of both.
//! - `fronts`: all fronts of a site as one node that charges in steps and starts no thread.
//! - `streams`: readers and writers in memory, and how they go.
//! - `served`: a node whose connections are over such streams.
#![tactic(auto)]

mod account_book;
mod fronts;
mod messages;
mod served;
mod streams;

pub use account_book::{MONEY, ONE_ACCOUNT, VALIDITY, accounts, book};
pub use fronts::{FrontAt, Fronts, ROUND_LIMIT, front, fronts_of};
pub use messages::{CEA, CER, CLIENT_CER, DEBIT, debit, message, octets};
pub use served::{MOMENT, Reader, Served, Writer, accept, end_of, read, unsent, written};
pub use streams::{NEVER, Stream, Ways, stream_of};
