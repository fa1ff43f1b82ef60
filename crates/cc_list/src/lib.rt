//! The account book of `cc_book` once more, kept as lists: for tests.
//!
//! [`ListBook`] answers as [`cc_book::Book`] does, by the same contracts over the same definitions. It keeps no map and no
//! total: a request is looked for among all entries, a session among all that are open, and what is reserved of an
//! account is added up at each call. So both agree by proof, and a program that runs both sees it.
//!
//! What a request does where so much stands is not written twice: [`cc_book::Terms::outcome_of`] finds it for whatever
//! keeps balances and open sessions ([`cc_book::Lookup`]).
#![tactic(auto)]

mod book;
mod key;
mod standing;

pub use book::ListBook;
