//! The terms of an account book as octets, which a stored book keeps beside its rows: its replies were made under them.
//!
//! - [`spell_terms`] writes terms as octets, and [`read_terms`] reads them again, or says the first
//!   [`Fault`](book_rows::Fault). Tariffs that no site can have are one.
//! - [`needed_change`] gives the change that leads from the terms that hold in a book to those of a site, or the first
//!   [`TermsKey`] that differs and that no change can bring.
//! - The laws: terms are read back from their octets, two terms that spell the same are the same, and a needed change leads to the
//!   terms that are wanted.
//!
//! The octets, with integers whose highest octet is the first: currency (4), exponent (signed), validity (4), the tariffs
//! and the accounts. Lists, texts, signed numbers, tariffs and accounts are spelled as in the rows of a book.
//!
//! The definitions, in `specs/`: `Terms` says how terms are spelled and read, `Difference` what two differ in, and
//! `Words` how that is printed.
#![tactic(auto)]

mod codec;
mod differences;
mod key;
mod laws;

pub use codec::{read_terms, spell_terms};
pub use differences::{NeededFault, needed_change};
pub use key::TermsKey;
pub use laws::{
    needed_changes_lead_there, terms_are_read_back, terms_are_spelled_once,
    terms_hold_where_nothing_is_needed, terms_that_hold_differ_in_no_key,
    terms_that_hold_need_no_change,
};
