//! The rows of a book that is stored: each entry with what was asked and answered, what it debited, and a sum.
//!
//! - [`spell_row`] writes a row as octets, and [`read_row`] reads it again, or says the first [`Fault`].
//! - [`chained_row`] makes a row whose sum is that of the sum before it and of its own octets, and [`is_chained`]
//!   tests that.
//! - [`About`] says what a stored book is, and [`Standing`] where it stands: each is written as octets and read again, and
//!   [`standing_behind`] reads where a book stands off its last row.
//! - Numbers, octets, accounts and tariffs are written and read by functions of their own, such as [`push_u32`] and
//!   [`u32_at`]: what else is stored of a book is spelled by the same forms.
//! - The laws: a row is read back from its octets, and two rows that spell the same are the same.
//!
//! The octets of a row, with integers whose highest octet is the first: place (8), moment (8), the kind of the entry
//! (1: 0 a sweep, 1 a request that was taken, 2 a change of the terms), for a taken request what was asked, the reply and
//! the debit, for a change the accounts that join and the tariffs from then on, if it says any, and last the sum (16). An octet 0 stands for what is not there, and an octet 1 stands before what is; 8 octets count the
//! octets of a text and the items of a list; a signed number is an octet that says whether it is below 0, and 16
//! octets of its size, or below 0 of its size less 1.
//!
//! A tariff is its group and its ident, what its units are (1: 0 time, 1 octets, 2 units), and block, price, quantum and
//! greatest (8 each). An account is its type (4), its id and its opening (signed).
//!
//! What a book is: the number of the format (4), the identity (16), and the terms, their octets counted by 8. Where it
//! stands: how many rows it has (8), and the moment (8) and the sum (16) of the last.
//!
//! The definitions, in `specs/`: `Form` says how values are spelled and read, `Parts` the parts of a row, `TermsParts`
//! accounts, tariffs and changes of terms, `Row` the row, its octets and the chain of sums, and `About` what a book is and
//! where it stands.
#![tactic(auto)]

mod about;
mod accounts;
mod change;
mod codec;
mod fault;
mod laws;
mod limits;
mod numbers;
mod reply;
mod request;
mod row;
mod sessions;
mod small;
mod tariffs;

pub use about::{
    About, FORMAT, Identity, Standing, read_about, read_standing, spell_about, spell_standing,
    standing_behind,
};
pub use accounts::{accounts_at, push_accounts};
pub use codec::{chained_row, is_chained, read_row, spell_row};
pub use fault::{Fault, ReadError};
pub use laws::{
    abouts_are_read_back, rows_are_spelled_once, spelled_rows_are_read_back,
    standings_are_of_the_last, standings_are_read_back,
};
pub use numbers::{
    octets_at, optional_u32_at, push_octets, push_optional_u32, push_signed, push_u8, push_u32,
    push_u64, signed_at, u8_at, u32_at, u64_at,
};
pub use row::{Row, Step, Sum, Taken};
pub use sessions::push_session;
pub use small::{i32_at, push_i32};
pub use tariffs::{push_tariffs, tariffs_at};
