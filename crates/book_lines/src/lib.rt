//! An account book as text: what it comes to, and its entries, one on a line.
//!
//! - [`made_line`]: which book was made.
//! - [`summary`]: which book it is, how many entries it has, of each kind, and the moment and the sum of the last; and a line that
//!   begins with `look:` where it is nearly full ([`is_nearly_full`]).
//! - [`entry_lines`]: a line for each entry: what was asked, what it was answered, and what it debited; of a change of the
//!   terms the accounts that join and the tariffs from then on.
//! - [`kind_word`], [`push_quoted`]: how a kind of request and octets stand in such a line.
//! - [`push_difference_line`]: what a change would bring so that the terms of a site hold.
//!
//! The exact texts are `made_line` and `summary_of` in `specs/Summary`, and `lines_of` in `specs/Lines`, over the words of `specs/Words`.
#![tactic(auto)]

mod change;
mod charge;
mod counts;
mod entries;
mod fault;
mod services;
mod words;

pub use change::push_difference_line;
pub use counts::{is_nearly_full, made_line, summary};
pub use entries::entry_lines;
pub use fault::LinesFault;
pub use words::{kind_word, push_quoted};
