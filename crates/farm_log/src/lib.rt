//! The lines of the log: how they are spelled, and how many there are at most.
//!
//! - [`Lines`]: where the records of a process go. Each is a line on standard error with the time, the level and the node, as text or
//!   as `key=value` ([`Format`]).
//! - [`Limiter`]: at most ten lines a second of one kind from one peer. Those that are held back are counted, and the count is told
//!   before the next line of that kind. Its memory is bounded by the numbers of kinds and of peers.
//!
//! That a line is what the record says is tested; what the limiter lets through is proved.
#![tactic(auto)]

mod count;
mod laws;
mod limiter;
mod line;
mod lines;
mod logfmt;

pub use count::{Count, LINE_LIMIT};
pub use laws::{few_lines_are_written, lines_are_written_or_counted};
pub use limiter::{Held, Limiter};
pub use line::{Format, Line};
pub use lines::Lines;
pub use logfmt::is_bare;
