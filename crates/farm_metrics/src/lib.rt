//! The metrics of a node: what it counts while it serves.
//!
//! - [`Tally`]: requests and answers, what was sent again or given up where connections were lost, and how long requests took.
//! - [`Answers`]: answers by Result-Code. [`Times`]: times by bounds. [`Clocks`]: since when requests are waiting.
//!   All times are of microseconds: whoever counts says what the clock says ([`Tally::set_clock`]).
//! - [`Peers`]: what is counted of each neighbour.
//! - [`Trend`]: what was counted during the last quarter of an hour.
//!
//! A count is an addition of 64 bits, and stays where it has come to the greatest number. No call fails: what there is no
//! memory for is counted, and told apart from nothing else.
#![tactic(auto)]

mod answers;
mod clocks;
mod peers;
mod reading;
mod tally;
mod times;
mod trend;

pub use answers::{Answers, CODE_LIMIT, CodeCount};
pub use clocks::{CLOCK_LIMIT, Clocked, Clocks};
pub use peers::{PeerConn, PeerCount, Peers};
pub use reading::code_of_answer;
pub use tally::Tally;
pub use times::{Micros, TimeRow, Times};
pub use trend::{Sample, TREND_LIMIT, TREND_STEP, Trend};
