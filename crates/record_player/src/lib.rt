//! Plays the records of a farm with the proved farm, entry by entry: that each node sent what the farm gives, that each request was
//! charged as it charges, and what the book comes to. Where the records contradict one another or the farm, it tells the first place.
//!
//! Each part has one owner, which alone changes it:
//!
//! - `played`: the farm, by its steps. At relays and clients that have a record nothing passes but what that tells, in its order
//!   (`farm_player::Reconciled`). `record_state`: what was read of the records and is not played.
//! - `links`: what relays and clients do, and how connections begin.
//! - [`Player`]: both, the requests of fronts, and the book. `farm_audit` asks it for the entries in an order in which they may happen.
//! - [`PlayFault`], [`Difference`]: why records are not played to their ends.
#![tactic(auto)]

mod fault;
mod links;
mod played;
mod player;

pub use fault::{Difference, PlayFault, PlayResult, found};
pub use player::Player;
