//! The table of the connections of one process, between its sockets and its node: no socket stands here, and nothing waits.
//! Each connection has a peer state machine of its own, a `Watch` of `farm_watch` (RFC 6733, section 5.6).
//!
//! - [`Serving`]: a node with its connections over any readers and writers. Those who have sockets hand new ones in
//!   ([`Serving::accept`], [`Serving::connect`]), say which are ready ([`Serving::readable`], [`Serving::writable`]) and
//!   what time it is ([`Serving::tick`], which sends watchdogs and finds failed peers: section 5.5), end them all by
//!   Disconnect-Peer-Request ([`Serving::close_all`]: section 5.4), and take out those that have ended ([`Serving::take_ended`]).
//!   What happens is recorded, where they hand in a recorder ([`Serving::begin_record`]).
//! - [`End`]: why a connection has ended; [`Note`]: what an operator may want to read of it.
//! - [`NameRule`]: by which name a node comes up that was connected to.
//! - [`UNKNOWN_LIMIT`], [`LINGER`], [`NOTE_LIMIT`]: the limits.
#![tactic(auto)]

mod counting;
mod desk;
mod end;
mod laws;
mod link;
mod local;
mod naming;
mod note;
mod recording;
mod serving;
mod ticking;

pub use desk::Desk;
pub use end::{End, Ended, NotTaken, Refusal};
pub use laws::{
    connections_stand_in_order, misnamed_nodes_are_dropped, nodes_are_told_in_turn,
    records_change_nothing,
};
pub use link::{LINGER, Link, Standing};
pub use local::LocalNode;
pub use naming::NameRule;
pub use note::{NOTE_LIMIT, Note, Notes};
pub use serving::{Serving, UNKNOWN_LIMIT};
