//! The peers of a relay: the identity and the kind of each, and the connection of each that is up (RFC 6733,
//! section 2.6; section 5.5.4 for what a lost connection means).
//!
//! - [`Peers`]: the linked peers, found by number and by identity, and a map from those that are up to their
//!   connections. A peer has one connection at most, and a connection one peer.
//! - [`Staying`]: the connections of those that have not said goodbye.
//! - [`LinkedPeer`], [`Link`], [`UpFault`]: what it holds, and why a peer does not come up.
//! - [`each_finds_the_other`], [`conns_after_up`], [`conns_after_down`]: laws, functions without a body;
//!   [`peers_are_found_without_case`], [`peers_are_up_on_one_connection`]: worked examples, likewise.
//!
//! What contracts see of the table stands in `specs/PeerTable`.
//!
//! ```
//! use dia_base::{ConnId, NodeNo};
//! use relay_peers::{LinkedPeer, Peers, UpFault};
//! use std::alloc::Global;
//!
//! fn after_one(alloc: Global, peer: LinkedPeer) -> Result<Option<ConnId>, UpFault> {
//!     let number = peer.peer;
//!     let mut linked = Vec::with_capacity(alloc, 1).map_err(|_| UpFault::OutOfMemory)?;
//!     linked.push_reserved(peer);
//!     let mut peers = Peers::new(alloc, linked);
//!     peers.up(number, ConnId(1))?;
//!     Ok(peers.conn_of(number))
//! }
//! ```
#![tactic(auto)]

mod laws;
mod peers;
mod staying;

pub use laws::{
    conns_after_down, conns_after_up, each_finds_the_other, peers_are_found_without_case,
    peers_are_up_on_one_connection,
};
pub use peers::{Link, LinkedPeer, Peers, UpFault};
pub use staying::Staying;
