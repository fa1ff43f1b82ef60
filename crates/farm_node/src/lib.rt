//! One face for the nodes of a farm: what happens to a node, what it sends then, and why it does not do what it is
//! told.
//!
//! - [`Node`]: a node by its events. Those who have connections tell it what happens on them, and send what it says.
//! - [`Reaction`]: what a node sends at an event, and whether it did what it was told.
//! - [`NodeError`]: why not. It is small and takes no memory, so that it can be counted and logged.
//! - [`Refused`]: what a log says of a request that was refused; [`Refuses`]: a node that refuses requests at another time than it
//!   is told of them.
//!
//! A relay ([`relay_core::Relay`], [`relay_core::MatchingRelay`] around one and [`relay_core::PartingRelay`] around that) and a front ([`front_core::Front`]) are
//! nodes. `specs/Events` says what may happen to
//! a node, and `specs/Nodes` what each of them does then: it is the step of the crate that the node is of, and nothing
//! besides.
//!
//! ```
//! use dia_avp::ViewWire;
//! use farm_node::{Node, Reaction};
//!
//! /// A message comes on a new connection of a node.
//! fn first<N: Node>(node: &mut N, alloc: Global, me: NodeNo, peer: NodeNo, message: Message) -> Reaction {
//!     let _up = node.on_up(alloc, me, peer, ConnId(1));
//!     node.on_message::<ViewWire>(alloc, ConnId(1), message)
//! }
//! ```
#![tactic(auto)]

mod error;
mod front;
mod node;
mod refused;
mod relay;

pub use error::NodeError;
pub use node::{Node, Reaction};
pub use refused::{Refused, Refuses, is_of_credit, result_code};
