//! Where the nodes of a site listen, and who connects to whom: what a process has to know before it opens a socket. Peers are
//! found in the site file alone (RFC 6733, section 5.2, step 1).
//!
//! - [`Endpoint`]: a node that a process is, with the address that it listens on and the nodes that it connects to.
//! - [`endpoint_of_relay`], [`endpoint_of_client`], [`fronts_of`] with [`endpoint_of`]: the endpoints of one process, or why it
//!   has none ([`EndpointFault`]).
//! - [`socket_of`]: the address of a node.
//! - [`callers_of`]: the nodes that the site has connect to one. They are those whose [`Endpoint`] has it among its calls
//!   ([`callers_call`]).
//!
//! Directions are the site file's: of two nodes that are linked the first one connects. `specs/Endpoints` says all of
//! this of the site alone.
#![tactic(auto)]

mod endpoint;
mod fault;
mod laws;
mod names;
mod socket;

pub use endpoint::{Endpoint, endpoint_of, endpoint_of_client, endpoint_of_relay, fronts_of};
pub use fault::{EndpointFault, Role};
pub use laws::callers_call;
pub use names::callers_of;
pub use socket::socket_of;
