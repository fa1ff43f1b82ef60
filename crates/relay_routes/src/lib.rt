//! The routes of a relay, and the loops that it must not go round (RFC 6733, sections 6.1.3, 6.1.6
//! and 6.1.9).
//!
//! - [`Routes`], [`Route`]: which peers a request of a realm and an application may be sent to;
//!   [`RouteFault`]: why there are none.
//! - [`loop_check`]: whether a request was at a node before, and the Route-Record that a relay appends.
//! - [`loops_have_a_record_of_the_node`], [`same_loop`], [`candidates_are_of_the_first_route`] and others: laws, functions without a body;
//!   [`candidates_go_by_realm_and_application`], [`records_name_whole_identities`]: worked examples, likewise.
//!
//! What a loop is, and what the candidates are, stands in `specs/Routing`.
//!
//! ```
//! use dia_base::NodeNo;
//! use relay_routes::Routes;
//!
//! fn first_candidate(routes: &Routes, realm: &[u8], app: u32) -> Option<NodeNo> {
//!     match routes.candidates(realm, app) {
//!         Ok(peers) => peers.first().copied(),
//!         Err(_unknown) => None,
//!     }
//! }
//! ```
#![tactic(auto)]

mod laws;
pub mod loop_check;
mod routes;

pub use laws::{
    added_record_names, candidates_are_of_the_first_route, candidates_go_by_realm_and_application,
    loops_have_a_record_of_the_node, names_with_more, records_name_whole_identities, same_loop,
};
pub use routes::{Route, RouteFault, Routes};
