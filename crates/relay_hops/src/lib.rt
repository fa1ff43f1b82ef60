//! The requests that a relay has sent and that are not answered yet, by connection and Hop-by-Hop
//! Identifier (RFC 6733, sections 3, 5.5.4 and 6.2).
//!
//! - [`Pending`]: the table, a finite map from a connection and an identifier to what is kept of a request. A
//!   request is added under an identifier that is free, settled when its answer comes, and moved when its
//!   connection ends.
//! - [`Row`], [`Held`], [`Origin`], [`Hop`]: what it holds; [`NotAdded`], [`PendingRefusal`]: why a request does
//!   not become pending.
//! - [`held_with_one_more`], [`held_with_one_less`], [`held_has_its_identifier`], [`the_first_is_the_least`],
//!   [`the_rest_are_in_use`] and others: laws, functions without a body. They speak of what is held under a
//!   key, so that another body than a list may take its place.
//! - [`one_identifier_is_given`], [`identifiers_rise_from_the_start`], [`places_in_use_are_passed_over`],
//!   [`there_are_twice_as_many_places`]: which identifier is given, with worked examples.
//!
//! What contracts see of the table stands in `specs/PendingTable`, and which identifier it gives in
//! `specs/Identifiers`.
//!
//! ```
//! use dia_base::ConnId;
//! use dia_message::Message;
//! use relay_hops::{Hop, NotAdded, Origin, Pending};
//!
//! fn sent_on(pending: &mut Pending, to: ConnId, from: ConnId, request: Message) -> Result<Hop, NotAdded> {
//!     let origin = Origin {
//!         conn: from,
//!         hop: request.header.hop,
//!     };
//!     pending.add(to, origin, request)
//! }
//! ```
#![tactic(auto)]

mod examples;
mod identifier;
mod index;
mod laws;
mod pending;
mod places;
mod row;

pub use examples::{
    identifiers_rise_from_the_start, one_identifier_is_given, places_in_use_are_passed_over,
    there_are_twice_as_many_places,
};
pub use laws::{
    free_is_without_a_row, held_has_its_identifier, held_with_one_less, held_with_one_more,
    held_without_origins, moved_is_out_and_in, sent_to_is_what_is_held, the_first_is_the_least,
    the_rest_are_in_use,
};
pub use pending::{NotAdded, Pending, PendingRefusal};
pub use row::{Held, Hop, Origin, Row};
