//! What every crate of the farm speaks of.
//!
//! - [`Identity`]: the name of a node or a realm (RFC 6733, section 4.3.1). It is read exactly where
//!   it is 1 to 255 visible ASCII octets; equality, order and hash go without ASCII case.
//! - [`Listing`]: items in order, which contracts see as a list.
//! - [`ConnId`], [`Moment`], [`Code`], [`NodeNo`]: numbers with names of their own; [`NodeKind`]: what
//!   a node does.
//! - [`codes`]: the numbers of commands, applications and AVPs that code names.
//! - the limits of the farm, as constants.
//!
//! What an identity is stands in `specs/Identity`, and how it is compared in `specs/Folding`.
//! `specs/Codes` and `specs/Limits` have the same numbers for definitions, and `specs/Answering` what a
//! call answers that may run out of memory. `proofs/Counting` and `proofs/Finding` are lemmas on lists
//! for the crates above: how many elements pass a test, and which is the first.
//!
//! The functions of `laws` have no body: their contracts are laws of these definitions, for the proofs
//! of the crates above. [`identities_are_visible_octets`] and [`identities_are_equal_without_case`] are worked
//! examples.
//!
//! ```
//! use dia_base::{Identity, IdentityFault, Listing, codes::ROUTE_RECORD};
//!
//! fn names(alloc: Global) -> Result<Listing<Identity>, IdentityFault> {
//!     let mut names = Listing::empty(alloc);
//!     for name in [b"r1.example".as_slice(), b"f1.example"] {
//!         let name = Identity::read(alloc, name)?;
//!         names.push(name).map_err(|_| IdentityFault::OutOfMemory)?;
//!     }
//!     Ok(names)
//! }
//! ```
#![tactic(auto)]

pub mod codes;
mod identity;
mod laws;
mod limit;
mod listing;
mod node;
mod number;

pub use identity::{IDENTITY_LIMIT, Identity, IdentityFault};
pub use laws::{
    codes_are_defined, equal_without_case, identities, identities_are_equal_without_case,
    identities_are_visible_octets, limits_are_defined,
};
pub use limit::{
    HISTORY_LIMIT, MESSAGE_LIMIT, PENDING_LIMIT, QUEUE_LIMIT, SCHEDULE_LIMIT, SERVICE_LIMIT,
    STEP_LIMIT, WORKER_LIMIT,
};
pub use listing::Listing;
pub use node::NodeKind;
pub use number::{Code, ConnId, Moment, NodeNo};
