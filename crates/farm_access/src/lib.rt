//! Who may come up: the keys `from` of the nodes of a site file, and `strict` of the file.
//!
//! ```text
//! strict = ["names", "end-to-end", "goodbyes", "origin-state", "fairness"] # absent: []
//!
//! [[node]]
//! name = "c1.example"
//! kind = "client"
//! from = ["192.0.2.0/24", "2001:db8::7"] # at most 64; absent: from any address; []: from none
//! ```
//!
//! A name that a peer gives itself proves nothing. Where a node has the key `from`, only a peer at one of these addresses
//! may give itself the name. With the word `names` in `strict`, a node comes up by connecting only where the site has it as
//! the side that connects, or it has the key `from`; and a node that was connected to, only where its answer names it. The
//! other words are of no account here: who serves asks for them ([`Access::strictness`]). All other keys of the file are
//! `farm_site`'s.
//!
//! - [`Prefix`]: the addresses that begin with the same bits.
//! - [`AddressRule`]: from where a node may connect.
//! - [`Strict`], [`Strictness`]: what a site asks for beyond what a peer meets by default.
//! - [`Access`]: who may come up, as the file of a site spells it. [`Access::may_come_up`] is the one rule, by how a node
//!   comes ([`Coming`]), and [`Access::barred`] are those that it keeps from a connection that somebody has made.
//! - [`AccessFault`]: why a text spells no such thing, with the words that are printed.
//! - [`canonical`]: an address as it is compared.
//! - [`names_are_held_to`], [`addresses_alone_decide_without_names`], [`names_only_bar`], [`barred_are_those_who_may_not`]:
//!   laws of the rule.
//!
//! `specs/Prefixes` says what a prefix is and which text writes one, `specs/Strictness` what `strict` asks for, `specs/Rules`
//! who may come up, and `specs/Spelling` what a file spells, and why another one spells nothing.
#![tactic(auto)]

mod access;
mod coming;
mod fault;
mod laws;
mod prefix;
mod reading;
mod strict;

pub use access::{Access, canonical};
pub use coming::{AddressRule, Coming};
pub use fault::AccessFault;
pub use laws::{
    addresses_alone_decide_without_names, barred_are_those_who_may_not, names_are_held_to,
    names_only_bar,
};
pub use prefix::Prefix;
pub use strict::{Strict, Strictness};
