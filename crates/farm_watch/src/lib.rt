//! The life of a connection: who is at its other end, whether that node lives, and how the connection
//! ends (RFC 6733, sections 5.3 to 5.6).
//!
//! - [`Watch`]: one connection, as a table of states, which are named by what they wait for ([`Waits`]).
//!   An event comes with its moment, and [`Acts`] come out: what is sent, which node is up, what is the
//!   node's to read, and that the connection ends.
//! - [`WatchSite`]: what a node knows of itself and of its neighbours, for all of its connections. Which
//!   nodes are up is told with each message by those who keep the connections, so that a node comes up once.
//! - [`kind_of`]: which messages are of the connection, and which are the node's.
//! - [`is_named_in`], [`name_in`]: whom a message names as the one who writes it.
//! - [`Numbering`]: the End-to-End Identifiers of the requests of these lives, one count for all connections of a process.
//! - [`DisconnectCause`]: why a node says goodbye, and so whether it is to be connected to again.
//! - [`codes`]: the numbers of these messages.
//!
//! `specs/Table` is the table, `specs/PeerMessages` the messages octet for octet, `specs/Capabilities` what
//! is read of a neighbour, and `specs/Numbers` the numbers for definitions. `specs/Life` says what the acts of a
//! whole life are, and `specs/Passing` what a node is passed in it. `specs/Numbering` numbers the requests of a process.
//!
//! The functions of `laws` have no body: their contracts are laws of these definitions. Of a whole life, a node
//! comes up once, messages are passed only while it is up, and nothing comes behind the end
//! ([`peers_come_up_once_and_nothing_follows_the_end`]); what comes while it is up and is not of the connection's own life is passed,
//! each once and in order ([`what_comes_while_up_is_passed`]). Where a goodbye leaves closing to the other end, it drops nothing,
//! and the connection sends no request of its own behind it ([`nothing_is_lost_at_a_goodbye`]); elsewhere no connection waits to
//! be closed ([`goodbyes_are_kept_where_they_are_asked_for`]). The node is told that its neighbour leaves where that begins, and
//! never else ([`leaving_is_told_where_closing_is_left`]). A site that advertises no vendor changes no octet of what its nodes
//! write ([`no_vendor_adds_no_octet`]). A connection's own requests have no identifier that a relay gives
//! ([`connections_and_relays_number_apart`]). Where a process numbers them from end to end by the clock, no two within four
//! minutes have one identifier ([`own_requests_are_told_apart`]). Worked examples are laws too ([`neighbours_write_their_octets`], [`only_linked_nodes_are_welcome`], [`connections_begin_with_capabilities`],
//! [`watchdogs_ask_and_then_drop`], [`connections_end_with_disconnect_peer`],
//! [`goodbyes_leave_closing_to_the_other_end`]).
//!
//! ```
//! use dia_avp::ViewWire;
//! use farm_watch::{Act, Side, Watch, WatchSite};
//!
//! /// What a node reads of the first message on a connection that was made to it.
//! fn first(alloc: Global, site: &WatchSite, moment: Moment, message: Message) -> Result<Option<NodeNo>, AllocError> {
//!     let (mut watch, _nothing) = Watch::new(alloc, site, Side::Accepts, moment)?;
//!     let mut acts = watch.on_message::<ViewWire>(alloc, site, &[], moment, message)?;
//!     let _answer = acts.take_first();
//!     match acts.take_first() {
//!         Some(Act::PeerUp(node)) => Ok(Some(node)),
//!         _ => Ok(None),
//!     }
//! }
//! ```
#![tactic(auto)]

mod acts;
mod cause;
pub mod codes;
mod kind;
mod laws;
mod numbering;
mod reading;
mod site;
mod watch;
mod writing;

pub use acts::{Act, Acts};
pub use cause::DisconnectCause;
pub use kind::{MessageKind, kind_of};
pub use laws::{
    connections_and_relays_number_apart, connections_begin_with_capabilities,
    connections_end_with_disconnect_peer, goodbyes_are_kept_where_they_are_asked_for,
    goodbyes_leave_closing_to_the_other_end, leaving_is_told_where_closing_is_left,
    neighbours_write_their_octets, no_vendor_adds_no_octet, nothing_is_lost_at_a_goodbye,
    only_linked_nodes_are_welcome, own_requests_are_numbered_by_the_clock,
    own_requests_are_told_apart, peer_codes_are_defined,
    peers_come_up_once_and_nothing_follows_the_end, watchdogs_ask_and_then_drop,
    what_comes_while_up_is_passed,
};
pub use numbering::Numbering;
pub use reading::{is_named_in, name_in};
pub use site::{Application, Goodbyes, HostAddress, Neighbour, Side, WatchSite};
pub use watch::{Waits, Watch};
