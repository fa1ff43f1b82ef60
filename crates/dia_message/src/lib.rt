//! Diameter messages: the header, and the messages of a stream (RFC 6733, section 3).
//!
//! - [`Message`]: a [`Header`] and its AVPs as octets; [`spell_message`] writes it, [`whole_message`]
//!   reads octets that are one message and nothing else.
//! - [`Frames`]: the messages of a stream that comes in pieces. A [`FrameFault`] says why the rest
//!   begins with no message, and stays.
//! - [`Out`]: what a node sends for one event. [`read_header`] and [`write_header`]: the 20 octets of a
//!   header alone.
//!
//! `specs/Header` says where the fields stand, `specs/Spelling` which octets spell which message,
//! `specs/Stream` what the messages of a stream are, as a relation and as a function, and
//! `specs/Feeding` what a reader of pieces answers and keeps. `specs/Traffic` is the type of messages
//! on their way.
//!
//! The functions of `laws` have no body: their contracts are laws of these definitions. Headers and
//! messages are read back ([`one_header`], [`one_spelling`]), octets are one stream ([`one_stream`],
//! [`first_message`]), and no cut into pieces matters ([`no_cut`]). Worked examples are laws too
//! ([`headers_spell_twenty_octets`], [`octets_are_one_whole_message`], [`streams_give_their_whole_messages`],
//! [`stream_faults_are_seen_early`], [`messages_end_at_their_limit`]).
//!
//! ```
//! use dia_message::{FrameFault, Frames, Out};
//!
//! /// What a piece of a connection's stream brings, sent back on the same connection.
//! fn echo(alloc: Global, frames: &mut Frames, conn: ConnId, piece: &[u8]) -> Result<Out, FrameFault> {
//!     let mut out = Out::nothing(alloc);
//!     for message in frames.feed(alloc, piece)? {
//!         out.items.push((conn, message))?;
//!     }
//!     Ok(out)
//! }
//! ```
#![tactic(auto)]

mod frames;
mod header;
mod laws;
mod message;

pub use frames::{FrameFault, Frames, whole_message};
pub use header::{HEADER_LEN, Header, ReadHeader, read_header, write_header};
pub use laws::{
    first_message, headers_spell_twenty_octets, messages_end_at_their_limit, no_cut,
    octets_are_one_whole_message, one_header, one_spelling, one_stream,
    stream_faults_are_seen_early, streams_give_their_whole_messages,
};
pub use message::{Message, Out, spell_message};
