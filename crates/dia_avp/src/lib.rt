//! Attribute-value pairs: lists of AVPs as octets, and back (RFC 6733, section 4.1).
//!
//! - [`Wire`]: reads and writes lists of AVPs. Its contract says which list or which fault octets
//!   read as and how an AVP is written, for any body. [`ViewWire`] reads by cuts of the buffer that the
//!   octets stand in, and copies no value; [`PlainWire`] is the plain one, with copies, for tests.
//! - [`front_of`]: the AVP that octets begin with, as a [`LentAvp`], and the octets behind it: who asks a body
//!   for a few things walks it so, and takes no memory.
//! - [`write_avp`]: the one writer of an AVP, for any value; [`with_avp`], [`with_lent`]: a body with one AVP more.
//! - [`RawAvp`]: an AVP whose value is not looked at. [`u32_of`], [`u64_of`], [`i32_of`] and
//!   [`i64_of`] read a value as a number. [`Octets`] are octets that contracts see as a list: a copy, or
//!   a cut of a buffer that lives as long as one of its cuts.
//! - [`layout`]: the flags, the lengths of header and padding.
//! - [`AvpFault`]: why octets are no list of AVPs, with the place of the first fault.
//!
//! `specs/AvpList` says which octets spell which list, as a relation on whole texts: the padding of
//! an AVP is any octets, and that of the last may be missing. Where octets spell no list, it says
//! which is the first fault. It also says how an AVP is written. `specs/AvpReading` computes the
//! reading as a function.
//!
//! The functions of `laws` have no body: their contracts are laws of these definitions, for the
//! proofs of the crates above. Octets have one reading, which is that function ([`one_reading`],
//! [`one_answer`], [`one_list`]); what is written is read back ([`written_is_read`],
//! [`written_list_is_read`]) and what was read can be written ([`read_is_writable`]); spellings
//! differ in their padding alone ([`only_padding_differs`]); and more AVPs may stand behind whole
//! ones ([`more_avps`]), or behind any with the padding that the last one may lack ([`one_avp_more`]).
//! Worked examples are laws too ([`octets_spell_their_avps`], [`first_fault_of_octets_is_told`],
//! [`avps_are_written_with_zero_padding`], [`one_avp_more_pads_the_last`], [`avp_lengths_end_at_24_bits`],
//! [`flags_are_bits_and_lengths_leave_padding_out`], [`values_are_numbers_in_network_order`]).
//!
//! ```
//! use dia_avp::{Octets, Wire, u32_of, with_avp};
//!
//! /// The body with its first AVP once more at its end, where that is an Unsigned32.
//! fn again<W: Wire>(alloc: Global, body: Octets) -> Result<Octets, AvpFault> {
//!     let avps = W::split(alloc, &body)?;
//!     match avps.first() {
//!         Some(avp) if u32_of(avp).is_some() => with_avp(alloc, &body, avp),
//!         _ => Ok(body),
//!     }
//! }
//! ```
#![tactic(auto)]

mod avp;
mod fault;
mod head;
mod laws;
pub mod layout;
mod lent;
mod number;
mod octets;
mod plain;
mod view;
mod wire;
mod writer;

pub use avp::RawAvp;
pub use fault::AvpFault;
pub use laws::{
    avp_lengths_end_at_24_bits, avps_are_written_with_zero_padding, first_fault_of_octets_is_told,
    flags_are_bits_and_lengths_leave_padding_out, more_avps, octets_spell_their_avps, one_answer,
    one_avp_more, one_avp_more_pads_the_last, one_list, one_reading, only_padding_differs,
    read_is_writable, values_are_numbers_in_network_order, written_is_read, written_list_is_read,
};
pub use lent::{LentAvp, front_of};
pub use number::{i32_of, i64_of, u32_of, u64_of};
pub use octets::Octets;
pub use plain::PlainWire;
pub use view::ViewWire;
pub use wire::{DEPTH_LIMIT, Wire};
pub use writer::{with_avp, with_lent, write_avp};
