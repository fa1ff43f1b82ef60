//! The AVP dictionary: which codes have which names and kinds of values (RFC 6733, section 4.5; RFC
//! 8506, section 8).
//!
//! - [`row_of`], [`name_of`], [`kind_of`], [`code_of_name`]: what the dictionary says of an AVP. It has
//!   64 rows of vendor 0, in one table in `rows`, from which all calls are made.
//! - [`typed`]: an AVP as a [`Typed`] value, by the kind of its row, or the [`DictFault`];
//!   [`reading_fault`] gives the fault alone, and copies nothing.
//! - [`spell_typed`]: writes the AVP that has a value. [`Text`] is a text that contracts see as octets.
//!
//! `specs/Dictionary` has the rows for definitions, `specs/Values` the values of each kind and how they
//! stand as octets, and `specs/Reading` what an AVP reads as and what is written for a value.
//!
//! The functions of `laws` have no body: their contracts are laws of these definitions. Names and
//! codes match one to one ([`names_and_codes`]), the codes that `dia_base` names are those of the rows
//! under these names ([`codes_have_names`]), no AVP of a vendor has a row ([`vendors_have_no_rows`]), and what
//! is written is read back ([`value_is_read`]). Worked examples say octets and faults
//! ([`each_kind_is_written_in_its_octets`], [`other_kinds_are_not_written`]).
//!
//! ```
//! use dia_base::{Code, codes::RATING_GROUP};
//! use dia_dict::{DictFault, Typed, spell_typed, typed};
//!
//! /// Adds the Rating-Group that an AVP has as its number.
//! fn add_group(alloc: Global, out: &mut Vec<u8>, avp: &RawAvp) -> Result<(), DictFault> {
//!     match typed(alloc, avp)? {
//!         Typed::Unsigned32(group) => spell_typed(out, Code(RATING_GROUP), &Typed::Unsigned32(group)),
//!         _ => Ok(()),
//!     }
//! }
//! ```
#![tactic(auto)]

mod check;
mod fault;
mod laws;
mod reading;
mod row;
mod rows;
mod spelling;
mod text;
mod value;

pub use fault::DictFault;
pub use laws::{
    codes_have_names, each_kind_is_written_in_its_octets, names_and_codes,
    other_kinds_are_not_written, value_is_read, vendors_have_no_rows,
};
pub use row::{Kind, Row};
pub use rows::{code_of_name, kind_of, name_of, reading_fault, row_of, spell_typed, typed};
pub use text::Text;
pub use value::Typed;
