//! A row of the dictionary.

use dia_base::Code;

/// What an AVP's value is (RFC 6733, sections 4.2 to 4.4).
#[derive(Clone, Copy, Debug, PartialEq, Eq)]
pub enum Kind {
    Unsigned32,
    Unsigned64,
    Integer32,
    Integer64,
    Time,
    Enumerated,
    Utf8String,
    DiameterIdentity,
    OctetString,
    Address,
    Grouped,
}

/// What the dictionary says of an AVP.
#[derive(Clone, Copy, Debug, PartialEq, Eq)]
pub struct Row {
    pub code: Code,
    pub vendor: u32,
    pub name: &'static str,
    pub kind: Kind,
}
