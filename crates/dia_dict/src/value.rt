//! Values of AVPs.

ghost use Rattle.std.specs.Prelude.{◌≡◌};
ghost use Rattle.dia_dict.specs.Values.{kind_in};

use crate::row::Kind;
use crate::text::Text;
use dia_avp::Octets;

/// The value of an AVP, by its kind (RFC 6733, sections 4.2 to 4.4).
#[derive(Clone, Drop, PartialEq, Eq)]
pub enum Typed {
    Unsigned32(u32),
    Unsigned64(u64),
    Integer32(i32),
    Integer64(i64),
    /// Seconds since 1900, as SNTP counts them.
    Time(u32),
    Enumerated(i32),
    Utf8String(Text),
    /// The octets as they stand: whether they are an identity is not looked at.
    DiameterIdentity(Octets),
    OctetString(Octets),
    /// Two octets of the address family, and the address.
    Address(Octets),
    /// The octets of the group's AVPs.
    Grouped(Octets),
}

impl Typed {
    /// The kind of the value.
    pub fn kind(&self) -> Kind
        ensures { result ≡ kind_in self.now }
    {
        match self {
            Typed::Unsigned32(_) => Kind::Unsigned32,
            Typed::Unsigned64(_) => Kind::Unsigned64,
            Typed::Integer32(_) => Kind::Integer32,
            Typed::Integer64(_) => Kind::Integer64,
            Typed::Time(_) => Kind::Time,
            Typed::Enumerated(_) => Kind::Enumerated,
            Typed::Utf8String(_) => Kind::Utf8String,
            Typed::DiameterIdentity(_) => Kind::DiameterIdentity,
            Typed::OctetString(_) => Kind::OctetString,
            Typed::Address(_) => Kind::Address,
            Typed::Grouped(_) => Kind::Grouped,
        }
    }
}
