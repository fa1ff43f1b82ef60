//! An AVP as it stands in a message.

ghost use Rattle.std.specs.Prelude.{◌≡◌};
ghost use Rattle.dia_avp.specs.LentAvp.{avp_of};

use crate::lent::LentAvp;
use crate::octets::Octets;

/// An AVP whose value is not looked at (RFC 6733, section 4.1). The vendor is 0 where the flags have no V.
#[derive(Debug, Drop, Clone, PartialEq, Eq)]
pub struct RawAvp {
    pub code: u32,
    pub flags: u8,
    pub vendor: u32,
    pub value: Octets,
}

impl RawAvp {
    /// The same AVP, lent.
    pub fn lent(&self) -> LentAvp<'_>
        ensures { avp_of result ≡ self.now }
    {
        LentAvp {
            code: self.code,
            flags: self.flags,
            vendor: self.vendor,
            value: self.value.as_slice(),
        }
    }
}
