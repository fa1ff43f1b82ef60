//! AVPs that are lent: octets are walked AVP by AVP, and nothing is copied or kept.

ghost use Rattle.std.specs.Prelude.{◌≡◌, IfOk, IsOk, MatchOption};
ghost use Rattle.dia_avp.specs.AvpList.{BeginsWith, fault_at};
ghost use Rattle.dia_avp.specs.LentAvp.{avp_of};

use crate::avp::RawAvp;
use crate::fault::AvpFault;
use crate::head::head_of;
use crate::octets::Octets;
use std::alloc::{AllocError, Global};

/// An AVP whose value is lent by the octets that it stands in. The vendor is 0 where the flags have no V.
#[derive(Clone, Copy)]
pub struct LentAvp<'a> {
    pub code: u32,
    pub flags: u8,
    pub vendor: u32,
    pub value: &'a [u8],
}

impl LentAvp<'_> {
    /// The same AVP with a copy of the value.
    pub fn copied(self, alloc: Global) -> Result<RawAvp, AllocError>
        ensures { IfOk result (λ avp. avp ≡ avp_of self.entry) }
    {
        Ok(RawAvp {
            code: self.code,
            flags: self.flags,
            vendor: self.vendor,
            value: Octets::copy_of(alloc, self.value)?,
        })
    }
}

/// The AVP that the octets begin with, and what stands behind its padding. A fault tells the place that
/// they stand at. It takes no memory.
pub fn front_of(at: usize, octets: &[u8]) -> Result<(LentAvp<'_>, &[u8]), AvpFault>
    ensures found { IfOk result (λ x. BeginsWith octets.now (avp_of x.0) x.1.now) }
    ensures fault { MatchOption (fault_at at octets.now) (IsOk result) (λ f. result ≡ Err f) }
{
    let head = head_of(at, octets)?;
    let avp = LentAvp {
        code: head.code,
        flags: head.flags,
        vendor: head.vendor,
        value: &octets[head.value..head.padding],
    };
    let (_, rest) = octets.split_at(head.end);
    Ok((avp, rest))
}
