//! The plain reading and writing of AVPs: over slices, with copies.

ghost use Rattle.std.specs.Prelude.{◌≡◌, IfOk, IsOkUnless, MatchOption};
ghost use Rattle.dia_avp.specs.AvpList.{Reads, Answers, BeginsWith, fault_at};

use crate::avp::RawAvp;
use crate::fault::AvpFault;
use crate::head::head_of;
use crate::octets::Octets;
use crate::wire::{DEPTH_LIMIT, Wire};
use crate::writer::write_avp;
use std::alloc::Global;

/// The AVP that the octets begin with, and what stands behind its padding.
fn front_of<'a>(alloc: Global, at: usize, octets: &'a [u8]) -> Result<(RawAvp, &'a [u8]), AvpFault>
    ensures found { IfOk result (λ x. BeginsWith octets.now x.0 x.1.now) }
    ensures fault { MatchOption (fault_at at octets.now) (IsOkUnless result AvpFault.OutOfMemory) (λ f. result ≡ Err f) }
{
    let head = head_of(at, octets)?;
    let avp = RawAvp {
        code: head.code,
        flags: head.flags,
        vendor: head.vendor,
        value: Octets::copy_of(alloc, &octets[head.value..head.padding])?,
    };
    let (_, rest) = octets.split_at(head.end);
    Ok((avp, rest))
}

/// The plain reading and writing.
#[derive(Clone, Copy, PartialEq, Eq)]
pub struct PlainWire;

fn split(alloc: Global, octets: &[u8]) -> Result<Vec<RawAvp>, AvpFault>
    ensures { Answers (Reads octets.now) result }
{
    let mut avps = Vec::new(alloc);
    let mut rest = octets;
    while !rest.is_empty() {
        let (avp, behind) = front_of(alloc, octets.len() - rest.len(), rest)?;
        avps.push(avp)?;
        rest = behind;
    }
    Ok(avps)
}

impl Wire for PlainWire {
    fn split(alloc: Global, body: &Octets) -> Result<Vec<RawAvp>, AvpFault> {
        split(alloc, body.as_slice())
    }

    fn inside(alloc: Global, avp: &RawAvp, depth: u32) -> Result<Vec<RawAvp>, AvpFault> {
        if depth > DEPTH_LIMIT {
            return Err(AvpFault::TooDeep);
        }
        split(alloc, avp.value.as_slice())
    }

    fn spell(out: &mut Vec<u8>, avp: &RawAvp) -> Result<(), AvpFault> {
        write_avp(out, avp.code, avp.flags, avp.vendor, avp.value.as_slice())
    }
}
