//! The reading of AVPs by cuts of the buffer that they stand in: no value is copied.

ghost use Rattle.std.specs.Prelude.{◌≡◌, ◌≤◌, ◌<◌, ◌^◌, length, drop, IfOk, IsOkUnless, MatchOption};
ghost use Rattle.dia_avp.specs.AvpList.{Reads, Answers, BeginsWith, fault_at};

use crate::avp::RawAvp;
use crate::fault::AvpFault;
use crate::head::head_of;
use crate::octets::Octets;
use crate::wire::{DEPTH_LIMIT, Wire};
use crate::writer::write_avp;
use bytes::Bytes;
use std::alloc::Global;

/// The octets that an AVP of a request takes, or somewhat more.
const OCTETS_OF_ONE: usize = 16;

/// For how many AVPs there is room at once, at most.
const MOST_AT_ONCE: usize = 14;

/// The AVP that stands at a place of the buffer, and the octets behind its padding.
fn front_of<'a>(buffer: &Bytes, at: usize, octets: &'a [u8]) -> Result<(RawAvp, &'a [u8]), AvpFault>
    requires there { octets.now ≡ drop at buffer.now }
    requires within { at ≤ length buffer.now }
    requires small { length buffer.now < 2 ^ 63 }
    ensures found { IfOk result (λ x. BeginsWith octets.now x.0 x.1.now) }
    ensures fault { MatchOption (fault_at at octets.now) (IsOkUnless result AvpFault.OutOfMemory) (λ f. result ≡ Err f) }
{
    let head = head_of(at, octets)?;
    let avp = RawAvp {
        code: head.code,
        flags: head.flags,
        vendor: head.vendor,
        value: Octets::cut_of(buffer, at + head.value, at + head.padding)?,
    };
    let (_, rest) = octets.split_at(head.end);
    Ok((avp, rest))
}

/// For how many AVPs there is room at once when so many octets are read: as many as most messages have that are so long.
/// More are read as well.
fn room_for(length: usize) -> usize {
    (length / OCTETS_OF_ONE + 1).min(MOST_AT_ONCE)
}

/// The AVPs that the buffer spells, as cuts of it.
fn cuts_of(alloc: Global, buffer: &Bytes) -> Result<Vec<RawAvp>, AvpFault>
    ensures { Answers (Reads buffer.now) result }
{
    let length = buffer.len();
    let mut avps = Vec::with_capacity(alloc, room_for(length))?;
    let mut rest = buffer.as_slice();
    while !rest.is_empty() {
        let (avp, behind) = front_of(buffer, length - rest.len(), rest)?;
        avps.push(avp)?;
        rest = behind;
    }
    Ok(avps)
}

fn split(alloc: Global, body: &Octets) -> Result<Vec<RawAvp>, AvpFault>
    ensures { Answers (Reads body.now) result }
{
    let buffer = body.buffer(alloc)?;
    cuts_of(alloc, &buffer)
}

/// The reading by cuts. Of octets that are a cut it copies nothing: each value is a cut of the same buffer,
/// and keeps it alive. Other octets it copies once, and cuts the copy.
#[derive(Clone, Copy, PartialEq, Eq)]
pub struct ViewWire;

impl Wire for ViewWire {
    fn split(alloc: Global, body: &Octets) -> Result<Vec<RawAvp>, AvpFault> {
        split(alloc, body)
    }

    fn inside(alloc: Global, avp: &RawAvp, depth: u32) -> Result<Vec<RawAvp>, AvpFault> {
        if depth > DEPTH_LIMIT {
            return Err(AvpFault::TooDeep);
        }
        split(alloc, &avp.value)
    }

    fn spell(out: &mut Vec<u8>, avp: &RawAvp) -> Result<(), AvpFault> {
        write_avp(out, avp.code, avp.flags, avp.vendor, avp.value.as_slice())
    }
}
