//! What an answer carries back of its request (RFC 6733, section 6.2): Session-Id and each Proxy-Info.

ghost use Rattle.std.specs.Prelude.{◌≡◌, ◌≤◌, ◌<◌, ◌-◌, ◌^◌, ◌+◌, ◌++◌, false, IfOk, OnOk};
ghost use Rattle.std.specs.Option.{SomeIff};
ghost use Rattle.dia_avp.specs.AvpReading.{split_of};
ghost use Rattle.cc_view.specs.Answer.Writing.{spelling_of};
ghost use Rattle.cc_view.specs.Answer.Carried.{carriable_avps, carries_too_much, is_carried, padded_len, proxies_in, session_in};

use crate::answer::draft::Draft;
use crate::view::matching::first_of;
use crate::view::splitting::readable;
use dia_avp::layout::{header_len, padding_of};
use dia_avp::{Octets, RawAvp, Wire};
use dia_base::codes::{PROXY_INFO, SESSION_ID};
use dia_grammar::is_of;
use std::alloc::{AllocError, Global};

/// The most octets that these AVPs may take together, with padding.
const CARRIED_LIMIT: usize = 49_152;

/// The AVPs of a body that an answer may carry back from: none where the body does not split, or
/// where too much would be carried.
pub(crate) fn carriable_avps<W: Wire>(
    alloc: Global,
    body: &Octets,
) -> Result<Vec<RawAvp>, AllocError>
    ensures value { IfOk result (λ avps. avps.items ≡ carriable_avps (split_of body.now)) }
    ensures few { IfOk result (λ avps. carries_too_much avps.items ≡ false) }
{
    let Some(avps) = readable(W::split(alloc, body))? else {
        return Ok(Vec::new(alloc));
    };
    if carries_too_much(&avps) {
        return Ok(Vec::new(alloc));
    }
    Ok(avps)
}

/// Adds the first Session-Id of these AVPs.
pub(crate) fn push_session(draft: &mut Draft, avps: &[RawAvp]) -> Result<(), AllocError>
    requires { carries_too_much avps.now ≡ false }
    ensures { OnOk result (draft.new ≡ draft.old ++ spelling_of (session_in avps.now)) }
{
    match first_of(avps, SESSION_ID) {
        Some(session) => draft.push_octets(SESSION_ID, session.value.as_slice()),
        None => Ok(()),
    }
}

/// Adds each Proxy-Info of these AVPs, in order.
pub(crate) fn push_proxies(draft: &mut Draft, avps: &[RawAvp]) -> Result<(), AllocError>
    requires { carries_too_much avps.now ≡ false }
    ensures { OnOk result (draft.new ≡ draft.old ++ spelling_of (proxies_in avps.now)) }
{
    for avp in avps {
        if is_of(avp, PROXY_INFO) {
            draft.push_copy(avp)?;
        }
    }
    Ok(())
}

/// Whether these AVPs take more octets than an answer may carry.
pub(crate) fn carries_too_much(avps: &[RawAvp]) -> bool
    ensures { result ≡ carries_too_much avps.now }
{
    let mut room = CARRIED_LIMIT;
    for avp in avps {
        if is_carried(avp) {
            match room_behind(room, avp) {
                Some(left) => room = left,
                None => return true,
            }
        }
    }
    false
}

fn is_carried(avp: &RawAvp) -> bool
    ensures { result ≡ is_carried avp.now }
{
    is_of(avp, SESSION_ID) || is_of(avp, PROXY_INFO)
}

/// The room that is left behind an AVP with its padding.
fn room_behind(room: usize, avp: &RawAvp) -> Option<usize>
    requires { room ≤ 49152 }
    ensures { SomeIff result (padded_len avp.now ≤ room) (room - padded_len avp.now) }
{
    let value = avp.value.as_slice().len();
    if value > room {
        return None;
    }
    let len = header_len(avp.flags) + value;
    room.checked_sub(len + padding_of(len))
}
