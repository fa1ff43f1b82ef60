//! Why a node says goodbye.

ghost use Rattle.std.specs.Prelude.{◌≡◌, IfOk};
ghost use Rattle.farm_watch.specs.Capabilities.{avps_in};
ghost use Rattle.farm_watch.specs.Causes.{cause_in, cause_of};

use crate::codes::{BUSY, DISCONNECT_CAUSE, DO_NOT_WANT_TO_TALK_TO_YOU};
use crate::reading::{first_of, has_number, readable};
use dia_avp::{Octets, RawAvp, Wire};
use std::alloc::{AllocError, Global};

/// Why a node says goodbye, as the Disconnect-Cause of its Disconnect-Peer-Request tells (RFC 6733, section 5.4.3).
#[derive(Clone, Copy, Debug, PartialEq, Eq)]
pub enum DisconnectCause {
    /// REBOOTING, another number, or none that can be read: it may be connected to again.
    Rebooting,
    /// BUSY: its resources are short. It is not to be connected to again.
    Busy,
    /// DO_NOT_WANT_TO_TALK_TO_YOU: it expects no message to be exchanged soon. It is not to be connected to again.
    Unwanted,
}

/// Why a node says goodbye whose Disconnect-Peer-Request has this body.
pub(crate) fn cause_in<W: Wire>(alloc: Global, body: &Octets) -> Result<DisconnectCause, AllocError>
    ensures { IfOk result (λ cause. cause ≡ cause_in (avps_in body.now)) }
{
    let avps = readable(W::split(alloc, body), alloc)?;
    match first_of(&avps, DISCONNECT_CAUSE) {
        Some(avp) => Ok(cause_of(avp)),
        None => Ok(DisconnectCause::Rebooting),
    }
}

/// The cause that a Disconnect-Cause tells.
fn cause_of(avp: &RawAvp) -> DisconnectCause
    ensures { result ≡ cause_of avp.now }
{
    if has_number(avp, BUSY) {
        DisconnectCause::Busy
    } else if has_number(avp, DO_NOT_WANT_TO_TALK_TO_YOU) {
        DisconnectCause::Unwanted
    } else {
        DisconnectCause::Rebooting
    }
}
