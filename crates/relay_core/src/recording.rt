//! A body with a Route-Record behind it (RFC 6733, sections 4.1 and 6.1.9).

ghost use Rattle.std.specs.Prelude.{◌≡◌, IfOk};
ghost use Rattle.relay_core.specs.Forwarding.{recorded, is_too_long};

use dia_avp::layout::padding_of;
use dia_avp::{AvpFault, Octets, with_lent};
use dia_base::{IDENTITY_LIMIT, Identity, MESSAGE_LIMIT};
use dia_message::HEADER_LEN;
use relay_routes::loop_check::lent_record;
use std::alloc::{AllocError, Global};

/// The octets before the value of an AVP without a vendor.
const AVP_HEADER_LEN: usize = 8;

/// A body with the Route-Record of a peer behind it: the last AVP gets the padding that it lacks first.
pub(crate) fn recorded(alloc: Global, peer: &Identity, body: &Octets) -> Result<Octets, AllocError>
    ensures { IfOk result (λ octets. octets ≡ recorded peer.now body.now) }
{
    prove!(peer.as_slice().len() <= IDENTITY_LIMIT);
    match with_lent(alloc, body, lent_record(peer)) {
        Ok(octets) => Ok(octets),
        Err(AvpFault::OutOfMemory) => Err(AllocError),
        Err(_) => unreachable!(),
    }
}

/// Whether the message would be too long with the Route-Record of a peer.
pub(crate) fn is_too_long(peer: &Identity, body: &Octets) -> bool
    ensures { result ≡ is_too_long (recorded peer.now body.now) }
{
    let body = body.as_slice().len();
    let record = AVP_HEADER_LEN + peer.as_slice().len();
    let added = padding_of(body) + record + padding_of(record);
    body > MESSAGE_LIMIT - HEADER_LEN - added
}
