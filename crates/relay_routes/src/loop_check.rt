//! Route-Records: what a relay adds to a request, and how it sees that a request came back.

ghost use Rattle.std.specs.Prelude.{◌≡◌, IfOk};
ghost use Rattle.dia_avp.specs.LentAvp.{avp_of};
ghost use Rattle.relay_routes.specs.Routing.{loops, names_node, is_record_of, record_of};

use dia_avp::layout::MANDATORY;
use dia_avp::{LentAvp, RawAvp, front_of};
use dia_base::Identity;
use dia_base::codes::ROUTE_RECORD;
use std::alloc::{AllocError, Global};

fn is_record(avp: LentAvp, node: &Identity) -> bool
    ensures { result ≡ is_record_of node.now (avp_of avp.entry) }
{
    avp.code == ROUTE_RECORD && avp.vendor == 0 && avp.value.eq_ignore_ascii_case(node.as_slice())
}

/// Whether a Route-Record of vendor 0 is this identity, without ASCII case: then the request was
/// here before (RFC 6733, section 6.1.3). It takes no memory.
pub fn names_me(me: &Identity, avps: &[RawAvp]) -> bool
    ensures { result ≡ names_node me.now avps.now }
{
    avps.iter().any(|avp| is_record(avp.lent(), me))
}

/// The same of the AVPs that octets spell, in one walk over them. Octets that spell none name nobody. It
/// takes no memory.
pub fn loops(me: &Identity, octets: &[u8]) -> bool
    ensures { result ≡ loops me.now octets.now }
{
    let mut named = false;
    let mut rest = octets;
    while !rest.is_empty() {
        let Ok((avp, behind)) = front_of(octets.len() - rest.len(), rest) else {
            return false;
        };
        named = named || is_record(avp, me);
        rest = behind;
    }
    named
}

/// The Route-Record that a relay appends, lent by the identity of the peer that sent the request (RFC 6733,
/// section 6.1.9). It takes no memory.
pub fn lent_record(peer: &Identity) -> LentAvp<'_>
    ensures { avp_of result ≡ record_of peer.now }
{
    LentAvp {
        code: ROUTE_RECORD,
        flags: MANDATORY,
        vendor: 0,
        value: peer.as_slice(),
    }
}

/// The same Route-Record, with a copy of the identity.
pub fn route_record(alloc: Global, peer: &Identity) -> Result<RawAvp, AllocError>
    ensures { IfOk result (λ avp. avp ≡ record_of peer.now) }
{
    lent_record(peer).copied(alloc)
}
