//! A request comes: it is refused or forwarded (RFC 6733, section 6.1).

ghost use Rattle.std.specs.Prelude.{◌≡◌, true, IfOk, IsErr, OnErr, IsOkUnless, Ok, Err};
ghost use Rattle.dia_avp.specs.AvpReading.{split_of};
ghost use Rattle.cc_view.specs.Refusal.{avps_of};
ghost use Rattle.cc_view.specs.declared.refusal.Refusal.{Refusal as BodyRefusal};
ghost use Rattle.relay_core.specs.Giving.{GivesOne};
ghost use Rattle.relay_core.specs.RelayStep.{OnRequest, refusal_to};
ghost use Rattle.relay_core.specs.Routing.{node_for};
ghost use Rattle.relay_core.specs.Verdict.{decision};

use crate::deciding::verdict;
use crate::error::RelayError;
use crate::node::RelayNode;
use crate::reading::read_body;
use crate::recording::recorded;
use crate::routing::Routing;
use cc_view::{Refusal, ViewError, avps_of, refusal_bytes};
use dia_avp::Wire;
use dia_base::{ConnId, Identity, Listing};
use dia_message::{Message, Out};
use relay_hops::{Origin, Pending};
use std::alloc::Global;

/// A request of this sender is refused, and nothing of it is kept; or it goes out under an identifier of
/// the relay, and is pending until its answer comes. After an error nothing has changed.
pub(crate) fn on_request<W: Wire>(
    alloc: Global,
    routing: Routing,
    pending: &mut Pending,
    conn: ConnId,
    sender: &Identity,
    request: Message,
) -> Result<Out, RelayError>
    ensures ok { IfOk result (λ out. OnRequest (record { node = node_for routing.entry; pending = pending.old }) conn sender.now request out.items (record { node = node_for routing.entry; pending = pending.new })) }
    ensures given { request.header.request ≡ true → IfOk result (λ out. GivesOne pending.old out.items pending.new) }
    ensures err { OnErr result (pending.new ≡ pending.old) }
    ensures memory { IsOkUnless result RelayError.OutOfMemory }
{
    let Ok(reading) = read_body(request.body.as_slice()) else {
        return refuse_broken::<W>(alloc, routing.node, conn, &request);
    };
    match verdict(routing, pending, sender, &request, reading) {
        Ok(to) => forward(alloc, routing, pending, conn, sender, request, to),
        Err(code) => refuse::<W>(
            alloc,
            routing.node,
            conn,
            &request,
            &Refusal { code, failed: None },
        ),
    }
}

/// The request goes out on a connection, with the Route-Record of its sender behind it, and is pending
/// there: what was sent is kept, with where the request came from.
fn forward(
    alloc: Global,
    routing: Routing,
    pending: &mut Pending,
    conn: ConnId,
    sender: &Identity,
    request: Message,
    to: ConnId,
) -> Result<Out, RelayError>
    requires { decision (record { node = node_for routing; pending = pending.old }) sender.now request ≡ Ok to }
    ensures ok { IfOk result (λ out. OnRequest (record { node = node_for routing.entry; pending = pending.old }) conn sender.now request out.items (record { node = node_for routing.entry; pending = pending.new })) }
    ensures given { request.header.request ≡ true → IfOk result (λ out. GivesOne pending.old out.items pending.new) }
    ensures err { OnErr result (pending.new ≡ pending.old) }
    ensures memory { IsOkUnless result RelayError.OutOfMemory }
{
    let mut items = Vec::with_capacity(alloc, 1)?;
    let origin = Origin {
        conn,
        hop: request.header.hop,
    };
    let mut sent = Message {
        header: request.header,
        body: recorded(alloc, sender, &request.body)?,
    };
    let Ok(hop) = pending.add(to, origin, sent.clone()?) else {
        unreachable!()
    };
    sent.header.hop = hop;
    items.push_reserved((to, sent));
    Ok(Out {
        items: Listing::from_vec(items),
    })
}

/// The relay's own answer to a request that it does not forward.
fn refuse<W: Wire>(
    alloc: Global,
    node: &RelayNode,
    conn: ConnId,
    request: &Message,
    refusal: &Refusal,
) -> Result<Out, RelayError>
    ensures ok { IfOk result (λ out. out.items ≡ refusal_to node.now conn request.now refusal.now) }
    ensures memory { IsOkUnless result RelayError.OutOfMemory }
{
    let answer = refusal_bytes::<W>(alloc, &node.name, &node.realm, request, refusal)?;
    Ok(Out::of_one(alloc, conn, answer)?)
}

/// The same to a request whose body is no list of AVPs. The body is read once more, for the AVP at fault.
fn refuse_broken<W: Wire>(
    alloc: Global,
    node: &RelayNode,
    conn: ConnId,
    request: &Message,
) -> Result<Out, RelayError>
    requires { IsErr (split_of request.now.body) }
    ensures ok { IfOk result (λ out. (refusal : BodyRefusal) × (avps_of request.now.body ≡ Err refusal) × (out.items ≡ refusal_to node.now conn request.now refusal)) }
    ensures memory { IsOkUnless result RelayError.OutOfMemory }
{
    match avps_of::<W>(alloc, &request.body) {
        Err(ViewError::Refused(refusal)) => refuse::<W>(alloc, node, conn, request, &refusal),
        Err(ViewError::OutOfMemory) => Err(RelayError::OutOfMemory),
        Ok(_) => unreachable!(),
    }
}
