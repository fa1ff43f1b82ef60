//! What becomes of a request, rule by rule (RFC 6733, sections 6.1.1 to 6.1.6).

ghost use Rattle.std.specs.Prelude.{◌≡◌, Ok};
ghost use Rattle.std.specs.Option.{option_copied};
ghost use Rattle.relay_core.specs.NextHop.{conn_for, deliverable, first_conn, hop_to_host, next_hop, outgoing};
ghost use Rattle.relay_core.specs.Outgoing.{drawn};
ghost use Rattle.relay_core.specs.Reading.{IsReadingOf, avps_in_octets};
ghost use Rattle.relay_core.specs.Routing.{node_for};
ghost use Rattle.relay_core.specs.Verdict.{is_for_itself, verdict, with_no_avp};

use crate::outgoing::Outgoing;
use crate::reading::Reading;
use crate::recording::is_too_long;
use crate::routing::Routing;
use cc_view::ResultCode;
use dia_base::{ConnId, Identity, NodeKind, NodeNo};
use dia_message::Message;
use relay_hops::Pending;
use relay_routes::RouteFault;
use relay_routes::loop_check::loops;

/// What becomes of a request of this sender in which this was read: the connection that it is forwarded on, or
/// the code that it is refused with. The rules stand in the order in which they decide. It takes no
/// memory.
pub(crate) fn verdict(
    routing: Routing,
    pending: &Pending,
    sender: &Identity,
    request: &Message,
    reading: Reading,
) -> Result<ConnId, ResultCode>
    requires { IsReadingOf request.now.body reading }
    ensures { with_no_avp result ≡ verdict (record { node = node_for routing.entry; pending = pending.now }) sender.now request.now (Ok (avps_in_octets request.now.body)) }
{
    let name = &routing.node.name;
    if reading.records.is_some_and(|octets| loops(name, octets)) {
        return Err(ResultCode::LoopDetected);
    }
    if !request.header.proxiable {
        return Err(ResultCode::CommandUnsupported);
    }
    if reading.host.is_some() && reading.realm.is_none() {
        return Err(ResultCode::UnableToDeliver);
    }
    if is_for_itself(name, reading.host, reading.realm) {
        return Err(ResultCode::ApplicationUnsupported);
    }
    if is_too_long(sender, &request.body) {
        return Err(ResultCode::UnableToDeliver);
    }
    let conn = next_hop(routing, request, reading, Some(sender))?;
    if pending.is_full() {
        return Err(ResultCode::TooBusy);
    }
    Ok(conn)
}

/// Whether a request is for the relay itself: it names it, or nobody.
fn is_for_itself(name: &Identity, host: Option<&[u8]>, realm: Option<&[u8]>) -> bool
    ensures { result ≡ is_for_itself name.now (option_copied host.entry) (option_copied realm.entry) }
{
    match host {
        Some(host) => name.as_slice().eq_ignore_ascii_case(host),
        None => realm.is_none(),
    }
}

/// The connection that a request in which this was read goes out on: to a linked peer that it names as its host, else
/// to the first candidate of its realm and its application that is up. A peer that one of its Route-Records names is
/// passed over. It takes no memory.
pub(crate) fn next_hop(
    routing: Routing,
    request: &Message,
    reading: Reading,
    sender: Option<&Identity>,
) -> Result<ConnId, ResultCode>
    requires { IsReadingOf request.now.body reading }
    ensures { result ≡ next_hop (node_for routing.entry) (outgoing (option_copied sender.entry) (avps_in_octets request.now.body)) request.now.header.application }
{
    let going = Outgoing {
        records: reading.records,
        sender,
    };
    if let Some(peer) = reading.host.and_then(|host| routing.node.peers.named(host)) {
        return hop_to_host(routing, going, peer.peer, peer.kind);
    }
    let Some(realm) = reading.realm else {
        return Err(ResultCode::RealmNotServed);
    };
    match routing
        .node
        .routes
        .candidates(realm, request.header.application)
    {
        Err(RouteFault::RealmUnknown) => Err(ResultCode::RealmNotServed),
        Err(RouteFault::NoApplication) => Err(ResultCode::UnableToDeliver),
        Ok(peers) => deliverable(first_conn(routing, going, peers)),
    }
}

/// A linked peer is named as the host: no request goes to a client.
fn hop_to_host(
    routing: Routing,
    going: Outgoing,
    peer: NodeNo,
    kind: NodeKind,
) -> Result<ConnId, ResultCode>
    ensures { result ≡ hop_to_host (node_for routing.entry) (drawn going.entry) peer kind }
{
    match kind {
        NodeKind::Client => Err(ResultCode::UnableToDeliver),
        NodeKind::Relay | NodeKind::Front => deliverable(conn_for(routing, going, peer)),
    }
}

fn deliverable(conn: Option<ConnId>) -> Result<ConnId, ResultCode>
    ensures { result ≡ deliverable conn }
{
    match conn {
        Some(conn) => Ok(conn),
        None => Err(ResultCode::UnableToDeliver),
    }
}

/// The connection of the first of these peers that is up and not passed over.
fn first_conn(routing: Routing, going: Outgoing, candidates: &[NodeNo]) -> Option<ConnId>
    ensures { result ≡ first_conn (node_for routing.entry) (drawn going.entry) candidates.now }
{
    for peer in candidates {
        if let Some(conn) = conn_for(routing, going, *peer) {
            return Some(conn);
        }
    }
    None
}

/// The connection of a peer, if it is up and not passed over.
fn conn_for(routing: Routing, going: Outgoing, peer: NodeNo) -> Option<ConnId>
    ensures { result ≡ conn_for (node_for routing.entry) (drawn going.entry) peer }
{
    let conn = routing.conn_of(peer)?;
    if going.passes_over(&routing.node.peers, peer) {
        None
    } else {
        Some(conn)
    }
}
