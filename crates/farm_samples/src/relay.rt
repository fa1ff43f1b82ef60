//! A relay alone over two lists of events. It forwards a debit, and loses the connection that it went out on; or an answer
//! with the debit's identifier comes on another connection, and then the same one on the right connection.

use crate::sent::print_sent;
use dia_avp::ViewWire;
use dia_base::{ConnId, Identity, Listing, NodeKind, NodeNo};
use relay_core::{Relay, RelayEvent, RelaySite};
use relay_peers::LinkedPeer;
use relay_routes::Route;
use samples_given::{DEBIT, message};
use std::alloc::Global;

/// An answer with Result-Code 2001 alone, under the identifier 2^31: that of the first request that a relay forwards.
const ANSWER: &str = "01000020400001100000000480000000000000640000010c4000000c000007d1";

const CLIENT: NodeNo = NodeNo(1);

const FRONT: NodeNo = NodeNo(2);

const OTHER_FRONT: NodeNo = NodeNo(3);

/// The peers of the relay.
const PEERS: [(NodeNo, &str, NodeKind); 3] = [
    (CLIENT, "c1.example", NodeKind::Client),
    (FRONT, "f1.example", NodeKind::Front),
    (OTHER_FRONT, "f2.example", NodeKind::Front),
];

fn peers(alloc: Global) -> anyhow::Result<Vec<LinkedPeer>> {
    let mut peers = Vec::new(alloc);
    for (peer, name, kind) in PEERS {
        let name = Identity::read(alloc, name.as_bytes())?;
        peers.push(LinkedPeer { peer, name, kind })?;
    }
    Ok(peers)
}

/// The one route, which leads to one of the fronts.
fn routes(alloc: Global) -> anyhow::Result<Vec<Route>> {
    let realm = Identity::read(alloc, b"ocs.example")?;
    let peers = Listing::from_vec(vec![in alloc; FRONT]?);
    let route = Route {
        realm,
        app: 4,
        peers,
    };
    Ok(vec![in alloc; route]?)
}

/// A relay between a client and two fronts.
fn site(alloc: Global) -> anyhow::Result<RelaySite> {
    let name = Identity::read(alloc, b"r1.example")?;
    let realm = Identity::read(alloc, b"ocs.example")?;
    let peers = Listing::from_vec(peers(alloc)?);
    let routes = Listing::from_vec(routes(alloc)?);
    Ok(RelaySite {
        name,
        realm,
        peers,
        routes,
    })
}

fn up(peer: NodeNo, conn: u64) -> RelayEvent {
    let conn = ConnId(conn);
    RelayEvent::Up { peer, conn }
}

/// Puts behind the events that the message of this text comes.
fn receive(
    alloc: Global,
    events: &mut Vec<RelayEvent>,
    conn: u64,
    text: &str,
) -> anyhow::Result<()> {
    let conn = ConnId(conn);
    let message = message(alloc, text)?;
    Ok(events.push(RelayEvent::Received { conn, message })?)
}

fn lose_connection(alloc: Global, events: &mut Vec<RelayEvent>) -> anyhow::Result<()> {
    receive(alloc, events, 1, DEBIT)?;
    Ok(events.push(RelayEvent::Lost { conn: ConnId(2) })?)
}

fn answer_elsewhere(alloc: Global, events: &mut Vec<RelayEvent>) -> anyhow::Result<()> {
    events.push(up(OTHER_FRONT, 3))?;
    receive(alloc, events, 1, DEBIT)?;
    receive(alloc, events, 3, ANSWER)?;
    receive(alloc, events, 2, ANSWER)
}

/// The client and a front come up.
fn come_up(alloc: Global) -> anyhow::Result<Vec<RelayEvent>> {
    Ok(vec![in alloc; up(CLIENT, 1), up(FRONT, 2)]?)
}

/// Prints what the relay sends at these events.
fn print_run(
    rt: &impl Print,
    alloc: Global,
    site: &RelaySite,
    events: &[RelayEvent],
) -> anyhow::Result<()> {
    let outs = Relay::run::<ViewWire>(alloc, site, events)?;
    print_sent(rt, alloc, &outs)
}

fn print_lost(rt: &impl Print, alloc: Global, site: &RelaySite) -> anyhow::Result<()> {
    let mut events = come_up(alloc)?;
    lose_connection(alloc, &mut events)?;
    print_run(rt, alloc, site, &events)
}

fn print_answered(rt: &impl Print, alloc: Global, site: &RelaySite) -> anyhow::Result<()> {
    let mut events = come_up(alloc)?;
    answer_elsewhere(alloc, &mut events)?;
    print_run(rt, alloc, site, &events)
}

/// Prints what the relay sends.
pub fn print_runs(rt: &impl Print, alloc: Global) -> anyhow::Result<()> {
    let site = site(alloc)?;
    print_lost(rt, alloc, &site)?;
    print_answered(rt, alloc, &site)
}
