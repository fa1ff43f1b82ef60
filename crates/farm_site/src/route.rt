//! The routes of a site file.

ghost use Rattle.std.specs.Prelude.{◌≡◌, ◌≤◌, ◌⊎◌, IfErr, IfOk, length, vec_len, true, ◌&&◌, ◌==◌};
ghost use Rattle.std.specs.List.{list_all, list_any};
ghost use Rattle.dia_base.specs.Folding.{same_folded};
ghost use Rattle.farm_base.specs.CheckedSite.{is_candidate, is_sound_route, same_route};
ghost use Rattle.farm_base.specs.Nodes.{is_node, is_relay};
ghost use Rattle.farm_site.specs.Faults.{IsFaultOf, IsOfKey, IsRouteFault, IsTableFault, IsUnknownAmong, IsUnknownAt, NamesNone};
ghost use Rattle.farm_site.specs.Graph.{drawn};
ghost use Rattle.farm_site.specs.Growing.{AreSound, MayFollow};
ghost use Rattle.farm_site.specs.Spelling.{Names, NamesAt, NamesAllAt, SpellsRoute, SpellsTable, is_typed_route};
ghost use Rattle.toml.specs.View.{table_view};

use crate::entry::Entry;
use crate::fault::SiteFault;
use crate::graph::Graph;
use crate::key::Key;
use dia_base::{Identity, Listing, NodeNo};
use farm_base::Route;
use std::alloc::Global;

/// The most routes of a site.
const ROUTE_LIMIT: usize = 256;

/// The most peers of a route.
const PEER_LIMIT: usize = 16;

/// The routes of the file, in its order, over these nodes and links.
pub fn routes_of(alloc: Global, file: Entry, graph: Graph) -> Result<Vec<Route>, SiteFault>
    ensures count { IfOk result (λ routes. vec_len routes ≤ 256) }
    ensures sound { IfOk result (λ routes. AreSound (is_sound_route (drawn graph.entry)) same_route routes.items) }
    ensures typed { IfOk result (λ routes. list_all is_typed_route routes.items ≡ true) }
    ensures spelled { IfOk result (λ routes. SpellsTable (SpellsRoute graph.entry.nodes.now) Key.Route (table_view file.entry.table.now) routes.items) }
    ensures fault { length graph.entry.nodes.now ≤ 64 → IfErr result (IsTableFault (SpellsRoute graph.entry.nodes.now) (IsRouteFault graph.entry.nodes.now graph.entry.links.now) Key.Route (table_view file.entry.table.now)) }
{
    let entries = file.entries(alloc, Key::Route, ROUTE_LIMIT)?;
    let mut routes = Vec::new(alloc);
    for entry in &entries {
        let route = route_of(alloc, *entry, graph, &routes)?;
        routes.push(route)?;
    }
    Ok(routes)
}

/// The route of an entry, where these stand before it.
#[tactic(auto, using(crate::proofs::Following::route_may_follow))]
fn route_of(alloc: Global, entry: Entry, graph: Graph, before: &[Route]) -> Result<Route, SiteFault>
    ensures follows { IfOk result (MayFollow (is_sound_route (drawn graph.entry)) same_route before.now) }
    ensures typed { IfOk result (λ route. is_typed_route route ≡ true) }
    ensures spelled { IfOk result (SpellsRoute graph.entry.nodes.now (table_view entry.entry.table.now)) }
    ensures fault { length graph.entry.nodes.now ≤ 64 → IfErr result (IsRouteFault graph.entry.nodes.now graph.entry.links.now before.now (table_view entry.entry.table.now)) }
{
    let at = relay_of(entry, graph)?;
    let realm = entry.identity(alloc, Key::Realm)?;
    let app = entry.unsigned32(Key::App, 0, u32::MAX)?;
    if is_routed(before, at, &realm, app) {
        return Err(SiteFault::Twice { key: Key::Route });
    }
    Ok(Route {
        at,
        realm,
        app,
        peers: Listing::from_vec(peers_of(alloc, entry, graph, at)?),
    })
}

/// The relay that has the route.
fn relay_of(entry: Entry, graph: Graph) -> Result<NodeNo, SiteFault>
    ensures relay { IfOk result (λ relay. is_relay (drawn graph.entry) relay ≡ true) }
    ensures named { IfOk result (NamesAt graph.entry.nodes.now Key.At (table_view entry.entry.table.now)) }
    ensures fault { length graph.entry.nodes.now ≤ 64 → IfErr result (λ fault. IsFaultOf (table_view entry.entry.table.now) fault ⊎ ((fault ≡ SiteFault.UnknownName Key.At) × IsUnknownAt graph.entry.nodes.now (is_relay (drawn graph.entry)) Key.At (table_view entry.entry.table.now))) }
    ensures told { IfErr result (IsOfKey Key.At) }
{
    match graph.find(entry.text(Key::At)?) {
        Some(relay) if graph.is_relay(relay) => Ok(relay),
        _ => Err(SiteFault::UnknownName { key: Key::At }),
    }
}

/// Whether one of the routes is that of a relay for a realm, without ASCII case, and an application.
fn is_routed(routes: &[Route], relay: NodeNo, realm: &Identity, app: u32) -> bool
    ensures { result ≡ list_any (λ route. is_node route.at relay && same_folded route.realm realm.now && (route.app == app)) routes.now }
{
    routes.iter().any(|route| route.at == relay && route.realm == *realm && route.app == app)
}

/// The peers of a route at a relay, in order.
#[tactic(auto, using(crate::proofs::Pushing::all_push))]
fn peers_of(
    alloc: Global,
    entry: Entry,
    graph: Graph,
    relay: NodeNo,
) -> Result<Vec<NodeNo>, SiteFault>
    ensures count { IfOk result (λ peers. vec_len peers ≤ 16) }
    ensures candidates { IfOk result (λ peers. list_all (is_candidate (drawn graph.entry) relay) peers.items ≡ true) }
    ensures named { IfOk result (λ peers. NamesAllAt graph.entry.nodes.now Key.Peers (table_view entry.entry.table.now) peers.items) }
    ensures fault { length graph.entry.nodes.now ≤ 64 → IfErr result (λ fault. IsFaultOf (table_view entry.entry.table.now) fault ⊎ ((fault ≡ SiteFault.UnknownName Key.Peers) × IsUnknownAmong graph.entry.nodes.now (is_candidate (drawn graph.entry) relay) Key.Peers (table_view entry.entry.table.now))) }
    ensures told { IfErr result (IsOfKey Key.Peers) }
{
    let names = entry.texts(alloc, Key::Peers, PEER_LIMIT)?;
    let mut peers = Vec::new(alloc);
    for name in &names {
        let peer = peer_of(name, graph, relay)?;
        peers.push(peer)?;
    }
    Ok(peers)
}

/// The relay or front of a name, which is linked with a relay.
fn peer_of(name: &str, graph: Graph, relay: NodeNo) -> Result<NodeNo, SiteFault>
    ensures candidate { IfOk result (λ peer. is_candidate (drawn graph.entry) relay peer ≡ true) }
    ensures named { IfOk result (Names graph.entry.nodes.now name.now) }
    ensures fault { length graph.entry.nodes.now ≤ 64 → IfErr result (λ fault. (fault ≡ SiteFault.UnknownName Key.Peers) × NamesNone graph.entry.nodes.now (is_candidate (drawn graph.entry) relay) name.now) }
    ensures told { IfErr result (IsOfKey Key.Peers) }
{
    match graph.find(name) {
        Some(peer) if is_candidate(graph, relay, peer) => Ok(peer),
        _ => Err(SiteFault::UnknownName { key: Key::Peers }),
    }
}

fn is_candidate(graph: Graph, relay: NodeNo, peer: NodeNo) -> bool
    ensures { result ≡ is_candidate (drawn graph.entry) relay peer }
{
    graph.is_linked(relay, peer) && (graph.is_relay(peer) || graph.is_front(peer))
}
