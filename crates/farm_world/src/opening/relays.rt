//! The relays of a site before the first step.

ghost use Rattle.std.specs.Prelude.{◌≡◌, IfOk};
ghost use Rattle.farm_base.specs.CheckedSite.{IsChecked};
ghost use Rattle.farm_model.specs.Run.{peers_from, routes_at, relay_site, relays_from};
ghost use Rattle.relay_core.specs.Connecting.{relay_at};

use crate::nodes::is_linked;
use dia_base::{Identity, Listing, NodeKind, NodeNo};
use farm_model::{RelayAt, Route, Site};
use relay_core::{Relay, RelaySite};
use relay_peers::LinkedPeer;
use std::alloc::{AllocError, Global};

/// The nodes that the site links with this one.
fn peers_of(alloc: Global, site: &Site, relay: NodeNo) -> Result<Listing<LinkedPeer>, AllocError>
    requires { IsChecked site.now }
    ensures { IfOk result (λ peers. peers ≡ peers_from site.now relay 0 site.now.nodes) }
{
    let mut peers = Vec::new(alloc);
    for (place, node) in site.nodes.as_slice().iter().enumerate() {
        let peer = NodeNo(place as u32);
        if is_linked(site, relay, peer) {
            let name = node.name.clone()?;
            peers.push(LinkedPeer {
                peer,
                name,
                kind: node.kind,
            })?;
        }
    }
    Ok(Listing::from_vec(peers))
}

/// The routes that the site has at this node.
fn routes_of(
    alloc: Global,
    routes: &[Route],
    relay: NodeNo,
) -> Result<Listing<relay_routes::Route>, AllocError>
    ensures { IfOk result (λ found. found ≡ routes_at routes.now relay) }
{
    let mut found = Vec::new(alloc);
    for route in routes {
        if route.at == relay {
            found.push(relay_routes::Route {
                realm: route.realm.clone()?,
                app: route.app,
                peers: Listing::from_vec(route.peers.as_slice().to_vec(alloc)?),
            })?;
        }
    }
    Ok(Listing::from_vec(found))
}

/// The relay of this number and name of the site, with its peers and routes and no connection. Its identifiers rise
/// from a start (`Relay::starting_at`).
pub fn relay_starting_at(
    alloc: Global,
    site: &Site,
    node: NodeNo,
    name: &Identity,
    start: u32,
) -> Result<Relay, AllocError>
    requires { IsChecked site.now }
    ensures { IfOk result (λ relay. relay ≡ relay_at (relay_site site.now node name.now) start) }
{
    Relay::starting_at(
        alloc,
        RelaySite {
            name: name.clone()?,
            realm: site.realm.clone()?,
            peers: peers_of(alloc, site, node)?,
            routes: routes_of(alloc, site.routes.as_slice(), node)?,
        },
        start,
    )
}

/// The relays among the nodes of the site, each with its peers and routes.
pub fn relays_of(alloc: Global, site: &Site) -> Result<Vec<RelayAt>, AllocError>
    requires { IsChecked site.now }
    ensures { IfOk result (λ relays. relays.items ≡ relays_from site.now 0 site.now.nodes) }
{
    let mut relays = Vec::new(alloc);
    for (place, node) in site.nodes.as_slice().iter().enumerate() {
        match node.kind {
            NodeKind::Relay => {
                let at = NodeNo(place as u32);
                let relay = relay_starting_at(alloc, site, at, &node.name, 0)?;
                relays.push(RelayAt { node: at, relay })?;
            }
            NodeKind::Front => {}
            NodeKind::Client => {}
        }
    }
    Ok(relays)
}
