//! The nodes that one process is: where each listens, and whom it dials.

ghost use Rattle.std.specs.Prelude.{◌≡◌, ◌≢◌, ◌≤◌, ◌<◌, ◌⊎◌, ◌∷◌, [], Err, IfErr, IfOk, IfSome, None, Some, length, true};
ghost use Rattle.dia_base.specs.Identity.{fault_of};
ghost use Rattle.farm_base.specs.CheckedSite.{IsChecked};
ghost use Rattle.farm_endpoints.specs.declared.fault.Role.{Role};
ghost use Rattle.farm_endpoints.specs.Endpoints.{HasNone, HasSilentPeer, IsEndpoint, IsReached, IsSilent, IsUnknown, host_of, place_named, place_of_name, watch_site, IsNobody, Serves, connects, fronts_from};

use crate::fault::{EndpointFault, Role};
use crate::names::{
    application_of, called_by, connects, neighbours_of, place_called, place_of_name,
};
use crate::socket::socket_of;
use dia_base::{Identity, IdentityFault, NodeKind, NodeNo};
use farm_base::{Node, Site};
use farm_watch::{Goodbyes, HostAddress, WatchSite};
use std::alloc::{AllocError, Global};
use std::net::SocketAddr;

/// A node that a process is.
#[derive(Drop)]
pub struct Endpoint {
    pub node: NodeNo,
    /// Where it listens, if its entry says so.
    pub address: Option<SocketAddr>,
    /// The nodes that it connects to.
    pub calls: Vec<NodeNo>,
    /// What its connections know of it and its neighbours.
    pub watch: WatchSite,
}

impl Endpoint {
    /// The same endpoint, where the node does this with goodbyes. At first it ends each connection at once.
    pub fn parting(self, goodbyes: Goodbyes) -> Endpoint
        ensures { result ≡ record self { watch = record self.watch { goodbyes = goodbyes } } }
    {
        let mut endpoint = self;
        endpoint.watch.goodbyes = goodbyes;
        endpoint
    }

    /// The same endpoint, where the node tells this Origin-State-Id, if one. At first it tells none.
    pub fn of_state(self, state: Option<u32>) -> Endpoint
        ensures { result ≡ record self { watch = record self.watch { state = state } } }
    {
        let mut endpoint = self;
        endpoint.watch.state = state;
        endpoint
    }
}

/// The address that a node tells its neighbours.
fn host_of(address: Option<SocketAddr>) -> HostAddress
    ensures { result ≡ host_of address }
{
    match address {
        Some(SocketAddr::V4(address)) => HostAddress::V4(address.ip().octets()),
        Some(SocketAddr::V6(address)) => HostAddress::V6(address.ip().octets()),
        None => HostAddress::V4([127, 0, 0, 1]),
    }
}

/// What the connections of a node know of it.
fn watch_site(
    alloc: Global,
    site: &Site,
    at: NodeNo,
    node: &Node,
    address: Option<SocketAddr>,
) -> Result<WatchSite, AllocError>
    requires { length site.now.nodes ≤ 64 }
    ensures { IfOk result (λ watch. watch ≡ watch_site site.now at node.now address) }
{
    Ok(WatchSite {
        name: node.name.clone()?,
        realm: site.realm.clone()?,
        address: host_of(address),
        application: application_of(node.kind),
        advertised: site.advertise.clone()?,
        neighbours: neighbours_of(alloc, site, at)?,
        interval: site.watchdog,
        goodbyes: Goodbyes::EndAtOnce,
        state: None,
    })
}

/// The endpoint of the node at this place, which connects to these.
fn endpoint_at(
    alloc: Global,
    site: &Site,
    place: usize,
    calls: Vec<NodeNo>,
) -> Result<Endpoint, EndpointFault>
    requires { (length site.now.nodes ≤ 64) × (place < length site.now.nodes) }
    ensures endpoint { IfOk result (IsEndpoint site.now place calls.items) }
    ensures memory { IfErr result (λ fault. fault ≡ EndpointFault.OutOfMemory) }
{
    let node = NodeNo(place as u32);
    let address = socket_of(site, node);
    let entry = &site.nodes.as_slice()[place];
    let watch = watch_site(alloc, site, node, entry, address)?;
    Ok(Endpoint {
        node,
        address,
        calls,
        watch,
    })
}

/// The identity that a name on the command line spells.
fn identity_of(alloc: Global, name: &[u8], role: Role) -> Result<Identity, EndpointFault>
    ensures ok { IfOk result (λ identity. identity ≡ name.now) }
    ensures err { IfErr result (λ fault. (fault ≡ EndpointFault.OutOfMemory) ⊎ ((fault ≡ EndpointFault.UnknownName role) × (fault_of name.now ≢ None))) }
{
    match Identity::read(alloc, name) {
        Ok(identity) => Ok(identity),
        Err(IdentityFault::OutOfMemory) => Err(EndpointFault::OutOfMemory),
        Err(IdentityFault::Empty | IdentityFault::TooLong | IdentityFault::BadOctet { .. }) => {
            Err(EndpointFault::UnknownName { role })
        }
    }
}

/// The place of the node of this kind and this name.
fn place_named(
    alloc: Global,
    site: &Site,
    of_kind: NodeKind,
    name: &[u8],
    role: Role,
) -> Result<usize, EndpointFault>
    ensures ok { IfOk result (λ place. place_named site.now of_kind name.now ≡ Some place) }
    ensures err { IfErr result (λ fault. (fault ≡ EndpointFault.OutOfMemory) ⊎ ((fault ≡ EndpointFault.UnknownName role) × IsNobody site.now of_kind name.now)) }
{
    let identity = identity_of(alloc, name, role)?;
    match place_called(site, of_kind, &identity) {
        Some(place) => Ok(place),
        None => Err(EndpointFault::UnknownName { role }),
    }
}

/// The endpoint of the node at this place, which listens, and connects where the site says so.
fn serving_at(alloc: Global, site: &Site, place: usize) -> Result<Endpoint, EndpointFault>
    requires { (length site.now.nodes ≤ 64) × (place < length site.now.nodes) }
    ensures ok { IfOk result (λ made. (made.node.0 ≡ place) × Serves site.now made) }
    ensures err { IfErr result (λ fault. (fault ≡ EndpointFault.OutOfMemory) ⊎ ((fault ≡ EndpointFault.NoAddress) × HasNone site.now (record { 0 = place }))) }
{
    let calls = called_by(alloc, site, NodeNo(place as u32))?;
    let made = endpoint_at(alloc, site, place, calls)?;
    if made.address.is_none() {
        return Err(EndpointFault::NoAddress);
    }
    Ok(made)
}

/// The relay of this name, which listens at its address and connects to the nodes that its links name second.
pub fn endpoint_of_relay(alloc: Global, site: &Site, name: &[u8]) -> Result<Endpoint, EndpointFault>
    requires { IsChecked site.now }
    ensures ok { IfOk result (λ endpoint. (place_named site.now NodeKind.Relay name.now ≡ Some endpoint.node.0) × Serves site.now endpoint) }
    ensures unknown { (role : Role) → result ≡ Err (EndpointFault.UnknownName role) → (role ≡ Role.Name) × IsNobody site.now NodeKind.Relay name.now }
    ensures silent { result ≡ Err EndpointFault.NoAddress → IsSilent site.now (place_named site.now NodeKind.Relay name.now) }
{
    let place = place_named(alloc, site, NodeKind::Relay, name, Role::Name)?;
    serving_at(alloc, site, place)
}

/// The nodes of a site that are fronts, in its order.
pub fn fronts_of(alloc: Global, site: &Site) -> Result<Vec<NodeNo>, AllocError>
    requires { IsChecked site.now }
    ensures { IfOk result (λ fronts. fronts.items ≡ fronts_from 0 site.now.nodes) }
{
    let mut fronts = Vec::new(alloc);
    for (place, node) in site.nodes.as_slice().iter().enumerate() {
        match node.kind {
            NodeKind::Front => fronts.push(NodeNo(place as u32))?,
            NodeKind::Relay => {}
            NodeKind::Client => {}
        }
    }
    Ok(fronts)
}

/// A node that listens at its own address, and connects to the nodes that its links name second. A node that the site
/// has not has no address.
pub fn endpoint_of(alloc: Global, site: &Site, node: NodeNo) -> Result<Endpoint, EndpointFault>
    requires { IsChecked site.now }
    ensures ok { IfOk result (λ endpoint. (endpoint.node ≡ node) × Serves site.now endpoint) }
    ensures err { IfErr result (λ fault. (fault ≡ EndpointFault.OutOfMemory) ⊎ ((fault ≡ EndpointFault.NoAddress) × HasNone site.now node)) }
{
    if site.nodes.len() <= node.0 as usize {
        return Err(EndpointFault::NoAddress);
    }
    serving_at(alloc, site, node.0 as usize)
}

/// The client of this name, which connects to the node of that name and to no other.
pub fn endpoint_of_client(
    alloc: Global,
    site: &Site,
    client: &[u8],
    peer: &[u8],
) -> Result<Endpoint, EndpointFault>
    requires { IsChecked site.now }
    ensures client { IfOk result (λ endpoint. place_named site.now NodeKind.Client client.now ≡ Some endpoint.node.0) }
    ensures peer { IfOk result (λ endpoint. IfSome (place_of_name site.now peer.now) (λ to. IsEndpoint site.now endpoint.node.0 (record { 0 = to } ∷ []) endpoint × (connects site.now endpoint.node to ≡ true))) }
    ensures reached { IfOk result (λ _. IsReached site.now (place_of_name site.now peer.now)) }
    ensures unknown { (role : Role) → result ≡ Err (EndpointFault.UnknownName role) → IsUnknown site.now client.now peer.now role }
    ensures silent { result ≡ Err EndpointFault.NoAddress → HasSilentPeer site.now client.now peer.now }
{
    let place = place_named(alloc, site, NodeKind::Client, client, Role::Client)?;
    let name = identity_of(alloc, peer, Role::Peer)?;
    let Some(to) = place_of_name(site, &name) else {
        return Err(EndpointFault::UnknownName { role: Role::Peer });
    };
    let to = NodeNo(to as u32);
    if !connects(alloc, site, NodeNo(place as u32), to)? {
        return Err(EndpointFault::UnknownName { role: Role::Peer });
    }
    let Some(_address) = socket_of(site, to) else {
        return Err(EndpointFault::NoAddress);
    };
    let mut calls = Vec::new(alloc);
    calls.push(to)?;
    endpoint_at(alloc, site, place, calls)
}
