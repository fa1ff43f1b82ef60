//! Nodes by their names, and the nodes that they connect to.

ghost use Rattle.std.specs.Prelude.{◌≡◌, ◌≤◌, length, IfOk};
ghost use Rattle.farm_base.specs.Nodes.{is_linked, is_node, joins};
ghost use Rattle.farm_endpoints.specs.Endpoints.{application_of, called_by, callers_of, is_called, is_kind, connects, neighbours_from, place_named, place_of_name};

use dia_base::{Identity, Listing, NodeKind, NodeNo};
use farm_base::{Link, Node, Site};
use farm_watch::{Application, Neighbour};
use std::alloc::{AllocError, Global};

fn is_kind(of_kind: NodeKind, kind: NodeKind) -> bool
    ensures { result ≡ is_kind of_kind kind }
{
    match of_kind {
        NodeKind::Relay => matches!(kind, NodeKind::Relay),
        NodeKind::Front => matches!(kind, NodeKind::Front),
        NodeKind::Client => matches!(kind, NodeKind::Client),
    }
}

/// Whether it is a node of this kind and this name, without ASCII case.
fn is_called(of_kind: NodeKind, name: &Identity, node: &Node) -> bool
    ensures { result ≡ is_called of_kind name.now node.now }
{
    is_kind(of_kind, node.kind) && node.name == *name
}

/// The place of the first node of this kind and this name.
pub(crate) fn place_called(site: &Site, of_kind: NodeKind, name: &Identity) -> Option<usize>
    ensures { result ≡ place_named site.now of_kind name.now }
{
    site.nodes
        .as_slice()
        .iter()
        .position(|node| is_called(of_kind, name, node))
}

/// The place of the first node of this name.
pub(crate) fn place_of_name(site: &Site, name: &Identity) -> Option<usize>
    ensures { result ≡ place_of_name site.now name.now }
{
    site.nodes
        .as_slice()
        .iter()
        .position(|node| node.name == *name)
}

/// The nodes that the site has this one connect to, in the order of its links.
pub(crate) fn called_by(alloc: Global, site: &Site, node: NodeNo) -> Result<Vec<NodeNo>, AllocError>
    ensures { IfOk result (λ calls. calls.items ≡ called_by site.now node) }
{
    site.links
        .as_slice()
        .iter()
        .filter(|link| link.from.0 == node.0)
        .map(|link| link.to)
        .collect(alloc)
}

/// The nodes that the site has connect to this one, in the order of its links.
pub fn callers_of(alloc: Global, site: &Site, node: NodeNo) -> Result<Vec<NodeNo>, AllocError>
    ensures { IfOk result (λ callers. callers.items ≡ callers_of site.now node) }
{
    site.links
        .as_slice()
        .iter()
        .filter(|link| link.to.0 == node.0)
        .map(|link| link.from)
        .collect(alloc)
}

/// Whether the site has the one node connect to the other.
pub(crate) fn connects(
    alloc: Global,
    site: &Site,
    from: NodeNo,
    to: NodeNo,
) -> Result<bool, AllocError>
    ensures { IfOk result (λ yes. yes ≡ connects site.now from to.0) }
{
    let calls = called_by(alloc, site, from)?;
    Ok(calls.iter().any(|node| node.0 == to.0))
}

fn joins(link: &Link, a: NodeNo, b: NodeNo) -> bool
    ensures { result ≡ joins a b link.now }
{
    (link.from.0 == a.0 && link.to.0 == b.0) || (link.from.0 == b.0 && link.to.0 == a.0)
}

fn is_linked(site: &Site, a: NodeNo, b: NodeNo) -> bool
    ensures { result ≡ is_linked site.now a b }
{
    site.links.as_slice().iter().any(|link| joins(link, a, b))
}

/// The nodes that the site links with this one: those that may be at the other ends of its connections.
pub(crate) fn neighbours_of(
    alloc: Global,
    site: &Site,
    at: NodeNo,
) -> Result<Listing<Neighbour>, AllocError>
    requires { length site.now.nodes ≤ 64 }
    ensures { IfOk result (λ neighbours. neighbours ≡ neighbours_from site.now at 0 site.now.nodes) }
{
    let mut neighbours = Vec::new(alloc);
    for (place, entry) in site.nodes.as_slice().iter().enumerate() {
        let node = NodeNo(place as u32);
        if is_linked(site, at, node) {
            let name = entry.name.clone()?;
            neighbours.push(Neighbour { name, node })?;
        }
    }
    Ok(Listing::from_vec(neighbours))
}

/// What a node advertises.
pub(crate) fn application_of(kind: NodeKind) -> Application
    ensures { result ≡ application_of kind }
{
    match kind {
        NodeKind::Relay => Application::Relay,
        NodeKind::Front | NodeKind::Client => Application::CreditControl,
    }
}
