//! What the site says of nodes.

ghost use Rattle.std.specs.Prelude.{◌≡◌};
ghost use Rattle.farm_base.specs.Nodes.{joins, is_linked, is_client, is_front, is_relay, kind_at};

use dia_base::{NodeKind, NodeNo};
use farm_model::{Link, Site};

fn joins(link: &Link, a: NodeNo, b: NodeNo) -> bool
    ensures { result ≡ joins a b link.now }
{
    (link.from == a && link.to == b) || (link.from == b && link.to == a)
}

/// Whether the site links two nodes, in either direction.
pub fn is_linked(site: &Site, a: NodeNo, b: NodeNo) -> bool
    ensures { result ≡ is_linked site.now a b }
{
    site.links.as_slice().iter().any(|link| joins(link, a, b))
}

fn kind_at(site: &Site, node: NodeNo) -> Option<NodeKind>
    ensures { result ≡ kind_at site.now node }
{
    let node = site.nodes.as_slice().get(node.0 as usize)?;
    Some(node.kind)
}

/// Whether a node of the site is a client.
pub fn is_client(site: &Site, node: NodeNo) -> bool
    ensures { result ≡ is_client site.now node }
{
    matches!(kind_at(site, node), Some(NodeKind::Client))
}

/// Whether a node of the site is a relay.
pub fn is_relay(site: &Site, node: NodeNo) -> bool
    ensures { result ≡ is_relay site.now node }
{
    matches!(kind_at(site, node), Some(NodeKind::Relay))
}

/// Whether a node of the site is a front.
pub fn is_front(site: &Site, node: NodeNo) -> bool
    ensures { result ≡ is_front site.now node }
{
    matches!(kind_at(site, node), Some(NodeKind::Front))
}
