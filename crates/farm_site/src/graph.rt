//! The nodes and links of a site, as far as they are read.

ghost use Rattle.std.specs.Prelude.{◌≡◌, ◌<◌, ◌≤◌, IfNone, IfSome, None, true, length, position};
ghost use Rattle.farm_base.specs.Nodes.{joins, is_linked, is_client, is_front, is_relay, kind_at};
ghost use Rattle.farm_base.specs.CheckedSite.{is_known};
ghost use Rattle.farm_site.specs.Graph.{drawn};
ghost use Rattle.farm_site.specs.Spelling.{Names, is_named};

use dia_base::{NodeKind, NodeNo};
use farm_base::{Link, Node};

/// The nodes and links that have been read.
#[derive(Clone, Copy)]
pub struct Graph<'a> {
    pub nodes: &'a [Node],
    pub links: &'a [Link],
}

impl Graph<'_> {
    /// The node of a name, compared without ASCII case.
    pub fn find(self, name: &str) -> Option<NodeNo>
        ensures known { IfSome result (λ node. is_known (drawn self.entry) node ≡ true) }
        ensures named { IfSome result (Names self.entry.nodes.now name.now) }
        ensures none { length self.entry.nodes.now ≤ 64 → IfNone result (position (is_named name.now) self.entry.nodes.now ≡ None) }
    {
        let place = place_of(self.nodes, name.as_bytes())?;
        u32::try_from(place).ok().map(NodeNo)
    }

    fn kind_at(self, node: NodeNo) -> Option<NodeKind>
        ensures { result ≡ kind_at (drawn self.entry) node }
    {
        let node = self.nodes.get(node.0 as usize)?;
        Some(node.kind)
    }

    pub fn is_client(self, node: NodeNo) -> bool
        ensures { result ≡ is_client (drawn self.entry) node }
    {
        matches!(self.kind_at(node), Some(NodeKind::Client))
    }

    pub fn is_front(self, node: NodeNo) -> bool
        ensures { result ≡ is_front (drawn self.entry) node }
    {
        matches!(self.kind_at(node), Some(NodeKind::Front))
    }

    pub fn is_relay(self, node: NodeNo) -> bool
        ensures { result ≡ is_relay (drawn self.entry) node }
    {
        matches!(self.kind_at(node), Some(NodeKind::Relay))
    }

    /// Whether two nodes are linked, in either direction.
    pub fn is_linked(self, a: NodeNo, b: NodeNo) -> bool
        ensures { result ≡ is_linked (drawn self.entry) a b }
    {
        self.links.iter().any(|link| joins(link, a, b))
    }
}

/// The place of the first node of a name.
fn place_of(nodes: &[Node], name: &[u8]) -> Option<usize>
    ensures place { result ≡ position (is_named name.now) nodes.now }
    ensures within { IfSome result (λ place. place < length nodes.now) }
{
    nodes.iter().position(|node| is_named(node, name))
}

fn is_named(node: &Node, name: &[u8]) -> bool
    ensures { result ≡ is_named name.now node.now }
{
    node.name.as_slice().eq_ignore_ascii_case(name)
}

/// Whether a link joins two nodes, in either direction.
pub fn joins(link: &Link, a: NodeNo, b: NodeNo) -> bool
    ensures { result ≡ joins a b link.now }
{
    (link.from == a && link.to == b) || (link.from == b && link.to == a)
}
