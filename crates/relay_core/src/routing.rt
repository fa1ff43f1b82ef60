//! By what a request is routed: a relay with its peers and routes, and the peers that are up.

ghost use Rattle.std.specs.Prelude.{◌≡◌};
ghost use Rattle.relay_peers.specs.PeerTable.{conn_in};
ghost use Rattle.relay_core.specs.RelayState.{links_but};
ghost use Rattle.relay_core.specs.Routing.{stands};

use crate::node::RelayNode;
use dia_base::{ConnId, NodeNo};
use relay_peers::Link;

/// A relay as requests find it: it goes by these links, whoever else is up, but for one on a connection that ends.
#[derive(Clone, Copy)]
pub struct Routing<'a> {
    pub node: &'a RelayNode,
    pub links: &'a [Link],
    pub ended: Option<ConnId>,
}

impl Routing<'_> {
    /// The connection of a peer, if requests find it up. It takes no memory.
    pub(crate) fn conn_of(self, peer: NodeNo) -> Option<ConnId>
        ensures { result ≡ conn_in (links_but self.entry.ended self.entry.links.now) peer }
    {
        let ended = self.ended;
        self.links
            .iter()
            .find(|link| stands(link, peer, ended))
            .map(|link| link.conn)
    }
}

/// Whether it is a link of the peer, and its connection does not end.
fn stands(link: &Link, peer: NodeNo, ended: Option<ConnId>) -> bool
    ensures { result ≡ stands peer ended link.now }
{
    link.peer == peer && ended != Some(link.conn)
}
