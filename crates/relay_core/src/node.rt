//! What a relay is set up with, and which of its peers are up.

ghost use Rattle.std.specs.Prelude.{◌≡◌, IfOk};
ghost use Rattle.std.specs.Option.{option_copied};
ghost use Rattle.relay_core.specs.RelayState.{peer_on};
ghost use Rattle.relay_core.specs.Connecting.{new_node};

use dia_base::{ConnId, Identity, Listing};
use relay_peers::{LinkedPeer, Peers};
use relay_routes::{Route, Routes};
use std::alloc::{AllocError, Global};

/// A relay as the site describes it: its identity and realm, the nodes that it is linked with, and its
/// routes.
#[derive(Drop)]
pub struct RelaySite {
    pub name: Identity,
    pub realm: Identity,
    pub peers: Listing<LinkedPeer>,
    pub routes: Listing<Route>,
}

impl RelaySite {
    /// The same description once more.
    pub(crate) fn copied(&self, alloc: Global) -> Result<RelaySite, AllocError>
        ensures { IfOk result (λ site. site ≡ self.now) }
    {
        Ok(RelaySite {
            name: self.name.clone()?,
            realm: self.realm.clone()?,
            peers: self.peers.clone()?,
            routes: copied_routes(alloc, self.routes.as_slice())?,
        })
    }
}

fn copied_routes(alloc: Global, routes: &[Route]) -> Result<Listing<Route>, AllocError>
    ensures { IfOk result (λ copies. copies ≡ routes.now) }
{
    let mut copies = Vec::new(alloc);
    for route in routes {
        copies.push(Route {
            realm: route.realm.clone()?,
            app: route.app,
            peers: Listing::from_vec(route.peers.as_slice().to_vec(alloc)?),
        })?;
    }
    Ok(Listing::from_vec(copies))
}

/// A relay but for its pending requests: itself, its peers with the connections of those that are up, and
/// its routes (RFC 6733, sections 2.6 and 2.7).
pub struct RelayNode {
    pub name: Identity,
    pub realm: Identity,
    pub peers: Peers,
    pub routes: Routes,
}

// By hand, so that each exit of an owner is proved with one call.
impl Drop for RelayNode {
    fn drop(self) {
        let RelayNode {
            name: _,
            realm: _,
            peers: _,
            routes: _,
        } = self;
    }
}

impl RelayNode {
    /// No peer is up.
    pub(crate) fn new(alloc: Global, site: RelaySite) -> Self
        ensures { result ≡ new_node site }
    {
        RelayNode {
            name: site.name,
            realm: site.realm,
            peers: Peers::new(alloc, site.peers.into_vec()),
            routes: Routes::new(site.routes.into_vec()),
        }
    }

    /// The peer at the other end of a connection.
    pub(crate) fn peer_on(&self, conn: ConnId) -> Option<&LinkedPeer>
        ensures { option_copied result ≡ peer_on self.now conn }
    {
        self.peers.numbered(self.peers.peer_of(conn)?)
    }
}
