//! What the connections of nodes know of them.

use dia_base::{Identity, Listing, NodeNo};
use farm_connections::LocalNode;
use farm_watch::{Application, Goodbyes, HostAddress, Neighbour, WatchSite};
use std::alloc::Global;

/// The relay r1.example.
pub const RELAY: NodeNo = NodeNo(0);

/// The front f2.example, of which most connections are.
pub const FRONT: NodeNo = NodeNo(2);

/// The one neighbour that may connect.
fn neighbours(alloc: Global, node: NodeNo, name: &str) -> anyhow::Result<Listing<Neighbour>> {
    let name = Identity::read(alloc, name.as_bytes())?;
    Ok(Listing::from_vec(vec![in alloc; Neighbour { name, node }]?))
}

/// What a node of this name knows of itself, to which this neighbour may connect. It asks after half a minute.
pub fn watch_site(
    alloc: Global,
    name: &str,
    application: Application,
    neighbour: (NodeNo, &str),
) -> anyhow::Result<WatchSite> {
    let name = Identity::read(alloc, name.as_bytes())?;
    let realm = Identity::read(alloc, b"ocs.example")?;
    let neighbours = neighbours(alloc, neighbour.0, neighbour.1)?;
    Ok(WatchSite {
        name,
        realm,
        address: HostAddress::V4([127, 0, 0, 1]),
        application,
        advertised: Listing::empty(alloc),
        neighbours,
        interval: 30_000,
        goodbyes: Goodbyes::EndAtOnce,
        state: None,
    })
}

/// A front of this name, to which r1.example may connect.
fn front(alloc: Global, node: NodeNo, name: &str) -> anyhow::Result<LocalNode> {
    let site = watch_site(
        alloc,
        name,
        Application::CreditControl,
        (RELAY, "r1.example"),
    )?;
    Ok(LocalNode { node, site })
}

/// Fronts of these names, to which r1.example may connect.
pub fn fronts(alloc: Global, names: &[(NodeNo, &str)]) -> anyhow::Result<Vec<LocalNode>> {
    let mut locals = Vec::new(alloc);
    for (node, name) in names {
        locals.push(front(alloc, *node, name)?)?;
    }
    Ok(locals)
}
