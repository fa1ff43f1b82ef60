//! A site with two fronts.

ghost use Rattle.std.specs.Prelude.{◌≡◌, ◌<◌, IfOk};

use dia_base::{Identity, Listing, NodeKind, NodeNo};
use farm_base::{Node, Site};
use std::alloc::Global;

/// The front f1.example.
pub const FIRST: NodeNo = NodeNo(0);

/// The front f2.example.
pub const SECOND: NodeNo = NodeNo(1);

/// A node that connects to both. It is none of the fronts.
pub const CLIENT: NodeNo = NodeNo(2);

fn front(alloc: Global, name: &[u8]) -> anyhow::Result<Node> {
    Ok(Node {
        name: Identity::read(alloc, name)?,
        kind: NodeKind::Front,
        address: None,
    })
}

/// The two fronts.
fn fronts(alloc: Global) -> anyhow::Result<Vec<Node>> {
    let first = front(alloc, b"f1.example")?;
    let second = front(alloc, b"f2.example")?;
    Ok(vec![in alloc; first, second]?)
}

/// A site with the two fronts. Each has one worker, and eight requests may wait at it.
pub fn site(alloc: Global, limit: u64) -> anyhow::Result<Site>
    ensures { IfOk result (λ site. (0 < site.queue) × (site.workers ≡ 1)) }
{
    let realm = Identity::read(alloc, b"ocs.example")?;
    let nodes = Listing::from_vec(fronts(alloc)?);
    Ok(Site {
        realm,
        validity: 600,
        limit,
        workers: 1,
        queue: 8,
        vendors: Listing::empty(alloc),
        known: Listing::empty(alloc),
        tolerate: Listing::empty(alloc),
        advertise: Listing::empty(alloc),
        currency: 978,
        exponent: -2,
        watchdog: 30_000,
        nodes,
        links: Listing::empty(alloc),
        routes: Listing::empty(alloc),
        tariffs: Listing::empty(alloc),
        accounts: Listing::empty(alloc),
    })
}
