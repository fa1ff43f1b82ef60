//! The nodes that are served here.

ghost use Rattle.std.specs.Prelude.{◌≡◌, option_copied};
ghost use Rattle.farm_connections.specs.Locals.{site_at};

use dia_base::NodeNo;
use farm_watch::WatchSite;

/// A node that is served here, with what its connections know of it.
#[derive(Drop)]
pub struct LocalNode {
    pub node: NodeNo,
    pub site: WatchSite,
}

/// What the connections of a node know of it, if it is served here.
pub(crate) fn site_of(locals: &[LocalNode], node: NodeNo) -> Option<&WatchSite>
    ensures { option_copied result ≡ site_at node locals.now }
{
    let local = locals.iter().find(|local| local.node.0 == node.0)?;
    Some(&local.site)
}
