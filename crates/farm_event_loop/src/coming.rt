//! Which nodes may come up on the connections of a process, by what its site says.

ghost use Rattle.std.specs.Prelude.{◌≡◌, IfOk, false, not};
ghost use Rattle.farm_access.specs.Rules.{barred_from, may_come_up};
ghost use Rattle.farm_endpoints.specs.Endpoints.{callers_of};
ghost use Rattle.farm_connections.specs.Naming.{is_own};

use dia_base::NodeNo;
use farm_access::{Access, Coming};
use farm_base::Site;
use farm_connections::NameRule;
use farm_endpoints::callers_of;
use std::alloc::{AllocError, Global};
use std::net::IpAddr;

/// The nodes that may not come up that connect to the node `local` from this address.
pub fn barred_on(
    alloc: Global,
    site: &Site,
    access: &Access,
    local: NodeNo,
    address: IpAddr,
) -> Result<Vec<NodeNo>, AllocError>
    ensures { IfOk result (λ barred. barred.items ≡ barred_from access.now.strict (callers_of site.now local) 0 access.now.rules address) }
{
    let callers = callers_of(alloc, site, local)?;
    access.barred(alloc, &callers, address)
}

/// By which name a node comes up that a node of this process connects to.
pub fn names_for(access: &Access, peer: NodeNo) -> NameRule
    ensures { is_own result ≡ not (may_come_up access.now peer (Coming.Answers false)) }
{
    if access.may_come_up(peer, Coming::Answers { is_named: false }) {
        NameRule::Any
    } else {
        NameRule::Own
    }
}
