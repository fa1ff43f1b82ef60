//! The address of a node.

ghost use Rattle.std.specs.Prelude.{◌≡◌, IfSome, IfNone};
ghost use Rattle.std.specs.Net.Grammar.{IsSocketText, Parses};
ghost use Rattle.std.specs.declared.net.socket_addr.SocketAddr.{SocketAddr};
ghost use Rattle.farm_endpoints.specs.Endpoints.{HasAddress};

use dia_base::NodeNo;
use farm_base::Site;
use std::net::{AddrParseError, SocketAddr};

/// The address that a text writes.
fn parsed(text: &[u8]) -> Result<SocketAddr, AddrParseError>
    ensures { Parses IsSocketText text.now result }
{
    SocketAddr::parse_ascii(text)
}

/// Where a node of the site listens, if its entry says so.
pub fn socket_of(site: &Site, node: NodeNo) -> Option<SocketAddr>
    ensures found { IfSome result (HasAddress site.now node) }
    ensures none { IfNone result ((address : SocketAddr) → ¬ HasAddress site.now node address) }
{
    match site.nodes.as_slice().get(node.0 as usize) {
        Some(entry) => match &entry.address {
            Some(text) => match parsed(text.as_slice()) {
                Ok(address) => Some(address),
                Err(_) => None,
            },
            None => None,
        },
        None => None,
    }
}
