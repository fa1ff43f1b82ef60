//! The rule by which nodes come up.

ghost use Rattle.std.specs.Prelude.{◌≡◌};
ghost use Rattle.std.specs.List.{list_any};
ghost use Rattle.farm_access.specs.Prefixes.{contains};
ghost use Rattle.farm_access.specs.Rules.{has_addresses, is_among, may_answer, may_connect, permits};

use crate::prefix::Prefix;
use crate::strict::Strictness;
use dia_base::{Listing, NodeNo};
use std::net::IpAddr;

/// From where a node may connect.
#[derive(Drop)]
pub enum AddressRule {
    /// From any address.
    Any,
    /// From the addresses of these prefixes alone.
    Within(Listing<Prefix>),
}

/// How a node comes to be at the other end of a connection.
#[derive(Clone, Copy)]
pub enum Coming {
    /// It has connected, from this address. `is_caller`: the site has it as the side that connects.
    Connects { address: IpAddr, is_caller: bool },
    /// It was connected to, and has answered. `is_named`: its answer names it.
    Answers { is_named: bool },
}

/// Whether an address is in one of the prefixes.
fn is_within(prefixes: &[Prefix], address: IpAddr) -> bool
    ensures { result ≡ list_any (λ prefix. contains prefix address) prefixes.now }
{
    prefixes.iter().any(|prefix| prefix.contains(address))
}

impl AddressRule {
    /// Whether a node of which this holds may connect from an address.
    pub fn permits(&self, address: IpAddr) -> bool
        ensures { result ≡ permits self.now address }
    {
        match self {
            AddressRule::Any => true,
            AddressRule::Within(prefixes) => is_within(prefixes.as_slice(), address),
        }
    }

    /// Whether the site says from where the node connects.
    fn has_addresses(&self) -> bool
        ensures { result ≡ has_addresses self.now }
    {
        match self {
            AddressRule::Any => false,
            AddressRule::Within(_) => true,
        }
    }
}

/// Whether a node of which this holds may come up that has connected from this address.
pub(crate) fn may_connect(
    strict: Strictness,
    rule: &AddressRule,
    address: IpAddr,
    is_caller: bool,
) -> bool
    ensures { result ≡ may_connect strict rule.now address is_caller }
{
    rule.permits(address) && (!strict.names || is_caller || rule.has_addresses())
}

/// Whether a node may come up that was connected to, and has answered.
pub(crate) fn may_answer(strict: Strictness, is_named: bool) -> bool
    ensures { result ≡ may_answer strict is_named }
{
    !strict.names || is_named
}

/// Whether the node of this number is one of these.
pub(crate) fn is_among(nodes: &[NodeNo], place: usize) -> bool
    ensures { result ≡ is_among nodes.now place }
{
    nodes.iter().any(|node| node.0 as usize == place)
}
