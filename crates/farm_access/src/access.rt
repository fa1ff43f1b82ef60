//! Who may come up, by what a site says.

ghost use Rattle.std.specs.Prelude.{◌≡◌, ◌≤◌, ℕ, List, [], IfErr, IfOk, Some, length};
ghost use Rattle.std.specs.List.{list_any};
ghost use Rattle.std.specs.Net.Addr.{MatchIp, IsCanonicalOf};
ghost use Rattle.farm_access.specs.Rules.{Policy, barred_from, may_come_up, permits};
ghost use Rattle.farm_access.specs.Spelling.{IsWhy, Spells};
ghost use Rattle.farm_access.specs.Strictness.{lenient};
ghost use Rattle.toml.specs.Parse.{parse_document};
ghost use Rattle.toml.specs.View.{table_view};

use crate::coming::{AddressRule, Coming, is_among, may_answer, may_connect};
use crate::fault::AccessFault;
use crate::reading::{rules_in, strictness_in, table_of};
use crate::strict::Strictness;
use dia_base::{Listing, NodeNo};
use std::alloc::{AllocError, Global};
use std::marker::Model;
use std::net::IpAddr;
use toml::Table;

/// Who may come up, by what a site says: from where each node may connect, by its number, and what the site asks for beyond
/// that.
#[derive(Drop)]
pub struct Access {
    rules: Listing<AddressRule>,
    strict: Strictness,
}

impl Model for Access {
    ghost use Rattle.std.specs.Prelude.{length, ◌≤◌};
    ghost use Rattle.farm_access.specs.Rules.{Policy};

    ghost Value = { Policy };

    ghost view = { λ access. record { rules = access.rules; strict = access.strict } };

    ghost invariant = { λ access. length access.rules ≤ 64 };
}

/// The places of the rules by which a node may not come up that connects from an address; `callers` are the nodes that the
/// site has as the side that connects.
fn barred_by(
    alloc: Global,
    strict: Strictness,
    rules: &[AddressRule],
    callers: &[NodeNo],
    address: IpAddr,
) -> Result<Vec<NodeNo>, AllocError>
    requires { length rules.now ≤ 64 }
    ensures { IfOk result (λ barred. barred.items ≡ barred_from strict callers.now 0 rules.now address) }
{
    let mut barred = Vec::new(alloc);
    for (place, rule) in rules.iter().enumerate() {
        if !may_connect(strict, rule, address, is_among(callers, place)) {
            barred.push(NodeNo(place as u32))?;
        }
    }
    Ok(barred)
}

/// An address as it is compared: an IPv4 address that an IPv6 socket shows (`::ffff:192.0.2.1`) as the IPv4 address that
/// it is, and any other one as it stands.
pub fn canonical(address: IpAddr) -> IpAddr
    ensures { MatchIp address (λ _. result ≡ address) (λ a. IsCanonicalOf a result) }
{
    address.to_canonical()
}

impl Access {
    /// Nobody may connect, from wherever, and who is connected to may answer under any name.
    pub fn nobody(alloc: Global) -> Self
        ensures { result ≡ record { rules = []; strict = lenient } }
    {
        Access {
            rules: Listing::empty(alloc),
            strict: Strictness::lenient(),
        }
    }

    /// What the document of a site file says of its nodes, in its order, and at `strict`; or the first fault.
    pub fn of_document(alloc: Global, document: &Table) -> Result<Self, AccessFault>
        // Of each text of which this is the document.
        ensures spelled { IfOk result (λ access. (text : List ℕ) →
            parse_document text ≡ Some (table_view document.now) → Spells text access) }
        ensures fault { IfErr result (λ fault. (text : List ℕ) →
            parse_document text ≡ Some (table_view document.now) → IsWhy text fault) }
    {
        let strict = strictness_in(document)?;
        let rules = rules_in(alloc, document)?;
        Ok(Access {
            rules: Listing::from_vec(rules),
            strict,
        })
    }

    /// What the octets of a site file say, as [`Access::of_document`] reads their document; or the first fault.
    pub fn read(alloc: Global, octets: &[u8]) -> Result<Self, AccessFault>
        ensures spelled { IfOk result (Spells octets.now) }
        ensures fault { IfErr result (IsWhy octets.now) }
    {
        let document = table_of(alloc, octets)?;
        Access::of_document(alloc, &document)
    }

    /// Whether a node may come up that comes so. One that the site has not may not connect.
    pub fn may_come_up(&self, node: NodeNo, coming: Coming) -> bool
        ensures { result ≡ may_come_up self.now node coming }
    {
        match coming {
            Coming::Connects { address, is_caller } => {
                match self.rules.as_slice().get(node.0 as usize) {
                    Some(rule) => may_connect(self.strict, rule, address, is_caller),
                    None => false,
                }
            }
            Coming::Answers { is_named } => may_answer(self.strict, is_named),
        }
    }

    /// What the site asks for beyond what a peer meets by default.
    pub fn strictness(&self) -> Strictness
        ensures { result ≡ self.now.strict }
    {
        self.strict
    }

    /// Whether some node may connect from an address.
    pub fn admits(&self, address: IpAddr) -> bool
        ensures { result ≡ list_any (λ rule. permits rule address) self.now.rules }
    {
        self.rules
            .as_slice()
            .iter()
            .any(|rule| rule.permits(address))
    }

    /// The nodes that may not come up that connect from an address, in the order of their numbers. `callers` are those that
    /// the site has as the side that connects.
    pub fn barred(
        &self,
        alloc: Global,
        callers: &[NodeNo],
        address: IpAddr,
    ) -> Result<Vec<NodeNo>, AllocError>
        ensures { IfOk result (λ barred. barred.items ≡ barred_from self.now.strict callers.now 0 self.now.rules address) }
    {
        barred_by(alloc, self.strict, self.rules.as_slice(), callers, address)
    }
}
