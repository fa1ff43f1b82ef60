//! The nodes of a site file.

ghost use Rattle.std.specs.Prelude.{◌≡◌, ◌≤◌, ◌⊎◌, IfErr, IfOk, IfSome, vec_len, option_map};
ghost use Rattle.std.specs.List.{list_any};
ghost use Rattle.std.specs.Net.Grammar.{IsSocketText};
ghost use Rattle.dia_base.specs.Folding.{same_folded};
ghost use Rattle.farm_base.specs.CheckedSite.{is_sound_name, same_name};
ghost use Rattle.farm_site.specs.Faults.{IsFaultOf, IsNodeFault, IsOfOptionalKey, IsTableFault, IsUnknownWord};
ghost use Rattle.farm_site.specs.Growing.{AreSound, MayFollow};
ghost use Rattle.farm_site.specs.Spelling.{SpellsNode, SpellsTable, WritesAddress, value_at, node_word};
ghost use Rattle.toml.specs.Data.{string};
ghost use Rattle.toml.specs.View.{table_view};

use crate::entry::Entry;
use crate::fault::SiteFault;
use crate::key::Key;
use dia_avp::Octets;
use dia_base::{Identity, NodeKind};
use farm_base::Node;
use std::alloc::Global;
use std::net::SocketAddr;

/// The most nodes of a site.
const NODE_LIMIT: usize = 64;

/// The nodes of the file, in its order.
pub fn nodes_of(alloc: Global, file: Entry) -> Result<Vec<Node>, SiteFault>
    ensures count { IfOk result (λ nodes. vec_len nodes ≤ 64) }
    ensures sound { IfOk result (λ nodes. AreSound is_sound_name same_name nodes.items) }
    ensures spelled { IfOk result (λ nodes. SpellsTable SpellsNode Key.Node (table_view file.entry.table.now) nodes.items) }
    ensures fault { IfErr result (IsTableFault SpellsNode IsNodeFault Key.Node (table_view file.entry.table.now)) }
{
    let entries = file.entries(alloc, Key::Node, NODE_LIMIT)?;
    let mut nodes = Vec::new(alloc);
    for entry in &entries {
        let node = node_of(alloc, *entry, &nodes)?;
        nodes.push(node)?;
    }
    Ok(nodes)
}

/// The node of an entry, where these stand before it.
fn node_of(alloc: Global, entry: Entry, before: &[Node]) -> Result<Node, SiteFault>
    ensures follows { IfOk result (MayFollow is_sound_name same_name before.now) }
    ensures spelled { IfOk result (SpellsNode (table_view entry.entry.table.now)) }
    ensures fault { IfErr result (IsNodeFault before.now (table_view entry.entry.table.now)) }
{
    let name = entry.identity(alloc, Key::Name)?;
    if is_named(before, &name) {
        return Err(SiteFault::Twice { key: Key::Name });
    }
    Ok(Node {
        name,
        kind: kind_of(entry.text(Key::Kind)?)?,
        address: address_of(alloc, entry)?,
    })
}

/// Whether one of the nodes has this name, without ASCII case.
fn is_named(nodes: &[Node], name: &Identity) -> bool
    ensures { result ≡ list_any (λ node. same_folded node.name name.now) nodes.now }
{
    nodes.iter().any(|node| node.name == *name)
}

fn kind_of(word: &str) -> Result<NodeKind, SiteFault>
    ensures value { IfOk result (λ kind. word.now ≡ node_word kind) }
    ensures fault { IfErr result (λ fault. (fault ≡ SiteFault.OutOfRange Key.Kind) × ((kind : NodeKind) → ¬ (word.now ≡ node_word kind))) }
{
    match word {
        "relay" => Ok(NodeKind::Relay),
        "front" => Ok(NodeKind::Front),
        "client" => Ok(NodeKind::Client),
        _ => Err(SiteFault::OutOfRange { key: Key::Kind }),
    }
}

/// The address of an entry, as it is written: an IPv4 address, or an IPv6 address in brackets, and a port.
fn address_of(alloc: Global, entry: Entry) -> Result<Option<Octets>, SiteFault>
    ensures value { IfOk result (λ address. value_at Key.Address (table_view entry.entry.table.now) ≡ option_map string address) }
    ensures written { IfOk result (λ address. IfSome address WritesAddress) }
    ensures fault { IfErr result (λ fault. IsFaultOf (table_view entry.entry.table.now) fault ⊎ ((fault ≡ SiteFault.OutOfRange Key.Address) × IsUnknownWord IsSocketText Key.Address (table_view entry.entry.table.now))) }
    ensures told { IfErr result (IsOfOptionalKey Key.Address) }
{
    let Some(written) = entry.optional_text(Key::Address)? else {
        return Ok(None);
    };
    match written.parse::<SocketAddr>() {
        Ok(_) => Ok(Some(Octets::copy_of(alloc, written.as_bytes())?)),
        Err(_) => Err(SiteFault::OutOfRange { key: Key::Address }),
    }
}
