//! The links of a site file.

ghost use Rattle.std.specs.Prelude.{◌≡◌, ◌≤◌, ◌⊎◌, IfErr, IfOk, length, vec_len, true, [], not, ◌&&◌};
ghost use Rattle.std.specs.List.{list_any};
ghost use Rattle.farm_base.specs.Nodes.{is_client, is_front, is_node};
ghost use Rattle.farm_base.specs.CheckedSite.{is_sound_link, is_known, joins_two_of, same_pair};
ghost use Rattle.farm_site.specs.Faults.{IsFaultOf, IsLinkFault, IsOfKey, IsTableFault, IsUnknownAt};
ghost use Rattle.farm_site.specs.Forms.{form_of, is_for_text};
ghost use Rattle.farm_site.specs.Graph.{drawn, site_over};
ghost use Rattle.farm_site.specs.Growing.{AreSound, MayFollow};
ghost use Rattle.farm_site.specs.Spelling.{NamesAt, SpellsLink, SpellsTable};
ghost use Rattle.toml.specs.View.{table_view};

use crate::entry::Entry;
use crate::fault::SiteFault;
use crate::graph::{Graph, joins};
use crate::key::Key;
use dia_base::NodeNo;
use farm_base::{Link, Node};
use std::alloc::Global;

/// The most links of a site.
const LINK_LIMIT: usize = 256;

/// The links of the file, in its order, between these nodes.
pub fn links_of(alloc: Global, file: Entry, nodes: &[Node]) -> Result<Vec<Link>, SiteFault>
    ensures count { IfOk result (λ links. vec_len links ≤ 256) }
    ensures sound { IfOk result (λ links. AreSound (is_sound_link (site_over nodes.now [])) same_pair links.items) }
    ensures spelled { IfOk result (λ links. SpellsTable (SpellsLink nodes.now) Key.Link (table_view file.entry.table.now) links.items) }
    ensures fault { length nodes.now ≤ 64 → IfErr result (IsTableFault (SpellsLink nodes.now) (IsLinkFault nodes.now) Key.Link (table_view file.entry.table.now)) }
{
    let entries = file.entries(alloc, Key::Link, LINK_LIMIT)?;
    let mut links = Vec::new(alloc);
    for entry in &entries {
        let before = Graph {
            nodes,
            links: &links,
        };
        let link = link_of(*entry, before)?;
        links.push(link)?;
    }
    Ok(links)
}

/// The link of an entry, where these stand before it.
#[tactic(auto, using(crate::proofs::Following::link_may_follow))]
fn link_of(entry: Entry, before: Graph) -> Result<Link, SiteFault>
    ensures follows { IfOk result (MayFollow (is_sound_link (drawn before.entry)) same_pair before.entry.links.now) }
    ensures spelled { IfOk result (SpellsLink before.entry.nodes.now (table_view entry.entry.table.now)) }
    ensures fault { length before.entry.nodes.now ≤ 64 → IfErr result (IsLinkFault before.entry.nodes.now before.entry.links.now (table_view entry.entry.table.now)) }
{
    let link = Link {
        from: end_of(entry, Key::From, before)?,
        to: end_of(entry, Key::To, before)?,
    };
    if may_be(link, before) && !is_there(before.links, link) {
        Ok(link)
    } else {
        Err(SiteFault::BadLink)
    }
}

/// The node that a key names.
fn end_of(entry: Entry, key: Key, graph: Graph) -> Result<NodeNo, SiteFault>
    ensures known { IfOk result (λ node. is_known (drawn graph.entry) node ≡ true) }
    ensures named { IfOk result (NamesAt graph.entry.nodes.now key (table_view entry.entry.table.now)) }
    ensures fault { length graph.entry.nodes.now ≤ 64 → is_for_text (form_of key) ≡ true → IfErr result (λ fault. IsFaultOf (table_view entry.entry.table.now) fault ⊎ ((fault ≡ SiteFault.UnknownName key) × IsUnknownAt graph.entry.nodes.now (is_known (drawn graph.entry)) key (table_view entry.entry.table.now))) }
    ensures told { IfErr result (IsOfKey key) }
{
    match graph.find(entry.text(key)?) {
        Some(node) => Ok(node),
        None => Err(SiteFault::UnknownName { key }),
    }
}

/// Whether a link joins two nodes, and neither two clients nor two fronts.
fn may_be(link: Link, graph: Graph) -> bool
    ensures { result ≡ (not (is_node link.from link.to) && not (joins_two_of (is_client (drawn graph.entry)) link) && not (joins_two_of (is_front (drawn graph.entry)) link)) }
{
    link.from != link.to
        && !(graph.is_client(link.from) && graph.is_client(link.to))
        && !(graph.is_front(link.from) && graph.is_front(link.to))
}

/// Whether one of the links joins the same two nodes, in either direction.
fn is_there(links: &[Link], link: Link) -> bool
    ensures { result ≡ list_any (λ other. same_pair other link) links.now }
{
    links.iter().any(|other| joins(&link, other.from, other.to))
}
