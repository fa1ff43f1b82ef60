//! The names that may stand where an unknown one does.

use crate::lines::{identity_text, push_listed};
use crate::parts::{Entry, site_before};
use dia_base::{NodeKind, NodeNo};
use farm_base::Site;
use farm_site::Key;
use std::alloc::{AllocError, Global};
use toml::Table;

/// The names of the nodes that may stand at this key of an entry, one behind the other.
pub fn names_for(alloc: Global, text: &str, entry: Entry, key: Key) -> Result<String, AllocError> {
    let mut names = String::new(alloc);
    let (Some(site), Ok(document)) = (
        site_before(alloc, text, entry),
        toml::table_from_str(alloc, text),
    ) else {
        return Ok(names);
    };
    let relay = relay_of(&site, &document, entry);
    for (place, node) in site.nodes.as_slice().iter().enumerate() {
        if may_stand(&site, key, place, node.kind, relay) {
            push_listed(&mut names, identity_text(alloc, &node.name)?.as_str())?;
        }
    }
    Ok(names)
}

/// Whether the node at a place may stand at a key, where an entry is of this relay.
fn may_stand(site: &Site, key: Key, place: usize, kind: NodeKind, relay: Option<usize>) -> bool {
    if key == Key::At {
        kind == NodeKind::Relay
    } else if key == Key::Peers {
        kind != NodeKind::Client && are_linked(site, relay, place)
    } else {
        true
    }
}

/// Whether there is a node and it is linked with the one at a place.
fn are_linked(site: &Site, node: Option<usize>, place: usize) -> bool {
    site.links.as_slice().iter().any(|link| {
        let (from, to) = (place_of(link.from), place_of(link.to));
        node == Some(from) && to == place || from == place && node == Some(to)
    })
}

fn place_of(node: NodeNo) -> usize {
    node.0 as usize
}

/// The node that an entry names at `at`.
fn relay_of(site: &Site, document: &Table, entry: Entry) -> Option<usize> {
    let fields = document
        .get(entry.table)?
        .as_array()?
        .get(entry.number.saturating_sub(1))?;
    let name = fields.get("at")?.as_str()?.as_bytes();
    site.nodes
        .as_slice()
        .iter()
        .position(|node| node.name.as_slice().eq_ignore_ascii_case(name))
}
