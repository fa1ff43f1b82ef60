//! Nodes, links and routes of a site, a line each.

use crate::lines::{Lines, identity_text, node_name, node_names, text_of};
use dia_base::NodeKind;
use farm_base::{Link, Node, Route, Site};
use std::alloc::{AllocError, Global};

/// The nodes by their kind, the links in the order of the file, and the routes, those for a realm and an application together.
pub fn push_nodes(alloc: Global, lines: &mut Lines, site: &Site) -> Result<(), AllocError> {
    push_kind(alloc, lines, site, NodeKind::Relay)?;
    push_kind(alloc, lines, site, NodeKind::Front)?;
    push_kind(alloc, lines, site, NodeKind::Client)?;
    for link in site.links.as_slice() {
        lines.push(link_line(alloc, site, *link)?.as_str())?;
    }
    push_routes(alloc, lines, site)
}

fn push_kind(
    alloc: Global,
    lines: &mut Lines,
    site: &Site,
    kind: NodeKind,
) -> Result<(), AllocError> {
    for node in site.nodes.as_slice() {
        if node.kind == kind {
            lines.push(node_line(alloc, node)?.as_str())?;
        }
    }
    Ok(())
}

/// What a node of the kind is called.
pub fn kind_word(kind: NodeKind) -> &'static str {
    match kind {
        NodeKind::Relay => "relay",
        NodeKind::Front => "front",
        NodeKind::Client => "client",
    }
}

fn node_line(alloc: Global, node: &Node) -> Result<String, AllocError> {
    let (kind, name) = (kind_word(node.kind), identity_text(alloc, &node.name)?);
    match &node.address {
        Some(address) => {
            let address = text_of(alloc, address.as_slice())?;
            format!(in alloc; "{kind} {name} at {address}")
        }
        None => format!(in alloc; "{kind} {name}"),
    }
}

fn link_line(alloc: Global, site: &Site, link: Link) -> Result<String, AllocError> {
    let (from, to) = (
        node_name(alloc, site, link.from)?,
        node_name(alloc, site, link.to)?,
    );
    format!(in alloc; "{from} connects to {to}")
}

/// The routes for each realm and application, where the first of them stands.
fn push_routes(alloc: Global, lines: &mut Lines, site: &Site) -> Result<(), AllocError> {
    let routes = site.routes.as_slice();
    for (place, route) in routes.iter().enumerate() {
        if !routes
            .iter()
            .take(place)
            .any(|other| is_beside(other, route))
        {
            let (realm, app) = (identity_text(alloc, &route.realm)?, route.app);
            lines.push(format!(in alloc; "requests for {realm}, application {app}:")?.as_str())?;
            push_routes_beside(alloc, lines, site, route)?;
        }
    }
    Ok(())
}

/// Whether two routes are for one realm and application.
fn is_beside(one: &Route, other: &Route) -> bool {
    one.realm == other.realm && one.app == other.app
}

/// The routes for the realm and the application of this one, it among them.
fn push_routes_beside(
    alloc: Global,
    lines: &mut Lines,
    site: &Site,
    route: &Route,
) -> Result<(), AllocError> {
    for other in site.routes.as_slice() {
        if is_beside(other, route) {
            lines.push(route_line(alloc, site, other)?.as_str())?;
        }
    }
    Ok(())
}

fn route_line(alloc: Global, site: &Site, route: &Route) -> Result<String, AllocError> {
    let at = node_name(alloc, site, route.at)?;
    if route.peers.is_empty() {
        return format!(in alloc; "  {at} sends them to nobody");
    }
    let peers = node_names(alloc, site, route.peers.as_slice())?;
    format!(in alloc; "  {at} sends them to {peers}")
}
