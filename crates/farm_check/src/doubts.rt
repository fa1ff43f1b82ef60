//! What may look wrong in a site that is accepted.

ghost use Rattle.std.specs.Prelude.{◌≡◌, OnOk};
ghost use Rattle.farm_base.specs.Nodes.{is_relay};
ghost use Rattle.farm_check.specs.Doubts.{IsToldIf, is_doubtful, is_linked_with_relay};

use crate::clients::push_client_doubts;
use crate::lines::{Lines, identity_text, node_name, text_of};
use crate::money::{cost_by, services_of};
use crate::nodes::kind_word;
use cc_book::Account;
use cc_rating::{Tariff, Tariffs};
use dia_base::{NodeKind, NodeNo};
use farm_base::{Node, Route, Site};
use std::alloc::{AllocError, Global};

/// A line for each thing that may look wrong, which begins with `look:`.
pub fn push_doubts(
    alloc: Global,
    lines: &mut Lines,
    site: &Site,
    accounts: &[Account],
    tariffs: &Tariffs,
) -> Result<(), AllocError> {
    push_client_doubts(lines, site)?;
    push_empty_tables(lines, site, accounts)?;
    for (place, node) in site.nodes.as_slice().iter().enumerate() {
        push_node_doubts(alloc, lines, site, place, node)?;
    }
    push_shared_addresses(alloc, lines, site)?;
    for route in site.routes.as_slice() {
        push_route_doubts(alloc, lines, site, route)?;
    }
    for tariff in site.tariffs.as_slice() {
        push_tariff_doubts(alloc, lines, accounts, tariffs, tariff)?;
    }
    Ok(())
}

/// Tables without an entry, which a farm that charges cannot do without.
fn push_empty_tables(
    lines: &mut Lines,
    site: &Site,
    accounts: &[Account],
) -> Result<(), AllocError> {
    if site.nodes.is_empty() {
        lines.push("look: there is no node")?;
    }
    if site.tariffs.is_empty() {
        lines.push("look: there is no tariff: every service is refused, DIAMETER_RATING_FAILED")?;
    }
    if accounts.is_empty() {
        lines.push("look: there is no account: every request is refused, DIAMETER_USER_UNKNOWN")?;
    }
    Ok(())
}

/// A relay or front that cannot serve, a client that no relay knows.
fn push_node_doubts(
    alloc: Global,
    lines: &mut Lines,
    site: &Site,
    place: usize,
    node: &Node,
) -> Result<(), AllocError>
    ensures { OnOk result (IsToldIf (is_doubtful site.now place node.now) lines.old lines.new) }
{
    let (kind, name) = (kind_word(node.kind), identity_text(alloc, &node.name)?);
    match node.kind {
        NodeKind::Relay | NodeKind::Front => {
            if node.address.is_none() {
                lines.push(format!(in alloc;
                    "look: {kind} {name} has no address, and cannot serve"
                )?.as_str())?;
            }
        }
        NodeKind::Client => {
            if !is_linked_with_relay(site, place) {
                lines.push(format!(in alloc;
                    "look: {kind} {name} is linked with no relay"
                )?.as_str())?;
            }
        }
    }
    Ok(())
}

/// Whether a node has this address.
fn is_at(node: &Node, address: &[u8]) -> bool {
    match &node.address {
        Some(own) => own.as_slice() == address,
        None => false,
    }
}

/// A line for each node that has the address of a node before it.
fn push_shared_addresses(alloc: Global, lines: &mut Lines, site: &Site) -> Result<(), AllocError> {
    let nodes = site.nodes.as_slice();
    for (place, node) in nodes.iter().enumerate() {
        let Some(address) = &node.address else {
            continue;
        };
        let Some(other) = nodes
            .iter()
            .take(place)
            .find(|other| is_at(other, address.as_slice()))
        else {
            continue;
        };
        let (kind, name) = (kind_word(node.kind), identity_text(alloc, &node.name)?);
        let first = identity_text(alloc, &other.name)?;
        let address = text_of(alloc, address.as_slice())?;
        lines.push(format!(in alloc;
            "look: {kind} {name} has the address of {first}, {address}: only one of them can listen there"
        )?.as_str())?;
    }
    Ok(())
}

fn is_relay(site: &Site, node: NodeNo) -> bool
    ensures { result ≡ is_relay site.now node }
{
    match site.nodes.as_slice().get(node.0 as usize) {
        Some(found) => found.kind == NodeKind::Relay,
        None => false,
    }
}

fn is_linked_with_relay(site: &Site, place: usize) -> bool
    ensures { result ≡ is_linked_with_relay site.now place }
{
    site.links.as_slice().iter().any(|link| {
        link.from.0 as usize == place && is_relay(site, link.to)
            || link.to.0 as usize == place && is_relay(site, link.from)
    })
}

/// A route to nobody, or to one host alone.
fn push_route_doubts(
    alloc: Global,
    lines: &mut Lines,
    site: &Site,
    route: &Route,
) -> Result<(), AllocError> {
    let (at, realm, app) = (
        node_name(alloc, site, route.at)?,
        identity_text(alloc, &route.realm)?,
        route.app,
    );
    let peers = route.peers.as_slice();
    let Some(first) = peers.first() else {
        return lines.push(format!(in alloc;
            "look: {at} sends requests for {realm}, application {app}, to nobody"
        )?.as_str());
    };
    let Some(host) = host_of(site, *first) else {
        return Ok(());
    };
    if peers.len() > 1 && peers.iter().all(|peer| host_of(site, *peer) == Some(host)) {
        let host = text_of(alloc, host)?;
        lines.push(format!(in alloc;
            "look: all peers of {at} for {realm}, application {app}, are on {host}"
        )?.as_str())?;
    }
    Ok(())
}

/// The address of a node without its port.
fn host_of(site: &Site, node: NodeNo) -> Option<&[u8]> {
    let found = site.nodes.as_slice().get(node.0 as usize)?;
    let address = found.address.as_ref()?.as_slice();
    let colon = address.iter().rposition(|octet| *octet == b':')?;
    address.get(..colon)
}

/// A grant that no account can pay.
fn push_tariff_doubts(
    alloc: Global,
    lines: &mut Lines,
    accounts: &[Account],
    tariffs: &Tariffs,
    tariff: &Tariff,
) -> Result<(), AllocError> {
    let units = tariff.quantum.min(tariff.greatest);
    let (Some(cost), Some(opening)) = (cost_by(tariffs, tariff, units), greatest_opening(accounts))
    else {
        return Ok(());
    };
    if opening < 0 || cost > opening as u128 {
        let services = services_of(alloc, tariff)?;
        let line = format!(in alloc;
            "look: tariff {services}: a grant of {units} costs {cost}, and no account opens with more than {opening}"
        )?;
        lines.push(line.as_str())?;
    }
    Ok(())
}

/// The greatest opening of an account.
fn greatest_opening(accounts: &[Account]) -> Option<i64> {
    accounts.iter().map(|account| account.opening).max()
}
