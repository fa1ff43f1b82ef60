//! What a site file says of who may come up: its fault, and what may look wrong.

ghost use Rattle.std.specs.Prelude.{◌≡◌, IfErr, IfOk, OnOk, Some};
ghost use Rattle.toml.specs.Parse.{parse_document};
ghost use Rattle.toml.specs.View.{table_view};
ghost use Rattle.farm_access.specs.Spelling.{Spells};
ghost use Rattle.farm_check.specs.Checking.{IsRefused};
ghost use Rattle.farm_check.specs.Doubts.{IsToldIf, is_off};

use crate::fault::CheckFault;
use crate::keys::push_unknown_keys;
use crate::lines::{Lines, identity_text};
use crate::nodes::kind_word;
use crate::parts::{Entry, beginning_of};
use crate::places::{place_in_entry, place_of_value};
use farm_access::{Access, AccessFault, Strict, Strictness};
use farm_base::Site;
use std::alloc::{AllocError, Global};
use toml::{Table, Value};

/// The key that says where a node may connect from.
const FROM: &str = "from";

/// The key that says where a node listens.
const ADDRESS: &str = "address";

/// The key that says what the site asks for beyond what a peer meets by default.
const STRICT: &str = "strict";

/// What the file of this document says of who may come up, or why it does not.
pub fn check_origins(alloc: Global, file: &[u8], document: &Table) -> Result<Access, CheckFault>
    requires { parse_document file.now ≡ Some (table_view document.now) }
    ensures ok { IfOk result (Spells file.now) }
    ensures fault { IfErr result (IsRefused file.now) }
{
    match Access::of_document(alloc, document) {
        Ok(access) => Ok(access),
        Err(AccessFault::OutOfMemory) => Err(CheckFault::OutOfMemory),
        Err(fault) => Err(CheckFault::Access(fault, origin_text(alloc, file, document, fault)?)),
    }
}

/// The lines of a fault: its own, its place with what was expected there, and then the keys that nothing reads.
fn origin_text(
    alloc: Global,
    file: &[u8],
    document: &Table,
    fault: AccessFault,
) -> Result<String, AllocError> {
    let (place, expected) = (place_text(alloc, file, fault)?, expected_at(fault));
    let mut lines = Lines::new(alloc);
    lines.push(format!(in alloc; "{fault}")?.as_str())?;
    lines.push(format!(in alloc; "{place}: expected {expected}")?.as_str())?;
    push_unknown_keys(alloc, &mut lines, document)?;
    Ok(lines.into_text())
}

/// The place of what stands at `strict`, or of the first node that has such a fault.
fn place_text(alloc: Global, file: &[u8], fault: AccessFault) -> Result<String, AllocError> {
    let Ok(text) = std::str::from_utf8(file) else {
        return String::from_str(alloc, "the file");
    };
    match fault {
        AccessFault::NoWords | AccessFault::UnknownWord | AccessFault::WordTwice => {
            place_of_strict(alloc, text)
        }
        _ => place_of_node(alloc, text),
    }
}

/// The place of what stands at `strict`.
fn place_of_strict(alloc: Global, text: &str) -> Result<String, AllocError> {
    match place_of_value(text, 0, STRICT) {
        Some(place) => format!(in alloc; "{place}"),
        None => String::from_str(alloc, "above the tables of the file"),
    }
}

/// The place of the first node that has a fault.
fn place_of_node(alloc: Global, text: &str) -> Result<String, AllocError> {
    let Some(entry) = node_at_fault(alloc, text) else {
        return String::from_str(alloc, "the file");
    };
    let number = entry.number;
    match place_in_entry(text, entry, FROM) {
        Some(place) => format!(in alloc; "{place}, node {number}"),
        None => format!(in alloc; "node {number}"),
    }
}

/// The first node that has such a fault, of at most 64.
fn node_at_fault(alloc: Global, text: &str) -> Option<Entry> {
    let nodes = beginning_of(alloc, text, 0, 64)?;
    for number in 1usize..65 {
        let some = beginning_of(alloc, nodes.as_str(), 0, number)?;
        if Access::read(alloc, some.as_bytes()).is_err() {
            let table = "node";
            return Some(Entry { table, number });
        }
    }
    None
}

/// What was expected where the fault is.
fn expected_at(fault: AccessFault) -> &'static str {
    match fault {
        AccessFault::NoPrefix =>
            "IP addresses or prefixes, as 192.0.2.7, 192.0.2.0/24 or 2001:db8::/32",
        AccessFault::NoTexts => "a list of texts, each an IP address or a prefix",
        AccessFault::TooManyPrefixes => "at most 64 addresses and prefixes",
        AccessFault::TooManyNodes => "at most 64 nodes",
        AccessFault::NoWords | AccessFault::UnknownWord =>
            "a list of texts, each names, end-to-end, goodbyes, origin-state or fairness",
        AccessFault::WordTwice => "each word once",
        AccessFault::NoTables => "a list of tables, with a header in two brackets for each entry",
        AccessFault::NotToml => "TOML in UTF-8",
        AccessFault::OutOfMemory => "memory",
    }
}

/// A line where the site does not hold to names.
pub fn push_names_off(lines: &mut Lines, strictness: Strictness) -> Result<(), AllocError>
    ensures { OnOk result (IsToldIf (is_off strictness Strict.Names) lines.old lines.new) }
{
    if strictness.is_on(Strict::Names) {
        return Ok(());
    }
    lines.push(
        "look: strict: names is off, so that another node may answer, or connect, under a node's name",
    )
}

/// A line where relays do not compare End-to-End Identifiers.
pub fn push_ends_off(lines: &mut Lines, strictness: Strictness) -> Result<(), AllocError>
    ensures { OnOk result (IsToldIf (is_off strictness Strict.EndToEnd) lines.old lines.new) }
{
    if strictness.is_on(Strict::EndToEnd) {
        return Ok(());
    }
    lines.push(
        "look: strict: end-to-end is off, so that a relay takes an answer whose End-to-End Identifier its request has not",
    )
}

/// A line where a goodbye ends a connection at once.
pub fn push_goodbyes_off(lines: &mut Lines, strictness: Strictness) -> Result<(), AllocError>
    ensures { OnOk result (IsToldIf (is_off strictness Strict.Goodbyes) lines.old lines.new) }
{
    if strictness.is_on(Strict::Goodbyes) {
        return Ok(());
    }
    lines.push(
        "look: strict: goodbyes is off, so that a node which says goodbye is left at once, and what it has not answered is sent again",
    )
}

/// A line where fronts do not say whether sessions were lost.
pub fn push_state_off(lines: &mut Lines, strictness: Strictness) -> Result<(), AllocError>
    ensures { OnOk result (IsToldIf (is_off strictness Strict.OriginState) lines.old lines.new) }
{
    if strictness.is_on(Strict::OriginState) {
        return Ok(());
    }
    lines.push(
        "look: strict: origin-state is off, so that a peer does not learn that a front has lost its sessions",
    )
}

/// A line where a client may have the whole room of a front or a relay.
pub fn push_fairness_off(lines: &mut Lines, strictness: Strictness) -> Result<(), AllocError>
    ensures { OnOk result (IsToldIf (is_off strictness Strict.Fairness) lines.old lines.new) }
{
    if strictness.is_on(Strict::Fairness) {
        return Ok(());
    }
    lines.push(
        "look: strict: fairness is off, so that while a client floods others are answered that the farm is too busy",
    )
}

/// A line for each node that may connect from anywhere, where another one may not, or where a node listens to others than this
/// machine: whoever connects may come up as that node.
pub fn push_open_nodes(
    alloc: Global,
    lines: &mut Lines,
    site: &Site,
    document: &Table,
) -> Result<(), AllocError> {
    let Some(value) = document.get("node") else {
        return Ok(());
    };
    let Some(entries) = value.as_array() else {
        return Ok(());
    };
    let is_asked = entries
        .iter()
        .any(|entry| has_origins(entry) || is_reached(entry));
    if !is_asked {
        return Ok(());
    }
    for (entry, node) in entries.iter().zip(site.nodes.as_slice()) {
        if !has_origins(entry) {
            let (kind, name) = (kind_word(node.kind), identity_text(alloc, &node.name)?);
            lines.push(format!(in alloc;
                "look: {kind} {name} may connect from anywhere, since it has no key from"
            )?.as_str())?;
        }
    }
    Ok(())
}

/// Whether an entry says where the node may connect from.
fn has_origins(entry: &Value) -> bool {
    match entry.as_table() {
        Some(fields) => fields.get(FROM).is_some(),
        None => false,
    }
}

/// Whether an entry has an address that others than this machine reach.
fn is_reached(entry: &Value) -> bool {
    let Some(fields) = entry.as_table() else {
        return false;
    };
    match fields.get(ADDRESS) {
        Some(value) => !is_loopback(value.as_str()),
        None => false,
    }
}

/// Whether an address is this machine's alone: 127.0.0.0/8 or ::1.
fn is_loopback(address: Option<&str>) -> bool {
    match address {
        Some(text) => text.starts_with("127.") || text.starts_with("[::1]"),
        None => true,
    }
}
