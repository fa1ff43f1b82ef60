//! Site files: a TOML text that says of which nodes a farm consists, and what its book is opened with.
//!
//! ```text
//! realm = "ocs.example"      # Origin-Realm of each relay and front
//! validity = 600             # 1 to 86400: Validity-Time in seconds
//! limit = 1048576            # 1 to 1048576, which is what it is where it is absent: the most entries of the book
//! workers = 2                # 1 to 16 (2): of each front
//! queue = 1024               # 1 to 1024 (1024): the most requests that wait at a front
//! vendors = [10415]          # 0 to 4294967295 each ([10415]): whose AVPs are known, beside vendor 0
//! known = [480, 485]         # 462 to 4294967295 each, at most 256 ([]): codes of vendor 0 that are known beside the dictionary's
//! tolerate = ["origin-twice"] # or "application-in-group" ([]): deviations of clients that are tolerated
//! advertise = [10415]        # 0 to 4294967295 each, at most 16 ([]): vendors for which credit control is advertised
//! currency = 978             # 0 to 999: Currency-Code
//! exponent = -2              # -9 to 9: a minor unit is ten to this power of the currency
//! watchdog = 30000           # 100 to 600000 (30000): milliseconds
//!
//! [[node]]                   # at most 64
//! name = "r1.example"        # an identity; no two are equal without ASCII case
//! kind = "relay"             # or "front", "client"
//! address = "127.0.0.1:3868" # or "[::1]:3868"; may be absent
//!
//! [[link]]                   # at most 256
//! from = "c1.example"        # connects; names of nodes, without ASCII case
//! to = "r1.example"
//!
//! [[route]]                  # at most 256
//! at = "r1.example"          # a relay
//! realm = "ocs.example"
//! app = 4                    # 0 to 4294967295: Application-ID
//! peers = ["f1.example"]     # at most 16: relays and fronts that are linked with it, the best first
//!
//! [[tariff]]                 # at most 1024
//! group = 10                 # or ident = 7; 0 to 4294967295
//! kind = "octets"            # or "time", "units"
//! block = 1000               # 1 to 4294967296
//! price = 5                  # 0 to 1048576
//! quantum = 5000             # 1 to 9223372036854775807, for time to 4294967295
//! greatest = 10000           # as quantum
//!
//! [[account]]                # at most 65536
//! type = 0                   # 0 to 4: Subscription-Id-Type
//! id = "491700000001"        # 1 to 64 octets of visible ASCII: Subscription-Id-Data
//! opening = 1000             # -4611686018427387904 to 4611686018427387904
//! ```
//!
//! Unknown keys are ignored; a table that is missing has no entries. A link joins two nodes, not two
//! clients and not two fronts, and each two nodes once, in either direction. No code, name or vendor stands twice in
//! `known`, `tolerate` or `advertise`. No two routes have one
//! relay, realm and application, no two tariffs one group or one identifier, and no two accounts one
//! type and one text.
//!
//! - [`site_of`], [`site_of_octets`]: the site that a text spells, or the first fault of it.
//!   A text is read, unless memory runs out, exactly where it spells a checked site (`specs/Spelling`),
//!   and then as this site; a fault is one that the text has (`specs/Faults`). Which of several faults is
//!   told is not proved.
//! - [`site_document_of_octets`]: the same with the document, so that whoever reads other keys of it parses no text again.
//! - [`SiteFault`] with its [`Key`]: why a text is no site, with the words that are printed.
//! - [`one_site`], [`site_files_have_no_fault`]: a text spells one site at most, and where it does, no fault could be told
//!   of it.
//! - [`known_codes_are_none_of_the_dictionary`]: what a site makes known was not known without it.
//! - [`links_join_two_nodes_once`], [`ends_are_nodes_of_the_file`], [`names_stand_once`]: worked examples of faults that
//!   other entries decide.
//!
//! Inside, `entry` reads a key of a table, `client` what deviates in clients, `graph` finds nodes and links by name, and
//! `node`, `link`, `route`, `tariff` and `account` each read a table of the file.
//!
//! ```text
//! use farm_site::site_of;
//!
//! fn nodes(alloc: Global, text: &str) -> usize {
//!     match site_of(alloc, text) {
//!         Ok(site) => site.nodes.len(),
//!         Err(_) => 0,
//!     }
//! }
//! ```
#![tactic(auto)]

ghost use Rattle.std.specs.Prelude.{◌≡◌, ◌<◌, ◌⊎◌, Err, Ok, IfErr, IfOk, None, Some, length, nat_le, true};
ghost use Rattle.std.specs.Str.{IsUtf8};
ghost use Rattle.farm_base.specs.CheckedSite.{IsChecked, size_of};
ghost use Rattle.farm_site.specs.Faults.{AreWhyOctets, IsFaultIn, IsFaultOf, IsNoFile, IsOfKey, IsWhyText};
ghost use Rattle.farm_site.specs.Spelling.{IsSiteFile, IsTyped, Spells, SpellsSite, value_at};
ghost use Rattle.toml.specs.Data.{integer};
ghost use Rattle.toml.specs.Parse.{parse_document};
ghost use Rattle.toml.specs.View.{table_view};

mod account;
mod client;
mod entry;
mod fault;
mod graph;
mod key;
mod laws;
mod link;
mod node;
mod route;
mod tariff;

use account::accounts_of;
use client::{advertised_of, known_of, tolerated_of};
use dia_base::{HISTORY_LIMIT, Listing, QUEUE_LIMIT, WORKER_LIMIT};
use entry::Entry;
use farm_base::Site;
pub use fault::SiteFault;
use graph::Graph;
pub use key::Key;
pub use laws::{
    ends_are_nodes_of_the_file, known_codes_are_none_of_the_dictionary, links_join_two_nodes_once,
    names_stand_once, one_site, site_files_have_no_fault,
};
use link::links_of;
use node::nodes_of;
use route::routes_of;
use std::alloc::Global;
use std::str;
use tariff::tariffs_of;
use toml::Table;

/// The longest site file in octets.
pub const SITE_LIMIT: usize = 16_777_216;

/// A site, and the document that spells it: there stand keys that are none of a site.
#[derive(Drop)]
pub struct SiteDocument {
    pub site: Site,
    pub document: Table,
}

/// The site that octets spell, as [`site_of_octets`] reads them, with their document.
pub fn site_document_of_octets(alloc: Global, octets: &[u8]) -> Result<SiteDocument, SiteFault>
    ensures checked { IfOk result (λ read. IsChecked read.site) }
    ensures file { IfOk result (λ read. IsSiteFile octets.now read.site) }
    ensures document { IfOk result (λ read. parse_document octets.now ≡ Some (table_view read.document)) }
    ensures fault { IfErr result (AreWhyOctets octets.now) }
{
    let Ok(text) = str::from_utf8(octets) else {
        return Err(SiteFault::NotToml);
    };
    let document = table_of(alloc, text)?;
    match site_in(alloc, Entry::new(&document)) {
        Ok(site) => Ok(SiteDocument { site, document }),
        Err(fault) => Err(fault),
    }
}

/// The site that octets spell, as [`site_of`] reads them. Octets that are no UTF-8 are `NotToml`.
pub fn site_of_octets(alloc: Global, octets: &[u8]) -> Result<Site, SiteFault>
    ensures checked { IfOk result IsChecked }
    ensures spelled { IfOk result (Spells octets.now) }
    ensures file { IfOk result (IsSiteFile octets.now) }
    ensures no_text { ¬ (IsUtf8 octets.now) → result ≡ Err SiteFault.NotToml }
    ensures long { 16777216 < length octets.now → result ≡ Err SiteFault.NotToml }
    ensures no_toml { parse_document octets.now ≡ None → (result ≡ Err SiteFault.NotToml) ⊎ (result ≡ Err SiteFault.OutOfMemory) }
    ensures fault { IfErr result (AreWhyOctets octets.now) }
    ensures read { (site : Site) → IsUtf8 octets.now → IsSiteFile octets.now site → (result ≡ Ok site) ⊎ (result ≡ Err SiteFault.OutOfMemory) }
{
    match str::from_utf8(octets) {
        Ok(text) => site_of(alloc, text),
        Err(_) => Err(SiteFault::NotToml),
    }
}

/// The site that a text spells, or its first fault.
///
/// A text of more than [`SITE_LIMIT`] octets is `NotToml`. Then the keys are read in the order of
/// [`Key`], tables entry by entry and the keys of an entry in their order; the first that has a fault
/// is told. Of one key the faults come in the order of [`SiteFault`], but for these:
///
/// - `TooMany` comes before anything is looked at in a table, in `known`, in `advertise` or in `peers`. Then an array
///   with an element of another type than its own is `WrongType`.
/// - the names of `tolerate` are looked at one by one: `UnknownName` or `Twice`.
/// - a tariff with neither group nor identifier is `Missing group`, one with both `Twice ident`.
/// - `Twice route` is told before `peers` is read, and `Twice id` before `opening`.
pub fn site_of(alloc: Global, text: &str) -> Result<Site, SiteFault>
    ensures checked { IfOk result IsChecked }
    ensures spelled { IfOk result (Spells text.now) }
    ensures file { IfOk result (IsSiteFile text.now) }
    ensures long { 16777216 < length text.now → result ≡ Err SiteFault.NotToml }
    ensures no_toml { parse_document text.now ≡ None → (result ≡ Err SiteFault.NotToml) ⊎ (result ≡ Err SiteFault.OutOfMemory) }
    ensures fault { IfErr result (IsWhyText text.now) }
    ensures read { (site : Site) → IsSiteFile text.now site → (result ≡ Ok site) ⊎ (result ≡ Err SiteFault.OutOfMemory) }
{
    let table = table_of(alloc, text)?;
    site_in(alloc, Entry::new(&table))
}

fn table_of(alloc: Global, text: &str) -> Result<Table, SiteFault>
    ensures document { IfOk result (λ table. parse_document text.now ≡ Some (table_view table)) }
    ensures long { 16777216 < length text.now → result ≡ Err SiteFault.NotToml }
    ensures no_toml { parse_document text.now ≡ None → (result ≡ Err SiteFault.NotToml) ⊎ (result ≡ Err SiteFault.OutOfMemory) }
    ensures fault { IfErr result (λ fault. ((fault ≡ SiteFault.NotToml) × IsNoFile text.now) ⊎ (fault ≡ SiteFault.OutOfMemory)) }
{
    if text.len() > SITE_LIMIT {
        return Err(SiteFault::NotToml);
    }
    match toml::table_from_str(alloc, text) {
        Ok(table) => Ok(table),
        Err(fault) if fault.is_memory() => Err(SiteFault::OutOfMemory),
        Err(_) => Err(SiteFault::NotToml),
    }
}

/// The site that a table has.
fn site_in(alloc: Global, file: Entry) -> Result<Site, SiteFault>
    ensures checked { IfOk result IsChecked }
    ensures spelled { IfOk result (SpellsSite (table_view file.entry.table.now)) }
    ensures typed { IfOk result IsTyped }
    ensures fault { IfErr result (IsFaultIn (table_view file.entry.table.now)) }
{
    let realm = file.identity(alloc, Key::Realm)?;
    let validity = file.unsigned32(Key::Validity, 1, 86_400)?;
    let limit = file.unsigned64_or(Key::Limit, 1, HISTORY_LIMIT, HISTORY_LIMIT)?;
    let workers = file.unsigned32_or(Key::Workers, 1, WORKER_LIMIT, 2)?;
    let queue = file.unsigned32_or(Key::Queue, 1, QUEUE_LIMIT, QUEUE_LIMIT)?;
    let vendors = file.numbers_or(alloc, Key::Vendors, 10_415)?;
    let known = known_of(alloc, file)?;
    let tolerate = tolerated_of(alloc, file)?;
    let advertise = advertised_of(alloc, file)?;
    let currency = file.unsigned32(Key::Currency, 0, 999)?;
    let exponent = exponent_of(file)?;
    let watchdog = file.unsigned32_or(Key::Watchdog, 100, 600_000, 30_000)?;
    let nodes = nodes_of(alloc, file)?;
    let links = links_of(alloc, file, &nodes)?;
    let graph = Graph {
        nodes: &nodes,
        links: &links,
    };
    let routes = routes_of(alloc, file, graph)?;
    let tariffs = tariffs_of(alloc, file)?;
    let accounts = accounts_of(alloc, file)?;
    Ok(Site {
        realm,
        validity,
        limit,
        workers,
        queue,
        vendors: Listing::from_vec(vendors),
        known: Listing::from_vec(known),
        tolerate: Listing::from_vec(tolerate),
        advertise: Listing::from_vec(advertise),
        currency,
        exponent,
        watchdog,
        nodes: Listing::from_vec(nodes),
        links: Listing::from_vec(links),
        routes: Listing::from_vec(routes),
        tariffs: Listing::from_vec(tariffs),
        accounts: Listing::from_vec(accounts),
    })
}

/// From -9 to 9.
fn exponent_of(file: Entry) -> Result<i32, SiteFault>
    ensures size { IfOk result (λ exponent. nat_le (size_of exponent) 9 ≡ true) }
    ensures value { IfOk result (λ exponent. value_at Key.Exponent (table_view file.entry.table.now) ≡ Some (integer exponent)) }
    ensures fault { IfErr result (IsFaultOf (table_view file.entry.table.now)) }
    ensures told { IfErr result (IsOfKey Key.Exponent) }
{
    let exponent = file.integer(Key::Exponent, 9)?;
    i32::try_from(exponent).map_err(|_| SiteFault::OutOfRange { key: Key::Exponent })
}
