//! What a site file says of who may come up.

ghost use Rattle.std.specs.Prelude.{◌≡◌, ◌≤◌, ◌⊎◌, IfErr, IfNone, IfOk, IfSome, None, Some, option_map, vec_len};
ghost use Rattle.farm_access.specs.Spelling.{IsAtStrict, IsEntryFault, IsFileFault, IsFromFault, IsNodesFault, IsPrefixFault, IsStrictFault, IsWhy, IsWordFault, SpellsAll, SpellsPrefix, SpellsRule, SpellsRules, SpellsStrictness, SpellsWord, SpellsWords, node_key, strict_key};
ghost use Rattle.toml.specs.Data.{array, as_array, get_member};
ghost use Rattle.toml.specs.Parse.{parse_document};
ghost use Rattle.toml.specs.View.{items_view, table_view, view};

use crate::coming::AddressRule;
use crate::fault::AccessFault;
use crate::prefix::Prefix;
use crate::strict::{Strict, Strictness};
use dia_base::Listing;
use std::alloc::Global;
use std::str;
use toml::{Table, Value};

/// The most nodes of a site.
const NODE_LIMIT: usize = 64;

/// The most prefixes of a node.
const PREFIX_LIMIT: usize = 64;

/// The document of a site file.
pub(crate) fn table_of(alloc: Global, octets: &[u8]) -> Result<Table, AccessFault>
    ensures document { IfOk result (λ table. parse_document octets.now ≡ Some (table_view table)) }
    ensures fault { IfErr result (IsWhy octets.now) }
{
    match str::from_utf8(octets) {
        Ok(text) => table_of_text(alloc, text),
        Err(_) => Err(AccessFault::NotToml),
    }
}

fn table_of_text(alloc: Global, text: &str) -> Result<Table, AccessFault>
    ensures document { IfOk result (λ table. parse_document text.now ≡ Some (table_view table)) }
    ensures fault { IfErr result (IsWhy text.now) }
{
    match toml::table_from_str(alloc, text) {
        Ok(table) => Ok(table),
        Err(fault) if fault.is_memory() => Err(AccessFault::OutOfMemory),
        Err(_) => Err(AccessFault::NotToml),
    }
}

/// What stands at a key of a table, if the key is there.
fn find<'a>(table: &'a Table, key: &str) -> Option<&'a Value>
    ensures { option_map (λ value. view value.now) result ≡ get_member key.now (table_view table.now) }
{
    table.get(key)
}

/// The values of an array.
fn values_of(value: &Value) -> Option<&[Value]>
    ensures some { IfSome result (λ values. view value.now ≡ array (items_view values.now)) }
    ensures none { IfNone result (as_array (view value.now) ≡ None) }
{
    match value.as_array() {
        Some(values) => Some(values.as_slice()),
        None => None,
    }
}

/// What a document asks for beyond what a peer meets by default.
pub(crate) fn strictness_in(file: &Table) -> Result<Strictness, AccessFault>
    ensures spelled { IfOk result (SpellsStrictness (get_member strict_key (table_view file.now))) }
    ensures fault { IfErr result (IsAtStrict (get_member strict_key (table_view file.now))) }
{
    match find(file, "strict") {
        Some(value) => strictness_at(value),
        None => Ok(Strictness::lenient()),
    }
}

/// What the words of an array ask for.
fn strictness_at(value: &Value) -> Result<Strictness, AccessFault>
    ensures spelled { IfOk result (SpellsWords (view value.now)) }
    ensures fault { IfErr result (IsStrictFault (view value.now)) }
{
    let Some(words) = values_of(value) else {
        return Err(AccessFault::NoWords);
    };
    let mut strictness = Strictness::lenient();
    for entry in words {
        let word = word_of(entry)?;
        let Some(more) = strictness.with(word) else {
            return Err(AccessFault::WordTwice);
        };
        strictness = more;
    }
    Ok(strictness)
}

/// The word that a value is.
fn word_of(value: &Value) -> Result<Strict, AccessFault>
    ensures spelled { IfOk result (SpellsWord (view value.now)) }
    ensures fault { IfErr result (IsWordFault (view value.now)) }
{
    match value.as_str() {
        Some("names") => Ok(Strict::Names),
        Some("end-to-end") => Ok(Strict::EndToEnd),
        Some("goodbyes") => Ok(Strict::Goodbyes),
        Some("origin-state") => Ok(Strict::OriginState),
        Some("fairness") => Ok(Strict::Fairness),
        Some(_) => Err(AccessFault::UnknownWord),
        None => Err(AccessFault::NoWords),
    }
}

/// The rules of a document.
pub(crate) fn rules_in(alloc: Global, file: &Table) -> Result<Vec<AddressRule>, AccessFault>
    ensures spelled { IfOk result (λ rules. SpellsRules (get_member node_key (table_view file.now)) rules.items) }
    ensures count { IfOk result (λ rules. vec_len rules ≤ 64) }
    ensures fault { IfErr result (IsFileFault (get_member node_key (table_view file.now))) }
{
    match find(file, "node") {
        Some(value) => rules_at(alloc, value),
        None => Ok(Vec::new(alloc)),
    }
}

/// The rules of the entries of an array.
fn rules_at(alloc: Global, value: &Value) -> Result<Vec<AddressRule>, AccessFault>
    ensures spelled { IfOk result (λ rules. SpellsAll SpellsRule (view value.now) rules.items) }
    ensures count { IfOk result (λ rules. vec_len rules ≤ 64) }
    ensures fault { IfErr result (IsNodesFault (view value.now)) }
{
    let Some(entries) = values_of(value) else {
        return Err(AccessFault::NoTables);
    };
    if entries.len() > NODE_LIMIT {
        return Err(AccessFault::TooManyNodes);
    }
    let mut rules = Vec::new(alloc);
    for entry in entries {
        let rule = rule_of(alloc, entry)?;
        rules.push(rule)?;
    }
    Ok(rules)
}

/// The rule of an entry.
fn rule_of(alloc: Global, entry: &Value) -> Result<AddressRule, AccessFault>
    ensures spelled { IfOk result (SpellsRule (view entry.now)) }
    ensures fault { IfErr result (IsEntryFault (view entry.now)) }
{
    let Some(table) = entry.as_table() else {
        return Err(AccessFault::NoTables);
    };
    match find(table, "from") {
        Some(value) => {
            let prefixes = prefixes_of(alloc, value)?;
            Ok(AddressRule::Within(Listing::from_vec(prefixes)))
        }
        None => Ok(AddressRule::Any),
    }
}

/// The prefixes that the texts of an array write.
fn prefixes_of(alloc: Global, value: &Value) -> Result<Vec<Prefix>, AccessFault>
    ensures spelled { IfOk result (λ prefixes. SpellsAll SpellsPrefix (view value.now) prefixes.items) }
    ensures fault { IfErr result (IsFromFault (view value.now)) }
{
    let Some(texts) = values_of(value) else {
        return Err(AccessFault::NoTexts);
    };
    if texts.len() > PREFIX_LIMIT {
        return Err(AccessFault::TooManyPrefixes);
    }
    let mut prefixes = Vec::new(alloc);
    for text in texts {
        let prefix = prefix_of(text)?;
        prefixes.push(prefix)?;
    }
    Ok(prefixes)
}

/// The prefix that a text writes.
fn prefix_of(value: &Value) -> Result<Prefix, AccessFault>
    ensures spelled { IfOk result (SpellsPrefix (view value.now)) }
    ensures fault { IfErr result (IsPrefixFault (view value.now)) }
{
    let Some(text) = value.as_str() else {
        return Err(AccessFault::NoTexts);
    };
    match Prefix::read(text) {
        Some(prefix) => Ok(prefix),
        None => Err(AccessFault::NoPrefix),
    }
}
