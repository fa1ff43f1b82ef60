//! What the site file says of clients that deviate: which codes are known, what is tolerated, and what is advertised.

ghost use Rattle.std.specs.Prelude.{◌≡◌, ◌≤◌, [], IfErr, IfOk, map, true, vec_len};
ghost use Rattle.std.specs.List.{list_all, list_any};
ghost use Rattle.dia_grammar.specs.declared.profile.Tolerance.{Tolerance};
ghost use Rattle.farm_base.specs.CheckedSite.{is_free_code, same_number, same_tolerance};
ghost use Rattle.farm_base.specs.Lists.{are_distinct};
ghost use Rattle.farm_site.specs.Faults.{IsFaultIn};
ghost use Rattle.farm_site.specs.Spelling.{has_32_bits, numbers, texts, tolerance_word, value_or};
ghost use Rattle.toml.specs.View.{table_view};

use crate::entry::Entry;
use crate::fault::SiteFault;
use crate::key::Key;
use dia_grammar::Tolerance;
use std::alloc::Global;

/// The first code of vendor 0 behind those of the dictionary.
const FIRST_FREE_CODE: u32 = 462;

/// The most codes that a site makes known.
const KNOWN_LIMIT: usize = 256;

/// The most vendors for which credit control is advertised.
const ADVERTISE_LIMIT: usize = 16;

/// The codes of vendor 0 that are known beside the dictionary's.
pub fn known_of(alloc: Global, file: Entry) -> Result<Vec<u32>, SiteFault>
    ensures count { IfOk result (λ codes. vec_len codes ≤ 256) }
    ensures free { IfOk result (λ codes. list_all is_free_code codes.items ≡ true) }
    ensures once { IfOk result (λ codes. are_distinct same_number codes.items ≡ true) }
    ensures spelled { IfOk result (λ codes. value_or (numbers []) Key.Known (table_view file.entry.table.now) ≡ numbers codes.items) }
    ensures fault { IfErr result (IsFaultIn (table_view file.entry.table.now)) }
{
    file.numbers_once(alloc, Key::Known, FIRST_FREE_CODE, KNOWN_LIMIT)
}

/// The deviations that are tolerated.
pub fn tolerated_of(alloc: Global, file: Entry) -> Result<Vec<Tolerance>, SiteFault>
    ensures once { IfOk result (λ tolerated. are_distinct same_tolerance tolerated.items ≡ true) }
    ensures spelled { IfOk result (λ tolerated. value_or (texts []) Key.Tolerate (table_view file.entry.table.now) ≡ texts (map tolerance_word tolerated.items)) }
    ensures fault { IfErr result (IsFaultIn (table_view file.entry.table.now)) }
{
    let names = file.optional_texts(alloc, Key::Tolerate)?;
    let mut tolerated = Vec::new(alloc);
    for name in &names {
        let tolerance = tolerance_of(name)?;
        if is_there(&tolerated, tolerance) {
            return Err(SiteFault::Twice { key: Key::Tolerate });
        }
        tolerated.push(tolerance)?;
    }
    Ok(tolerated)
}

/// The vendors for which credit control is advertised.
pub fn advertised_of(alloc: Global, file: Entry) -> Result<Vec<u32>, SiteFault>
    ensures count { IfOk result (λ vendors. vec_len vendors ≤ 16) }
    ensures small { IfOk result (λ vendors. list_all has_32_bits vendors.items ≡ true) }
    ensures once { IfOk result (λ vendors. are_distinct same_number vendors.items ≡ true) }
    ensures spelled { IfOk result (λ vendors. value_or (numbers []) Key.Advertise (table_view file.entry.table.now) ≡ numbers vendors.items) }
    ensures fault { IfErr result (IsFaultIn (table_view file.entry.table.now)) }
{
    file.numbers_once(alloc, Key::Advertise, 0, ADVERTISE_LIMIT)
}

/// The deviation of this name.
fn tolerance_of(name: &str) -> Result<Tolerance, SiteFault>
    ensures value { IfOk result (λ tolerance. name.now ≡ tolerance_word tolerance) }
    ensures fault { IfErr result (λ fault. (fault ≡ SiteFault.UnknownName Key.Tolerate) × ((tolerance : Tolerance) → ¬ (name.now ≡ tolerance_word tolerance))) }
{
    match name {
        "origin-twice" => Ok(Tolerance::OriginTwice),
        "application-in-group" => Ok(Tolerance::ApplicationInGroup),
        _ => Err(SiteFault::UnknownName { key: Key::Tolerate }),
    }
}

fn is_there(tolerated: &[Tolerance], tolerance: Tolerance) -> bool
    ensures { result ≡ list_any (λ other. same_tolerance other tolerance) tolerated.now }
{
    tolerated.iter().any(|other| *other == tolerance)
}
