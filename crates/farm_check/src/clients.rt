//! What a site takes of clients that deviate from the rules: a line for each key that says so, and what may look wrong there.

use crate::lines::{Lines, push_listed};
use dia_grammar::Tolerance;
use farm_base::Site;
use std::alloc::{AllocError, Global};

/// The codes that fronts know beside the dictionary, the deviations that they tolerate, and the vendors for which credit
/// control is advertised: a line each, where there are any.
pub fn push_clients(alloc: Global, lines: &mut Lines, site: &Site) -> Result<(), AllocError> {
    let codes = listed(alloc, site.known.as_slice())?;
    if !codes.is_empty() {
        lines.push(format!(in alloc;
            "fronts know these codes beside the dictionary: {codes}"
        )?.as_str())?;
    }
    let tolerated = tolerated_words(alloc, site.tolerate.as_slice())?;
    if !tolerated.is_empty() {
        lines.push(format!(in alloc; "fronts tolerate: {tolerated}")?.as_str())?;
    }
    let vendors = listed(alloc, site.advertise.as_slice())?;
    if !vendors.is_empty() {
        lines.push(format!(in alloc;
            "credit control is advertised for these vendors: {vendors}"
        )?.as_str())?;
    }
    Ok(())
}

/// Numbers, one behind the other.
fn listed(alloc: Global, numbers: &[u32]) -> Result<String, AllocError> {
    let mut list = String::new(alloc);
    for number in numbers {
        push_listed(&mut list, format!(in alloc; "{number}")?.as_str())?;
    }
    Ok(list)
}

fn tolerated_words(alloc: Global, tolerated: &[Tolerance]) -> Result<String, AllocError> {
    let mut list = String::new(alloc);
    for tolerance in tolerated {
        push_listed(&mut list, tolerance_word(*tolerance))?;
    }
    Ok(list)
}

/// What the file calls a deviation.
fn tolerance_word(tolerance: Tolerance) -> &'static str {
    match tolerance {
        Tolerance::OriginTwice => "origin-twice",
        Tolerance::ApplicationInGroup => "application-in-group",
    }
}

/// Keys that have no effect beside the others, and one that a client may wait for.
pub fn push_client_doubts(lines: &mut Lines, site: &Site) -> Result<(), AllocError> {
    if !site.known.is_empty() && site.vendors.as_slice().contains(&0) {
        lines.push(
            "look: known has no effect, since vendors has 0: each code without a vendor is known",
        )?;
    }
    if site.advertise.as_slice().contains(&0) {
        lines.push("look: vendor 0 is advertised, which is no vendor")?;
    }
    let in_group = site
        .tolerate
        .as_slice()
        .contains(&Tolerance::ApplicationInGroup);
    if in_group && site.advertise.is_empty() {
        lines.push(
            "look: application-in-group is tolerated, and no vendor is advertised, which such clients may wait for",
        )?;
    }
    Ok(())
}
