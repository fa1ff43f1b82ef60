//! On which line of a text a fault stands.

use crate::step_line;
use farm_base::Site;
use farm_script::steps_of;
use std::alloc::{AllocError, Global};

const TARIFFS: &[u8] = b"tariffs";

/// Whether a line begins with the word before the tariffs.
fn begins_tariffs(line: &[u8]) -> bool {
    line.starts_with(TARIFFS)
}

/// Whether a line, alone, spells a part of a change: behind `tariffs` where that stands on a line before.
fn is_sound(alloc: Global, site: &Site, line: &[u8], in_tariffs: bool) -> Result<bool, AllocError> {
    let mut items = Vec::new(alloc);
    if in_tariffs {
        items.extend_from_slice(b"tariffs ")?;
    }
    items.extend_from_slice(line)?;
    let step = step_line(alloc, &items)?;
    Ok(steps_of(alloc, &step, site).is_ok())
}

/// A text without the line feed at its end.
fn without_end(text: &[u8]) -> &[u8] {
    match text.split_last() {
        Some((b'\n', lines)) => lines,
        _ => text,
    }
}

/// The first line of a text that spells no part of a change of the terms, counted from 1. Where each line does, the last one: what is wrong
/// is wrong with several together.
pub fn line_with_fault(alloc: Global, site: &Site, text: &[u8]) -> Result<u64, AllocError> {
    let mut in_tariffs = false;
    let mut number: u64 = 0;
    for line in without_end(text).split(|octet| *octet == b'\n') {
        number = number.saturating_add(1);
        let begins = begins_tariffs(line);
        if begins && in_tariffs {
            return Ok(number);
        }
        if !is_sound(alloc, site, line, in_tariffs)? {
            return Ok(number);
        }
        in_tariffs = in_tariffs || begins;
    }
    Ok(number)
}
