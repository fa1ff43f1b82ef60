//! A change of the terms as an entry of a book tells it, as a step of a schedule.

use crate::group::GroupFault;
use crate::lines::LinesFault;
use crate::quoted::{is_word, unquoted};
use dia_base::Moment;
use farm_base::{Site, Step};
use farm_script::{LineFault, ScriptFault, steps_of};
use std::alloc::{AllocError, Global};

/// The items of a schedule's step `terms`, from the words of an entry behind `change`: they have no counts, no `opening`, no quotes, and
/// no tariffs where those stay that hold.
pub fn items_in(alloc: Global, words: &[&[u8]]) -> Result<Vec<u8>, LineFault> {
    let mut items = Vec::new(alloc);
    let mut rest = words;
    for _ in 0..words.len() {
        rest = match rest {
            [word, _count, behind @ ..] if is_word(word, "accounts") => behind,
            [word, count, behind @ ..] if is_word(word, "tariffs") => {
                if !is_word(count, "-") {
                    push_item(&mut items, word)?;
                }
                behind
            }
            [word, behind @ ..] if is_word(word, "opening") => behind,
            [word, behind @ ..] if word.first() == Some(&b'"') => {
                push_item(&mut items, &unquoted(alloc, word)?)?;
                behind
            }
            [word, behind @ ..] => {
                push_item(&mut items, word)?;
                behind
            }
            [] => break,
        };
    }
    Ok(items)
}

fn push_item(items: &mut Vec<u8>, word: &[u8]) -> Result<(), AllocError> {
    items.extend_from_slice(b" ")?;
    items.extend_from_slice(word)
}

/// The step of these items, at this moment.
pub fn step_in(
    alloc: Global,
    site: &Site,
    moment: Moment,
    items: &[u8],
) -> Result<Step, GroupFault> {
    let moment = moment.0;
    let line = format!(in alloc; "terms {moment}")?;
    let mut text = Vec::from_slice(alloc, line.as_bytes())?;
    text.extend_from_slice(items)?;
    let steps = match steps_of(alloc, &text, site) {
        Ok(steps) => steps,
        Err(ScriptFault::TooLong) => return Err(GroupFault::Lines(LinesFault::TooLong)),
        Err(ScriptFault::Line { fault, .. }) => return Err(GroupFault::Words(fault)),
    };
    let mut steps = steps;
    match steps.pop() {
        Some(step) => Ok(step),
        None => Err(GroupFault::Words(LineFault::WrongCount)),
    }
}
