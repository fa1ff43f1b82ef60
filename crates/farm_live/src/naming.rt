//! The account that a text names.

ghost use Rattle.std.specs.Prelude.{◌≡◌, map};
ghost use Rattle.std.specs.List.{list_all};
ghost use Rattle.farm_base.specs.CheckedSite.{is_visible};
ghost use Rattle.farm_live.specs.Naming.{named_by, named_in};
ghost use Rattle.farm_script.specs.TermsWords.{is_sound_id, named, number_up_to};
ghost use Rattle.farm_script.specs.Words.{Answers};

use cc_view::Subscription;
use dia_avp::Octets;
use farm_script::{LineFault, number_of, words_of};
use std::alloc::{AllocError, Global};

/// The greatest Subscription-Id-Type (RFC 8506, section 8.47).
const ID_KIND_LIMIT: u64 = 4;

/// The longest Subscription-Id-Data of an account.
const ID_LIMIT: usize = 64;

/// The Subscription-Id that a text names, as `TYPE ID`.
pub fn named_in(alloc: Global, text: &[u8]) -> Result<Subscription, LineFault>
    ensures { Answers (named_in text.now) result }
{
    let words = words_of(alloc, text)?;
    named_by(alloc, &words)
}

/// The Subscription-Id of two words.
fn named_by(alloc: Global, words: &[&[u8]]) -> Result<Subscription, LineFault>
    ensures { Answers (named_by (map (λ word. word.now) words.now)) result }
{
    match words {
        [kind, id] => {
            let kind = kind_of(kind)?;
            named(alloc, kind, id)
        }
        _ => Err(LineFault::WrongCount),
    }
}

/// The Subscription-Id-Type that a word spells.
fn kind_of(word: &[u8]) -> Result<u32, LineFault>
    ensures { result ≡ number_up_to 4 word.now }
{
    let number = number_of(word)?;
    if number <= ID_KIND_LIMIT {
        Ok(number as u32)
    } else {
        Err(LineFault::BadNumber)
    }
}

/// The Subscription-Id of this type.
fn named(alloc: Global, kind: u32, id: &[u8]) -> Result<Subscription, LineFault>
    ensures { Answers (named kind id.now) result }
{
    if !is_sound_id(id) {
        return Err(LineFault::BadNumber);
    }
    Ok(Subscription {
        kind,
        text: Octets::copy_of(alloc, id)?,
    })
}

/// Whether octets are 1 to 64 of visible ASCII.
fn is_sound_id(id: &[u8]) -> bool
    ensures { result ≡ is_sound_id id.now }
{
    1 <= id.len() && id.len() <= ID_LIMIT && are_visible(id)
}

fn are_visible(octets: &[u8]) -> bool
    ensures { result ≡ list_all is_visible octets.now }
{
    octets.iter().all(|octet| 33 <= *octet && *octet <= 126)
}

/// The words that name it.
pub fn name_of(alloc: Global, id: &Subscription) -> Result<String, AllocError> {
    let kind = id.kind;
    let text: String = id
        .text
        .as_slice()
        .iter()
        .map(|octet| char::from(*octet))
        .collect(alloc)?;
    format!(in alloc; "{kind} {text}")
}
