//! The lines of a text, and the words of a line.

ghost use Rattle.std.specs.Prelude.{◌≡◌, ◌==◌, ◌∷◌, ◌<◌, length, map, position, IfOk};
ghost use Rattle.std.specs.Str.Lines.{lines, strip_carriage_return};
ghost use Rattle.farm_script.specs.Words.{words_of, says_nothing};

use std::alloc::{AllocError, Global};

const LINE_FEED: u8 = b'\n';

const CARRIAGE_RETURN: u8 = b'\r';

/// The first line of a text, and what stands behind its line feed.
pub fn first_line(text: &[u8]) -> (&[u8], &[u8])
    requires { 0 < length text.now }
    ensures line { lines text.now ≡ result.0.now ∷ lines result.1.now }
    ensures shorter { length result.1.now < length text.now }
{
    match line_feed_in(text) {
        None => text.split_at(text.len()),
        Some(at) => (without_return(&text[..at]), &text[at + 1..]),
    }
}

fn line_feed_in(text: &[u8]) -> Option<usize>
    ensures { result ≡ position (λ octet. octet == 10) text.now }
{
    text.iter().position(|octet| *octet == LINE_FEED)
}

/// A line without the one carriage return at its end.
fn without_return(line: &[u8]) -> &[u8]
    ensures { result.now ≡ strip_carriage_return line.now }
{
    match line {
        [front @ .., CARRIAGE_RETURN] => front,
        _ => line,
    }
}

/// Whether a line is empty or a comment.
pub fn is_skipped(line: &[u8]) -> bool
    ensures { result ≡ says_nothing line.now }
{
    matches!(line, [] | [b'#', ..])
}

/// The words of a line: its longest runs of octets that are no spaces.
pub fn words_of<'a>(alloc: Global, line: &'a [u8]) -> Result<Vec<&'a [u8]>, AllocError>
    ensures { IfOk result (λ words. map (λ word. word.now) words.items ≡ words_of line.now) }
{
    line.split(|octet| *octet == b' ')
        .filter(|word| !word.is_empty())
        .collect(alloc)
}
