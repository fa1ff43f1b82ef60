//! Words of the entries of a book, some of them in quotes.

ghost use Rattle.std.specs.Prelude.{◌<◌, IfOk};

use farm_script::LineFault;
use std::alloc::Global;

/// Whether a word is this one.
pub fn is_word(word: &[u8], text: &str) -> bool {
    word == text.as_bytes()
}

/// The octets of a text in quotes, in which `%` stands before two hexadecimal digits.
pub fn unquoted(alloc: Global, word: &[u8]) -> Result<Vec<u8>, LineFault> {
    let [b'"', text @ .., b'"'] = word else {
        return Err(LineFault::UnknownWord);
    };
    let mut octets = Vec::new(alloc);
    let mut rest = text;
    for _ in 0..text.len() {
        let (octet, behind) = match rest {
            [b'%', high, low, behind @ ..] => (digit_of(*high)? * 16 + digit_of(*low)?, behind),
            [octet, behind @ ..] => (*octet, behind),
            [] => break,
        };
        octets.push(octet)?;
        rest = behind;
    }
    Ok(octets)
}

/// What a hexadecimal digit stands for.
fn digit_of(digit: u8) -> Result<u8, LineFault>
    ensures { IfOk result (λ value. value < 16) }
{
    match digit {
        b'0'..=b'9' => Ok(digit - b'0'),
        b'a'..=b'f' => Ok(digit - b'a' + 10),
        b'A'..=b'F' => Ok(digit - b'A' + 10),
        _ => Err(LineFault::BadHex),
    }
}
