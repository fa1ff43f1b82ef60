//! Octets as the text of an SVG.

ghost use Rattle.std.specs.Prelude.{◌≡◌, ◌++◌, All, IfOk, OnOk, string_bytes};
ghost use Rattle.farm_picture.specs.Escape.{IsNoMarkup, escape_of, escaped};

use std::alloc::{AllocError, Global};

/// The octets as text that no markup is in, whatever they are: characters that are markup by reference,
/// and question marks for what is not visible ASCII, nor a space (XML 1.0, section 2.4).
pub fn escaped(alloc: Global, octets: &[u8]) -> Result<String, AllocError>
    ensures text { IfOk result (λ text. string_bytes text ≡ escaped octets.now) }
    ensures plain { IfOk result (λ text. All IsNoMarkup (string_bytes text)) }
{
    let mut text = String::new(alloc);
    for octet in octets {
        push_escape(&mut text, *octet)?;
    }
    Ok(text)
}

fn push_escape(out: &mut String, octet: u8) -> Result<(), AllocError>
    ensures text { OnOk result (string_bytes out.new ≡ string_bytes out.old ++ escape_of octet) }
    ensures plain { All IsNoMarkup (escape_of octet) }
{
    match octet {
        b'&' => out.push_str("&amp;"),
        b'<' => out.push_str("&lt;"),
        b'>' => out.push_str("&gt;"),
        b'"' => out.push_str("&quot;"),
        b'\'' => out.push_str("&#39;"),
        b' '..=b'~' => out.push(char::from(octet)),
        _ => out.push('?'),
    }
}
