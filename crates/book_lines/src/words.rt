//! How numbers, texts and kinds stand in a line.

ghost use Rattle.std.specs.Prelude.{◌≡◌, ◌<◌, ◌++◌, IsTrue, ◌↔◌, OnOk};
ghost use Rattle.std.specs.List.{flat_map};
ghost use Rattle.book_lines.specs.Words.{action_word, digit, is_plain, kind_word, octet_text, optional_text, quoted, unit_word};

use cc_rating::UnitKind;
use cc_view::{RequestKind, RequestedAction};
use std::alloc::{AllocError, Global};

/// Adds a number of 64 bits behind a space, or `-` where there is none.
pub fn push_optional(
    alloc: Global,
    out: &mut Vec<u8>,
    number: Option<u64>,
) -> Result<(), AllocError>
    ensures { OnOk result (out.new.items ≡ out.old.items ++ optional_text number) }
{
    let Some(number) = number else {
        return out.extend_from_slice(b" -");
    };
    let text = format!(in alloc; " {number}")?;
    out.extend_from_slice(text.as_bytes())
}

/// Adds a number of 32 bits behind a space, or `-` where there is none.
pub fn push_optional_u32(
    alloc: Global,
    out: &mut Vec<u8>,
    number: Option<u32>,
) -> Result<(), AllocError>
    ensures { OnOk result (out.new.items ≡ out.old.items ++ optional_text number) }
{
    let Some(number) = number else {
        return out.extend_from_slice(b" -");
    };
    let text = format!(in alloc; " {number}")?;
    out.extend_from_slice(text.as_bytes())
}

/// Whether the octet stands in quotes as it is: a visible ASCII character, but `"` and `%`.
fn is_plain(octet: u8) -> bool
    ensures { result ≡ is_plain octet }
{
    octet > 32 && octet < 127 && octet != b'"' && octet != b'%'
}

fn digit(value: u8) -> u8
    requires { value < 16 }
    ensures { result ≡ digit value }
{
    if value < 10 { value + 48 } else { value + 55 }
}

/// Adds a plain octet as itself, and another one as `%` and two hexadecimal digits.
fn push_octet(out: &mut Vec<u8>, octet: u8) -> Result<(), AllocError>
    ensures { OnOk result (out.new.items ≡ out.old.items ++ octet_text octet) }
{
    if is_plain(octet) {
        out.extend_from_slice(&[octet])
    } else {
        out.extend_from_slice(&[b'%', digit(octet / 16), digit(octet % 16)])
    }
}

fn push_octets(out: &mut Vec<u8>, octets: &[u8]) -> Result<(), AllocError>
    ensures { OnOk result (out.new.items ≡ out.old.items ++ flat_map octet_text octets.now) }
{
    for octet in octets {
        push_octet(out, *octet)?;
    }
    Ok(())
}

/// Adds octets in quotes.
pub fn push_quoted(out: &mut Vec<u8>, octets: &[u8]) -> Result<(), AllocError>
    ensures { OnOk result (out.new.items ≡ out.old.items ++ quoted octets.now) }
{
    out.extend_from_slice(b"\"")?;
    push_octets(out, octets)?;
    out.extend_from_slice(b"\"")
}

/// CC-Request-Type as a word.
pub fn kind_word(kind: RequestKind) -> &'static str
    ensures { result.now ≡ kind_word kind }
{
    match kind {
        RequestKind::Initial => "initial",
        RequestKind::Update => "update",
        RequestKind::Termination => "termination",
        RequestKind::Event => "event",
    }
}

/// Requested-Action as a word, `-` where there is none.
pub fn action_word(action: Option<RequestedAction>) -> &'static str
    ensures { result.now ≡ action_word action }
{
    match action {
        None => "-",
        Some(RequestedAction::DirectDebiting) => "direct-debiting",
        Some(RequestedAction::RefundAccount) => "refund-account",
        Some(RequestedAction::CheckBalance) => "check-balance",
        Some(RequestedAction::PriceEnquiry) => "price-enquiry",
    }
}

/// What the units of a tariff are, as in a site file.
pub fn unit_word(kind: UnitKind) -> &'static str
    ensures { result.now ≡ unit_word kind }
{
    match kind {
        UnitKind::Time => "time",
        UnitKind::Octets => "octets",
        UnitKind::Units => "units",
    }
}
