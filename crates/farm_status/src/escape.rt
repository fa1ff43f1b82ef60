//! Names of others in texts of ours: what they hold means nothing there.

ghost use Rattle.std.specs.Prelude.{◌≡◌, ◌++◌, OnOk, string_bytes};
ghost use Rattle.std.specs.List.{flat_map};
ghost use Rattle.farm_status.specs.Escapes.{html_of, label_of, plain_of};

use std::alloc::AllocError;

/// An octet that is printed, as itself; any other one as a question mark.
fn push_plain(out: &mut String, octet: u8) -> Result<(), AllocError>
    ensures { OnOk result (string_bytes out.new ≡ string_bytes out.old ++ plain_of octet) }
{
    if octet < 0x20 || octet >= 0x7f {
        out.push_str("?")
    } else {
        out.push(char::from(octet))
    }
}

/// The text that stands for an octet in HTML.
fn push_html_octet(out: &mut String, octet: u8) -> Result<(), AllocError>
    ensures { OnOk result (string_bytes out.new ≡ string_bytes out.old ++ html_of octet) }
{
    if octet == b'<' {
        out.push_str("&lt;")
    } else if octet == b'>' {
        out.push_str("&gt;")
    } else if octet == b'&' {
        out.push_str("&amp;")
    } else if octet == b'"' {
        out.push_str("&quot;")
    } else if octet == b'\'' {
        out.push_str("&#39;")
    } else {
        push_plain(out, octet)
    }
}

/// Puts a name behind a text of HTML, where it is a name and nothing else: no octet of it opens or ends anything.
pub fn push_html(out: &mut String, name: &str) -> Result<(), AllocError>
    ensures { OnOk result (string_bytes out.new ≡ string_bytes out.old ++ flat_map html_of name.now) }
{
    for octet in name.as_bytes() {
        push_html_octet(out, *octet)?;
    }
    Ok(())
}

/// The text that stands for an octet in the value of a label.
fn push_label_octet(out: &mut String, octet: u8) -> Result<(), AllocError>
    ensures { OnOk result (string_bytes out.new ≡ string_bytes out.old ++ label_of octet) }
{
    if octet == b'\\' {
        out.push_str("\\\\")
    } else if octet == b'"' {
        out.push_str("\\\"")
    } else {
        push_plain(out, octet)
    }
}

/// Puts a name behind a text for Prometheus, as the value of a label: no octet of it ends that value.
pub fn push_label(out: &mut String, name: &str) -> Result<(), AllocError>
    ensures { OnOk result (string_bytes out.new ≡ string_bytes out.old ++ flat_map label_of name.now) }
{
    for octet in name.as_bytes() {
        push_label_octet(out, *octet)?;
    }
    Ok(())
}
