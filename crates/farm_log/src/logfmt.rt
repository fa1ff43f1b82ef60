//! Values of logfmt.

ghost use Rattle.std.specs.Prelude.{◌≡◌};
ghost use Rattle.farm_log.specs.Logfmt.{is_bare};

use std::fmt;
use std::fmt::{Display, Formatter, Write};

/// Whether an octet may stand in a value without quotation marks.
pub fn is_bare(octet: u8) -> bool
    ensures { result ≡ is_bare octet }
{
    32 < octet && octet < 127 && octet != b'"' && octet != b'=' && octet != b'\\'
}

/// Takes a text, and notes whether it may stand without quotation marks.
#[derive(Drop)]
struct Probe {
    is_empty: bool,
    is_bare: bool,
}

impl Write for Probe {
    fn write_str(&mut self, s: &str) -> fmt::Result {
        for octet in s.as_bytes() {
            self.is_empty = false;
            self.is_bare = self.is_bare && is_bare(*octet);
        }
        Ok(())
    }
}

/// Whether a value may stand without quotation marks: it has some octets, which all may.
fn stands_bare<D: Display>(value: &D) -> bool {
    let mut probe = Probe {
        is_empty: true,
        is_bare: true,
    };
    write!(probe, "{value}").is_ok() && probe.is_bare && !probe.is_empty
}

/// Writes a text between quotation marks, so that nothing in it ends them or the line.
struct Quoted<'f, W> {
    f: &'f mut Formatter<W>,
}

impl<'f, W> Drop for Quoted<'f, W> {
    fn drop(self) {
        let Self { f: _ } = self;
    }
}

impl<'f, W: Write> Write for Quoted<'f, W> {
    fn write_str(&mut self, s: &str) -> fmt::Result {
        for octet in s.as_bytes() {
            match *octet {
                b'"' => self.f.write_str("\\\"")?,
                b'\\' => self.f.write_str("\\\\")?,
                32..=126 => self.f.write_char(char::from(*octet))?,
                _ => self.f.write_char('?')?,
            }
        }
        Ok(())
    }
}

/// Writes a value between quotation marks.
fn write_quoted<W: Write, D: Display>(f: &mut Formatter<W>, value: &D) -> fmt::Result {
    f.write_char('"')?;
    let mut quoted = Quoted { f };
    write!(quoted, "{value}")?;
    quoted.f.write_char('"')
}

/// Writes a value as logfmt has it: bare, or between quotation marks.
pub fn write_value<W: Write, D: Display>(f: &mut Formatter<W>, value: &D) -> fmt::Result {
    if stands_bare(value) {
        write!(f, "{value}")
    } else {
        write_quoted(f, value)
    }
}
