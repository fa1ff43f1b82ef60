//! A record as a line.

use crate::logfmt::write_value;
use jiff::Timestamp;
use log::kv::{Source, Value, VisitSource};
use log::{Level, Record, kv};
use std::fmt;
use std::fmt::{Display, Formatter};

/// How lines are spelled.
#[derive(Clone, Copy, PartialEq, Eq)]
pub enum Format {
    /// The time, the level and the message, for people.
    Text,
    /// The time, the level, the node and the pairs of the record, each as `key=value`; and the message as `msg`, where the record has no
    /// pair `event`.
    Logfmt,
}

/// Shows a record as a line in UTC, without a line break. A record without a pair `node` is of the process, which is named so.
#[derive_where(Clone, Copy)]
pub struct Line<'a, 'r, D, K, S> {
    pub format: Format,
    /// Milliseconds since 1970.
    pub millis: u64,
    pub node: &'a str,
    pub record: &'a Record<'r, D, K, S>,
}

/// The time so many milliseconds after the start of 1970; none where the calendar has no such time.
fn time_at(millis: u64) -> Option<Timestamp> {
    let millis = i64::try_from(millis).ok()?;
    Timestamp::from_millisecond(millis).ok()
}

/// Writes it as date and time of day in UTC (RFC 3339), with three digits behind the second.
fn write_time<W: fmt::Write>(f: &mut Formatter<W>, millis: u64) -> fmt::Result {
    match time_at(millis) {
        Some(time) => write!(f, "{time:.3}"),
        None => write!(f, "{millis}"),
    }
}

/// The level of a line for people: five octets.
fn padded(level: Level) -> &'static str {
    match level {
        Level::Error => "ERROR",
        Level::Warn => "WARN ",
        Level::Info => "INFO ",
        Level::Debug => "DEBUG",
        Level::Trace => "TRACE",
    }
}

/// The level of a line of pairs.
fn lower(level: Level) -> &'static str {
    match level {
        Level::Error => "error",
        Level::Warn => "warn",
        Level::Info => "info",
        Level::Debug => "debug",
        Level::Trace => "trace",
    }
}

/// Looks for a key.
#[derive(Drop)]
struct Search<'k> {
    key: &'k str,
    found: bool,
}

impl VisitSource for Search<'_> {
    fn visit_pair<D: Display>(&mut self, key: &str, _value: Value<'_, D>) -> Result<(), kv::Error> {
        self.found = self.found || key == self.key;
        Ok(())
    }
}

/// Whether pairs have a key.
fn has_key<K: Source>(pairs: &K, key: &str) -> bool {
    let mut search = Search { key, found: false };
    pairs.visit(&mut search).is_ok() && search.found
}

/// Writes pairs.
struct Pairs<'f, W> {
    f: &'f mut Formatter<W>,
}

impl<'f, W> Drop for Pairs<'f, W> {
    fn drop(self) {
        let Self { f: _ } = self;
    }
}

impl<'f, W: fmt::Write> VisitSource for Pairs<'f, W> {
    fn visit_pair<D: Display>(&mut self, key: &str, value: Value<'_, D>) -> Result<(), kv::Error> {
        write!(self.f, " {key}=")?;
        write_value(self.f, &value)?;
        Ok(())
    }
}

impl<'a, 'r, D: Display, K: Source, S> Line<'a, 'r, D, K, S> {
    /// The line for people.
    fn write_text<W: fmt::Write>(&self, f: &mut Formatter<W>) -> fmt::Result {
        write_time(f, self.millis)?;
        let level = padded(self.record.level());
        write!(f, " {level} ")?;
        if !has_key(self.record.key_values(), "node") {
            write!(f, "{}: ", self.node)?;
        }
        write!(f, "{}", self.record.args())
    }

    /// The line of pairs.
    fn write_pairs<W: fmt::Write>(&self, f: &mut Formatter<W>) -> fmt::Result {
        f.write_str("time=")?;
        write_time(f, self.millis)?;
        let level = lower(self.record.level());
        write!(f, " level={level}")?;
        let pairs = self.record.key_values();
        if !has_key(pairs, "node") {
            f.write_str(" node=")?;
            write_value(f, &self.node)?;
        }
        let mut writer = Pairs { f };
        pairs.visit(&mut writer)?;
        if !has_key(pairs, "event") {
            writer.f.write_str(" msg=")?;
            write_value(writer.f, self.record.args())?;
        }
        Ok(())
    }
}

impl<'a, 'r, D: Display, K: Source, S> Display for Line<'a, 'r, D, K, S> {
    fn fmt<W: fmt::Write>(&self, f: &mut Formatter<W>) -> fmt::Result {
        match self.format {
            Format::Text => self.write_text(f),
            Format::Logfmt => self.write_pairs(f),
        }
    }
}
