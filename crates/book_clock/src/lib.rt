//! The system's clock beside a book on disk: whether it stands so far behind the latest entry that it must have been set back.
//!
//! - [`is_clock_behind`]: more than a day behind.
//! - [`check_clock`]: who serves on a book refuses such a clock, unless the operator gives leave.
//! - [`ClockBehind`]: why; it is printed with both moments in UTC.
//!
//! A process goes on behind the latest entry in any case. By a clock that stands far behind, its moments and those that the
//! operator reads elsewhere part for good, and a book that was made on a machine whose clock ran ahead looks the same.
#![tactic(auto)]

ghost use Rattle.std.specs.Prelude.{◌≡◌, ◌↔◌, IfErr, IsTrue, OnOk};
ghost use Rattle.book_clock.specs.Behind.{IsBehind, IsServed};

use dia_base::Moment;
use jiff::Timestamp;
use std::fmt;

/// How far the system's clock may stand behind the latest entry of a book, in milliseconds: a day.
pub const TOLERANCE: u64 = 86_400_000;

/// The time so many milliseconds after the start of 1970; none where the calendar has no such time.
fn time_at(millis: u64) -> Option<Timestamp> {
    let millis = i64::try_from(millis).ok()?;
    Timestamp::from_millisecond(millis).ok()
}

/// Writes a moment as date and time of day in UTC (RFC 3339); as milliseconds since 1970 behind the year 9999.
fn write_utc<W: fmt::Write>(moment: Moment, f: &mut fmt::Formatter<W>) -> fmt::Result {
    let millis = moment.0;
    match time_at(millis) {
        Some(time) => write!(f, "{time}"),
        None => write!(f, "{millis} ms"),
    }
}

/// Why nobody serves on a book: the system's clock stands more than a day behind its latest entry.
#[derive(Clone, Copy, Debug, PartialEq, Eq)]
pub struct ClockBehind {
    /// What the system's clock said.
    pub now: Moment,
    /// The moment of the latest entry.
    pub latest: Moment,
}

impl fmt::Display for ClockBehind {
    fn fmt<W: fmt::Write>(&self, f: &mut fmt::Formatter<W>) -> fmt::Result {
        f.write_str("the system's clock says ")?;
        write_utc(self.now, f)?;
        f.write_str(", more than a day before the latest entry of the book, ")?;
        write_utc(self.latest, f)
    }
}

/// Whether a clock that says this moment stands more than a day behind this entry.
pub fn is_clock_behind(latest: Moment, now: Moment) -> bool
    ensures { IsTrue result ↔ IsBehind latest now }
{
    latest.0.saturating_sub(now.0) > TOLERANCE
}

/// Refuses a clock that stands more than a day behind the latest entry of the book, unless the operator gives leave.
pub fn check_clock(latest: Moment, now: Moment, has_leave: bool) -> Result<(), ClockBehind>
    ensures ok { OnOk result (IsServed latest now has_leave) }
    ensures fault { IfErr result (λ fault. (fault ≡ record { now = now; latest = latest }) × (IsServed latest now has_leave → ⊥)) }
{
    if has_leave || !is_clock_behind(latest, now) {
        return Ok(());
    }
    Err(ClockBehind { now, latest })
}
