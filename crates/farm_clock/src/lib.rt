//! The time of a serving process.
//!
//! - [`Timer`]: moments that begin with the system's clock, or behind those of an earlier process, and go on with the clock that
//!   never goes back.
//!
//! All that a process reads the time for reads it by such a timer: its connections, the moments at which requests are
//! charged, and the sweeps that end sessions. So whoever sets the system's clock ends no connection, and no session.
#![tactic(auto)]

ghost use Rattle.std.specs.Prelude.{◌≡◌, ◌≤◌, ◌+◌, ◌-◌, ◌/◌, IfOk, max, min};
ghost use Rattle.std.specs.Duration.{as_nanos};
ghost use Rattle.std.specs.Time.{instant_nanos};

use dia_base::Moment;
use std::io;
use std::rt::Clock;
use std::time::{Duration, Instant, SystemTime, UNIX_EPOCH};

/// Moments in milliseconds since 1970, as the system's clock had them when the timer was started. Two timers that were
/// started one after the other tell the same moments, unless that clock was set between.
#[derive(Clone, Copy)]
pub struct Timer {
    began: Instant,
    first: u64,
}

/// Whole milliseconds, as many as fit.
fn millis(duration: Duration) -> u64
    ensures { result ≡ min (as_nanos duration / 1000000) 18446744073709551615 }
{
    match u64::try_from(duration.as_millis()) {
        Ok(millis) => millis,
        Err(_) => u64::MAX,
    }
}

impl Timer {
    /// From now on. A clock that stands before 1970 counts as 1970.
    pub fn start<R: Clock>(rt: &R) -> io::Result<Timer> {
        let since = match SystemTime::now(rt)?.duration_since(UNIX_EPOCH) {
            Ok(since) => millis(since),
            Err(_) => 0,
        };
        Ok(Timer {
            began: Instant::now(rt)?,
            first: since,
        })
    }

    /// The same timer, whose moments do not stand before this one: where it would have told an earlier moment first, it begins with
    /// this one.
    pub fn not_before(self, moment: Moment) -> Timer
        ensures { result.first ≡ max self.first moment.0 }
    {
        let Timer { began, first } = self;
        Timer {
            began,
            first: first.max(moment.0),
        }
    }

    /// The moment that it was when the timer was started: none that it tells stands before it.
    pub fn first(&self) -> Moment
        ensures { result.0 ≡ self.now.first }
    {
        Moment(self.first)
    }

    /// The moment that it was at this instant, which the clock that never goes back has told.
    pub fn at(&self, instant: Instant) -> Moment
        ensures told { result.0 ≡ min (self.now.first + min ((instant_nanos instant - instant_nanos self.now.began) / 1000000) 18446744073709551615) 18446744073709551615 }
        ensures behind { self.now.first ≤ result.0 }
    {
        let passed = millis(instant.duration_since(self.began));
        Moment(self.first.saturating_add(passed))
    }

    /// The moment that it is now.
    pub fn now<R: Clock>(&self, rt: &R) -> io::Result<Moment>
        ensures { IfOk result (λ moment. self.now.first ≤ moment.0) }
    {
        Ok(self.at(Instant::now(rt)?))
    }
}
