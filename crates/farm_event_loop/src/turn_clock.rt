//! The clock of a loop, read as seldom as will do.

ghost use Rattle.std.specs.Prelude.{◌≡◌, IfNone, IfOk, false, true};

use dia_base::Moment;
use farm_clock::Timer;
use farm_metrics::Micros;
use std::io;
use std::rt::Clock;
use std::time::{Duration, Instant};

/// The moments of a loop's turns, and microseconds since it began, which what is counted is timed by. Both go on with the clock that
/// never goes back.
#[derive(Clone, Copy)]
pub struct TurnClock {
    timer: Timer,
    began: Instant,
    /// The moment of the turn.
    moment: Moment,
    /// Whether it was read at the turn's beginning and not asked for since.
    is_fresh: bool,
}

/// Whole microseconds, as many as fit.
fn micros(duration: Duration) -> Micros {
    match u64::try_from(duration.as_micros()) {
        Ok(micros) => Micros(micros),
        Err(_) => Micros(u64::MAX),
    }
}

impl TurnClock {
    /// It begins now, with moments of this timer.
    pub fn start<O: Clock>(os: &O, timer: Timer) -> io::Result<TurnClock>
        ensures { IfOk result (λ clock. clock.is_fresh ≡ false) }
    {
        let began = Instant::now(os)?;
        Ok(TurnClock {
            timer,
            began,
            moment: timer.at(began),
            is_fresh: false,
        })
    }

    /// The moment at which the turn began.
    pub fn moment(&self) -> Moment
        ensures { result ≡ self.now.moment }
    {
        self.moment
    }

    /// A turn begins now: how long the clock has run.
    pub fn begin_turn<O: Clock>(&mut self, os: &O) -> io::Result<Micros>
        ensures { IfOk result (λ _. self.new.is_fresh ≡ true) }
    {
        let now = Instant::now(os)?;
        self.moment = self.timer.at(now);
        self.is_fresh = true;
        Ok(micros(now.duration_since(self.began)))
    }

    /// How long the clock has run; none where the turn has just begun, and nothing was done since.
    pub fn look<O: Clock>(&mut self, os: &O) -> io::Result<Option<Micros>>
        ensures none { IfOk result (λ now. IfNone now (self.old.is_fresh ≡ true)) }
        ensures kept { self.new ≡ record self.old { is_fresh = false } }
    {
        if self.is_fresh {
            self.is_fresh = false;
            return Ok(None);
        }
        let now = Instant::now(os)?;
        Ok(Some(micros(now.duration_since(self.began))))
    }
}
