//! What was counted lately.

ghost use Rattle.std.specs.Prelude.{◌≡◌, [], min};
ghost use Rattle.farm_metrics.specs.Counting.{most, total_of};
ghost use Rattle.farm_metrics.specs.Lately.{IsAdded, is_due};

use crate::tally::Tally;
use crate::times::Micros;
use std::alloc::Global;

/// How often counts are kept, in microseconds.
pub const TREND_STEP: u64 = 10_000_000;

/// How many of them are kept: those of a quarter of an hour, and the one before.
pub const TREND_LIMIT: usize = 91;

/// What a node had counted at one time.
#[derive(Clone, Copy, PartialEq, Eq)]
pub struct Sample {
    /// What the clock said.
    pub at: Micros,
    /// Requests that had come.
    pub requests: u64,
    /// Answers that were sent.
    pub answers: u64,
}

impl Sample {
    /// What is counted now.
    pub fn of(tally: &Tally, at: Micros) -> Sample
        ensures time { result.at ≡ at }
        ensures requests { result.requests ≡ tally.now.requests }
        ensures answers { result.answers ≡ min (total_of tally.now.answers) most }
    {
        Sample {
            at,
            requests: tally.requests,
            answers: tally.answers.total(),
        }
    }
}

/// What a node had counted during the last quarter of an hour, every ten seconds, the oldest first.
#[derive(Drop)]
pub struct Trend {
    samples: Vec<Sample>,
}

impl Trend {
    /// Nothing yet.
    pub fn nothing(alloc: Global) -> Self
        ensures { result.samples.items ≡ [] }
    {
        match Vec::with_capacity(alloc, TREND_LIMIT) {
            Ok(samples) => Trend { samples },
            Err(_) => Trend {
                samples: Vec::new(alloc),
            },
        }
    }

    /// Whether counts are to be kept now: there are none, or the last ones are ten seconds old.
    pub fn is_due(&self, now: Micros) -> bool
        ensures { result ≡ is_due now.0 self.now.samples.items }
    {
        match self.samples.last() {
            Some(last) => now.0.saturating_sub(last.at.0) >= TREND_STEP,
            None => true,
        }
    }

    /// Keeps these counts behind the others, in place of the oldest where as many are kept as may be. Without memory they are missing.
    pub fn add(&mut self, sample: Sample)
        ensures added { IsAdded sample self.old.samples.items self.new.samples.items }
    {
        if self.samples.len() >= TREND_LIMIT {
            let _oldest = self.samples.remove(0);
        }
        let _ = self.samples.push(sample);
    }

    /// They, the oldest first.
    pub fn samples(&self) -> &[Sample]
        ensures { result.now ≡ self.now.samples.items }
    {
        &self.samples
    }
}
