//! What came lately, on the page.

ghost use Rattle.std.specs.Prelude.{◌≡◌, ◌≤◌};
ghost use Rattle.farm_status.specs.Lately.{height, rate};

use crate::numbers::Grouped;
use farm_metrics::Sample;
use std::alloc::AllocError;

/// How many steps of ten seconds a rate is of: a minute.
const MINUTE: usize = 6;

/// How high and how wide the line is, in points, and how wide one step of it.
const HEIGHT: u64 = 40;

const WIDTH: u64 = 180;

const STEP: u64 = 2;

/// How many requests and answers came in a second.
#[derive(Clone, Copy, PartialEq, Eq)]
pub(crate) struct Rates {
    pub requests: u64,
    pub answers: u64,
}

/// How many a second it is from one count to another in so many microseconds.
fn rate(from: u64, to: u64, micros: u64) -> u64
    ensures { result ≡ rate from to micros }
{
    let more = u128::from(to.saturating_sub(from));
    match (more * 1_000_000).checked_div(u128::from(micros)) {
        Some(rate) => u64::try_from(rate).unwrap_or(u64::MAX),
        None => 0,
    }
}

/// The rates between two times.
fn rates_between(old: &Sample, new: &Sample) -> Rates {
    let micros = new.at.0.saturating_sub(old.at.0);
    Rates {
        requests: rate(old.requests, new.requests, micros),
        answers: rate(old.answers, new.answers, micros),
    }
}

/// The rates of the last minute, or of the time since the process began; none where nothing was counted twice.
pub(crate) fn lately(samples: &[Sample]) -> Option<Rates> {
    let (new, past) = samples.split_last()?;
    let old = past.get(past.len().saturating_sub(MINUTE))?;
    Some(rates_between(old, new))
}

/// How high the line is at a value, where it is to have its full height at the greatest one.
fn height(value: u64, greatest: u64) -> u64
    ensures height { result ≡ height value greatest }
    ensures within { result ≤ 40 }
{
    if greatest == 0 {
        return 0;
    }
    if value >= greatest {
        return HEIGHT;
    }
    (u128::from(value) * u128::from(HEIGHT) / u128::from(greatest)) as u64
}

/// How many requests came in a second, at the most.
fn greatest_of(samples: &[Sample]) -> u64 {
    let mut greatest = 0;
    for pair in samples.windows(2) {
        if let [old, new] = pair {
            greatest = rates_between(old, new).requests.max(greatest);
        }
    }
    greatest
}

/// The points of the line, the last one at its right end.
fn push_points(out: &mut String, samples: &[Sample], greatest: u64) -> Result<(), AllocError> {
    let steps = (samples.len() as u64).saturating_sub(2);
    let mut x = WIDTH.saturating_sub(STEP.saturating_mul(steps));
    for pair in samples.windows(2) {
        if let [old, new] = pair {
            let y = HEIGHT - height(rates_between(old, new).requests, greatest);
            write!(out, "{x},{y} ")?;
        }
        x = x.saturating_add(STEP);
    }
    Ok(())
}

/// The rates of the last minute, and the requests of the last quarter of an hour as a line.
pub(crate) fn push_lately(out: &mut String, samples: &[Sample]) -> Result<(), AllocError> {
    let Some(rates) = lately(samples) else {
        return Ok(());
    };
    let greatest = greatest_of(samples);
    let (requests, answers, most) = (
        Grouped(rates.requests),
        Grouped(rates.answers),
        Grouped(greatest),
    );
    write!(
        out,
        "<h2>Lately</h2>\n<p>In the last minute {requests} requests and {answers} answers a second. Requests of the last quarter of an hour, at most {most} a second:</p>\n<svg class=\"line\" viewBox=\"0 0 180 40\" preserveAspectRatio=\"none\"><polyline vector-effect=\"non-scaling-stroke\" points=\""
    )?;
    push_points(out, samples, greatest)?;
    out.push_str("\"></polyline></svg>\n")
}
