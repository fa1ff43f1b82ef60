//! Numbers as people read them.

ghost use Rattle.std.specs.Prelude.{◌≡◌, ◌≤◌};
ghost use Rattle.farm_status.specs.Figures.{percent};

use std::fmt;

/// A number with a comma between each three digits.
#[derive(Clone, Copy)]
pub struct Grouped(pub u64);

/// What the groups of a number count, the greatest first.
const GROUPS: [u64; 7] = [
    1_000_000_000_000_000_000,
    1_000_000_000_000_000,
    1_000_000_000_000,
    1_000_000_000,
    1_000_000,
    1_000,
    1,
];

impl fmt::Display for Grouped {
    fn fmt<W: fmt::Write>(&self, f: &mut fmt::Formatter<W>) -> fmt::Result {
        let number = self.0;
        for group in GROUPS {
            let whole = number / group;
            if whole >= 1_000 {
                write!(f, ",{:03}", whole % 1_000)?;
            } else if whole > 0 || group == 1 {
                write!(f, "{whole}")?;
            }
        }
        Ok(())
    }
}

/// Milliseconds as seconds.
#[derive(Clone, Copy)]
pub struct Seconds(pub u64);

impl fmt::Display for Seconds {
    fn fmt<W: fmt::Write>(&self, f: &mut fmt::Formatter<W>) -> fmt::Result {
        write!(f, "{}.{:03}", self.0 / 1_000, self.0 % 1_000)
    }
}

/// Microseconds as seconds.
#[derive(Clone, Copy)]
pub struct FineSeconds(pub u64);

impl fmt::Display for FineSeconds {
    fn fmt<W: fmt::Write>(&self, f: &mut fmt::Formatter<W>) -> fmt::Result {
        write!(f, "{}.{:06}", self.0 / 1_000_000, self.0 % 1_000_000)
    }
}

/// Microseconds as milliseconds, without zeros at the end.
#[derive(Clone, Copy)]
pub struct Millis(pub u64);

impl fmt::Display for Millis {
    fn fmt<W: fmt::Write>(&self, f: &mut fmt::Formatter<W>) -> fmt::Result {
        let (whole, rest) = (Grouped(self.0 / 1_000), self.0 % 1_000);
        if rest == 0 {
            write!(f, "{whole}")
        } else if rest % 100 == 0 {
            write!(f, "{whole}.{}", rest / 100)
        } else if rest % 10 == 0 {
            write!(f, "{whole}.{:02}", rest / 10)
        } else {
            write!(f, "{whole}.{rest:03}")
        }
    }
}

/// Microseconds, ten or more and in whole tens, as seconds without zeros at the end: how Prometheus spells a bound, of which one below
/// 100 microseconds has an exponent.
#[derive(Clone, Copy)]
pub struct Bound(pub u64);

impl fmt::Display for Bound {
    fn fmt<W: fmt::Write>(&self, f: &mut fmt::Formatter<W>) -> fmt::Result {
        let (whole, rest) = (self.0 / 1_000_000, self.0 % 1_000_000);
        if self.0 < 100 {
            write!(f, "{}e-05", self.0 / 10)
        } else if rest == 0 {
            write!(f, "{whole}")
        } else if rest % 100_000 == 0 {
            write!(f, "{whole}.{}", rest / 100_000)
        } else if rest % 10_000 == 0 {
            write!(f, "{whole}.{:02}", rest / 10_000)
        } else if rest % 1_000 == 0 {
            write!(f, "{whole}.{:03}", rest / 1_000)
        } else if rest % 100 == 0 {
            write!(f, "{whole}.{:04}", rest / 100)
        } else {
            write!(f, "{whole}.{:05}", rest / 10)
        }
    }
}

/// Milliseconds as a person says them.
#[derive(Clone, Copy)]
pub struct Span(pub u64);

impl fmt::Display for Span {
    fn fmt<W: fmt::Write>(&self, f: &mut fmt::Formatter<W>) -> fmt::Result {
        let seconds = self.0 / 1_000;
        let (minutes, hours, days) = (seconds / 60, seconds / 3_600, seconds / 86_400);
        if days > 0 {
            write!(f, "{days} d {} h", hours % 24)
        } else if hours > 0 {
            write!(f, "{hours} h {} min", minutes % 60)
        } else if minutes > 0 {
            write!(f, "{minutes} min {} s", seconds % 60)
        } else {
            write!(f, "{seconds} s")
        }
    }
}

/// Octets as a person says them.
#[derive(Clone, Copy)]
pub struct Size(pub u64);

impl fmt::Display for Size {
    fn fmt<W: fmt::Write>(&self, f: &mut fmt::Formatter<W>) -> fmt::Result {
        let tenths = self.0 / 100_000;
        write!(f, "{}.{} MB", Grouped(tenths / 10), tenths % 10)
    }
}

/// How many hundredths of the whole a part is, rounded down; of nothing none.
pub fn percent(part: u64, whole: u64) -> u64
    ensures share { result ≡ percent part whole }
    ensures most { result ≤ 100 }
{
    if part >= whole {
        return if whole == 0 { 0 } else { 100 };
    }
    (u128::from(part) * 100 / u128::from(whole)) as u64
}
