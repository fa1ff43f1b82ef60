//! How long requests took.

ghost use Rattle.std.specs.Prelude.{◌≡◌, ◌+◌, map};
ghost use Rattle.farm_metrics.specs.Counting.{new_rows, plus, row_after, rows_after, times_after};

/// A reading of a clock of microseconds that never goes back. Where it begins is of no account.
#[derive(Clone, Copy, PartialEq, Eq)]
pub struct Micros(pub u64);

/// How many times were no longer than a bound, in microseconds.
#[derive(Clone, Copy, PartialEq, Eq)]
pub struct TimeRow {
    pub bound: u64,
    pub count: u64,
}

impl TimeRow {
    /// A time of so many microseconds.
    pub fn add(&mut self, micros: u64)
        ensures { self.new ≡ row_after micros self.old }
    {
        if micros <= self.bound {
            self.count = self.count.saturating_add(1);
        }
    }
}

/// How long requests took: how many no longer than each bound, how many there are, and the sum of their times. Nothing is kept
/// of a single one.
#[derive(Clone, Copy, PartialEq, Eq)]
pub struct Times {
    /// A row for each bound, from 50 microseconds to 5 seconds: a time is counted in the first row that it is within, and in each
    /// further one.
    pub rows: [TimeRow; 16],
    pub count: u64,
    /// In microseconds.
    pub sum: u64,
}

/// A row of this bound with nothing in it.
fn row(bound: u64) -> TimeRow
    ensures { result ≡ record { bound = bound; count = 0 } }
{
    TimeRow { bound, count: 0 }
}

/// Counts a time in each row that it is within.
fn count_in(rows: &mut [TimeRow], micros: u64)
    ensures { rows.new ≡ rows_after micros rows.old }
{
    for row in rows.iter_mut() {
        row.add(micros);
    }
}

impl Times {
    /// None yet.
    pub fn none() -> Self
        ensures rows { result.rows ≡ new_rows }
        ensures nothing { (result.count ≡ 0) × (result.sum ≡ 0) }
    {
        Times {
            rows: [
                row(50),
                row(100),
                row(250),
                row(500),
                row(1_000),
                row(2_500),
                row(5_000),
                row(10_000),
                row(25_000),
                row(50_000),
                row(100_000),
                row(250_000),
                row(500_000),
                row(1_000_000),
                row(2_500_000),
                row(5_000_000),
            ],
            count: 0,
            sum: 0,
        }
    }

    /// A request took so many microseconds.
    pub fn add(&mut self, micros: u64)
        ensures { self.new ≡ times_after micros self.old }
    {
        count_in(&mut self.rows, micros);
        self.count = self.count.saturating_add(1);
        self.sum = self.sum.saturating_add(micros);
    }
}
