//! Lines of one kind from one peer.

ghost use Rattle.std.specs.Prelude.{◌≡◌};
ghost use Rattle.farm_log.specs.Limits.{after_line, after_look, is_due, no_lines};

/// The most lines that are written in a second.
pub const LINE_LIMIT: u32 = 10;

/// Lines of one kind from one peer: what was written lately, and how many are held back.
#[derive(Clone, Copy, PartialEq, Eq)]
pub struct Count {
    /// The second of the line that was written last.
    pub second: u64,
    /// How many were written in that second.
    pub written: u32,
    /// How many were held back since. At 2^64 - 1 the number stays.
    pub held: u64,
}

impl Count {
    /// No line came yet.
    pub fn none() -> Self
        ensures { result ≡ no_lines }
    {
        Count {
            second: 0,
            written: 0,
            held: 0,
        }
    }

    /// A line comes in this second: whether it is written. It is not while others are held back, which are to be told first
    /// ([`Count::take_held`]).
    pub fn line(&mut self, second: u64) -> bool
        ensures written { result ≡ (after_line second self.old).0 }
        ensures next { self.new ≡ (after_line second self.old).1 }
    {
        if self.held > 0 {
            self.held = self.held.saturating_add(1);
            false
        } else if self.second < second {
            self.second = second;
            self.written = 1;
            true
        } else if self.written < LINE_LIMIT {
            self.written += 1;
            true
        } else {
            self.held = 1;
            false
        }
    }

    /// Whether some are held back and their second is over: it is to be told how many.
    pub fn is_due(&self, second: u64) -> bool
        ensures { result ≡ is_due second self.now }
    {
        self.held > 0 && self.second < second
    }

    /// How many are held back, where some are and their second is over: a line that tells it is written now, and none is held back
    /// any more.
    pub fn take_held(&mut self, second: u64) -> Option<u64>
        ensures told { result ≡ (after_look second self.old).0 }
        ensures next { self.new ≡ (after_look second self.old).1 }
    {
        if !self.is_due(second) {
            return None;
        }
        let held = self.held;
        self.second = second;
        self.written = 1;
        self.held = 0;
        Some(held)
    }
}
