//! Totals of which the log tells.

ghost use Rattle.std.specs.Prelude.{◌≡◌, ◌<◌, ◌↔◌, IsTrue, false};

/// A total that the log tells where it has risen, once a second at most.
#[derive(Clone, Copy)]
pub struct Rising {
    /// What was told last.
    pub told: u64,
    /// The second in which that was.
    pub second: u64,
}

impl Rising {
    /// It is 0, which nobody has to be told.
    pub fn zero() -> Self
        ensures { result ≡ record { told = 0; second = 0 } }
    {
        Rising { told: 0, second: 0 }
    }

    /// It stands so in this second: whether that is told now. What is not is told later, with what it has risen by until then.
    pub fn tells(&mut self, total: u64, second: u64) -> bool
        ensures tells { IsTrue result ↔ ((self.old.told < total) × (self.old.second < second)) }
        ensures told { IsTrue result → self.new ≡ record { told = total; second = second } }
        ensures rests { result ≡ false → self.new ≡ self.old }
    {
        let tells = self.told < total && self.second < second;
        if tells {
            self.told = total;
            self.second = second;
        }
        tells
    }
}
