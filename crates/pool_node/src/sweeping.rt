//! When the book is swept next.

ghost use Rattle.std.specs.Prelude.{◌≡◌};
ghost use Rattle.pool_node.specs.Sweeping.{is_due, next_sweep};

use cc_book::BookRefusal;
use dia_base::Moment;

/// So many milliseconds pass between two sweeps at least: each takes the book's lock, and looks at all open sessions, while
/// a busy process has thousands of turns a second.
pub const SWEEP_INTERVAL: u64 = 1_000;

/// When the book is swept next.
#[derive(Clone, Copy, PartialEq, Eq)]
pub enum NextSweep {
    /// From this moment on.
    From { moment: Moment },
    /// Never: the book is full, and can end no session any more. That is told once.
    Never,
}

impl NextSweep {
    /// Whether the book is to be swept at this moment.
    pub fn is_due(self, moment: Moment) -> bool
        ensures { result ≡ is_due self moment }
    {
        match self {
            NextSweep::From { moment: first } => first.0 <= moment.0,
            NextSweep::Never => false,
        }
    }

    /// Behind a sweep at this moment that came to this.
    pub fn after(moment: Moment, swept: &Result<u64, BookRefusal>) -> Self
        ensures { result ≡ next_sweep moment swept.now }
    {
        match swept {
            Err(BookRefusal::Full { .. }) => NextSweep::Never,
            Ok(_) | Err(BookRefusal::OutOfMemory) => NextSweep::From {
                moment: Moment(moment.0.saturating_add(SWEEP_INTERVAL)),
            },
        }
    }
}
