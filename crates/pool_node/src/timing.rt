//! When the fronts of a process begin, and what their book has come to then.

ghost use Rattle.std.specs.Prelude.{◌≡◌, ◌≤◌, All, min};
ghost use Rattle.cc_book.specs.Session.{deadline_at, moment_of};
ghost use Rattle.pool_node.specs.Figures.{figures_of};

use crate::figures::BookFigures;
use cc_book::{Book, Entry};
use dia_base::Moment;
use farm_clock::Timer;

/// When the fronts of a process begin, and what their book has come to then.
#[derive(Clone, Copy)]
pub struct Timing {
    /// What their workers read the time from.
    pub timer: Timer,
    /// The book is swept from this moment on.
    pub first_sweep: Moment,
    /// What the book has come to.
    pub figures: BookFigures,
}

/// The moment of an entry, in milliseconds.
fn moment_of(entry: &Entry) -> u64
    ensures { result ≡ moment_of entry.now }
{
    match entry {
        Entry::Take { moment, .. } | Entry::Sweep { moment } | Entry::ChangeTerms { moment, .. } =>
            moment.0,
    }
}

/// The latest moment in a history, in milliseconds; 0 where it is empty.
fn latest(history: &[Entry]) -> u64
    ensures { All (λ entry. moment_of entry ≤ result) history.now }
{
    let mut latest = 0;
    for entry in history {
        latest = latest.max(moment_of(entry));
    }
    latest
}

impl Timing {
    /// On a book that may have entries of an earlier process. The moments of this one stand behind all of them, whatever the
    /// system's clock says; and the book is swept once a session would be due that is charged at the start, so that the time
    /// during which nobody served ends no session (RFC 8506, section 13).
    pub fn on(timer: Timer, book: &Book) -> Timing
        ensures behind { All (λ entry. moment_of entry ≤ result.timer.first) book.now.history }
        ensures figures { result.figures ≡ figures_of book.now }
        ensures sweeps { result.first_sweep.0 ≡ min (deadline_at book.now.terms.validity result.timer.first) 18446744073709551615 }
    {
        let timer = timer.not_before(Moment(latest(book.history())));
        let lasting = 2_000 * u64::from(book.validity());
        Timing {
            timer,
            first_sweep: Moment(timer.first().0.saturating_add(lasting)),
            figures: BookFigures::of(book),
        }
    }
}
