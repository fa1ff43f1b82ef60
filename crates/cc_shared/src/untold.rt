//! What an open book has answered, which nobody is told before it is stored.

ghost use Rattle.std.specs.Prelude.{◌≡◌};

use crate::history::Beginning;
use crate::kept::KeptBook;
use crate::sharing::Sharing;
use book_store::RowStore;

/// What an open book has answered, and its history behind that. Only who shows the book with all of that history stored is told.
#[derive(Drop)]
pub struct Untold<L: Sharing, T> {
    told: T,
    behind: Beginning<L>,
}

impl<L: Sharing, T> Untold<L, T> {
    /// An answer of the book that has this history behind it.
    pub fn new(told: T, behind: Beginning<L>) -> Self
        ensures { (result.told ≡ told) × (result.behind ≡ behind) }
    {
        Untold { told, behind }
    }

    /// The answer: all of the history behind it is stored.
    pub fn tell<S: RowStore>(self, _kept: &KeptBook<L, S>) -> T
        requires { _kept.now ≡ self.behind }
        ensures { result ≡ self.told }
    {
        let Untold { told, behind: _ } = self;
        told
    }
}
