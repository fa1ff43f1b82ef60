//! What a request would do to a book.

ghost use Rattle.std.specs.Prelude.{◌≡◌};

use crate::book::Answered;
use crate::copy::RequestCopy;
use crate::outcome::Outcome;
use dia_base::Moment;

/// What a request does to a book, found out before anything changes: what it is answered and, where the book does
/// not keep it yet, the entry that it becomes with all that follows from it. It owns what the book keeps of it. It is
/// good for the history that it was made of, and so for one commit.
pub struct Plan {
    /// What the request is answered.
    pub answered: Answered,
    /// None where the book keeps the request already.
    pub taken: Option<Taken>,
}

// By hand, so that each exit of an owner is proved with one call.
impl Drop for Plan {
    fn drop(self) {
        let Plan {
            answered: _,
            taken: _,
        } = self;
    }
}

/// A request that the book does not keep yet, and what it does.
#[derive(Drop)]
pub struct Taken {
    pub moment: Moment,
    pub request: RequestCopy,
    pub outcome: Outcome,
}

impl Plan {
    ghost use Rattle.cc_book.specs.Planning.{answer_planned};

    /// What the request is answered.
    pub fn answered(&self) -> &Answered
        ensures { result.now ≡ answer_planned self.now }
    {
        &self.answered
    }

    /// What the request is answered, where it is not to be committed.
    pub fn into_answered(self) -> Answered
        ensures { result ≡ answer_planned self }
    {
        let (answered, _taken) = self.into_parts();
        answered
    }

    /// What the request is answered, and what it does.
    pub(crate) fn into_parts(self) -> (Answered, Option<Taken>)
        ensures { result ≡ (self.answered, self.taken) }
    {
        let Plan { answered, taken } = self;
        (answered, taken)
    }
}
