//! A row of the book.

use cc_book::TermsChange;
use cc_view::{CcReply, CcRequest};
use dia_base::Moment;

/// The sum of a row: 16 octets of SHA-256, as a number whose highest octet is the first.
#[derive(Clone, Copy, Debug, PartialEq, Eq)]
pub struct Sum(pub u128);

/// A request that was taken, what it was answered, and what it debited its account.
pub struct Taken {
    pub request: CcRequest,
    pub reply: CcReply,
    pub debit: i128,
}

// By hand, so that each exit of an owner is proved with one call.
impl Drop for Taken {
    fn drop(self) {
        let Taken {
            request: _,
            reply: _,
            debit: _,
        } = self;
    }
}

impl Taken {
    ghost use Rattle.std.specs.Prelude.{◌≡◌};

    /// The request alone.
    pub fn into_request(self) -> CcRequest
        ensures { result ≡ self.request }
    {
        let Taken {
            request,
            reply: _,
            debit: _,
        } = self;
        request
    }
}

/// What an entry of the book is.
#[derive(Drop)]
pub enum Step {
    /// A request that was taken.
    Take(Taken),
    /// A look at the clock that ended sessions (RFC 8506, section 13).
    Sweep,
    /// A change of the terms, which hold from here on.
    ChangeTerms(TermsChange),
}

/// One entry of the book as it is stored.
pub struct Row {
    /// Which entry it is: the first has place 0.
    pub place: u64,
    pub moment: Moment,
    pub step: Step,
    /// The sum over the sum before and the octets of this row.
    pub sum: Sum,
}

// By hand, so that each exit of an owner is proved with one call.
impl Drop for Row {
    fn drop(self) {
        let Row {
            place: _,
            moment: _,
            step: _,
            sum: _,
        } = self;
    }
}

impl Row {
    ghost use Rattle.std.specs.Prelude.{◌≡◌};

    /// What its entry is.
    pub fn into_step(self) -> Step
        ensures { result ≡ self.step }
    {
        let Row {
            place: _,
            moment: _,
            step,
            sum: _,
        } = self;
        step
    }
}
