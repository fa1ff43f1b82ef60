//! What a call of `serve` answers.

ghost use Rattle.cc_shared.specs.Receipts.{IsReceiptOf, StandTogether};

use crate::history::SeenHistory;
use crate::sharing::Sharing;
use cc_view::{CcReply, CcRequest};

/// The book's answer to a request, with the request. It carries a beginning of the book's one history, in which it stands at its
/// place.
pub struct Receipt {
    pub request: CcRequest,
    pub reply: CcReply,
    /// The place of the request's entry in the history, from 0.
    pub place: u64,
    /// Whether the request was appended by that call. A repeat has the place and the reply of the first, or, with another
    /// content, that place and DIAMETER_UNABLE_TO_COMPLY alone.
    pub fresh: bool,
    /// What was seen of the history as it was handed out. It takes no octets.
    pub seen: SeenHistory,
}

// By hand, so that each exit of an owner is proved with one call.
impl Drop for Receipt {
    fn drop(self) {
        let Receipt {
            request: _,
            reply: _,
            place: _,
            fresh: _,
            seen: _,
        } = self;
    }
}

impl Receipt {
    /// Two receipts of one book stand in one history of it, whoever they were handed to, and when: of two beginnings that were
    /// seen, one begins the other. It does nothing.
    pub fn stands_with<L: Sharing>(&self, other: &Receipt)
        requires this { IsReceiptOf L.shared self.now }
        requires that { IsReceiptOf L.shared other.now }
        ensures { StandTogether L.shared self.now other.now }
    {
        let mut both = self.seen.again();
        both.learn(&other.seen);
    }
}
