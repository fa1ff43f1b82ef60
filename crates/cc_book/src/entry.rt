//! The entries of the book.

use crate::terms_change::TermsChange;
use cc_view::CcRequest;
use dia_base::Moment;

/// What the book keeps of one step: all that its balances and replies are made from.
#[derive(Debug, Drop)]
pub enum Entry {
    /// A request that was taken.
    Take { moment: Moment, request: CcRequest },
    /// A look at the clock that ended sessions (RFC 8506, section 13).
    Sweep { moment: Moment },
    /// A change of the terms, which hold from here on.
    ChangeTerms { moment: Moment, change: TermsChange },
}
