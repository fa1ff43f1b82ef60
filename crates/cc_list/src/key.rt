//! The requests of a history, which are walked.

ghost use Rattle.std.specs.Prelude.{◌≡◌, MatchOption};
ghost use Rattle.cc_book.specs.Duplicate.{key_of, same_key as same};
ghost use Rattle.cc_book.specs.History.{IsNew, IsKeptAt};

use cc_book::Entry;
use cc_view::CcRequest;

/// Whether both requests have one Session-Id and one CC-Request-Number.
fn same_key(one: &CcRequest, other: &CcRequest) -> bool
    ensures { result ≡ same (key_of one.now) (key_of other.now) }
{
    one.number == other.number && one.session == other.session
}

/// The first take of a request with the key of this one, and its place.
pub fn kept<'a>(history: &'a [Entry], request: &CcRequest) -> Option<(usize, &'a CcRequest)>
    ensures { MatchOption result (IsNew history.now (key_of request.now)) (λ x. IsKeptAt history.now (key_of request.now) x.0 x.1.now) }
{
    for (place, entry) in history.iter().enumerate() {
        match entry {
            Entry::Take { request: taken, .. } => {
                if same_key(taken, request) {
                    return Some((place, taken));
                }
            }
            Entry::Sweep { .. } | Entry::ChangeTerms { .. } => {}
        }
    }
    None
}
