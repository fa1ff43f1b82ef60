//! What makes two requests the same (RFC 8506, section 8.2).

ghost use Rattle.std.specs.Prelude.{MatchOption};
ghost use Rattle.cc_book.specs.Duplicate.{key_of};
ghost use Rattle.cc_book.specs.History.{IsNew, IsKeptAt};
ghost use Rattle.cc_book.specs.Places.{IsIndexed};

use crate::entry::Entry;
use crate::places::Places;
use cc_view::CcRequest;

/// The first take of a request with the key of this one, and its place, which the places of the history know.
pub fn kept<'a>(
    history: &'a [Entry],
    places: &Places,
    request: &CcRequest,
) -> Option<(usize, &'a CcRequest)>
    requires { IsIndexed history.now places.now }
    ensures { MatchOption result (IsNew history.now (key_of request.now)) (λ x. IsKeptAt history.now (key_of request.now) x.0 x.1.now) }
{
    let place = places.find(request)?;
    match &history[place] {
        Entry::Take { request, .. } => Some((place, request)),
        Entry::Sweep { .. } | Entry::ChangeTerms { .. } => unreachable!(),
    }
}
