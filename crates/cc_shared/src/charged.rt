//! The requests that charged an account last.

ghost use Rattle.std.specs.Prelude.{◌≡◌, IfOk};
ghost use Rattle.cc_shared.specs.Looking.{last_of, shown_at};

use crate::looks::AccountCharge;
use cc_book::{Book, Entry, last_charges};
use cc_view::Subscription;
use std::alloc::{AllocError, Global};

/// How many of them a look shows.
pub const SHOWN_CHARGES: usize = 10;

/// What is shown of the entry at a place, if it is a request.
fn shown_at(book: &Book, place: usize) -> Result<Option<AccountCharge>, AllocError>
    ensures { IfOk result (λ shown. shown ≡ shown_at book.now.terms book.now.history place) }
{
    let Some(Entry::Take { moment, request }) = book.history().get(place) else {
        return Ok(None);
    };
    let Some(Some(reply)) = book.replies().get(place) else {
        return Ok(None);
    };
    let Some(charge) = book.charges().get(place) else {
        return Ok(None);
    };
    Ok(Some(AccountCharge {
        place: place as u64,
        moment: *moment,
        session: request.session.clone()?,
        number: request.number,
        kind: request.kind,
        debit: charge.debit,
        code: reply.code,
    }))
}

/// The requests that charged the account of a Subscription-Id last, the latest first: none where no account has it.
pub fn last_of(
    alloc: Global,
    book: &Book,
    id: &Subscription,
) -> Result<Vec<AccountCharge>, AllocError>
    ensures { IfOk result (λ last. last.items ≡ last_of book.now.terms book.now.history id.now) }
{
    let mut last = Vec::new(alloc);
    let Some(account) = book.terms_now().accounts.find(id) else {
        return Ok(last);
    };
    let places = last_charges(alloc, book.charges(), account, SHOWN_CHARGES)?;
    for place in places {
        if let Some(charge) = shown_at(book, place)? {
            last.push(charge)?;
        }
    }
    Ok(last)
}
