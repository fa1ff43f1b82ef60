//! Whether receipts stand in a history.

ghost use Rattle.std.specs.Prelude.{◌≡◌, All, Any, IfNone, IfOk, IfSome, MatchBool, MatchOption, IsTrue, true};
ghost use Rattle.std.specs.Bool.{Decides};
ghost use Rattle.cc_book.specs.Duplicate.{key_of, same_key};
ghost use Rattle.cc_view.specs.declared.request.CcRequest.{CcRequest};
ghost use Rattle.cc_shared.specs.Receipts.{Fits, IsTakenAt};

use crate::receipt::Receipt;
use crate::same::same_reply;
use cc_book::{Book, BookRefusal, Entry, same_request};
use cc_view::CcRequest;
use dia_base::Moment;
use std::alloc::{AllocError, Global};

/// The place of the first receipt that does not stand in the book's history. None where all do.
pub fn first_stray(
    alloc: Global,
    book: &Book,
    receipts: &[Receipt],
) -> Result<Option<u64>, AllocError>
    ensures { IfOk result (λ stray. MatchOption stray (All (λ receipt. Fits book.now.terms book.now.history receipt) receipts.now) (λ place. Any (λ receipt. (receipt.place ≡ place) × (Fits book.now.terms book.now.history receipt → ⊥)) receipts.now)) }
{
    for receipt in receipts {
        let fit = fits(alloc, book, receipt)?;
        if !fit {
            return Ok(Some(receipt.place));
        }
    }
    Ok(None)
}

/// Whether a receipt stands in the book's history. Memory is wanted for a copy of the reply that is kept at its place.
fn fits(alloc: Global, book: &Book, receipt: &Receipt) -> Result<bool, AllocError>
    ensures { IfOk result (λ fits. MatchBool fits (Fits book.now.terms book.now.history receipt.now) (Fits book.now.terms book.now.history receipt.now → ⊥)) }
{
    let entries = book.history();
    let Some(taken) = taken_at(entries, receipt.place) else {
        return Ok(false);
    };
    if !may_tell_of(taken, receipt) {
        return Ok(false);
    }
    match book.quote(alloc, Moment(0), &receipt.request) {
        Ok(kept) => Ok(same_reply(&receipt.reply, &kept.reply)),
        Err(BookRefusal::OutOfMemory) => Err(AllocError),
        Err(BookRefusal::Full { .. }) => unreachable!(),
    }
}

/// The request whose take stands at a place. None where there is none.
fn taken_at(history: &[Entry], place: u64) -> Option<&CcRequest>
    ensures some { IfSome result (λ taken. IsTakenAt history.now place taken.now) }
    ensures none { IfNone result ((taken : CcRequest) → IsTakenAt history.now place taken → ⊥) }
{
    match history.get(place as usize) {
        Some(Entry::Take { request, .. }) => Some(request),
        _ => None,
    }
}

/// Whether a receipt may tell of this request: it has the receipt's key, and is the receipt's own where that is fresh.
fn may_tell_of(taken: &CcRequest, receipt: &Receipt) -> bool
    ensures { Decides result (IsTrue (same_key (key_of taken.now) (key_of receipt.now.request)) × (receipt.now.fresh ≡ true → taken.now ≡ receipt.now.request)) }
{
    let own = &receipt.request;
    taken.number == own.number
        && taken.session == own.session
        && (!receipt.fresh || same_request(taken, own))
}
