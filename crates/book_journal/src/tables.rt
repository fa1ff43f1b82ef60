//! What stands beside the rows of a book, as octets and as writes.

ghost use Rattle.std.specs.Prelude.{◌≡◌, ℕ, List, IfOk, OnOk};
ghost use Rattle.std.specs.Option.{option_map};
ghost use Rattle.cc_book.specs.Taking.{Ledger};
ghost use Rattle.book_beside.specs.Beside.{Beside, written, written_all};
ghost use Rattle.book_journal.specs.Tables.{account_octets, session_octets, standing, IsBeside, IsEdited, IsRenewed, IsSameBut};

use crate::touched::Touched;
use book_beside::{Side, Write};
use book_rows::push_session;
use cc_book::Book;
use std::alloc::{AllocError, Global};

/// The balance of the account at a place, in decimal digits of minor units; none where there is no account.
fn balance_octets(alloc: Global, book: &Book, place: usize) -> Result<Option<Vec<u8>>, AllocError>
    ensures { IfOk result (λ octets. option_map (λ o. o.items) octets ≡ account_octets book.now place) }
{
    let Some(balance) = book.balance(place) else {
        return Ok(None);
    };
    let digits = format!(in alloc; "{balance}")?;
    Ok(Some(digits.into_bytes()))
}

/// The octets of the open session at a place; none where there is none.
#[tactic(auto, using(crate::proofs::Renewing::no_session, crate::proofs::Renewing::session_spelled))]
fn session_octets(alloc: Global, book: &Book, place: usize) -> Result<Option<Vec<u8>>, AllocError>
    ensures { IfOk result (λ octets. option_map (λ o. o.items) octets ≡ session_octets book.now place) }
{
    let Some(session) = book.session_at(place) else {
        return Ok(None);
    };
    let mut octets = Vec::new(alloc);
    push_session(&mut octets, session)?;
    Ok(Some(octets))
}

/// What stands at a place beside the rows of a book.
pub fn standing_at(
    alloc: Global,
    book: &Book,
    side: Side,
    place: usize,
) -> Result<Option<Vec<u8>>, AllocError>
    ensures { IfOk result (λ octets. option_map (λ o. o.items) octets ≡ standing side book.now place) }
{
    match side {
        Side::Accounts => balance_octets(alloc, book, place),
        Side::Sessions => session_octets(alloc, book, place),
    }
}

/// The write that leaves these octets at a place of a table, or none.
fn write_of(side: Side, place: u64, octets: Option<Vec<u8>>) -> Write
    ensures { (beside : Beside) → IsEdited side place (option_map (λ o. o.items) octets) beside (written beside result) }
{
    match (side, octets) {
        (Side::Accounts, Some(octets)) => Write::Account { place, octets },
        (Side::Accounts, None) => Write::NoAccount { place },
        (Side::Sessions, Some(octets)) => Write::Session { place, octets },
        (Side::Sessions, None) => Write::NoSession { place },
    }
}

/// Adds the writes that leave at these places of a table what stands there of a book.
fn push_writes(
    alloc: Global,
    writes: &mut Vec<Write>,
    book: &Book,
    side: Side,
    places: &[usize],
) -> Result<(), AllocError>
    ensures { OnOk result ((beside : Beside) → IsRenewed side book.now places.now (written_all beside writes.old.items) (written_all beside writes.new.items)) }
{
    for place in places {
        let octets = standing_at(alloc, book, side, *place)?;
        writes.push(write_of(side, *place as u64, octets))?;
    }
    Ok(())
}

/// The writes behind which the tables beside the rows have what the history of a book makes of accounts and sessions, where they had it
/// of a book that is the same but at the places that were touched.
pub fn writes_of(alloc: Global, book: &Book, touched: &Touched) -> Result<Vec<Write>, AllocError>
    ensures { IfOk result (λ writes. (was : Ledger) (beside : Beside) → IsSameBut touched.now was book.now → IsBeside was beside → IsBeside book.now (written_all beside writes.items)) }
{
    let mut writes = Vec::new(alloc);
    push_writes(alloc, &mut writes, book, Side::Accounts, &touched.accounts)?;
    push_writes(alloc, &mut writes, book, Side::Sessions, &touched.sessions)?;
    Ok(writes)
}
