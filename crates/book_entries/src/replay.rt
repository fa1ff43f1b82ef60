//! Stored rows that a book takes again.

ghost use Rattle.std.specs.Prelude.{◌≡◌, [], ◌∷◌, ◌++◌, IfOk, OnErr, OnOk};
ghost use Rattle.book_rows.specs.Row.{spelled};
ghost use Rattle.book_entries.specs.Replayed.{HasTaken, sum_in};

use crate::refusal::RowRefusal;
use crate::rows::{row_of_change, row_of_plan, row_of_sweep};
use book_rows::{ReadError, Row, Step, Sum, read_row, spell_row};
use cc_book::{Book, TermsChange};
use cc_view::CcRequest;
use dia_base::Moment;
use std::alloc::Global;

/// The sum of a row that spells these octets.
fn sum_if_same(alloc: Global, row: &Row, octets: &[u8]) -> Result<Sum, RowRefusal>
    ensures { IfOk result (λ sum. (spelled row.now ≡ octets.now) × (sum ≡ row.now.sum)) }
{
    let spelled = spell_row(alloc, row)?;
    if spelled.as_slice() == octets {
        Ok(row.sum)
    } else {
        Err(RowRefusal::Another)
    }
}

/// Takes a request at a moment, where its row has these octets.
fn take_request(
    alloc: Global,
    book: &mut Book,
    before: Sum,
    moment: Moment,
    request: &CcRequest,
    octets: &[u8],
) -> Result<Sum, RowRefusal>
    requires { before.0 ≡ sum_in book.old }
    ensures taken { IfOk result (λ sum. HasTaken book.old book.new octets.now sum.0) }
    ensures unchanged { OnErr result (book.new ≡ book.old) }
{
    let plan = book.plan(alloc, moment, request)?;
    let Some(row) = row_of_plan(alloc, before, moment, request, &plan)? else {
        return Err(RowRefusal::Repeated);
    };
    let sum = sum_if_same(alloc, &row, octets)?;
    book.commit(plan);
    Ok(sum)
}

/// Sweeps at a moment, where its row has these octets.
fn take_sweep(
    alloc: Global,
    book: &mut Book,
    before: Sum,
    moment: Moment,
    octets: &[u8],
) -> Result<Sum, RowRefusal>
    requires { before.0 ≡ sum_in book.old }
    ensures taken { IfOk result (λ sum. HasTaken book.old book.new octets.now sum.0) }
    ensures unchanged { OnErr result (book.new ≡ book.old) }
{
    let place = book.history().len() as u64;
    let row = row_of_sweep(alloc, before, place, moment)?;
    let sum = sum_if_same(alloc, &row, octets)?;
    let ended = book.sweep(moment)?;
    if ended == 0 {
        return Err(RowRefusal::EndsNothing);
    }
    Ok(sum)
}

/// Changes the terms at a moment, where the row of the change has these octets.
fn take_change(
    alloc: Global,
    book: &mut Book,
    before: Sum,
    moment: Moment,
    change: TermsChange,
    octets: &[u8],
) -> Result<Sum, RowRefusal>
    requires { before.0 ≡ sum_in book.old }
    ensures taken { IfOk result (λ sum. HasTaken book.old book.new octets.now sum.0) }
    ensures unchanged { OnErr result (book.new ≡ book.old) }
{
    let place = book.history().len() as u64;
    let row = row_of_change(alloc, before, place, moment, &change)?;
    let sum = sum_if_same(alloc, &row, octets)?;
    book.change_terms(alloc, moment, change)?;
    Ok(sum)
}

/// Takes the entry that stored octets tell into a book whose history has this sum, and gives the sum behind it. Each other
/// row than the one that this book gives to the entry there is refused, and the book is as it was: so what is stored of the
/// book after it is what was stored before it, and these octets.
pub fn take_octets(
    alloc: Global,
    book: &mut Book,
    before: Sum,
    octets: &[u8],
) -> Result<Sum, RowRefusal>
    requires { before.0 ≡ sum_in book.old }
    ensures taken { IfOk result (λ sum. HasTaken book.old book.new octets.now sum.0) }
    ensures unchanged { OnErr result (book.new ≡ book.old) }
{
    let row = match read_row(alloc, octets) {
        Ok(row) => row,
        Err(ReadError::NoRow(fault)) => return Err(RowRefusal::NoRow(fault)),
        Err(ReadError::OutOfMemory) => return Err(RowRefusal::OutOfMemory),
    };
    let moment = row.moment;
    match row.into_step() {
        Step::Take(taken) => take_request(alloc, book, before, moment, &taken.request, octets),
        Step::Sweep => take_sweep(alloc, book, before, moment, octets),
        Step::ChangeTerms(change) => take_change(alloc, book, before, moment, change, octets),
    }
}
