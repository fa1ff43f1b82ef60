//! The rows of entries that a book takes.

ghost use Rattle.std.specs.Prelude.{◌≡◌, [], ◌∷◌, ◌++◌, IfOk, if◌then◌else◌, length};
ghost use Rattle.cc_book.specs.Changing.{with_change};
ghost use Rattle.cc_book.specs.Planning.{IsGoodFor, after_plan, answer_planned};
ghost use Rattle.cc_book.specs.Taking.{Ledger, with_sweep, with_take};
ghost use Rattle.book_entries.specs.Rows.{one_or_none, rows_of, sum_of};

use book_rows::{Row, Step, Sum, Taken, chained_row};
use cc_book::{Plan, TermsChange, copy_of_reply};
use cc_view::{CcRequest, Services};
use dia_base::{Listing, Moment};
use std::alloc::{AllocError, Global};

fn copy_of_request(alloc: Global, request: &CcRequest) -> Result<CcRequest, AllocError>
    ensures { IfOk result (λ copy. copy ≡ request.now) }
{
    Ok(CcRequest {
        session: request.session.clone()?,
        number: request.number,
        kind: request.kind,
        action: request.action,
        subscriptions: Listing::from_vec(request.subscriptions.as_slice().to_vec(alloc)?),
        services: Services::from_vec(request.services.as_slice().to_vec(alloc)?),
    })
}

/// The row of the request at a moment that a plan takes, behind the sum of the book's history. None where the plan takes
/// nothing, since the book keeps the request. It is made before the plan is committed.
pub fn row_of_plan(
    alloc: Global,
    before: Sum,
    moment: Moment,
    request: &CcRequest,
    plan: &Plan,
) -> Result<Option<Row>, AllocError>
    ensures rows { IfOk result (λ row. (ledger : Ledger) → IsGoodFor ledger plan.now
        → after_plan ledger plan.now ≡ (if (answer_planned plan.now).fresh then with_take ledger moment request.now else ledger)
        → before.0 ≡ sum_of ledger.terms ledger.history
        → rows_of ledger.terms (after_plan ledger plan.now).history ≡ rows_of ledger.terms ledger.history ++ one_or_none row) }
{
    let Some(taken) = &plan.taken else {
        return Ok(None);
    };
    let step = Step::Take(Taken {
        request: copy_of_request(alloc, request)?,
        reply: copy_of_reply(alloc, &taken.outcome.reply)?,
        debit: taken.outcome.debit,
    });
    let row = chained_row(alloc, before, plan.answered.place, moment, step)?;
    Ok(Some(row))
}

/// The row of a sweep at a moment that ends sessions, behind the sum of a history with so many entries.
pub fn row_of_sweep(
    alloc: Global,
    before: Sum,
    place: u64,
    moment: Moment,
) -> Result<Row, AllocError>
    ensures rows { IfOk result (λ row. (ledger : Ledger) → place ≡ length ledger.history → before.0 ≡ sum_of ledger.terms ledger.history
        → rows_of ledger.terms (with_sweep ledger moment).history ≡ rows_of ledger.terms ledger.history ++ row ∷ []) }
{
    chained_row(alloc, before, place, moment, Step::Sweep)
}

/// The row of a change of the terms at a moment, behind the sum of a history with so many entries.
pub fn row_of_change(
    alloc: Global,
    before: Sum,
    place: u64,
    moment: Moment,
    change: &TermsChange,
) -> Result<Row, AllocError>
    ensures rows { IfOk result (λ row. (ledger : Ledger) → place ≡ length ledger.history → before.0 ≡ sum_of ledger.terms ledger.history
        → rows_of ledger.terms (with_change ledger moment change.now).history ≡ rows_of ledger.terms ledger.history ++ row ∷ []) }
{
    let change = change.copy(alloc)?;
    let row = chained_row(alloc, before, place, moment, Step::ChangeTerms(change))?;
    Ok(row)
}
