//! The entries of a history, one on a line.

ghost use Rattle.std.specs.Prelude.{◌≡◌, ◌++◌, ◌∷◌, [], IfOk, OnOk};
ghost use Rattle.cc_book.specs.declared.entry.Entry.TheVariants.{Take, Sweep, ChangeTerms};
ghost use Rattle.cc_book.specs.Changing.{with_change};
ghost use Rattle.cc_book.specs.Taking.{Ledger, with_sweep, with_take};
ghost use Rattle.book_lines.specs.Lines.{line_behind, lines_of};

use crate::change::push_change_line;
use crate::charge::{push_charge_line, push_sweep_line};
use crate::fault::LinesFault;
use cc_book::{Book, Entry, TermsChange};
use cc_view::CcRequest;
use dia_base::Moment;
use std::alloc::Global;

/// A book takes a request, and its line is added.
fn push_take(
    alloc: Global,
    out: &mut Vec<u8>,
    book: &mut Book,
    moment: Moment,
    request: &CcRequest,
) -> Result<(), LinesFault>
    ensures taken { OnOk result (book.new ≡ with_take book.old moment request.now) }
    ensures line { OnOk result (out.new.items ≡ out.old.items ++ line_behind book.old.terms book.old.history (Take moment request.now)) }
{
    let plan = book.plan(alloc, moment, request)?;
    let place = plan.answered.place;
    let Some(taken) = &plan.taken else {
        return Err(LinesFault::NotTaken(place));
    };
    push_charge_line(
        alloc,
        out,
        book.accounts(),
        place,
        moment,
        request,
        &taken.outcome,
    )?;
    book.commit(plan);
    Ok(())
}

/// A book sweeps, and the line of that is added.
fn push_sweep(
    alloc: Global,
    out: &mut Vec<u8>,
    book: &mut Book,
    moment: Moment,
) -> Result<(), LinesFault>
    ensures swept { OnOk result (book.new ≡ with_sweep book.old moment) }
    ensures line { OnOk result (out.new.items ≡ out.old.items ++ line_behind book.old.terms book.old.history (Sweep moment)) }
{
    let place = book.history().len() as u64;
    push_sweep_line(alloc, out, place, moment)?;
    let ended = book.sweep(moment)?;
    if ended == 0 {
        return Err(LinesFault::NotTaken(place));
    }
    Ok(())
}

/// A book changes its terms, and the line of that is added.
fn push_change(
    alloc: Global,
    out: &mut Vec<u8>,
    book: &mut Book,
    moment: Moment,
    change: &TermsChange,
) -> Result<(), LinesFault>
    ensures changed { OnOk result (book.new ≡ with_change book.old moment change.now) }
    ensures line { OnOk result (out.new.items ≡ out.old.items ++ line_behind book.old.terms book.old.history (ChangeTerms moment change.now)) }
{
    let place = book.history().len() as u64;
    push_change_line(alloc, out, place, moment, change)?;
    let change = change.copy(alloc)?;
    book.change_terms(alloc, moment, change)?;
    Ok(())
}

/// A book takes an entry, and its line is added.
fn push_entry(
    alloc: Global,
    out: &mut Vec<u8>,
    book: &mut Book,
    entry: &Entry,
) -> Result<(), LinesFault>
    ensures terms { OnOk result (book.new.terms ≡ book.old.terms) }
    ensures history { OnOk result (book.new.history ≡ book.old.history ++ entry.now ∷ []) }
    ensures line { OnOk result (out.new.items ≡ out.old.items ++ line_behind book.old.terms book.old.history entry.now) }
{
    match entry {
        Entry::Take { moment, request } => push_take(alloc, out, book, *moment, request),
        Entry::Sweep { moment } => push_sweep(alloc, out, book, *moment),
        Entry::ChangeTerms { moment, change } => push_change(alloc, out, book, *moment, change),
    }
}

/// A line for each entry of a history, which an empty book takes one by one: so each line says what that book answers and debits.
pub fn entry_lines(alloc: Global, empty: Book, history: &[Entry]) -> Result<Vec<u8>, LinesFault>
    requires { empty.history ≡ [] }
    ensures { IfOk result (λ lines. lines.items ≡ lines_of empty.terms history.now) }
{
    let mut book = empty;
    let mut out = Vec::new(alloc);
    for entry in history {
        push_entry(alloc, &mut out, &mut book, entry)?;
    }
    Ok(out)
}
