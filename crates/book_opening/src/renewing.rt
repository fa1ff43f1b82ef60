//! A book that is opened comes under the terms of a site.

ghost use Rattle.std.specs.Prelude.{◌≡◌, ◌⊎◌, IfErr, IfOk, OnOk, Err, is_some, length, false, true};
ghost use Rattle.cc_book.specs.Changing.{change_answer, with_change};
ghost use Rattle.cc_book.specs.declared.terms_change.ChangeRefusal.{ChangeRefusal as Refusal};
ghost use Rattle.cc_book.specs.TermsChange.{says_nothing};
ghost use Rattle.book_journal.specs.Kept.{IsKeptBy, IsSettled};
ghost use Rattle.book_terms.specs.Difference.{DiffersIn, Hold, IsNeeded};
ghost use Rattle.book_terms.specs.declared.key.TermsKey.{TermsKey};
ghost use Rattle.book_store.specs.declared.error.AppendError.{AppendError};
ghost use Rattle.book_opening.specs.declared.fault.BookFault.TheVariants.{NotChanged, NotStored, OtherTerms, OutOfMemory};
ghost use Rattle.book_opening.specs.Opened.{HoldsWhereLed, IsRenewed, IsRenewedBy, now_in};
ghost use Rattle.book_opening.specs.Refused.{IsDifference, IsWhyNot, IsWhyNotBy};

use crate::fault::{BookFault, TermsDifference};
use book_journal::Journal;
use book_store::RowStore;
use book_terms::{NeededFault, needed_change};
use cc_book::{Book, Terms, TermsChange};
use dia_base::Moment;
use std::alloc::{AllocError, Global};

/// The change that leads from the terms that hold in a book to those of a site, which no entry has made yet.
pub fn change_for(alloc: Global, book: &Book, wanted: &Terms) -> Result<TermsChange, BookFault>
    ensures needed { IfOk result (IsNeeded (now_in book.now) wanted.now) }
    ensures stays { IfErr result (λ fault. (fault ≡ OutOfMemory) ⊎ ((key : TermsKey) × (fault ≡ OtherTerms key) × DiffersIn key (now_in book.now) wanted.now)) }
{
    match needed_change(alloc, book.terms_now(), wanted) {
        Ok(change) => Ok(change),
        Err(NeededFault::Stays(key)) => Err(BookFault::OtherTerms(key)),
        Err(NeededFault::OutOfMemory) => Err(BookFault::OutOfMemory),
    }
}

/// How many accounts join by a change, and whether the tariffs change.
fn difference_of(change: &TermsChange) -> TermsDifference
    ensures { IsDifference change.now result }
{
    TermsDifference {
        accounts: change.joining.len() as u64,
        tariffs: change.tariffs.is_some(),
    }
}

/// A book changes its terms by an entry of this moment, and the entry is stored.
fn change_stored<S: RowStore>(
    alloc: Global,
    journal: &mut Journal<S>,
    book: &mut Book,
    moment: Moment,
    change: TermsChange,
) -> Result<(), BookFault>
    requires kept { IsKeptBy S.is_clean S.is_ready S.rows S.beside journal.old book.old }
    requires settled { IsSettled journal.old }
    ensures changed { OnOk result (book.new ≡ with_change book.old moment change) }
    ensures refused { IfErr result (λ fault. (fault ≡ OutOfMemory) ⊎ ((error : AppendError) × (fault ≡ NotStored error)) ⊎ ((refusal : Refusal) × (fault ≡ NotChanged refusal) × (change_answer book.old change ≡ Err refusal))) }
    ensures kept { OnOk result (IsKeptBy S.is_clean S.is_ready S.rows S.beside journal.new book.new) }
    ensures settled { OnOk result (IsSettled journal.new) }
    ensures store { OnOk result (is_some journal.new.store ≡ is_some journal.old.store) }
{
    let place = book.quote_change(&change)?;
    let row = journal.row_of_change(book, moment, &change)?;
    book.change_terms(alloc, moment, change)?;
    journal.add(row);
    journal.store(place, book)?;
    Ok(())
}

/// Brings a book, which a journal keeps, under the terms of a site: where they do not hold in it yet, it changes them by one entry of
/// this moment, which is stored, if that is allowed. The money, the validity, and the opening of an account that is there, are not to
/// be changed.
pub fn renew<S: RowStore>(
    alloc: Global,
    journal: &mut Journal<S>,
    book: &mut Book,
    wanted: &Terms,
    moment: Moment,
    is_allowed: bool,
) -> Result<(), BookFault>
    requires kept { IsKeptBy S.is_clean S.is_ready S.rows S.beside journal.old book.old }
    requires settled { IsSettled journal.old }
    ensures renewed { OnOk result (IsRenewed wanted.now moment is_allowed book.old book.new) }
    ensures refused { IfErr result (IsWhyNot wanted.now is_allowed book.old) }
    ensures hold { OnOk result (Hold (now_in book.new) wanted.now) }
    ensures limit { OnOk result (book.new.limit ≡ book.old.limit) }
    ensures kept { OnOk result (IsKeptBy S.is_clean S.is_ready S.rows S.beside journal.new book.new) }
    ensures settled { OnOk result (IsSettled journal.new) }
    ensures store { OnOk result (is_some journal.new.store ≡ is_some journal.old.store) }
{
    let change = change_for(alloc, book, wanted)?;
    renew_by(alloc, journal, book, change, moment, is_allowed)
}

/// The same by a change that is handed in, which leads to the terms of the site. It says nothing where they hold already.
pub fn renew_by<S: RowStore>(
    alloc: Global,
    journal: &mut Journal<S>,
    book: &mut Book,
    change: TermsChange,
    moment: Moment,
    is_allowed: bool,
) -> Result<(), BookFault>
    requires kept { IsKeptBy S.is_clean S.is_ready S.rows S.beside journal.old book.old }
    requires settled { IsSettled journal.old }
    ensures renewed { OnOk result (IsRenewedBy change moment is_allowed book.old book.new) }
    ensures refused { IfErr result (IsWhyNotBy change is_allowed book.old) }
    ensures hold { OnOk result (HoldsWhereLed change book.old book.new) }
    ensures limit { OnOk result (book.new.limit ≡ book.old.limit) }
    ensures kept { OnOk result (IsKeptBy S.is_clean S.is_ready S.rows S.beside journal.new book.new) }
    ensures settled { OnOk result (IsSettled journal.new) }
    ensures store { OnOk result (is_some journal.new.store ≡ is_some journal.old.store) }
{
    if change.says_nothing() {
        return Ok(());
    }
    if !is_allowed {
        return Err(BookFault::TermsDiffer(difference_of(&change)));
    }
    change_stored(alloc, journal, book, moment, change)
}

/// The same, of a book that is handed on with its journal.
pub fn renewed<S: RowStore + Drop>(
    alloc: Global,
    opened: (Journal<S>, Book),
    wanted: &Terms,
    moment: Moment,
    is_allowed: bool,
) -> Result<(Journal<S>, Book), BookFault>
    requires kept { IsKeptBy S.is_clean S.is_ready S.rows S.beside opened.0 opened.1 }
    requires settled { IsSettled opened.0 }
    ensures renewed { IfOk result (λ served. IsRenewed wanted.now moment is_allowed opened.1 served.1) }
    ensures refused { IfErr result (IsWhyNot wanted.now is_allowed opened.1) }
    ensures hold { IfOk result (λ served. Hold (now_in served.1) wanted.now) }
    ensures limit { IfOk result (λ served. served.1.limit ≡ opened.1.limit) }
    ensures kept { IfOk result (λ served. IsKeptBy S.is_clean S.is_ready S.rows S.beside served.0 served.1) }
    ensures settled { IfOk result (λ served. IsSettled served.0) }
    ensures store { IfOk result (λ served. is_some served.0.store ≡ is_some opened.0.store) }
{
    let (mut journal, mut book) = opened;
    match renew(alloc, &mut journal, &mut book, wanted, moment, is_allowed) {
        Ok(()) => Ok((journal, book)),
        Err(fault) => Err(fault),
    }
}

/// The same by a change that is handed in, as [`renew_by`] does it.
pub fn renewed_by<S: RowStore + Drop>(
    alloc: Global,
    opened: (Journal<S>, Book),
    change: TermsChange,
    moment: Moment,
    is_allowed: bool,
) -> Result<(Journal<S>, Book), BookFault>
    requires kept { IsKeptBy S.is_clean S.is_ready S.rows S.beside opened.0 opened.1 }
    requires settled { IsSettled opened.0 }
    ensures renewed { IfOk result (λ served. IsRenewedBy change moment is_allowed opened.1 served.1) }
    ensures refused { IfErr result (IsWhyNotBy change is_allowed opened.1) }
    ensures hold { IfOk result (λ served. HoldsWhereLed change opened.1 served.1) }
    ensures limit { IfOk result (λ served. served.1.limit ≡ opened.1.limit) }
    ensures kept { IfOk result (λ served. IsKeptBy S.is_clean S.is_ready S.rows S.beside served.0 served.1) }
    ensures settled { IfOk result (λ served. IsSettled served.0) }
    ensures store { IfOk result (λ served. is_some served.0.store ≡ is_some opened.0.store) }
{
    let (mut journal, mut book) = opened;
    match renew_by(alloc, &mut journal, &mut book, change, moment, is_allowed) {
        Ok(()) => Ok((journal, book)),
        Err(fault) => Err(fault),
    }
}
