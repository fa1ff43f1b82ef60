//! What is stored of a book while it goes on.

ghost use Rattle.std.specs.Prelude.{◌≡◌, ◌<◌, ◌≤◌, ◌⊎◌, ◌++◌, ◌∷◌, [], ℕ, List, IfNone, IfOk, IfSome, None, OnOk, OnErr, if◌then◌else◌, is_some, length, vec_capacity, vec_len};
ghost use Rattle.cc_book.specs.Changing.{with_change};
ghost use Rattle.cc_book.specs.Planning.{IsGoodFor, after_plan, answer_planned};
ghost use Rattle.cc_book.specs.Taking.{Ledger, with_sweep, with_take};
ghost use Rattle.book_entries.specs.Replayed.{stored_in};
ghost use Rattle.book_rows.specs.Row.{spelled as octets_of};
ghost use Rattle.book_beside.specs.Beside.{Beside, written_all};
ghost use Rattle.book_store.specs.Table.{Stored, octets_in, stored_with};
ghost use Rattle.std.specs.Global.{Vec};
ghost use Rattle.book_journal.specs.declared.touched.Touched.{Touched};
ghost use Rattle.book_journal.specs.Kept.{HasRoom, IsKeptBy, IsLeft, IsNext, IsSettled, IsSoundIn, KeepsIn};
ghost use Rattle.book_journal.specs.Tables.{IsBeside, IsSameBut};

use crate::tables::writes_of;
use crate::touched::Touched;
use book_beside::Write;
use book_entries::{row_of_change, row_of_plan, row_of_sweep};
use book_rows::{Row, Sum, spell_row};
use book_store::{AppendError, RowStore};
use cc_book::{Book, Plan, TermsChange};
use cc_view::CcRequest;
use dia_base::Moment;
use sqlite_trees::error::StoreError;
use std::alloc::{AllocError, Global};

/// The row of an entry that is to be stored.
#[derive(Drop)]
pub struct NewRow {
    /// Its octets.
    pub octets: Vec<u8>,
    /// Its sum.
    pub sum: Sum,
}

/// What is stored of a book, and what waits to be stored. `S` is what it is stored in.
pub struct Journal<S> {
    /// Of it comes the memory for rows.
    pub alloc: Global,
    /// None where the book is kept in memory alone.
    pub store: Option<S>,
    /// The sum of the last row, of those that wait too.
    pub sum: Sum,
    /// The octets of the rows that wait to be stored, in their order.
    pub waiting: Vec<Vec<u8>>,
    /// Where what stands beside the rows may differ from the book.
    pub touched: Touched,
}

// By hand, so that each exit of an owner is proved with one call.
impl<S: Drop> Drop for Journal<S> {
    fn drop(self) {
        let Journal {
            alloc: _,
            store: _,
            sum: _,
            waiting: _,
            touched: _,
        } = self;
    }
}

impl<S> Journal<S> {
    /// What it is stored in, and the sum of the last row, of those that wait too.
    pub fn into_parts(self) -> (Option<S>, Sum)
        ensures { result ≡ (self.store, self.sum) }
    {
        let Journal {
            alloc: _,
            store,
            sum,
            waiting: _,
            touched: _,
        } = self;
        (store, sum)
    }
}

/// The octets of a row, and its sum.
fn spelled(alloc: Global, row: &Row) -> Result<NewRow, AllocError>
    ensures octets { IfOk result (λ new. new.octets.items ≡ octets_of row.now) }
    ensures sum { IfOk result (λ new. new.sum ≡ row.now.sum) }
{
    let octets = spell_row(alloc, row)?;
    Ok(NewRow {
        octets,
        sum: row.sum,
    })
}

/// Appends these rows, the first of them at this place, and makes these writes beside them, in one commit; nothing where there are
/// neither.
fn append_all<S: RowStore>(
    alloc: Global,
    store: &mut S,
    place: u64,
    rows: &[Vec<u8>],
    writes: &[Write],
) -> Result<(), AppendError>
    requires { S.is_clean store.old → S.is_ready store.old }
    ensures clean { S.is_clean store.new → S.is_clean store.old }
    ensures ready { OnOk result (S.is_clean store.new → S.is_ready store.new) }
    ensures appended { OnOk result (S.is_clean store.new → S.rows store.new ≡ S.rows store.old ++ octets_in rows.now) }
    ensures written { OnOk result (S.is_clean store.new → S.beside store.new ≡ written_all (S.beside store.old) writes.now) }
    ensures same_book { OnOk result (S.is_clean store.new → S.about store.new ≡ S.about store.old) }
    ensures crash { S.is_clean store.new → (left : Stored) → S.may_leave store.new left
        → (left ≡ stored_with (S.about store.old) (S.rows store.old) (S.beside store.old))
        ⊎ (left ≡ stored_with (S.about store.old) (S.rows store.old ++ octets_in rows.now) (written_all (S.beside store.old) writes.now)) }
{
    if rows.is_empty() && writes.is_empty() {
        return Ok(());
    }
    store.append(alloc, place, rows, writes)
}

/// Stores these rows of a book, and beside them what stands so of it at the places that were touched.
pub fn store_all<S: RowStore>(
    alloc: Global,
    store: &mut S,
    place: u64,
    rows: &[Vec<u8>],
    touched: &Touched,
    book: &Book,
) -> Result<(), AppendError>
    requires { S.is_clean store.old → S.is_ready store.old }
    ensures clean { S.is_clean store.new → S.is_clean store.old }
    ensures ready { OnOk result (S.is_clean store.new → S.is_ready store.new) }
    ensures appended { OnOk result (S.is_clean store.new → S.rows store.new ≡ S.rows store.old ++ octets_in rows.now) }
    ensures same_book { OnOk result (S.is_clean store.new → S.about store.new ≡ S.about store.old) }
    ensures stands { OnOk result (S.is_clean store.new → (was : Ledger) → IsBeside was (S.beside store.old) → IsSameBut touched.now was book.now → IsBeside book.now (S.beside store.new)) }
    ensures crash { S.is_clean store.new → (left : Stored) → S.may_leave store.new left → (was : Ledger) → IsBeside was (S.beside store.old) → IsSameBut touched.now was book.now
        → S.rows store.old ++ octets_in rows.now ≡ stored_in book.now
        → (left ≡ stored_with (S.about store.old) (S.rows store.old) (S.beside store.old)) ⊎ IsLeft (S.about store.old) book.now left }
{
    let Ok(writes) = writes_of(alloc, book, touched) else {
        return Err(AppendError::Store(StoreError::OutOfMemory));
    };
    append_all(alloc, store, place, rows, &writes)
}

/// The same, where something is stored.
fn store_where<S: RowStore>(
    alloc: Global,
    store: &mut Option<S>,
    place: u64,
    rows: &[Vec<u8>],
    touched: &Touched,
    book: &Book,
) -> Result<(), AppendError>
    requires { IfSome store.old (λ was. S.is_clean was → S.is_ready was) }
    ensures kept { OnOk result ((sum : ℕ) (left : List (Vec ℕ)) (none : Touched) → left ≡ [] → KeepsIn S.is_clean S.is_ready S.rows S.beside store.old rows.now touched.now sum book.now → KeepsIn S.is_clean S.is_ready S.rows S.beside store.new left none sum book.now) }
    ensures stored { is_some store.new ≡ is_some store.old }
    ensures crash { (sum : ℕ) → KeepsIn S.is_clean S.is_ready S.rows S.beside store.old rows.now touched.now sum book.now → IfSome store.new (λ now. S.is_clean now → (left : Stored) → S.may_leave now left
        → IfSome store.old (λ was. (left ≡ stored_with (S.about was) (S.rows was) (S.beside was)) ⊎ IsLeft (S.about was) book.now left)) }
{
    match store {
        Some(store) => store_all(alloc, store, place, rows, touched, book),
        None => Ok(()),
    }
}

impl<S: RowStore> Journal<S> {
    /// The journal of a book that is kept in memory alone.
    pub fn in_memory(alloc: Global) -> Journal<S>
        ensures kept { (ledger : Ledger) → IsKeptBy S.is_clean S.is_ready S.rows S.beside result ledger }
        ensures settled { IsSettled result }
        ensures memory { result.store ≡ None }
    {
        Journal {
            alloc,
            store: None,
            sum: Sum(0),
            waiting: Vec::new(alloc),
            touched: Touched::nothing(alloc),
        }
    }

    /// The row of the request at a moment that a plan of a book takes, and room for it. None where nothing is stored, and where the
    /// plan takes nothing. Without memory the book is kept as it was.
    pub fn row_of_take(
        &mut self,
        book: &Book,
        moment: Moment,
        request: &CcRequest,
        plan: &Plan,
    ) -> Result<Option<NewRow>, AllocError>
        ensures row { IfOk result (λ row. IsGoodFor book.now plan.now
            → after_plan book.now plan.now ≡ (if (answer_planned plan.now).fresh then with_take book.now moment request.now else book.now)
            → IsKeptBy S.is_clean S.is_ready S.rows S.beside self.old book.now → IsNext self.new book.now (after_plan book.now plan.now) row) }
        ensures kept { (ledger : Ledger) → IsKeptBy S.is_clean S.is_ready S.rows S.beside self.old ledger → IsKeptBy S.is_clean S.is_ready S.rows S.beside self.new ledger }
        ensures store { self.new.store ≡ self.old.store }
        ensures room { IfOk result (λ row. IfSome row (λ _. HasRoom self.new)) }
    {
        if self.store.is_none() {
            return Ok(None);
        }
        self.touched.touch_plan(book, plan)?;
        let Some(row) = row_of_plan(self.alloc, self.sum, moment, request, plan)? else {
            return Ok(None);
        };
        let row = spelled(self.alloc, &row)?;
        self.waiting.reserve(1)?;
        Ok(Some(row))
    }

    /// The row of a sweep of a book at a moment that ends sessions, and room for it. None where nothing is stored. Without memory the
    /// book is kept as it was.
    pub fn row_of_sweep(
        &mut self,
        book: &Book,
        moment: Moment,
    ) -> Result<Option<NewRow>, AllocError>
        ensures row { IfOk result (λ row. IsKeptBy S.is_clean S.is_ready S.rows S.beside self.old book.now → IsNext self.new book.now (with_sweep book.now moment) row) }
        ensures kept { (ledger : Ledger) → IsKeptBy S.is_clean S.is_ready S.rows S.beside self.old ledger → IsKeptBy S.is_clean S.is_ready S.rows S.beside self.new ledger }
        ensures store { self.new.store ≡ self.old.store }
        ensures room { IfOk result (λ row. IfSome row (λ _. HasRoom self.new)) }
    {
        if self.store.is_none() {
            return Ok(None);
        }
        self.touched.touch_sweep(book, moment)?;
        let place = book.history().len() as u64;
        let row = row_of_sweep(self.alloc, self.sum, place, moment)?;
        let row = spelled(self.alloc, &row)?;
        self.waiting.reserve(1)?;
        Ok(Some(row))
    }

    /// The row of a change of the terms of a book at a moment, and room for it. None where nothing is stored. Without memory the book is
    /// kept as it was.
    pub fn row_of_change(
        &mut self,
        book: &Book,
        moment: Moment,
        change: &TermsChange,
    ) -> Result<Option<NewRow>, AllocError>
        ensures row { IfOk result (λ row. IsKeptBy S.is_clean S.is_ready S.rows S.beside self.old book.now → IsNext self.new book.now (with_change book.now moment change.now) row) }
        ensures kept { (ledger : Ledger) → IsKeptBy S.is_clean S.is_ready S.rows S.beside self.old ledger → IsKeptBy S.is_clean S.is_ready S.rows S.beside self.new ledger }
        ensures store { self.new.store ≡ self.old.store }
        ensures room { IfOk result (λ row. IfSome row (λ _. HasRoom self.new)) }
    {
        if self.store.is_none() {
            return Ok(None);
        }
        self.touched.touch_terms(book, change)?;
        let place = book.history().len() as u64;
        let row = row_of_change(self.alloc, self.sum, place, moment, change)?;
        let row = spelled(self.alloc, &row)?;
        self.waiting.reserve(1)?;
        Ok(Some(row))
    }

    /// Puts the row of the next entry, if it has one, behind those that wait. It takes no memory.
    pub fn add(&mut self, row: Option<NewRow>)
        requires { IfSome row (λ _. HasRoom self.old) }
        ensures kept { (before after : Ledger) → IsKeptBy S.is_clean S.is_ready S.rows S.beside self.old before → IsNext self.old before after row → IsKeptBy S.is_clean S.is_ready S.rows S.beside self.new after }
        ensures store { self.new.store ≡ self.old.store }
    {
        if let Some(row) = row {
            let NewRow { octets, sum } = row;
            self.waiting.push_reserved(octets);
            self.sum = sum;
        }
    }

    /// Stores all rows that wait, the first of them at this place, and beside them accounts and open sessions as they stand in the book,
    /// in one commit. After `Ok` all of that is stored. After an error whether it is is not known: the book is not to be asked any more,
    /// and the store has to be opened again.
    pub fn store(&mut self, place: u64, book: &Book) -> Result<(), AppendError>
        requires { IsSoundIn S.is_clean S.is_ready self.old }
        ensures kept { OnOk result (IsKeptBy S.is_clean S.is_ready S.rows S.beside self.old book.now → IsKeptBy S.is_clean S.is_ready S.rows S.beside self.new book.now) }
        ensures settled { OnOk result (IsSettled self.new) }
        ensures stored { is_some self.new.store ≡ is_some self.old.store }
        ensures crash { IsKeptBy S.is_clean S.is_ready S.rows S.beside self.old book.now → IfSome self.new.store (λ now. S.is_clean now → (left : Stored) → S.may_leave now left
            → IfSome self.old.store (λ was. (left ≡ stored_with (S.about was) (S.rows was) (S.beside was)) ⊎ IsLeft (S.about was) book.now left)) }
    {
        store_where(
            self.alloc,
            &mut self.store,
            place,
            &self.waiting,
            &self.touched,
            book,
        )?;
        self.waiting.clear();
        self.touched.clear();
        Ok(())
    }
}
