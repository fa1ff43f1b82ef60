//! A book that threads share.

ghost use Rattle.std.specs.Prelude.{◌≡◌, ◌≤◌, ◌<◌, IfErr, IfOk, MatchResult, false, is_some, replicate, true};
ghost use Rattle.cc_shared.specs.Receipts.{IsEnteredAt, IsReceiptOf};
ghost use Rattle.cc_shared.specs.Sharing.{IsNoSweep, IsSnapshot, IsSweep};
ghost use Rattle.cc_shared.specs.Serving.{IsRefused, ServesAll, count_after};
ghost use Rattle.cc_shared.specs.Changing.{IsChange, IsNoChange};
ghost use Rattle.cc_shared.specs.Looking.{IsAccountLook};
ghost use Rattle.cc_shared.specs.Closing.{FinishesWith, HasCause, IsFinished, IsWhole};
ghost use Rattle.book_journal.specs.Kept.{IsKeptBy, IsSettled};

use crate::asking::{Asked, Served};
use crate::commits::Commits;
use crate::error::{ChangeError, CloseError, ServeError};
use crate::history::BlankHistory;
use crate::locked::LockedBook;
use crate::looks::{AccountLook, ClosedBook, Snapshot, Swept, TermsChanged};
use crate::receipt::Receipt;
use crate::seat::Seat;
use crate::sharing::Sharing;
use book_journal::Journal;
use book_store::RowStore;
use cc_book::{Book, BookRefusal, TermsChange};
use cc_view::{CcRequest, Subscription};
use dia_base::Moment;
use std::alloc::{AllocError, Global};
use std::sync::ledger::{Blank, Ledger};
use std::sync::{Arc, Wait};

/// A handle on a book that threads share. Any number of handles may be on one book. The book stands behind one lock,
/// which is held for one call of the book alone; once the book is closed, its history alone stands there. `S` is what the book is
/// stored in.
#[derive(Drop)]
pub struct SharedBook<L: Sharing, S: RowStore> {
    locked: Arc<LockedBook<L, S>>,
}

impl<L: Sharing, S: RowStore + Drop> SharedBook<L, S> {
    /// Shares a book that is kept in memory alone among as many seats, of which the caller asks at least one. Its history begins
    /// empty, and goes on with all that happens to the book. Without memory the book is handed back.
    pub fn share(
        alloc: Global,
        blank: Blank,
        history: BlankHistory,
        book: Book,
        seats: u64,
    ) -> Result<(Self, Vec<Seat<L>>), Book>
        requires name { blank.name ≡ L.name }
        requires parts { (blank.parts ≡ L.parts) × (blank.parts ≡ seats) }
        requires some { 0 < seats }
        requires book { book ≡ L.shared.opened }
        requires history { history ≡ L.shared.log }
        requires memory { L.shared.stored ≡ false }
        ensures seats { IfOk result (λ shared. shared.1.items ≡ replicate seats 0) }
        ensures err { IfErr result (λ returned. returned ≡ book) }
    {
        let journal = Journal::<S>::in_memory(alloc);
        SharedBook::<L, S>::share_kept(alloc, blank, history, book, journal, seats)
    }

    /// The same, of a book that a journal keeps: what happens to the book is stored before anyone is told of it.
    pub fn share_kept(
        alloc: Global,
        blank: Blank,
        history: BlankHistory,
        book: Book,
        journal: Journal<S>,
        seats: u64,
    ) -> Result<(Self, Vec<Seat<L>>), Book>
        requires name { blank.name ≡ L.name }
        requires parts { (blank.parts ≡ L.parts) × (blank.parts ≡ seats) }
        requires some { 0 < seats }
        requires book { book ≡ L.shared.opened }
        requires history { history ≡ L.shared.log }
        requires kept { IsKeptBy S.is_clean S.is_ready S.rows S.beside journal book }
        requires settled { IsSettled journal }
        requires stored { is_some journal.store ≡ L.shared.stored }
        ensures seats { IfOk result (λ shared. shared.1.items ≡ replicate seats 0) }
        ensures err { IfErr result (λ returned. returned ≡ book) }
    {
        match LockedBook::<L, S>::share(alloc, blank, history, book, journal, seats) {
            Ok((locked, seats)) => Ok((SharedBook { locked }, seats)),
            Err(book) => Err(book),
        }
    }

    /// One more handle on the same book.
    pub fn another(&self) -> Result<Self, AllocError> {
        Ok(SharedBook {
            locked: Arc::try_clone(&self.locked)?,
        })
    }

    /// Whether something that the book has done was not stored. The process is to end then.
    pub fn has_failed(&self) -> bool {
        self.locked.has_failed()
    }

    /// Whether the book is stored.
    pub fn is_stored(&self) -> bool
        ensures { result ≡ L.shared.stored }
    {
        self.locked.batching().is_stored()
    }

    /// How often something of it was stored since it is shared, each time with one sync of the disk, and how many entries that were.
    pub fn commits(&self) -> Commits {
        self.locked.commits()
    }

    /// What its open sessions have reserved, in minor units: 2^64 - 1 where it is more.
    pub fn reserved(&self) -> u64 {
        self.locked.reserved()
    }

    /// Waits until no other thread collects requests for a stored book. It does not wait where the book is in memory. What is collected
    /// from then on is to be asked in one call, [`SharedBook::serve`] or [`SharedBook::serve_all`], which ends the batch.
    pub fn begin_batch<R: Wait>(&self, rt: &R) {
        self.locked.batching().begin(rt);
    }

    /// Lets the next thread collect requests. It ends a batch of which the book is not asked: each one that was begun is to be ended
    /// once, by this or by the call that asks.
    pub fn end_batch(&self) {
        self.locked.batching().end();
    }

    /// Serves a request: one take of the book, behind the lock (RFC 8506, section 6). Its receipt stands in the one history, and
    /// is stored where the book is. A request that is not served is handed back: at a history that has reached its limit, without
    /// memory, and once the book is closed. The book is then as it was. Where what the book has done cannot be stored, it does not
    /// return ([`SharedBook::has_failed`]).
    pub fn serve<R: Wait>(
        &self,
        rt: &R,
        alloc: Global,
        seat: &mut Seat<L>,
        moment: Moment,
        request: CcRequest,
    ) -> Result<Receipt, ServeError>
        ensures receipt { IfOk result (λ receipt. IsReceiptOf L.shared receipt) }
        ensures request { MatchResult result (λ receipt. receipt.request ≡ request) (λ error. error.request ≡ request) }
        ensures refusal { IfErr result (λ error. IsRefused L.shared request error.why) }
        ensures place { IfOk result (λ receipt. receipt.fresh ≡ true → seat.old ≤ receipt.place) }
        ensures moment { IfOk result (λ receipt. receipt.fresh ≡ true → IsEnteredAt L.shared.opened moment receipt) }
        ensures count { seat.new ≡ count_after seat.old result }
    {
        self.locked.serve(rt, alloc, seat, moment, request)
    }

    /// Serves these requests, one behind the other in this order, while it holds the lock once: no other entry stands between
    /// theirs, and all are stored in one commit where the book is stored. Without memory for as many answers they are handed back,
    /// and the book and the seat are as they were. Where what the book has done cannot be stored, it does not return.
    pub fn serve_all<J: Drop, R: Wait>(
        &self,
        rt: &R,
        alloc: Global,
        seat: &mut Seat<L>,
        asked: Vec<Asked<J>>,
    ) -> Result<Vec<Served<J>>, Vec<Asked<J>>>
        ensures served { IfOk result (λ served. ServesAll L.shared seat.old asked.items served.items seat.new) }
        ensures back { IfErr result (λ back. (back ≡ asked) × (seat.new ≡ seat.old)) }
    {
        self.locked.serve_all(rt, alloc, seat, asked)
    }

    /// Ends each session whose deadline is at most the moment, as [`Book::sweep`] does, behind the lock, and stores that. Once the
    /// book is closed it ends none. It is refused for want of memory also where it was not stored: the book is closed then
    /// ([`SharedBook::has_failed`]).
    pub fn sweep<R: Wait>(&self, rt: &R, moment: Moment) -> Result<Swept, BookRefusal>
        ensures swept { IfOk result (IsSweep L.shared moment) }
        ensures refused { IfErr result (IsNoSweep L.shared moment) }
    {
        self.locked.sweep(rt, moment)
    }

    /// Changes the terms by one entry of this moment, as [`Book::change_terms`] does, behind the lock, and stores that: all that the
    /// change says, or nothing. A book that refuses it is as it was. Where the change was not stored the book is closed
    /// ([`SharedBook::has_failed`]).
    pub fn change_terms<R: Wait>(
        &self,
        rt: &R,
        alloc: Global,
        moment: Moment,
        change: TermsChange,
    ) -> Result<TermsChanged, ChangeError>
        ensures changed { IfOk result (IsChange L.shared moment change) }
        ensures refused { IfErr result (IsNoChange L.shared change) }
    {
        self.locked.change_terms(rt, alloc, moment, change)
    }

    /// Balance and reserved amount of each account, all at one moment. The empty list once the book is closed.
    pub fn snapshot<R: Wait>(&self, rt: &R, alloc: Global) -> Result<Snapshot, AllocError>
        ensures { IfOk result (IsSnapshot L.shared) }
    {
        self.locked.snapshot(rt, alloc)
    }

    /// What stands on the account of a Subscription-Id, all at one moment: balance and reserved amount, whether it is closed, and the ten
    /// requests that charged it last. It says so where no account has that Subscription-Id, and once the book is closed.
    pub fn account<R: Wait>(
        &self,
        rt: &R,
        alloc: Global,
        id: &Subscription,
    ) -> Result<AccountLook, AllocError>
        ensures { IfOk result (IsAccountLook L.shared id.now) }
    {
        self.locked.account(rt, alloc, id)
    }

    /// Closes the book and gives it back, where each of these receipts stands in its history, and these seats have
    /// counted as many takes as were made since it is shared; with all seats they have. Whatever the answer, the book
    /// is closed from then on.
    pub fn finish<R: Wait>(
        self,
        rt: &R,
        alloc: Global,
        seats: Vec<Seat<L>>,
        receipts: &[Receipt],
    ) -> Result<Book, CloseError>
        ensures { FinishesWith L.shared.opened L.parts seats.items receipts.now result }
    {
        match self.close(rt, alloc, seats, receipts) {
            Ok(closed) => Ok(closed.book),
            Err(error) => Err(error),
        }
    }

    /// The same, with all of its history.
    pub fn close<R: Wait>(
        self,
        rt: &R,
        alloc: Global,
        seats: Vec<Seat<L>>,
        receipts: &[Receipt],
    ) -> Result<ClosedBook, CloseError>
        ensures finished { MatchResult result (λ closed. IsFinished L.shared.opened seats.items receipts.now closed.book) (HasCause L.shared.opened L.parts seats.items receipts.now) }
        ensures whole { IfOk result (λ closed. IsWhole L.shared closed.book closed.seen.book closed.seen.log) }
    {
        self.locked.close(rt, alloc, seats, receipts)
    }
}
