//! A book behind its lock.

ghost use Rattle.std.specs.Prelude.{◌≡◌, ◌-◌, ◌%◌, ◌^◌, ◌≤◌, ◌<◌, [], ◌∷◌, ◌++◌, Err, IfErr, IfOk, IfSome, MatchResult, is_some, length, map, min, replicate, true, vec_capacity};
ghost use Rattle.cc_shared.specs.Receipts.{IsEnteredAt, IsReceiptOf};
ghost use Rattle.cc_shared.specs.Sharing.{IsNoSweep, IsSnapshot, IsSweep};
ghost use Rattle.cc_shared.specs.Serving.{IsRefused, ServesAll, count_after, refused_closed};
ghost use Rattle.cc_shared.specs.Changing.{IsChange, IsNoChange};
ghost use Rattle.cc_shared.specs.Looking.{IsAccountLook};
ghost use Rattle.cc_shared.specs.Closing.{HasCause, IsFinished, IsWhole};
ghost use Rattle.cc_shared.specs.History.{is_closed};
ghost use Rattle.cc_shared.specs.declared.logged.Logged.TheVariants.{Closed};
ghost use Rattle.cc_book.specs.Standing.{held_by_all, sessions_in};
ghost use Rattle.cc_book.specs.declared.book.BookRefusal.TheVariants.{OutOfMemory};
ghost use Rattle.book_journal.specs.Kept.{IsKeptBy, IsSettled};

use crate::asking::{Asked, Served};
use crate::batching::Batching;
use crate::commits::{CommitCounts, Commits};
use crate::error::{ChangeError, CloseError, ServeError, ServeRefusal};
use crate::history::{Beginning, BlankHistory, ClosedHistory, Length, SeenHistory};
use crate::kept::KeptBook;
use crate::looks::{AccountLook, ClosedBook, Found, Snapshot, Swept, TermsChanged};
use crate::open::OpenBook;
use crate::receipt::Receipt;
use crate::seat::Seat;
use crate::sharing::Sharing;
use crate::untold::Untold;
use book_journal::Journal;
use book_store::RowStore;
use cc_book::{Book, BookRefusal, TermsChange};
use cc_view::{CcRequest, Subscription};
use dia_base::Moment;
use std::alloc::{AllocError, Global};
use std::mem::replace;
use std::sync::atomic::{AtomicU64, Ordering};
use std::sync::ledger::{Blank, Ledger};
use std::sync::{Arc, Mutex, Wait};

/// What stands behind the lock.
#[derive(Drop)]
enum Behind<L: Sharing, S: RowStore> {
    /// No book yet.
    Nothing,
    Open(KeptBook<L, S>),
    /// No book any more.
    Closed(ClosedHistory<L>),
    /// No book any more, since what it has done was not stored.
    Failed(ClosedHistory<L>),
}

/// What handles on one book share: the length of its history, and the book behind its lock. `S` is what the book is stored in.
#[derive(Drop)]
pub struct LockedBook<L: Sharing, S: RowStore> {
    length: Length<L>,
    lock: Mutex<Behind<L, S>>,
    /// 1 once something was not stored, and 0 before.
    failed: AtomicU64,
    batching: Batching,
    commits: CommitCounts,
    /// What open sessions have reserved. No clause knows anything of it.
    reserved: AtomicU64,
    ghost stored_is: { batching.is_stored ≡ L.shared.stored },
}

/// What the open sessions of a book have reserved, in minor units: 2^64 - 1 where it is more.
fn reserved_in(book: &Book) -> u64
    ensures { result ≡ min (held_by_all (sessions_in book.now.terms book.now.history) % 2 ^ 128) (2 ^ 64 - 1) }
{
    u64::try_from(book.reserved_by_all()).unwrap_or(u64::MAX)
}

/// Refuses these requests, since the book is closed.
fn refuse_each<J: Drop>(asked: Vec<Asked<J>>, served: Vec<Served<J>>) -> Vec<Served<J>>
    requires none { served.items ≡ [] }
    requires room { length asked.items ≤ vec_capacity served }
    ensures { result.items ≡ map refused_closed asked.items }
{
    let mut served = served;
    for next in asked {
        let Asked {
            job,
            moment,
            request,
        } = next;
        let why = ServeRefusal::Closed;
        let result = Err(ServeError { why, request });
        served.push_reserved(Served {
            job,
            moment,
            result,
        });
    }
    served
}

/// Takes the open book, which leaves nothing there. None where no open book is, and what is there stays.
fn take_open<L: Sharing, S: RowStore + Drop>(behind: &mut Behind<L, S>) -> Option<OpenBook<L, S>> {
    match replace(behind, Behind::Nothing) {
        Behind::Open(kept) => Some(kept.open()),
        other => {
            *behind = other;
            None
        }
    }
}

impl<L: Sharing, S: RowStore> Behind<L, S> {
    /// Refuses this request, since the book is closed. None where something was not stored.
    fn refuse(&self, request: CcRequest) -> Option<Result<Receipt, ServeError>>
        ensures { IfSome result (λ served. served ≡ Err (record { why = ServeRefusal.Closed; request = request })) }
    {
        match self {
            Behind::Failed(_) => None,
            Behind::Nothing | Behind::Open(_) | Behind::Closed(_) => {
                let why = ServeRefusal::Closed;
                Some(Err(ServeError { why, request }))
            }
        }
    }

    /// Refuses these requests, since the book is closed. None where something was not stored.
    fn refuse_all<J: Drop>(
        &self,
        asked: Vec<Asked<J>>,
        served: Vec<Served<J>>,
    ) -> Option<Vec<Served<J>>>
        requires none { served.items ≡ [] }
        requires room { length asked.items ≤ vec_capacity served }
        ensures { IfSome result (λ served. served.items ≡ map refused_closed asked.items) }
    {
        match self {
            Behind::Failed(_) => None,
            Behind::Nothing | Behind::Open(_) | Behind::Closed(_) => {
                Some(refuse_each(asked, served))
            }
        }
    }

    /// A sweep of a book that is closed, which ends nobody.
    fn sweep(&self) -> Result<Swept, BookRefusal>
        ensures swept { IfOk result (λ swept. (swept.seen.book ≡ L.shared.log) × (is_closed swept.seen.log ≡ true) × (swept.ended ≡ 0)) }
        ensures memory { IfErr result (λ refusal. refusal ≡ OutOfMemory) }
    {
        match self {
            Behind::Closed(closed) | Behind::Failed(closed) => {
                let seen = closed.history().seen();
                Ok(Swept { ended: 0, seen })
            }
            Behind::Nothing | Behind::Open(_) => Err(BookRefusal::OutOfMemory),
        }
    }
}

impl<L: Sharing, S: RowStore + Drop> LockedBook<L, S> {
    /// Shares a book that a journal keeps among as many seats, of which the caller asks at least one.
    pub fn share(
        alloc: Global,
        blank: Blank,
        history: BlankHistory,
        book: Book,
        journal: Journal<S>,
        seats: u64,
    ) -> Result<(Arc<LockedBook<L, S>>, Vec<Seat<L>>), Book>
        requires name { blank.name ≡ L.name }
        requires parts { (blank.parts ≡ L.parts) × (blank.parts ≡ seats) }
        requires some { 0 < seats }
        requires book { book ≡ L.shared.opened }
        requires history { history ≡ L.shared.log }
        requires kept { IsKeptBy S.is_clean S.is_ready S.rows S.beside journal book }
        requires settled { IsSettled journal }
        requires stored { is_some journal.store ≡ L.shared.stored }
        ensures seats { IfOk result (λ shared. shared.1.items ≡ replicate seats 0) }
        ensures err { IfErr result (λ returned. returned ≡ book) }
    {
        let (length, seen) = history.named::<L>();
        let batching = Batching::new(journal.store.is_some());
        let reserved = AtomicU64::new(reserved_in(&book));
        let lock = Mutex::new(Behind::Nothing);
        let Ok(journal) = Box::new(alloc, journal) else {
            return Err(book);
        };
        let Ok(mut places) = Vec::with_capacity(alloc, seats as usize) else {
            return Err(book);
        };
        let Ok(mut inside) = Arc::new(
            alloc,
            LockedBook {
                length,
                lock,
                failed: AtomicU64::new(0),
                batching,
                commits: CommitCounts::none(),
                reserved,
            },
        ) else {
            return Err(book);
        };
        let Some(shared) = Arc::get_mut(&mut inside) else {
            return Err(book);
        };
        let (counted, mut rest) = blank.open::<L>();
        for _made in 0..seats {
            places.push_reserved(Seat::new(rest.split_off(1, 0)));
        }
        *shared.lock.get_mut() = Behind::Open(KeptBook::new(book, counted, rest, seen, journal));
        Ok((inside, places))
    }

    /// Whether something that the book has done was not stored. The process is to end then.
    pub fn has_failed(&self) -> bool {
        self.failed.load(Ordering::SeqCst) != 0
    }

    /// Whether the book is stored, and by whom requests for it are collected.
    pub fn batching(&self) -> &Batching
        ensures { result.now.is_stored ≡ L.shared.stored }
    {
        &self.batching
    }

    /// How often something was stored since the book is shared, and how many entries that were.
    pub fn commits(&self) -> Commits {
        self.commits.so_far()
    }

    /// What open sessions have reserved, in minor units: 2^64 - 1 where it is more.
    pub fn reserved(&self) -> u64 {
        self.reserved.load(Ordering::SeqCst)
    }

    /// Stores what an open book has done, in one commit; it stands behind the lock then, and what it has answered is told. None
    /// where it was not stored: the book is closed then.
    fn settle<T: Drop>(
        &self,
        book: OpenBook<L, S>,
        untold: Untold<L, T>,
        behind: &mut Behind<L, S>,
    ) -> Option<T>
        requires { book ≡ untold.behind }
        ensures { IfSome result (λ told. told ≡ untold.told) }
    {
        let waiting = book.waiting();
        let reserved = reserved_in(&book.book);
        match book.settle() {
            Ok(kept) => {
                self.commits.add(waiting);
                self.reserved.store(reserved, Ordering::SeqCst);
                let told = untold.tell(&kept);
                *behind = Behind::Open(kept);
                Some(told)
            }
            Err(seen) => {
                self.fail(seen, behind);
                None
            }
        }
    }

    /// The book is gone, with this history: from now on it is closed, and the process is to end.
    fn fail(&self, seen: Beginning<L>, behind: &mut Behind<L, S>) {
        if let Ok(closed) = seen.ended(&self.length) {
            *behind = Behind::Failed(closed);
        }
        self.failed.store(1, Ordering::SeqCst);
    }

    /// Serves a request, and stores what the book has done. None where it was not stored. The batch ends as soon as the lock is
    /// had, so that the next one is collected while this one is stored.
    fn serve_stored<R: Wait>(
        &self,
        rt: &R,
        alloc: Global,
        seat: &mut Seat<L>,
        moment: Moment,
        request: CcRequest,
    ) -> Option<Result<Receipt, ServeError>>
        ensures receipt { IfSome result (λ served. IfOk served (λ receipt. IsReceiptOf L.shared receipt)) }
        ensures request { IfSome result (λ served. MatchResult served (λ receipt. receipt.request ≡ request) (λ error. error.request ≡ request)) }
        ensures refusal { IfSome result (λ served. IfErr served (λ error. IsRefused L.shared request error.why)) }
        ensures place { IfSome result (λ served. IfOk served (λ receipt. receipt.fresh ≡ true → seat.old ≤ receipt.place)) }
        ensures moment { IfSome result (λ served. IfOk served (λ receipt. receipt.fresh ≡ true → IsEnteredAt L.shared.opened moment receipt)) }
        ensures count { IfSome result (λ served. seat.new ≡ count_after seat.old served) }
    {
        let mut guard = self.lock.lock(rt);
        self.batching.end();
        let Some(mut open) = take_open(&mut guard) else {
            return guard.refuse(request);
        };
        let untold = open.ask(alloc, &self.length, seat, moment, request);
        self.settle(open, untold, &mut guard)
    }

    /// Serves a request: one take of the book, behind the lock (RFC 8506, section 6). Its receipt stands in the one history, and
    /// is stored where the book is. A request that is not served is handed back: at a history that has reached its limit, without
    /// memory, and once the book is closed. The book is then as it was. Where what the book has done cannot be stored, it does not
    /// return ([`LockedBook::has_failed`]).
    pub fn serve<R: Wait>(
        &self,
        rt: &R,
        alloc: Global,
        seat: &mut Seat<L>,
        moment: Moment,
        request: CcRequest,
    ) -> Result<Receipt, ServeError>
        ensures receipt { IfOk result (λ receipt. IsReceiptOf L.shared receipt) }
        ensures request { MatchResult result (λ receipt. receipt.request ≡ request) (λ error. error.request ≡ request) }
        ensures refusal { IfErr result (λ error. IsRefused L.shared request error.why) }
        ensures place { IfOk result (λ receipt. receipt.fresh ≡ true → seat.old ≤ receipt.place) }
        ensures moment { IfOk result (λ receipt. receipt.fresh ≡ true → IsEnteredAt L.shared.opened moment receipt) }
        ensures count { seat.new ≡ count_after seat.old result }
    {
        if let Some(served) = self.serve_stored(rt, alloc, seat, moment, request) {
            return served;
        }
        for _ in rt.forever() {
            self.failed.park(rt, 1);
        }
        unreachable!()
    }

    /// Serves these requests, and stores what the book has done. None where it was not stored. The batch ends as soon as the lock
    /// is had, so that the next one is collected while this one is stored.
    fn serve_all_stored<J: Drop, R: Wait>(
        &self,
        rt: &R,
        alloc: Global,
        seat: &mut Seat<L>,
        asked: Vec<Asked<J>>,
        served: Vec<Served<J>>,
    ) -> Option<Vec<Served<J>>>
        requires none { served.items ≡ [] }
        requires room { length asked.items ≤ vec_capacity served }
        ensures { IfSome result (λ served. ServesAll L.shared seat.old asked.items served.items seat.new) }
    {
        let mut guard = self.lock.lock(rt);
        self.batching.end();
        let Some(mut open) = take_open(&mut guard) else {
            return guard.refuse_all(asked, served);
        };
        let answers = open.ask_all(alloc, &self.length, seat, asked, served);
        self.settle(open, answers, &mut guard)
    }

    /// Serves these requests, one behind the other in this order, while it holds the lock once: no other entry stands between
    /// theirs, and all are stored in one commit where the book is stored. Without memory for as many answers they are handed back,
    /// and the book and the seat are as they were. Where what the book has done cannot be stored, it does not return.
    pub fn serve_all<J: Drop, R: Wait>(
        &self,
        rt: &R,
        alloc: Global,
        seat: &mut Seat<L>,
        asked: Vec<Asked<J>>,
    ) -> Result<Vec<Served<J>>, Vec<Asked<J>>>
        ensures served { IfOk result (λ served. ServesAll L.shared seat.old asked.items served.items seat.new) }
        ensures back { IfErr result (λ back. (back ≡ asked) × (seat.new ≡ seat.old)) }
    {
        let Ok(served) = Vec::with_capacity(alloc, asked.len()) else {
            self.batching.end();
            return Err(asked);
        };
        if let Some(served) = self.serve_all_stored(rt, alloc, seat, asked, served) {
            return Ok(served);
        }
        for _ in rt.forever() {
            self.failed.park(rt, 1);
        }
        unreachable!()
    }

    /// Ends each session whose deadline is at most the moment, as [`Book::sweep`] does, behind the lock, and stores that. Once the
    /// book is closed it ends none. It is refused for want of memory also where it was not stored: the book is closed then
    /// ([`LockedBook::has_failed`]).
    pub fn sweep<R: Wait>(&self, rt: &R, moment: Moment) -> Result<Swept, BookRefusal>
        ensures swept { IfOk result (IsSweep L.shared moment) }
        ensures refused { IfErr result (IsNoSweep L.shared moment) }
    {
        let mut guard = self.lock.lock(rt);
        let Some(mut open) = take_open(&mut guard) else {
            return guard.sweep();
        };
        let untold = open.end_due(&self.length, moment);
        match self.settle(open, untold, &mut guard) {
            Some(swept) => swept,
            None => Err(BookRefusal::OutOfMemory),
        }
    }

    /// Changes the terms by one entry of this moment, behind the lock, and stores that. A book that refuses the change is as it was. Where
    /// the change was not stored the book is closed ([`LockedBook::has_failed`]).
    pub fn change_terms<R: Wait>(
        &self,
        rt: &R,
        alloc: Global,
        moment: Moment,
        change: TermsChange,
    ) -> Result<TermsChanged, ChangeError>
        ensures changed { IfOk result (IsChange L.shared moment change) }
        ensures refused { IfErr result (IsNoChange L.shared change) }
    {
        let mut guard = self.lock.lock(rt);
        let Some(open) = take_open(&mut guard) else {
            return Err(ChangeError::Closed);
        };
        match open.change(alloc, &self.length, moment, change) {
            Ok((open, untold)) => match self.settle(open, untold, &mut guard) {
                Some(Ok(changed)) => Ok(changed),
                Some(Err(refusal)) => Err(ChangeError::Refused(refusal)),
                None => Err(ChangeError::NotStored),
            },
            Err(seen) => {
                self.fail(seen, &mut guard);
                Err(ChangeError::NotStored)
            }
        }
    }

    /// Balance and reserved amount of each account, all at one moment. The empty list once the book is closed.
    pub fn snapshot<R: Wait>(&self, rt: &R, alloc: Global) -> Result<Snapshot, AllocError>
        ensures { IfOk result (IsSnapshot L.shared) }
    {
        let guard = self.lock.lock(rt);
        match &*guard {
            Behind::Open(open) => {
                let standings = open.snapshot(alloc)?;
                let seen = open.history().seen();
                Ok(Snapshot { standings, seen })
            }
            Behind::Closed(closed) | Behind::Failed(closed) => {
                let standings = Vec::new(alloc);
                let seen = closed.history().seen();
                Ok(Snapshot { standings, seen })
            }
            Behind::Nothing => Err(AllocError),
        }
    }

    /// What stands on the account of a Subscription-Id, and the requests that charged it last, at one moment. Once the book is closed
    /// it says so.
    pub fn account<R: Wait>(
        &self,
        rt: &R,
        alloc: Global,
        id: &Subscription,
    ) -> Result<AccountLook, AllocError>
        ensures { IfOk result (IsAccountLook L.shared id.now) }
    {
        let guard = self.lock.lock(rt);
        match &*guard {
            Behind::Open(open) => {
                let found = open.account(id);
                let last = open.last_charges(alloc, id)?;
                let seen = open.history().seen();
                Ok(AccountLook { found, last, seen })
            }
            Behind::Closed(closed) | Behind::Failed(closed) => {
                let found = Found::Closed;
                let last = Vec::new(alloc);
                let seen = closed.history().seen();
                Ok(AccountLook { found, last, seen })
            }
            Behind::Nothing => Err(AllocError),
        }
    }

    /// Closes the book and gives it back with all of its history, as `SharedBook::close` does.
    pub fn close<R: Wait>(
        &self,
        rt: &R,
        alloc: Global,
        seats: Vec<Seat<L>>,
        receipts: &[Receipt],
    ) -> Result<ClosedBook, CloseError>
        ensures finished { MatchResult result (λ closed. IsFinished L.shared.opened seats.items receipts.now closed.book) (HasCause L.shared.opened L.parts seats.items receipts.now) }
        ensures whole { IfOk result (λ closed. IsWhole L.shared closed.book closed.seen.book closed.seen.log) }
    {
        let Some((open, seen)) = self.end(rt) else {
            return Err(CloseError::Closed);
        };
        match open.close(alloc, seats, receipts) {
            Ok(book) => Ok(ClosedBook { book, seen }),
            Err(error) => Err(error),
        }
    }

    /// The open book, and its history, which has ended behind it. None if there is none.
    fn end<R: Wait>(&self, rt: &R) -> Option<(KeptBook<L, S>, SeenHistory)>
        ensures { IfSome result (λ ended. (ended.1.book ≡ L.shared.log) × (ended.1.log ≡ ended.0 ++ Closed ∷ [])) }
    {
        let mut guard = self.lock.lock(rt);
        match replace(&mut *guard, Behind::Nothing) {
            Behind::Open(open) => {
                let Ok(closed) = open.history().ended(&self.length) else {
                    *guard = Behind::Open(open);
                    return None;
                };
                let seen = closed.history().seen();
                *guard = Behind::Closed(closed);
                Some((open, seen))
            }
            other => {
                *guard = other;
                None
            }
        }
    }
}
