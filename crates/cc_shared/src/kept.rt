//! A book that is open, of which everything is stored: what stands behind the lock until it is closed.

ghost use Rattle.std.specs.Prelude.{◌≡◌, ◌+◌, ◌<◌, ◌^◌, [], IfOk, count_by, is_some, length, sum, false};
ghost use Rattle.cc_book.specs.History.{IsLegal};
ghost use Rattle.cc_shared.specs.Closing.{FinishesWith};
ghost use Rattle.cc_shared.specs.History.{book_at, is_closed};
ghost use Rattle.cc_book.specs.Standing.{sessions_in};
ghost use Rattle.cc_shared.specs.Looking.{charges, found_in, last_of};
ghost use Rattle.cc_shared.specs.Sharing.{standings_of};
ghost use Rattle.book_journal.specs.Kept.{IsKeptBy, IsSettled};

use crate::charged::last_of;
use crate::checking::first_stray;
use crate::error::CloseError;
use crate::history::Beginning;
use crate::looks::{AccountCharge, Found, Standing};
use crate::open::OpenBook;
use crate::receipt::Receipt;
use crate::seat::Seat;
use crate::sharing::Sharing;
use book_journal::Journal;
use book_store::RowStore;
use cc_book::Book;
use cc_view::Subscription;
use std::alloc::{AllocError, Global};
use std::marker::Model;
use std::sync::ledger;
use std::sync::ledger::Share;

/// An open book ([`OpenBook`]) of which nothing waits to be stored: what is stored is its whole history. Contracts see its history
/// since it is shared.
pub struct KeptBook<L: Sharing, S: RowStore> {
    pub book: Book,
    pub takes: u64,
    pub counted: ledger::Book<L>,
    pub rest: Share<L>,
    pub seen: Beginning<L>,
    pub journal: Box<Journal<S>>,
}

// By hand, so that each exit of an owner is proved with one call.
impl<L: Sharing, S: RowStore + Drop> Drop for KeptBook<L, S> {
    fn drop(self) {
        let KeptBook {
            book: _,
            takes: _,
            counted: _,
            rest: _,
            seen: _,
            journal: _,
        } = self;
    }
}

impl<L: Sharing, S: RowStore> Model for KeptBook<L, S> {
    ghost use Rattle.std.specs.Prelude.{◌≡◌, List, false, is_some};
    ghost use Rattle.book_journal.specs.Kept.{IsKeptBy, IsSettled};
    ghost use Rattle.cc_shared.specs.declared.logged.Logged.{Logged as Record};
    ghost use Rattle.cc_shared.specs.History.{book_at, entries_in, is_closed};
    ghost use Rattle.cc_shared.specs.Sharing.{takes_in};

    ghost Value = { List Record };

    ghost view = { λ b. b.seen };

    ghost invariant = { λ b. (b.book ≡ book_at L.shared.opened b.seen) × (is_closed b.seen ≡ false) × (takes_in (entries_in b.seen) ≡ b.takes)
        × (b.counted.total ≡ b.takes) × (b.rest.parts ≡ 0) × (b.rest.amount ≡ 0)
        × IsKeptBy S.is_clean S.is_ready S.rows S.beside b.journal.value b.book × IsSettled b.journal.value × (is_some b.journal.value.store ≡ L.shared.stored) };
}

impl<L: Sharing, S: RowStore + Drop> KeptBook<L, S> {
    /// The book of which the sharing is named, with nothing more.
    pub fn new(
        book: Book,
        counted: ledger::Book<L>,
        rest: Share<L>,
        seen: Beginning<L>,
        journal: Box<Journal<S>>,
    ) -> Self
        requires book { book ≡ L.shared.opened }
        requires counted { counted.total ≡ 0 }
        requires rest { (rest.parts ≡ 0) × (rest.amount ≡ 0) }
        requires seen { seen ≡ [] }
        requires kept { IsKeptBy S.is_clean S.is_ready S.rows S.beside journal.value book }
        requires settled { IsSettled journal.value }
        requires stored { is_some journal.value.store ≡ L.shared.stored }
        ensures { result ≡ [] }
    {
        KeptBook {
            book,
            takes: 0,
            counted,
            rest,
            seen,
            journal,
        }
    }

    /// The book, which may be asked.
    pub fn open(self) -> OpenBook<L, S>
        ensures { result ≡ self }
    {
        let KeptBook {
            book,
            takes,
            counted,
            rest,
            seen,
            journal,
        } = self;
        OpenBook {
            book,
            takes,
            counted,
            rest,
            seen,
            journal,
        }
    }

    /// The whole history.
    pub fn history(&self) -> &Beginning<L>
        ensures log { result.now ≡ self.now }
        ensures open { is_closed self.now ≡ false }
        ensures legal { IsLegal L.shared.opened.terms (book_at L.shared.opened self.now).history }
    {
        let _entries = self.book.history().len();
        &self.seen
    }

    /// Balance and reserved amount of each account.
    pub fn snapshot(&self, alloc: Global) -> Result<Vec<(i128, i128)>, AllocError>
        ensures pairs { IfOk result (λ pairs. pairs.items ≡ standings_of L.shared.opened.terms (book_at L.shared.opened self.now).history) }
    {
        standings(alloc, &self.book)
    }

    /// What stands on the account of a Subscription-Id.
    pub fn account(&self, id: &Subscription) -> Found
        ensures { result ≡ found_in L.shared.opened.terms (book_at L.shared.opened self.now).history id.now }
    {
        found_in(&self.book, id)
    }

    /// The requests that charged that account last.
    pub fn last_charges(
        &self,
        alloc: Global,
        id: &Subscription,
    ) -> Result<Vec<AccountCharge>, AllocError>
        ensures { IfOk result (λ last. last.items ≡ last_of L.shared.opened.terms (book_at L.shared.opened self.now).history id.now) }
    {
        last_of(alloc, &self.book, id)
    }

    /// The book, where these seats have counted its takes and these receipts stand in its history.
    pub fn close(
        self,
        alloc: Global,
        seats: Vec<Seat<L>>,
        receipts: &[Receipt],
    ) -> Result<Book, CloseError>
        ensures finished { FinishesWith L.shared.opened L.parts seats.items receipts.now result }
        ensures book { IfOk result (λ book. book ≡ book_at L.shared.opened self) }
    {
        let KeptBook {
            book,
            takes,
            mut counted,
            rest,
            seen: _,
            journal: _,
        } = self;
        let _entries = book.history().len();
        match first_stray(alloc, &book, receipts) {
            Ok(None) => {}
            Ok(Some(place)) => return Err(CloseError::ReceiptNotInHistory { place, book }),
            Err(_) => return Err(CloseError::OutOfMemory { book }),
        }
        if count_of(&mut counted, rest, seats) != takes {
            return Err(CloseError::CountsDiffer { book });
        }
        Ok(book)
    }
}

/// What stands on the account of a Subscription-Id: on the first, where several have it.
fn found_in(book: &Book, id: &Subscription) -> Found
    ensures { result ≡ found_in book.now.terms book.now.history id.now }
{
    let terms = book.terms_now();
    let Some(account) = terms.accounts.find(id) else {
        return Found::NoAccount;
    };
    let (Some(balance), Some(reserved)) = (book.balance(account), book.reserved(account)) else {
        unreachable!();
    };
    let closed = terms.is_closed(account);
    Found::Account(Standing {
        balance,
        reserved,
        sessions: sessions_of(book, account),
        closed,
    })
}

/// How many sessions are open that charge an account.
fn sessions_of(book: &Book, account: usize) -> usize
    ensures { result ≡ count_by (charges account) (sessions_in book.now.terms book.now.history) }
{
    let mut count = 0;
    for place in 0..book.session_count() {
        let Some(session) = book.session_at(place) else {
            unreachable!();
        };
        if session.account == account {
            count += 1;
        }
    }
    count
}

/// Balance and reserved amount of each account.
fn standings(alloc: Global, book: &Book) -> Result<Vec<(i128, i128)>, AllocError>
    ensures { IfOk result (λ pairs. pairs.items ≡ standings_of book.now.terms book.now.history) }
{
    let mut pairs = Vec::new(alloc);
    for account in 0..book.accounts().len() {
        let (Some(balance), Some(reserved)) = (book.balance(account), book.reserved(account)) else {
            unreachable!();
        };
        pairs.push((balance, reserved))?;
    }
    Ok(pairs)
}

/// What the seats have counted. With all parts of the ledger that is its total.
fn count_of<L: Sharing>(
    counted: &mut ledger::Book<L>,
    mut all: Share<L>,
    seats: Vec<Seat<L>>,
) -> u64
    requires none { (all.parts ≡ 0) × (all.amount ≡ 0) }
    requires small { counted.old.total < 2 ^ 64 }
    ensures sum { result ≡ sum seats.items }
    ensures whole { length seats.items ≡ L.parts → result ≡ counted.old.total }
{
    let mut takes = 0;
    for seat in seats {
        let (count, share) = seat.into_parts();
        all.merge(share);
        counted.audit(&mut all);
        takes += count;
    }
    counted.audit(&mut all);
    takes
}
