//! A book that is open, and does what it is asked: what it does waits to be stored.

ghost use Rattle.std.specs.Prelude.{◌≡◌, ◌+◌, ◌≤◌, ◌<◌, ◌^◌, ◌++◌, ◌∷◌, [], Err, IfErr, IfOk, Ok, length, sum, vec_capacity, vec_len, true, false, if◌then◌else◌};
ghost use Rattle.cc_book.specs.declared.entry.Entry.TheVariants.{ChangeTerms, Take};
ghost use Rattle.cc_book.specs.Changing.{ChangesWith, change_answer, with_change};
ghost use Rattle.cc_book.specs.History.{IsLegal};
ghost use Rattle.cc_book.specs.declared.book.BookRefusal.TheVariants.{OutOfMemory};
ghost use Rattle.cc_book.specs.Planning.{IsGoodFor, after_plan, answer_planned};
ghost use Rattle.cc_book.specs.Taking.{AnswersWith, SweepsWith, answer_of, is_fresh, sweep_answer, with_take};
ghost use Rattle.cc_shared.specs.declared.logged.Logged.TheVariants.{Entered};
ghost use Rattle.cc_shared.specs.Serving.{ServesEach, ServesOne, count_after, why_of};
ghost use Rattle.cc_shared.specs.Sharing.{IsNoSweep, IsSweep, log_after_sweep};
ghost use Rattle.cc_shared.specs.Changing.{IsChange, IsUnchanged};
ghost use Rattle.cc_shared.specs.Closing.{FinishesWith};
ghost use Rattle.cc_shared.specs.History.{book_at, is_closed};
ghost use Rattle.book_journal.specs.Kept.{IsKeptBy};

use crate::asking::{Asked, Served};
use crate::error::{ServeError, ServeRefusal};
use crate::history::{Beginning, Length};
use crate::kept::KeptBook;
use crate::looks::{Swept, TermsChanged};
use crate::receipt::Receipt;
use crate::seat::Seat;
use crate::sharing::Sharing;
use crate::untold::Untold;
use book_journal::Journal;
use book_store::RowStore;
use cc_book::{Answered, Book, BookRefusal, ChangeRefusal, Plan, TermsChange};
use cc_view::CcRequest;
use dia_base::Moment;
use std::alloc::Global;
use std::marker::Model;
use std::sync::ledger;
use std::sync::ledger::Share;

/// A book that is shared and not closed. Contracts see its history since it is shared; the book is the replay of it, and as many
/// takes stand there as the seats have counted. What is stored of it, and what waits to be stored, is the book's whole history.
#[derive(Drop)]
pub struct OpenBook<L: Sharing, S: RowStore> {
    pub book: Book,
    pub takes: u64,
    pub counted: ledger::Book<L>,
    /// No part of the ledger: what the seats hand back is added to it.
    pub rest: Share<L>,
    /// The whole history.
    pub seen: Beginning<L>,
    /// In memory of its own, so that who takes the book from behind the lock moves a pointer.
    pub journal: Box<Journal<S>>,
}

impl<L: Sharing, S: RowStore> Model for OpenBook<L, S> {
    ghost use Rattle.std.specs.Prelude.{◌≡◌, List, false, is_some};
    ghost use Rattle.book_journal.specs.Kept.{IsKeptBy};
    ghost use Rattle.cc_shared.specs.declared.logged.Logged.{Logged as Record};
    ghost use Rattle.cc_shared.specs.History.{book_at, entries_in, is_closed};
    ghost use Rattle.cc_shared.specs.Sharing.{takes_in};

    ghost Value = { List Record };

    ghost view = { λ b. b.seen };

    ghost invariant = { λ b. (b.book ≡ book_at L.shared.opened b.seen) × (is_closed b.seen ≡ false) × (takes_in (entries_in b.seen) ≡ b.takes)
        × (b.counted.total ≡ b.takes) × (b.rest.parts ≡ 0) × (b.rest.amount ≡ 0)
        × IsKeptBy S.is_clean S.is_ready S.rows S.beside b.journal.value b.book × (is_some b.journal.value.store ≡ L.shared.stored) };
}

impl<L: Sharing, S: RowStore + Drop> OpenBook<L, S> {
    /// The whole history.
    pub fn history(&self) -> &Beginning<L>
        ensures log { result.now ≡ self.now }
        ensures open { is_closed self.now ≡ false }
        ensures legal { IsLegal L.shared.opened.terms (book_at L.shared.opened self.now).history }
    {
        let _entries = self.book.history().len();
        &self.seen
    }

    /// One take, which the seat counts if the request was appended.
    fn take(
        &mut self,
        alloc: Global,
        word: &Length<L>,
        seat: &mut Seat<L>,
        moment: Moment,
        request: &CcRequest,
    ) -> Result<Answered, BookRefusal>
        ensures answer { AnswersWith (answer_of (book_at L.shared.opened self.old) request.now) result }
        ensures after { self.new ≡ (if is_fresh result then self.old ++ Entered (Take moment request.now) ∷ [] else self.old) }
        ensures count { seat.new ≡ (if is_fresh result then seat.old + 1 else seat.old) }
        ensures place { seat.old ≤ length (book_at L.shared.opened self.old).history }
        ensures legal { IsLegal L.shared.opened.terms (book_at L.shared.opened self.old).history }
    {
        seat.audit(&mut self.counted);
        let _entries = self.book.history().len();
        let plan = self.book.plan(alloc, moment, request)?;
        if !plan.answered().fresh {
            return Ok(plan.into_answered());
        }
        self.enter(word, seat, moment, request, plan)
    }

    /// Serves a request: it is taken, and its receipt is made behind that.
    fn serve(
        &mut self,
        alloc: Global,
        word: &Length<L>,
        seat: &mut Seat<L>,
        moment: Moment,
        request: CcRequest,
    ) -> Result<Receipt, ServeError>
        ensures served { ServesOne L.shared seat.old moment request self.old result self.new }
        ensures count { seat.new ≡ count_after seat.old result }
    {
        match self.take(alloc, word, seat, moment, &request) {
            Ok(answered) => Ok(Receipt {
                request,
                reply: answered.reply,
                place: answered.place,
                fresh: answered.fresh,
                seen: self.history().seen(),
            }),
            Err(refusal) => Err(ServeError {
                why: why_of(refusal),
                request,
            }),
        }
    }

    /// Serves these requests, one behind the other.
    fn serve_each<J: Drop>(
        &mut self,
        alloc: Global,
        word: &Length<L>,
        seat: &mut Seat<L>,
        asked: Vec<Asked<J>>,
        served: Vec<Served<J>>,
    ) -> Vec<Served<J>>
        requires none { served.items ≡ [] }
        requires room { length asked.items ≤ vec_capacity served }
        ensures { ServesEach L.shared seat.old self.old asked.items result.items self.new seat.new }
    {
        let mut served = served;
        for next in asked {
            let Asked {
                job,
                moment,
                request,
            } = next;
            let result = self.serve(alloc, word, seat, moment, request);
            served.push_reserved(Served {
                job,
                moment,
                result,
            });
        }
        served
    }

    /// Does what was planned for a request that is new.
    fn enter(
        &mut self,
        word: &Length<L>,
        seat: &mut Seat<L>,
        moment: Moment,
        request: &CcRequest,
        plan: Plan,
    ) -> Result<Answered, BookRefusal>
        requires good { IsGoodFor (book_at L.shared.opened self.old) plan }
        requires fresh { (answer_planned plan).fresh ≡ true }
        requires after { after_plan (book_at L.shared.opened self.old) plan ≡ with_take (book_at L.shared.opened self.old) moment request.now }
        requires count { seat.old ≤ length self.old }
        ensures ok { IfOk result (λ answered. answered ≡ answer_planned plan) }
        ensures err { IfErr result (λ refusal. refusal ≡ OutOfMemory) }
        ensures after { self.new ≡ (if is_fresh result then self.old ++ Entered (Take moment request.now) ∷ [] else self.old) }
        ensures count { seat.new ≡ (if is_fresh result then seat.old + 1 else seat.old) }
    {
        let journal = &mut *self.journal;
        let Ok(row) = journal.row_of_take(&self.book, moment, request, &plan) else {
            return Err(BookRefusal::OutOfMemory);
        };
        let mut seen = self.seen.again();
        if !seen.add_take(word, moment, request) {
            return Err(BookRefusal::OutOfMemory);
        }
        let answered = self.book.commit(plan);
        journal.add(row);
        seat.add_one(&mut self.counted);
        self.takes += 1;
        self.seen = seen;
        Ok(answered)
    }

    /// One look at the clock.
    fn sweep(&mut self, word: &Length<L>, moment: Moment) -> Result<u64, BookRefusal>
        ensures answer { SweepsWith (sweep_answer (book_at L.shared.opened self.old) moment) result }
        ensures after { self.new ≡ log_after_sweep self.old moment result }
        ensures legal { IsLegal L.shared.opened.terms (book_at L.shared.opened self.old).history }
        ensures open { (is_closed self.old ≡ false) × (is_closed self.new ≡ false) }
    {
        let _entries = self.book.history().len();
        let ended = self.book.quote_sweep(moment)?;
        if ended == 0 {
            return Ok(0);
        }
        let journal = &mut *self.journal;
        let Ok(row) = journal.row_of_sweep(&self.book, moment) else {
            return Err(BookRefusal::OutOfMemory);
        };
        let mut seen = self.seen.again();
        if !seen.add_sweep(word, moment) {
            return Err(BookRefusal::OutOfMemory);
        }
        let swept = self.book.sweep(moment)?;
        journal.add(row);
        self.seen = seen;
        Ok(swept)
    }

    /// Serves a request. What it comes to is told once the book is stored.
    pub fn ask(
        &mut self,
        alloc: Global,
        word: &Length<L>,
        seat: &mut Seat<L>,
        moment: Moment,
        request: CcRequest,
    ) -> Untold<L, Result<Receipt, ServeError>>
        ensures served { ServesOne L.shared seat.old moment request self.old result.told self.new }
        ensures count { seat.new ≡ count_after seat.old result.told }
        ensures behind { result.behind ≡ self.new }
    {
        let served = self.serve(alloc, word, seat, moment, request);
        Untold::new(served, self.seen.again())
    }

    /// Serves these requests, one behind the other. What they come to is told once the book is stored.
    pub fn ask_all<J: Drop>(
        &mut self,
        alloc: Global,
        word: &Length<L>,
        seat: &mut Seat<L>,
        asked: Vec<Asked<J>>,
        served: Vec<Served<J>>,
    ) -> Untold<L, Vec<Served<J>>>
        requires none { served.items ≡ [] }
        requires room { length asked.items ≤ vec_capacity served }
        ensures served { ServesEach L.shared seat.old self.old asked.items result.told.items self.new seat.new }
        ensures behind { result.behind ≡ self.new }
    {
        let served = self.serve_each(alloc, word, seat, asked, served);
        Untold::new(served, self.seen.again())
    }

    /// Ends each session whose deadline is at most the moment. How many it has ended is told once the book is stored.
    pub fn end_due(
        &mut self,
        word: &Length<L>,
        moment: Moment,
    ) -> Untold<L, Result<Swept, BookRefusal>>
        ensures swept { IfOk result.told (IsSweep L.shared moment) }
        ensures refused { IfErr result.told (IsNoSweep L.shared moment) }
        ensures behind { result.behind ≡ self.new }
    {
        let swept = match self.sweep(word, moment) {
            Ok(ended) => {
                let seen = self.history().seen();
                Ok(Swept { ended, seen })
            }
            Err(refusal) => Err(refusal),
        };
        Untold::new(swept, self.seen.again())
    }

    /// Changes the terms by one entry of this moment, or refuses; that is told once the book is stored. Where the history is longer than
    /// what was seen of it, as it never is for who has the lock, the book is gone, and its history is handed back.
    pub fn change(
        self,
        alloc: Global,
        word: &Length<L>,
        moment: Moment,
        change: TermsChange,
    ) -> Result<(Self, Untold<L, Result<TermsChanged, ChangeRefusal>>), Beginning<L>>
        ensures changed { IfOk result (λ made. IfOk made.1.told (IsChange L.shared moment change)) }
        ensures refused { IfOk result (λ made. IfErr made.1.told (IsUnchanged L.shared change)) }
        ensures behind { IfOk result (λ made. made.1.behind ≡ made.0) }
        ensures seen { IfErr result (λ seen. seen ≡ self) }
    {
        let mut open = self;
        let before = open.history().again();
        match change_kept(alloc, &mut *open.journal, &mut open.book, moment, change) {
            Ok((place, entered)) => {
                let mut seen = before.again();
                if !seen.add_change(word, moment, &entered) {
                    return Err(before);
                }
                let told = TermsChanged {
                    place,
                    seen: seen.seen(),
                };
                let behind = seen.again();
                open.seen = seen;
                Ok((open, Untold::new(Ok(told), behind)))
            }
            Err(refusal) => Ok((open, Untold::new(Err(refusal), before))),
        }
    }

    /// How many entries wait to be stored.
    pub fn waiting(&self) -> u64 {
        self.journal.waiting.len() as u64
    }

    /// Stores all that waits, in one commit. What is stored is the whole history then. Without that whether it is stored is not
    /// known: the book is gone, and its history is handed back.
    pub fn settle(self) -> Result<KeptBook<L, S>, Beginning<L>>
        ensures kept { IfOk result (λ kept. kept ≡ self) }
        ensures seen { IfErr result (λ seen. seen ≡ self) }
    {
        let OpenBook {
            book,
            takes,
            counted,
            rest,
            seen,
            mut journal,
        } = self;
        let waiting = journal.waiting.len() as u64;
        let place = (book.history().len() as u64).saturating_sub(waiting);
        match journal.store(place, &book) {
            Ok(()) => Ok(KeptBook {
                book,
                takes,
                counted,
                rest,
                seen,
                journal,
            }),
            Err(_) => Err(seen),
        }
    }
}

/// A book changes its terms by an entry of this moment, whose row waits to be stored. The place of the entry, and the change again. A
/// book that refuses is as it was, and so is what is stored of it.
fn change_kept<S: RowStore>(
    alloc: Global,
    journal: &mut Journal<S>,
    book: &mut Book,
    moment: Moment,
    change: TermsChange,
) -> Result<(u64, TermsChange), ChangeRefusal>
    requires kept { IsKeptBy S.is_clean S.is_ready S.rows S.beside journal.old book.old }
    ensures made { IfOk result (λ made. (made.1 ≡ change) × (change_answer book.old change ≡ Ok made.0) × (book.new ≡ with_change book.old moment change)) }
    ensures refused { IfErr result (λ refusal. ChangesWith (change_answer book.old change) (Err refusal) × (book.new ≡ book.old)) }
    ensures kept { IsKeptBy S.is_clean S.is_ready S.rows S.beside journal.new book.new }
    ensures store { journal.new.store ≡ journal.old.store }
{
    let place = book.quote_change(&change)?;
    let again = change.copy(alloc)?;
    let row = journal.row_of_change(book, moment, &change)?;
    book.change_terms(alloc, moment, change)?;
    journal.add(row);
    Ok((place, again))
}

/// Why a request is not served that the book has refused.
fn why_of(refusal: BookRefusal) -> ServeRefusal
    ensures { result ≡ why_of refusal }
{
    match refusal {
        BookRefusal::Full { limit } => ServeRefusal::Full { limit },
        BookRefusal::OutOfMemory => ServeRefusal::OutOfMemory,
    }
}
