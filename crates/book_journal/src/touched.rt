//! What was touched since the last commit.

ghost use Rattle.std.specs.Prelude.{◌≡◌, ◌+◌, ◌≤◌, ◌<◌, [], ℕ, IfOk, OnOk, length, count_by, slice_get, true, false};
ghost use Rattle.cc_book.specs.AccountMachine.{terms_of};
ghost use Rattle.cc_book.specs.Changing.{with_change};
ghost use Rattle.cc_book.specs.Planning.{IsGoodFor, after_plan};
ghost use Rattle.cc_book.specs.Standing.{is_due, sessions_in, without_due};
ghost use Rattle.cc_book.specs.Taking.{with_sweep};
ghost use Rattle.dia_base.specs.declared.number.Moment.{Moment};
ghost use Rattle.book_journal.specs.Tables.{is_due_in, is_touched, CoversAccount, CoversChange, CoversDue, CoversFrom, Grows, IsGrown, IsSameBut};

use cc_book::{Book, Change, Plan, TermsChange};
use dia_base::Moment;
use std::alloc::{AllocError, Global};

/// The places at which what stands beside the rows may differ from the book. A place may come twice.
#[derive(Drop)]
pub struct Touched {
    /// Places of accounts.
    pub accounts: Vec<usize>,
    /// Places of open sessions.
    pub sessions: Vec<usize>,
}

/// Touches a place.
#[tactic(auto, using(crate::proofs::Touching::touched_before, crate::proofs::Touching::touched_last))]
fn touch(places: &mut Vec<usize>, place: usize) -> Result<(), AllocError>
    ensures grows { Grows places.old.items places.new.items }
    ensures there { OnOk result (is_touched place places.new.items ≡ true) }
{
    places.push(place)?;
    Ok(())
}

/// Touches a place that a request changes, unless it is touched. A batch has few of them.
fn touch_once(places: &mut Vec<usize>, place: usize) -> Result<(), AllocError>
    ensures grows { Grows places.old.items places.new.items }
    ensures there { OnOk result (is_touched place places.new.items ≡ true) }
    ensures once { is_touched place places.old.items ≡ true → places.new.items ≡ places.old.items }
{
    if places.contains(&place) {
        return Ok(());
    }
    touch(places, place)
}

/// Touches the places from one to another.
#[tactic(auto, using(crate::proofs::Touching::covers_more))]
fn touch_from(places: &mut Vec<usize>, from: usize, to: usize) -> Result<(), AllocError>
    ensures grows { Grows places.old.items places.new.items }
    ensures there { OnOk result (CoversFrom places.new.items from to) }
{
    for place in from..to {
        touch(places, place)?;
    }
    Ok(())
}

/// Touches the account that a request charges.
fn touch_account(places: &mut Vec<usize>, account: Option<usize>) -> Result<(), AllocError>
    ensures grows { Grows places.old.items places.new.items }
    ensures there { OnOk result (CoversAccount places.new.items account) }
{
    match account {
        Some(place) => touch_once(places, place),
        None => Ok(()),
    }
}

/// Touches what a request changes of so many open sessions.
#[tactic(auto, using(crate::proofs::Touching::still_touched))]
fn touch_change(places: &mut Vec<usize>, count: usize, change: &Change) -> Result<(), AllocError>
    ensures grows { Grows places.old.items places.new.items }
    ensures there { OnOk result (CoversChange places.new.items count change.now) }
{
    match change {
        Change::Stays => Ok(()),
        Change::Opens { .. } => touch_once(places, count),
        Change::GoesOn { place, .. } => touch_once(places, *place),
        Change::Ends { place } => {
            touch_once(places, *place)?;
            touch_once(places, count.saturating_sub(1))
        }
    }
}

/// Whether the open session at a place has ended by a moment.
fn is_due_at(book: &Book, place: usize, moment: Moment) -> bool
    requires { place < length (sessions_in book.now.terms book.now.history) }
    ensures { result ≡ is_due_in book.now.terms.validity moment (sessions_in book.now.terms book.now.history) place }
{
    match book.session_at(place) {
        Some(session) => session.is_due(book.validity(), moment),
        None => false,
    }
}

/// Touches the places of the open sessions that have ended by a moment. How many they are.
#[tactic(auto, using(crate::proofs::Touching::all_due, crate::proofs::Touching::counted_due, crate::proofs::Touching::counted_not_due, crate::proofs::Touching::due_touched, crate::proofs::Touching::not_due))]
fn touch_due(places: &mut Vec<usize>, book: &Book, moment: Moment) -> Result<usize, AllocError>
    ensures grows { Grows places.old.items places.new.items }
    ensures there { OnOk result (CoversDue places.new.items book.now.terms.validity moment (sessions_in book.now.terms book.now.history)) }
    ensures count { IfOk result (λ ended. ended ≡ count_by (is_due book.now.terms.validity moment) (sessions_in book.now.terms book.now.history)) }
{
    let mut ended = 0;
    for place in 0..book.session_count() {
        if is_due_at(book, place, moment) {
            touch(places, place)?;
            ended += 1;
        }
    }
    Ok(ended)
}

impl Touched {
    /// Nothing was touched.
    pub fn nothing(alloc: Global) -> Touched
        ensures accounts { result.accounts.items ≡ [] }
        ensures sessions { result.sessions.items ≡ [] }
    {
        Touched {
            accounts: Vec::new(alloc),
            sessions: Vec::new(alloc),
        }
    }

    /// Nothing was touched any more. It takes no memory.
    pub fn clear(&mut self)
        ensures accounts { self.new.accounts.items ≡ [] }
        ensures sessions { self.new.sessions.items ≡ [] }
    {
        self.accounts.clear();
        self.sessions.clear();
    }

    /// All that stands beside the rows of a book is touched.
    pub fn all(alloc: Global, book: &Book) -> Result<Touched, AllocError>
        ensures accounts { IfOk result (λ touched. CoversFrom touched.accounts.items 0 (length (terms_of book.now.terms book.now.history).accounts)) }
        ensures sessions { IfOk result (λ touched. CoversFrom touched.sessions.items 0 (length (sessions_in book.now.terms book.now.history))) }
    {
        let mut touched = Touched::nothing(alloc);
        touch_from(&mut touched.accounts, 0, book.accounts().len())?;
        touch_from(&mut touched.sessions, 0, book.session_count())?;
        Ok(touched)
    }

    /// Touches what a plan of a book changes.
    #[tactic(auto, using(crate::proofs::Elsewhere::nothing_taken, crate::proofs::Elsewhere::taken_elsewhere))]
    pub fn touch_plan(&mut self, book: &Book, plan: &Plan) -> Result<(), AllocError>
        ensures grows { IsGrown self.old self.new }
        ensures covered { OnOk result (IsGoodFor book.now plan.now → IsSameBut self.new book.now (after_plan book.now plan.now)) }
    {
        match &plan.taken {
            Some(taken) => {
                touch_account(&mut self.accounts, taken.outcome.account)?;
                touch_change(
                    &mut self.sessions,
                    book.session_count(),
                    &taken.outcome.change,
                )
            }
            None => Ok(()),
        }
    }

    /// Touches what a sweep of a book at a moment changes: the sessions that end, and the last ones, which take their places.
    #[tactic(auto, using(crate::proofs::Elsewhere::swept_elsewhere, crate::proofs::Touching::due_still))]
    pub fn touch_sweep(&mut self, book: &Book, moment: Moment) -> Result<(), AllocError>
        ensures grows { IsGrown self.old self.new }
        ensures covered { OnOk result (IsSameBut self.new book.now (with_sweep book.now moment)) }
    {
        let ended = touch_due(&mut self.sessions, book, moment)?;
        let count = book.session_count();
        touch_from(&mut self.sessions, count.saturating_sub(ended), count)
    }

    /// Touches what a change of the terms changes: the accounts that join.
    #[tactic(auto, using(crate::proofs::Elsewhere::changed_elsewhere))]
    pub fn touch_terms(&mut self, book: &Book, change: &TermsChange) -> Result<(), AllocError>
        ensures grows { IsGrown self.old self.new }
        ensures covered { OnOk result ((moment : Moment) → IsSameBut self.new book.now (with_change book.now moment change.now)) }
    {
        let count = book.accounts().len();
        let joining = change.joining.as_slice().len();
        touch_from(&mut self.accounts, count, count + joining)
    }
}
