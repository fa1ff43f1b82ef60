//! The account book: a history of requests, sweeps and changes of terms, from which every balance and reply is made.

ghost use Rattle.std.specs.Prelude.{◌≡◌, ◌≢◌, ◌≤◌, ◌<◌, ◌^◌, ◌%◌, [], length, map, nat_abs, Err, IfNone, IfOk, IfSome, MatchOption, if◌then◌else◌, nat_lt, slice_get, Some, None, pos};
ghost use Rattle.cc_book.specs.declared.book.BookRefusal.TheVariants.{OutOfMemory};
ghost use Rattle.cc_book.specs.declared.terms_change.ChangeRefusal.TheVariants as refused;
ghost use Rattle.cc_book.specs.Taking.{AnswersWith, answer_of, answer_within};

use crate::account::{Account, Money};
use crate::accounts::Accounts;
use crate::charges::Charge;
use crate::entry::Entry;
use crate::memory::boxed;
use crate::plan::Plan;
use crate::session::OpenSession;
use crate::state::BookState;
use crate::subscriptions::Subscriptions;
use crate::terms::Terms;
use crate::terms_change::{ChangeRefusal, TermsChange};
use cc_rating::Tariffs;
use cc_view::{CcReply, CcRequest};
use dia_base::{HISTORY_LIMIT, Moment};
use std::alloc::{AllocError, AllocFailed, Global};
use std::marker::Model;
use thiserror::Error;

/// What the book answers to a request that it keeps.
#[derive(Drop)]
pub struct Answered {
    pub reply: CcReply,
    /// The place of the request's entry in the history, from 0.
    pub place: u64,
    /// Whether the request was appended by this call.
    pub fresh: bool,
}

/// Why the book does not take a request, or does not sweep. It is unchanged then.
#[derive(Clone, Copy, Debug, PartialEq, Eq, Error)]
pub enum BookRefusal {
    /// The history is at its limit, or the account that the request charges does not bear one more: its balance, or
    /// what sessions have reserved of it, could come to 2^124 in size.
    #[error("the history has {limit} entries, which is its limit")]
    Full { limit: u64 },
    #[error("out of memory")]
    OutOfMemory,
}

impl From<AllocError> for BookRefusal {
    ghost from_gives = { λ _ e. e ≡ OutOfMemory };

    fn from(_e: AllocError) -> BookRefusal {
        BookRefusal::OutOfMemory
    }
}

impl<T: Drop> From<AllocFailed<T>> for BookRefusal {
    ghost from_gives = { λ _ e. e ≡ OutOfMemory };

    fn from(_e: AllocFailed<T>) -> BookRefusal {
        BookRefusal::OutOfMemory
    }
}

/// The account book. It is its history: balances, reservations, sessions and replies are made from the terms that it
/// began with and the entries alone. What it keeps stands in memory of its own, so that who has a book moves a pointer.
#[derive(Debug, Drop)]
pub struct Book {
    state: Box<BookState>,
}

impl Model for Book {
    ghost use Rattle.cc_book.specs.Taking.{Ledger};

    ghost Value = { Ledger };

    ghost view = { λ b. b.state.value };
}

impl Book {
    ghost use Rattle.cc_book.specs.AccountMachine.{postings_of, terms_of};
    ghost use Rattle.cc_book.specs.Charging.{charges_of};
    ghost use Rattle.cc_book.specs.Balance.{balance_of, reserved_of, open_sessions_of};
    ghost use Rattle.cc_book.specs.Changing.{ChangesWith, after_change_with, change_answer};
    ghost use Rattle.cc_book.specs.History.{IsLegal};
    ghost use Rattle.cc_book.specs.Planning.{IsGoodFor, PlansWith, after_plan, answer_planned};
    ghost use Rattle.cc_book.specs.Standing.{held_by_all, sessions_in};
    ghost use Rattle.cc_book.specs.Taking.{SweepsWith, is_fresh, sweep_answer, after_sweep_with, with_take};

    /// A book with no entry, and no account that is closed. It takes up to `limit` entries, of which the caller makes no more than
    /// [`HISTORY_LIMIT`], and has room for them from the start, so that no entry is ever moved; `validity` is the Validity-Time of
    /// grants in seconds.
    pub fn new(
        alloc: Global,
        accounts: Vec<Account>,
        tariffs: Tariffs,
        validity: u32,
        money: Money,
        limit: u64,
    ) -> Result<Self, AllocError>
        requires { limit ≤ HISTORY_LIMIT }
        ensures terms { IfOk result (λ book. book.terms ≡ record { accounts = accounts.items; closed = []; tariffs = tariffs; validity = validity; money = money }) }
        ensures limit { IfOk result (λ book. book.limit ≡ limit) }
        ensures history { IfOk result (λ book. book.history ≡ []) }
    {
        let terms = Terms {
            accounts: Accounts::from_vec(alloc, accounts)?,
            closed: Subscriptions::empty(alloc),
            tariffs,
            validity,
            money,
        };
        Book::under(alloc, terms, limit)
    }

    /// A book under these terms, with no entry, and with room for so many.
    pub fn under(alloc: Global, terms: Terms, limit: u64) -> Result<Self, AllocError>
        requires { limit ≤ HISTORY_LIMIT }
        ensures { IfOk result (λ book. book ≡ record { terms = terms; limit = limit; history = [] }) }
    {
        let state = BookState::under(alloc, terms, limit)?;
        Ok(Book {
            state: boxed(alloc, state)?,
        })
    }

    /// What a request does to the book, which it leaves as it is: all that `take` refuses is refused here, and all the
    /// memory that it wants is wanted here. Full where the history is at its limit, or where a balance, or what is
    /// reserved of an account, could come to 2^124 in size, which no history of 2^20 entries brings about.
    pub fn plan(
        &self,
        alloc: Global,
        moment: Moment,
        request: &CcRequest,
    ) -> Result<Plan, BookRefusal>
        ensures answer { PlansWith (answer_of self.now request.now) result }
        ensures within { PlansWith (answer_within self.now request.now) result }
        ensures good { IfOk result (IsGoodFor self.now) }
        ensures after { IfOk result (λ plan. after_plan self.now plan ≡ (if (answer_planned plan).fresh then with_take self.now moment request.now else self.now)) }
    {
        self.state.plan(alloc, moment, request)
    }

    /// Does what was planned, and answers so. The plan is one that was made of this history. It takes no memory.
    pub fn commit(&mut self, plan: Plan) -> Answered
        requires { IsGoodFor self.old plan }
        ensures answer { result ≡ answer_planned plan }
        ensures after { self.new ≡ after_plan self.old plan }
    {
        self.state.commit(plan)
    }

    /// What `take` would answer to a request now. It changes nothing. Memory is wanted only for what is not refused.
    pub fn quote(
        &self,
        alloc: Global,
        moment: Moment,
        request: &CcRequest,
    ) -> Result<Answered, BookRefusal>
        ensures { AnswersWith (answer_of self.now request.now) result }
    {
        let plan = self.plan(alloc, moment, request)?;
        Ok(plan.into_answered())
    }

    /// Takes a request (RFC 8506, section 6). One whose key is kept gets the kept reply and its place, and nothing
    /// changes; with another content than the request that was taken under this key it gets DIAMETER_UNABLE_TO_COMPLY
    /// alone in place of that reply. Another one is charged and appended, unless the history is at its limit: Full.
    /// Memory is wanted only for what is not refused. After a refusal the book is unchanged. It is a plan that is
    /// committed at once.
    pub fn take(
        &mut self,
        alloc: Global,
        moment: Moment,
        request: &CcRequest,
    ) -> Result<Answered, BookRefusal>
        ensures answer { AnswersWith (answer_of self.old request.now) result }
        ensures within { AnswersWith (answer_within self.old request.now) result }
        ensures after { self.new ≡ (if is_fresh result then with_take self.old moment request.now else self.old) }
    {
        let plan = self.plan(alloc, moment, request)?;
        Ok(self.commit(plan))
    }

    /// What `sweep` would answer now. It changes nothing, and takes no memory.
    pub fn quote_sweep(&self, moment: Moment) -> Result<u64, BookRefusal>
        ensures answer { SweepsWith (sweep_answer self.now moment) result }
        ensures memory { result ≢ Err OutOfMemory }
    {
        self.state.quote_sweep(moment)
    }

    /// Ends each session whose deadline is at most the moment: a session lasts for twice its validity from its last
    /// request on that is no EVENT (RFC 8506, section 13), and what it had reserved is free again. It answers how many
    /// ended, and appends an entry only where some did. Full where some would and the history is at its limit: the book is
    /// unchanged then. It takes no memory. Moments need not rise from call to call.
    pub fn sweep(&mut self, moment: Moment) -> Result<u64, BookRefusal>
        ensures answer { SweepsWith (sweep_answer self.old moment) result }
        ensures after { self.new ≡ after_sweep_with self.old moment result }
        ensures memory { result ≢ Err OutOfMemory }
    {
        self.state.sweep(moment)
    }

    /// What `change_terms` would answer now. It changes nothing, and takes no memory.
    pub fn quote_change(&self, change: &TermsChange) -> Result<u64, ChangeRefusal>
        ensures answer { ChangesWith (change_answer self.now change.now) result }
        ensures memory { result ≢ Err refused.OutOfMemory }
    {
        self.state.quote_change(change)
    }

    /// Changes the terms, all that the change says or nothing: from here on the accounts that join are there, each with
    /// its opening amount as its balance, and the new tariffs hold. It answers the place of the entry. No reply and no
    /// debit of the past changes, and what is held stays held at the cost at which it was granted. Memory is wanted only
    /// for what is not refused, and that of the change alone. After a refusal the book is unchanged.
    pub fn change_terms(
        &mut self,
        alloc: Global,
        moment: Moment,
        change: TermsChange,
    ) -> Result<u64, ChangeRefusal>
        ensures answer { ChangesWith (change_answer self.old change) result }
        ensures after { self.new ≡ after_change_with self.old moment change result }
    {
        self.state.change_terms(alloc, moment, change)
    }

    /// A copy of the terms that it began with. Its accounts are a list alone ([`Accounts::list`]).
    pub fn terms(&self, alloc: Global) -> Result<Terms, AllocError>
        ensures { IfOk result (λ terms. terms ≡ self.now.terms) }
    {
        self.state.terms(alloc)
    }

    /// The terms that hold now: those that it began with, and each change since.
    pub fn terms_now(&self) -> &Terms
        ensures { result.now ≡ terms_of self.now.terms self.now.history }
    {
        self.state.terms_now()
    }

    /// Validity-Time of its grants in seconds.
    pub fn validity(&self) -> u32
        ensures { result ≡ self.now.terms.validity }
    {
        self.state.validity()
    }

    /// The accounts: those that were handed to `new`, and behind them those that have joined.
    pub fn accounts(&self) -> &[Account]
        ensures { result.now ≡ (terms_of self.now.terms self.now.history).accounts }
    {
        self.state.accounts()
    }

    /// The balance of the account at this place, which stays below 2^124 in size. None beyond the last account.
    pub fn balance(&self, account: usize) -> Option<i128>
        ensures small { IfSome result (λ balance. nat_abs balance < 2 ^ 124) }
        ensures value { result ≡ (if nat_lt account (length (terms_of self.now.terms self.now.history).accounts) then Some (balance_of self.now.terms self.now.history account) else None) }
    {
        self.state.balance(account)
    }

    /// What the sessions of the account at this place have reserved. None beyond the last account.
    pub fn reserved(&self, account: usize) -> Option<i128>
        ensures { result ≡ (if nat_lt account (length (terms_of self.now.terms self.now.history).accounts) then Some (pos (reserved_of self.now.terms self.now.history account)) else None) }
    {
        self.state.reserved(account)
    }

    /// How many sessions are open.
    pub fn open_sessions(&self) -> u64
        ensures { result ≡ open_sessions_of self.now.terms self.now.history }
    {
        self.state.open_sessions()
    }

    /// What the open sessions have reserved of all accounts together, in minor units, modulo 2^128.
    pub fn reserved_by_all(&self) -> u128
        ensures { result ≡ held_by_all (sessions_in self.now.terms self.now.history) % 2 ^ 128 }
    {
        self.state.reserved_by_all()
    }

    /// How many sessions are open: the length of their list, in which the last takes the place of one that ends.
    pub fn session_count(&self) -> usize
        ensures { result ≡ length (sessions_in self.now.terms self.now.history) }
    {
        self.state.session_count()
    }

    /// The open session at a place of their list. None beyond the last one.
    pub fn session_at(&self, place: usize) -> Option<&OpenSession>
        ensures { MatchOption result (length (sessions_in self.now.terms self.now.history) ≤ place) (λ session. slice_get (sessions_in self.now.terms self.now.history) place ≡ Some session.now) }
    {
        self.state.session_at(place)
    }

    /// The entries, the oldest first.
    pub fn history(&self) -> &[Entry]
        ensures entries { result.now ≡ self.now.history }
        ensures legal { IsLegal self.now.terms self.now.history }
        ensures within { length self.now.history ≤ self.now.limit }
    {
        self.state.history()
    }

    /// The reply of each entry, the oldest first: none of a sweep and of a change of the terms.
    pub fn replies(&self) -> &[Option<CcReply>]
        ensures { result.now ≡ map (λ posting. posting.reply) (postings_of self.now.terms self.now.history) }
    {
        self.state.replies()
    }

    /// What each entry charged, the oldest first.
    pub fn charges(&self) -> &[Charge]
        ensures { result.now ≡ charges_of self.now.terms self.now.history }
    {
        self.state.charges()
    }
}

/// The place of the next entry. None where the history is at its limit.
pub fn free_place(history: &[Entry], limit: u64) -> Option<u64>
    ensures some { IfSome result (λ place. (place ≡ length history.now) × (length history.now < limit)) }
    ensures none { IfNone result (limit ≤ length history.now) }
{
    let place = history.len() as u64;
    if limit <= place {
        return None;
    }
    Some(place)
}
