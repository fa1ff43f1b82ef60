//! The account book, kept as lists.

ghost use Rattle.std.specs.Prelude.{◌≡◌, ◌≢◌, ◌≤◌, ◌<◌, ◌^◌, [], length, nat_abs, Err, IfOk, IfSome, if◌then◌else◌, nat_lt, Some, None, pos};
ghost use Rattle.cc_book.specs.declared.book.BookRefusal.TheVariants.{OutOfMemory};

mod changing;

use crate::key::kept;
use crate::standing::Lists;
use cc_book::{
    Account, Accounts, Answered, BookRefusal, Entry, Lookup, Money, Plan, RequestCopy,
    Subscriptions, Taken, Terms, copy_of_reply, free_place, kept_answer,
};
use cc_rating::Tariffs;
use cc_view::{CcReply, CcRequest};
use dia_base::{HISTORY_LIMIT, Moment};
use std::alloc::{AllocError, Global};
use std::marker::Model;

/// An account book without a map and without a total: what is looked for is walked to. Its calls are those of
/// [`cc_book::Book`], with the same contracts.
#[derive(Drop)]
pub struct ListBook {
    /// The terms that it began with.
    terms: Terms,
    /// The terms that hold now, where an entry changed them.
    changed: Option<Terms>,
    limit: u64,
    history: Vec<Entry>,
    /// The reply of each entry, none of a sweep.
    replies: Vec<Option<CcReply>>,
    standing: Lists,
}

impl Model for ListBook {
    ghost use Rattle.std.specs.Prelude.{◌≡◌, ◌≤◌, ◌^◌, unwrap_or, vec_capacity};
    ghost use Rattle.cc_book.specs.AccountMachine.{terms_of};
    ghost use Rattle.cc_book.specs.Taking.{HasRoom, IsBook, Ledger};

    ghost Value = { Ledger };

    ghost view = { λ b. record { terms = b.terms; limit = b.limit; history = b.history.items } };

    ghost invariant = { λ b.
        IsBook b.terms b.limit b.history.items b.replies.items b.standing.balances.items b.standing.sessions.items
        × HasRoom b.limit (vec_capacity b.history) (vec_capacity b.replies) (vec_capacity b.standing.sessions)
        × (b.limit ≤ 2 ^ 20)
        × (unwrap_or b.changed b.terms ≡ terms_of b.terms b.history.items) };
}

impl ListBook {
    ghost use Rattle.cc_book.specs.AccountMachine.{terms_of};
    ghost use Rattle.cc_book.specs.Balance.{balance_of, reserved_of, open_sessions_of};
    ghost use Rattle.cc_book.specs.History.{IsLegal};
    ghost use Rattle.cc_book.specs.Planning.{IsGoodFor, IsTaking, PlansWith, after_plan, answer_planned};
    ghost use Rattle.cc_book.specs.Taking.{AnswersWith, Ledger, SweepsWith, answer_of, answer_within, is_fresh, sweep_answer, after_sweep_with, with_take};

    /// A book with no entry. It takes up to `limit` entries, of which the caller makes no more than [`HISTORY_LIMIT`],
    /// and has room for them from the start, so that no entry is ever moved; `validity` is the Validity-Time of grants
    /// in seconds.
    pub fn new(
        alloc: Global,
        accounts: Vec<Account>,
        tariffs: Tariffs,
        validity: u32,
        money: Money,
        limit: u64,
    ) -> Result<Self, AllocError>
        requires { limit ≤ HISTORY_LIMIT }
        ensures terms { IfOk result (λ book. book.terms ≡ record { accounts = accounts.items; closed = []; tariffs = tariffs; validity = validity; money = money }) }
        ensures limit { IfOk result (λ book. book.limit ≡ limit) }
        ensures history { IfOk result (λ book. book.history ≡ []) }
    {
        let room = limit as usize;
        let standing = Lists::new(alloc, &accounts, room)?;
        Ok(ListBook {
            terms: Terms {
                accounts: Accounts::from_vec(alloc, accounts)?,
                closed: Subscriptions::empty(alloc),
                tariffs,
                validity,
                money,
            },
            changed: None,
            limit,
            history: Vec::with_capacity(alloc, room)?,
            replies: Vec::with_capacity(alloc, room)?,
            standing,
        })
    }

    /// What `take` would answer to a request now. It changes nothing. Memory is wanted only for what is not refused.
    pub fn quote(
        &self,
        alloc: Global,
        moment: Moment,
        request: &CcRequest,
    ) -> Result<Answered, BookRefusal>
        ensures { AnswersWith (answer_of self.now request.now) result }
    {
        let plan = self.plan(alloc, moment, request)?;
        Ok(plan.into_answered())
    }

    /// Takes a request (RFC 8506, section 6). One whose key is kept gets the kept reply and its place, and nothing
    /// changes; with another content than the request that was taken under this key it gets DIAMETER_UNABLE_TO_COMPLY
    /// alone in place of that reply. Another one is charged and appended, unless the history is at its limit: Full.
    /// Memory is wanted only for what is not refused. After a refusal the book is unchanged. It is a plan that is
    /// committed at once.
    pub fn take(
        &mut self,
        alloc: Global,
        moment: Moment,
        request: &CcRequest,
    ) -> Result<Answered, BookRefusal>
        ensures answer { AnswersWith (answer_of self.old request.now) result }
        ensures within { AnswersWith (answer_within self.old request.now) result }
        ensures after { self.new ≡ (if is_fresh result then with_take self.old moment request.now else self.old) }
    {
        let plan = self.plan(alloc, moment, request)?;
        Ok(self.commit(plan))
    }

    /// What a request does to the book, which it leaves as it is: all that `take` refuses is refused here, and all the
    /// memory that it wants is wanted here. Full where the history is at its limit, or where a balance, or what is
    /// reserved of an account, could come to 2^124 in size, which no history of 2^20 entries brings about.
    pub fn plan(
        &self,
        alloc: Global,
        moment: Moment,
        request: &CcRequest,
    ) -> Result<Plan, BookRefusal>
        ensures answer { PlansWith (answer_of self.now request.now) result }
        ensures within { PlansWith (answer_within self.now request.now) result }
        ensures good { IfOk result (IsGoodFor self.now) }
        ensures after { IfOk result (λ plan. after_plan self.now plan ≡ (if (answer_planned plan).fresh then with_take self.now moment request.now else self.now)) }
    {
        if let Some((place, taken)) = kept(&self.history, request) {
            let answered = kept_answer(alloc, &self.replies, place, taken, request)?;
            return Ok(Plan {
                answered,
                taken: None,
            });
        }
        let Some(place) = free_place(&self.history, self.limit) else {
            return Err(BookRefusal::Full { limit: self.limit });
        };
        let terms = self.terms_now();
        let account = terms.charged_account(&self.standing, request);
        if !self.standing.bears_more(account) {
            return Err(BookRefusal::Full { limit: self.limit });
        }
        let outcome = terms.outcome_of(alloc, &self.standing, account, moment, request)?;
        let reply = copy_of_reply(alloc, &outcome.reply)?;
        let request = RequestCopy::of(alloc, request)?;
        Ok(Plan {
            answered: Answered {
                reply,
                place,
                fresh: true,
            },
            taken: Some(Taken {
                moment,
                request,
                outcome,
            }),
        })
    }

    /// Does what was planned, and answers so. The plan is one that was made of this history. It takes no memory.
    pub fn commit(&mut self, plan: Plan) -> Answered
        requires { IsGoodFor self.old plan }
        ensures answer { result ≡ answer_planned plan }
        ensures after { self.new ≡ after_plan self.old plan }
    {
        let mut plan = plan;
        let taken = plan.taken.take();
        let answered = plan.into_answered();
        let Some(taken) = taken else {
            return answered;
        };
        self.keep(taken);
        answered
    }

    /// Debits, changes the session, and appends the entry with its reply.
    fn keep(&mut self, taken: Taken)
        requires { IsTaking self.old taken }
        ensures { self.new ≡ with_take self.old taken.moment taken.request }
    {
        let Taken {
            moment,
            request,
            outcome,
        } = taken;
        let (request, _session, _opened) = request.into_parts();
        self.history.push_reserved(Entry::Take { moment, request });
        self.replies.push_reserved(Some(outcome.reply));
        self.standing.debit(outcome.account, outcome.debit);
        self.standing.change(outcome.change);
    }

    /// Ends each session whose deadline is at most the moment: a session lasts for twice its validity from its last
    /// request on that is no EVENT (RFC 8506, section 13), and what it had reserved is free again. It answers how many
    /// ended, and appends an entry only where some did. Full where some would and the history is at its limit: the book is
    /// unchanged then. It takes no memory. Moments need not rise from call to call.
    pub fn sweep(&mut self, moment: Moment) -> Result<u64, BookRefusal>
        ensures answer { SweepsWith (sweep_answer self.old moment) result }
        ensures after { self.new ≡ after_sweep_with self.old moment result }
        ensures memory { result ≢ Err OutOfMemory }
    {
        let ended = self.standing.count_due(self.terms.validity, moment);
        if ended == 0 {
            return Ok(0);
        }
        let Some(_place) = free_place(&self.history, self.limit) else {
            return Err(BookRefusal::Full { limit: self.limit });
        };
        self.history.push_reserved(Entry::Sweep { moment });
        self.replies.push_reserved(None);
        self.standing.sweep(self.terms.validity, moment);
        Ok(ended as u64)
    }

    /// The accounts: those that were handed to `new`, and behind them those that have joined.
    pub fn accounts(&self) -> &[Account]
        ensures { result.now ≡ (terms_of self.now.terms self.now.history).accounts }
    {
        self.terms_now().accounts.as_slice()
    }

    /// The balance of the account at this place, which stays below 2^124 in size. None beyond the last account.
    pub fn balance(&self, account: usize) -> Option<i128>
        ensures small { IfSome result (λ balance. nat_abs balance < 2 ^ 124) }
        ensures value { result ≡ (if nat_lt account (length (terms_of self.now.terms self.now.history).accounts) then Some (balance_of self.now.terms self.now.history account) else None) }
    {
        if account < self.standing.balances.len() {
            Some(self.standing.balances[account])
        } else {
            None
        }
    }

    /// What the sessions of the account at this place have reserved. None beyond the last account.
    pub fn reserved(&self, account: usize) -> Option<i128>
        ensures { result ≡ (if nat_lt account (length (terms_of self.now.terms self.now.history).accounts) then Some (pos (reserved_of self.now.terms self.now.history account)) else None) }
    {
        if account < self.standing.balances.len() {
            Some(self.standing.reserved(account) as i128)
        } else {
            None
        }
    }

    /// How many sessions are open.
    pub fn open_sessions(&self) -> u64
        ensures { result ≡ open_sessions_of self.now.terms self.now.history }
    {
        self.standing.sessions.len() as u64
    }

    /// The entries, the oldest first.
    pub fn history(&self) -> &[Entry]
        ensures entries { result.now ≡ self.now.history }
        ensures legal { IsLegal self.now.terms self.now.history }
        ensures within { length self.now.history ≤ self.now.limit }
    {
        self.history.as_slice()
    }
}
