//! A request is planned, and what is planned is committed.

ghost use Rattle.std.specs.Prelude.{◌≡◌, IfOk, IfSome, IsSome, None, if◌then◌else◌, slice_index_or};
ghost use Rattle.cc_book.specs.Taking.{AnswersRepeat};

use super::BookState;
use crate::book::{Answered, BookRefusal, free_place};
use crate::charges::Charge;
use crate::content::same_request;
use crate::copy::{RequestCopy, copy_of_reply};
use crate::entry::Entry;
use crate::key::kept;
use crate::lookup::Lookup;
use crate::plan::{Plan, Taken};
use crate::terms::code_alone;
use cc_view::{CcReply, CcRequest, ResultCode};
use dia_base::Moment;
use std::alloc::{AllocError, Global};

impl BookState {
    ghost use Rattle.cc_book.specs.Planning.{IsGoodFor, IsTaking, PlansWith, after_plan, answer_planned};
    ghost use Rattle.cc_book.specs.Taking.{answer_of, answer_within, with_take};

    /// What a request does to the book, which it leaves as it is: all that `take` refuses is refused here, and all the
    /// memory that it wants is wanted here. Full where the history is at its limit, or where a balance, or what is
    /// reserved of an account, could come to 2^124 in size, which no history of 2^20 entries brings about.
    pub fn plan(
        &self,
        alloc: Global,
        moment: Moment,
        request: &CcRequest,
    ) -> Result<Plan, BookRefusal>
        ensures answer { PlansWith (answer_of self.now request.now) result }
        ensures within { PlansWith (answer_within self.now request.now) result }
        ensures good { IfOk result (IsGoodFor self.now) }
        ensures after { IfOk result (λ plan. after_plan self.now plan ≡ (if (answer_planned plan).fresh then with_take self.now moment request.now else self.now)) }
    {
        if let Some((place, taken)) = kept(&self.history, &self.places, request) {
            let answered = kept_answer(alloc, &self.replies, place, taken, request)?;
            return Ok(Plan {
                answered,
                taken: None,
            });
        }
        let Some(place) = free_place(&self.history, self.limit) else {
            return Err(BookRefusal::Full { limit: self.limit });
        };
        let terms = self.terms_now();
        let account = terms.charged_account(&self.standing, request);
        if !self.standing.bears_more(account) {
            return Err(BookRefusal::Full { limit: self.limit });
        }
        let outcome = terms.outcome_of(alloc, &self.standing, account, moment, request)?;
        let reply = copy_of_reply(alloc, &outcome.reply)?;
        let request = RequestCopy::of(alloc, request)?;
        Ok(Plan {
            answered: Answered {
                reply,
                place,
                fresh: true,
            },
            taken: Some(Taken {
                moment,
                request,
                outcome,
            }),
        })
    }

    /// Does what was planned, and answers so. The plan is one that was made of this history. It takes no memory.
    pub fn commit(&mut self, plan: Plan) -> Answered
        requires { IsGoodFor self.old plan }
        ensures answer { result ≡ answer_planned plan }
        ensures after { self.new ≡ after_plan self.old plan }
    {
        let (answered, taken) = plan.into_parts();
        let Some(taken) = taken else {
            return answered;
        };
        self.keep(taken);
        answered
    }

    /// Debits, changes the session, and appends the entry with its reply.
    fn keep(&mut self, taken: Taken)
        requires { IsTaking self.old taken }
        ensures { self.new ≡ with_take self.old taken.moment taken.request }
    {
        let Taken {
            moment,
            request,
            outcome,
        } = taken;
        let (request, session, opened) = request.into_parts();
        self.places.add(session, request.number, self.history.len());
        self.history.push_reserved(Entry::Take { moment, request });
        self.replies.push_reserved(Some(outcome.reply));
        self.charges.push_reserved(Charge {
            account: outcome.account,
            debit: outcome.debit,
        });
        self.standing.debit(outcome.account, outcome.debit);
        self.standing.change(opened, outcome.change);
    }
}

/// The answer to a request with the key of the one that was taken at this place: the reply that is kept there, if it is
/// this very request. Another content gets DIAMETER_UNABLE_TO_COMPLY and nothing else, for which no memory is wanted.
pub fn kept_answer(
    alloc: Global,
    replies: &[Option<CcReply>],
    place: usize,
    taken: &CcRequest,
    request: &CcRequest,
) -> Result<Answered, AllocError>
    requires { IsSome (slice_index_or replies.now place None) }
    ensures { IfOk result (λ answered. IfSome (slice_index_or replies.now place None) (AnswersRepeat taken.now request.now place answered)) }
{
    if !same_request(taken, request) {
        return Ok(Answered {
            reply: code_alone(alloc, ResultCode::UnableToComply),
            place: place as u64,
            fresh: false,
        });
    }
    match &replies[place] {
        Some(reply) => Ok(Answered {
            reply: copy_of_reply(alloc, reply)?,
            place: place as u64,
            fresh: false,
        }),
        None => unreachable!(),
    }
}
