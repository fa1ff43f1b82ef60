//! What a request does to its account and its session.

ghost use Rattle.std.specs.Prelude.{◌≡◌, ◌<◌, List, length, None, Some, pos, IfOk, IfSome, if◌then◌else◌};
ghost use Rattle.dia_base.specs.declared.number.Moment.{Moment};
ghost use Rattle.cc_view.specs.declared.code.ResultCode.TheVariants.{UnknownSessionId};
ghost use Rattle.cc_view.specs.declared.request.RequestKind.TheVariants.{Initial, Update, Termination};
ghost use Rattle.cc_book.specs.AccountMachine.{account_of, charged_account, code_alone};
ghost use Rattle.cc_book.specs.Posting.{Posting};
ghost use Rattle.cc_book.specs.Session.{is_success};
ghost use Rattle.cc_book.specs.Standing.{IsOutcome, IsSmall, NamesAccount, Stands, place_in};
ghost use Rattle.cc_book.specs.declared.outcome.Change.TheVariants.{Opens, Stays};

use crate::lookup::Lookup;
use crate::price::Prices;
use crate::session::{Hold, OpenSession, held_in};
use crate::settling::session_reply;
use crate::terms::{Terms, code_alone};
use cc_view::{CcReply, CcRequest, RequestKind, ResultCode};
use dia_base::{Listing, Moment};
use std::alloc::{AllocError, Global};

/// What a request does to its session.
#[derive(Drop)]
pub enum Change {
    /// Nothing: there is none, or it is an EVENT.
    Stays,
    /// The session opens.
    Opens { session: OpenSession },
    /// The session at this place is this one now.
    GoesOn { place: usize, session: OpenSession },
    /// The session at this place ends, and all that it holds.
    Ends { place: usize },
}

/// What a request does.
#[derive(Drop)]
pub struct Outcome {
    /// The account that it charges, by its place.
    pub account: Option<usize>,
    /// What it debits that account.
    pub debit: i128,
    pub reply: CcReply,
    pub change: Change,
}

impl Terms {
    /// The account that a request charges, by its place: the first that one of its Subscription-Ids has, and of UPDATE
    /// and TERMINATION that of their session (RFC 8506, sections 5.3 and 5.4). It takes no memory.
    pub fn charged_account<S: Lookup>(&self, standing: &S, request: &CcRequest) -> Option<usize>
        requires { IsSmall self.now (S.balances standing.now) (S.sessions standing.now) }
        ensures charged { (before : List Posting) → Stands self.now before (S.balances standing.now) (S.sessions standing.now) → result ≡ charged_account self.now before request.now }
        ensures named { NamesAccount self.now request.now result }
    {
        match request.kind {
            RequestKind::Initial | RequestKind::Event => self.account_of(request),
            RequestKind::Update | RequestKind::Termination => {
                let (_place, session) = standing.open_session(&request.session)?;
                Some(session.account)
            }
        }
    }

    /// What a request does that is not kept, where so much stands (RFC 8506, sections 5 and 6). `account` is what
    /// `charged_account` answers to it.
    pub fn outcome_of<S: Lookup>(
        &self,
        alloc: Global,
        standing: &S,
        account: Option<usize>,
        moment: Moment,
        request: &CcRequest,
    ) -> Result<Outcome, AllocError>
        requires small { IsSmall self.now (S.balances standing.now) (S.sessions standing.now) }
        requires account { NamesAccount self.now request.now account }
        ensures { IfOk result (λ outcome. (before : List Posting) → Stands self.now before (S.balances standing.now) (S.sessions standing.now) → IsOutcome self.now before (S.sessions standing.now) moment request.now outcome) }
    {
        match request.kind {
            RequestKind::Initial => {
                self.initial_outcome(alloc, standing, account, moment, request)
            }
            RequestKind::Update => self.update_outcome(alloc, standing, moment, request),
            RequestKind::Termination => self.termination_outcome(alloc, standing, request),
            RequestKind::Event => self.event_outcome(alloc, standing, account, request),
        }
    }

    /// An INITIAL of an open session is refused, and yet prolongs it. Another one opens its session.
    fn initial_outcome<S: Lookup>(
        &self,
        alloc: Global,
        standing: &S,
        account: Option<usize>,
        moment: Moment,
        request: &CcRequest,
    ) -> Result<Outcome, AllocError>
        requires small { IsSmall self.now (S.balances standing.now) (S.sessions standing.now) }
        requires account { account ≡ account_of self.now request.now.subscriptions }
        requires within { IfSome account (λ place. place < length self.now.accounts) }
        ensures { IfOk result (λ outcome. (before : List Posting) → request.now.kind ≡ Initial → Stands self.now before (S.balances standing.now) (S.sessions standing.now) → IsOutcome self.now before (S.sessions standing.now) moment request.now outcome) }
    {
        match (standing.open_session(&request.session), account) {
            (Some((place, session)), _) => {
                let holds = session.holds.as_slice().to_vec(alloc)?;
                let prices = session.prices.copy(alloc)?;
                let session = session.prolonged(moment, Listing::from_vec(holds), prices)?;
                let change = Change::GoesOn { place, session };
                Ok(refused(alloc, account, ResultCode::UnableToComply, change))
            }
            (None, Some(account)) => self.opening_outcome(
                alloc, standing, account, moment, request,
            ),
            (None, None) => Ok(refused(alloc, None, ResultCode::UserUnknown, Change::Stays)),
        }
    }

    /// A session opens on an account, unless its bare service is refused: used units are debited in full, then
    /// grants are made in order.
    fn opening_outcome<S: Lookup>(
        &self,
        alloc: Global,
        standing: &S,
        account: usize,
        moment: Moment,
        request: &CcRequest,
    ) -> Result<Outcome, AllocError>
        requires small { IsSmall self.now (S.balances standing.now) (S.sessions standing.now) }
        requires account { account_of self.now request.now.subscriptions ≡ Some account }
        requires within { account < length self.now.accounts }
        ensures { IfOk result (λ outcome. (before : List Posting) → request.now.kind ≡ Initial → place_in (S.sessions standing.now) request.now.session ≡ None → Stands self.now before (S.balances standing.now) (S.sessions standing.now) → IsOutcome self.now before (S.sessions standing.now) moment request.now outcome) }
    {
        let services = request.services.as_slice();
        let none = Prices::none(alloc);
        let debit = self.used_total(&none, services);
        let free = standing.free_to_grant(account, 0, debit);
        let granted = self.granted_on(alloc, account, free, services)?;
        let prices = none.after(alloc, &self.tariffs, &granted.holds)?;
        let reply = session_reply(granted.replies);
        let change = opening(reply.code, account, moment, request, granted.holds, prices)?;
        Ok(Outcome {
            account: Some(account),
            debit,
            reply,
            change,
        })
    }

    /// An UPDATE charges the account of its session. The holds of the services that it names end and what they used
    /// is debited in full, then grants are made in order.
    fn update_outcome<S: Lookup>(
        &self,
        alloc: Global,
        standing: &S,
        moment: Moment,
        request: &CcRequest,
    ) -> Result<Outcome, AllocError>
        requires { IsSmall self.now (S.balances standing.now) (S.sessions standing.now) }
        ensures { IfOk result (λ outcome. (before : List Posting) → request.now.kind ≡ Update → Stands self.now before (S.balances standing.now) (S.sessions standing.now) → IsOutcome self.now before (S.sessions standing.now) moment request.now outcome) }
    {
        let Some((place, session)) = standing.open_session(&request.session) else {
            return Ok(unknown_session(alloc));
        };
        let account = session.account;
        let services = request.services.as_slice();
        let mut holds = session.holds_beside(alloc, services)?;
        let debit = self.used_total(&session.prices, services);
        let ended = held_in(session.holds.as_slice()) - held_in(&holds);
        let free = standing.free_to_grant(account, ended, debit);
        let mut granted = self.granted_on(alloc, account, free, services)?;
        let prices = session.prices.after(alloc, &self.tariffs, &granted.holds)?;
        holds.append(&mut granted.holds)?;
        let session = session.prolonged(moment, Listing::from_vec(holds), prices)?;
        Ok(Outcome {
            account: Some(account),
            debit,
            reply: session_reply(granted.replies),
            change: Change::GoesOn { place, session },
        })
    }

    /// A TERMINATION debits what was used, and ends its session with all that it holds.
    fn termination_outcome<S: Lookup>(
        &self,
        alloc: Global,
        standing: &S,
        request: &CcRequest,
    ) -> Result<Outcome, AllocError>
        requires { IsSmall self.now (S.balances standing.now) (S.sessions standing.now) }
        ensures { IfOk result (λ outcome. (before : List Posting) (moment : Moment) → request.now.kind ≡ Termination → Stands self.now before (S.balances standing.now) (S.sessions standing.now) → IsOutcome self.now before (S.sessions standing.now) moment request.now outcome) }
    {
        let Some((place, session)) = standing.open_session(&request.session) else {
            return Ok(unknown_session(alloc));
        };
        let services = request.services.as_slice();
        Ok(Outcome {
            account: Some(session.account),
            debit: self.used_total(&session.prices, services),
            reply: session_reply(self.closed_services(alloc, services)?),
            change: Change::Ends { place },
        })
    }
}

/// A session opens where its INITIAL is answered DIAMETER_SUCCESS.
fn opening(
    code: ResultCode,
    account: usize,
    moment: Moment,
    request: &CcRequest,
    holds: Vec<Hold>,
    prices: Prices,
) -> Result<Change, AllocError>
    ensures { IfOk result (λ change. change ≡ (if is_success code then Opens (record { id = request.now.session; account = account; last = moment; holds = holds.items; prices = prices }) else Stays)) }
{
    match code {
        ResultCode::Success => Ok(Change::Opens {
            session: OpenSession {
                id: request.session.clone()?,
                account,
                last: moment,
                holds: Listing::from_vec(holds),
                prices,
            },
        }),
        _ => Ok(Change::Stays),
    }
}

/// A request that is refused charges nothing.
fn refused(alloc: Global, account: Option<usize>, code: ResultCode, change: Change) -> Outcome
    ensures { result ≡ record { account = account; debit = pos 0; reply = code_alone code; change = change } }
{
    Outcome {
        account,
        debit: 0,
        reply: code_alone(alloc, code),
        change,
    }
}

/// A request of a session that is not open.
fn unknown_session(alloc: Global) -> Outcome
    ensures { result ≡ record { account = None; debit = pos 0; reply = code_alone UnknownSessionId; change = Stays } }
{
    refused(alloc, None, ResultCode::UnknownSessionId, Change::Stays)
}
