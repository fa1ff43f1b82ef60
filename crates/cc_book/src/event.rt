//! What an EVENT does (RFC 8506, sections 6 and 8.41).

ghost use Rattle.std.specs.Prelude.{◌≡◌, ◌<◌, ◌^◌, ◌≤ℤ◌, List, length, pos, negsuc, IfOk, IfSome};
ghost use Rattle.dia_base.specs.declared.number.Moment.{Moment};
ghost use Rattle.cc_view.specs.declared.request.RequestKind.TheVariants.{Event};
ghost use Rattle.cc_book.specs.AccountMachine.{account_of, action_debit, action_reply, check_reply, debiting_reply, event_reply, needs_account, price_reply, total_of};
ghost use Rattle.cc_book.specs.Posting.{Posting};
ghost use Rattle.cc_book.specs.Standing.{IsOutcome, IsSmall, Stands};

use crate::account::Money;
use crate::lookup::Lookup;
use crate::outcome::{Change, Outcome};
use crate::terms::{Terms, code_alone};
use cc_view::{CcReply, CcRequest, Cost, RequestedAction, ResultCode, Service};
use dia_base::Listing;
use std::alloc::{AllocError, Global};

impl Terms {
    /// What an EVENT does: it charges the account that it names, and touches no session.
    pub fn event_outcome<S: Lookup>(
        &self,
        alloc: Global,
        standing: &S,
        account: Option<usize>,
        request: &CcRequest,
    ) -> Result<Outcome, AllocError>
        requires small { IsSmall self.now (S.balances standing.now) (S.sessions standing.now) }
        requires account { account ≡ account_of self.now request.now.subscriptions }
        requires within { IfSome account (λ place. place < length self.now.accounts) }
        ensures { IfOk result (λ outcome. (before : List Posting) (moment : Moment) → request.now.kind ≡ Event → Stands self.now before (S.balances standing.now) (S.sessions standing.now) → IsOutcome self.now before (S.sessions standing.now) moment request.now outcome) }
    {
        let free = standing.free_for(account);
        let total = self.total_of(request.services.as_slice());
        let reply = self.event_reply(alloc, request, account, free, total)?;
        Ok(Outcome {
            account,
            debit: action_debit(total.unwrap_or(0), reply.code, request.action),
            reply,
            change: Change::Stays,
        })
    }

    /// The reply to an EVENT on an account, where so much is free and what it asks costs this total.
    fn event_reply(
        &self,
        alloc: Global,
        request: &CcRequest,
        account: Option<usize>,
        free: i128,
        total: Option<u128>,
    ) -> Result<CcReply, AllocError>
        requires is_total { total ≡ total_of self.now.tariffs request.now.services }
        requires most { IfSome total (λ total. total < 2 ^ 90) }
        ensures { IfOk result (λ reply. reply ≡ event_reply self.now request.now.services account free request.now.action) }
    {
        let Some(action) = request.action else {
            return Ok(code_alone(alloc, ResultCode::UnableToComply));
        };
        if needs_account(action) && account.is_none() {
            return Ok(code_alone(alloc, ResultCode::UserUnknown));
        }
        match total {
            Some(total) => {
                self.action_reply(alloc, request.services.as_slice(), total, free, action)
            }
            None => Ok(code_alone(alloc, ResultCode::RatingFailed)),
        }
    }

    /// The reply of an action to a total, where so much is free.
    fn action_reply(
        &self,
        alloc: Global,
        services: &[Service],
        total: u128,
        free: i128,
        action: RequestedAction,
    ) -> Result<CcReply, AllocError>
        requires { total < 2 ^ 90 }
        ensures { IfOk result (λ reply. reply ≡ action_reply self.now services.now total free action) }
    {
        match action {
            RequestedAction::DirectDebiting => self.debiting_reply(alloc, services, total, free),
            RequestedAction::RefundAccount => Ok(code_alone(alloc, ResultCode::Success)),
            RequestedAction::CheckBalance => Ok(check_reply(alloc, total, free)),
            RequestedAction::PriceEnquiry => Ok(price_reply(alloc, self.money, total)),
        }
    }

    /// A debit is made where the whole of it is free.
    fn debiting_reply(
        &self,
        alloc: Global,
        services: &[Service],
        total: u128,
        free: i128,
    ) -> Result<CcReply, AllocError>
        requires { total < 2 ^ 90 }
        ensures { IfOk result (λ reply. reply ≡ debiting_reply self.now.tariffs services.now total free) }
    {
        if total as i128 > free {
            return Ok(code_alone(alloc, ResultCode::CreditLimitReached));
        }
        Ok(CcReply {
            code: ResultCode::Success,
            services: Listing::from_vec(self.granted(alloc, services)?),
            cost: None,
            check: None,
        })
    }
}

/// Check-Balance-Result is 0 where the whole total is free, else 1.
fn check_reply(alloc: Global, total: u128, free: i128) -> CcReply
    requires { total < 2 ^ 90 }
    ensures { result ≡ check_reply total free }
{
    CcReply {
        code: ResultCode::Success,
        services: Listing::empty(alloc),
        cost: None,
        check: Some(if total as i128 <= free { 0 } else { 1 }),
    }
}

/// Cost-Information, where the total fits Value-Digits.
fn price_reply(alloc: Global, money: Money, total: u128) -> CcReply
    ensures { result ≡ price_reply money total }
{
    if total > i64::MAX as u128 {
        return code_alone(alloc, ResultCode::RatingFailed);
    }
    CcReply {
        code: ResultCode::Success,
        services: Listing::empty(alloc),
        cost: Some(Cost {
            digits: total as i64,
            exponent: money.exponent,
            currency: money.currency,
        }),
        check: None,
    }
}

/// Whether an action is on an account: a PRICE_ENQUIRY needs none.
fn needs_account(action: RequestedAction) -> bool
    ensures { result ≡ needs_account action }
{
    action != RequestedAction::PriceEnquiry
}

/// What an action debits, where it was answered so: a DIRECT_DEBITING its total, a REFUND_ACCOUNT the total below 0.
fn action_debit(total: u128, code: ResultCode, action: Option<RequestedAction>) -> i128
    requires { total < 2 ^ 90 }
    ensures value { result ≡ action_debit total code action }
    ensures least { negsuc (2 ^ 90) ≤ℤ result }
    ensures most { result ≤ℤ pos (2 ^ 90) }
{
    if code != ResultCode::Success {
        return 0;
    }
    match action {
        Some(RequestedAction::DirectDebiting) => total as i128,
        Some(RequestedAction::RefundAccount) => -(total as i128),
        Some(RequestedAction::CheckBalance | RequestedAction::PriceEnquiry) | None => 0,
    }
}
