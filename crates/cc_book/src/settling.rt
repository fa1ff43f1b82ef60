//! What a request of a session settles and is granted (RFC 8506, sections 5.1 to 5.5).

ghost use Rattle.std.specs.Prelude.{◌≡◌, ◌+◌, ◌++◌, ◌<◌, ◌≤◌, ◌^◌, length, map, None, Some, negsuc, pos, ◌≤ℤ◌, IfOk, IfSome, IsTrue, OnOk};
ghost use Rattle.std.specs.List.{find};
ghost use Rattle.std.specs.Option.{ForSome, option_copied};
ghost use Rattle.cc_view.specs.Request.ServiceLimits.{HasSmallSums, WithinLimits};
ghost use Rattle.cc_book.specs.AccountMachine.{code_of_grant, command_code, free_behind, grant_to, hold_of, holds_from, holds_on, made_grant, refusal_to, replies_from, replies_on, session_reply, settled_reply};
ghost use Rattle.cc_rating.specs.Tariffs.{in_range};
ghost use Rattle.cc_book.specs.Pricing.{priced};
ghost use Rattle.cc_book.specs.ServiceRating.{used_cost, used_total};
ghost use Rattle.cc_book.specs.Standing.{held_in};

use crate::asking::{asked_of, unit_code, used_of};
use crate::price::Prices;
use crate::session::Hold;
use crate::terms::{Terms, name_of};
use cc_rating::{Grant, Tariff};
use cc_view::{CcReply, ResultCode, Service, ServiceReply};
use dia_base::Listing;
use std::alloc::{AllocError, Global};

/// What services are granted: their replies, and what is reserved for them.
#[derive(Drop)]
pub struct Granted {
    pub replies: Vec<ServiceReply>,
    pub holds: Vec<Hold>,
}

impl Terms {
    /// What the used units of services cost, where these are the prices of their last grants.
    pub fn used_total(&self, prices: &Prices, services: &[Service]) -> i128
        requires { WithinLimits services.now }
        ensures value { result ≡ pos (used_total (priced self.now.tariffs prices.now) services.now) }
        ensures most { used_total (priced self.now.tariffs prices.now) services.now ≤ 2 ^ 103 }
    {
        let mut total = 0;
        for service in services {
            total += self.used_cost(prices, service) as i128;
        }
        total
    }

    /// What the used units of a service cost, 0 without a tariff.
    fn used_cost(&self, prices: &Prices, service: &Service) -> u128
        requires { HasSmallSums service.now }
        ensures value { result ≡ used_cost (priced self.now.tariffs prices.now service.now) service.now }
        ensures most { result ≤ 2 ^ 98 }
    {
        match self.price_of(prices, service) {
            Some(tariff) => tariff.cost(used_of(&tariff, service)),
            None => 0,
        }
    }

    /// The tariff at which the used units of a service are paid for: that of its last grant, else that which holds.
    fn price_of(&self, prices: &Prices, service: &Service) -> Option<Tariff>
        ensures value { result ≡ priced self.now.tariffs prices.now service.now }
        ensures rates { IfSome result (λ tariff. IsTrue (in_range tariff)) }
    {
        match prices.find(name_of(service)) {
            Some(tariff) => Some(tariff),
            None => self.tariff_of(service).copied(),
        }
    }

    /// Grants services of an account in order, each of what the grants before it leave free. One that is closed is granted
    /// nothing.
    pub fn granted_on(
        &self,
        alloc: Global,
        account: usize,
        free: i128,
        services: &[Service],
    ) -> Result<Granted, AllocError>
        requires within { account < length self.now.accounts }
        requires least { negsuc (2 ^ 126) ≤ℤ free }
        requires few { length services.now ≤ 32 }
        ensures replies { IfOk result (λ granted. granted.replies.items ≡ replies_on self.now (Some account) free services.now) }
        ensures holds { IfOk result (λ granted. granted.holds.items ≡ holds_on self.now (Some account) free services.now) }
        ensures most { IfOk result (λ granted. held_in granted.holds.items ≤ 2 ^ 89) }
    {
        if self.is_closed(account) {
            return Ok(Granted {
                replies: self.refused_services(alloc, services)?,
                holds: Vec::new(alloc),
            });
        }
        self.granted_services(alloc, free, services)
    }

    /// The replies for services of an account that is closed: what they ask is refused.
    fn refused_services(
        &self,
        alloc: Global,
        services: &[Service],
    ) -> Result<Vec<ServiceReply>, AllocError>
        ensures { IfOk result (λ replies. replies.items ≡ map (λ service. settled_reply self.now service (refusal_to self.now.tariffs service)) services.now) }
    {
        services
            .iter()
            .map(|service| self.settled_reply(service, self.refusal_to(service)))
            .collect(alloc)
    }

    /// No units, for a service that asks for some. None without a tariff or a Requested-Service-Unit.
    fn refusal_to(&self, service: &Service) -> Option<Grant>
        ensures { result ≡ refusal_to self.now.tariffs service.now }
    {
        let tariff = self.tariff_of(service)?;
        let _asked = asked_of(tariff, service)?;
        Some(Grant {
            units: 0,
            held: 0,
            last: true,
        })
    }

    /// Grants services in order, each of what the grants before it leave free.
    fn granted_services(
        &self,
        alloc: Global,
        free: i128,
        services: &[Service],
    ) -> Result<Granted, AllocError>
        requires least { negsuc (2 ^ 126) ≤ℤ free }
        requires few { length services.now ≤ 32 }
        ensures replies { IfOk result (λ granted. granted.replies.items ≡ replies_from self.now free services.now) }
        ensures holds { IfOk result (λ granted. granted.holds.items ≡ holds_from self.now.tariffs free services.now) }
        ensures most { IfOk result (λ granted. held_in granted.holds.items ≤ 2 ^ 89) }
    {
        let mut replies = Vec::new(alloc);
        let mut holds = Vec::new(alloc);
        let mut free = free;
        for service in services {
            let grant = self.grant_to(free, service);
            replies.push(self.settled_reply(service, grant))?;
            reserve(&mut holds, service, made_grant(grant))?;
            free = free_behind(free, grant);
        }
        Ok(Granted { replies, holds })
    }

    /// The replies for services of a session that ends: nothing is granted.
    pub fn closed_services(
        &self,
        alloc: Global,
        services: &[Service],
    ) -> Result<Vec<ServiceReply>, AllocError>
        ensures { IfOk result (λ replies. replies.items ≡ map (λ service. settled_reply self.now service None) services.now) }
    {
        services
            .iter()
            .map(|service| self.settled_reply(service, None))
            .collect(alloc)
    }

    /// The grant for a service, where so much is free. None without a tariff or a Requested-Service-Unit.
    fn grant_to(&self, free: i128, service: &Service) -> Option<Grant>
        ensures value { result ≡ grant_to self.now.tariffs free service.now }
        ensures most { IfSome result (λ grant. grant.held < 2 ^ 84) }
    {
        let tariff = self.tariff_of(service)?;
        Some(tariff.grant(free, asked_of(tariff, service)?))
    }

    /// The reply for a service of a session, by its grant.
    pub fn settled_reply(&self, service: &Service, grant: Option<Grant>) -> ServiceReply
        ensures { result ≡ settled_reply self.now service.now grant }
    {
        let tariff = self.tariff_of(service);
        let made = made_grant(grant);
        ServiceReply {
            name: name_of(service),
            bare: service.bare,
            code: match tariff {
                Some(_) => code_of_grant(grant),
                None => ResultCode::RatingFailed,
            },
            kind: tariff.map(|tariff| unit_code(tariff.kind)),
            granted: made.map(|grant| grant.units),
            validity: made.map(|_| self.validity),
            last: made.is_some_and(|grant| grant.last),
        }
    }
}

/// Adds what is reserved for a service that is granted units.
fn reserve(holds: &mut Vec<Hold>, service: &Service, made: Option<Grant>) -> Result<(), AllocError>
    ensures { OnOk result (holds.new.items ≡ holds.old.items ++ hold_of service.now made) }
{
    if let Some(grant) = made {
        holds.push(Hold {
            service: name_of(service),
            cost: grant.held,
        })?;
    }
    Ok(())
}

/// A last grant of no units is none.
fn made_grant(grant: Option<Grant>) -> Option<Grant>
    ensures { result ≡ made_grant grant }
{
    match grant {
        Some(grant) if !(grant.last && grant.units == 0) => Some(grant),
        Some(_) | None => None,
    }
}

fn code_of_grant(grant: Option<Grant>) -> ResultCode
    ensures { result ≡ code_of_grant grant }
{
    match grant {
        Some(grant) if grant.last && grant.units == 0 => ResultCode::CreditLimitReached,
        Some(_) | None => ResultCode::Success,
    }
}

/// What is free for the next grant.
fn free_behind(free: i128, grant: Option<Grant>) -> i128
    requires least { negsuc (2 ^ 126 + 2 ^ 90) ≤ℤ free }
    requires held { ForSome grant (λ made. made.held < 2 ^ 84) }
    ensures { result ≡ free_behind free grant }
{
    match grant {
        Some(grant) => free - grant.held as i128,
        None => free,
    }
}

/// The reply to a request of a session: its Result-Code is that of its bare service, where it has one.
pub fn session_reply(replies: Vec<ServiceReply>) -> CcReply
    ensures { result ≡ session_reply replies.items }
{
    CcReply {
        code: command_code(&replies),
        services: Listing::from_vec(replies),
        cost: None,
        check: None,
    }
}

fn command_code(replies: &[ServiceReply]) -> ResultCode
    ensures { result ≡ command_code replies.now }
{
    match bare_reply(replies) {
        Some(reply) => reply.code,
        None => ResultCode::Success,
    }
}

/// The reply for the units of the command itself.
fn bare_reply(replies: &[ServiceReply]) -> Option<&ServiceReply>
    ensures { option_copied result ≡ find (λ reply. reply.bare) replies.now }
{
    replies.iter().find(|reply| reply.bare)
}
