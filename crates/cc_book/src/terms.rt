//! The terms of an account book, and what is read of a request by them.

ghost use Rattle.std.specs.Prelude.{◌≡◌, ◌≤◌, ◌<◌, ◌^◌, length, map, IfOk, IfSome, IsTrue, Some};
ghost use Rattle.std.specs.Option.{option_copied};
ghost use Rattle.cc_view.specs.Request.ServiceLimits.{name_of};
ghost use Rattle.cc_book.specs.AccountMachine.{account_of, code_alone, granted, is_closed, open_account, service_cost, total_of};
ghost use Rattle.cc_book.specs.ServiceRating.{tariff_of};
ghost use Rattle.cc_rating.specs.Tariffs.{in_range};

use crate::account::Money;
use crate::accounts::Accounts;
use crate::asking::{asked_of, unit_code};
use crate::subscriptions::Subscriptions;
use cc_rating::{Tariff, Tariffs};
use cc_view::{CcReply, CcRequest, ResultCode, Service, ServiceName, ServiceReply, Subscription};
use dia_base::Listing;
use std::alloc::{AllocError, Global};

/// What the charging of requests rests on.
#[derive(Debug, Drop)]
pub struct Terms {
    pub accounts: Accounts,
    /// The Subscription-Ids of those accounts that are closed.
    pub closed: Subscriptions,
    pub tariffs: Tariffs,
    /// Validity-Time of a grant in seconds.
    pub validity: u32,
    pub money: Money,
}

impl Terms {
    /// The account of the first Subscription-Id that has one which is not closed.
    pub fn account_of(&self, request: &CcRequest) -> Option<usize>
        ensures value { result ≡ account_of self.now request.now.subscriptions }
        ensures within { IfSome result (λ account. account < length self.now.accounts) }
    {
        for subscription in request.subscriptions.as_slice() {
            if let Some(account) = self.open_account(subscription) {
                return Some(account);
            }
        }
        None
    }

    /// The account of a Subscription-Id. None where it is closed.
    fn open_account(&self, subscription: &Subscription) -> Option<usize>
        ensures value { result ≡ open_account self.now subscription.now }
        ensures within { IfSome result (λ account. account < length self.now.accounts) }
    {
        if self.closed.contains(subscription) {
            None
        } else {
            self.accounts.find(subscription)
        }
    }

    /// Whether the account at this place is closed: it is granted nothing then.
    pub fn is_closed(&self, account: usize) -> bool
        requires { account < length self.now.accounts }
        ensures { result ≡ is_closed self.now (Some account) }
    {
        self.closed
            .contains_owner_of(&self.accounts.as_slice()[account])
    }

    /// The sum of the costs of the asked units. None with no service, or with one that has no tariff.
    pub fn total_of(&self, services: &[Service]) -> Option<u128>
        requires { length services.now ≤ 32 }
        ensures value { result ≡ total_of self.now.tariffs services.now }
        ensures most { IfSome result (λ total. total < 2 ^ 90) }
    {
        if services.is_empty() {
            return None;
        }
        let mut total = 0;
        for service in services {
            total += self.cost_of(service)?;
        }
        Some(total)
    }

    pub fn tariff_of(&self, service: &Service) -> Option<&Tariff>
        ensures value { option_copied result ≡ tariff_of self.now.tariffs service.now }
        ensures rates { IfSome result (λ tariff. IsTrue (in_range tariff.now)) }
    {
        self.tariffs.find(service.group, service.ident)
    }

    /// The cost of the units that a service asks for. None without a tariff.
    fn cost_of(&self, service: &Service) -> Option<u128>
        ensures value { result ≡ service_cost self.now.tariffs service.now }
        ensures most { IfSome result (λ cost. cost < 2 ^ 84) }
    {
        let tariff = self.tariff_of(service)?;
        match asked_of(tariff, service) {
            Some(units) => Some(tariff.cost(units as u128)),
            None => Some(0),
        }
    }

    /// The services with the units that they asked for.
    pub fn granted(
        &self,
        alloc: Global,
        services: &[Service],
    ) -> Result<Vec<ServiceReply>, AllocError>
        ensures { IfOk result (λ replies. replies.items ≡ map (granted self.now.tariffs) services.now) }
    {
        services
            .iter()
            .map(|service| self.granted_to(service))
            .collect(alloc)
    }

    fn granted_to(&self, service: &Service) -> ServiceReply
        ensures { result ≡ granted self.now.tariffs service.now }
    {
        let (kind, granted) = match self.tariff_of(service) {
            Some(tariff) => (Some(unit_code(tariff.kind)), asked_of(tariff, service)),
            None => (None, None),
        };
        ServiceReply {
            name: name_of(service),
            bare: service.bare,
            code: ResultCode::Success,
            kind,
            granted,
            validity: None,
            last: false,
        }
    }
}

/// What names a service: Rating-Group, and the first Service-Identifier.
pub fn name_of(service: &Service) -> ServiceName
    ensures { result ≡ name_of service.now }
{
    ServiceName {
        group: service.group,
        ident: service.ident,
    }
}

/// A reply that is a Result-Code and nothing else.
pub fn code_alone(alloc: Global, code: ResultCode) -> CcReply
    ensures { result ≡ code_alone code }
{
    CcReply {
        code,
        services: Listing::from_vec(Vec::new(alloc)),
        cost: None,
        check: None,
    }
}
