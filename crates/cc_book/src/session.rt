//! Open sessions, and what they hold (RFC 8506, sections 5.1 and 5.2).

ghost use Rattle.std.specs.Prelude.{◌≡◌, ◌≤◌, ◌^◌, IfOk, nat_le};
ghost use Rattle.cc_book.specs.Session.{deadline_at};
ghost use Rattle.cc_book.specs.Reservation.{has_name};
ghost use Rattle.cc_book.specs.Standing.{held_in, holds_beside, is_due, is_named, prolonged};

use crate::price::Prices;
use cc_view::{Service, ServiceName};
use dia_avp::Octets;
use dia_base::{Listing, Moment};
use std::alloc::{AllocError, Global};

/// A reservation for a service: what its granted units cost.
#[derive(Clone, Copy, Debug, PartialEq, Eq)]
pub struct Hold {
    pub service: ServiceName,
    pub cost: u128,
}

/// A session that is open.
#[derive(Debug)]
pub struct OpenSession {
    /// Its Session-Id.
    pub id: Octets,
    /// The account of the request that opened it, by its place.
    pub account: usize,
    /// The moment of its last request that is no EVENT.
    pub last: Moment,
    /// What it holds of its account, at most once for a service.
    pub holds: Listing<Hold>,
    /// The tariffs at which its services were last granted.
    pub prices: Prices,
}

// By hand, so that each exit of an owner is proved with one call.
impl Drop for OpenSession {
    fn drop(self) {
        let OpenSession {
            id: _,
            account: _,
            last: _,
            holds: _,
            prices: _,
        } = self;
    }
}

impl OpenSession {
    /// The session after a request at a moment, which leaves it these holds and these prices.
    pub fn prolonged(
        &self,
        moment: Moment,
        holds: Listing<Hold>,
        prices: Prices,
    ) -> Result<Self, AllocError>
        ensures { IfOk result (λ session. session ≡ prolonged self.now moment holds prices) }
    {
        Ok(OpenSession {
            id: self.id.clone()?,
            account: self.account,
            last: moment,
            holds,
            prices,
        })
    }

    /// Whether the session has ended by a moment: it does so twice the validity, which is in seconds, after its last
    /// request (RFC 8506, section 13).
    pub fn is_due(&self, validity: u32, moment: Moment) -> bool
        ensures { result ≡ is_due validity moment self.now }
    {
        is_past(validity, self.last, moment)
    }

    /// The holds for other services than these.
    pub fn holds_beside(&self, alloc: Global, services: &[Service]) -> Result<Vec<Hold>, AllocError>
        ensures { IfOk result (λ holds. holds.items ≡ holds_beside services.now self.now.holds) }
    {
        self.holds
            .as_slice()
            .iter()
            .copied()
            .filter(|hold| !is_named(services, hold))
            .collect(alloc)
    }
}

/// Whether a session whose last request came at this moment has ended by another.
pub fn is_past(validity: u32, last: Moment, moment: Moment) -> bool
    ensures { result ≡ nat_le (deadline_at validity last.0) moment.0 }
{
    last.0 as u128 + 2000 * validity as u128 <= moment.0 as u128
}

/// What the holds add up to.
pub fn held_in(holds: &[Hold]) -> u128
    requires { held_in holds.now ≤ 2 ^ 124 }
    ensures { result ≡ held_in holds.now }
{
    let mut held = 0;
    for hold in holds {
        held += hold.cost;
    }
    held
}

/// Whether one of these services has the name of the hold.
fn is_named(services: &[Service], hold: &Hold) -> bool
    ensures { result ≡ is_named services.now hold.now }
{
    services
        .iter()
        .any(|service| has_name(&hold.service, service))
}

fn has_name(name: &ServiceName, service: &Service) -> bool
    ensures { result ≡ has_name name.now service.now }
{
    name.group == service.group && name.ident == service.ident
}
