//! What is read in a Credit-Control-Request (RFC 8506, section 3.1).

ghost use Rattle.std.specs.Prelude.{◌≡◌, ◌≤◌, ◌<◌, ◌^◌, length, All};
ghost use Rattle.cc_view.specs.Request.ServiceLimits.{WithinLimits};

use dia_avp::Octets;
use dia_base::Listing;
use std::alloc::AllocError;
use std::marker::Model;

/// CC-Request-Type (RFC 8506, section 8.3).
#[derive(Clone, Copy, Debug, PartialEq, Eq)]
pub enum RequestKind {
    Initial = 1,
    Update = 2,
    Termination = 3,
    Event = 4,
}

impl RequestKind {
    ghost use Rattle.cc_view.specs.Request.Number.{kind_number};

    /// The number that stands in a CC-Request-Type AVP.
    pub fn number(self) -> u32
        ensures { result ≡ kind_number self }
    {
        self as u32
    }
}

/// Requested-Action (RFC 8506, section 8.41).
#[derive(Clone, Copy, Debug, PartialEq, Eq)]
pub enum RequestedAction {
    DirectDebiting = 0,
    RefundAccount = 1,
    CheckBalance = 2,
    PriceEnquiry = 3,
}

impl RequestedAction {
    ghost use Rattle.cc_view.specs.Request.Number.{action_number};

    /// The number that stands in a Requested-Action AVP.
    pub fn number(self) -> u32
        ensures { result ≡ action_number self }
    {
        self as u32
    }
}

/// A Subscription-Id: its type and its data, which is text (RFC 8506, section 8.46).
#[derive(Debug, Drop, Clone, PartialEq, Eq, Hash)]
pub struct Subscription {
    pub kind: u32,
    pub text: Octets,
}

/// What names a service of a request: Rating-Group, and the first Service-Identifier.
#[derive(Clone, Copy, Debug, PartialEq, Eq)]
pub struct ServiceName {
    pub group: Option<u32>,
    pub ident: Option<u32>,
}

/// One service of a request. Counts stand in the order time, octets, service-specific units.
#[derive(Clone, Copy, Debug, PartialEq, Eq)]
pub struct Service {
    /// Rating-Group.
    pub group: Option<u32>,
    /// The first Service-Identifier.
    pub ident: Option<u32>,
    /// Whether it stands for the units of the command itself, with no Multiple-Services-Credit-Control.
    pub bare: bool,
    /// The counts of Requested-Service-Unit, if it is there.
    pub asked: Option<[Option<u64>; 3]>,
    /// The sums of the counts of every Used-Service-Unit.
    pub used: [u128; 3],
}

/// The services of a request: at most 32, no two of one name, with each sum of used units below 2^78.
#[derive(Debug, Drop)]
pub struct Services {
    services: Vec<Service>,
}

impl Model for Services {
    ghost use Rattle.std.specs.Prelude.{List};
    ghost use Rattle.cc_view.specs.declared.request.Service.{Service};
    ghost use Rattle.cc_view.specs.Request.ServiceLimits.{WithinLimits};

    ghost Value = { List Service };

    ghost view = { λ s. s.services.items };

    ghost invariant = { λ s. WithinLimits s.services.items };
}

impl Services {
    /// The services of the vector, which takes no memory.
    pub fn from_vec(services: Vec<Service>) -> Self
        requires { WithinLimits services.items }
        ensures { result ≡ services.items }
    {
        Services { services }
    }

    /// The services in the order of the request.
    pub fn as_slice(&self) -> &[Service]
        ensures value { result.now ≡ self.now }
        ensures limits { WithinLimits self.now }
    {
        &self.services
    }
}

impl Clone for Services {
    ghost is_clone = { λ a b. a ≡ b };

    fn clone(&self) -> Result<Self, AllocError> {
        Ok(Services {
            services: self.services.clone()?,
        })
    }
}

/// What a request asks: all that decides what is charged and answered.
#[derive(Debug)]
pub struct CcRequest {
    /// Session-Id.
    pub session: Octets,
    /// CC-Request-Number.
    pub number: u32,
    /// CC-Request-Type.
    pub kind: RequestKind,
    /// Requested-Action, if it is there.
    pub action: Option<RequestedAction>,
    pub subscriptions: Listing<Subscription>,
    pub services: Services,
}

// By hand, so that each exit of an owner is proved with one call.
impl Drop for CcRequest {
    fn drop(self) {
        let CcRequest {
            session: _,
            number: _,
            kind: _,
            action: _,
            subscriptions: _,
            services: _,
        } = self;
    }
}

impl Clone for CcRequest {
    ghost is_clone = { λ a b. a ≡ b };

    fn clone(&self) -> Result<Self, AllocError> {
        Ok(CcRequest {
            session: self.session.clone()?,
            number: self.number,
            kind: self.kind,
            action: self.action,
            subscriptions: self.subscriptions.clone()?,
            services: self.services.clone()?,
        })
    }
}
