//! Requests that workers have answered by the book, by what they came to.

ghost use Rattle.std.specs.Prelude.{◌≡◌};
ghost use Rattle.pool_node.specs.Served.{asks_alone, came_to, counted, fresh_came_to, known_came_to, no_requests};

use cc_shared::Receipt;
use cc_view::{RequestedAction, ResultCode};

/// What a request came to.
#[derive(Clone, Copy, PartialEq, Eq)]
pub enum CameTo {
    /// It was charged: it has succeeded, and more than a price or a balance was asked for (RFC 8506, section 6).
    Charge,
    /// A price or a balance was asked for, and told (sections 6.1 and 6.2).
    Enquiry,
    /// Refused for want of credit (section 9.1).
    CreditRefusal,
    /// Refused for another reason, or since another request has its Session-Id and CC-Request-Number.
    Refusal,
    /// It was sent again, and answered as before.
    Repeat,
}

/// How many requests came to what. Each is counted once.
#[derive(Clone, Copy, PartialEq, Eq)]
pub struct ServedCounts {
    pub charges: u64,
    pub enquiries: u64,
    pub credit_refusals: u64,
    pub refusals: u64,
    pub repeats: u64,
}

/// Whether a request with this Requested-Action asks for a price or a balance alone.
fn asks_alone(action: Option<RequestedAction>) -> bool
    ensures { result ≡ asks_alone action }
{
    match action {
        Some(RequestedAction::CheckBalance | RequestedAction::PriceEnquiry) => true,
        Some(RequestedAction::DirectDebiting | RequestedAction::RefundAccount) | None => false,
    }
}

/// What a request came to that was taken and answered so.
fn fresh_came_to(action: Option<RequestedAction>, code: ResultCode) -> CameTo
    ensures { result ≡ fresh_came_to action code }
{
    match code {
        ResultCode::Success if asks_alone(action) => CameTo::Enquiry,
        ResultCode::Success => CameTo::Charge,
        ResultCode::CreditLimitReached => CameTo::CreditRefusal,
        _ => CameTo::Refusal,
    }
}

/// What a request came to whose Session-Id and CC-Request-Number stand in the book already, and that is answered so. Another request than
/// the one that stands there is refused.
fn known_came_to(code: ResultCode) -> CameTo
    ensures { result ≡ known_came_to code }
{
    match code {
        ResultCode::UnableToComply => CameTo::Refusal,
        _ => CameTo::Repeat,
    }
}

/// What the request of a receipt came to.
pub fn came_to(receipt: &Receipt) -> CameTo
    ensures { result ≡ came_to receipt.now }
{
    if receipt.fresh {
        fresh_came_to(receipt.request.action, receipt.reply.code)
    } else {
        known_came_to(receipt.reply.code)
    }
}

impl ServedCounts {
    /// None yet.
    pub fn none() -> Self
        ensures { result ≡ no_requests }
    {
        ServedCounts {
            charges: 0,
            enquiries: 0,
            credit_refusals: 0,
            refusals: 0,
            repeats: 0,
        }
    }

    /// One more came to this.
    pub fn count(&mut self, what: CameTo)
        ensures { self.new ≡ counted what self.old }
    {
        match what {
            CameTo::Charge => self.charges = self.charges.saturating_add(1),
            CameTo::Enquiry => self.enquiries = self.enquiries.saturating_add(1),
            CameTo::CreditRefusal => {
                self.credit_refusals = self.credit_refusals.saturating_add(1);
            }
            CameTo::Refusal => self.refusals = self.refusals.saturating_add(1),
            CameTo::Repeat => self.repeats = self.repeats.saturating_add(1),
        }
    }
}
