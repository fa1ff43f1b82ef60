//! What a credit-control server reads in a request, and what it answers (RFC 8506, section 3).
//!
//! - [`request_of`] reads a message: what it asks, a [`CcRequest`], or why it is refused, a [`Refusal`].
//!   The rules stand in `view`, in their order: limits, grammar, values, groups, content.
//! - [`request_under`] does so under a profile, which lets the grammar count AVPs otherwise (`view/counting`).
//! - [`avps_of`] reads the AVPs of a body alone, for a relay.
//! - [`answer_bytes`] writes an answer from what the account machine replies, a [`CcReply`], and
//!   [`refusal_bytes`] a refusal. What both write stands in `answer`.
//! - The laws are functions without a body, for crates above to call: what a view does not read, that
//!   answers and refusals are read back within 65,536 octets, each AVP of an answer by its kind, and that
//!   a request that a relay forwarded has the view, the answer and the refusal of its request.
//!
//! The definitions, in `specs/`: `RequestView` says the view, and below it `Checking` the values and groups
//! that are looked at, `Counting` what a profile tolerates, `Content` what a request asks, `Reading` what its groups say one after the other, and `Readable` what a request is that is not refused;
//! `Refusal` and `RefusalByCode` the refusals with the AVP at fault; `Answer` what is answered, and below it
//! `Carried` what of the request comes back and `Typed` what a receiver reads; `Forwarding` what a relay changes; `FirstDebit` is computed.
//!
//! A server that knows AVPs of vendor 10415:
//!
//! ```
//! fn answer<W: Wire>(alloc: Global, name: &Identity, realm: &Identity, message: &Message) -> Result<Message, AllocError> {
//!     match request_of::<W>(alloc, message, &[10415]) {
//!         Ok(request) => {
//!             let reply = reply_to(&request)?;
//!             answer_bytes::<W>(alloc, name, realm, message, &request, &reply)
//!         }
//!         Err(ViewError::Refused(refusal)) => refusal_bytes::<W>(alloc, name, realm, message, &refusal),
//!         Err(ViewError::OutOfMemory) => Err(AllocError),
//!     }
//! }
//! ```
#![tactic(auto)]

mod answer;
mod code;
mod laws;
mod refusal;
mod reply;
mod request;
mod view;

pub use answer::answer_bytes;
pub use code::ResultCode;
pub use laws::{
    accepted_requests_are_whole, answer_by_what_is_carried, answer_without_identifiers,
    answers_are_read_back, answers_read_as_their_kinds, applications_are_tolerated_in_groups,
    failed_avps_are_of_the_request, failed_avps_are_short, first_debit, forwarded_requests,
    kinds_and_actions_are_read_by_their_numbers, origins_are_tolerated_twice,
    profiles_change_no_request, profiles_read_no_more, profiles_refuse_what_is_there,
    profiles_with_nothing_more, refusal_by_what_is_carried, refusal_without_identifiers,
    refusals_are_read_back, refusals_by_code, requests_are_readable, session_is_written,
    view_without_identifiers, view_without_unread_avps,
};
pub use refusal::{Refusal, refusal_bytes};
pub use reply::{CcReply, Cost, ServiceReply};
pub use request::{
    CcRequest, RequestKind, RequestedAction, Service, ServiceName, Services, Subscription,
};
pub use view::refusals::avps_of;
pub use view::{ViewError, request_of, request_under};
