//! The answer to a Credit-Control-Request (RFC 8506, section 3.2).

ghost use Rattle.std.specs.Prelude.{◌≡◌, ◌++◌, IfOk, OnOk, false};
ghost use Rattle.cc_view.specs.Answer.{answer_header, answer_to, command_part, failover_part, session_part};
ghost use Rattle.cc_view.specs.Answer.Writing.{spelling_of};

pub(crate) mod carried;
pub(crate) mod draft;
pub(crate) mod failed_avp;
pub(crate) mod proxies;
pub(crate) mod units;

use crate::answer::draft::Draft;
use crate::answer::proxies::push_proxies_of;
use crate::answer::units::push_units;
use crate::code::ResultCode;
use crate::reply::CcReply;
use crate::request::{CcRequest, RequestKind};
use dia_avp::{Octets, Wire};
use dia_base::Identity;
use dia_base::codes::{
    AUTH_APPLICATION_ID, CC_REQUEST_NUMBER, CC_REQUEST_TYPE, CC_SESSION_FAILOVER,
    CREDIT_CONTROL_APPLICATION, RESULT_CODE, SESSION_ID,
};
use dia_message::{Header, Message};
use std::alloc::{AllocError, Global};

/// The longest Session-Id that is written: with its header it takes 49,152 octets.
const SESSION_LIMIT: usize = 49_144;

/// CC-Session-Failover: failover is supported.
const FAILOVER_SUPPORTED: u32 = 1;

/// The answer of a front of this realm to a message that asks this request, with this reply.
pub fn answer_bytes<W: Wire>(
    alloc: Global,
    front: &Identity,
    realm: &Identity,
    message: &Message,
    request: &CcRequest,
    reply: &CcReply,
) -> Result<Message, AllocError>
    ensures { IfOk result (λ answer. answer ≡ answer_to front.now realm.now message.now request.now reply.now) }
{
    let mut draft = Draft::new(alloc)?;
    push_command(&mut draft, front, realm, request, reply.code)?;
    push_units(&mut draft, reply)?;
    push_proxies_of::<W>(alloc, &mut draft, &message.body)?;
    Ok(Message {
        header: answer_header(&message.header, false),
        body: draft.finish()?,
    })
}

/// The header of an answer to a request: R and T are clear.
pub(crate) fn answer_header(request: &Header, error: bool) -> Header
    ensures { result ≡ answer_header error request.now }
{
    Header {
        request: false,
        error,
        resent: false,
        ..*request
    }
}

/// Adds what speaks of the command as a whole.
fn push_command(
    draft: &mut Draft,
    front: &Identity,
    realm: &Identity,
    request: &CcRequest,
    code: ResultCode,
) -> Result<(), AllocError>
    ensures { OnOk result (draft.new ≡ draft.old ++ spelling_of (command_part front.now realm.now request.now code)) }
{
    push_session(draft, &request.session)?;
    draft.push_u32(RESULT_CODE, code.number())?;
    draft.push_origin(front, realm)?;
    draft.push_u32(AUTH_APPLICATION_ID, CREDIT_CONTROL_APPLICATION)?;
    draft.push_u32(CC_REQUEST_TYPE, request.kind.number())?;
    draft.push_u32(CC_REQUEST_NUMBER, request.number)?;
    push_failover(draft, request.kind, code)
}

fn push_session(draft: &mut Draft, session: &Octets) -> Result<(), AllocError>
    ensures { OnOk result (draft.new ≡ draft.old ++ spelling_of (session_part session.now)) }
{
    let octets = session.as_slice();
    if octets.len() <= SESSION_LIMIT {
        draft.push_octets(SESSION_ID, octets)
    } else {
        Ok(())
    }
}

fn push_failover(draft: &mut Draft, kind: RequestKind, code: ResultCode) -> Result<(), AllocError>
    ensures { OnOk result (draft.new ≡ draft.old ++ spelling_of (failover_part kind code)) }
{
    match (kind, code) {
        (RequestKind::Initial, ResultCode::Success) => {
            draft.push_u32(CC_SESSION_FAILOVER, FAILOVER_SUPPORTED)
        }
        _ => Ok(()),
    }
}
