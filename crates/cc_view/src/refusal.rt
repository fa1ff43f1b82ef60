//! The refusal of a request (RFC 6733, section 7).

ghost use Rattle.std.specs.Prelude.{◌≡◌, IfOk};
ghost use Rattle.cc_view.specs.Answer.{refusal_of};

use crate::answer::answer_header;
use crate::answer::carried::{carriable_avps, push_proxies, push_session};
use crate::answer::draft::Draft;
use crate::answer::failed_avp::push_failed;
use crate::code::ResultCode;
use dia_avp::{RawAvp, Wire};
use dia_base::Identity;
use dia_base::codes::RESULT_CODE;
use dia_message::Message;
use std::alloc::{AllocError, Global};

/// Why a request is refused.
#[derive(Debug, Drop)]
pub struct Refusal {
    pub code: ResultCode,
    /// The AVP at fault, as Failed-AVP holds it. It is written where it takes at most 8,192 octets.
    pub failed: Option<RawAvp>,
}

/// The refusal of a message by a node of this realm.
pub fn refusal_bytes<W: Wire>(
    alloc: Global,
    node: &Identity,
    realm: &Identity,
    message: &Message,
    refusal: &Refusal,
) -> Result<Message, AllocError>
    ensures { IfOk result (λ answer. answer ≡ refusal_of node.now realm.now message.now refusal.now) }
{
    let carried = carriable_avps::<W>(alloc, &message.body)?;
    let mut draft = Draft::new(alloc)?;
    push_session(&mut draft, &carried)?;
    draft.push_origin(node, realm)?;
    draft.push_u32(RESULT_CODE, refusal.code.number())?;
    push_failed(&mut draft, &refusal.failed)?;
    push_proxies(&mut draft, &carried)?;
    Ok(Message {
        header: answer_header(&message.header, true),
        body: draft.finish()?,
    })
}
