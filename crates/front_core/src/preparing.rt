//! What is known of a message before the book is asked.

ghost use Rattle.std.specs.Prelude.{◌≡◌, IfOk, IsOkUnless};
ghost use Rattle.cc_view.specs.RequestView.{view_under};
ghost use Rattle.dia_grammar.specs.Profile.{profile_of};
ghost use Rattle.front_core.specs.Charging.{preparation_of};

use crate::error::FrontError;
use cc_view::{CcRequest, ViewError, refusal_bytes, request_under};
use dia_avp::Wire;
use dia_base::Identity;
use dia_grammar::Profile;
use dia_message::Message;
use std::alloc::Global;

/// What a message is for a front, before the book is asked.
#[derive(Drop)]
pub enum Prepared {
    /// It is refused: this is the answer.
    Refused(Message),
    /// It is this request: ask the book.
    Ask(CcRequest),
}

/// Reads the request in a message, or refuses the message in the name of a front of this name and
/// realm, with this profile (RFC 8506, section 3.1). It asks no book.
pub fn prepare<W: Wire>(
    alloc: Global,
    name: &Identity,
    realm: &Identity,
    profile: Profile,
    message: &Message,
) -> Result<Prepared, FrontError>
    ensures prepared { IfOk result (λ prepared. prepared ≡ preparation_of name.now realm.now message.now (view_under (profile_of profile.entry) message.now)) }
    ensures memory { IsOkUnless result FrontError.OutOfMemory }
{
    match request_under::<W>(alloc, message, profile) {
        Ok(request) => Ok(Prepared::Ask(request)),
        Err(ViewError::Refused(refusal)) => {
            let answer = refusal_bytes::<W>(alloc, name, realm, message, &refusal)?;
            Ok(Prepared::Refused(answer))
        }
        Err(ViewError::OutOfMemory) => Err(FrontError::OutOfMemory),
    }
}
