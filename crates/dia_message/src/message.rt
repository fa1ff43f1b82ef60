//! Messages, and what a node sends.

ghost use Rattle.std.specs.Prelude.{◌≡◌, [], ◌∷◌, IfOk};
ghost use Rattle.dia_message.specs.Spelling.{octets_of};

use crate::header::{HEADER_LEN, Header, write_header};
use dia_avp::Octets;
use dia_base::{ConnId, Listing};
use std::alloc::{AllocError, Global};

/// A message: its header, and its AVPs as octets.
#[derive(Clone, Debug, PartialEq, Eq, Drop)]
pub struct Message {
    /// All of the header but the version and the length.
    pub header: Header,
    /// The AVPs, as they stand behind the header.
    pub body: Octets,
}

/// What a node sends for one event: messages and the connections that they go out on, in order.
#[derive(Drop)]
pub struct Out {
    /// Each message with its connection.
    pub items: Listing<(ConnId, Message)>,
}

impl Out {
    /// No messages, which takes no memory.
    pub fn nothing(alloc: Global) -> Self
        ensures { result.items ≡ [] }
    {
        Out {
            items: Listing::empty(alloc),
        }
    }

    /// One message, and the connection that it goes out on.
    pub fn of_one(alloc: Global, conn: ConnId, message: Message) -> Result<Self, AllocError>
        ensures { IfOk result (λ out. out.items ≡ (conn, message) ∷ []) }
    {
        let mut items = Listing::empty(alloc);
        items.push((conn, message))?;
        Ok(Out { items })
    }
}

/// The octets of a message (RFC 6733, section 3). The Message Length is that of header and body, of
/// which the low 24 bits are written.
#[tactic(auto, unfolding(crate::specs::Spelling::octets_of))]
pub fn spell_message(alloc: Global, message: &Message) -> Result<Vec<u8>, AllocError>
    ensures { IfOk result (λ octets. octets.items ≡ octets_of message.now) }
{
    let body = message.body.as_slice();
    let mut octets = Vec::new(alloc);
    let length = body.len().saturating_add(HEADER_LEN) & 0x00ff_ffff;
    octets.extend_from_slice(&write_header(&message.header, length as u32))?;
    octets.extend_from_slice(body)?;
    Ok(octets)
}
