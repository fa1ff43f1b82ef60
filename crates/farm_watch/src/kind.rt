//! What a message is to the life of a connection.

ghost use Rattle.std.specs.Prelude.{◌≡◌};
ghost use Rattle.farm_watch.specs.PeerMessages.{kind_of};

use crate::codes::{CAPABILITIES_EXCHANGE, DEVICE_WATCHDOG, DISCONNECT_PEER};
use dia_message::Header;

/// The messages between neighbours by their short names (RFC 6733, section 3.1), and all others.
#[derive(Clone, Copy, PartialEq, Eq)]
pub enum MessageKind {
    /// Capabilities-Exchange-Request.
    Cer,
    /// Capabilities-Exchange-Answer.
    Cea,
    /// Device-Watchdog-Request.
    Dwr,
    /// Device-Watchdog-Answer.
    Dwa,
    /// Disconnect-Peer-Request.
    Dpr,
    /// Disconnect-Peer-Answer.
    Dpa,
    /// A message that is the node's to read.
    Other,
}

/// What a message with this header is: the command and the flag R say it.
pub fn kind_of(header: &Header) -> MessageKind
    ensures { result ≡ kind_of header.now }
{
    match (header.command, header.request) {
        (CAPABILITIES_EXCHANGE, true) => MessageKind::Cer,
        (CAPABILITIES_EXCHANGE, false) => MessageKind::Cea,
        (DEVICE_WATCHDOG, true) => MessageKind::Dwr,
        (DEVICE_WATCHDOG, false) => MessageKind::Dwa,
        (DISCONNECT_PEER, true) => MessageKind::Dpr,
        (DISCONNECT_PEER, false) => MessageKind::Dpa,
        (_, _) => MessageKind::Other,
    }
}
