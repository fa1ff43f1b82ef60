//! What is kept of one request.

ghost use Rattle.std.specs.Prelude.{◌≡◌};
ghost use Rattle.relay_hops.specs.PendingTable.{has_key, is_sent_on, orphaned, resent, under};

use dia_base::ConnId;
use dia_message::Message;

/// A Hop-by-Hop Identifier: of two requests that are pending on one connection each has its own.
pub type Hop = u32;

/// Where a request came from, and under which identifier.
#[derive(Clone, Copy, Debug, PartialEq, Eq)]
pub struct Origin {
    pub conn: ConnId,
    pub hop: Hop,
}

/// What is kept of a pending request.
#[derive(Clone, Debug, PartialEq, Eq, Drop)]
pub struct Held {
    /// Where the answer goes: nowhere once that connection has ended.
    pub origin: Option<Origin>,
    /// The request as it was sent, under its own identifier.
    pub request: Message,
}

/// A pending request: the connection on which it was sent, and what is kept of it. Its identifier is
/// that of the request as it was sent.
#[derive(Clone, Debug, PartialEq, Eq, Drop)]
pub struct Row {
    pub conn: ConnId,
    pub held: Held,
}

impl Row {
    /// What is kept of a request that goes out on a connection under an identifier.
    pub(crate) fn new(conn: ConnId, hop: Hop, origin: Option<Origin>, request: Message) -> Row
        ensures { result ≡ record { conn = conn; held = record { origin = origin; request = under hop request } } }
    {
        let mut request = request;
        request.header.hop = hop;
        Row {
            conn,
            held: Held { origin, request },
        }
    }

    /// Whether the request was sent on the connection under the identifier.
    pub(crate) fn has_key(&self, conn: ConnId, hop: Hop) -> bool
        ensures { result ≡ has_key conn hop self.now }
    {
        self.is_sent_on(conn) && self.hop() == hop
    }

    /// Whether the request was sent on the connection.
    pub(crate) fn is_sent_on(&self, conn: ConnId) -> bool
        ensures { result ≡ is_sent_on conn self.now }
    {
        self.conn == conn
    }

    /// The identifier under which the request was sent.
    pub(crate) fn hop(&self) -> Hop
        ensures { result ≡ self.now.held.request.header.hop }
    {
        self.held.request.header.hop
    }

    /// The connection on which the request came has ended, if it is this one.
    pub(crate) fn lose_origin(&mut self, conn: ConnId)
        ensures { self.new ≡ orphaned conn self.old }
    {
        if self.held.origin.is_some_and(|origin| origin.conn == conn) {
            self.held.origin = None;
        }
    }

    /// The request goes out again: on another connection, under another identifier, with T set.
    pub(crate) fn resend(&mut self, conn: ConnId, hop: Hop)
        ensures { self.new ≡ resent conn hop self.old }
    {
        self.conn = conn;
        self.held.request.header.hop = hop;
        self.held.request.header.resent = true;
    }
}
