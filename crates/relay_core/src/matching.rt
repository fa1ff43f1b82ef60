//! A relay that compares End-to-End Identifiers too, or does not (RFC 6733, sections 3 and 6.2).

ghost use Rattle.std.specs.Prelude.{◌≡◌, IfOk, IsOk, IsOkUnless, MatchOption, OnErr, false, true};
ghost use Rattle.relay_core.specs.Giving.{GivesOne};
ghost use Rattle.relay_core.specs.AnswerMatching.{OnMatchedEvent, compares_end, is_dropped, mismatched_after};
ghost use Rattle.relay_core.specs.RelayState.{peer_on};
ghost use Rattle.relay_core.specs.declared.run.RelayEvent.TheVariants.{Received};

use crate::error::RelayError;
use crate::relay::Relay;
use dia_avp::Wire;
use dia_base::ConnId;
use dia_message::{Message, Out};
use std::alloc::Global;

/// By which identifiers of its header, on its connection, a relay matches an answer with the request that it answers.
#[derive(Clone, Copy, PartialEq, Eq)]
pub enum Matching {
    /// By the Hop-by-Hop Identifier alone (RFC 6733, section 6.2.1).
    HopByHop,
    /// By the End-to-End Identifier too, which an answer has from its request (section 3). It is unique for each origin
    /// alone: two clients may choose the same one. So it is a second guard, and never the first.
    EndToEnd,
}

impl Matching {
    /// Whether End-to-End Identifiers are compared.
    pub fn compares_end(self) -> bool
        ensures { result ≡ compares_end self }
    {
        match self {
            Matching::HopByHop => false,
            Matching::EndToEnd => true,
        }
    }
}

/// A relay, and by which identifiers it matches answers. Only its `on_message` is another one than that of the relay.
pub struct MatchingRelay {
    pub relay: Relay,
    pub matching: Matching,
    /// How many answers were dropped, since the request that was pending under their Hop-by-Hop Identifier had another
    /// End-to-End Identifier. At the greatest number the count stays.
    pub mismatched: u64,
}

// By hand, so that each exit of an owner is proved with one call.
impl Drop for MatchingRelay {
    fn drop(self) {
        let MatchingRelay {
            relay: _,
            matching: _,
            mismatched: _,
        } = self;
    }
}

impl MatchingRelay {
    /// A relay that matches so, and has dropped no answer.
    pub fn new(relay: Relay, matching: Matching) -> Self
        ensures { result ≡ record { relay = relay; matching = matching; mismatched = 0 } }
    {
        MatchingRelay {
            relay,
            matching,
            mismatched: 0,
        }
    }

    /// Whether a message is dropped that came on a connection. It takes no memory.
    pub(crate) fn drops(&self, conn: ConnId, message: &Message) -> bool
        ensures { result ≡ is_dropped self.now.matching self.now.relay conn message.now }
    {
        self.matching.compares_end()
            && self.relay.is_up_on(conn)
            && self.relay.is_mismatched(conn, message)
    }

    /// A message came on a connection. Where End-to-End Identifiers are compared, an answer is dropped and counted that
    /// has another one than the request which is pending on its connection under its Hop-by-Hop Identifier: nothing is
    /// sent, the request stays pending, and it takes no memory. With every other message the relay does what
    /// [`Relay::on_message`] does. A refusal leaves all as it was.
    pub fn on_message<W: Wire>(
        &mut self,
        alloc: Global,
        conn: ConnId,
        message: Message,
    ) -> Result<Out, RelayError>
        ensures known { MatchOption (peer_on self.old.relay.node conn) (result ≡ Err (RelayError.UnknownConn conn)) (λ sender. IsOkUnless result RelayError.OutOfMemory) }
        ensures ok { IfOk result (λ out. OnMatchedEvent self.old.matching self.old.relay (Received conn message) out.items self.new.relay) }
        ensures given { IfOk result (λ out. GivesOne self.old.relay.pending out.items self.new.relay.pending) }
        ensures dropped { is_dropped self.old.matching self.old.relay conn message ≡ true → IsOk result }
        ensures counted { self.new ≡ record { relay = self.new.relay; matching = self.old.matching; mismatched = mismatched_after (is_dropped self.old.matching self.old.relay conn message) self.old.mismatched } }
        ensures err { OnErr result (self.new ≡ self.old) }
    {
        if self.drops(conn, &message) {
            self.mismatched = self.mismatched.saturating_add(1);
            return Ok(Out::nothing(alloc));
        }
        self.relay.on_message::<W>(alloc, conn, message)
    }
}
