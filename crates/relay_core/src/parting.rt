//! A relay some of whose peers leave (RFC 6733, section 5.4).

ghost use Rattle.std.specs.Prelude.{◌≡◌, [], IfOk, IsOk, IsOkUnless, IsNone, IsSome, MatchOption, OnErr, OnOk, true};
ghost use Rattle.relay_peers.specs.PeerTable.{peer_in, with_staying, without_conn};
ghost use Rattle.relay_core.specs.AnswerMatching.{is_dropped, mismatched_after};
ghost use Rattle.relay_core.specs.Connecting.{after_restart, after_up, up_fault};
ghost use Rattle.relay_core.specs.Giving.{GivesOne, SendsAgain};
ghost use Rattle.relay_core.specs.PartingRun.{OnPartingStep};
ghost use Rattle.relay_core.specs.RelayState.{peer_on};
ghost use Rattle.relay_core.specs.Staying.{OnConnLostAmong};
ghost use Rattle.relay_core.specs.declared.run.RelayEvent.TheVariants.{Received};

use crate::error::RelayError;
use crate::matching::MatchingRelay;
use dia_avp::Wire;
use dia_base::{ConnId, NodeNo};
use dia_message::{Message, Out};
use relay_peers::Staying;
use std::alloc::Global;

/// A relay that matches answers its way, and those of its peers that stay. A peer that leaves has said goodbye: it gets no new
/// request, and none goes to it again. What it sends is taken until its connection ends, and its answers go where they went.
pub struct PartingRelay {
    pub matched: MatchingRelay,
    pub staying: Staying,
}

// By hand, so that each exit of an owner is proved with one call.
impl Drop for PartingRelay {
    fn drop(self) {
        let PartingRelay {
            matched: _,
            staying: _,
        } = self;
    }
}

impl PartingRelay {
    /// The same relay, of whose peers none is up yet.
    pub fn new(alloc: Global, matched: MatchingRelay) -> Self
        ensures { result ≡ record { matched = matched; staying = [] } }
    {
        PartingRelay {
            matched,
            staying: Staying::nobody(alloc),
        }
    }

    /// A peer's connection is made, as in [`Relay::conn_up`](crate::Relay::conn_up): it stays. A refusal leaves all as it was.
    pub fn conn_up(&mut self, alloc: Global, peer: NodeNo, conn: ConnId) -> Result<(), RelayError>
        ensures answer { MatchOption (up_fault self.old.matched.relay peer conn) (IsOkUnless result RelayError.OutOfMemory) (λ fault. result ≡ Err fault) }
        ensures ok { OnOk result (self.new ≡ record { matched = record self.old.matched { relay = after_up self.old.matched.relay peer conn }; staying = with_staying self.old.staying peer conn }) }
        ensures err { OnErr result (self.new ≡ self.old) }
    {
        if let Some(fault) = self.matched.relay.up_fault(peer, conn) {
            return Err(fault);
        }
        let staying = self.staying.with(alloc, peer, conn)?;
        self.matched.relay.conn_up(peer, conn)?;
        self.staying = staying;
        Ok(())
    }

    /// A message came on a connection, as in [`MatchingRelay::on_message`], but that a new request goes to those peers alone
    /// that stay. A refusal leaves all as it was.
    pub fn on_message<W: Wire>(
        &mut self,
        alloc: Global,
        conn: ConnId,
        message: Message,
    ) -> Result<Out, RelayError>
        ensures known { MatchOption (peer_on self.old.matched.relay.node conn) (result ≡ Err (RelayError.UnknownConn conn)) (λ sender. IsOkUnless result RelayError.OutOfMemory) }
        ensures ok { IfOk result (λ out. OnPartingStep self.old.matched.matching self.old.staying self.old.matched.relay (Received conn message) out.items self.new.matched.relay) }
        ensures given { IfOk result (λ out. GivesOne self.old.matched.relay.pending out.items self.new.matched.relay.pending) }
        ensures dropped { is_dropped self.old.matched.matching self.old.matched.relay conn message ≡ true → IsOk result }
        ensures counted { self.new ≡ record self.old { matched = record { relay = self.new.matched.relay; matching = self.old.matched.matching; mismatched = mismatched_after (is_dropped self.old.matched.matching self.old.matched.relay conn message) self.old.matched.mismatched } } }
        ensures err { OnErr result (self.new ≡ self.old) }
    {
        if self.matched.drops(conn, &message) {
            self.matched.mismatched = self.matched.mismatched.saturating_add(1);
            return Ok(Out::nothing(alloc));
        }
        self.matched
            .relay
            .on_message_among::<W>(alloc, Some(&self.staying), conn, message)
    }

    /// A peer says goodbye on its connection: it stays no more. Nothing is sent, and what is pending there stays. A connection
    /// that no peer has is refused, `UnknownConn`. It takes no memory.
    pub fn leaves(&mut self, conn: ConnId) -> Result<(), RelayError>
        ensures unknown { IsNone (peer_in self.old.matched.relay.node.peers.links conn) → (result ≡ Err (RelayError.UnknownConn conn)) × (self.new ≡ self.old) }
        ensures known { IsSome (peer_in self.old.matched.relay.node.peers.links conn) → (result ≡ Ok tt) × (self.new ≡ record self.old { staying = without_conn self.old.staying conn }) }
    {
        if !self.matched.relay.has_peer_on(conn) {
            return Err(RelayError::UnknownConn { conn });
        }
        self.staying.leave(conn);
        Ok(())
    }

    /// A connection has ended, as in [`Relay::conn_lost`](crate::Relay::conn_lost), but that what was sent on it goes again to
    /// those peers alone that stay. A refusal leaves all as it was.
    pub fn conn_lost<W: Wire>(&mut self, alloc: Global, conn: ConnId) -> Result<Out, RelayError>
        ensures unknown { IsNone (peer_in self.old.matched.relay.node.peers.links conn) → result ≡ Err (RelayError.UnknownConn conn) }
        ensures known { IsSome (peer_in self.old.matched.relay.node.peers.links conn) → IsOkUnless result RelayError.OutOfMemory }
        ensures ok { IfOk result (λ out. OnConnLostAmong self.old.staying self.old.matched.relay conn out.items self.new.matched.relay) }
        ensures again { IfOk result (λ out. SendsAgain self.old.matched.relay.pending out.items self.new.matched.relay.pending) }
        ensures left { OnOk result (self.new ≡ record { matched = record self.old.matched { relay = self.new.matched.relay }; staying = without_conn self.old.staying conn }) }
        ensures err { OnErr result (self.new ≡ self.old) }
    {
        let out = self
            .matched
            .relay
            .conn_lost_among::<W>(alloc, Some(&self.staying), conn)?;
        self.staying.leave(conn);
        Ok(out)
    }

    /// Everything is forgotten, as in [`Relay::restart`](crate::Relay::restart). It takes no memory.
    pub fn restart(&mut self)
        ensures { self.new ≡ record { matched = record self.old.matched { relay = after_restart self.old.matched.relay }; staying = [] } }
    {
        self.matched.relay.restart();
        self.staying.all_leave();
    }
}
