//! A relay and its events.

ghost use Rattle.std.specs.Prelude.{◌≡◌, ◌%◌, ◌^◌, IsSome, IsNone, is_some, IsOk, IfOk, IfSome, None, OnOk, OnErr, IsOkUnless, MatchOption, false, length};
ghost use Rattle.std.specs.Option.{option_copied};
ghost use Rattle.relay_peers.specs.PeerTable.{links_among, peer_in};
ghost use Rattle.relay_core.specs.Connecting.{new_relay, relay_at, up_fault, after_up, after_restart};
ghost use Rattle.relay_core.specs.Giving.{GivesOne, SendsAgain};
ghost use Rattle.relay_core.specs.AnswerMatching.{is_mismatched};
ghost use Rattle.relay_core.specs.RelayState.{peer_on, with_next};
ghost use Rattle.relay_core.specs.RelayStep.{OnMessage, asker_of};
ghost use Rattle.relay_core.specs.Failover.{OnConnLost};
ghost use Rattle.relay_core.specs.Staying.{OnConnLostAmong, OnMessageAmong};

use crate::answering::on_answer;
use crate::error::RelayError;
use crate::failover::{fail_over, failover_plan};
use crate::forwarding::on_request;
use crate::node::{RelayNode, RelaySite};
use crate::routing::Routing;
use dia_avp::Wire;
use dia_base::{ConnId, NodeNo, PENDING_LIMIT};
use dia_message::{Message, Out};
use relay_hops::Pending;
use relay_peers::{Staying, UpFault};
use std::alloc::{AllocError, Global};
use std::marker::Model;

/// A relay: itself with its peers and routes, and the requests that it has sent and that are not answered
/// (RFC 6733, section 2.8.1).
pub struct Relay {
    node: RelayNode,
    pending: Pending,
}

// By hand, so that each exit of an owner is proved with one call.
impl Drop for Relay {
    fn drop(self) {
        let Relay {
            node: _,
            pending: _,
        } = self;
    }
}

impl Model for Relay {
    ghost use Rattle.relay_core.specs.RelayState.{RelayState};

    ghost Value = { RelayState };

    ghost view = { λ r. record { node = r.node; pending = r.pending } };
}

impl Relay {
    /// A relay with no connection and nothing pending. Its identifiers rise from the first.
    pub fn new(alloc: Global, site: RelaySite) -> Result<Self, AllocError>
        ensures { IfOk result (λ relay. relay ≡ new_relay site) }
    {
        Relay::starting_at(alloc, site, 0)
    }

    /// The same, with identifiers that rise from another start (RFC 6733, section 3): its low 31 bits are the
    /// number of the first one.
    pub fn starting_at(alloc: Global, site: RelaySite, start: u32) -> Result<Self, AllocError>
        ensures { IfOk result (λ relay. relay ≡ relay_at site start) }
    {
        Ok(Relay {
            node: RelayNode::new(alloc, site),
            pending: Pending::starting_at(alloc, PENDING_LIMIT, start)?,
        })
    }

    /// Identifiers rise from another start from now on: for those who play what another relay did, which drew its
    /// own. It is no event of a run.
    pub fn number_from(&mut self, start: u32)
        ensures { self.new ≡ with_next (start % 2 ^ 31) self.old }
    {
        self.pending.number_from(start);
    }

    /// A peer's connection is made. A peer that is not linked is refused first, `UnknownPeer`, then one
    /// that is up or whose connection another peer has, `PeerUp`. A refusal leaves the relay as it was.
    pub fn conn_up(&mut self, peer: NodeNo, conn: ConnId) -> Result<(), RelayError>
        ensures answer { MatchOption (up_fault self.old peer conn) (IsOkUnless result RelayError.OutOfMemory) (λ fault. result ≡ Err fault) }
        ensures ok { OnOk result (self.new ≡ after_up self.old peer conn) }
        ensures err { OnErr result (self.new ≡ self.old) }
    {
        match self.node.peers.up(peer, conn) {
            Ok(()) => Ok(()),
            Err(UpFault::PeerUp) => Err(RelayError::PeerUp { peer }),
            Err(UpFault::UnknownPeer) => Err(RelayError::UnknownPeer { peer }),
            Err(UpFault::OutOfMemory) => Err(RelayError::OutOfMemory),
        }
    }

    /// A message came on a connection. A request is refused or forwarded (RFC 6733, section 6.1), and an
    /// answer goes back to where its request came from (section 6.2); an answer that none waits for is
    /// dropped, which takes no memory. A connection that no peer is up on is refused, `UnknownConn`. A
    /// refusal leaves the relay as it was.
    pub fn on_message<W: Wire>(
        &mut self,
        alloc: Global,
        conn: ConnId,
        message: Message,
    ) -> Result<Out, RelayError>
        ensures known { MatchOption (peer_on self.old.node conn) (result ≡ Err (RelayError.UnknownConn conn)) (λ sender. IsOkUnless result RelayError.OutOfMemory) }
        ensures ok { IfSome (peer_on self.old.node conn) (λ sender. IfOk result (λ out. OnMessage self.old conn sender.name message out.items self.new)) }
        ensures given { IfOk result (λ out. GivesOne self.old.pending out.items self.new.pending) }
        ensures dropped { IsSome (peer_on self.old.node conn) → message.header.request ≡ false → asker_of self.old.pending.rows conn message.header.hop ≡ None → IsOk result }
        ensures err { OnErr result (self.new ≡ self.old) }
    {
        self.on_message_among::<W>(alloc, None, conn, message)
    }

    /// A connection has ended: its peer is down, what came on it has nowhere to be answered to, and what
    /// was sent on it goes out again where another peer is up for it (RFC 6733, section 5.5.4). A
    /// connection that no peer is up on is refused, `UnknownConn`. A refusal leaves the relay as it was.
    pub fn conn_lost<W: Wire>(&mut self, alloc: Global, conn: ConnId) -> Result<Out, RelayError>
        ensures unknown { IsNone (peer_in self.old.node.peers.links conn) → result ≡ Err (RelayError.UnknownConn conn) }
        ensures known { IsSome (peer_in self.old.node.peers.links conn) → IsOkUnless result RelayError.OutOfMemory }
        ensures ok { IfOk result (λ out. OnConnLost self.old conn out.items self.new) }
        ensures again { IfOk result (λ out. SendsAgain self.old.pending out.items self.new.pending) }
        ensures err { OnErr result (self.new ≡ self.old) }
    {
        self.conn_lost_among::<W>(alloc, None, conn)
    }

    /// A message came on a connection, where new requests go to those peers alone that stay, if some leave. All else is
    /// as in [`Relay::on_message`]: the answers of those who leave go where they went.
    pub(crate) fn on_message_among<W: Wire>(
        &mut self,
        alloc: Global,
        staying: Option<&Staying>,
        conn: ConnId,
        message: Message,
    ) -> Result<Out, RelayError>
        ensures known { MatchOption (peer_on self.old.node conn) (result ≡ Err (RelayError.UnknownConn conn)) (λ sender. IsOkUnless result RelayError.OutOfMemory) }
        ensures ok { IfSome (peer_on self.old.node conn) (λ sender. IfOk result (λ out. OnMessageAmong (links_among (option_copied staying.entry) self.old.node.peers.links) self.old conn sender.name message out.items self.new)) }
        ensures given { IfOk result (λ out. GivesOne self.old.pending out.items self.new.pending) }
        ensures dropped { IsSome (peer_on self.old.node conn) → message.header.request ≡ false → asker_of self.old.pending.rows conn message.header.hop ≡ None → IsOk result }
        ensures err { OnErr result (self.new ≡ self.old) }
    {
        let node = &self.node;
        let Some(sender) = node.peer_on(conn) else {
            return Err(RelayError::UnknownConn { conn });
        };
        if message.header.request {
            let routing = Routing {
                node,
                links: node.peers.links_among(staying),
                ended: None,
            };
            on_request::<W>(
                alloc,
                routing,
                &mut self.pending,
                conn,
                &sender.name,
                message,
            )
        } else {
            on_answer(alloc, &mut self.pending, conn, message)
        }
    }

    /// A connection has ended, where requests go again to those peers alone that stay, if some leave. All else is as in
    /// [`Relay::conn_lost`].
    pub(crate) fn conn_lost_among<W: Wire>(
        &mut self,
        alloc: Global,
        staying: Option<&Staying>,
        lost: ConnId,
    ) -> Result<Out, RelayError>
        ensures unknown { IsNone (peer_in self.old.node.peers.links lost) → result ≡ Err (RelayError.UnknownConn lost) }
        ensures known { IsSome (peer_in self.old.node.peers.links lost) → IsOkUnless result RelayError.OutOfMemory }
        ensures ok { IfOk result (λ out. OnConnLostAmong (links_among (option_copied staying.entry) self.old.node.peers.links) self.old lost out.items self.new) }
        ensures again { IfOk result (λ out. SendsAgain self.old.pending out.items self.new.pending) }
        ensures err { OnErr result (self.new ≡ self.old) }
    {
        if self.node.peers.peer_of(lost).is_none() {
            return Err(RelayError::UnknownConn { conn: lost });
        }
        let node = &self.node;
        let routing = Routing {
            node,
            links: node.peers.links_among(staying),
            ended: Some(lost),
        };
        let plan = failover_plan::<W>(alloc, routing, &self.pending, lost)?;
        let room = Vec::with_capacity(alloc, plan.len())?;
        self.node.peers.down(lost);
        self.pending.orphan(lost);
        Ok(fail_over(&mut self.pending, lost, plan, room))
    }

    /// Why a peer does not come up on a connection, but for want of memory.
    pub(crate) fn up_fault(&self, peer: NodeNo, conn: ConnId) -> Option<RelayError>
        ensures { result ≡ up_fault self.now peer conn }
    {
        let peers = &self.node.peers;
        if peers.kind_of(peer).is_none() {
            Some(RelayError::UnknownPeer { peer })
        } else if peers.conn_of(peer).is_some() || peers.peer_of(conn).is_some() {
            Some(RelayError::PeerUp { peer })
        } else {
            None
        }
    }

    /// Whether a peer has a connection.
    pub(crate) fn has_peer_on(&self, conn: ConnId) -> bool
        ensures { result ≡ is_some (peer_in self.now.node.peers.links conn) }
    {
        self.node.peers.peer_of(conn).is_some()
    }

    /// Whether a peer is up on a connection.
    pub(crate) fn is_up_on(&self, conn: ConnId) -> bool
        ensures { result ≡ is_some (peer_on self.now.node conn) }
    {
        self.node.peer_on(conn).is_some()
    }

    /// Whether a message that came on a connection is an answer, and the request that is pending there under its
    /// Hop-by-Hop Identifier has another End-to-End Identifier. It takes no memory.
    pub(crate) fn is_mismatched(&self, conn: ConnId, message: &Message) -> bool
        ensures { result ≡ is_mismatched self.now.pending.rows conn message.now }
    {
        if message.header.request {
            return false;
        }
        match self.pending.held(conn, message.header.hop) {
            Some(held) => held.request.header.end != message.header.end,
            None => false,
        }
    }

    /// How many requests are pending: those too whose connection is gone, which wait for their answer all the same.
    pub fn pending(&self) -> usize
        ensures { result ≡ length self.now.pending.rows }
    {
        self.pending.count()
    }

    /// Everything is forgotten: no peer is up, and nothing is pending. Identifiers go on from where they were, so
    /// that a late answer matches nothing. It takes no memory.
    pub fn restart(&mut self)
        ensures { self.new ≡ after_restart self.old }
    {
        self.node.peers.all_down();
        self.pending.clear();
    }
}
