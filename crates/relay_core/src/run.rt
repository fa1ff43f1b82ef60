//! A relay over a list of events.

ghost use Rattle.std.specs.Prelude.{◌≡◌, ◌≢◌, [], List, IfOk, IsOkUnless};
ghost use Rattle.relay_core.specs.Connecting.{new_relay};
ghost use Rattle.relay_core.specs.Giving.{GivesAt, GivesRising};
ghost use Rattle.relay_core.specs.Promise.{KeepsPromise};
ghost use Rattle.relay_core.specs.RelayRun.{OnEvent, IsRun, RelayStep};
ghost use Rattle.relay_core.specs.RelayState.{RelayState};

use crate::error::RelayError;
use crate::node::RelaySite;
use crate::relay::Relay;
use dia_avp::Wire;
use dia_base::{ConnId, NodeNo};
use dia_message::{Message, Out};
use std::alloc::Global;

/// What happens to a relay.
#[derive(Drop)]
pub enum RelayEvent {
    /// A peer's connection is made.
    Up { peer: NodeNo, conn: ConnId },
    /// A message came on a connection.
    Received { conn: ConnId, message: Message },
    /// A connection has ended.
    Lost { conn: ConnId },
    /// The relay begins anew.
    Restart,
}

impl Relay {
    /// The events one after the other, at a relay of this site with no connection, with what is sent at
    /// each: nothing where its call is refused. Want of memory ends it.
    ///
    /// Over any list of events the relay keeps its promise: each request that it sends descends from one
    /// that came, and has T set if it was sent before; it sends again, or gives up, only what it had sent on a
    /// connection that has just ended, unanswered until then, and each such request at most once; each answer
    /// that goes back is to a request not answered before, and goes to the connection of that with its
    /// identifier, otherwise unchanged, and no more answers go there than requests came; each request from a
    /// peer that is up is answered at once or waits for its answer, which only the end of its connection or a
    /// restart forgets; an identifier in use on a connection is given to no other request; and a request in
    /// which the relay finds itself is answered DIAMETER_LOOP_DETECTED, and nothing else happens.
    ///
    /// Its identifiers rise: each has the highest bit, and of two requests that go out new under one identifier at
    /// least 2^30 others went out new between them, whatever is pending, and though connections ended or the relay
    /// was restarted. So an answer that comes again reaches no other request until 2^30 more went out since its
    /// identifier was given.
    pub fn run<W: Wire>(
        alloc: Global,
        site: &RelaySite,
        events: &[RelayEvent],
    ) -> Result<Vec<Out>, RelayError>
        ensures run { IfOk result (λ outs. (past : List RelayStep) × (last : RelayState) × IsRun (new_relay site.now) events.now outs.items past last × KeepsPromise site.now.name site.now.realm past × GivesRising past) }
        ensures memory { IsOkUnless result RelayError.OutOfMemory }
    {
        let mut relay = Relay::new(alloc, site.copied(alloc)?)?;
        let mut outs = Vec::new(alloc);
        for event in events {
            let out = on_event::<W>(&mut relay, alloc, event)?;
            outs.push(out)?;
        }
        Ok(outs)
    }
}

pub(crate) fn on_event<W: Wire>(
    relay: &mut Relay,
    alloc: Global,
    event: &RelayEvent,
) -> Result<Out, RelayError>
    ensures ok { IfOk result (λ out. OnEvent relay.old event.now out.items relay.new) }
    ensures given { IfOk result (λ out. GivesAt event.now relay.old.pending out.items relay.new.pending) }
    ensures memory { IsOkUnless result RelayError.OutOfMemory }
{
    match event {
        RelayEvent::Up { peer, conn } => on_up(relay, alloc, *peer, *conn),
        RelayEvent::Received { conn, message } => on_received::<W>(relay, alloc, *conn, message),
        RelayEvent::Lost { conn } => on_lost::<W>(relay, alloc, *conn),
        RelayEvent::Restart => {
            relay.restart();
            Ok(Out::nothing(alloc))
        }
    }
}

fn on_up(relay: &mut Relay, alloc: Global, peer: NodeNo, conn: ConnId) -> Result<Out, RelayError>
    ensures ok { IfOk result (λ out. OnEvent relay.old (RelayEvent.Up peer conn) out.items relay.new) }
    ensures given { IfOk result (λ out. GivesAt (RelayEvent.Up peer conn) relay.old.pending out.items relay.new.pending) }
    ensures memory { IsOkUnless result RelayError.OutOfMemory }
{
    match relay.conn_up(peer, conn) {
        Ok(()) => Ok(Out::nothing(alloc)),
        Err(fault) => nothing_unless_memory(alloc, fault),
    }
}

fn on_received<W: Wire>(
    relay: &mut Relay,
    alloc: Global,
    conn: ConnId,
    message: &Message,
) -> Result<Out, RelayError>
    ensures ok { IfOk result (λ out. OnEvent relay.old (RelayEvent.Received conn message.now) out.items relay.new) }
    ensures given { IfOk result (λ out. GivesAt (RelayEvent.Received conn message.now) relay.old.pending out.items relay.new.pending) }
    ensures memory { IsOkUnless result RelayError.OutOfMemory }
{
    let message = message.clone()?;
    match relay.on_message::<W>(alloc, conn, message) {
        Ok(out) => Ok(out),
        Err(fault) => nothing_unless_memory(alloc, fault),
    }
}

fn on_lost<W: Wire>(relay: &mut Relay, alloc: Global, conn: ConnId) -> Result<Out, RelayError>
    ensures ok { IfOk result (λ out. OnEvent relay.old (RelayEvent.Lost conn) out.items relay.new) }
    ensures given { IfOk result (λ out. GivesAt (RelayEvent.Lost conn) relay.old.pending out.items relay.new.pending) }
    ensures memory { IsOkUnless result RelayError.OutOfMemory }
{
    match relay.conn_lost::<W>(alloc, conn) {
        Ok(out) => Ok(out),
        Err(fault) => nothing_unless_memory(alloc, fault),
    }
}

/// What is sent where a call is refused for another reason than memory.
pub(crate) fn nothing_unless_memory(alloc: Global, fault: RelayError) -> Result<Out, RelayError>
    ensures refused { IfOk result (λ out. (out.items ≡ []) × (fault ≢ RelayError.OutOfMemory)) }
    ensures memory { IsOkUnless result RelayError.OutOfMemory }
{
    match fault {
        RelayError::OutOfMemory => Err(RelayError::OutOfMemory),
        RelayError::UnknownConn { .. }
        | RelayError::PeerUp { .. }
        | RelayError::UnknownPeer { .. } => Ok(Out::nothing(alloc)),
    }
}
