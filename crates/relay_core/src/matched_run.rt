//! A relay that compares End-to-End Identifiers, or does not, over a list of events.

ghost use Rattle.std.specs.Prelude.{◌≡◌, List, IfOk, IsOkUnless};
ghost use Rattle.relay_core.specs.Connecting.{new_relay};
ghost use Rattle.relay_core.specs.Giving.{GivesAt, GivesRising};
ghost use Rattle.relay_core.specs.MatchedRun.{IsMatchedRun, MatchesEnds};
ghost use Rattle.relay_core.specs.AnswerMatching.{OnMatchedEvent};
ghost use Rattle.relay_core.specs.Promise.{KeepsPromise};
ghost use Rattle.relay_core.specs.RelayRun.{RelayStep};
ghost use Rattle.relay_core.specs.RelayState.{RelayState};
ghost use Rattle.relay_core.specs.declared.run.RelayEvent.TheVariants.{Received};

use crate::error::RelayError;
use crate::matching::{Matching, MatchingRelay};
use crate::node::RelaySite;
use crate::relay::Relay;
use crate::run::{RelayEvent, nothing_unless_memory, on_event};
use dia_avp::Wire;
use dia_base::ConnId;
use dia_message::{Message, Out};
use std::alloc::Global;

impl MatchingRelay {
    /// The events one after the other, as [`Relay::run`], at a relay that matches answers so.
    ///
    /// An answer that it drops changes nothing and sends nothing. Over all other events, whatever was dropped between
    /// them, it keeps the promise of every relay, and its identifiers rise. Where it compares End-to-End Identifiers,
    /// each answer that goes back has that of the request under whose Hop-by-Hop Identifier it came, and goes to the
    /// connection on which that request came, with that End-to-End Identifier.
    pub fn run<W: Wire>(
        alloc: Global,
        site: &RelaySite,
        matching: Matching,
        events: &[RelayEvent],
    ) -> Result<Vec<Out>, RelayError>
        ensures run { IfOk result (λ outs. (past : List RelayStep) × (last : RelayState) × IsMatchedRun matching (new_relay site.now) events.now outs.items past last × KeepsPromise site.now.name site.now.realm past × GivesRising past × MatchesEnds matching past) }
        ensures memory { IsOkUnless result RelayError.OutOfMemory }
    {
        let mut relay = MatchingRelay::new(Relay::new(alloc, site.copied(alloc)?)?, matching);
        let mut outs = Vec::new(alloc);
        for event in events {
            let out = relay.on_event::<W>(alloc, event)?;
            outs.push(out)?;
        }
        Ok(outs)
    }

    fn on_event<W: Wire>(&mut self, alloc: Global, event: &RelayEvent) -> Result<Out, RelayError>
        ensures ok { IfOk result (λ out. OnMatchedEvent self.old.matching self.old.relay event.now out.items self.new.relay) }
        ensures given { IfOk result (λ out. GivesAt event.now self.old.relay.pending out.items self.new.relay.pending) }
        ensures matching { self.new.matching ≡ self.old.matching }
        ensures memory { IsOkUnless result RelayError.OutOfMemory }
    {
        match event {
            RelayEvent::Received { conn, message } => self.on_received::<W>(alloc, *conn, message),
            RelayEvent::Up { .. } | RelayEvent::Lost { .. } | RelayEvent::Restart => {
                on_event::<W>(&mut self.relay, alloc, event)
            }
        }
    }

    fn on_received<W: Wire>(
        &mut self,
        alloc: Global,
        conn: ConnId,
        message: &Message,
    ) -> Result<Out, RelayError>
        ensures ok { IfOk result (λ out. OnMatchedEvent self.old.matching self.old.relay (Received conn message.now) out.items self.new.relay) }
        ensures given { IfOk result (λ out. GivesAt (Received conn message.now) self.old.relay.pending out.items self.new.relay.pending) }
        ensures matching { self.new.matching ≡ self.old.matching }
        ensures memory { IsOkUnless result RelayError.OutOfMemory }
    {
        let message = message.clone()?;
        match self.on_message::<W>(alloc, conn, message) {
            Ok(out) => Ok(out),
            Err(fault) => nothing_unless_memory(alloc, fault),
        }
    }
}
