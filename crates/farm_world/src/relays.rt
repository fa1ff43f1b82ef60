//! The relays of the farm, each at its node.

ghost use Rattle.std.specs.Prelude.{◌≡◌, IfSome, IfNone, IfOk, OnOk, None, ◌%◌, ◌^◌};
ghost use Rattle.std.specs.List.{find};
ghost use Rattle.farm_model.specs.FarmStep.{with_link_at};
ghost use Rattle.farm_base.specs.Lists.{IsFirst};
ghost use Rattle.farm_model.specs.Loss.{with_restart_of_relay};
ghost use Rattle.farm_model.specs.World.{is_relay_at, relay_at};
ghost use Rattle.farm_world.specs.RelayEvents.{RelayReacts, with_start_of_relay};
ghost use Rattle.relay_core.specs.declared.run.RelayEvent.TheVariants.{Received, Lost};

use crate::events;
use dia_avp::Wire;
use dia_base::{ConnId, NodeNo};
use dia_message::{Message, Out};
use farm_model::RelayAt;
use std::alloc::{AllocError, Global};

/// The place of the relay that is this node.
fn place_of_relay(relays: &[RelayAt], node: NodeNo) -> Option<usize>
    ensures found { IfSome result (IsFirst (is_relay_at node) relays.now) }
    ensures none { IfNone result (find (is_relay_at node) relays.now ≡ None) }
{
    relays.iter().position(|at| at.node == node)
}

/// A relay learns of a connection with a peer. Where the peer or its connection is up already, or the peer
/// is not linked, or the node is no relay, nothing happens.
pub fn connect(
    alloc: Global,
    relays: &mut Vec<RelayAt>,
    node: NodeNo,
    peer: NodeNo,
    conn: ConnId,
) -> Result<(), AllocError>
    ensures { OnOk result (relays.new.items ≡ with_link_at node peer conn relays.old.items) }
{
    let Some(place) = place_of_relay(relays, node) else {
        return Ok(());
    };
    events::up(&mut relays[place].relay, alloc, node, peer, conn)
}

/// A message comes to the relay that is this node. The answer is what it sends: nothing where there is
/// no such relay, or where it does not know the connection.
pub fn receive<W: Wire>(
    alloc: Global,
    relays: &mut Vec<RelayAt>,
    node: NodeNo,
    conn: ConnId,
    message: Message,
) -> Result<Out, AllocError>
    ensures { IfOk result (λ out. RelayReacts node (Received conn message) relays.old.items (relay_at node relays.old.items) out.items relays.new.items) }
{
    let Some(place) = place_of_relay(relays, node) else {
        return Ok(Out::nothing(alloc));
    };
    events::receive::<_, W>(&mut relays[place].relay, alloc, conn, message)
}

/// The relay that is this node learns that a connection has ended. The answer is what it sends: nothing
/// where there is no such relay, or where it does not know the connection.
pub fn conn_lost<W: Wire>(
    alloc: Global,
    relays: &mut Vec<RelayAt>,
    node: NodeNo,
    conn: ConnId,
) -> Result<Out, AllocError>
    ensures { IfOk result (λ out. RelayReacts node (Lost conn) relays.old.items (relay_at node relays.old.items) out.items relays.new.items) }
{
    let Some(place) = place_of_relay(relays, node) else {
        return Ok(Out::nothing(alloc));
    };
    events::lose::<_, W>(&mut relays[place].relay, alloc, conn)
}

/// A relay begins anew. Where the node is no relay, nothing happens.
pub fn restart(relays: &mut Vec<RelayAt>, node: NodeNo)
    ensures { relays.new.items ≡ with_restart_of_relay node relays.old.items (relay_at node relays.old.items) }
{
    if let Some(place) = place_of_relay(relays, node) {
        relays[place].relay.restart();
    }
}

/// A relay gives identifiers from another start. Where the node is no relay, nothing happens.
pub fn number_from(relays: &mut Vec<RelayAt>, node: NodeNo, start: u32)
    ensures { relays.new.items ≡ with_start_of_relay node (start % 2 ^ 31) relays.old.items (relay_at node relays.old.items) }
{
    if let Some(place) = place_of_relay(relays, node) {
        relays[place].relay.number_from(start);
    }
}
