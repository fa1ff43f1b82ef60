//! What happens to a node of the farm, be it a relay or a front, and what it sends then.

ghost use Rattle.std.specs.Prelude.{◌≡◌, ◌≢◌, IfOk, OnOk, Err};
ghost use Rattle.dia_message.specs.Traffic.{Traffic};
ghost use Rattle.farm_node.specs.Events.{NodeEvent as event};
ghost use Rattle.farm_node.specs.declared.error.NodeError.TheVariants.{OutOfMemory};
ghost use Rattle.farm_world.specs.NodeEvents.{Reacts};

use dia_avp::Wire;
use dia_base::{ConnId, NodeNo};
use dia_message::{Message, Out};
use farm_node::{Node, NodeError, Reaction};
use std::alloc::{AllocError, Global};

/// What a node has sent, unless it wants memory. One that refused the event for another reason has sent
/// nothing.
fn sent(reaction: Reaction) -> Result<Out, AllocError>
    ensures { IfOk result (λ out. (out.items ≡ reaction.out.items) × (reaction.outcome ≢ Err OutOfMemory)) }
{
    match reaction.outcome {
        Err(NodeError::OutOfMemory) => Err(AllocError),
        Ok(())
        | Err(
            NodeError::UnknownConn { .. }
            | NodeError::PeerUp { .. }
            | NodeError::UnknownPeer { .. }
            | NodeError::UnknownNode { .. }
            | NodeError::Unanswered { .. }
            | NodeError::BookFull { .. },
        ) => Ok(reaction.out),
    }
}

/// A connection of a node with a peer is up.
pub fn up<N: Node>(
    node: &mut N,
    alloc: Global,
    local: NodeNo,
    peer: NodeNo,
    conn: ConnId,
) -> Result<(), AllocError>
    ensures { OnOk result ((out : Traffic) × Reacts N.on_event node.old (event.up local peer conn) out node.new) }
{
    sent(node.on_up(alloc, local, peer, conn))?;
    Ok(())
}

/// A message comes to a node.
pub fn receive<N: Node, W: Wire>(
    node: &mut N,
    alloc: Global,
    conn: ConnId,
    message: Message,
) -> Result<Out, AllocError>
    ensures { IfOk result (λ out. Reacts N.on_event node.old (event.message conn message) out.items node.new) }
{
    sent(node.on_message::<W>(alloc, conn, message))
}

/// A connection of a node has ended.
pub fn lose<N: Node, W: Wire>(node: &mut N, alloc: Global, conn: ConnId) -> Result<Out, AllocError>
    ensures { IfOk result (λ out. Reacts N.on_event node.old (event.lost conn) out.items node.new) }
{
    sent(node.on_lost::<W>(alloc, conn))
}
