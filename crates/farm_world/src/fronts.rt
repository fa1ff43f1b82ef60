//! The fronts of the farm, each at its node.

ghost use Rattle.std.specs.Prelude.{◌≡◌, IfSome, IfNone, OnOk, None};
ghost use Rattle.std.specs.List.{find};
ghost use Rattle.farm_model.specs.FarmStep.{with_connection_at};
ghost use Rattle.farm_base.specs.Lists.{IsFirst};
ghost use Rattle.farm_model.specs.Loss.{with_restart_of_front};
ghost use Rattle.farm_model.specs.World.{is_front_at, front_at};

use crate::events;
use dia_base::{ConnId, NodeNo};
use farm_model::FrontAt;
use std::alloc::{AllocError, Global};

/// The place of the front that is this node.
pub fn place_of_front(fronts: &[FrontAt], node: NodeNo) -> Option<usize>
    ensures found { IfSome result (IsFirst (is_front_at node) fronts.now) }
    ensures none { IfNone result (find (is_front_at node) fronts.now ≡ None) }
{
    fronts.iter().position(|at| at.node == node)
}

/// A front learns of a connection with a peer. Where the node is no front, nothing happens.
pub fn connect(
    alloc: Global,
    fronts: &mut Vec<FrontAt>,
    node: NodeNo,
    peer: NodeNo,
    conn: ConnId,
) -> Result<(), AllocError>
    ensures { OnOk result (fronts.new.items ≡ with_connection_at node conn fronts.old.items) }
{
    let Some(place) = place_of_front(fronts, node) else {
        return Ok(());
    };
    events::up(&mut fronts[place].front, alloc, node, peer, conn)
}

/// A front begins anew. Where the node is no front, nothing happens.
pub fn restart(fronts: &mut Vec<FrontAt>, node: NodeNo)
    ensures { fronts.new.items ≡ with_restart_of_front node fronts.old.items (front_at node fronts.old.items) }
{
    if let Some(place) = place_of_front(fronts, node) {
        fronts[place].front.restart();
    }
}
