//! Laws. Each is the contract of a function without a body.

ghost use Rattle.std.specs.Prelude.{◌≡◌, List, Some};
ghost use Rattle.dia_base.specs.declared.number.Moment.{Moment};
ghost use Rattle.dia_base.specs.declared.number.NodeNo.{NodeNo};
ghost use Rattle.dia_message.specs.declared.message.Message.{Message};
ghost use Rattle.farm_connections.specs.declared.desk.Desk.{Desk};
ghost use Rattle.farm_connections.specs.declared.link.Link.{Link};
ghost use Rattle.farm_connections.specs.Desks.{IsRecordedOnly, kept_by};
ghost use Rattle.farm_connections.specs.Naming.{IsKeptOut, misnamed};
ghost use Rattle.farm_connections.specs.Turns.{AreRising, Goes, IsInTurn, Kept, Told, beginning};
ghost use Rattle.farm_watch.specs.Table.{after_message, drops};
ghost use Rattle.farm_watch.specs.declared.site.WatchSite.{WatchSite};

use farm_node::Node;

/// Whatever a process does with its connections, its node is told of each in turn: once that it is up, before anything
/// else, then its messages, and once, last, that it has ended; nothing behind that, and nothing of one that the node
/// has refused. A number is never that of two connections.
pub fn nodes_are_told_in_turn<N: Node>()
    ensures { (node : N) (told : List Told) (kept : Kept N) → Goes N.on_event (beginning node) told kept → IsInTurn told }
{}

/// Whatever a process does, its connections stand in the order of their numbers, each of which is above 0.
pub fn connections_stand_in_order<N: Node>()
    ensures { (node : N) (told : List Told) (kept : Kept N) → Goes N.on_event (beginning node) told kept → AreRising 0 kept.marks }
{}

/// What is recorded changes nothing of what a node was told, and of what is still to be told.
pub fn records_change_nothing<N, R, W>()
    ensures kept { (old new : Desk N R W) → IsRecordedOnly old new → kept_by new ≡ kept_by old }
    ensures links { (old new : Desk N R W) → IsRecordedOnly old new → new.links ≡ old.links }
{}

/// An answer that does not name the node which was connected to ends the connection, where that comes up by its own name
/// alone, and nothing is sent: the node does not come up by it.
pub fn misnamed_nodes_are_dropped<R, W>()
    ensures { (link : Link R W) (site : WatchSite) (nodes : List NodeNo) (moment : Moment) (m : Message) (node : NodeNo)
        → misnamed link site m ≡ Some node → IsKeptOut (misnamed link site m) nodes
        → after_message site nodes moment m link.watch ≡ drops link.watch }
{}
