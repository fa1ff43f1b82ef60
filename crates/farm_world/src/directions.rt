//! What is in flight: for each connection the directions to those of its nodes that have not dropped it,
//! each with its list.

ghost use Rattle.std.specs.Prelude.{◌≡◌, ◌<◌, ◌++◌, ◌∷◌, [], not, filter, map, length, None, IfSome, IfNone, OnOk, OnErr, slice_get, remove};
ghost use Rattle.std.specs.List.{find, list_any};
ghost use Rattle.farm_model.specs.FarmStep.{IsRemoved, empty_direction, flight_at, loss_at};
ghost use Rattle.farm_base.specs.Lists.{IsFirst};
ghost use Rattle.farm_base.specs.Nodes.{is_node};
ghost use Rattle.farm_model.specs.World.{is_between, is_heard, is_unheard, is_outward, is_inward, is_connected, knows, conn_known, without_end, emptied, with_message, with_message_from, with_traffic_from};

use dia_base::{ConnId, Listing, NodeNo};
use dia_message::{Message, Out};
use farm_model::Direction;
use std::alloc::{AllocError, Global};

/// A direction with nothing in flight, to a node that knows the connection, or does not yet.
pub fn empty_direction(
    alloc: Global,
    conn: ConnId,
    from: NodeNo,
    to: NodeNo,
    known: bool,
) -> Direction
    ensures { result ≡ empty_direction conn from to known }
{
    Direction {
        conn,
        from,
        to,
        known,
        messages: Listing::empty(alloc),
    }
}

fn is_between(direction: &Direction, from: NodeNo, to: NodeNo) -> bool
    ensures { result ≡ is_between from to direction.now }
{
    direction.from == from && direction.to == to
}

/// Whether the node that it goes to knows the connection.
fn is_heard(direction: &Direction, from: NodeNo, to: NodeNo) -> bool
    ensures { result ≡ is_heard from to direction.now }
{
    is_between(direction, from, to) && direction.known
}

/// Whether it does not know it yet.
fn is_unheard(direction: &Direction, from: NodeNo, to: NodeNo) -> bool
    ensures { result ≡ is_unheard from to direction.now }
{
    is_between(direction, from, to) && !direction.known
}

fn is_outward(direction: &Direction, node: NodeNo, conn: ConnId) -> bool
    ensures { result ≡ is_outward node conn direction.now }
{
    direction.from == node && direction.conn == conn
}

fn goes(directions: &[Direction], from: NodeNo, to: NodeNo) -> bool
    ensures { result ≡ list_any (is_between from to) directions.now }
{
    directions
        .iter()
        .any(|direction| is_between(direction, from, to))
}

/// Whether two nodes have a connection, which one of them at least has not dropped.
pub fn is_connected(directions: &[Direction], a: NodeNo, b: NodeNo) -> bool
    ensures { result ≡ is_connected directions.now a b }
{
    goes(directions, a, b) || goes(directions, b, a)
}

/// Whether a node knows a connection with another one.
pub fn knows(directions: &[Direction], a: NodeNo, b: NodeNo) -> bool
    ensures { result ≡ knows directions.now a b }
{
    directions.iter().any(|direction| is_heard(direction, b, a))
}

/// The place of the direction from one node to another.
pub fn place_between(directions: &[Direction], from: NodeNo, to: NodeNo) -> Option<usize>
    ensures found { IfSome result (IsFirst (is_between from to) directions.now) }
    ensures none { IfNone result (find (is_between from to) directions.now ≡ None) }
{
    directions
        .iter()
        .position(|direction| is_between(direction, from, to))
}

/// The place of the direction from one node to another, which knows the connection.
fn place_heard(directions: &[Direction], from: NodeNo, to: NodeNo) -> Option<usize>
    ensures found { IfSome result (IsFirst (is_heard from to) directions.now) }
    ensures none { IfNone result (find (is_heard from to) directions.now ≡ None) }
{
    directions
        .iter()
        .position(|direction| is_heard(direction, from, to))
}

/// The place of the direction from one node to another, which does not know the connection yet.
pub fn place_unheard(directions: &[Direction], from: NodeNo, to: NodeNo) -> Option<usize>
    ensures found { IfSome result (IsFirst (is_unheard from to) directions.now) }
    ensures none { IfNone result (find (is_unheard from to) directions.now ≡ None) }
{
    directions
        .iter()
        .position(|direction| is_unheard(direction, from, to))
}

/// The connection with another node that a node knows.
pub fn conn_known(directions: &[Direction], a: NodeNo, b: NodeNo) -> Option<ConnId>
    ensures { result ≡ conn_known directions.now a b }
{
    let place = place_heard(directions, b, a)?;
    Some(directions[place].conn)
}

/// The place of the direction in which a node's messages on a connection go.
fn place_outward(directions: &[Direction], node: NodeNo, conn: ConnId) -> Option<usize>
    ensures found { IfSome result (IsFirst (is_outward node conn) directions.now) }
    ensures none { IfNone result (find (is_outward node conn) directions.now ≡ None) }
{
    directions
        .iter()
        .position(|direction| is_outward(direction, node, conn))
}

/// A message joins the end of a direction's list. An error leaves the direction as it was.
fn put(direction: &mut Direction, message: Message) -> Result<(), AllocError>
    ensures ok { OnOk result (direction.new ≡ with_message message direction.old) }
    ensures err { OnErr result (direction.new ≡ direction.old) }
{
    direction.messages.push(message)
}

/// A message that a node sends on a connection joins the end of its list. Where there is no direction for
/// it any more, it is lost. An error leaves the lists as they were.
pub fn post_one(
    directions: &mut Vec<Direction>,
    node: NodeNo,
    conn: ConnId,
    message: Message,
) -> Result<(), AllocError>
    ensures { OnOk result (directions.new.items ≡ with_message_from node directions.old.items conn message) }
{
    if let Some(place) = place_outward(directions, node, conn) {
        put(&mut directions[place], message)?;
    }
    Ok(())
}

/// What a node sends joins the ends of the lists, one message after the other. A message on a
/// connection that is gone is lost. After an error nothing is known of the lists.
pub fn post(directions: &mut Vec<Direction>, node: NodeNo, out: Out) -> Result<(), AllocError>
    ensures { OnOk result (directions.new.items ≡ with_traffic_from node directions.old.items out.items) }
{
    for (conn, message) in out.items.into_vec() {
        post_one(directions, node, conn, message)?;
    }
    Ok(())
}

/// The message at this place of a direction leaves its list.
fn remove_at(direction: &mut Direction, place: usize) -> Message
    requires { place < length direction.old.messages }
    ensures message { slice_get direction.old.messages place ≡ Some result }
    ensures left { direction.new ≡ record direction.old { messages = remove direction.old.messages place } }
{
    direction.messages.remove(place)
}

/// The message at this place of those in flight from one node to the other, which knows the connection,
/// leaves its list. Where there is none, nothing changes.
pub fn remove_message(
    directions: &mut Vec<Direction>,
    from: NodeNo,
    to: NodeNo,
    place: u64,
) -> Option<(ConnId, Message)>
    ensures { IsRemoved (flight_at directions.old.items from to place) result directions.old.items directions.new.items }
{
    let at = place_heard(directions, from, to)?;
    if place >= directions[at].messages.len() as u64 {
        return None;
    }
    let direction = &mut directions[at];
    Some((direction.conn, remove_at(direction, place as usize)))
}

/// The same, whether the other node knows the connection or not.
pub fn remove_lost(
    directions: &mut Vec<Direction>,
    from: NodeNo,
    to: NodeNo,
    place: u64,
) -> Option<(ConnId, Message)>
    ensures { IsRemoved (loss_at directions.old.items from to place) result directions.old.items directions.new.items }
{
    let at = place_between(directions, from, to)?;
    if place >= directions[at].messages.len() as u64 {
        return None;
    }
    let direction = &mut directions[at];
    Some((direction.conn, remove_at(direction, place as usize)))
}

/// All that is in flight between two nodes is lost, and their directions stand on. It takes no memory.
pub fn lose_all(alloc: Global, directions: &mut [Direction], a: NodeNo, b: NodeNo)
    ensures { directions.new ≡ map (emptied a b) directions.old }
{
    for direction in directions.iter_mut() {
        empty_between(alloc, direction, a, b);
    }
}

fn empty_between(alloc: Global, direction: &mut Direction, a: NodeNo, b: NodeNo)
    ensures { direction.new ≡ emptied a b direction.old }
{
    if is_between(direction, a, b) || is_between(direction, b, a) {
        direction.messages = Listing::empty(alloc);
    }
}

/// The end of a node on a connection is gone, with all that is in flight to it. It takes no memory.
pub fn remove_end(directions: &mut Vec<Direction>, node: NodeNo, conn: ConnId)
    ensures { directions.new.items ≡ without_end node conn directions.old.items }
{
    directions.retain(|direction| direction.to.0 != node.0 || direction.conn.0 != conn.0);
}

/// All ends of a node are gone, with all that is in flight to it. It takes no memory.
pub fn remove_ends(directions: &mut Vec<Direction>, node: NodeNo)
    ensures { directions.new.items ≡ filter (λ direction. not (is_node direction.to node)) directions.old.items }
{
    directions.retain(|direction| direction.to.0 != node.0);
}
