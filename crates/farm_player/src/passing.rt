//! The messages that pass between a node and its peers in a run.

ghost use Rattle.std.specs.Prelude.{◌≡◌, [], ◌∷◌, ◌++◌, None, IfSome, IfNone, option_map, if◌then◌else◌};
ghost use Rattle.std.specs.List.{find};
ghost use Rattle.farm_base.specs.Lists.{IsFirst};
ghost use Rattle.farm_model.specs.FarmStep.{flight_at};
ghost use Rattle.farm_model.specs.World.{is_heard};
ghost use Rattle.farm_player.specs.Passing.{passage_of, IsSeen};

use dia_base::NodeNo;
use dia_message::Message;
use farm_world::{Direction, Step, World};
use http_server::Log;

/// Whether a node receives a message of its peer, or sends one to it by itself, as clients do.
#[derive(Clone, Copy)]
pub struct Passed {
    pub node: NodeNo,
    pub peer: NodeNo,
    pub is_sent: bool,
}

/// The messages that have passed so far. Only proofs read it: it takes no memory.
pub type Passages = Log<Passed, Message>;

/// Whether messages go from one node to another, which knows the connection.
fn is_heard(direction: &Direction, from: NodeNo, to: NodeNo) -> bool
    ensures { result ≡ is_heard from to direction.now }
{
    direction.from == from && direction.to == to && direction.known
}

/// The place of the direction from one node to another, which knows the connection.
fn place_heard(directions: &[Direction], from: NodeNo, to: NodeNo) -> Option<usize>
    ensures found { IfSome result (IsFirst (is_heard from to) directions.now) }
    ensures none { IfNone result (find (is_heard from to) directions.now ≡ None) }
{
    directions
        .iter()
        .position(|direction| is_heard(direction, from, to))
}

/// The message at this place of those in flight from one node to another, which knows the connection.
fn in_flight(directions: &[Direction], from: NodeNo, to: NodeNo, place: u64) -> Option<&Message>
    ensures { IsSeen (flight_at directions.now from to place) (option_map (λ message. message.now) result) }
{
    let at = place_heard(directions, from, to)?;
    let messages = directions[at].messages.as_slice();
    if place >= messages.len() as u64 {
        return None;
    }
    Some(&messages[place as usize])
}

/// The message that a step has a node receive, or a client send, where it applies to the farm as it stands.
pub fn passage_of<'w>(world: &'w World, step: &'w Step) -> Option<(Passed, &'w Message)>
    ensures some { IfSome result (λ passage. passage_of world.now step.now ≡ (passage.0, passage.1.now) ∷ []) }
    ensures none { IfNone result (passage_of world.now step.now ≡ []) }
{
    match step {
        Step::Deliver { from, to, place } => {
            let message = in_flight(world.directions(), *from, *to, *place)?;
            let passed = Passed {
                node: *to,
                peer: *from,
                is_sent: false,
            };
            Some((passed, message))
        }
        Step::Send {
            client,
            to,
            message,
        } => {
            let passed = Passed {
                node: *client,
                peer: *to,
                is_sent: true,
            };
            Some((passed, message))
        }
        _ => None,
    }
}

/// The messages that have passed, with that of a step; none where the step passes none.
pub fn with_passage(passed: &Passages, world: &World, step: &Step) -> Option<Passages>
    ensures some { IfSome result (λ more. more.items ≡ passed.now.items ++ passage_of world.now step.now) }
    ensures none { IfNone result (passage_of world.now step.now ≡ []) }
{
    let (passage, message) = passage_of(world, step)?;
    Some(passed.and(&passage, message))
}

/// These messages have passed, if there are some and the step applied.
pub fn keep_if(applied: bool, passed: &mut Passages, more: Option<Passages>)
    ensures some { IfSome more (λ all. passed.new.items ≡ (if applied then all.items else passed.old.items)) }
    ensures none { IfNone more (passed.new.items ≡ passed.old.items) }
{
    if let Some(more) = more {
        if applied {
            *passed = more;
        }
    }
}
