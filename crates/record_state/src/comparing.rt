//! What a record tells of messages that a node sent, beside those that the farm sent.

ghost use Rattle.std.specs.Prelude.{◌≡◌, ◌∷◌, ◌++◌, [], List, IsTrue, IfSome};
ghost use Rattle.std.specs.Bool.{Decides};
ghost use Rattle.dia_message.specs.declared.message.Message.{Message};
ghost use Rattle.record_state.specs.Comparing.{told_to, IsAsTold};

use dia_base::NodeNo;
use dia_message::Message;

fn is_same(one: &Message, other: &Message) -> bool
    ensures { Decides result (one.now ≡ other.now) }
{
    one == other
}

/// What is left of messages behind this one, which has to be the first.
fn behind<'a>(sent: &'a [Message], message: &Message) -> Option<&'a [Message]>
    ensures { IfSome result (λ rest. sent.now ≡ message.now ∷ rest.now) }
{
    match sent.split_first() {
        Some((first, rest)) if is_same(first, message) => Some(rest),
        _ => None,
    }
}

/// Whether the first of messages that were sent is this one.
pub fn is_first(sent: &[Message], told: &Message) -> bool
    ensures { IsTrue result → (rest : List Message) × (sent.now ≡ told.now ∷ rest) }
{
    behind(sent, told).is_some()
}

/// What is left of messages that were sent to a node behind this one, if it is told to have been sent to that node.
fn behind_told<'a>(
    sent: &'a [Message],
    told: &(NodeNo, Message),
    peer: NodeNo,
) -> Option<&'a [Message]>
    ensures { IfSome result (λ rest. sent.now ≡ told_to peer (told.now ∷ []) ++ rest.now) }
{
    let (to, message) = told;
    if to.0 == peer.0 {
        behind(sent, message)
    } else {
        Some(sent)
    }
}

/// Whether the messages that a node is told to have sent are those that the farm sent to this other one. Where it is the last
/// event before a process was killed, a beginning is enough.
pub fn is_as_told(told: &[(NodeNo, Message)], peer: NodeNo, sent: &[Message], is_last: bool) -> bool
    ensures { IsTrue result → IsAsTold is_last (told_to peer told.now) sent.now }
{
    let mut rest = sent;
    for item in told {
        match behind_told(rest, item, peer) {
            Some(left) => rest = left,
            None => return false,
        }
    }
    is_last || rest.is_empty()
}
