//! What a connection asks of those who keep it.

ghost use Rattle.std.specs.Prelude.{◌≡◌, [], ◌∷◌, ◌++◌, option_to_list, IfNone};
ghost use Rattle.std.specs.List.{list_any};
ghost use Rattle.farm_watch.specs.Numbering.{sends_request};

use crate::cause::DisconnectCause;
use dia_base::NodeNo;
use dia_message::Message;
use std::marker::Model;

/// What is to be done with a connection.
#[derive(Drop)]
pub enum Act {
    /// The message goes out on it.
    Send(Message),
    /// The node at its other end is up: that node tells and is told messages on it from now on.
    PeerUp(NodeNo),
    /// The node at its other end has said goodbye, for this cause: it gets no new request, and is to close the connection.
    PeerLeaves(DisconnectCause),
    /// The message is the node's.
    Pass(Message),
    /// It ends, once what was sent before is out.
    Drop,
}

/// The acts of one event, in their order: two at most. They take no memory of their own.
#[derive(Drop)]
pub struct Acts {
    first: Option<Act>,
    second: Option<Act>,
}

impl Model for Acts {
    ghost use Rattle.std.specs.Prelude.{List, ◌++◌, option_to_list};
    ghost use Rattle.farm_watch.specs.declared.acts.Act.{Act};

    ghost Value = { List Act };

    ghost view = { λ acts. option_to_list acts.first ++ option_to_list acts.second };
}

/// Whether an act, if there is one, sends a request.
fn sends_a_request(act: &Option<Act>) -> bool
    ensures { result ≡ list_any sends_request (option_to_list act.now) }
{
    match act {
        Some(Act::Send(message)) => message.header.request,
        _ => false,
    }
}

impl Acts {
    pub(crate) fn none() -> Self
        ensures { result ≡ [] }
    {
        Acts {
            first: None,
            second: None,
        }
    }

    pub(crate) fn of_one(act: Act) -> Self
        ensures { result ≡ act ∷ [] }
    {
        Acts {
            first: Some(act),
            second: None,
        }
    }

    pub(crate) fn of_two(first: Act, second: Act) -> Self
        ensures { result ≡ first ∷ second ∷ [] }
    {
        Acts {
            first: Some(first),
            second: Some(second),
        }
    }

    /// The first act and the second one, if there are such.
    pub(crate) fn into_parts(self) -> (Option<Act>, Option<Act>)
        ensures { self ≡ option_to_list result.0 ++ option_to_list result.1 }
    {
        let Acts { first, second } = self;
        (first, second)
    }

    /// These acts.
    pub(crate) fn of_parts(first: Option<Act>, second: Option<Act>) -> Self
        ensures { result ≡ option_to_list first ++ option_to_list second }
    {
        Acts { first, second }
    }

    /// Whether one of them sends a request.
    pub(crate) fn send_a_request(&self) -> bool
        ensures { result ≡ list_any sends_request self.now }
    {
        sends_a_request(&self.first) || sends_a_request(&self.second)
    }

    /// Takes the first act that is left off, if there is one.
    pub fn take_first(&mut self) -> Option<Act>
        ensures taken { self.old ≡ option_to_list result ++ self.new }
        ensures none { IfNone result (self.old ≡ []) }
    {
        match self.first.take() {
            Some(act) => Some(act),
            None => self.second.take(),
        }
    }
}
