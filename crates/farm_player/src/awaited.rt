//! What records tell that passes at nodes, and that has not passed yet.

ghost use Rattle.std.specs.Prelude.{◌≡◌, [], Some, None, true, false, replicate, is_some, IfOk, IsTrue, OnErr, OnOk};
ghost use Rattle.std.specs.Bool.{Decides};
ghost use Rattle.std.specs.List.{list_all};
ghost use Rattle.dia_base.specs.declared.number.NodeNo.{NodeNo};
ghost use Rattle.farm_player.specs.Awaiting.{is_settled, told_at, with_told, without_first, IsChangedAt, IsNext, IsWatchedAt};

use crate::passing::Passed;
use dia_base::NodeNo;
use dia_message::Message;
use std::alloc::{AllocError, Global};
use std::collections::VecDeque;
use std::marker::Model;

/// What one node is told to pass, the first first; none where the node is not watched.
#[derive(Drop)]
struct AwaitedAt {
    told: Option<VecDeque<(Passed, Message)>>,
}

impl Model for AwaitedAt {
    ghost use Rattle.std.specs.Prelude.{Option, List, option_map};
    ghost use Rattle.farm_player.specs.Passing.{Passage};

    ghost Value = { Option (List Passage) };

    ghost view = { λ a. option_map (λ told. told.items) a.told };
}

fn is_same(one: &Message, other: &Message) -> bool
    ensures { Decides result (one.now ≡ other.now) }
{
    one == other
}

fn is_same_way(one: Passed, other: Passed) -> bool
    ensures { Decides result (one ≡ other) }
{
    one.node.0 == other.node.0 && one.peer.0 == other.peer.0 && one.is_sent == other.is_sent
}

impl AwaitedAt {
    fn is_watched(&self) -> bool
        ensures { result ≡ is_some self.now }
    {
        self.told.is_some()
    }

    fn watch(&mut self, alloc: Global)
        ensures { self.new ≡ Some [] }
    {
        self.told = Some(VecDeque::new(alloc));
    }

    /// A message more. An error leaves all as it was.
    fn add(&mut self, passed: Passed, message: Message) -> Result<(), AllocError>
        ensures ok { OnOk result (self.new ≡ with_told (passed, message) self.old) }
        ensures err { OnErr result (self.new ≡ self.old) }
    {
        if let Some(told) = &mut self.told {
            told.push_back((passed, message))?;
        }
        Ok(())
    }

    /// Whether this is told to pass next.
    fn is_next(&self, passed: Passed, message: &Message) -> bool
        ensures { IsTrue result → IsNext (passed, message.now) self.now }
    {
        let Some(told) = &self.told else {
            return false;
        };
        match told.front() {
            Some((way, first)) => is_same_way(*way, passed) && is_same(first, message),
            None => false,
        }
    }

    /// What was told to pass next has passed.
    fn take_first(&mut self)
        ensures { self.new ≡ without_first self.old }
    {
        if let Some(told) = &mut self.told {
            let _passed = told.pop_front();
        }
    }

    fn is_settled(&self) -> bool
        ensures { result ≡ is_settled self.now }
    {
        match &self.told {
            Some(told) => told.is_empty(),
            None => true,
        }
    }
}

fn are_settled(nodes: &[AwaitedAt]) -> bool
    ensures { result ≡ list_all is_settled nodes.now }
{
    nodes.iter().all(|at| at.is_settled())
}

/// What the nodes of a site are told to pass and have not passed, of each node that is watched.
pub struct Awaited {
    alloc: Global,
    /// By the numbers of nodes.
    nodes: Vec<AwaitedAt>,
}

// By hand, so that each exit of an owner is proved with one call.
impl Drop for Awaited {
    fn drop(self) {
        let Awaited { alloc: _, nodes: _ } = self;
    }
}

impl Model for Awaited {
    ghost use Rattle.farm_player.specs.Awaiting.{AwaitedList};

    ghost Value = { AwaitedList };

    ghost view = { λ a. a.nodes.items };
}

impl Awaited {
    /// So many nodes, of which none is watched.
    pub fn new(alloc: Global, count: usize) -> Result<Self, AllocError>
        ensures { IfOk result (λ awaited. awaited ≡ replicate count None) }
    {
        let mut nodes = Vec::new(alloc);
        for made in 0..count {
            nodes.push(AwaitedAt { told: None })?;
        }
        Ok(Awaited { alloc, nodes })
    }

    /// The place of a node that is watched.
    fn place_of(&self, node: NodeNo) -> Option<usize>
        ensures { IsWatchedAt node self.now result }
    {
        let place = node.0 as usize;
        if place < self.nodes.len() && self.nodes[place].is_watched() {
            Some(place)
        } else {
            None
        }
    }

    pub fn is_watched(&self, node: NodeNo) -> bool
        ensures { result ≡ is_some (told_at node self.now) }
    {
        let place = node.0 as usize;
        place < self.nodes.len() && self.nodes[place].is_watched()
    }

    /// A node is watched from now on, if the site has it. Whether it has. Nothing is told of it then.
    #[tactic(auto, using(crate::proofs::Awaiting::changed_set))]
    pub fn watch(&mut self, node: NodeNo) -> bool
        ensures yes { IsTrue result → IsChangedAt node (Some []) self.old self.new }
        ensures no { result ≡ false → self.new ≡ self.old }
    {
        let place = node.0 as usize;
        if place >= self.nodes.len() {
            return false;
        }
        self.nodes[place].watch(self.alloc);
        true
    }

    /// A message is told to pass at a node, if that is watched. An error leaves all as it was.
    #[tactic(auto, using(crate::proofs::Awaiting::changed_set, crate::proofs::Awaiting::changed_none))]
    pub fn add(&mut self, passed: Passed, message: Message) -> Result<(), AllocError>
        ensures ok { OnOk result (IsChangedAt passed.node (with_told (passed, message) (told_at passed.node self.old)) self.old self.new) }
        ensures err { OnErr result (self.new ≡ self.old) }
    {
        if let Some(place) = self.place_of(passed.node) {
            self.nodes[place].add(passed, message)?;
        }
        Ok(())
    }

    /// Whether this is told to pass next at its node.
    pub fn is_next(&self, passed: Passed, message: &Message) -> bool
        ensures { IsTrue result → IsNext (passed, message.now) (told_at passed.node self.now) }
    {
        match self.place_of(passed.node) {
            Some(place) => self.nodes[place].is_next(passed, message),
            None => false,
        }
    }

    /// What was told to pass next at a node has passed.
    #[tactic(auto, using(crate::proofs::Awaiting::changed_set, crate::proofs::Awaiting::changed_none))]
    pub fn take_first(&mut self, node: NodeNo)
        ensures { IsChangedAt node (without_first (told_at node self.old)) self.old self.new }
    {
        if let Some(place) = self.place_of(node) {
            self.nodes[place].take_first();
        }
    }

    /// Whether all that was told has passed.
    #[tactic(auto, using(crate::proofs::Awaiting::all_settled))]
    pub fn are_settled(&self) -> bool
        ensures { IsTrue result → (node : NodeNo) → is_settled (told_at node self.now) ≡ true }
    {
        are_settled(&self.nodes)
    }
}
