//! The farm that plays, reconciled with what the records tell that passes at its nodes.

ghost use Rattle.std.specs.Prelude.{◌≡◌, [], ◌∷◌, ◌++◌, true, false, is_some, IfOk, IsTrue, OnErr, if◌then◌else◌};
ghost use Rattle.farm_base.specs.CheckedSite.{IsChecked};
ghost use Rattle.farm_player.specs.Awaiting.{told_at, without_first, IsChangedAt};
ghost use Rattle.farm_player.specs.PlayedRun.{PlaysStep};
ghost use Rattle.farm_player.specs.Reconciling.{Agrees, IsDue, Stays};

use crate::awaited::Awaited;
use crate::farm::PlayedFarm;
use crate::passing::{Passages, Passed};
use dia_base::NodeNo;
use dia_message::Message;
use farm_world::{Site, Step};
use http_server::Log;
use std::alloc::{AllocError, Global};
use std::marker::Model;

/// What a step has pass, beside what is told.
enum Due {
    /// Nothing at a node that is watched.
    Free,
    /// What is told to pass next at this node.
    Next(NodeNo),
    /// Something else than that.
    Other,
}

/// The farm that plays, and what the records tell that passes at its nodes.
///
/// At a node that is watched nothing passes but what its record tells next: another step does not apply. So whatever else is done
/// with it, at each of these nodes a beginning of what was told has passed, in that order, and nothing else.
pub struct Reconciled<'s> {
    farm: PlayedFarm<'s>,
    awaited: Awaited,
    /// What records tell. Only proofs read it.
    told: Passages,
    has_begun: bool,
}

// By hand, so that each exit of an owner is proved with one call.
impl<'s> Drop for Reconciled<'s> {
    fn drop(self) {
        let Reconciled {
            farm: _,
            awaited: _,
            told: _,
            has_begun: _,
        } = self;
    }
}

impl<'s> Model for Reconciled<'s> {
    ghost use Rattle.std.specs.Prelude.{◌≡◌, [], false};
    ghost use Rattle.farm_player.specs.Reconciling.{IsReconciled, Reconciling};

    ghost Value = { Reconciling };

    ghost view = { λ r. record { farm = r.farm; told = r.told.items; awaited = r.awaited } };

    ghost invariant = { λ r.
        IsReconciled (record { farm = r.farm; told = r.told.items; awaited = r.awaited }) × (r.has_begun ≡ false → r.farm.passed ≡ []) };
}

/// Takes a step by which passes what is told to pass next at a node.
fn play_told(
    farm: &mut PlayedFarm<'_>,
    awaited: &mut Awaited,
    node: NodeNo,
    step: &Step,
) -> Result<bool, AllocError>
    ensures ok { IfOk result (λ applied. PlaysStep farm.old step.now applied farm.new) }
    ensures err { OnErr result (farm.new.is_whole ≡ false) }
    ensures site { farm.new.site ≡ farm.old.site }
    ensures passed { IfOk result (λ applied. IsTrue applied → IsChangedAt node (without_first (told_at node awaited.old)) awaited.old awaited.new) }
    ensures stays { IfOk result (λ applied. applied ≡ false → awaited.new ≡ awaited.old) }
{
    let applied = farm.play(step)?;
    if applied {
        awaited.take_first(node);
    }
    Ok(applied)
}

impl<'s> Reconciled<'s> {
    /// The farm of a site before its first step, where no node is watched. `prints`: whether the lines of its steps are asked for.
    #[tactic(auto, using(crate::proofs::Reconciling::reconciled_open))]
    pub fn open(alloc: Global, site: &'s Site, prints: bool) -> Result<Self, AllocError>
        requires { IsChecked site.now }
        ensures told { IfOk result (λ opened. opened.told ≡ []) }
        ensures site { IfOk result (λ opened. opened.farm.site ≡ site.now) }
    {
        Ok(Reconciled {
            farm: PlayedFarm::open(alloc, site, prints)?,
            awaited: Awaited::new(alloc, site.nodes.as_slice().len())?,
            told: Log::new(),
            has_begun: false,
        })
    }

    pub fn farm(&self) -> &PlayedFarm<'s>
        ensures { result.now ≡ self.now.farm }
    {
        &self.farm
    }

    pub fn is_watched(&self, node: NodeNo) -> bool
        ensures { result ≡ is_some (told_at node self.now.awaited) }
    {
        self.awaited.is_watched(node)
    }

    /// A node is watched from now on, which is before the first step. Whether it is.
    #[tactic(auto, using(crate::proofs::Reconciling::reconciled_watch))]
    pub fn watch(&mut self, node: NodeNo) -> bool
        ensures { Stays self.old self.new }
    {
        if self.awaited.is_watched(node) {
            return true;
        }
        if self.has_begun {
            return false;
        }
        self.awaited.watch(node)
    }

    /// A record tells that a message passes at a node. Whether that is watched; where not, nothing is kept of it.
    #[tactic(auto, using(crate::proofs::Reconciling::reconciled_told))]
    pub fn tell(&mut self, passed: Passed, message: &Message) -> Result<bool, AllocError>
        ensures ok { IfOk result (λ watched. self.new.told ≡ (if watched then self.old.told ++ (passed, message.now) ∷ [] else self.old.told)) }
        ensures err { OnErr result (self.new.told ≡ self.old.told) }
        ensures site { self.new.farm.site ≡ self.old.farm.site }
    {
        if !self.awaited.is_watched(passed.node) {
            return Ok(false);
        }
        self.awaited.add(passed, message.clone()?)?;
        self.told = self.told.and(&passed, message);
        Ok(true)
    }

    /// Whether a step has something pass at a node that is watched, and whether that is what is told next.
    #[tactic(auto, using(crate::proofs::Reconciling::due_none, crate::proofs::Reconciling::due_unwatched, crate::proofs::Reconciling::due_next))]
    fn due(&self, step: &Step) -> Due
        ensures { IsDue self.now step.now result }
    {
        let Some((passed, message)) = self.farm.passage_of(step) else {
            return Due::Free;
        };
        if !self.awaited.is_watched(passed.node) {
            return Due::Free;
        }
        if self.awaited.is_next(passed, message) {
            Due::Next(passed.node)
        } else {
            Due::Other
        }
    }

    /// Takes a step. The answer is whether it applied; where not, nothing happened. A step by which something passes at a node that is
    /// watched applies only if that is what is told to pass there next. After an error, which is want of memory, the farm should not be
    /// played any further.
    pub fn play(&mut self, step: &Step) -> Result<bool, AllocError>
        ensures stays { Stays self.old self.new }
        ensures played { IfOk result (λ applied. IsTrue applied → PlaysStep self.old.farm step.now true self.new.farm) }
    {
        self.has_begun = true;
        match self.due(step) {
            Due::Free => self.farm.play(step),
            Due::Other => Ok(false),
            Due::Next(node) => play_told(&mut self.farm, &mut self.awaited, node, step),
        }
    }

    /// A relay has drawn the start of its identifiers, as one does when its process begins. It is no step.
    pub fn number_from(&mut self, node: NodeNo, start: u32)
        ensures { Stays self.old self.new }
    {
        self.farm.number_from(node, start);
    }

    /// Hands out the lines of the steps since the last time.
    pub fn take_lines(&mut self) -> Vec<u8>
        ensures { Stays self.old self.new }
    {
        self.farm.take_lines()
    }

    /// Whether at each node that is watched all that its record tells has passed.
    #[tactic(auto, using(crate::proofs::Reconciling::agreed))]
    pub fn agrees(&self) -> bool
        ensures { IsTrue result → Agrees self.now }
    {
        self.farm.is_whole() && self.awaited.are_settled()
    }
}
