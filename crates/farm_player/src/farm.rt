//! The farm that is played.

ghost use Rattle.std.specs.Prelude.{◌≡◌, ◌%◌, ◌^◌, [], ◌∷◌, false, length, IfNone, IfOk, IfSome, IsTrue, OnOk, OnErr, string_bytes};
ghost use Rattle.farm_base.specs.CheckedSite.{IsChecked};
ghost use Rattle.farm_player.specs.Counting.{steps_after, lines_after};
ghost use Rattle.farm_player.specs.Passing.{passage_of};

use crate::passing::{Passages, Passed, keep_if, passage_of, with_passage};
use crate::steps::push_step;
use cc_book::Book;
use dia_avp::ViewWire;
use dia_base::NodeNo;
use dia_message::Message;
use farm_report::report;
use farm_world::{Direction, Site, Step, World};
use http_server::Log;
use std::alloc::{AllocError, Global};
use std::marker::Model;
use std::mem::replace;

/// One more where a step applied. The count stops at its largest number.
fn steps_after(applied: bool, steps: u64) -> u64
    ensures { result ≡ steps_after applied steps }
{
    if applied {
        steps.saturating_add(1)
    } else {
        steps
    }
}

/// Puts the line of a step behind others where lines are asked for and it applied.
fn push_if(
    alloc: Global,
    lines: &mut Vec<u8>,
    site: &Site,
    step: &Step,
    prints: bool,
    applied: bool,
) -> Result<(), AllocError>
    ensures { OnOk result (lines.new.items ≡ lines_after prints applied site.now step.now lines.old.items) }
{
    if prints && applied {
        push_step(alloc, lines, site, step)
    } else {
        Ok(())
    }
}

/// The farm of a site between two steps, and the lines of the steps so far, where they are asked for.
pub struct PlayedFarm<'s> {
    alloc: Global,
    site: &'s Site,
    world: World,
    /// The messages that have passed.
    passed: Passages,
    /// How many steps applied.
    steps: u64,
    prints: bool,
    /// The lines of steps that were not handed out yet.
    lines: Vec<u8>,
    /// No memory was missing in the middle of a step. What is known of the farm is known only then.
    is_whole: bool,
}

// By hand, so that each exit of an owner is proved with one call.
impl<'s> Drop for PlayedFarm<'s> {
    fn drop(self) {
        let PlayedFarm {
            alloc: _,
            site: _,
            world: _,
            passed: _,
            steps: _,
            prints: _,
            lines: _,
            is_whole: _,
        } = self;
    }
}

impl<'s> Model for PlayedFarm<'s> {
    ghost use Rattle.std.specs.Prelude.{◌≡◌, true};
    ghost use Rattle.farm_player.specs.PlayedRun.{PlayedState, IsPlayed};

    ghost Value = { PlayedState };

    ghost view = { λ f. record {
      site = f.site.now;
      world = f.world;
      passed = f.passed.items;
      steps = f.steps;
      prints = f.prints;
      lines = f.lines.items;
      is_whole = f.is_whole;
    } };

    ghost invariant = { λ f. f.is_whole ≡ true → IsPlayed f.site.now f.world f.passed.items f.steps f.prints f.lines.items };
}

impl<'s> PlayedFarm<'s> {
    ghost use Rattle.farm_player.specs.PlayedRun.{IsPlayed, PlaysStep, beginning, with_start};
    ghost use Rattle.farm_report.specs.Report.{report_of};

    /// The farm before its first step. `prints`: whether the lines of its steps are asked for.
    pub fn open(alloc: Global, site: &'s Site, prints: bool) -> Result<Self, AllocError>
        requires { IsChecked site.now }
        ensures { IfOk result (λ farm. farm ≡ beginning site.now prints) }
    {
        Ok(PlayedFarm {
            alloc,
            site,
            world: World::open(alloc, site)?,
            passed: Log::new(),
            steps: 0,
            prints,
            lines: Vec::new(alloc),
            is_whole: true,
        })
    }

    pub fn site(&self) -> &'s Site
        ensures { result.now ≡ self.now.site }
    {
        self.site
    }

    /// Takes a step. The answer is whether it applied; where not, nothing happened. After an error, which is want of memory,
    /// the farm should not be played any further.
    pub fn play(&mut self, step: &Step) -> Result<bool, AllocError>
        ensures ok { IfOk result (λ applied. PlaysStep self.old step.now applied self.new) }
        ensures err { OnErr result (self.new.is_whole ≡ false) }
        ensures site { self.new.site ≡ self.old.site }
    {
        let is_whole = replace(&mut self.is_whole, false);
        let passed = with_passage(&self.passed, &self.world, step);
        let applied = self.world.step::<ViewWire>(self.alloc, self.site, step)?;
        keep_if(applied, &mut self.passed, passed);
        self.steps = steps_after(applied, self.steps);
        push_if(
            self.alloc,
            &mut self.lines,
            self.site,
            step,
            self.prints,
            applied,
        )?;
        self.is_whole = is_whole;
        Ok(applied)
    }

    /// A relay has drawn the start of its identifiers, as one does when its process begins. It is no step.
    pub fn number_from(&mut self, node: NodeNo, start: u32)
        ensures { self.new ≡ record self.old { world = with_start node (start % 2 ^ 31) self.old.world } }
    {
        self.world.number_from(node, start);
    }

    /// How many steps applied.
    pub fn steps(&self) -> u64
        ensures { result ≡ self.now.steps }
    {
        self.steps
    }

    /// Whether the lines of the steps are asked for.
    pub fn prints(&self) -> bool
        ensures { result ≡ self.now.prints }
    {
        self.prints
    }

    /// How many octets the lines have that were not handed out yet.
    pub fn line_octets(&self) -> usize
        ensures { result ≡ length self.now.lines }
    {
        self.lines.len()
    }

    /// Hands out the lines of the steps since the last time.
    pub fn take_lines(&mut self) -> Vec<u8>
        ensures lines { result.items ≡ self.old.lines }
        ensures rest { self.new ≡ record self.old { lines = [] } }
    {
        replace(&mut self.lines, Vec::new(self.alloc))
    }

    /// Whether no memory was missing in the middle of a step.
    pub fn is_whole(&self) -> bool
        ensures is { result ≡ self.now.is_whole }
        ensures played { IsTrue result → IsPlayed self.now.site self.now.world self.now.passed self.now.steps self.now.prints self.now.lines }
    {
        self.is_whole
    }

    /// The report of the book that the run has come to.
    pub fn report(&self) -> Result<String, AllocError>
        ensures { IfOk result (λ text.
            IsPlayed self.now.site self.now.world self.now.passed self.now.steps self.now.prints self.now.lines × (string_bytes text ≡ report_of self.now.world.book)) }
    {
        if !self.is_whole {
            return Err(AllocError);
        }
        report(self.alloc, self.world.book())
    }

    pub fn book(&self) -> &Book
        ensures { result.now ≡ self.now.world.book }
    {
        self.world.book()
    }

    /// The message that a step has a node receive, or a client send, if it applies.
    pub fn passage_of<'a>(&'a self, step: &'a Step) -> Option<(Passed, &'a Message)>
        ensures some { IfSome result (λ passage. passage_of self.now.world step.now ≡ (passage.0, passage.1.now) ∷ []) }
        ensures none { IfNone result (passage_of self.now.world step.now ≡ []) }
    {
        passage_of(&self.world, step)
    }

    /// The first direction from one node to another.
    fn direction(&self, from: NodeNo, to: NodeNo) -> Option<&Direction> {
        self.world
            .directions()
            .iter()
            .find(|direction| direction.from == from && direction.to == to)
    }

    /// What is in flight from one node to another.
    pub fn flight(&self, from: NodeNo, to: NodeNo) -> &[Message] {
        match self.direction(from, to) {
            Some(direction) => direction.messages.as_slice(),
            None => &[],
        }
    }

    /// Whether a node has an end of a connection with another one, which it has not dropped.
    pub fn has_end(&self, node: NodeNo, peer: NodeNo) -> bool {
        self.direction(peer, node).is_some()
    }

    /// Whether neither of two nodes has an end of a connection with the other.
    pub fn is_free(&self, a: NodeNo, b: NodeNo) -> bool {
        !self.has_end(a, b) && !self.has_end(b, a)
    }

    /// The node at the other end of some connection that this one has not dropped.
    pub fn some_peer(&self, node: NodeNo) -> Option<NodeNo> {
        let direction = self
            .world
            .directions()
            .iter()
            .find(|direction| direction.to == node)?;
        Some(direction.from)
    }
}
