//! What the workers of a front do at a step.

ghost use Rattle.std.specs.Prelude.{IfOk, OnErr};
ghost use Rattle.farm_model.specs.FarmStep.{Outcome, after_pick_at, after_charge_at, after_refusal_at, after_emit_at};
ghost use Rattle.farm_model.specs.Run.{TellsSame};
ghost use Rattle.farm_model.specs.World.{front_at};

use crate::directions::post;
use crate::fronts::place_of_front;
use crate::world::World;
use dia_avp::Wire;
use dia_base::{Moment, NodeNo};
use std::alloc::{AllocError, Global};

impl World {
    /// An idle worker of a front takes a request.
    pub(crate) fn pick(&mut self, front: NodeNo, worker: u64) -> bool
        ensures { Outcome (after_pick_at self.old front worker (front_at front self.old.fronts)) result self.old self.new }
    {
        match place_of_front(&self.fronts, front) {
            Some(place) => self.fronts[place].front.pick(worker),
            None => false,
        }
    }

    /// A worker of a front sends its answer.
    pub(crate) fn emit(
        &mut self,
        alloc: Global,
        front: NodeNo,
        worker: u64,
    ) -> Result<bool, AllocError>
        ensures ok { IfOk result (λ applied. Outcome (after_emit_at self.old front worker (front_at front self.old.fronts)) applied self.old self.new) }
        ensures err { OnErr result (TellsSame self.old self.new) }
    {
        let Some(place) = place_of_front(&self.fronts, front) else {
            return Ok(false);
        };
        match self.fronts[place].front.emit(alloc, worker) {
            Ok(Some(out)) => {
                post(&mut self.directions, front, out)?;
                Ok(true)
            }
            Ok(None) => Ok(false),
            Err(_) => Err(AllocError),
        }
    }

    /// A worker of a front charges its request in the book.
    pub(crate) fn charge<W: Wire>(
        &mut self,
        alloc: Global,
        front: NodeNo,
        worker: u64,
        moment: Moment,
    ) -> Result<bool, AllocError>
        ensures ok { IfOk result (λ applied. Outcome (after_charge_at self.old front worker moment (front_at front self.old.fronts)) applied self.old self.new) }
        ensures err { OnErr result (TellsSame self.old self.new) }
    {
        let Some(place) = place_of_front(&self.fronts, front) else {
            return Ok(false);
        };
        let at = &mut self.fronts[place];
        let Ok(applied) = at.front.charge::<W>(alloc, worker, &mut self.book, moment) else {
            return Err(AllocError);
        };
        Ok(applied)
    }

    /// A worker of a front refuses its request by order.
    pub(crate) fn refuse<W: Wire>(
        &mut self,
        alloc: Global,
        front: NodeNo,
        worker: u64,
    ) -> Result<bool, AllocError>
        ensures ok { IfOk result (λ applied. Outcome (after_refusal_at self.old front worker (front_at front self.old.fronts)) applied self.old self.new) }
        ensures err { OnErr result (TellsSame self.old self.new) }
    {
        let Some(place) = place_of_front(&self.fronts, front) else {
            return Ok(false);
        };
        let Ok(applied) = self.fronts[place].front.refuse::<W>(alloc, worker) else {
            return Err(AllocError);
        };
        Ok(applied)
    }
}
