//! A whole run of the farm.

ghost use Rattle.std.specs.Prelude.{◌≡◌, ◌≤◌, ◌<◌, IfOk, IfErr, MatchOption, length, take};
ghost use Rattle.farm_base.specs.CheckedSite.{IsChecked};
ghost use Rattle.farm_model.specs.Promise.{IsPromised};
ghost use Rattle.farm_model.specs.Run.{skips, trace_of};

use crate::world::World;
use dia_avp::Wire;
use dia_base::Listing;
use farm_model::{Site, Step, Trace, runs_keep_the_promise};
use std::alloc::Global;
use thiserror::Error;

/// Memory was refused at a step, counted from 0. The trace is none where the farm could not be opened.
#[derive(Debug, Drop, Error)]
#[error("out of memory at step {step}")]
pub struct RunError {
    pub step: u64,
    pub trace: Option<Trace>,
}

fn trace_of(world: World, skipped: u64) -> Trace
    ensures { result ≡ trace_of skipped world }
{
    let (sent, received, book, ends) = world.into_parts();
    Trace {
        sent: Listing::from_vec(sent),
        received: Listing::from_vec(received),
        book,
        skipped,
        ends: Listing::from_vec(ends),
    }
}

fn skips(applied: bool) -> u64
    ensures count { result ≡ skips applied }
    ensures most { result ≤ 1 }
{
    if applied { 0 } else { 1 }
}

/// Runs the steps over a site, from an empty history. Where memory is refused at a step, the trace is
/// that of the steps before it.
pub fn run<W: Wire>(alloc: Global, site: &Site, steps: &[Step]) -> Result<Trace, RunError>
    requires { IsChecked site.now }

    // It is the trace of a run of these steps, step for step, and keeps the promise.
    ensures ok { IfOk result (IsPromised site.now steps.now) }
    ensures err { IfErr result (λ error. MatchOption error.trace (error.step ≡ 0) (λ trace.
        (error.step < length steps.now) × IsPromised site.now (take error.step steps.now) trace)) }
{
    runs_keep_the_promise();
    let Ok(mut world) = World::open(alloc, site) else {
        return Err(RunError {
            step: 0,
            trace: None,
        });
    };
    let mut skipped = 0u64;
    for (place, step) in steps.iter().enumerate() {
        let Ok(applied) = world.step::<W>(alloc, site, step) else {
            return Err(RunError {
                step: place as u64,
                trace: Some(trace_of(world, skipped)),
            });
        };
        skipped += skips(applied);
    }
    Ok(trace_of(world, skipped))
}
