//! What a pool and its workers share.

ghost use Rattle.std.specs.Prelude.{◌≡◌, ◌<◌, IfOk};
ghost use Rattle.std.specs.Arc.{arc_value};
ghost use Rattle.crossbeam_queue.specs.Passes.{IsPassOf, ruled_capacity, view};
ghost use Rattle.front_pool.specs.Moving.{of_pool, of_worker};

use crate::control::Control;
use crate::queues::{FinishedPass, FinishedQueue, Hires, JobPass, JobQueue};
use crate::site::{PoolQueue, PoolSite, Pooling};
use dia_base::NodeNo;
use farm_clock::Timer;
use std::alloc::{AllocError, Global};
use std::sync::Arc;

/// Both queues, and what else the workers of a pool share.
#[derive(Drop)]
pub struct Desk<L: Pooling, G> {
    pub jobs: Arc<JobQueue>,
    pub finished: Arc<FinishedQueue<L>>,
    pub front: NodeNo,
    pub site: Arc<PoolSite>,
    pub timer: Timer,
    pub gate: Arc<G>,
    pub control: Arc<Control>,
}

/// A queue with room for so many jobs, and the pool's pass of it.
fn job_queue(alloc: Global, room: usize) -> Result<(Arc<JobQueue>, JobPass), AllocError>
    requires { 0 < room }
    ensures pass { IfOk result (λ made. IsPassOf (arc_value made.0) made.1 × (view made.1 ≡ of_pool)) }
    ensures room { IfOk result (λ made. ruled_capacity (arc_value made.0) ≡ room) }
{
    let (queue, pass) = JobQueue::ruled(alloc, room)?;
    Ok((Arc::new(alloc, queue)?, pass))
}

/// A queue with room for so many finished jobs, and the pool's pass of it.
fn finished_queue<L: Pooling>(
    alloc: Global,
    room: usize,
) -> Result<(Arc<FinishedQueue<L>>, FinishedPass), AllocError>
    requires { 0 < room }
    ensures pass { IfOk result (λ made. IsPassOf (arc_value made.0) made.1 × (view made.1 ≡ of_pool)) }
    ensures room { IfOk result (λ made. ruled_capacity (arc_value made.0) ≡ room) }
{
    let (queue, pass) = FinishedQueue::<L>::ruled(alloc, room)?;
    Ok((Arc::new(alloc, queue)?, pass))
}

/// What the answers of a front name.
fn site_of(alloc: Global, queue: PoolQueue) -> Result<Arc<PoolSite>, AllocError>
    ensures { IfOk result (λ site. arc_value site ≡ record { name = queue.name; realm = queue.realm; profile = queue.profile }) }
{
    let site = PoolSite {
        name: queue.name,
        realm: queue.realm,
        profile: queue.profile,
    };
    Ok(Arc::new(alloc, site)?)
}

impl<L: Pooling, G: Drop> Desk<L, G> {
    /// A desk with two empty queues, each with room for as many jobs as the front may have waiting, and the pool's pass of each.
    pub fn new(
        alloc: Global,
        gate: G,
        queue: PoolQueue,
    ) -> Result<(Self, JobPass, FinishedPass), AllocError>
        requires jobs { 0 < queue.jobs }
        requires site { L.site queue.front ≡ record { name = queue.name; realm = queue.realm; profile = queue.profile } }
        ensures front { IfOk result (λ made. made.0.front ≡ queue.front) }
        ensures site { IfOk result (λ made. arc_value made.0.site ≡ L.site made.0.front) }
        ensures jobs { IfOk result (λ made. IsPassOf (arc_value made.0.jobs) made.1 × (view made.1 ≡ of_pool)) }
        ensures finished { IfOk result (λ made. IsPassOf (arc_value made.0.finished) made.2 × (view made.2 ≡ of_pool)) }
        ensures room { IfOk result (λ made. (ruled_capacity (arc_value made.0.jobs) ≡ queue.jobs) × (ruled_capacity (arc_value made.0.finished) ≡ queue.jobs)) }
    {
        let (front, timer, room) = (queue.front, queue.timer, queue.jobs);
        let site = site_of(alloc, queue)?;
        let gate = Arc::new(alloc, gate)?;
        let control = Arc::new(alloc, Control::new())?;
        let (jobs, job_pass) = job_queue(alloc, room)?;
        let (finished, finished_pass) = finished_queue::<L>(alloc, room)?;
        let desk = Desk {
            jobs,
            finished,
            front,
            site,
            timer,
            gate,
            control,
        };
        Ok((desk, job_pass, finished_pass))
    }

    /// The same desk, for one worker more.
    pub fn another(&self) -> Result<Self, AllocError>
        ensures front { IfOk result (λ desk. desk.front ≡ self.now.front) }
        ensures site { IfOk result (λ desk. arc_value desk.site ≡ arc_value self.now.site) }
        ensures queues { IfOk result (λ desk. (arc_value desk.jobs ≡ arc_value self.now.jobs) × (arc_value desk.finished ≡ arc_value self.now.finished)) }
    {
        Ok(Desk {
            jobs: Arc::try_clone(&self.jobs)?,
            finished: Arc::try_clone(&self.finished)?,
            front: self.front,
            site: Arc::try_clone(&self.site)?,
            timer: self.timer,
            gate: Arc::try_clone(&self.gate)?,
            control: Arc::try_clone(&self.control)?,
        })
    }

    /// A pass of each queue for a worker more, made of the pool's.
    pub fn passes(
        &self,
        job_pass: &mut JobPass,
        finished_pass: &mut FinishedPass,
    ) -> (JobPass, FinishedPass)
        requires jobs { IsPassOf (arc_value self.now.jobs) job_pass.old × (view job_pass.old ≡ of_pool) }
        requires finished { IsPassOf (arc_value self.now.finished) finished_pass.old × (view finished_pass.old ≡ of_pool) }
        ensures jobs { IsPassOf (arc_value self.now.jobs) job_pass.new × (view job_pass.new ≡ of_pool) }
        ensures finished { IsPassOf (arc_value self.now.finished) finished_pass.new × (view finished_pass.new ≡ of_pool) }
        ensures to_take { IsPassOf (arc_value self.now.jobs) result.0 × (view result.0 ≡ of_worker) }
        ensures to_put { IsPassOf (arc_value self.now.finished) result.1 × (view result.1 ≡ of_worker) }
    {
        let to_take = self.jobs.another::<Hires>(job_pass);
        let to_put = self.finished.another::<Hires>(finished_pass);
        (to_take, to_put)
    }
}
