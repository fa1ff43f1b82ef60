//! How the fronts of a process are started.

ghost use Rattle.std.specs.Prelude.{◌≡◌, ◌<◌, ◌≤◌, ◌-◌, ◌*◌, length, IfNone, IfOk, IfSome};
ghost use Rattle.dia_base.specs.declared.number.NodeNo.{NodeNo};
ghost use Rattle.pool_node.specs.Fronts.{new_front, new_fronts, site_of, with_fronts};
ghost use Rattle.pool_node.specs.declared.start.StartFault.TheVariants.{OutOfMemory};

use crate::front::PoolFront;
use crate::fronts::PoolFronts;
use crate::timing::Timing;
use book_store::RowStore;
use cc_shared::{Seat, SharedBook};
use cc_sweeper::start_sweeper;
use dia_avp::Wire;
use dia_base::NodeNo;
use farm_base::Site;
use farm_clock::Timer;
use front_pool::{Pool, PoolQueue, PoolSite, Pooling, Wake, Wakes};
use std::alloc::{AllocError, AllocFailed, Global};
use std::rt::Clock;
use std::sync::{Arc, Wait};
use std::thread::Threads;
use thiserror::Error;

/// Why the fronts of a process are not started.
#[derive(Clone, Copy, Debug, PartialEq, Eq, Error)]
pub enum StartFault {
    #[error("out of memory")]
    OutOfMemory,
    /// A worker or the sweeper has no thread, or no memory.
    #[error("a worker cannot be started")]
    NoWorker,
    #[error("node {} is none of the site", node.0)]
    UnknownNode { node: NodeNo },
}

impl From<AllocError> for StartFault {
    ghost from_gives = { λ _ e. e ≡ OutOfMemory };

    fn from(_e: AllocError) -> StartFault {
        StartFault::OutOfMemory
    }
}

impl<T: Drop> From<AllocFailed<T>> for StartFault {
    ghost from_gives = { λ _ e. e ≡ OutOfMemory };

    fn from(_e: AllocFailed<T>) -> StartFault {
        StartFault::OutOfMemory
    }
}

/// What the workers of several fronts and their sweeper wake, when they have an answer.
#[derive(Drop)]
pub struct Bell<K> {
    pub waker: Arc<K>,
}

impl<K: Wake> Wake for Bell<K> {
    fn wake(&self) {
        self.waker.wake();
    }
}

/// What the answers of a front name.
fn site_of(alloc: Global, site: &Site, node: NodeNo) -> Result<PoolSite, StartFault>
    ensures { IfOk result (λ made. made ≡ site_of site.now node) }
{
    let Some(at) = site.nodes.as_slice().get(node.0 as usize) else {
        return Err(StartFault::UnknownNode { node });
    };
    Ok(PoolSite {
        name: at.name.clone()?,
        realm: site.realm.clone()?,
        profile: site.front_profile()?,
    })
}

/// Takes so many seats. Where memory is refused none is taken.
fn take_seats<L: Pooling>(seats: &mut Vec<Seat<L>>, count: u32) -> Result<Vec<Seat<L>>, AllocError>
    requires { count ≤ length seats.old.items }
    ensures taken { IfOk result (λ taken. length taken.items ≡ count) }
    ensures left { IfOk result (λ taken. length seats.new.items ≡ length seats.old.items - count) }
{
    let left = seats.len().saturating_sub(count as usize);
    seats.split_off(left)
}

/// Starts a front, with a worker for each seat.
fn start_front<W, L, S, R, K>(
    rt: &R,
    alloc: Global,
    shared: &SharedBook<L, S>,
    seats: Vec<Seat<L>>,
    site: &Site,
    node: NodeNo,
    timer: Timer,
    waker: Bell<K>,
) -> Result<PoolFront<L>, StartFault>
where
    W: Wire + Send + 'static,
    L: Pooling + Send + Sync + 'static,
    S: RowStore + Drop + Send + 'static,
    R: Threads + Wait + Clock + Copy + Send + 'static,
    K: Wake + Drop + Send + Sync + 'static,
    requires site { (front : NodeNo) → L.site front ≡ site_of site.now front }
    requires queue { 0 < site.now.queue }
    ensures { IfOk result (λ front. front ≡ new_front node (length seats.items) site.now.queue) }
{
    let own = site_of(alloc, site, node)?;
    let named = site_of(alloc, site, node)?;
    let queue = PoolQueue {
        front: node,
        name: named.name,
        realm: named.realm,
        profile: named.profile,
        timer,
        jobs: site.queue as usize,
    };
    let handle = shared.another()?;
    match Pool::<L>::start::<W, S, R, Wakes<Bell<K>>>(
        rt,
        alloc,
        handle,
        seats,
        Wakes { waker },
        queue,
    ) {
        Ok(pool) => Ok(PoolFront::new(alloc, node, own, pool)),
        Err(_failed) => Err(StartFault::NoWorker),
    }
}

/// How many seats so many fronts take, with so many workers each. None where there are too many to count.
pub fn seats_for(fronts: usize, workers: u32) -> Option<u64>
    ensures some { IfSome result (λ seats. seats ≡ fronts * workers) }
    ensures none { IfNone result (18446744073709551615 < fronts * workers) }
{
    (fronts as u64).checked_mul(u64::from(workers))
}

/// Starts the next front, with as many workers as the site says.
fn start_next<W, L, S, R, K>(
    rt: &R,
    alloc: Global,
    shared: &SharedBook<L, S>,
    seats: &mut Vec<Seat<L>>,
    site: &Site,
    node: NodeNo,
    timer: Timer,
    waker: &Arc<K>,
) -> Result<PoolFront<L>, StartFault>
where
    W: Wire + Send + 'static,
    L: Pooling + Send + Sync + 'static,
    S: RowStore + Drop + Send + 'static,
    R: Threads + Wait + Clock + Copy + Send + 'static,
    K: Wake + Drop + Send + Sync + 'static,
    requires site { (front : NodeNo) → L.site front ≡ site_of site.now front }
    requires queue { 0 < site.now.queue }
    requires seats { site.now.workers ≤ length seats.old.items }
    ensures front { IfOk result (λ front. front ≡ new_front node site.now.workers site.now.queue) }
    ensures left { IfOk result (λ front. length seats.new.items ≡ length seats.old.items - site.now.workers) }
{
    let own = take_seats(seats, site.workers)?;
    let waker = Arc::try_clone(waker)?;
    start_front::<W, L, S, R, K>(rt, alloc, shared, own, site, node, timer, Bell { waker })
}

/// Starts these fronts, one after the other.
fn start_each<W, L, S, R, K>(
    rt: &R,
    alloc: Global,
    shared: &SharedBook<L, S>,
    seats: &mut Vec<Seat<L>>,
    site: &Site,
    nodes: &[NodeNo],
    timer: Timer,
    waker: &Arc<K>,
) -> Result<Vec<PoolFront<L>>, StartFault>
where
    W: Wire + Send + 'static,
    L: Pooling + Send + Sync + 'static,
    S: RowStore + Drop + Send + 'static,
    R: Threads + Wait + Clock + Copy + Send + 'static,
    K: Wake + Drop + Send + Sync + 'static,
    requires site { (front : NodeNo) → L.site front ≡ site_of site.now front }
    requires queue { 0 < site.now.queue }
    requires seats { length nodes.now * site.now.workers ≤ length seats.old.items }
    ensures { IfOk result (λ fronts. fronts.items ≡ new_fronts nodes.now site.now.workers site.now.queue) }
{
    let mut fronts = Vec::with_capacity(alloc, nodes.len())?;
    for node in nodes {
        let front = start_next::<W, L, S, R, K>(
            rt, alloc, shared, seats, site, *node, timer, waker,
        )?;
        fronts.push(front)?;
    }
    Ok(fronts)
}

/// Starts these fronts of a site, on one book, each with as many workers as the site says, for each of which there is a seat
/// ([`seats_for`]), and with one thread more that sweeps the book. The workers wake by `waker` when they have an answer, and so does
/// the sweeper once a sweep is done. Where that fails, the process has no use for those that were started.
pub fn start_fronts<W, L, S, R, K>(
    rt: R,
    alloc: Global,
    shared: SharedBook<L, S>,
    seats: Vec<Seat<L>>,
    site: &Site,
    nodes: &[NodeNo],
    timing: Timing,
    waker: K,
) -> Result<PoolFronts<L, S, R>, StartFault>
where
    W: Wire + Send + 'static,
    L: Pooling + Send + Sync + 'static,
    S: RowStore + Drop + Send + 'static,
    R: Threads + Wait + Clock + Copy + Send + 'static,
    K: Wake + Drop + Send + Sync + 'static,
    requires site { (front : NodeNo) → L.site front ≡ site_of site.now front }
    requires queue { 0 < site.now.queue }
    requires seats { length nodes.now * site.now.workers ≤ length seats.items }
    ensures { IfOk result (λ fronts. fronts ≡ with_fronts timing (new_fronts nodes.now site.now.workers site.now.queue)) }
{
    let mut seats = seats;
    let waker = Arc::new(alloc, waker)?;
    let fronts = start_each::<W, L, S, R, K>(
        &rt,
        alloc,
        &shared,
        &mut seats,
        site,
        nodes,
        timing.timer,
        &waker,
    )?;
    let handle = shared.another()?;
    let bell = Bell {
        waker: Arc::try_clone(&waker)?,
    };
    let Ok(sweeper) = start_sweeper(&rt, alloc, handle, bell) else {
        return Err(StartFault::NoWorker);
    };
    Ok(PoolFronts::new(rt, alloc, shared, sweeper, fronts, timing))
}
