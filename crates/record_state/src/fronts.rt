//! What fronts hold in the farm that plays: their queues, their workers, and the requests that have arrived.
//!
//! - `wanted`: whether a request may go on, and what is wanted otherwise.

ghost use Rattle.std.specs.Prelude.{◌≡◌, is_some, IfSome, IsTrue};
ghost use Rattle.record_state.specs.UnderWay.{IsUnderWay};

mod wanted;

use dia_base::{NodeKind, NodeNo};
use farm_base::Site;
use record_reader::{End, Finished, RequestKey};
use std::alloc::{AllocError, Global};
use std::collections::VecDeque;

/// Where a request of a front is.
#[derive(Clone, Copy, PartialEq, Eq)]
pub enum RequestState {
    /// It was not sent yet.
    NotSent,
    /// It has arrived, and is in flight yet.
    Arrived,
    /// In the queue, or with a worker.
    HandedOver,
}

/// What a line tells of a request that a worker has finished.
#[derive(Clone, Copy)]
pub struct Outcome {
    /// Its place in the book, that of the first for a repeat; none if the book was not asked.
    pub place: Option<u64>,
    pub is_new: bool,
    /// How many ends of connections were told above the line.
    pub ends_above: usize,
}

impl Outcome {
    /// Whether its request comes before another one in the order of the book, in which a repeat stands behind the first.
    fn is_before(&self, other: &Outcome) -> bool {
        self.place < other.place || self.place == other.place && self.is_new && !other.is_new
    }
}

/// A request that a front hands to its workers.
#[derive(Clone, Copy)]
pub struct Request {
    pub number: u64,
    /// The end of the connection that it came on, at the front.
    pub end: End,
    /// By which it is found in a book on disk, if one is given.
    pub key: Option<RequestKey>,
    /// What a line tells that became of it; none if no such line was read.
    pub outcome: Option<Outcome>,
    pub state: RequestState,
}

impl Request {
    /// Whether a line was read that tells what became of it.
    fn is_finished(&self) -> bool
        ensures { result ≡ is_some self.now.outcome }
    {
        self.outcome.is_some()
    }

    /// Whether it has arrived, and no line was read that tells what became of it.
    fn is_under_way(&self) -> bool
        ensures { IsTrue result → IsUnderWay self.now }
    {
        !self.is_finished() && self.state != RequestState::NotSent
    }

    /// Whether such a line stands above the one that tells of this end of a connection.
    fn was_told_above(&self, end: usize) -> bool {
        match &self.outcome {
            Some(outcome) => outcome.ends_above <= end,
            None => false,
        }
    }

    /// Whether it has arrived at a front and is in flight yet, and is this one or was told before.
    fn is_in_flight_to(&self, front: NodeNo, last: u64) -> bool {
        self.end.node == front && self.state == RequestState::Arrived && self.number <= last
    }
}

/// A request that a front has in its queue, or that a worker has.
#[derive(Clone, Copy, PartialEq, Eq)]
pub enum InHand {
    /// One that a line tells, by its number among all.
    Told(u64),
    /// One that the front hands back, or that no line tells: a worker is done with it before another one comes.
    Passing,
}

/// A worker of a front, by its place among those of the front.
#[derive(Clone, Copy)]
pub struct Worker {
    pub front: NodeNo,
    pub worker: u64,
}

/// The requests of a front that were handed over.
#[derive(Drop)]
struct FrontWork {
    node: NodeNo,
    queue: VecDeque<InHand>,
    workers: Vec<Option<InHand>>,
}

impl FrontWork {
    /// A front with so many workers, which has nothing in hand.
    fn new(alloc: Global, node: NodeNo, count: usize) -> Result<Self, AllocError> {
        let mut workers = Vec::new(alloc);
        workers.resize(count, None::<InHand>)?;
        Ok(FrontWork {
            node,
            queue: VecDeque::new(alloc),
            workers,
        })
    }

    fn idle(&self) -> usize {
        self.workers
            .iter()
            .filter(|worker| worker.is_none())
            .count()
    }

    /// The worker at this place.
    fn worker(&self, place: usize) -> Worker {
        Worker {
            front: self.node,
            worker: place as u64,
        }
    }

    fn worker_of(&self, request: InHand) -> Option<Worker> {
        let place = self.workers.iter().position(|held| *held == Some(request))?;
        Some(self.worker(place))
    }

    fn first_idle(&self) -> Option<usize> {
        self.workers.iter().position(|worker| worker.is_none())
    }

    /// How many requests stand before this one in the queue: all, where it is not there.
    fn ahead_of(&self, request: InHand) -> usize {
        self.queue
            .iter()
            .position(|waiting| *waiting == request)
            .unwrap_or(self.queue.len())
    }

    /// The first idle worker takes the first request out of the queue.
    fn pick(&mut self) -> Option<Worker> {
        let place = self.first_idle()?;
        let first = self.queue.pop_front()?;
        if let Some(held) = self.workers.get_mut(place) {
            *held = Some(first);
        }
        Some(self.worker(place))
    }

    /// It has nothing in hand any more.
    fn clear(&mut self) {
        self.queue.clear();
        for worker in self.workers.iter_mut() {
            *worker = None;
        }
    }

    fn release(&mut self, place: usize) {
        if let Some(held) = self.workers.get_mut(place) {
            *held = None;
        }
    }
}

/// All fronts, and the requests of them that are not charged.
pub struct Fronts {
    fronts: Vec<FrontWork>,
    requests: Vec<Request>,
    /// The most requests that wait in the queue of a front.
    limit: usize,
    /// The fronts of which a worker is wanted, and none is idle.
    starved: Vec<NodeNo>,
    /// Whether the records of fronts were read to their ends.
    are_lines_read: bool,
    /// Whether requests are to be handed over, and a line that was not read may tell of one of them.
    awaits_lines: bool,
}

// By hand, so that each exit of an owner is proved with one call.
impl Drop for Fronts {
    fn drop(self) {
        let Fronts {
            fronts: _,
            requests: _,
            limit: _,
            starved: _,
            are_lines_read: _,
            awaits_lines: _,
        } = self;
    }
}

impl Fronts {
    /// The fronts of the site, with nothing in hand.
    pub fn new(alloc: Global, site: &Site) -> Result<Self, AllocError> {
        let mut fronts = Vec::new(alloc);
        for (place, node) in site.nodes.as_slice().iter().enumerate() {
            if node.kind != NodeKind::Front {
                continue;
            }
            let Ok(number) = u32::try_from(place) else {
                continue;
            };
            fronts.push(FrontWork::new(alloc, NodeNo(number), site.workers as usize)?)?;
        }
        Ok(Fronts {
            fronts,
            requests: Vec::new(alloc),
            limit: site.queue as usize,
            starved: Vec::new(alloc),
            are_lines_read: false,
            awaits_lines: false,
        })
    }

    fn front(&self, node: NodeNo) -> Option<&FrontWork> {
        self.fronts.iter().find(|front| front.node == node)
    }

    fn front_mut(&mut self, node: NodeNo) -> Option<&mut FrontWork> {
        self.fronts.iter_mut().find(|front| front.node == node)
    }

    // ---- requests

    /// A request was told that this front hands to its workers.
    pub fn add(
        &mut self,
        number: u64,
        end: End,
        key: Option<RequestKey>,
    ) -> Result<(), AllocError> {
        self.requests.push(Request {
            number,
            end,
            key,
            outcome: None,
            state: RequestState::NotSent,
        })?;
        Ok(())
    }

    pub fn request(&self, number: u64) -> Option<Request> {
        self.requests
            .iter()
            .find(|request| request.number == number)
            .copied()
    }

    /// The first request with this key that has arrived, and of which no line tells what became of it.
    pub fn untold(&self, key: RequestKey) -> Option<Request>
        ensures { IfSome result IsUnderWay }
    {
        for request in &self.requests {
            if request.key == Some(key) && request.is_under_way() {
                return Some(*request);
            }
        }
        None
    }

    /// The worker of a front that has a request of which no line tells what became of it, told before this one and with none of these
    /// keys; and its number.
    pub fn untold_in_hand(
        &self,
        front: NodeNo,
        before: u64,
        needed: &[RequestKey],
    ) -> Option<(Worker, u64)> {
        let work = self.front(front)?;
        for (place, held) in work.workers.iter().enumerate() {
            if let Some(InHand::Told(number)) = held {
                if self.is_untold(*number, before, needed) {
                    return Some((work.worker(place), *number));
                }
            }
        }
        None
    }

    /// Whether the first request of the queue of a front is one of these.
    pub fn is_untold_first(&self, front: NodeNo, before: u64, needed: &[RequestKey]) -> bool {
        let first = match self.front(front) {
            Some(front) => front.queue.front().copied(),
            None => None,
        };
        match first {
            Some(InHand::Told(number)) => self.is_untold(number, before, needed),
            Some(InHand::Passing) | None => false,
        }
    }

    fn is_untold(&self, number: u64, before: u64, needed: &[RequestKey]) -> bool {
        let Some(request) = self.request(number) else {
            return false;
        };
        let is_needed = match request.key {
            Some(key) => needed.contains(&key),
            None => false,
        };
        !request.is_finished() && number < before && !is_needed
    }

    /// Whether a line tells what became of a request of a front, told before this one, that is not answered.
    pub fn has_finished_before(&self, front: NodeNo, number: u64) -> bool {
        self.requests.iter().any(|request| request.is_finished()
            && request.end.node == front
            && request.number < number)
    }

    /// A front begins again: nothing is left of the requests of it that were told before this one.
    pub fn restart(&mut self, front: NodeNo, number: u64) {
        self.requests.retain(|request| request.end.node != front || request.number >= number);
        if let Some(front) = self.front_mut(front) {
            front.clear();
        }
    }

    fn request_mut(&mut self, number: u64) -> Option<&mut Request> {
        self.requests
            .iter_mut()
            .find(|request| request.number == number)
    }

    /// A line was read that tells what became of a request, below those that tell of so many ends of connections.
    pub fn finish(&mut self, finished: &Finished, ends_above: usize) {
        if let Some(request) = self.request_mut(finished.request) {
            request.outcome = Some(Outcome {
                place: finished.place,
                is_new: finished.is_new,
                ends_above,
            });
        }
    }

    pub fn set_state(&mut self, number: u64, state: RequestState) {
        if let Some(request) = self.request_mut(number) {
            request.state = state;
        }
    }

    /// A request was answered.
    pub fn remove(&mut self, number: u64) {
        self.requests.retain(|request| request.number != number);
    }

    /// Whether requests that came on a connection are told and not answered.
    pub fn has_requests_on(&self, conn: usize) -> bool {
        self.requests.iter().any(|request| request.end.conn == conn)
    }

    /// Whether one of those was told to be finished above the line of this end of a connection.
    pub fn has_told_above(&self, conn: usize, end: usize) -> bool {
        self.requests.iter().any(|request| request.end.conn == conn && request.was_told_above(end))
    }

    /// Whether this request, which is not answered, came on a connection and was told to be finished above the line of this end of one.
    pub fn is_told_above(&self, number: u64, conn: usize, end: usize) -> bool {
        match self.request(number) {
            Some(request) => request.end.conn == conn && request.was_told_above(end),
            None => false,
        }
    }

    /// Whether a request of which no line tells yet what became of it was told before this one.
    pub fn has_unfinished_before(&self, number: u64) -> bool {
        self.requests.iter().any(|request| !request.is_finished() && request.number < number)
    }

    /// How many requests have arrived on a connection and are in flight yet.
    pub fn arrived_on(&self, conn: usize) -> usize {
        self.arrived_on_before(conn, u64::MAX)
    }

    /// How many of those were told before this one.
    pub fn arrived_on_before(&self, conn: usize, number: u64) -> usize {
        self.requests
            .iter()
            .filter(|request| {
                request.end.conn == conn
                    && request.state == RequestState::Arrived
                    && request.number < number
            })
            .count()
    }

    /// The last one of those.
    pub fn last_arrived_on(&self, conn: usize) -> Option<u64> {
        self.requests
            .iter()
            .filter(|request| request.end.conn == conn && request.state == RequestState::Arrived)
            .map(|request| request.number)
            .max()
    }

    /// How many requests have arrived at a front and are in flight yet, up to this one.
    pub fn arrived_up_to(&self, front: NodeNo, last: u64) -> usize {
        self.requests
            .iter()
            .filter(|request| request.is_in_flight_to(front, last))
            .count()
    }

    /// Of the requests that have arrived at a front and are in flight yet, up to this one, the one that goes first if they are handed
    /// over together: that with the first place in the book, or one that arrived before it and of which no line tells.
    pub fn first_by_place(&self, front: NodeNo, last: u64) -> Option<Request> {
        let unfinished = self.requests.iter().find(|request| request.is_in_flight_to(front, last)
            && !request.is_finished());
        match (self.first_finished(front, last), unfinished) {
            (Some(finished), Some(request)) if request.number < finished.number => Some(*request),
            (Some(finished), _) => Some(finished),
            (None, Some(request)) => Some(*request),
            (None, None) => None,
        }
    }

    /// Of those, the one with the first place in the book.
    fn first_finished(&self, front: NodeNo, last: u64) -> Option<Request> {
        let mut first: Option<(Request, Outcome)> = None;
        for request in &self.requests {
            let Some(outcome) = request.outcome else {
                continue;
            };
            let is_first = match &first {
                Some((_, least)) => outcome.is_before(least),
                None => true,
            };
            if is_first && request.is_in_flight_to(front, last) {
                first = Some((*request, outcome));
            }
        }
        Some(first?.0)
    }

    // ---- queues and workers

    /// How many requests more the queue of a front has room for.
    pub fn room(&self, front: NodeNo) -> usize {
        let queued = self.front(front).map_or(0, |front| front.queue.len());
        self.limit.saturating_sub(queued)
    }

    /// Whether a worker of a front is idle.
    pub fn has_idle(&self, front: NodeNo) -> bool {
        self.front(front).map_or(false, |front| front.idle() > 0)
    }

    /// Whether more workers of a front are idle than requests are in its queue.
    pub fn has_spare(&self, front: NodeNo) -> bool {
        self.front(front)
            .map_or(false, |front| front.queue.len() < front.idle())
    }

    /// The worker of a front that has this request.
    pub fn worker_of(&self, front: NodeNo, request: InHand) -> Option<Worker> {
        self.front(front)?.worker_of(request)
    }

    /// A request comes into the queue of a front.
    pub fn push(&mut self, front: NodeNo, request: InHand) -> Result<(), AllocError> {
        if let Some(front) = self.front_mut(front) {
            front.queue.push_back(request)?;
        }
        Ok(())
    }

    /// An idle worker takes the first request of the queue of a front: which one. None where the queue is empty or no worker is
    /// idle.
    pub fn pick(&mut self, front: NodeNo) -> Option<Worker> {
        self.front_mut(front)?.pick()
    }

    /// A worker of a front is idle again.
    pub fn release(&mut self, worker: Worker) {
        if let Some(front) = self.front_mut(worker.front) {
            front.release(worker.worker as usize);
        }
    }
}
