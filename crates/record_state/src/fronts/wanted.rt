//! Whether a request may go on. If not, a worker is wanted, or a line that was not read yet.

use crate::fronts::{Fronts, InHand, Request, RequestState};
use dia_base::NodeNo;
use std::alloc::AllocError;

impl Fronts {
    /// Nobody has wanted a worker or a line yet. `are_lines_read`: whether the records of fronts were read to their ends.
    pub fn feed_all(&mut self, are_lines_read: bool) {
        self.starved.clear();
        self.awaits_lines = false;
        self.are_lines_read = are_lines_read;
    }

    // ---- workers

    /// A worker is wanted at this front, and none is idle.
    pub fn starve(&mut self, front: NodeNo) -> Result<(), AllocError> {
        if !self.starved.contains(&front) {
            self.starved.push(front)?;
        }
        Ok(())
    }

    /// Whether a request of which no line tells yet what became of it keeps a worker busy that is wanted.
    pub fn is_held_up(&self) -> bool {
        self.requests.iter().any(|request| {
            !request.is_finished()
                && request.state != RequestState::NotSent
                && self.starved.contains(&request.end.node)
        })
    }

    /// Whether a worker has the request, or may have it at once: those before it in the queue need one too.
    fn may_start(&self, request: &Request) -> bool {
        let told = InHand::Told(request.number);
        match self.front(request.end.node) {
            Some(front) => {
                front.worker_of(told).is_some() || front.ahead_of(told) < front.idle()
            }
            None => false,
        }
    }

    /// Whether a worker has the request, or may have it at once. Otherwise one is wanted.
    pub fn has_worker(&mut self, request: &Request) -> Result<bool, AllocError> {
        if self.may_start(request) {
            return Ok(true);
        }
        self.starve(request.end.node)?;
        Ok(false)
    }

    /// A request, if it has arrived, and a worker has it or may have it at once. Otherwise one is wanted, if it has arrived.
    pub fn due(&mut self, number: u64) -> Result<Option<Request>, AllocError> {
        let Some(request) = self.request(number) else {
            return Ok(None);
        };
        if request.state != RequestState::NotSent && self.has_worker(&request)? {
            Ok(Some(request))
        } else {
            Ok(None)
        }
    }

    /// Whether the requests that have arrived at a front, up to this one, may wait there or be with its workers. Otherwise one is wanted.
    pub fn has_room(&mut self, front: NodeNo, last: u64) -> Result<bool, AllocError> {
        let (queued, idle) = match self.front(front) {
            Some(front) => (front.queue.len(), front.idle()),
            None => (0, 0),
        };
        let taken = queued.saturating_add(self.arrived_up_to(front, last));
        if taken <= self.limit.saturating_add(idle) {
            return Ok(true);
        }
        self.starve(front)?;
        Ok(false)
    }

    // ---- lines

    /// Whether a line that was not read may tell of a request that has arrived at a front and is in flight yet, up to this one, and was
    /// not told before so many. That line is wanted then.
    pub fn lacks_lines(&mut self, told_from: u64, front: NodeNo, last: u64) -> bool {
        let lacks = !self.are_lines_read
            && self.requests.iter().any(|request| request.is_in_flight_to(front, last)
                && !request.is_finished()
                && request.number >= told_from);
        if lacks {
            self.awaits_lines = true;
        }
        lacks
    }

    /// Whether such a line is wanted.
    pub fn awaits_lines(&self) -> bool {
        self.awaits_lines
    }
}
