//! Requests at fronts: they stay in flight until they are charged, unless their connection is to go before, or the queue has to be full.

ghost use Rattle.farm_player.specs.Reconciling.{Stays};

use crate::fault::{Difference, PlayResult, found};
use crate::player::Player;
use dia_base::NodeNo;
use record_reader::{End, NodeEvent, Position};
use record_state::{InHand, Request, RequestState, Worker};

impl<'s> Player<'s> {
    /// A request for which a front had no room: its queue is full then, or a worker refuses it. Requests that wait fill the queue.
    pub(super) fn hand_back(&mut self, event: &NodeEvent) -> PlayResult<bool>
        ensures stays { Stays self.old.links.played self.new.links.played }
    {
        let (position, node, peer) = (event.position, event.end.node, event.end.peer);
        let room = self.fronts.room(node);
        let is_full = self.fronts.arrived_up_to(node, u64::MAX) >= room;
        if !is_full && !self.fronts.has_spare(node) {
            self.fronts.starve(node)?;
            return Ok(false);
        }
        if is_full && room > 0 {
            if self.lacks_lines(node, u64::MAX) {
                return Ok(false);
            }
            self.hand_over_some(position, node, u64::MAX, room)?;
        }
        let since = self.farm().flight(node, peer).len();
        let place = self.fronts.arrived_on(event.end.conn);
        self.links.played.deliver(position, peer, node, place)?;
        if !is_full {
            let worker = self.pick_passing(position, node)?;
            self.refuse(position, worker)?;
        }
        self.links.compare(event, peer, since)?;
        Ok(true)
    }

    /// A worker refuses the request that it has.
    pub(super) fn refuse(&mut self, position: Position, worker: Worker) -> PlayResult<()>
        ensures stays { Stays self.old.links.played self.new.links.played }
    {
        self.links.played.refuse(position, worker)?;
        self.emit(position, worker)
    }

    /// A worker sends its answer, and is idle.
    pub(super) fn emit(&mut self, position: Position, worker: Worker) -> PlayResult<()>
        ensures stays { Stays self.old.links.played self.new.links.played }
    {
        self.links.played.emit(position, worker)?;
        self.fronts.release(worker);
        Ok(())
    }

    /// An idle worker picks the first request of the queue.
    pub(super) fn pick(&mut self, position: Position, front: NodeNo) -> PlayResult<()>
        ensures stays { Stays self.old.links.played self.new.links.played }
    {
        match self.fronts.pick(front) {
            Some(worker) => self.links.played.pick(position, worker),
            None => found(position, Difference::CannotHappen),
        }
    }

    /// The worker that has a request. Where none has it, it is handed over and picked first.
    pub(super) fn picked(&mut self, position: Position, request: &Request) -> PlayResult<Worker>
        ensures stays { Stays self.old.links.played self.new.links.played }
    {
        if request.state == RequestState::Arrived {
            self.hand_over(position, request)?;
        }
        self.pick_until(position, request.end.node, InHand::Told(request.number))
    }

    /// The worker that has picked a request which no line tells, or which is handed back. It stands behind all others in the queue.
    pub(super) fn pick_passing(&mut self, position: Position, front: NodeNo) -> PlayResult<Worker>
        ensures stays { Stays self.old.links.played self.new.links.played }
    {
        self.fronts.push(front, InHand::Passing)?;
        self.pick_until(position, front, InHand::Passing)
    }

    /// The worker that has a request, once those before it in the queue are picked, and it.
    fn pick_until(
        &mut self,
        position: Position,
        front: NodeNo,
        request: InHand,
    ) -> PlayResult<Worker>
        ensures stays { Stays self.old.links.played self.new.links.played }
    {
        for _ in 0..u64::MAX {
            match self.fronts.worker_of(front, request) {
                Some(worker) => return Ok(worker),
                None => self.pick(position, front)?,
            }
        }
        found(position, Difference::CannotHappen)
    }

    /// Workers pick while the queue of a front is full and one is idle.
    fn make_room(&mut self, position: Position, front: NodeNo) -> PlayResult<()>
        ensures stays { Stays self.old.links.played self.new.links.played }
    {
        for _ in 0..self.farm().site().workers {
            if self.fronts.room(front) > 0 || !self.fronts.has_idle(front) {
                return Ok(());
            }
            self.pick(position, front)?;
        }
        Ok(())
    }

    /// A request that has arrived comes into the queue of its front.
    fn hand_over(&mut self, position: Position, request: &Request) -> PlayResult<()>
        ensures stays { Stays self.old.links.played self.new.links.played }
    {
        let End { conn, node, peer } = request.end;
        self.make_room(position, node)?;
        let place = self.fronts.arrived_on_before(conn, request.number);
        self.links.played.deliver(position, peer, node, place)?;
        self.fronts
            .set_state(request.number, RequestState::HandedOver);
        self.fronts.push(node, InHand::Told(request.number))?;
        Ok(())
    }

    // ---- requests are handed over together

    /// Whether a line that was not read may tell of a request that has arrived at a front, up to this one. More is read then.
    pub(super) fn lacks_lines(&mut self, front: NodeNo, last: u64) -> bool
        ensures stays { Stays self.old.links.played self.new.links.played }
    {
        self.fronts.lacks_lines(self.book.told_from(), front, last)
    }

    /// So many of the requests that have arrived at a front, up to this one, are handed over, by their places in the book.
    pub(super) fn hand_over_some(
        &mut self,
        position: Position,
        front: NodeNo,
        last: u64,
        count: usize,
    ) -> PlayResult<()>
        ensures stays { Stays self.old.links.played self.new.links.played }
    {
        for _ in 0..count {
            let Some(request) = self.fronts.first_by_place(front, last) else {
                return Ok(());
            };
            self.hand_over(position, &request)?;
        }
        Ok(())
    }
}
