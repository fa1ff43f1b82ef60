//! The book: what is charged has its place there, and comes in this order.

ghost use Rattle.farm_player.specs.Reconciling.{Stays};

use crate::fault::{Difference, PlayResult, found};
use crate::player::Player;
use dia_base::Moment;
use record_reader::{End, Finished, Position};
use record_state::{Request, Worker, is_first, is_refused};

impl<'s> Player<'s> {
    /// How many entries the book has.
    fn entries(&self) -> u64 {
        self.farm().book().history().len() as u64
    }

    /// The book has one entry more than its place.
    pub(super) fn has_one_more(&self, position: Position, why: Difference) -> PlayResult<()> {
        if self.entries() == self.book.place().saturating_add(1) {
            Ok(())
        } else {
            found(position, why)
        }
    }

    /// What has the next place in the book happens, if it may: a charge, or a sweep where it can be no charge. Whether it did.
    pub fn charge_next(&mut self, are_all_read: bool) -> PlayResult<bool>
        ensures stays { Stays self.old.links.played self.new.links.played }
    {
        if let Some(charge) = self.book.next_charge() {
            let number = charge.request;
            return self.charge_new(number);
        }
        match self.book.take_next_sweep(&self.fronts, are_all_read) {
            Some(sweep) => {
                self.sweep(sweep.position, sweep.moment, Some(sweep.sessions))?;
                self.book.advance();
                Ok(true)
            }
            None => Ok(false),
        }
    }

    /// The book is swept. `sessions`: how many that ends, if a line tells.
    pub(super) fn sweep(
        &mut self,
        position: Position,
        moment: Moment,
        sessions: Option<u64>,
    ) -> PlayResult<()>
        ensures stays { Stays self.old.links.played self.new.links.played }
    {
        let open = self.farm().book().open_sessions();
        self.links.played.sweep(position, moment)?;
        let ended = open.saturating_sub(self.farm().book().open_sessions());
        if sessions.map_or(false, |told| told != ended) {
            return found(position, Difference::SweepsOtherwise);
        }
        self.has_one_more(position, Difference::SweepsOtherwise)
    }

    /// The request that has the next place in the book is charged, if it has arrived and a worker may have it. Whether it was.
    fn charge_new(&mut self, number: u64) -> PlayResult<bool>
        ensures stays { Stays self.old.links.played self.new.links.played }
    {
        let Some(request) = self.fronts.due(number)? else {
            return Ok(false);
        };
        let Some(charge) = self.book.take_charge() else {
            return Ok(false);
        };
        if self.book.has_other_than(&charge, request.key) {
            return found(charge.position, Difference::OtherEntry);
        }
        self.charge(&request, charge.position, charge.moment, Some(&charge))?;
        self.has_one_more(charge.position, Difference::NotNew)?;
        self.book.advance();
        Ok(true)
    }

    /// A request is charged that the book has already, or is answered without it. Whether there was one.
    pub fn charge_repeat(&mut self) -> PlayResult<bool>
        ensures stays { Stays self.old.links.played self.new.links.played }
    {
        self.charge_repeat_of(None)
    }

    /// The same; if a connection and an end of one are given, of a request that came on the connection, of which a line tells above that of
    /// the end.
    pub(super) fn charge_repeat_of(&mut self, above: Option<(usize, usize)>) -> PlayResult<bool>
        ensures stays { Stays self.old.links.played self.new.links.played }
    {
        for at in 0..self.book.repeats() {
            let Some(repeat) = self.book.due_repeat(at) else {
                continue;
            };
            let number = repeat.request;
            let is_above = match above {
                Some((conn, end)) => self.fronts.is_told_above(number, conn, end),
                None => true,
            };
            if is_above && self.charge_repeat_at(at, number)? {
                return Ok(true);
            }
        }
        Ok(false)
    }

    /// The repeat at this place of them, of this request, is charged, if it may be. Whether it was.
    fn charge_repeat_at(&mut self, at: usize, number: u64) -> PlayResult<bool>
        ensures stays { Stays self.old.links.played self.new.links.played }
    {
        let Some(request) = self.fronts.due(number)? else {
            return Ok(false);
        };
        let Some(repeat) = self.book.take_repeat(at) else {
            return Ok(false);
        };
        self.charge(&request, repeat.position, repeat.moment, Some(&repeat))?;
        Ok(true)
    }

    /// The worker that has a request charges or refuses it, as a line tells; where none does, it charges it. Then nothing is left of it.
    pub(super) fn charge(
        &mut self,
        request: &Request,
        position: Position,
        moment: Moment,
        told: Option<&Finished>,
    ) -> PlayResult<()>
        ensures stays { Stays self.old.links.played self.new.links.played }
    {
        let worker = self.picked(position, request)?;
        match told {
            Some(finished) => self.finish(worker, request.end, finished)?,
            None => self.charge_alone(position, worker, moment)?,
        }
        self.fronts.remove(request.number);
        self.drop_if_done(position, request.end)
    }

    /// A worker charges the request that it holds, of which no line tells. It is new.
    pub(super) fn charge_alone(
        &mut self,
        position: Position,
        worker: Worker,
        moment: Moment,
    ) -> PlayResult<()>
        ensures stays { Stays self.old.links.played self.new.links.played }
    {
        self.links.played.charge(position, worker, moment)?;
        self.emit(position, worker)?;
        self.has_one_more(position, Difference::NotNew)
    }

    /// A worker charges or refuses the request that it holds, which came on this connection, as a line tells.
    fn finish(&mut self, worker: Worker, end: End, finished: &Finished) -> PlayResult<()>
        ensures stays { Stays self.old.links.played self.new.links.played }
    {
        let position = finished.position;
        let entries = self.entries();
        let since = self.farm().flight(end.node, end.peer).len();
        if is_refused(self.alloc, finished) {
            self.links.played.refuse(position, worker)?;
        } else {
            self.links.played.charge(position, worker, finished.moment)?;
        }
        self.emit(position, worker)?;
        if !finished.is_new && self.entries() != entries {
            return found(position, Difference::IsNew);
        }
        self.compare_answer(end, finished, since)
    }

    /// What the front has sent on a connection beyond so many messages is the answer that a line tells, unless an end of it has gone.
    fn compare_answer(&mut self, end: End, finished: &Finished, since: usize) -> PlayResult<()>
        ensures stays { Stays self.old.links.played self.new.links.played }
    {
        let (position, node, peer) = (finished.position, end.node, end.peer);
        let Some(answer) = &finished.answer else {
            return Ok(());
        };
        let is_there = self.links.connections.end_between(node, peer) == Some(end.conn);
        if !is_there || !self.farm().has_end(peer, node) {
            return Ok(());
        }
        let sent = self.farm().flight(node, peer).get(since..).unwrap_or(&[]);
        if !is_first(sent, answer) {
            return found(position, Difference::AnsweredOtherwise);
        }
        if finished.was_posted {
            self.links
                .played
                .hand_to_silent(position, node, peer, since)?;
        }
        Ok(())
    }
}
