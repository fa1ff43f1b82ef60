//! Entries of a book on disk of which no line tells: the process of its fronts has ended before it has written down what it has charged.
//! Such an entry is that of a request that was under way.

ghost use Rattle.farm_player.specs.Reconciling.{Stays};

use crate::fault::{Difference, PlayResult};
use crate::player::Player;
use dia_base::NodeNo;
use farm_world::Step;
use record_reader::{BookEntry, BookEntryKind, Position, RequestKey};

/// What came of an entry of which no line tells.
#[derive(Clone, Copy, PartialEq, Eq)]
enum Untold {
    Played,
    /// A worker is idle that had a request which the book does not have.
    Freed,
    Waits,
}

/// Where a request is in flight that no line tells of.
#[derive(Clone, Copy)]
struct InFlight {
    from: NodeNo,
    front: NodeNo,
    place: usize,
}

impl<'s> Player<'s> {
    /// The next entry of the book on disk is played, if no line tells of it. Whether it was, or a worker is idle for it.
    pub fn play_untold(&mut self, are_all_read: bool) -> PlayResult<bool>
        ensures stays { Stays self.old.links.played self.new.links.played }
    {
        let Some(entry) = self.book.untold_next(are_all_read) else {
            return Ok(false);
        };
        let what = match entry.kind {
            BookEntryKind::Charge(key) => self.charge_untold(&entry, key, are_all_read)?,
            BookEntryKind::Sweep => {
                self.sweep(entry.position, entry.moment, None)?;
                Untold::Played
            }
            BookEntryKind::Change => Untold::Waits,
        };
        if what == Untold::Played {
            self.book.advance_untold()?;
        }
        Ok(what != Untold::Waits)
    }

    /// The terms change so, as this entry tells.
    pub fn change_terms(&mut self, entry: &BookEntry, step: &Step) -> PlayResult<()>
        ensures stays { Stays self.old.links.played self.new.links.played }
    {
        self.links.played.change_terms(entry.position, step)?;
        self.has_one_more(entry.position, Difference::OtherTerms)?;
        self.book.advance();
        Ok(())
    }

    /// A request that was under way is charged. Its answer reaches nobody.
    fn charge_untold(
        &mut self,
        entry: &BookEntry,
        key: RequestKey,
        are_all_read: bool,
    ) -> PlayResult<Untold>
        ensures stays { Stays self.old.links.played self.new.links.played }
    {
        let BookEntry {
            position,
            moment,
            ..
        } = *entry;
        if let Some(request) = self.fronts.untold(key) {
            if !self.fronts.has_worker(&request)? {
                return self.free_worker(position, request.end.node, are_all_read);
            }
            self.charge(&request, position, moment, None)?;
        } else {
            let Some(request) = self.in_flight(key) else {
                return Ok(Untold::Waits);
            };
            let InFlight { from, front, place } = request;
            if !self.fronts.has_spare(front) {
                return self.free_worker(position, front, are_all_read);
            }
            self.links.played.deliver(position, from, front, place)?;
            let worker = self.pick_passing(position, front)?;
            self.charge_alone(position, worker, moment)?;
        }
        Ok(Untold::Played)
    }

    /// A worker is wanted, and has a request that was under way and that the book does not have: it was a repeat, or was not charged. It
    /// is refused, and its answer reaches nobody.
    fn free_worker(
        &mut self,
        position: Position,
        front: NodeNo,
        are_all_read: bool,
    ) -> PlayResult<Untold>
        ensures stays { Stays self.old.links.played self.new.links.played }
    {
        let before = self.book.under_way_before(are_all_read);
        let needed = self.book.needed();
        let held = self.fronts.untold_in_hand(front, before, needed);
        let may_pick = self.fronts.has_idle(front)
            && self.fronts.is_untold_first(front, before, needed);
        match held {
            Some((worker, number)) => {
                self.refuse(position, worker)?;
                self.fronts.remove(number);
                Ok(Untold::Freed)
            }
            None if may_pick => {
                self.pick(position, front)?;
                Ok(Untold::Freed)
            }
            None => {
                self.fronts.starve(front)?;
                Ok(Untold::Waits)
            }
        }
    }

    /// Where a request with this key is in flight to a front.
    fn in_flight(&self, key: RequestKey) -> Option<InFlight> {
        self.farm().site().links.as_slice().iter().find_map(|link| {
            self.in_flight_from(link.from, link.to, key)
                .or_else(|| self.in_flight_from(link.to, link.from, key))
        })
    }

    /// The same of those from one node to another.
    fn in_flight_from(&self, from: NodeNo, front: NodeNo, key: RequestKey) -> Option<InFlight> {
        if !self.is_front(front) {
            return None;
        }
        let mut flight = self.farm().flight(from, front).iter();
        let place = flight.position(|message| message.header.request
            && RequestKey::of_message(self.alloc, message) == Some(key))?;
        Some(InFlight { from, front, place })
    }
}
