//! What the records tell of the book, in the order of its places.
//!
//! - `stored`: what a book on disk has beside it, of which no line may tell.

mod stored;

use crate::fronts::Fronts;
use dia_base::Moment;
use record_reader::{Finished, Position, Sweep};
use std::alloc::{AllocError, Global};
use std::collections::VecDeque;
use stored::StoredBook;

/// What was told of the book and is not played.
pub struct BookTold {
    alloc: Global,
    /// The place of the next entry of the book.
    place: u64,
    /// New requests, which wait for their places.
    charges: Vec<Finished>,
    /// Requests of which the book has the first already or will have it, and those that were answered without it.
    repeats: Vec<Finished>,
    sweeps: VecDeque<Sweep>,
    /// The book on disk, if one is given.
    stored: Option<StoredBook>,
}

// By hand, so that each exit of an owner is proved with one call.
impl Drop for BookTold {
    fn drop(self) {
        let BookTold {
            alloc: _,
            place: _,
            charges: _,
            repeats: _,
            sweeps: _,
            stored: _,
        } = self;
    }
}

/// How many requests were told before the first line that tells of one at this place or a later one.
fn requests_before(finished: &[Finished], place: Option<u64>) -> u64 {
    let mut before = u64::MAX;
    for line in finished {
        if line.place >= place {
            before = before.min(line.requests_before);
        }
    }
    before
}

impl BookTold {
    /// The empty book, of which nothing was told.
    pub fn new(alloc: Global) -> Self {
        BookTold {
            alloc,
            place: 0,
            charges: Vec::new(alloc),
            repeats: Vec::new(alloc),
            sweeps: VecDeque::new(alloc),
            stored: None,
        }
    }

    /// The place of the next entry.
    pub fn place(&self) -> u64 {
        self.place
    }

    /// The next entry was made.
    pub fn advance(&mut self) {
        self.place = self.place.saturating_add(1);
    }

    /// The place of a new request, where another one has it.
    pub fn place_taken(&self, finished: &Finished) -> Option<u64> {
        let place = finished.place?;
        let is_taken = self.is_known(place) || place < self.place;
        if finished.is_new && is_taken {
            Some(place)
        } else {
            None
        }
    }

    /// A new request waits for its place in the book; a repeat for that of the first.
    pub fn add(&mut self, finished: Finished) -> Result<(), AllocError> {
        if finished.is_new && finished.place.is_some() {
            self.charges.push(finished)?;
        } else {
            self.repeats.push(finished)?;
        }
        Ok(())
    }

    /// Whether a line was read that tells of a new request at this place.
    fn is_known(&self, place: u64) -> bool {
        self.charges
            .iter()
            .any(|charge| charge.place == Some(place))
    }

    pub fn add_sweep(&mut self, sweep: Sweep) -> Result<(), AllocError> {
        self.sweeps.push_back(sweep)?;
        Ok(())
    }

    fn next_place(&self) -> Option<usize> {
        let next = Some(self.place);
        self.charges.iter().position(|charge| charge.place == next)
    }

    /// The new request that has the next place.
    pub fn next_charge(&self) -> Option<&Finished> {
        self.charges.get(self.next_place()?)
    }

    /// Takes out the new request that has the next place.
    pub fn take_charge(&mut self) -> Option<Finished> {
        let at = self.next_place()?;
        if at >= self.charges.len() {
            return None;
        }
        Some(self.charges.remove(at))
    }

    /// How many repeats there are.
    pub fn repeats(&self) -> usize {
        self.repeats.len()
    }

    /// The repeat at this place of them, where the book has the first already, or was not asked.
    pub fn due_repeat(&self, at: usize) -> Option<&Finished> {
        let repeat = self.repeats.get(at)?;
        if repeat.place < Some(self.place) {
            Some(repeat)
        } else {
            None
        }
    }

    /// Takes out the repeat at this place of them.
    pub fn take_repeat(&mut self, at: usize) -> Option<Finished> {
        if at >= self.repeats.len() {
            return None;
        }
        Some(self.repeats.remove(at))
    }

    /// Takes out the first sweep, if it may have the next place: a book on disk says so, or there is none, and no request can have it.
    /// `are_all_read`: whether all records were read to their ends.
    pub fn take_next_sweep(&mut self, fronts: &Fronts, are_all_read: bool) -> Option<Sweep> {
        let moment = self.next_sweep()?;
        let is_next = match &self.stored {
            Some(stored) => stored.is_sweep_next(moment),
            None => are_all_read || !self.waits_for_request(fronts),
        };
        if is_next {
            self.sweeps.pop_front()
        } else {
            None
        }
    }

    /// The moment of the first sweep.
    fn next_sweep(&self) -> Option<Moment> {
        Some(self.sweeps.front()?.moment)
    }

    /// Whether a line that was not read yet may tell what stands next in the book.
    pub fn may_be_told(&self, fronts: &Fronts) -> bool {
        if self.is_next_known() {
            return false;
        }
        match &self.stored {
            Some(stored) => stored.may_be_told(self.next_sweep()),
            None => self.waits_for_request(fronts) || self.waits_for_sweep(),
        }
    }

    /// Whether a request of which no line tells yet what became of it may have the next place.
    fn waits_for_request(&self, fronts: &Fronts) -> bool {
        match self.open_up_to() {
            Some(number) => fronts.has_unfinished_before(number),
            None => false,
        }
    }

    /// Requests with lower numbers, of which no line tells yet what became of them, may have the next place: they were told before
    /// each line that tells of a later place. None where there is no such line.
    fn open_up_to(&self) -> Option<u64> {
        let place = Some(self.place);
        let swept = match self.sweeps.front() {
            Some(sweep) => sweep.requests_before,
            None => u64::MAX,
        };
        let before = requests_before(&self.charges, None)
            .min(requests_before(&self.repeats, place))
            .min(swept);
        if before < u64::MAX {
            Some(before)
        } else {
            None
        }
    }

    /// Whether a line was read that tells what has the next place.
    fn is_next_known(&self) -> bool {
        self.is_known(self.place)
    }

    /// Whether a sweep stands next in the book whose line was not read yet: a line tells of a later place. A sweep is told once it
    /// is collected, as a charge is.
    fn waits_for_sweep(&self) -> bool {
        let place = Some(self.place);
        self.sweeps.is_empty()
            && (self.charges.iter().any(|charge| charge.place > place)
                || self.repeats.iter().any(|repeat| repeat.place > place))
    }

    /// The first line of a request at the next place or a later one, where no line tells what has the next place.
    pub fn behind_missing(&self) -> Option<Position> {
        if self.is_next_known() {
            return None;
        }
        let place = Some(self.place);
        let first = self
            .charges
            .iter()
            .chain(self.repeats.iter())
            .find(|line| line.place >= place)?;
        Some(first.position)
    }

    /// The first line of a request that was not played.
    pub fn first_left(&self) -> Option<Position> {
        let first = self.charges.first().or(self.repeats.first())?;
        Some(first.position)
    }
}
