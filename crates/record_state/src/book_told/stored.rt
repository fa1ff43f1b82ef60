//! A book on disk outlives the process of its fronts, which may end before it has written down what it has charged. The book says which
//! entries there are; one of which no line tells is that of a request that was under way.

use crate::book_told::BookTold;
use dia_base::Moment;
use record_reader::{Action, BookEntry, BookEntryKind, Finished, NodeEvent, Position, RequestKey};
use std::alloc::{AllocError, Global};

/// A book on disk.
pub struct StoredBook {
    /// The entry at the place of the farm's next one; none behind the last.
    next: Option<BookEntry>,
    /// When fronts began again last, as far as was read. What stands before is told, or will not be.
    begun: Moment,
    /// How many requests were told before that.
    begun_at: u64,
    /// The keys of the entries up to then that were not played.
    needed: Vec<RequestKey>,
    /// The places of entries of which no line tells.
    untold: Vec<u64>,
}

// By hand, so that each exit of an owner is proved with one call.
impl Drop for StoredBook {
    fn drop(self) {
        let StoredBook {
            next: _,
            begun: _,
            begun_at: _,
            needed: _,
            untold: _,
        } = self;
    }
}

/// Whether an entry is the sweep that was told with this moment.
fn is_sweep_at(entry: &BookEntry, sweep: Option<Moment>) -> bool {
    entry.kind == BookEntryKind::Sweep && sweep == Some(entry.moment)
}

impl StoredBook {
    fn new(alloc: Global) -> Self {
        StoredBook {
            next: None,
            begun: Moment(0),
            begun_at: 0,
            needed: Vec::new(alloc),
            untold: Vec::new(alloc),
        }
    }

    /// Whether a line that was not read yet may tell of the next entry, where this is the moment of the next sweep that was told.
    pub fn may_be_told(&self, sweep: Option<Moment>) -> bool {
        match self.next {
            Some(entry) => entry.moment > self.begun && !is_sweep_at(&entry, sweep),
            None => false,
        }
    }

    /// Whether the next entry is the sweep that was told with this moment.
    pub fn is_sweep_next(&self, sweep: Moment) -> bool {
        match self.next {
            Some(entry) => is_sweep_at(&entry, Some(sweep)),
            None => false,
        }
    }
}

impl BookTold {
    /// The book of the fronts is on disk. It has no entries until they are [looked up](Self::set_next_entry).
    pub fn set_stored(&mut self) {
        self.stored = Some(StoredBook::new(self.alloc));
    }

    /// By which the request of an event is found in the book on disk, if one is given.
    pub fn key_of(&self, event: &NodeEvent) -> Option<RequestKey> {
        match &event.action {
            Action::Receive(message) if self.stored.is_some() => {
                RequestKey::of_message(self.alloc, message)
            }
            _ => None,
        }
    }

    /// What the book on disk has at the next place; none behind its last entry.
    pub fn set_next_entry(&mut self, next: Option<BookEntry>) {
        if let Some(stored) = &mut self.stored {
            stored.next = next;
        }
    }

    /// A line was read by which fronts begin again at this moment, behind so many requests.
    pub fn add_beginning(&mut self, moment: Moment, requests_before: u64) {
        if let Some(stored) = &mut self.stored {
            stored.begun = stored.begun.max(moment);
            stored.begun_at = requests_before;
        }
    }

    /// Up to which moment the entries are wanted that were not played: the next one is told by no line. None if they are not wanted.
    pub fn needs_entries_until(&self, are_all_read: bool) -> Option<Moment> {
        let _untold = self.untold_next(are_all_read)?;
        let begun = self.stored.as_ref()?.begun;
        Some(if are_all_read {
            Moment(u64::MAX)
        } else {
            begun
        })
    }

    /// The keys of the entries up to then.
    pub fn set_needed(&mut self, needed: Vec<RequestKey>) {
        if let Some(stored) = &mut self.stored {
            stored.needed = needed;
        }
    }

    /// Those keys; none where they were not wanted.
    pub fn needed(&self) -> &[RequestKey] {
        match &self.stored {
            Some(stored) => stored.needed.as_slice(),
            None => &[],
        }
    }

    /// Of requests with lower numbers no line that was not read tells: fronts have begun again since.
    pub fn told_from(&self) -> u64 {
        self.stored.as_ref().map_or(0, |stored| stored.begun_at)
    }

    /// The same where all records were read: no line that was not read tells of any.
    pub fn under_way_before(&self, are_all_read: bool) -> u64 {
        if are_all_read {
            u64::MAX
        } else {
            self.told_from()
        }
    }

    /// The next entry of the book on disk.
    fn next_entry(&self) -> Option<BookEntry> {
        self.stored.as_ref()?.next
    }

    /// Whether the next entry of the book on disk is of this moment or one before.
    pub fn is_behind(&self, moment: Moment) -> bool {
        match self.next_entry() {
            Some(entry) => entry.moment <= moment,
            None => false,
        }
    }

    /// Whether the book on disk has another entry at the next place than a charge of the request with this key, as a line tells it.
    pub fn has_other_than(&self, charge: &Finished, key: Option<RequestKey>) -> bool {
        let Some(stored) = &self.stored else {
            return false;
        };
        match (stored.next, key) {
            (Some(entry), Some(key)) => {
                entry.moment != charge.moment || entry.kind != BookEntryKind::Charge(key)
            }
            _ => true,
        }
    }

    // ---- entries of which no line tells

    /// The next entry of the book on disk, if no line tells of it.
    pub fn untold_next(&self, are_all_read: bool) -> Option<BookEntry> {
        let stored = self.stored.as_ref()?;
        let entry = stored.next?;
        let is_read = are_all_read || entry.moment <= stored.begun;
        let is_told = self.is_next_known() || is_sweep_at(&entry, self.next_sweep());
        if is_read && !is_told {
            Some(entry)
        } else {
            None
        }
    }

    /// The next entry of the book on disk, if it changes the terms. No line tells of it: fronts that write a record change none while
    /// they serve.
    pub fn next_change(&self) -> Option<BookEntry> {
        let entry = self.next_entry()?;
        if entry.kind == BookEntryKind::Change && !self.is_next_known() {
            Some(entry)
        } else {
            None
        }
    }

    /// The next entry was made, of which no line tells. After an error it is as it was.
    pub fn advance_untold(&mut self) -> Result<(), AllocError> {
        let place = self.place;
        if let Some(stored) = &mut self.stored {
            stored.untold.push(place)?;
        }
        self.advance();
        Ok(())
    }

    /// The places of entries of which no line tells; none if no book on disk is given.
    pub fn untold(&self) -> Option<&[u64]> {
        Some(self.stored.as_ref()?.untold.as_slice())
    }

    /// The next entry of the book on disk, if no line tells of it, and should.
    pub fn entry_left(&self) -> Option<Position> {
        let entry = self.untold_next(true)?;
        if entry.kind == BookEntryKind::Change {
            return None;
        }
        Some(entry.position)
    }
}
