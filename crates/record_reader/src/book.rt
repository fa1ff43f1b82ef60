//! The entries of a book on disk, as `farm book export` prints them.

use crate::fault::{EntryFault, RecordFault, found, of_group};
use crate::group::GroupFault;
use crate::lines::RecordLines;
use crate::position::{Position, Source};
use crate::quoted::{is_word, unquoted};
use crate::terms::{items_in, step_in};
use byteorder::{BigEndian, ByteOrder};
use dia_avp::{ViewWire, Wire};
use dia_base::Moment;
use dia_base::codes::{CC_REQUEST_NUMBER, SESSION_ID};
use dia_message::Message;
use farm_base::{Site, Step};
use farm_script::{LineFault, number_of, words_of};
use sha2::{Digest, Sha256};
use std::alloc::Global;
use std::collections::VecDeque;
use std::io::Read;

/// By what a request is found: 16 octets of the SHA-256 of its Session-Id with, behind it, the four octets of its CC-Request-Number.
#[derive(Clone, Copy, PartialEq, Eq)]
pub struct RequestKey(u128);

impl RequestKey {
    fn of(session: &[u8], number: u32) -> RequestKey {
        let octets = number.to_be_bytes();
        let mut hasher = Sha256::new();
        hasher.update(session);
        hasher.update(octets.as_slice());
        let digest = hasher.finalize();
        RequestKey(BigEndian::read_u128(&digest))
    }

    /// That of a message; none if it lacks one of both.
    pub fn of_message(alloc: Global, message: &Message) -> Option<RequestKey> {
        let avps = ViewWire::split(alloc, &message.body).ok()?;
        let session = avps
            .iter()
            .find(|avp| avp.code == SESSION_ID && avp.vendor == 0)?;
        let number = avps
            .iter()
            .find(|avp| avp.code == CC_REQUEST_NUMBER && avp.vendor == 0)?;
        let [a, b, c, d] = number.value.as_slice() else {
            return None;
        };
        let number = u32::from_be_bytes([*a, *b, *c, *d]);
        Some(RequestKey::of(session.value.as_slice(), number))
    }
}

/// What an entry of a book is.
#[derive(Clone, Copy, PartialEq, Eq)]
pub enum BookEntryKind {
    /// A request was charged.
    Charge(RequestKey),
    Sweep,
    /// The terms changed ([`BookEntries::take_change`]).
    Change,
}

/// An entry of a book.
#[derive(Clone, Copy)]
pub struct BookEntry {
    pub position: Position,
    pub moment: Moment,
    pub kind: BookEntryKind,
}

/// The entries of a book, one after the other. They take the memory of one line, and of the entries that were looked at ahead.
#[derive(Drop)]
pub struct BookEntries<R> {
    alloc: Global,
    lines: RecordLines<R>,
    /// The place of the next line.
    place: u64,
    /// The entries before it that were read, and not let go.
    ahead: VecDeque<BookEntry>,
    /// Of each change of the terms that was read and not taken, the items of a schedule's step.
    changes: VecDeque<Vec<u8>>,
    is_at_end: bool,
}

impl<R: Read> BookEntries<R> {
    /// The entries from where the reader stands.
    pub fn new(alloc: Global, reader: R) -> Self {
        BookEntries {
            alloc,
            lines: RecordLines::new(alloc, reader),
            place: 0,
            ahead: VecDeque::new(alloc),
            changes: VecDeque::new(alloc),
            is_at_end: false,
        }
    }

    /// The entry at this place; none behind the last one. Places are asked for in their order.
    pub fn at(&mut self, place: u64) -> Result<Option<BookEntry>, RecordFault> {
        for _ in 0..u64::MAX {
            let first = self.place.saturating_sub(self.ahead.len() as u64);
            if first < place {
                let _earlier = self.ahead.pop_front();
            }
            if !self.ahead.is_empty() && first >= place || self.is_at_end {
                break;
            }
            if self.ahead.is_empty() {
                self.read()?;
            }
        }
        Ok(self.ahead.front().copied())
    }

    /// Whether an entry that is no change of the terms stands at the place that was asked for last, or behind it.
    pub fn has_other_ahead(&mut self) -> Result<bool, RecordFault> {
        for _ in 0..u64::MAX {
            if self
                .ahead
                .iter()
                .any(|entry| entry.kind != BookEntryKind::Change)
            {
                return Ok(true);
            }
            if self.is_at_end {
                break;
            }
            self.read()?;
        }
        Ok(false)
    }

    /// The step that changes the terms as the first change does that was not taken: that of this entry.
    pub fn take_change(&mut self, site: &Site, entry: &BookEntry) -> Result<Step, RecordFault> {
        let Some(items) = self.changes.pop_front() else {
            return found(entry.position, EntryFault::OtherPlace);
        };
        match step_in(self.alloc, site, entry.moment, &items) {
            Ok(step) => Ok(step),
            Err(fault) => Err(of_group(fault, entry.position)),
        }
    }

    /// The keys of the requests that were charged up to this moment, from the place on that was asked for last.
    pub fn keys_until(&mut self, moment: Moment) -> Result<Vec<RequestKey>, RecordFault> {
        for _ in 0..u64::MAX {
            let is_behind = match self.ahead.back() {
                Some(last) => last.moment > moment,
                None => false,
            };
            if is_behind || self.is_at_end {
                break;
            }
            self.read()?;
        }
        let mut keys = Vec::new(self.alloc);
        for entry in self.ahead.iter() {
            if let BookEntryKind::Charge(key) = entry.kind {
                keys.push(key)?;
            }
        }
        Ok(keys)
    }

    /// Reads the next line.
    fn read(&mut self) -> Result<(), RecordFault> {
        let line = match self.lines.next_line(self.alloc) {
            Ok(line) => line,
            Err(fault) => return Err(of_group(GroupFault::Lines(fault), self.position())),
        };
        match line {
            Some(line) => {
                let entry = self.entry_of(&line)?;
                self.ahead.push_back(entry)?;
                self.place = self.place.saturating_add(1);
            }
            None => self.is_at_end = true,
        }
        Ok(())
    }

    fn position(&self) -> Position {
        Position {
            source: Source::Book,
            line: self.lines.count,
        }
    }

    /// The entry that a line tells, which has the next place.
    fn entry_of(&mut self, line: &[u8]) -> Result<BookEntry, RecordFault> {
        let position = self.position();
        match entry_in(self.alloc, line) {
            Ok(told) if told.place != self.place => found(position, EntryFault::OtherPlace),
            Ok(told) => {
                let Told {
                    place: _,
                    moment,
                    kind,
                    change,
                } = told;
                if let Some(items) = change {
                    self.changes.push_back(items)?;
                }
                Ok(BookEntry {
                    position,
                    moment,
                    kind,
                })
            }
            Err(fault) => Err(of_group(GroupFault::Words(fault), position)),
        }
    }
}

/// What a line tells of an entry.
#[derive(Drop)]
struct Told {
    place: u64,
    moment: Moment,
    kind: BookEntryKind,
    /// The items of a schedule's step, if the entry changes the terms.
    change: Option<Vec<u8>>,
}

/// What a line tells.
fn entry_in(alloc: Global, line: &[u8]) -> Result<Told, LineFault> {
    let words = words_of(alloc, line)?;
    let [entry, place, at, moment, kind, rest @ ..] = words.as_slice() else {
        return Err(LineFault::WrongCount);
    };
    if !is_word(entry, "entry") || !is_word(at, "moment") {
        return Err(LineFault::UnknownWord);
    }
    let (place, moment) = (number_of(place)?, Moment(number_of(moment)?));
    let (kind, change) = if is_word(kind, "charge") {
        (charge_in(alloc, rest)?, None)
    } else if is_word(kind, "sweep") {
        (BookEntryKind::Sweep, None)
    } else if is_word(kind, "change") {
        (BookEntryKind::Change, Some(items_in(alloc, rest)?))
    } else {
        return Err(LineFault::UnknownWord);
    };
    Ok(Told {
        place,
        moment,
        kind,
        change,
    })
}

/// `session "SESSION" number N`, and what follows.
fn charge_in(alloc: Global, words: &[&[u8]]) -> Result<BookEntryKind, LineFault> {
    let [session, text, word, number, ..] = words else {
        return Err(LineFault::WrongCount);
    };
    if !is_word(session, "session") || !is_word(word, "number") {
        return Err(LineFault::UnknownWord);
    }
    let Ok(number) = u32::try_from(number_of(number)?) else {
        return Err(LineFault::BadNumber);
    };
    let session = unquoted(alloc, text)?;
    Ok(BookEntryKind::Charge(RequestKey::of(session.as_slice(), number)))
}
