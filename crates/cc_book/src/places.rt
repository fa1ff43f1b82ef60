//! Where requests stand in the history, by their Session-Id and their key.

ghost use Rattle.std.specs.Prelude.{◌≡◌, ℕ, ◌+◌, ◌<◌, ◌≤◌, List, [], Some, unwrap_or, IfOk, if◌then◌else◌};
ghost use Rattle.indexmap.specs.IndexMap.{get, spare};
ghost use Rattle.cc_book.specs.Duplicate.{key_of, same_session};
ghost use Rattle.cc_book.specs.Places.{FindsKept, HasPlaces, IndexesNext, IsIndexed};

use cc_view::CcRequest;
use dia_avp::Octets;
use indexmap::IndexMap;
use std::alloc::{AllocError, Global};

/// The places of the requests of a history. A Session-Id is kept once for all requests of its session, however many
/// they are: a key is the place of the first of them, and a number.
#[derive(Debug)]
pub struct Places {
    /// The place of the first request of each session, by its Session-Id.
    pub firsts: IndexMap<Octets, usize>,
    /// The place of the first request with each key, by the place of the first of its session and by its number.
    pub numbered: IndexMap<(usize, u32), usize>,
}

// By hand, so that each exit of an owner is proved with one call.
impl Drop for Places {
    fn drop(self) {
        let Places {
            firsts: _,
            numbered: _,
        } = self;
    }
}

impl Places {
    /// The places of no request, with room for those of so many.
    pub fn new(alloc: Global, room: usize) -> Result<Self, AllocError>
        ensures indexed { IfOk result (IsIndexed []) }
        ensures room { IfOk result (HasPlaces room 0) }
    {
        Ok(Places {
            firsts: IndexMap::with_capacity(alloc, room)?,
            numbered: IndexMap::with_capacity(alloc, room)?,
        })
    }

    /// The place of the first request with the key of this one.
    pub fn find(&self, request: &CcRequest) -> Option<usize>
        ensures { FindsKept self.now (key_of request.now) result }
    {
        let first = *self.firsts.get(&request.session)?;
        self.numbered.get(&(first, request.number)).copied()
    }

    /// Adds the place of a request whose key is new: it stands behind all others. There is room for it.
    pub fn add(&mut self, session: Octets, number: u32, place: usize)
        requires room_firsts { 0 < spare self.old.firsts }
        requires room_numbered { 0 < spare self.old.numbered }
        ensures indexed { IndexesNext self.old self.new place (record { session = session; number = number }) }
        ensures firsts { spare self.old.firsts ≤ spare self.new.firsts + 1 }
        ensures numbered { spare self.old.numbered ≤ spare self.new.numbered + 1 }
    {
        let first = self.first_or_add(session, place);
        self.numbered.insert((first, number), place).unwrap();
    }

    /// The place of the first request of a session, which is this one where none is known.
    fn first_or_add(&mut self, session: Octets, place: usize) -> usize
        requires { 0 < spare self.old.firsts }
        ensures first { result ≡ unwrap_or (get same_session self.old.firsts session) place }
        ensures firsts { (id : List ℕ) → get same_session self.new.firsts id ≡ (if same_session session id then Some result else get same_session self.old.firsts id) }
        ensures room { spare self.old.firsts ≤ spare self.new.firsts + 1 }
        ensures numbered { self.new.numbered ≡ self.old.numbered }
    {
        if let Some(first) = self.firsts.get(&session).copied() {
            return first;
        }
        self.firsts.insert(session, place).unwrap();
        place
    }
}
