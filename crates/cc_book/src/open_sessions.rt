//! The sessions that are open, by their Session-Id, and what they hold of each account.

ghost use Rattle.std.specs.Prelude.{◌≡◌, ℕ, ◌+◌, ◌%◌, ◌<◌, ◌≤◌, ◌^◌, ◌++◌, ◌∷◌, [], length, replicate, slice_get, slice_set, count_by, None, Some, IfOk, OnOk, OnErr, MatchOption, nat_le};
ghost use Rattle.cc_book.specs.Session.{deadline_at};
ghost use Rattle.cc_book.specs.OpenSessions.{GoesOnAt};
ghost use Rattle.cc_book.specs.Standing.{IsOpenAt, held_by_all, held_in, is_due, place_in, reserved_in, without_at, without_due};

use crate::session::{OpenSession, held_in, is_past};
use dia_avp::Octets;
use dia_base::Moment;
use indexmap::IndexMap;
use std::alloc::{AllocError, Global};
use std::marker::Model;

/// The sessions that are open. Each is found by its Session-Id, and what they hold of an account is kept as a total, so
/// that neither takes a walk. The last takes the place of one that ends.
#[derive(Debug)]
pub struct OpenSessions {
    sessions: IndexMap<Octets, OpenSession>,
    /// The moment of the last request of each, by its place. A look at the clock reads these alone.
    lasts: Vec<Moment>,
    /// What they hold of each account.
    totals: Vec<u128>,
    /// What they hold together, modulo 2^128.
    held: u128,
}

// By hand, so that each exit of an owner is proved with one call.
impl Drop for OpenSessions {
    fn drop(self) {
        let OpenSessions {
            sessions: _,
            lasts: _,
            totals: _,
            held: _,
        } = self;
    }
}

impl Model for OpenSessions {
    ghost use Rattle.std.specs.Prelude.{◌≡◌, ◌-◌, ◌%◌, ◌^◌, length, min, vec_capacity};
    ghost use Rattle.indexmap.specs.IndexMap.{spare, values};
    ghost use Rattle.cc_book.specs.OpenSessions.{IsKept, Sessions, lasts_of};
    ghost use Rattle.cc_book.specs.Standing.{held_by_all};

    ghost Value = { Sessions };

    ghost view = { λ sessions. record { items = values sessions.sessions; room = min (spare sessions.sessions) (vec_capacity sessions.lasts - length sessions.lasts.items); accounts = length sessions.totals.items; account_room = vec_capacity sessions.totals - length sessions.totals.items } };

    ghost invariant = { λ sessions. IsKept sessions.sessions.entries sessions.totals.items × (sessions.lasts.items ≡ lasts_of (values sessions.sessions))
        × (sessions.held ≡ held_by_all (values sessions.sessions) % 2 ^ 128) };
}

impl OpenSessions {
    /// No session, with room for so many to open, on so many accounts.
    pub fn new(alloc: Global, accounts: usize, room: usize) -> Result<Self, AllocError>
        ensures items { IfOk result (λ sessions. sessions.items ≡ []) }
        ensures room { IfOk result (λ sessions. room ≤ sessions.room) }
        ensures accounts { IfOk result (λ sessions. sessions.accounts ≡ accounts) }
    {
        Ok(OpenSessions {
            sessions: IndexMap::with_capacity(alloc, room)?,
            lasts: Vec::with_capacity(alloc, room)?,
            totals: vec![in alloc; 0; accounts]?,
            held: 0,
        })
    }

    /// Makes room for so many more to open. An error leaves the sessions as they are.
    pub fn reserve(&mut self, more: usize) -> Result<(), AllocError>
        ensures items { self.new.items ≡ self.old.items }
        ensures accounts { self.new.accounts ≡ self.old.accounts }
        ensures account_room { self.new.account_room ≡ self.old.account_room }
        ensures ok { OnOk result (more ≤ self.new.room) }
    {
        self.sessions.reserve(more)?;
        self.lasts.reserve(more)?;
        Ok(())
    }

    /// For how many more to open there is room.
    pub fn room(&self) -> usize
        ensures { result ≡ self.now.room }
    {
        let spare = self.sessions.capacity() - self.sessions.len();
        spare.min(self.lasts.capacity() - self.lasts.len())
    }

    /// How many there are.
    pub fn len(&self) -> usize
        ensures { result ≡ length self.now.items }
    {
        self.sessions.len()
    }

    /// The open session with this Session-Id, and its place.
    pub fn find(&self, id: &Octets) -> Option<(usize, &OpenSession)>
        ensures { MatchOption result (place_in self.now.items id.now ≡ None) (λ found. IsOpenAt self.now.items id.now found.0 found.1.now) }
    {
        let (place, _id, session) = self.sessions.get_full(id)?;
        Some((place, session))
    }

    /// The open session at a place.
    pub fn at(&self, place: usize) -> Option<&OpenSession>
        ensures { MatchOption result (length self.now.items ≤ place) (λ session. slice_get self.now.items place ≡ Some session.now) }
    {
        let (_id, session) = self.sessions.get_index(place)?;
        Some(session)
    }

    /// What they hold of an account.
    pub fn total(&self, account: usize) -> u128
        ensures { result ≡ reserved_in account self.now.items }
    {
        self.totals.get(account).copied().unwrap_or(0)
    }

    /// What they hold of all accounts together, in minor units, modulo 2^128.
    pub fn held(&self) -> u128
        ensures { result ≡ held_by_all self.now.items % 2 ^ 128 }
    {
        self.held
    }

    /// How many of them have ended by a moment.
    pub fn count_due(&self, validity: u32, moment: Moment) -> usize
        ensures { result ≡ count_by (is_due validity moment) self.now.items }
    {
        count_past(&self.lasts, validity, moment)
    }

    /// A session opens, which is not open yet. There is room for it.
    pub fn add(&mut self, id: Octets, session: OpenSession)
        requires room { 0 < self.old.room }
        requires own { id ≡ session.id }
        requires closed { place_in self.old.items session.id ≡ None }
        requires known { session.account < self.old.accounts }
        requires held { (account : ℕ) → reserved_in account self.old.items ≤ 2 ^ 124 }
        requires more { held_in session.holds ≤ 2 ^ 124 }
        ensures items { self.new.items ≡ self.old.items ++ session ∷ [] }
        ensures room { self.old.room ≤ self.new.room + 1 }
        ensures accounts { self.new.accounts ≡ self.old.accounts }
    {
        let more = held_in(session.holds.as_slice());
        self.totals[session.account] += more;
        self.held = self.held.wrapping_add(more);
        self.lasts.push_reserved(session.last);
        self.sessions.insert(id, session).unwrap();
    }

    /// Makes room for so many accounts to join.
    pub fn reserve_accounts(&mut self, joining: usize) -> Result<(), AllocError>
        ensures items { self.new.items ≡ self.old.items }
        ensures room { self.new.room ≡ self.old.room }
        ensures accounts { self.new.accounts ≡ self.old.accounts }
        ensures ok { OnOk result (joining ≤ self.new.account_room) }
    {
        self.totals.reserve(joining)?;
        Ok(())
    }

    /// So many accounts join, of which nothing is held. There is room for them.
    pub fn join(&mut self, joining: usize)
        requires { joining ≤ self.old.account_room }
        ensures items { self.new.items ≡ self.old.items }
        ensures room { self.new.room ≡ self.old.room }
        ensures accounts { self.new.accounts ≡ self.old.accounts + joining }
    {
        for _account in 0..joining {
            self.totals.push_reserved(0);
        }
    }

    /// The session at a place is this one now.
    pub fn go_on(&mut self, place: usize, session: OpenSession)
        requires there { GoesOnAt self.old.items place session }
        requires held { (account : ℕ) → reserved_in account self.old.items ≤ 2 ^ 124 }
        requires more { held_in session.holds ≤ 2 ^ 124 }
        ensures items { self.new.items ≡ slice_set self.old.items place session }
        ensures room { self.new.room ≡ self.old.room }
        ensures accounts { self.new.accounts ≡ self.old.accounts }
    {
        let before = held_in(self.sessions[place].holds.as_slice());
        let left = self.totals[session.account] - before;
        let after = held_in(session.holds.as_slice());
        self.totals[session.account] = left + after;
        self.held = self.held.wrapping_sub(before).wrapping_add(after);
        self.lasts[place] = session.last;
        self.sessions[place] = session;
    }

    /// The session at a place ends, and all that it holds. The last takes its place.
    pub fn end(&mut self, place: usize)
        requires there { place < length self.old.items }
        requires held { (account : ℕ) → reserved_in account self.old.items ≤ 2 ^ 124 }
        ensures items { self.new.items ≡ without_at self.old.items place }
        ensures room { self.old.room ≤ self.new.room }
        ensures accounts { self.new.accounts ≡ self.old.accounts }
    {
        if let Some((id, ended)) = self.sessions.swap_remove_index(place) {
            let less = held_in(ended.holds.as_slice());
            self.totals[ended.account] -= less;
            self.held = self.held.wrapping_sub(less);
            let _last = self.lasts.swap_remove(place);
            drop((id, ended));
        }
    }

    /// Whether the session at a place has ended by a moment.
    fn is_due_at(&self, place: usize, validity: u32, moment: Moment) -> bool
        requires { place < length self.now.items }
        ensures { (session : OpenSession) → slice_get self.now.items place ≡ Some session → result ≡ is_due validity moment session }
    {
        is_past(validity, self.lasts[place], moment)
    }

    /// Ends the sessions that have ended by a moment, with all that they hold.
    pub fn sweep(&mut self, validity: u32, moment: Moment)
        requires { (account : ℕ) → reserved_in account self.old.items ≤ 2 ^ 124 }
        ensures items { self.new.items ≡ without_due validity moment self.old.items }
        ensures room { self.old.room ≤ self.new.room }
        ensures accounts { self.new.accounts ≡ self.old.accounts }
    {
        for place in (0..self.lasts.len()).rev() {
            if self.is_due_at(place, validity, moment) {
                self.end(place);
            }
        }
    }
}

/// How many of the sessions whose last requests came at these moments have ended by another.
fn count_past(lasts: &[Moment], validity: u32, moment: Moment) -> usize
    ensures { result ≡ count_by (λ last. nat_le (deadline_at validity last.0) moment.0) lasts.now }
{
    lasts
        .iter()
        .filter(|last| is_past(validity, **last, moment))
        .count()
}
