//! Lines of all kinds from all peers.

ghost use Rattle.std.specs.Prelude.{◌≡◌, ◌<◌, ℕ, IfNone, IfSome, IsTrue, Some, length, slice_set};
ghost use Rattle.farm_log.specs.Limits.{after_line, after_look};
ghost use Rattle.farm_log.specs.Places.{count_at, IsPlaceOf};

use crate::count::Count;
use std::alloc::{AllocError, Global};

/// Lines of one kind from one peer that are held back.
#[derive(Clone, Copy, Debug, PartialEq, Eq)]
pub struct Held {
    pub kind: usize,
    pub peer: usize,
    pub lines: u64,
}

/// How many lines of each kind from each peer there are. Kinds and peers are numbered from 0; the memory for them is taken once.
#[derive(Drop)]
pub struct Limiter {
    /// How many kinds there are.
    pub kinds: usize,
    /// The counts of the first peer by their kinds, then those of the second one, and so on.
    pub counts: Vec<Count>,
    /// The second in which it was looked last for lines that are held back.
    pub looked: u64,
}

impl Limiter {
    /// No line of so many kinds from so many peers came yet.
    pub fn new(alloc: Global, kinds: usize, peers: usize) -> Result<Limiter, AllocError> {
        let counts = Vec::from_elem(alloc, Count::none(), kinds.saturating_mul(peers))?;
        Ok(Limiter {
            kinds,
            counts,
            looked: 0,
        })
    }

    /// The place of the count of a kind and a peer, if it has them.
    fn place(&self, kind: usize, peer: usize) -> Option<usize>
        ensures some { IfSome result (IsPlaceOf self.now kind peer) }
        ensures none { IfNone result ((place : ℕ) → IsPlaceOf self.now kind peer place → ⊥) }
    {
        let place = peer.checked_mul(self.kinds)?.checked_add(kind)?;
        if kind < self.kinds && place < self.counts.len() {
            Some(place)
        } else {
            None
        }
    }

    /// A line of this kind from this peer comes in this second: whether it is written ([`Count::line`]). One of a kind or a peer that
    /// there is not always is.
    pub fn line(&mut self, kind: usize, peer: usize, second: u64) -> bool
        ensures counted { (place : ℕ) → IsPlaceOf self.old kind peer place
            → (result ≡ (after_line second (count_at self.old place)).0)
            × (self.new.counts.items ≡ slice_set self.old.counts.items place (after_line second (count_at self.old place)).1) }
        ensures other { ((place : ℕ) → IsPlaceOf self.old kind peer place → ⊥) → IsTrue result × (self.new ≡ self.old) }
    {
        match self.place(kind, peer) {
            Some(place) => self.counts[place].line(second),
            None => true,
        }
    }

    /// Takes the next lines that are held back and whose second is over, to be told in a line of their own, which counts as one of their
    /// kind. None where none are left in this second.
    pub fn take_held(&mut self, second: u64) -> Option<Held>
        ensures { IfSome result (λ held. (place : ℕ) × (place < length self.old.counts.items)
            × ((after_look second (count_at self.old place)).0 ≡ Some held.lines)
            × (self.new.counts.items ≡ slice_set self.old.counts.items place (after_look second (count_at self.old place)).1)) }
    {
        if second <= self.looked {
            return None;
        }
        let Some(place) = self.counts.iter().position(|count| count.is_due(second)) else {
            self.looked = second;
            return None;
        };
        let lines = self.counts[place].take_held(second)?;
        Some(Held {
            kind: place.checked_rem(self.kinds).unwrap_or(0),
            peer: place.checked_div(self.kinds).unwrap_or(0),
            lines,
        })
    }
}
