//! An index of rows by the low bits of their identifiers.

ghost use Rattle.std.specs.Prelude.{◌≡◌, ◌≤◌, ◌<◌, ◌^◌, length, replicate, slice_set, None, IfOk, vec_len};
ghost use Rattle.relay_hops.specs.Identifiers.{IsMasked, key_in, place_of, places_for};

use crate::row::Hop;
use std::alloc::{AllocError, Global};

/// At the place of an identifier, which is its low bits, the key of the row that has it. Of two identifiers with
/// the same place one alone is in use.
#[derive(Debug, Drop)]
pub(crate) struct Index {
    keys: Vec<Option<usize>>,
    ghost masked: { IsMasked (vec_len keys) },
    ghost some: { 0 < vec_len keys },
    ghost numbered: { vec_len keys ≤ 2 ^ 31 },
}

impl Index {
    /// No row: at least twice as many places as there may be rows, a power of two of them.
    pub(crate) fn new(alloc: Global, limit: u32) -> Result<Self, AllocError>
        ensures { IfOk result (λ index. index.keys.items ≡ replicate (places_for limit) None) }
    {
        Ok(Index {
            keys: vec![in alloc; None; places_for(limit)]?,
        })
    }

    /// How many places there are.
    pub(crate) fn size(&self) -> u32
        ensures { result ≡ length self.now.keys.items }
    {
        self.keys.len() as u32
    }

    /// The key at the place of the identifier.
    pub(crate) fn key(&self, hop: Hop) -> Option<usize>
        ensures { result ≡ key_in self.now.keys.items hop }
    {
        self.keys[self.place(hop)]
    }

    /// This key stands at the place of the identifier from now on.
    pub(crate) fn set(&mut self, hop: Hop, key: Option<usize>)
        ensures { self.new.keys.items ≡ slice_set self.old.keys.items (place_of (length self.old.keys.items) hop) key }
    {
        let place = self.place(hop);
        self.keys[place] = key;
    }

    /// No place has a key.
    pub(crate) fn clear(&mut self)
        ensures { self.new.keys.items ≡ replicate (length self.old.keys.items) None }
    {
        self.keys.fill(None);
    }

    /// The place of the identifier, by a mask: a remainder would take a division at each look.
    fn place(&self, hop: Hop) -> usize
        ensures place { result ≡ place_of (length self.now.keys.items) hop }
        ensures within { result < length self.now.keys.items }
    {
        hop as usize & (self.keys.len() - 1)
    }
}

/// The least power of two that is twice the limit or more, and no more than there are identifiers.
fn places_for(limit: u32) -> usize
    ensures size { result ≡ places_for limit }
    ensures masked { IsMasked result }
    ensures some { 0 < result }
    ensures numbered { result ≤ 2 ^ 31 }
{
    let wanted = 2 * limit as usize;
    let mut size = 1;
    for _doublings in 0..31u32 {
        if size < wanted {
            size *= 2;
        }
    }
    size
}
