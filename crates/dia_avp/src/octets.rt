//! Octets of a message, which contracts see as a list.

ghost use Rattle.std.specs.Prelude.{◌≡◌, ◌≤◌, IfOk, length, nat_eq, slice_range};
ghost use Rattle.std.specs.Cmp.{partial_equiv_from_equiv};
ghost use Rattle.std.specs.Cmp.Rules.{hashing};
ghost use Rattle.std.specs.Hash as fed;
ghost use Rattle.std.proofs.Common.{rules};
ghost use Rattle.std.proofs.lemmas.Cmp.{nat_list_eq_equiv};
ghost use lib.Pointwise.{pointwise};
ghost use Rattle.dia_avp.specs.KeptOctets.{kept_octets};

use bytes::Bytes;
use std::alloc::{AllocError, Global};
use std::hash::{Hash, Hasher};
use std::marker::Model;

/// Where octets stand.
#[derive(Debug, Drop)]
enum Kept {
    /// In a vector of their own.
    Own(Vec<u8>),
    /// In a part of a buffer, which lives as long as one of its parts is kept.
    Cut(Bytes),
}

/// Octets that are kept: a copy, or a cut of a buffer that its cuts share.
#[derive(Debug, Drop)]
pub struct Octets {
    kept: Kept,
}

impl Model for Octets {
    ghost use Rattle.std.specs.Prelude.{ℕ, List};
    ghost use Rattle.dia_avp.specs.KeptOctets.{kept_octets};

    ghost Value = { List ℕ };

    ghost view = { λ o. kept_octets o.kept };
}

impl Octets {
    /// A copy of the octets, which shares nothing: what is kept for long is such a copy.
    pub fn copy_of(alloc: Global, octets: &[u8]) -> Result<Self, AllocError>
        ensures { IfOk result (λ copy. copy ≡ octets.now) }
    {
        Ok(Octets {
            kept: Kept::Own(Vec::from_slice(alloc, octets)?),
        })
    }

    /// The octets of the vector. An error is for octets that are shared: here none comes.
    pub fn from_vec(octets: Vec<u8>) -> Result<Self, AllocError>
        ensures { IfOk result (λ kept. kept ≡ octets.items) }
    {
        Ok(Octets {
            kept: Kept::Own(octets),
        })
    }

    /// The octets of the vector, which becomes a buffer for cuts to share: a clone is a cut. To count its
    /// owners takes memory.
    pub fn shared(octets: Vec<u8>) -> Result<Self, AllocError>
        ensures { IfOk result (λ kept. kept ≡ octets.items) }
    {
        Ok(Octets {
            kept: Kept::Cut(Bytes::from_vec(octets)?),
        })
    }

    /// The octets themselves.
    pub fn as_slice(&self) -> &[u8]
        ensures { result.now ≡ self.now }
    {
        match &self.kept {
            Kept::Own(octets) => octets,
            Kept::Cut(octets) => octets.as_slice(),
        }
    }

    /// The same octets in a buffer that can be cut: their own where they are a cut, or else a copy.
    pub(crate) fn buffer(&self, alloc: Global) -> Result<Bytes, AllocError>
        ensures { IfOk result (λ octets. octets ≡ self.now) }
    {
        match &self.kept {
            Kept::Own(octets) => Bytes::copy_from_slice(alloc, octets),
            Kept::Cut(octets) => octets.clone(),
        }
    }

    /// A cut of the buffer, from one place to another.
    pub(crate) fn cut_of(octets: &Bytes, from: usize, to: usize) -> Result<Self, AllocError>
        requires ordered { from ≤ to }
        requires within { to ≤ length octets.now }
        ensures { IfOk result (λ cut. cut ≡ slice_range octets.now from to) }
    {
        Ok(Octets {
            kept: Kept::Cut(octets.slice(from..to)?),
        })
    }
}

impl Clone for Octets {
    ghost is_clone = { λ a b. a ≡ b };

    fn clone(&self) -> Result<Self, AllocError> {
        let kept = match &self.kept {
            Kept::Own(octets) => Kept::Own(octets.clone()?),
            Kept::Cut(octets) => Kept::Cut(octets.clone()?),
        };
        Ok(Octets { kept })
    }
}

impl PartialEq for Octets {
    ghost eq = { pointwise nat_eq };

    ghost laws = { partial_equiv_from_equiv nat_list_eq_equiv };

    fn eq(&self, other: &Octets) -> bool {
        self.as_slice() == other.as_slice()
    }
}

impl Eq for Octets {
    ghost laws = { nat_list_eq_equiv };
}

impl Hash for Octets {
    ghost hash_input = { λ o. fed.slice fed.u8 o };

    ghost respects_eq = { Prim.search (hashing, rules) };

    fn hash<H: Hasher>(&self, state: &mut H) {
        self.as_slice().hash(state);
    }
}
