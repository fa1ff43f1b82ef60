//! Items in order, which contracts see as a list.

ghost use Rattle.std.specs.Prelude.{◌≡◌, ◌<◌, ◌==◌, [], ◌∷◌, ◌++◌, length, remove, OnOk, OnErr, slice_index_or};
ghost use Rattle.std.specs.Cmp.Lexicographic.{pointwise, lists_per, lists_equiv};
ghost use Rattle.std.specs.List.{AllZip};

use std::alloc::{AllocError, Global};
use std::marker::Model;

/// Items in order. It is made from a `Vec` and gives it back without taking memory.
#[derive(Debug, Drop)]
pub struct Listing<T> {
    items: Vec<T>,
}

impl<T> Model for Listing<T> {
    ghost use Rattle.std.specs.Prelude.{List};

    ghost Value = { List T };

    ghost view = { λ listing. listing.items.items };
}

impl<T> Listing<T> {
    /// The items of the vector.
    pub fn from_vec(items: Vec<T>) -> Self
        ensures { result ≡ items.items }
    {
        Listing { items }
    }

    /// The items as a vector again.
    pub fn into_vec(self) -> Vec<T>
        ensures { result.items ≡ self }
    {
        let Listing { items } = self;
        items
    }

    /// The items themselves.
    pub fn as_slice(&self) -> &[T]
        ensures { result.now ≡ self.now }
    {
        &self.items
    }

    /// How many items there are.
    pub fn len(&self) -> usize
        ensures { result ≡ length self.now }
    {
        self.items.len()
    }

    /// Whether there is no item.
    pub fn is_empty(&self) -> bool
        ensures { result ≡ (length self.now == 0) }
    {
        self.items.is_empty()
    }

    /// No items, which takes no memory.
    pub fn empty(alloc: Global) -> Self
        ensures { result ≡ [] }
    {
        Listing {
            items: Vec::new(alloc),
        }
    }

    /// Removes the item at this place and returns it.
    pub fn remove(&mut self, place: usize) -> T
        requires { place < length self.old }
        ensures value { result ≡ slice_index_or self.old place result }
        ensures items { self.new ≡ remove self.old place }
    {
        self.items.remove(place)
    }
}

impl<T: Drop> Listing<T> {
    /// Adds an item at the end. An error leaves the items as they were.
    pub fn push(&mut self, item: T) -> Result<(), AllocError>
        ensures ok { OnOk result (self.new ≡ self.old ++ item ∷ []) }
        ensures err { OnErr result (self.new ≡ self.old) }
    {
        self.items.push(item)?;
        Ok(())
    }
}

impl<T: Clone> Clone for Listing<T> {
    ghost is_clone = { λ a b. AllZip T.is_clone a b × (length b ≡ length a) };

    fn clone(&self) -> Result<Self, AllocError> {
        Ok(Listing {
            items: self.items.clone()?,
        })
    }
}

impl<T: PartialEq> PartialEq for Listing<T> {
    ghost eq = { pointwise T.eq };

    ghost laws = { lists_per T.laws };

    fn eq(&self, other: &Listing<T>) -> bool {
        self.items == other.items
    }
}

impl<T: Eq> Eq for Listing<T> {
    ghost laws = { lists_equiv T.Eq.laws };
}
