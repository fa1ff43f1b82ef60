//! A thread's seat at a shared book.

ghost use Rattle.std.specs.Prelude.{◌≡◌, ◌+◌, ◌≤◌, ◌<◌, ◌^◌};

use crate::sharing::Sharing;
use std::marker::Model;
use std::sync::ledger::{Book, Share};

/// A seat at a shared book. It counts the requests that were taken through it; contracts see the count. A seat serves
/// one thread at a time, and may go from thread to thread.
#[derive(Drop)]
pub struct Seat<L: Sharing> {
    count: u64,
    share: Share<L>,
}

impl<L: Sharing> Model for Seat<L> {
    ghost use Rattle.std.specs.Prelude.{ℕ, ◌≡◌};

    ghost Value = { ℕ };

    ghost view = { λ seat. seat.count };

    ghost invariant = { λ seat. (seat.share.parts ≡ 1) × (seat.share.amount ≡ seat.count) };
}

impl<L: Sharing> Seat<L> {
    /// A seat that has taken nothing.
    pub fn new(share: Share<L>) -> Self
        requires { (share.parts ≡ 1) × (share.amount ≡ 0) }
        ensures { result ≡ 0 }
    {
        Seat { count: 0, share }
    }

    /// How many requests were taken through it.
    pub fn count(&self) -> u64
        ensures { result ≡ self.now }
    {
        self.count
    }

    /// Shows that all seats together have counted no less.
    pub fn audit(&mut self, takes: &mut Book<L>)
        ensures seat { self.new ≡ self.old }
        ensures takes { takes.new.total ≡ takes.old.total }
        ensures bound { self.old ≤ takes.old.total }
    {
        takes.audit(&mut self.share);
    }

    /// Counts a take.
    pub fn add_one(&mut self, takes: &mut Book<L>)
        requires { self.old + 1 < 2 ^ 64 }
        ensures seat { self.new ≡ self.old + 1 }
        ensures takes { takes.new.total ≡ takes.old.total + 1 }
    {
        takes.add(&mut self.share, 1);
        self.count += 1;
    }

    /// Its count, and its share of the ledger.
    pub fn into_parts(self) -> (u64, Share<L>)
        ensures count { result.0 ≡ self }
        ensures share { (result.1.parts ≡ 1) × (result.1.amount ≡ self) }
    {
        let Seat { count, share } = self;
        (count, share)
    }
}
