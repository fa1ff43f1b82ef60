//! Places for the rows: a slab, and an index that finds a row by its identifier.

ghost use Rattle.std.specs.Prelude.{◌≡◌, ℕ, ◌+◌, ◌%◌, ◌≤◌, ◌<◌, ◌^◌, [], map, length, true, Some, None, IfOk, IfSome, IfNone, OnSome, is_some, IsPermutation};
ghost use Rattle.std.specs.List.Sorted.{IsSorted};
ghost use Rattle.std.specs.Option.{option_copied};
ghost use Rattle.std.specs.Ordering.{nat_cmp};
ghost use Rattle.slab.specs.Slab.{slab_len, HasRoomFor};
ghost use Rattle.relay_hops.specs.Identifiers.{places_for, IsGivenFrom};
ghost use Rattle.relay_hops.specs.PendingTable.{hops_on, IsWith, IsMoved, under, resent, orphaned};
ghost use Rattle.relay_hops.specs.PlaceTable.{IsIndexed, rows_of, row_at, key_at};

use crate::identifier::{IDENTIFIERS, identifier_of};
use crate::index::Index;
use crate::row::{Hop, Row};
use dia_base::ConnId;
use slab::Slab;
use std::alloc::{AllocError, Global};

/// Rows, each under a key of the slab that the index has at the place of its identifier.
#[derive(Debug, Drop)]
pub(crate) struct Places {
    slab: Slab<Row>,
    index: Index,
}

/// An identifier, and the count behind it.
#[derive(Clone, Copy)]
pub(crate) struct Given {
    pub hop: Hop,
    pub next: u32,
}

impl Places {
    /// No row, and memory for as many.
    pub(crate) fn new(alloc: Global, limit: u32) -> Result<Self, AllocError>
        ensures indexed { IfOk result (λ places. IsIndexed places) }
        ensures capacity { IfOk result (λ places. limit ≤ places.slab.capacity) }
        ensures size { IfOk result (λ places. length places.index.keys.items ≡ places_for limit) }
        ensures empty { IfOk result (λ places. places.slab.slots ≡ []) }
    {
        Ok(Places {
            slab: Slab::with_capacity(alloc, limit as usize)?,
            index: Index::new(alloc, limit)?,
        })
    }

    /// How many rows there are.
    pub(crate) fn count(&self) -> usize
        ensures slab { result ≡ slab_len self.now.slab }
        ensures rows { result ≡ length (rows_of self.now) }
    {
        self.slab.len()
    }

    /// The row that was sent on the connection under the identifier.
    pub(crate) fn row(&self, conn: ConnId, hop: Hop) -> Option<&Row>
        ensures { option_copied result ≡ row_at self.now conn hop }
    {
        let key = self.index.key(hop)?;
        match self.slab.get(key) {
            Some(row) if row.has_key(conn, hop) => Some(row),
            Some(_) | None => None,
        }
    }

    /// The first identifier from this count on whose place no row has.
    pub(crate) fn first_free(&self, from: u32) -> Given
        requires indexed { IsIndexed self.now }
        requires numbered { from < 2 ^ 31 }
        requires room { slab_len self.now.slab < length self.now.index.keys.items }
        requires power { 2 ^ 31 % length self.now.index.keys.items ≡ 0 }
        ensures given { IsGivenFrom (length self.now.index.keys.items) (rows_of self.now) from result.hop result.next }
        ensures vacant { key_at self.now.index result.hop ≡ None }
        ensures numbered { result.next < 2 ^ 31 }
    {
        for passed in 0..self.index.size() {
            let hop = identifier_of(from + passed);
            if self.index.key(hop).is_none() {
                let next = (from + passed + 1) % IDENTIFIERS;
                return Given { hop, next };
            }
        }
        unreachable!()
    }

    /// The identifiers of the rows that were sent on the connection, the least first.
    pub(crate) fn hops_on(&self, alloc: Global, conn: ConnId) -> Result<Vec<Hop>, AllocError>
        ensures all { IfOk result (λ hops. IsPermutation (hops_on (rows_of self.now) conn) hops.items) }
        ensures sorted { IfOk result (λ hops. IsSorted nat_cmp hops.items) }
    {
        let mut hops = self.listed_on(alloc, conn)?;
        hops.sort_unstable();
        Ok(hops)
    }

    /// The same in any order.
    fn listed_on(&self, alloc: Global, conn: ConnId) -> Result<Vec<Hop>, AllocError>
        ensures { IfOk result (λ hops. hops.items ≡ hops_on (rows_of self.now) conn) }
    {
        let mut hops = Vec::new(alloc);
        for (_, row) in self.slab.iter() {
            if row.is_sent_on(conn) {
                hops.push(row.hop())?;
            }
        }
        Ok(hops)
    }

    /// A row more, whose identifier has a place that no row has. It takes no memory.
    pub(crate) fn put(&mut self, row: Row)
        requires indexed { IsIndexed self.old }
        requires vacant { key_at self.old.index row.held.request.header.hop ≡ None }
        requires room { HasRoomFor self.old.slab 1 }
        ensures with { IsWith row (rows_of self.old) (rows_of self.new) }
        ensures count { slab_len self.new.slab ≡ slab_len self.old.slab + 1 }
        ensures indexed { IsIndexed self.new }
        ensures size { length self.new.index.keys.items ≡ length self.old.index.keys.items }
        ensures capacity { self.new.slab.capacity ≡ self.old.slab.capacity }
    {
        let hop = row.hop();
        let key = self.slab.insert_reserved(row);
        self.index.set(hop, Some(key));
    }

    /// The row that was sent on the connection under the identifier is taken out, if there is one. It takes no
    /// memory.
    pub(crate) fn take(&mut self, conn: ConnId, hop: Hop) -> Option<Row>
        requires indexed { IsIndexed self.old }
        ensures value { result ≡ row_at self.old conn hop }
        ensures without { IfSome result (λ row. IsWith row (rows_of self.new) (rows_of self.old)) }
        ensures gone { row_at self.new conn hop ≡ None }
        ensures none { IfNone result (self.new ≡ self.old) }
        ensures count { OnSome result (slab_len self.new.slab + 1 ≡ slab_len self.old.slab) }
        ensures indexed { IsIndexed self.new }
        ensures size { length self.new.index.keys.items ≡ length self.old.index.keys.items }
        ensures capacity { self.new.slab.capacity ≡ self.old.slab.capacity }
        // No other place changes.
        ensures vacant { (other : ℕ) → key_at self.old.index other ≡ None → key_at self.new.index other ≡ None }
    {
        if self.row(conn, hop).is_none() {
            return None;
        }
        let key = self.index.key(hop)?;
        self.index.set(hop, None);
        self.slab.try_remove(key)
    }

    /// The row goes out again on another connection under the identifier that it has, if it was sent on the
    /// first one. It takes no memory.
    pub(crate) fn resend(&mut self, conn: ConnId, hop: Hop, to: ConnId) -> Option<Hop>
        requires indexed { IsIndexed self.old }
        ensures variant { is_some result ≡ is_some (row_at self.old conn hop) }
        ensures same { IfSome result (λ kept. kept ≡ hop) }
        ensures moved { IfSome result (λ fresh. IfSome (row_at self.old conn hop) (λ row. IsMoved row (resent to fresh row) (rows_of self.old) (rows_of self.new))) }
        ensures none { IfNone result (self.new ≡ self.old) }
        ensures count { slab_len self.new.slab ≡ slab_len self.old.slab }
        ensures indexed { IsIndexed self.new }
        ensures size { length self.new.index.keys.items ≡ length self.old.index.keys.items }
        ensures capacity { self.new.slab.capacity ≡ self.old.slab.capacity }
    {
        if self.row(conn, hop).is_none() {
            return None;
        }
        let key = self.index.key(hop)?;
        let row = self.slab.get_mut(key)?;
        row.resend(to, hop);
        Some(hop)
    }

    /// The rows that came on the connection have no origin any more. It takes no memory.
    pub(crate) fn lose_origins(&mut self, conn: ConnId)
        requires { IsIndexed self.old }
        ensures rows { rows_of self.new ≡ map (orphaned conn) (rows_of self.old) }
        ensures count { slab_len self.new.slab ≡ slab_len self.old.slab }
        ensures indexed { IsIndexed self.new }
        ensures size { length self.new.index.keys.items ≡ length self.old.index.keys.items }
        ensures capacity { self.new.slab.capacity ≡ self.old.slab.capacity }
    {
        self.slab.retain(
            |_key: usize, row: &mut Row| -> bool
                ensures { (result ≡ true) × (row.new ≡ orphaned conn row.old) }
            {
                row.lose_origin(conn);
                true
            },
        );
    }

    /// There is no row. It takes no memory.
    pub(crate) fn clear(&mut self)
        requires { IsIndexed self.old }
        ensures slots { self.new.slab.slots ≡ [] }
        ensures indexed { IsIndexed self.new }
        ensures size { length self.new.index.keys.items ≡ length self.old.index.keys.items }
        ensures capacity { self.new.slab.capacity ≡ self.old.slab.capacity }
    {
        self.slab.clear();
        self.index.clear();
    }
}
