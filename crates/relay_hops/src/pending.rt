//! The table of pending requests.

ghost use Rattle.std.specs.Prelude.{◌≡◌, ◌≢◌, ◌%◌, ◌^◌, ◌≤◌, ◌<◌, [], map, length, is_some, Some, None, IfOk, IsOk, OnErr, IfSome, IfNone, IsPermutation};
ghost use Rattle.std.specs.List.Sorted.{IsStrictlyIncreasing};
ghost use Rattle.std.specs.Option.{option_copied};
ghost use Rattle.relay_hops.specs.Identifiers.{IsGiven};
ghost use Rattle.relay_hops.specs.PendingTable.{IsMap, held_at, hops_on, is_full, AreInUse, IsWith, IsMoved, under, resent, orphaned};

use crate::identifier::IDENTIFIERS;
use crate::places::{Given, Places};
use crate::row::{Held, Hop, Origin, Row};
use dia_base::ConnId;
use dia_message::Message;
use std::alloc::{AllocError, Global};
use std::marker::Model;
use thiserror::Error;

/// Why a request does not become pending.
#[derive(Clone, Copy, Debug, PartialEq, Eq, Error)]
pub enum PendingRefusal {
    #[error("{limit} requests are pending")]
    PendingFull { limit: u32 },
    #[error("out of memory")]
    OutOfMemory,
}

/// A request that did not become pending, as it was handed in, and why.
#[derive(Drop)]
pub struct NotAdded {
    pub why: PendingRefusal,
    pub request: Message,
}

/// The requests that were sent and are not answered yet. Contracts see the limit, the rows in an order that
/// says nothing, and the count from which the next identifier is given. Identifiers rise by one from a start
/// (RFC 6733, section 3), for all connections together: the highest bit is set, and the others begin again at 0
/// after 2^31. One whose place a pending request has is passed over, where its place are its low bits and there
/// are at least twice as many places as requests may be pending. So one that was settled comes back late: of a
/// relay's table `identifiers_come_back_late` of `relay_core` says how late. `sent_to`, `orphan` and `clear` take time in proportion to the places, and every
/// other call takes the same time however many requests are pending, but `add` where it passes over some.
pub struct Pending {
    limit: u32,
    places: Places,
    /// The number of the identifier that is given next, if its place is free.
    next: u32,
}

// By hand, so that each exit of an owner is proved with one call.
impl Drop for Pending {
    fn drop(self) {
        let Pending {
            limit: _,
            places: _,
            next: _,
        } = self;
    }
}

impl Model for Pending {
    ghost use Rattle.relay_hops.specs.PendingTable.{PendingTable};
    ghost use Rattle.relay_hops.specs.PlaceTable.{IsTable, rows_of};

    ghost Value = { PendingTable };

    ghost view = { λ p. record { limit = p.limit; rows = rows_of p.places; next = p.next } };

    ghost invariant = { λ p. IsTable p.limit p.next p.places };
}

/// More requests than these are never pending in a table: it would have more places than there are identifiers.
const LIMIT_MAX: u32 = 1 << 30;

impl Pending {
    /// No request is pending, and as many as the limit may be: there is memory for them. The first identifier
    /// is that of 0. Where more places come of the limit than there are identifiers it is an error too.
    pub fn new(alloc: Global, limit: u32) -> Result<Self, AllocError>
        ensures { IfOk result (λ pending. pending ≡ record { limit = limit; rows = []; next = 0 }) }
    {
        Pending::starting_at(alloc, limit, 0)
    }

    /// The same with another start: its low 31 bits are the number of the first identifier.
    pub fn starting_at(alloc: Global, limit: u32, start: u32) -> Result<Self, AllocError>
        ensures { IfOk result (λ pending. pending ≡ record { limit = limit; rows = []; next = start % 2 ^ 31 }) }
    {
        if limit > LIMIT_MAX {
            return Err(AllocError);
        }
        Ok(Pending {
            limit,
            places: Places::new(alloc, limit)?,
            next: start % IDENTIFIERS,
        })
    }

    /// Identifiers rise from another start from now on: for those who play what another table gave.
    pub fn number_from(&mut self, start: u32)
        ensures { self.new ≡ record { limit = self.old.limit; rows = self.old.rows; next = start % 2 ^ 31 } }
    {
        self.next = start % IDENTIFIERS;
    }

    /// Whether as many requests are pending as there may be, so that no other one becomes so. It takes
    /// no memory.
    pub fn is_full(&self) -> bool
        ensures { result ≡ is_full self.now }
    {
        self.places.count() >= self.limit as usize
    }

    /// How many requests are pending.
    pub fn count(&self) -> usize
        ensures { result ≡ length self.now.rows }
    {
        self.places.count()
    }

    /// A request goes out on a connection: it is pending there under the next identifier whose place is free. It
    /// takes no memory. At the limit the table is as it was and the request is handed back.
    pub fn add(&mut self, conn: ConnId, origin: Origin, request: Message) -> Result<Hop, NotAdded>
        ensures full { self.old.limit ≤ length self.old.rows → result ≡ Err (record { why = PendingRefusal.PendingFull self.old.limit; request = request }) }
        ensures room { length self.old.rows < self.old.limit → IsOk result }
        ensures given { IfOk result (λ hop. IsGiven self.old hop self.new.next) }
        ensures free { IfOk result (λ hop. held_at self.old.rows conn hop ≡ None) }
        ensures ok { IfOk result (λ hop. IsWith (record { conn = conn; held = record { origin = Some origin; request = under hop request } }) self.old.rows self.new.rows) }
        ensures limit { self.new.limit ≡ self.old.limit }
        ensures err { OnErr result (self.new ≡ self.old) }
        ensures map { IsMap self.new.rows }
    {
        if self.is_full() {
            let why = PendingRefusal::PendingFull { limit: self.limit };
            return Err(NotAdded { why, request });
        }
        let Given { hop, next } = self.places.first_free(self.next);
        self.places.put(Row::new(conn, hop, Some(origin), request));
        self.next = next;
        Ok(hop)
    }

    /// An answer came on the connection under the identifier: the request that was pending there, if
    /// any, is so no more. It takes no memory.
    pub fn settle(&mut self, conn: ConnId, hop: Hop) -> Option<Held>
        ensures value { result ≡ held_at self.old.rows conn hop }
        ensures gone { IfSome result (λ held. IsWith (record { conn = conn; held = held }) self.new.rows self.old.rows) }
        ensures free { held_at self.new.rows conn hop ≡ None }
        ensures none { IfNone result (self.new ≡ self.old) }
        ensures limit { self.new.limit ≡ self.old.limit }
        ensures next { self.new.next ≡ self.old.next }
        ensures map_before { IsMap self.old.rows }
        ensures map { IsMap self.new.rows }
    {
        let row = self.places.take(conn, hop)?;
        Some(row.held)
    }

    /// What is kept of the request that is pending on the connection under the identifier. It takes
    /// no memory.
    pub fn held(&self, conn: ConnId, hop: Hop) -> Option<&Held>
        ensures value { option_copied result ≡ held_at self.now.rows conn hop }
        ensures map { IsMap self.now.rows }
    {
        self.places.row(conn, hop).map(|row| &row.held)
    }

    /// The identifiers of the requests that are pending on the connection, each above the one
    /// before: the order in which they go out again when the connection has ended.
    pub fn sent_to(&self, alloc: Global, conn: ConnId) -> Result<Vec<Hop>, AllocError>
        ensures all { IfOk result (λ hops. IsPermutation (hops_on self.now.rows conn) hops.items) }
        ensures rising { IfOk result (λ hops. IsStrictlyIncreasing hops.items) }
        ensures in_use { IfOk result (λ hops. AreInUse self.now.rows conn hops.items) }
        ensures map { IsMap self.now.rows }
    {
        self.places.hops_on(alloc, conn)
    }

    /// A pending request goes out again with T set: on another connection under the identifier that it has,
    /// which is free on all others, and on the same one under the next that is free. Where none is pending under
    /// the key nothing changes. It takes no memory.
    pub fn move_to(&mut self, conn: ConnId, hop: Hop, to: ConnId) -> Option<Hop>
        ensures variant { is_some result ≡ is_some (held_at self.old.rows conn hop) }
        ensures free { IfSome result (λ fresh. held_at self.old.rows to fresh ≡ None) }
        // The identifier is kept where it is free on the new connection.
        ensures same { IfSome result (λ fresh. held_at self.old.rows to hop ≡ None → fresh ≡ hop) }
        ensures moved { IfSome result (λ fresh. IfSome (held_at self.old.rows conn hop) (λ held. IsMoved (record { conn = conn; held = held }) (resent to fresh (record { conn = conn; held = held })) self.old.rows self.new.rows)) }
        // On another connection no identifier is given, and on the same one the next is.
        ensures kept { to ≢ conn → IfSome result (λ fresh. fresh ≡ hop) }
        ensures elsewhere { to ≢ conn → self.new.next ≡ self.old.next }
        ensures here { to ≡ conn → IfSome result (λ fresh. IsGiven self.old fresh self.new.next) }
        ensures none { IfNone result (self.new ≡ self.old) }
        ensures limit { self.new.limit ≡ self.old.limit }
        ensures map_before { IsMap self.old.rows }
        ensures map { IsMap self.new.rows }
    {
        if to == conn {
            return self.renumber(conn, hop);
        }
        self.places.resend(conn, hop, to)
    }

    /// A pending request goes out again on its own connection.
    fn renumber(&mut self, conn: ConnId, hop: Hop) -> Option<Hop>
        ensures variant { is_some result ≡ is_some (held_at self.old.rows conn hop) }
        ensures free { IfSome result (λ fresh. held_at self.old.rows conn fresh ≡ None) }
        ensures moved { IfSome result (λ fresh. IfSome (held_at self.old.rows conn hop) (λ held. IsMoved (record { conn = conn; held = held }) (resent conn fresh (record { conn = conn; held = held })) self.old.rows self.new.rows)) }
        ensures given { IfSome result (λ fresh. IsGiven self.old fresh self.new.next) }
        ensures none { IfNone result (self.new ≡ self.old) }
        ensures limit { self.new.limit ≡ self.old.limit }
        ensures map_before { IsMap self.old.rows }
        ensures map { IsMap self.new.rows }
    {
        let fresh = self.places.first_free(self.next);
        let mut row = self.places.take(conn, hop)?;
        row.resend(conn, fresh.hop);
        self.places.put(row);
        self.next = fresh.next;
        Some(fresh.hop)
    }

    /// A connection has ended: the answers to the requests that came on it go nowhere. It takes no
    /// memory.
    pub fn orphan(&mut self, conn: ConnId)
        ensures rows { self.new ≡ record { limit = self.old.limit; rows = map (orphaned conn) self.old.rows; next = self.old.next } }
        ensures map { IsMap self.new.rows }
    {
        self.places.lose_origins(conn);
    }

    /// No request is pending. Identifiers go on from where they were. It takes no memory.
    pub fn clear(&mut self)
        ensures { self.new ≡ record { limit = self.old.limit; rows = []; next = self.old.next } }
    {
        self.places.clear();
    }
}
