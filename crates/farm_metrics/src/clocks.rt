//! Since when requests are waiting for their answers.

ghost use Rattle.std.specs.Prelude.{◌≡◌, ◌<◌, IfNone, IfSome, OnSome};
ghost use Rattle.farm_metrics.specs.Counting.{HasNoClocks, IsBegun, IsClocked, IsEnded, IsUntimed, place_for};

use crate::times::Micros;
use dia_base::ConnId;
use std::alloc::Global;

/// How many requests are timed at once. A further one may take the place of another one, which is not timed then.
pub const CLOCK_LIMIT: usize = 4_096;

/// A request that waits for its answer: its connection, its Hop-by-Hop Identifier there, and when it came.
#[derive(Clone, Copy, PartialEq, Eq)]
pub struct Clocked {
    pub conn: ConnId,
    pub hop: u32,
    pub since: Micros,
}

/// Since when requests are waiting. Each has its place by its connection and its identifier, and nothing is ever looked for.
#[derive(Drop)]
pub struct Clocks {
    places: Vec<Option<Clocked>>,
}

/// The number of a place, of `count` places, which are some.
fn place_for(conn: ConnId, hop: u32, count: usize) -> usize
    requires { 0 < count }
    ensures place { result ≡ place_for conn hop count }
    ensures within { result < count }
{
    let mixed = conn.0.wrapping_mul(1_021).wrapping_add(u64::from(hop));
    mixed as usize % count
}

impl Clocks {
    /// None yet. Where memory is missing, there is no place, and nothing is timed.
    pub fn none(alloc: Global) -> Self
        ensures { HasNoClocks result }
    {
        match Vec::from_elem(alloc, None, CLOCK_LIMIT) {
            Ok(places) => Clocks { places },
            Err(_) => Clocks {
                places: Vec::new(alloc),
            },
        }
    }

    /// A request came.
    pub fn begin(&mut self, conn: ConnId, hop: u32, since: Micros)
        ensures { IsBegun self.old conn hop since self.new }
    {
        let count = self.places.len();
        if count > 0 {
            let place = place_for(conn, hop, count);
            self.places[place] = Some(Clocked { conn, hop, since });
        }
    }

    /// It is answered: how many microseconds it took, if it was timed. It is not timed any more.
    pub fn end(&mut self, conn: ConnId, hop: u32, now: Micros) -> Option<u64>
        ensures timed { IfSome result (IsClocked self.old conn hop now) }
        ensures ended { OnSome result (IsEnded self.old conn hop self.new) }
        ensures untimed { IfNone result ((IsUntimed self.old conn hop) × (self.new ≡ self.old)) }
        ensures once { IsUntimed self.new conn hop }
    {
        let count = self.places.len();
        if count == 0 {
            return None;
        }
        let place = place_for(conn, hop, count);
        let clocked = self.places[place]?;
        if clocked.conn.0 != conn.0 || clocked.hop != hop {
            return None;
        }
        self.places[place] = None;
        Some(now.0.saturating_sub(clocked.since.0))
    }
}
