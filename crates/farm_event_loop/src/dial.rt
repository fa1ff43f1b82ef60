//! The connections that a process makes itself.

ghost use Rattle.std.specs.Prelude.{◌≡◌, ◌↔◌, IsTrue, true, false, map};
ghost use Rattle.std.specs.List.{list_all, list_any};
ghost use Rattle.farm_event_loop.specs.Dialing.{IsDue, ended_on, has_come_up, is_made, is_tried, is_up_on, later, wait_after};

use dia_base::{ConnId, Moment, NodeNo};
use farm_connections::{Link, Standing};
use farm_watch::DisconnectCause;

/// Where a connection that is to be made stands.
#[derive(Clone, Copy, PartialEq, Eq)]
pub enum DialState {
    /// It is to be made, at this moment or later.
    Due { at: Moment },
    /// It was made, and has this number.
    Made { conn: ConnId },
    /// Nobody knows where.
    Nowhere,
}

/// A connection that a node of this process makes, again and again.
#[derive(Clone, Copy, PartialEq, Eq)]
pub struct Dial {
    pub local: NodeNo,
    pub peer: NodeNo,
    pub state: DialState,
    /// Whether it has failed or ended once.
    pub has_ended: bool,
    /// Whether the log has told why the one that was made last fails.
    pub is_explained: bool,
}

/// How many intervals of the watchdog pass before a node is connected to again that has said goodbye since it is busy, or
/// wants no messages.
pub const PATIENT_INTERVALS: u32 = 10;

/// How many milliseconds pass before a connection is made again that has failed or ended, by why the node at its other end has
/// said goodbye, if it has: an interval of the watchdog, or [`PATIENT_INTERVALS`] of them (RFC 6733, sections 5.4 and 5.4.3).
pub fn wait_after(farewell: Option<DisconnectCause>, interval: u32) -> u32
    ensures { result ≡ wait_after farewell interval }
{
    match farewell {
        Some(DisconnectCause::Busy | DisconnectCause::Unwanted) => {
            interval.saturating_mul(PATIENT_INTERVALS)
        }
        Some(DisconnectCause::Rebooting) | None => interval,
    }
}

impl Dial {
    /// A connection that is to be made at once, where there is an address, and nowhere without one.
    pub fn new(local: NodeNo, peer: NodeNo, has_address: bool) -> Self
        ensures ends { (result.local ≡ local) × (result.peer ≡ peer) }
        ensures due { IsTrue has_address → result.state ≡ DialState.Due (record { 0 = 0 }) }
        ensures nowhere { has_address ≡ false → result.state ≡ DialState.Nowhere }
        ensures fresh { (result.has_ended ≡ false) × (result.is_explained ≡ false) }
    {
        let at = Moment(0);
        let state = if has_address {
            DialState::Due { at }
        } else {
            DialState::Nowhere
        };
        Dial {
            local,
            peer,
            state,
            has_ended: false,
            is_explained: false,
        }
    }

    /// Whether it is to be made at this moment.
    pub fn is_due(&self, moment: Moment) -> bool
        ensures { IsTrue result ↔ IsDue self.now.state moment }
    {
        match self.state {
            DialState::Due { at } => at.0 <= moment.0,
            DialState::Made { .. } | DialState::Nowhere => false,
        }
    }

    /// It was made.
    pub fn make(&mut self, conn: ConnId)
        ensures { self.new ≡ record self.old { state = DialState.Made conn; is_explained = false } }
    {
        self.state = DialState::Made { conn };
        self.is_explained = false;
    }

    /// The log has told why it fails.
    pub fn explain(&mut self)
        ensures { self.new ≡ record self.old { is_explained = true } }
    {
        self.is_explained = true;
    }

    /// It has failed, or has ended: it is made again so many milliseconds later.
    pub fn fail(&mut self, moment: Moment, interval: u32)
        ensures { self.new ≡ record self.old { state = DialState.Due (later moment interval); has_ended = true } }
    {
        let at = Moment(moment.0.saturating_add(u64::from(interval)));
        self.state = DialState::Due { at };
        self.has_ended = true;
    }

    /// Whether it was tried, by the connections that there are: it has failed or ended once, or the node at its other end
    /// has come up, or nobody knows where it is to be made.
    pub fn is_tried<R, W>(&self, links: &[Link<R, W>]) -> bool
        ensures { result ≡ is_tried links.now self.now }
    {
        self.has_ended
            || match self.state {
                DialState::Nowhere => true,
                DialState::Made { conn } => has_come_up_on(links, conn),
                DialState::Due { .. } => false,
            }
    }

    /// Whether it was made under this number.
    pub fn is_made(&self, conn: ConnId) -> bool
        ensures { result ≡ is_made conn self.now.state }
    {
        match self.state {
            DialState::Made { conn: made } => made.0 == conn.0,
            DialState::Due { .. } | DialState::Nowhere => false,
        }
    }
}

/// What was made under the number of a connection that has ended is made again so many milliseconds later.
pub fn end_on(dials: &mut [Dial], conn: ConnId, moment: Moment, wait: u32)
    ensures { dials.new ≡ map (ended_on conn moment wait) dials.old }
{
    for dial in dials.iter_mut() {
        end_one(dial, conn, moment, wait);
    }
}

/// The same for one of them.
fn end_one(dial: &mut Dial, conn: ConnId, moment: Moment, wait: u32)
    ensures { dial.new ≡ ended_on conn moment wait dial.old }
{
    if dial.is_made(conn) {
        dial.fail(moment, wait);
    }
}

/// Whether each connection was tried, by the connections that there are. A node listens once this holds.
pub fn are_tried<R, W>(dials: &[Dial], links: &[Link<R, W>]) -> bool
    ensures { result ≡ list_all (is_tried links.now) dials.now }
{
    dials.iter().all(|dial| dial.is_tried(links))
}

/// Whether the node at the other end of the connection with this number has come up.
fn has_come_up_on<R, W>(links: &[Link<R, W>], conn: ConnId) -> bool
    ensures { result ≡ list_any (is_up_on conn) links.now }
{
    links.iter().any(|link| is_up_on(link, conn))
}

/// Whether this is that connection, and the node at its other end has come up.
fn is_up_on<R, W>(link: &Link<R, W>, conn: ConnId) -> bool
    ensures { result ≡ is_up_on conn link.now }
{
    link.id.0 == conn.0 && has_come_up(link.standing)
}

/// Whether the node here was told that the one at the other end is up.
fn has_come_up(standing: Standing) -> bool
    ensures { result ≡ has_come_up standing }
{
    match standing {
        Standing::Waiting => false,
        Standing::Up { .. } | Standing::Over { .. } => true,
    }
}
