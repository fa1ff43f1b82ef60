//! Which connections are read, by what waits to be written on all of them: what one client sends at once is not to end a
//! connection between two nodes of the farm, on which no more than so many octets may be unsent.

ghost use Rattle.std.specs.Prelude.{◌≡◌, ◌-◌, ◌/◌, ◌⊎◌, ◌↔◌, IsTrue, min, nat_le};
ghost use Rattle.farm_event_loop.specs.Pausing.{IsOver, MayRead, is_behind, others_behind, traffic_on};

use dia_base::{MESSAGE_LIMIT, Moment, NodeKind};
use farm_net::{TURN_LIMIT, UNSENT_LIMIT};

/// A connection on which more octets are unsent is behind.
pub const BEHIND: usize = 262_144;

/// The octets of a read.
pub const PIECE: usize = 4_096;

/// How long others are not read at most because one connection stays behind, in milliseconds: so long, or half an interval of
/// the watchdog, whichever is shorter.
pub const PATIENCE: u64 = 1_000;

// What was not behind may be sent what a turn of reading brings, each octet of it twice, and a message that had begun before.
const _: () = prove!(BEHIND + MESSAGE_LIMIT + 2 * TURN_LIMIT as usize * PIECE <= UNSENT_LIMIT);

/// What a connection brings.
#[derive(Clone, Copy, PartialEq, Eq)]
pub enum Traffic {
    /// Requests alone.
    Requests,
    /// Answers alone. To read them sends nothing to those who answer.
    Answers,
    /// Requests and answers.
    Both,
}

/// What a connection brings to a node of this kind from one of that kind, or from one that is not up.
pub fn traffic_on(local: NodeKind, peer: Option<NodeKind>) -> Traffic
    ensures { result ≡ traffic_on local peer }
{
    match (local, peer) {
        (NodeKind::Client, _) | (NodeKind::Relay, Some(NodeKind::Front)) => Traffic::Answers,
        (NodeKind::Relay, Some(NodeKind::Relay)) => Traffic::Both,
        (NodeKind::Front, _) | (NodeKind::Relay, Some(NodeKind::Client) | None) => {
            Traffic::Requests
        }
    }
}

/// Whether a connection is behind on which so many octets are unsent.
pub fn is_behind(unsent: usize) -> bool
    ensures { result ≡ is_behind unsent }
{
    BEHIND < unsent
}

/// How many are behind but for a connection with so many octets unsent, which is one of them if it is behind.
fn others_behind(behind: usize, unsent: usize) -> usize
    ensures { result ≡ others_behind behind unsent }
{
    if is_behind(unsent) {
        behind.saturating_sub(1)
    } else {
        behind
    }
}

/// How the connections of a process stand on which requests go out.
#[derive(Clone, Copy)]
pub struct Pause {
    /// How many of them are behind.
    pub behind: usize,
    /// When none was for the last time.
    pub since: Moment,
    /// How long nothing else is read then, in milliseconds.
    pub patience: u64,
}

impl Pause {
    /// None is behind at this moment. The interval is that of the watchdog, in milliseconds.
    pub fn new(interval: u32, moment: Moment) -> Self
        ensures { result ≡ record { behind = 0; since = moment; patience = min 1000 (interval / 2) } }
    {
        Pause {
            behind: 0,
            since: moment,
            patience: u64::from(interval / 2).min(PATIENCE),
        }
    }

    /// Whether nothing is held up for so many that are behind: there are none, or they have been for too long.
    fn holds_nothing_up(&self, behind: usize, moment: Moment) -> bool
        ensures { IsTrue result ↔ ((behind ≡ 0) ⊎ IsOver self.now moment) }
    {
        behind == 0 || moment.0.saturating_sub(self.since.0) >= self.patience
    }

    /// Whether a connection that was not read since a moment has waited for too long.
    pub fn is_over(&self, since: Moment, moment: Moment) -> bool
        ensures { result ≡ nat_le self.now.patience (moment.0 - since.0) }
    {
        moment.0.saturating_sub(since.0) >= self.patience
    }

    /// Whether a connection is read at this moment that brings this, and on which so many octets are unsent. Requests wait
    /// while what they are sent on is behind, no longer than `patience`, and while their own answers are not read. Answers never wait:
    /// so two nodes do not wait for each other.
    pub fn may_read(&self, traffic: Traffic, unsent: usize, moment: Moment) -> bool
        ensures { IsTrue result ↔ MayRead traffic self.now unsent moment }
    {
        match traffic {
            Traffic::Answers => true,
            Traffic::Requests => {
                !is_behind(unsent) && self.holds_nothing_up(self.behind, moment)
            }
            Traffic::Both => self.holds_nothing_up(others_behind(self.behind, unsent), moment),
        }
    }
}
