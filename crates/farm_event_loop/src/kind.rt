//! Kinds of lines of the log.

use log::Level;

/// A kind of lines of the log.
#[derive(Clone, Copy, Debug, PartialEq, Eq)]
pub enum Kind {
    /// A connection that somebody has made is taken.
    Taken,
    /// One is closed, since no node may come from there.
    NotAdmitted,
    /// One is not taken, for want of room.
    NotTaken,
    /// One has ended with no node up on it.
    Refused,
    /// The same of a node that has said its name.
    Unwelcome,
    /// A socket, or a node, has failed.
    Failed,
    /// A connection of its own is not made.
    NotMade,
    /// A node is up.
    Up,
    /// It says goodbye.
    Leaves,
    /// It is lost.
    Lost,
    /// A request is sent again.
    FailedOver,
    /// A request cannot be sent again.
    GivenUp,
    /// A request is refused.
    Refusal,
    /// Credit control itself refuses one.
    Credit,
}

/// All kinds, in their order.
pub const KINDS: [Kind; 14] = [
    Kind::Taken,
    Kind::NotAdmitted,
    Kind::NotTaken,
    Kind::Refused,
    Kind::Unwelcome,
    Kind::Failed,
    Kind::NotMade,
    Kind::Up,
    Kind::Leaves,
    Kind::Lost,
    Kind::FailedOver,
    Kind::GivenUp,
    Kind::Refusal,
    Kind::Credit,
];

impl Kind {
    /// Its place among all kinds.
    pub fn place(self) -> usize {
        self as usize
    }

    /// Its name, which is the pair `event` of its lines.
    pub fn event(self) -> &'static str {
        match self {
            Kind::Taken => "taken",
            Kind::NotAdmitted => "not_admitted",
            Kind::NotTaken => "not_taken",
            Kind::Refused => "refused",
            Kind::Unwelcome => "unwelcome",
            Kind::Failed => "failed",
            Kind::NotMade => "cannot_connect",
            Kind::Up => "up",
            Kind::Leaves => "goodbye",
            Kind::Lost => "lost",
            Kind::FailedOver => "failover",
            Kind::GivenUp => "given_up",
            Kind::Refusal | Kind::Credit => "refusal",
        }
    }

    /// The level of its lines; of those that have two, the one for faults.
    pub fn level(self) -> Level {
        match self {
            Kind::Taken | Kind::Credit => Level::Debug,
            Kind::Refused
            | Kind::Up
            | Kind::Leaves
            | Kind::FailedOver
            | Kind::GivenUp
            | Kind::Refusal => Level::Info,
            Kind::NotAdmitted
            | Kind::NotTaken
            | Kind::Unwelcome
            | Kind::Failed
            | Kind::NotMade
            | Kind::Lost => Level::Warn,
        }
    }
}
