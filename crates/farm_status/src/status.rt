//! What a node says of itself.

use farm_metrics::{PeerCount, Tally, Trend};

/// Where the connection with a neighbour stands.
#[derive(Clone, Copy, PartialEq, Eq)]
pub enum PeerState {
    /// The two nodes have exchanged their capabilities.
    Up,
    /// This process has connected, and waits for the other node.
    Connecting,
    /// There is no connection.
    Down,
}

/// A neighbour of a node of this process, by the site file.
#[derive(Drop)]
pub struct Peer {
    /// The node of this process.
    pub local: String,
    pub name: String,
    pub state: PeerState,
    /// Whether a route of the node names it: requests are sent there.
    pub takes_requests: bool,
    /// The number of the connection that is up.
    pub conn: Option<u64>,
    /// Where it listens by the site file, if it does.
    pub address: Option<String>,
    /// What became of it since it came up first, if it ever was.
    pub past: Option<PeerPast>,
}

/// What became of a neighbour since it came up first.
#[derive(Drop)]
pub struct PeerPast {
    /// For how many milliseconds it is up, or lost.
    pub since: u64,
    pub count: PeerCount,
    /// Why it was lost last, if it was.
    pub cause: Option<String>,
}

/// The connections of the process by their state.
#[derive(Clone, Copy, PartialEq, Eq)]
pub struct Connections {
    /// The nodes at both ends are up.
    pub up: u64,
    /// Nobody has said whose they are.
    pub unknown: u64,
    /// They have ended, and something is still to be written on them.
    pub ending: u64,
}

/// A front, and what is under way there.
#[derive(Drop)]
pub struct FrontStatus {
    pub name: String,
    /// Requests that wait for a worker or are with one.
    pub waiting: u64,
    /// How many may wait for a worker.
    pub queue: u64,
    /// How many are worked on at a time.
    pub workers: u64,
}

/// The account book of the fronts.
#[derive(Clone, Copy, PartialEq, Eq)]
pub struct BookStatus {
    /// Entries of its history, and how many it takes at most.
    pub entries: u64,
    pub limit: u64,
    /// Sessions that are open, and what they have reserved, in minor units.
    pub sessions: u64,
    pub reserved: u64,
    pub served: ServedCount,
    /// The file that it is stored in; none where it is kept in memory alone.
    pub file: Option<BookFile>,
}

/// The file that a book is stored in.
#[derive(Clone, Copy, PartialEq, Eq)]
pub struct BookFile {
    /// Its octets, with those of its log; none where the system does not tell.
    pub size: Option<u64>,
    /// How often something was stored since the process began, each time with one sync of the disk, and how many entries that were.
    pub commits: u64,
    pub committed: u64,
    /// When something was stored last, in milliseconds since 1970, if anything was.
    pub last_commit: Option<u64>,
}

/// Requests that workers have answered by the book since the process began, by what they came to. Each is counted once.
#[derive(Clone, Copy, PartialEq, Eq)]
pub struct ServedCount {
    /// It was charged: DIAMETER_SUCCESS, and more than a price or a balance was asked for.
    pub charges: u64,
    /// A price or a balance was asked for, and told.
    pub enquiries: u64,
    /// Refused for want of credit.
    pub credit_refusals: u64,
    /// Refused for another reason.
    pub refusals: u64,
    /// It was sent again, and answered as before.
    pub repeats: u64,
}

/// What the process does.
#[derive(Drop)]
pub enum Work {
    /// It is a relay: how many requests wait for their answer, how many may, and how many answers were dropped since their
    /// request has another End-to-End Identifier.
    Relay {
        pending: u64,
        limit: u64,
        mismatched: u64,
    },
    /// It is all fronts of the site. The book is missing once it is closed.
    Fronts {
        fronts: Vec<FrontStatus>,
        book: Option<BookStatus>,
    },
}

/// The site file that the process has read.
#[derive(Clone, Copy)]
pub struct SiteFile<'a> {
    pub path: &'a str,
    /// For how many milliseconds it is as it is now, where the system tells.
    pub age: Option<u64>,
}

/// What a node says of itself.
pub struct Status<'a> {
    /// The version of the program.
    pub version: &'a str,
    pub site: SiteFile<'a>,
    /// The nodes of the process by their names: a relay, or all fronts of a site.
    pub names: Vec<String>,
    /// How many milliseconds it has served.
    pub uptime: u64,
    /// When it began, in milliseconds since 1970.
    pub began: u64,
    /// Octets of the process that are in memory, where the system tells.
    pub memory: Option<u64>,
    pub peers: Vec<Peer>,
    pub connections: Connections,
    /// Octets that wait to be written.
    pub unsent: u64,
    /// Whether what happens is recorded no more, since that could not be written; none where nothing is to be recorded.
    pub is_record_lost: Option<bool>,
    pub work: Work,
    /// What it has counted, and what it had during the last quarter of an hour.
    pub tally: &'a Tally,
    pub trend: &'a Trend,
}

// By hand, so that each exit of an owner is proved with one call.
impl<'a> Drop for Status<'a> {
    fn drop(self) {
        let Status {
            version: _,
            site: _,
            names: _,
            uptime: _,
            began: _,
            memory: _,
            peers: _,
            connections: _,
            unsent: _,
            is_record_lost: _,
            work: _,
            tally: _,
            trend: _,
        } = self;
    }
}
