//! What a serving process says of itself.

use crate::jobs::JobsTold;
use book_store::RowStore;
use cc_book::Book;
use cc_shared::Commits;
use dia_base::{Moment, NodeNo, PENDING_LIMIT};
use farm_base::Site;
use farm_client::Sender;
use farm_command::VERSION;
use farm_connections::Standing;
use farm_event_loop::{Live, Served};
use farm_node::Node;
use farm_record::Recorder;
use farm_status::{
    BookFile, BookStatus, Connections, FrontStatus, Peer, PeerPast, PeerState, ServedCount,
    SiteFile, Source, Status, Work,
};
use farm_text::read_text;
use front_pool::Pooling;
use pool_node::{BookFigures, PoolFronts, ServedCounts};
use relay_core::PartingRelay;
use std::alloc::{AllocError, Global};
use std::fs;
use std::fs::File;
use std::rt::Clock;
use std::sync::Wait;
use std::thread::Threads;
use std::time::UNIX_EPOCH;

/// A node that says what its book has come to, if it has one, and how many requests it has passed on and awaits answers for.
pub trait Booked: Node + Drop {
    fn book(&self) -> Option<BookFigures>;

    fn pending(&self) -> u64;

    /// How many answers were dropped that nobody waited for.
    fn strangers(&self) -> u64;

    /// Whether something that its book has done was not stored: the process is to end then.
    fn has_failed(&self) -> bool;

    /// How often something that its book has done was stored, if that is stored.
    fn commits(&self) -> Option<Commits>;

    /// What the open sessions of its book have reserved, in minor units: none without a book.
    fn reserved(&self) -> u64;

    /// How many answers were dropped since their request has another End-to-End Identifier.
    fn mismatched(&self) -> u64;

    /// What only the node can tell of is recorded and noted.
    fn tell(live: &mut Live<Self>);

    /// The node ends in good order. What its book has come to, if it has one; none where memory was missing.
    fn end<O: Threads + Wait + Clock>(
        self,
        os: &O,
        alloc: Global,
        recorder: &mut Recorder,
    ) -> Option<Book>;
}

impl Booked for PartingRelay {
    fn book(&self) -> Option<BookFigures> {
        None
    }

    fn pending(&self) -> u64 {
        self.matched.relay.pending() as u64
    }

    fn strangers(&self) -> u64 {
        0
    }

    fn has_failed(&self) -> bool {
        false
    }

    fn commits(&self) -> Option<Commits> {
        None
    }

    fn reserved(&self) -> u64 {
        0
    }

    fn mismatched(&self) -> u64 {
        self.matched.mismatched
    }

    fn tell(_live: &mut Live<PartingRelay>) {}

    fn end<O: Threads + Wait + Clock>(
        self,
        _os: &O,
        _alloc: Global,
        _recorder: &mut Recorder,
    ) -> Option<Book> {
        None
    }
}

impl Booked for Sender {
    fn book(&self) -> Option<BookFigures> {
        None
    }

    fn pending(&self) -> u64 {
        0
    }

    fn strangers(&self) -> u64 {
        0
    }

    fn has_failed(&self) -> bool {
        false
    }

    fn commits(&self) -> Option<Commits> {
        None
    }

    fn reserved(&self) -> u64 {
        0
    }

    fn mismatched(&self) -> u64 {
        0
    }

    fn tell(_live: &mut Live<Sender>) {}

    fn end<O: Threads + Wait + Clock>(
        self,
        _os: &O,
        _alloc: Global,
        _recorder: &mut Recorder,
    ) -> Option<Book> {
        None
    }
}

impl<L: Pooling, S: RowStore + Drop, R: Wait + Drop> Booked for PoolFronts<L, S, R> {
    fn book(&self) -> Option<BookFigures> {
        Some(self.figures())
    }

    fn pending(&self) -> u64 {
        0
    }

    fn strangers(&self) -> u64 {
        PoolFronts::strangers(self)
    }

    fn has_failed(&self) -> bool {
        PoolFronts::has_failed(self)
    }

    fn commits(&self) -> Option<Commits> {
        PoolFronts::commits(self)
    }

    fn reserved(&self) -> u64 {
        PoolFronts::reserved(self)
    }

    fn mismatched(&self) -> u64 {
        0
    }

    fn tell(live: &mut Live<PoolFronts<L, S, R>>) {
        live.serving.record_node();
        live.serving.note_refused();
    }

    fn end<O: Threads + Wait + Clock>(
        self,
        os: &O,
        alloc: Global,
        recorder: &mut Recorder,
    ) -> Option<Book> {
        match PoolFronts::end(self, os, alloc, recorder) {
            Some(closed) => Some(closed.book),
            None => None,
        }
    }
}

/// A serving process, for those who want to know what it does.
#[derive(Drop)]
pub struct View<'a, 'b, N> {
    pub rt: &'a HostRuntime,
    pub site: &'a Site,
    /// The nodes of the process.
    pub nodes: &'a [NodeNo],
    pub live: &'a Live<N>,
    /// The path of the site file, and that of the file with the book, if there is one.
    pub site_path: &'a str,
    pub book_path: Option<&'a str>,
    /// When something of the book was stored last, if anything was.
    pub last_commit: Option<Moment>,
    /// Whether what happens is to be recorded.
    pub is_recorded: bool,
    /// How long it has served, in milliseconds, and since when.
    pub uptime: u64,
    pub began: Moment,
    /// What is told of the jobs on its book.
    pub told: JobsTold<'b>,
}

/// The name of a node of the site.
fn name_of(alloc: Global, site: &Site, node: NodeNo) -> Result<String, AllocError> {
    match site.nodes.as_slice().get(node.0 as usize) {
        Some(found) => found
            .name
            .as_slice()
            .iter()
            .map(|octet| char::from(*octet))
            .collect(alloc),
        None => String::from_str(alloc, "nobody"),
    }
}

/// Where a node of the site listens, as the site file says it.
fn address_of(alloc: Global, site: &Site, node: NodeNo) -> Result<Option<String>, AllocError> {
    let Some(found) = site.nodes.as_slice().get(node.0 as usize) else {
        return Ok(None);
    };
    let Some(address) = &found.address else {
        return Ok(None);
    };
    let text: String = address
        .as_slice()
        .iter()
        .map(|octet| char::from(*octet))
        .collect(alloc)?;
    Ok(Some(text))
}

/// Requests by what they came to, as the page says it.
fn served_of(served: &ServedCounts) -> ServedCount {
    ServedCount {
        charges: served.charges,
        enquiries: served.enquiries,
        credit_refusals: served.credit_refusals,
        refusals: served.refusals,
        repeats: served.repeats,
    }
}

/// The octets of this process that are in memory, as Linux says it.
fn resident(rt: &HostRuntime) -> Option<u64> {
    let Ok(mut file) = File::open(rt, "/proc/self/status") else {
        return None;
    };
    let Ok(octets) = read_text(rt.alloc(), &mut file) else {
        return None;
    };
    resident_in(std::str::from_utf8(&octets).ok()?)
}

/// The same, as the lines of a process's status say it.
fn resident_in(status: &str) -> Option<u64> {
    for line in status.lines() {
        if let Some(rest) = line.strip_prefix("VmRSS:") {
            let (number, _) = rest.trim().split_once(' ')?;
            let kilobytes = number.parse::<u64>().ok()?;
            return Some(kilobytes.saturating_mul(1_024));
        }
    }
    None
}

/// When the file at a path was changed last, in milliseconds since 1970, as far as the system tells.
fn changed_at(rt: &HostRuntime, path: &str) -> Option<u64> {
    let changed = fs::metadata(rt, path).ok()?.modified().ok()?;
    let since = changed.duration_since(UNIX_EPOCH).ok()?;
    u64::try_from(since.as_millis()).ok()
}

/// How many octets the file with a book has, with those of its log.
fn size_at(rt: &HostRuntime, path: &str) -> Option<u64> {
    let book = fs::metadata(rt, path).ok()?.len();
    let log = format!(in rt.alloc(); "{path}-wal").ok()?;
    match fs::metadata(rt, &log) {
        Ok(found) => Some(book.saturating_add(found.len())),
        Err(_) => Some(book),
    }
}

/// The connections by their state.
fn connections_of<N: Node>(serving: &Served<N>) -> Connections {
    let mut connections = Connections {
        up: 0,
        unknown: 0,
        ending: 0,
    };
    for link in serving.links() {
        match (link.end, link.standing) {
            (Some(_), _) => connections.ending = connections.ending.saturating_add(1),
            (None, Standing::Up { .. }) => connections.up = connections.up.saturating_add(1),
            (None, Standing::Waiting | Standing::Over { .. }) => {
                if link.accepted {
                    connections.unknown = connections.unknown.saturating_add(1);
                }
            }
        }
    }
    connections
}

/// How many octets wait to be written on all connections.
fn unsent_in<N: Node>(serving: &Served<N>) -> u64 {
    let mut unsent: u64 = 0;
    for link in serving.links() {
        unsent = unsent.saturating_add(link.conn.unsent() as u64);
    }
    unsent
}

/// How many requests wait for their answer at a node of the process.
fn open_at<N: Node>(serving: &Served<N>, node: NodeNo) -> u64 {
    let mut open: u64 = 0;
    for link in serving.links() {
        if link.local.0 == node.0 {
            open = open.saturating_add(link.open);
        }
    }
    open
}

/// How many requests wait for their answer at all nodes of the process.
pub fn open_in<N: Node>(serving: &Served<N>) -> u64 {
    let mut open: u64 = 0;
    for link in serving.links() {
        if link.end.is_none() {
            open = open.saturating_add(link.open);
        }
    }
    open
}

/// The number of the connection on which a neighbour is up.
fn conn_of<N: Node>(serving: &Served<N>, local: NodeNo, peer: NodeNo) -> Option<u64> {
    for link in serving.links() {
        if link.local.0 == local.0
            && link.standing == (Standing::Up { peer })
            && link.end.is_none()
        {
            return Some(link.id.0);
        }
    }
    None
}

/// Whether a route of a node names a neighbour.
fn sends_to(site: &Site, local: NodeNo, peer: NodeNo) -> bool {
    site.routes.as_slice().iter().any(|route| route.at.0 == local.0
        && route.peers.as_slice().contains(&peer))
}

impl<N: Node + Drop + Booked> View<'_, '_, N> {
    /// A neighbour, and where the connection with it stands.
    fn peer(&self, local: NodeNo, peer: NodeNo) -> Result<Peer, AllocError> {
        let alloc = self.rt.alloc();
        let conn = conn_of(&self.live.serving, local, peer);
        let state = if conn.is_some() {
            PeerState::Up
        } else if self.live.is_connecting(local, peer) {
            PeerState::Connecting
        } else {
            PeerState::Down
        };
        Ok(Peer {
            local: name_of(alloc, self.site, local)?,
            name: name_of(alloc, self.site, peer)?,
            state,
            takes_requests: sends_to(self.site, local, peer),
            conn,
            address: address_of(alloc, self.site, peer)?,
            past: self.past(local, peer)?,
        })
    }

    /// What became of a neighbour, if it was ever up.
    fn past(&self, local: NodeNo, peer: NodeNo) -> Result<Option<PeerPast>, AllocError> {
        let Some(count) = self.live.serving.tally().peers.of(local, peer) else {
            return Ok(None);
        };
        let cause = match self.live.cause_of(local, peer) {
            Some(why) => Some(format!(in self.rt.alloc(); "{why}")?),
            None => None,
        };
        let micros = self.live.clock().0.saturating_sub(count.since.0);
        Ok(Some(PeerPast {
            since: micros / 1_000,
            count,
            cause,
        }))
    }

    /// The neighbours of the nodes of the process, by the links of the site.
    fn peers(&self) -> Result<Vec<Peer>, AllocError> {
        let mut peers = Vec::new(self.rt.alloc());
        for link in self.site.links.as_slice() {
            if self.nodes.contains(&link.from) {
                peers.push(self.peer(link.from, link.to)?)?;
            }
            if self.nodes.contains(&link.to) {
                peers.push(self.peer(link.to, link.from)?)?;
            }
        }
        Ok(peers)
    }

    /// The names of the nodes of the process.
    fn names(&self) -> Result<Vec<String>, AllocError> {
        let mut names = Vec::new(self.rt.alloc());
        for node in self.nodes {
            names.push(name_of(self.rt.alloc(), self.site, *node)?)?;
        }
        Ok(names)
    }

    /// What is under way at each front.
    fn fronts(&self) -> Result<Vec<FrontStatus>, AllocError> {
        let mut fronts = Vec::new(self.rt.alloc());
        for node in self.nodes {
            fronts.push(FrontStatus {
                name: name_of(self.rt.alloc(), self.site, *node)?,
                waiting: open_at(&self.live.serving, *node),
                queue: u64::from(self.site.queue),
                workers: u64::from(self.site.workers),
            })?;
        }
        Ok(fronts)
    }

    /// The site file.
    fn site_file(&self) -> SiteFile<'_> {
        let now = self.began.0.saturating_add(self.uptime);
        SiteFile {
            path: self.site_path,
            age: changed_at(self.rt, self.site_path).map(|changed| now.saturating_sub(changed)),
        }
    }

    /// The file of the book, if it is stored.
    fn book_file(&self) -> Option<BookFile> {
        let commits = self.live.serving.node().commits()?;
        let size = match self.book_path {
            Some(path) => size_at(self.rt, path),
            None => None,
        };
        Some(BookFile {
            size,
            commits: commits.count,
            committed: commits.entries,
            last_commit: self.last_commit.map(|moment| moment.0),
        })
    }

    /// Whether what happens is recorded no more.
    fn is_record_lost(&self) -> Option<bool> {
        if self.is_recorded {
            Some(self.live.serving.recorder().has_failed())
        } else {
            None
        }
    }

    /// What the process does.
    fn work(&self) -> Result<Work, AllocError> {
        match self.live.serving.node().book() {
            Some(figures) => {
                let book = BookStatus {
                    entries: figures.entries.max(self.told.changed_entries),
                    limit: self.site.limit,
                    sessions: figures.sessions(),
                    reserved: self.live.serving.node().reserved(),
                    served: served_of(&figures.served),
                    file: self.book_file(),
                };
                let fronts = self.fronts()?;
                Ok(Work::Fronts {
                    fronts,
                    book: Some(book),
                })
            }
            None => Ok(Work::Relay {
                pending: self.live.serving.node().pending(),
                limit: u64::from(PENDING_LIMIT),
                mismatched: self.live.serving.node().mismatched(),
            }),
        }
    }
}

impl<N: Node + Drop + Booked> Source for View<'_, '_, N> {
    fn status(&self) -> Result<Status<'_>, AllocError> {
        Ok(Status {
            version: VERSION,
            site: self.site_file(),
            names: self.names()?,
            uptime: self.uptime,
            began: self.began.0,
            memory: resident(self.rt),
            peers: self.peers()?,
            connections: connections_of(&self.live.serving),
            unsent: unsent_in(&self.live.serving),
            is_record_lost: self.is_record_lost(),
            work: self.work()?,
            tally: self.live.serving.tally(),
            trend: self.live.trend(),
        })
    }

    fn terms(&self) -> Result<String, AllocError> {
        let last = self.told.last_change;
        format!(in self.rt.alloc(); "{last}\n")
    }

    fn account(&self) -> Result<String, AllocError> {
        let alloc = self.rt.alloc();
        match self.told.last_look {
            Some(last) => format!(in alloc; "{last}\n"),
            None => String::from_str(alloc, "there is no book\n"),
        }
    }
}
