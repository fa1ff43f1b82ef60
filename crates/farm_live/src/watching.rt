//! What a serving process does beside serving: it says what it does, is asked to end and for jobs on its book, and tells when that gets
//! full.

ghost use Rattle.std.specs.Prelude.{◌≡◌, ◌/◌, min};

use crate::Logger;
use crate::changing::LastChange;
use crate::fault::Fault;
use crate::jobs::{BookJobs, changed_entries, told_of};
use crate::rising::Rising;
use crate::setting::Setting;
use crate::token::token_at;
use crate::view::{Booked, View, open_in};
use book_store::RowStore;
use cc_shared::Sharing;
use dia_base::{Moment, NodeNo};
use farm_base::Site;
use farm_command::Process;
use farm_event_loop::{Live, StatusPort};
use farm_node::Node;
use farm_status::Token;
use log::{error, info, warn};
use std::net::{IpAddr, Ipv4Addr, Net, SocketAddr};
use std::random::RandomSource;
use std::rt::Clock;
use std::sync::Wait;
use std::thread::Threads;

/// What a serving process does beside serving.
#[derive(Drop)]
pub struct Watching {
    port: Option<StatusPort>,
    nodes: Vec<NodeNo>,
    /// The hundredths of the book that were told of last.
    told: u64,
    /// The moment of the turn at which it was looked at last.
    looked: Moment,
    /// How often the book was stored when that was last looked at, and when that was first seen, if it was stored.
    commits: u64,
    last_commit: Option<Moment>,
    /// How many answers came that nobody waited for.
    strangers: Rising,
    /// How many answers came whose request has another End-to-End Identifier.
    mismatched: Rising,
    /// Whether the log has told that the process is asked to end.
    is_end_told: bool,
}

/// What the process is to do.
#[derive(Clone, Copy)]
pub enum Course {
    Serve,
    /// It is asked to end: it answers what is under way ([`Live::drain`]).
    Drain,
    End,
}

/// The hundredths of the book at which its filling is told.
const FILLINGS: [u64; 3] = [80, 90, 95];

/// How long requests that are under way may keep a process from its end at most, in milliseconds. Those that are not answered then
/// are sent again by whoever has sent them.
const GRACE: u64 = 1_000;

/// How long they may, where the interval of the watchdog is this: no longer than half of it, since a neighbour of which nothing is read
/// would take this process for dead.
fn grace(interval: u32) -> u64
    ensures { result ≡ min 1000 (interval / 2) }
{
    u64::from(interval / 2).min(GRACE)
}

/// The address of a status port: a number alone is a port of this machine.
fn address_of(text: &str) -> Result<SocketAddr, Fault> {
    if let Ok(port) = text.parse::<u16>() {
        return Ok(SocketAddr::new(IpAddr::V4(Ipv4Addr::LOCALHOST), port));
    }
    match SocketAddr::parse_ascii(text.as_bytes()) {
        Ok(address) => Ok(address),
        Err(_) => Err(Fault::StatusAddress),
    }
}

/// How full a book is, in hundredths.
fn filling(entries: u64, limit: u64) -> u64 {
    match entries.saturating_mul(100).checked_div(limit) {
        Some(filling) => filling,
        None => 0,
    }
}

/// The greatest of the fillings that are told which a book has reached, 0 where it has reached none.
fn reached_by(filling: u64) -> u64 {
    let mut reached = 0;
    for at in FILLINGS {
        if filling >= at {
            reached = at;
        }
    }
    reached
}

/// The token by which whoever may end the process is known, if the command names its file.
fn token_of(rt: &HostRuntime, command: &Process<'_>) -> Result<Option<Token>, Fault> {
    match command.token {
        Some(path) => Ok(Some(token_at(rt, path)?)),
        None => Ok(None),
    }
}

/// The status port, if the command asks for one.
fn port_of<O: Net + Clock + RandomSource>(
    setting: &Setting<'_, O>,
) -> Result<Option<StatusPort>, Fault> {
    let Some(text) = setting.command.status else {
        return match setting.command.token {
            Some(_) => Err(Fault::TokenAlone),
            None => Ok(None),
        };
    };
    let token = token_of(setting.rt, setting.command)?;
    let address = address_of(text)?;
    match StatusPort::open(setting.os, setting.rt.alloc(), address, token) {
        Ok(port) => Ok(Some(port)),
        Err(error) => Err(Fault::Status(error)),
    }
}

/// Tells what a change of the terms has come to.
fn tell_change(log: &Logger, last: LastChange) {
    match last {
        LastChange::Made { place } => {
            info!(log; target: "farm", event = "terms", place = place; "{last}");
        }
        _ => warn!(log; target: "farm", event = "terms"; "{last}"),
    }
}

impl Watching {
    /// What the command asks for beside serving as these nodes.
    pub fn begin<O: Net + Clock + RandomSource>(
        setting: &Setting<'_, O>,
        nodes: &[NodeNo],
    ) -> Result<Watching, Fault> {
        let nodes = Vec::from_slice(setting.rt.alloc(), nodes)?;
        let port = port_of(setting)?;
        Ok(Watching {
            port,
            nodes,
            told: 0,
            looked: Moment(0),
            commits: 0,
            last_commit: None,
            strangers: Rising::zero(),
            mismatched: Rising::zero(),
            is_end_told: false,
        })
    }

    /// Answers who asks what the process does, and hands the jobs on that are asked for; what the process is to do: it ends if it is
    /// asked to, and no request is under way, or it was asked so long ago that it waits no more ([`grace`]). It looks once at each moment:
    /// of turns that begin within one millisecond only the first looks.
    pub fn look<N, L, S, O>(
        &mut self,
        setting: &Setting<'_, O>,
        live: &Live<N>,
        jobs: &mut Option<BookJobs<L, S>>,
    ) -> Result<Course, Fault>
    where
        N: Node + Drop + Booked,
        L: Sharing + Send + Sync + 'static,
        S: RowStore + Drop + Send + 'static,
        O: Threads + Wait + Clock + Copy + Send + 'static,
    {
        let moment = live.moment();
        if moment.0 == self.looked.0 {
            return Ok(Course::Serve);
        }
        self.looked = moment;
        self.see_commits(live);
        if let Some(jobs) = jobs
            && jobs.look(setting.os, setting.rt.alloc())
        {
            tell_change(setting.log, jobs.last_change());
        }
        self.tell(setting, live, changed_entries(jobs));
        self.serve_port(setting, live, jobs)
    }

    /// Sees whether something of the book was stored since the last look.
    fn see_commits<N: Node + Drop + Booked>(&mut self, live: &Live<N>) {
        if let Some(commits) = live.serving.node().commits()
            && commits.count != self.commits
        {
            self.commits = commits.count;
            self.last_commit = Some(live.moment());
        }
    }

    /// Tells what the log says of the process now. Its book has `entries` at least.
    fn tell<N: Node + Drop + Booked, O: Clock>(
        &mut self,
        setting: &Setting<'_, O>,
        live: &Live<N>,
        entries: u64,
    ) {
        self.tell_filling(setting.log, setting.site, live, entries);
        let second = live.moment().0 / 1_000;
        self.tell_strangers(setting.log, live, second);
        self.tell_mismatched(setting.log, live, second);
    }

    /// Answers who asks at the status port, and hands on what is asked for; what the process is to do.
    fn serve_port<N, L, S, O>(
        &mut self,
        setting: &Setting<'_, O>,
        live: &Live<N>,
        jobs: &mut Option<BookJobs<L, S>>,
    ) -> Result<Course, Fault>
    where
        N: Node + Drop + Booked,
        L: Sharing + Send + Sync + 'static,
        S: RowStore + Drop + Send + 'static,
        O: Threads + Wait + Clock + Copy + Send + 'static,
    {
        let Some(port) = &mut self.port else {
            return Ok(Course::Serve);
        };
        let Some(uptime) = port.due(setting.os)? else {
            return Ok(Course::Serve);
        };
        let told = told_of(jobs);
        let view = View {
            rt: setting.rt,
            site: setting.site,
            nodes: &self.nodes,
            live,
            site_path: setting.command.site,
            book_path: setting.book,
            last_commit: self.last_commit,
            is_recorded: setting.command.record_path.is_some(),
            uptime,
            began: port.began(),
            told,
        };
        let wanted = port.look(&view, told.jobs);
        if let Some(jobs) = jobs {
            jobs.ask(setting, &wanted);
        }
        let Some(millis) = port.asked_to_end() else {
            return Ok(Course::Serve);
        };
        let open = open_in(&live.serving);
        self.tell_end(setting.log, open);
        if millis >= grace(setting.site.watchdog) || open == 0 {
            return Ok(Course::End);
        }
        Ok(Course::Drain)
    }

    /// Tells once that the process is asked to end, and how many requests are under way.
    fn tell_end(&mut self, log: &Logger, open: u64) {
        if !self.is_end_told {
            self.is_end_told = true;
            info!(log; target: "farm", event = "draining", requests = open; "asked to end: {open} requests are under way");
        }
    }

    /// Tells that the book gets full, once at each filling, and once where it has reached several when the process starts. It has `least`
    /// entries at least.
    fn tell_filling<N: Node + Drop + Booked>(
        &mut self,
        log: &Logger,
        site: &Site,
        live: &Live<N>,
        least: u64,
    ) {
        let Some(figures) = live.serving.node().book() else {
            return;
        };
        let (entries, limit) = (figures.entries.max(least), site.limit);
        let now = filling(entries, limit);
        let reached = reached_by(now);
        if reached > self.told {
            self.told = reached;
            warn!(log; target: "farm", "the book is {now} hundredths full: {entries} of {limit} entries. Once it is full, no request is charged");
        }
    }

    /// Tells of answers of workers that were dropped since nobody waited for them.
    fn tell_strangers<N: Node + Drop + Booked>(
        &mut self,
        log: &Logger,
        live: &Live<N>,
        second: u64,
    ) {
        let now = live.serving.node().strangers();
        if self.strangers.tells(now, second) {
            error!(log; target: "farm", "{now} answers of workers were dropped, for which no front waited");
        }
    }

    /// Tells of answers that were dropped since their request has another End-to-End Identifier.
    fn tell_mismatched<N: Node + Drop + Booked>(
        &mut self,
        log: &Logger,
        live: &Live<N>,
        second: u64,
    ) {
        let now = live.serving.node().mismatched();
        if self.mismatched.tells(now, second) {
            warn!(log; target: "farm", "{now} answers were dropped, whose request has another End-to-End Identifier");
        }
    }
}
