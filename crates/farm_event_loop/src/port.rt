//! The status port of a process: who connects there reads what the node says of itself, asks it to end, to change the terms of its book,
//! or to look at an account.

ghost use Rattle.std.specs.Prelude.{◌≡◌};
ghost use Rattle.farm_event_loop.specs.Port.{is_due, is_overdue};

use dia_base::Moment;
use farm_clock::Timer;
use farm_status::{Answering, Job, Jobs, Source, Token};
use http_server::{Config, Connection, Service};
use mio::net::{TcpListener, TcpStream};
use std::alloc::Global;
use std::hash::RandomState;
use std::io;
use std::io::ErrorKind;
use std::net::{Net, SocketAddr};
use std::random::RandomSource;
use std::rt::Clock;

/// The most connections at a time. A further one waits until one of them has gone.
const CALLER_LIMIT: usize = 4;

/// How long a connection may take, in milliseconds. Then it is cut.
const PATIENCE: u64 = 5_000;

/// How long the port is left alone between two looks, in milliseconds.
const PAUSE: u64 = 20;

/// The most reads and writes of a connection at a look.
const CALL_LIMIT: u32 = 8;

/// The octets of the head of a request, and of its body.
const HEAD_LIMIT: usize = 8_192;

const BODY_LIMIT: usize = 524_288;

/// A connection at the port.
#[derive(Drop)]
struct Caller {
    stream: TcpStream,
    http: Connection,
    since: Moment,
    /// It has asked the node to end, and is closed when the node has.
    waits: bool,
    gone: bool,
}

/// Where a process says what it does. It is looked at a few times in a second, and never waits for anybody.
pub struct StatusPort {
    alloc: Global,
    listener: TcpListener,
    keys: RandomState,
    token: Option<Token>,
    callers: Vec<Caller>,
    timer: Timer,
    began: Moment,
    looked: Moment,
    /// Since when it is asked to end.
    asked: Option<Moment>,
}

// By hand, so that each exit of an owner is proved with one call.
impl Drop for StatusPort {
    fn drop(self) {
        let StatusPort {
            alloc: _,
            listener: _,
            keys: _,
            token: _,
            callers: _,
            timer: _,
            began: _,
            looked: _,
            asked: _,
        } = self;
    }
}

/// What who has shown the token has asked of the node's book.
#[derive(Drop)]
pub struct Wanted {
    /// Its terms are to change so.
    pub change: Option<Vec<u8>>,
    /// This account is to be looked at.
    pub look: Option<Vec<u8>>,
}

/// What a connection has asked for, by who has shown the token.
#[derive(Drop)]
struct Asked {
    /// The node is to end.
    stops: bool,
    wanted: Wanted,
}

/// What a connection may hold.
fn config() -> Config {
    let mut config = Config::default();
    config.limits.max_head_len = HEAD_LIMIT;
    config.max_body_len = BODY_LIMIT;
    config
}

/// Whether a call did something, and the next one may.
fn goes_on(outcome: &io::Result<usize>) -> bool {
    match outcome {
        Ok(count) => *count > 0,
        Err(_) => false,
    }
}

/// Whether a call has failed, and not only would have waited.
fn has_failed(outcome: &io::Result<usize>) -> bool {
    match outcome {
        Ok(_) => false,
        Err(error) => {
            error.kind() != ErrorKind::WouldBlock && error.kind() != ErrorKind::Interrupted
        }
    }
}

/// Whether a port that was looked at is to be looked at again.
fn is_due(looked: Moment, moment: Moment) -> bool
    ensures { result ≡ is_due looked moment }
{
    moment.0 >= looked.0.saturating_add(PAUSE)
}

impl Caller {
    /// Reads or writes once; whether the next call may do something.
    fn step(&mut self) -> bool {
        let outcome = if self.http.wants_write() {
            self.http.write_to(&mut self.stream)
        } else if self.http.wants_read() {
            self.http.read_from(&mut self.stream)
        } else {
            return false;
        };
        if has_failed(&outcome) {
            self.gone = true;
        }
        goes_on(&outcome)
    }

    /// Reads, answers and writes what may be done at once.
    fn serve<S: Service>(&mut self, service: &mut S) {
        for _ in 0..CALL_LIMIT {
            let goes_on = self.step();
            self.http.advance(service);
            if !goes_on {
                break;
            }
        }
        if self.http.is_done() && !self.waits {
            self.gone = true;
        }
    }

    /// It has asked the node to end: it is answered now, and its connection stays until the process has ended.
    fn wait_for_end(&mut self) {
        self.waits = true;
        self.gone = false;
        for _ in 0..CALL_LIMIT {
            if !self.step() {
                break;
            }
        }
    }

    /// Whether it has taken longer than it may.
    fn is_overdue(&self, moment: Moment) -> bool
        ensures { result ≡ is_overdue self.now.waits self.now.since moment }
    {
        !self.waits && moment.0 > self.since.0.saturating_add(PATIENCE)
    }
}

/// Answers a connection as far as may be done at once; what it has asked for and has shown this token.
fn asked_by<'a, S: Source>(
    alloc: Global,
    caller: &mut Caller,
    source: &'a S,
    token: Option<&'a Token>,
    jobs: Jobs,
) -> Asked {
    let mut answering = Answering {
        alloc,
        source,
        token,
        stops: false,
        jobs,
        change: None,
        look: None,
    };
    caller.serve(&mut answering);
    Asked {
        stops: answering.stops,
        wanted: Wanted {
            change: answering.change,
            look: answering.look,
        },
    }
}

/// Whether another such job may be asked for in the same look, in which this one was.
fn behind(job: Job, asked: &Option<Vec<u8>>) -> Job {
    match asked {
        Some(_) => Job::Busy,
        None => job,
    }
}

impl Wanted {
    fn nothing() -> Wanted {
        Wanted {
            change: None,
            look: None,
        }
    }

    /// Which jobs may be asked for behind these.
    fn left_of(&self, jobs: Jobs) -> Jobs {
        Jobs {
            change: behind(jobs.change, &self.change),
            look: behind(jobs.look, &self.look),
        }
    }

    /// These, and those of another connection.
    fn and(self, other: Wanted) -> Wanted {
        Wanted {
            change: other.change.or(self.change),
            look: other.look.or(self.look),
        }
    }
}

impl StatusPort {
    /// A port at this address. Who shows `token` may end the node; where there is none, nobody may.
    pub fn open<O: Net + Clock + RandomSource>(
        os: &O,
        alloc: Global,
        address: SocketAddr,
        token: Option<Token>,
    ) -> io::Result<StatusPort> {
        let timer = Timer::start(os)?;
        let began = timer.now(os)?;
        Ok(StatusPort {
            alloc,
            listener: TcpListener::bind(os, address)?,
            keys: RandomState::new(os)?,
            token,
            callers: Vec::new(alloc),
            timer,
            began,
            looked: Moment(0),
            asked: None,
        })
    }

    /// The milliseconds since it was opened, where it is to be looked at now.
    pub fn due<O: Clock>(&mut self, os: &O) -> io::Result<Option<u64>> {
        let moment = self.timer.now(os)?;
        if !is_due(self.looked, moment) {
            return Ok(None);
        }
        self.looked = moment;
        Ok(Some(moment.0.saturating_sub(self.began.0)))
    }

    /// When it was opened.
    pub fn began(&self) -> Moment {
        self.began
    }

    /// Takes who waits, and reads, answers and writes what may be done at once. It gives the jobs that somebody has asked for who may, of
    /// those that the node may be asked for.
    pub fn look<S: Source>(&mut self, source: &S, jobs: Jobs) -> Wanted {
        let moment = self.looked;
        self.take_all(moment);
        let mut wanted = Wanted::nothing();
        for at in 0..self.callers.len() {
            let left = wanted.left_of(jobs);
            wanted = wanted.and(self.serve_at(at, source, left, moment));
        }
        self.callers.retain(|caller| !caller.gone);
        wanted
    }

    /// How many milliseconds ago somebody who may has asked for the node's end first.
    pub fn asked_to_end(&self) -> Option<u64> {
        let asked = self.asked?;
        Some(self.looked.0.saturating_sub(asked.0))
    }

    fn take_all(&mut self, moment: Moment) {
        for _ in self.callers.len()..CALLER_LIMIT {
            let Ok((stream, _)) = self.listener.accept() else {
                return;
            };
            let caller = Caller {
                stream,
                http: Connection::new(self.alloc, self.keys, config()),
                since: moment,
                waits: false,
                gone: false,
            };
            if self.callers.push(caller).is_err() {
                return;
            }
        }
    }

    /// Serves one who is connected. The jobs that it has asked for.
    fn serve_at<S: Source>(&mut self, at: usize, source: &S, jobs: Jobs, moment: Moment) -> Wanted {
        let (alloc, token) = (self.alloc, self.token.as_ref());
        let Some(caller) = self.callers.get_mut(at) else {
            return Wanted::nothing();
        };
        let asked = asked_by(alloc, caller, source, token, jobs);
        if asked.stops {
            caller.wait_for_end();
            self.asked = Some(self.asked.unwrap_or(moment));
        } else if caller.is_overdue(moment) {
            caller.gone = true;
        }
        asked.wanted
    }
}
