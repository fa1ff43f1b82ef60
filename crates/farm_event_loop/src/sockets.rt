//! The sockets of a process: who listens, and which are ready.

ghost use Rattle.std.specs.Prelude.{◌≡◌, ◌||◌};
ghost use Rattle.farm_event_loop.specs.Callers.{callers_after, may_wait};
ghost use Rattle.farm_event_loop.specs.Tokens.{IsOf, token_for};

use crate::pause::PIECE;
use dia_base::{ConnId, Moment, NodeNo};
use mio::net::TcpListener;
use mio::{Events, Interest, Poll, Registry, Token, Waker};
use std::alloc::Global;
use std::io;
use std::io::ErrorKind;
use std::net::{Net, SocketAddr};
use std::time::Duration;

/// The most events of a turn.
const EVENT_LIMIT: usize = 1_024;

/// How long a turn waits, in milliseconds, where nothing happens.
const WAIT: u64 = 100;

/// How often a process that has a waker looks for what is ready before it sleeps, which takes some ten microseconds. To sleep and be
/// woken takes as long as a worker needs for an answer.
const LOOKS: u32 = 24;

/// A listening socket, for a node of this process.
#[derive(Drop)]
pub struct Listening {
    pub local: NodeNo,
    pub listener: TcpListener,
    pub callers: Callers,
}

/// Whether connections wait at a listener.
#[derive(Clone, Copy, PartialEq, Eq)]
pub enum Callers {
    /// None does, until some are reported.
    Nobody,
    /// Some may.
    MayWait,
    /// Some may, for whom the system had no room: it is asked again from this moment on.
    From { moment: Moment },
}

impl Callers {
    /// Whether the system is to be asked for one at this moment.
    pub fn may_wait(self, now: Moment) -> bool
        ensures { result ≡ may_wait self now }
    {
        match self {
            Callers::Nobody => false,
            Callers::MayWait => true,
            Callers::From { moment } => moment.0 <= now.0,
        }
    }
}

/// After how many milliseconds the system is asked again for a connection that it had no room for.
const AGAIN: u64 = 1_000;

/// Whether connections wait at a listener that has given none, for this reason: none does; some may behind one who has given up; or the system
/// has no room for one more socket, and does not report those who wait again.
pub fn callers_after(kind: ErrorKind, now: Moment) -> Callers
    ensures { result ≡ callers_after kind now }
{
    match kind {
        ErrorKind::WouldBlock => Callers::Nobody,
        ErrorKind::ConnectionAborted => Callers::MayWait,
        _ => Callers::From {
            moment: Moment(now.0.saturating_add(AGAIN)),
        },
    }
}

/// What a report is of.
#[derive(Clone, Copy)]
pub enum Source {
    /// What works for the node elsewhere has woken the loop.
    Waker,
    Listener { place: usize },
    Conn { conn: ConnId },
}

/// A report of the system. That a connection takes octets again ends a wait, and needs no more: each writes at each turn.
#[derive(Clone, Copy)]
pub struct Ready {
    pub source: Source,
    pub reads: bool,
    /// Whether nothing comes behind what is there to be read.
    pub closes: bool,
}

/// What is reported of a source. An end is read: nothing comes behind what is there.
fn ready_of(source: Source, is_readable: bool, closes: bool) -> Ready
    ensures { result ≡ record { source = source; reads = is_readable || closes; closes = closes } }
{
    Ready {
        source,
        reads: is_readable || closes,
        closes,
    }
}

/// The sockets of a process, and what the system reports of them.
pub struct Sockets {
    poll: Poll,
    events: Events,
    pub listeners: Vec<Listening>,
    /// What was reported for this turn.
    pub ready: Vec<Ready>,
    /// What is read.
    pub piece: Vec<u8>,
    /// Whether what works in other threads ends a wait.
    has_waker: bool,
}

// By hand, so that each exit of an owner is proved with one call.
impl Drop for Sockets {
    fn drop(self) {
        let Sockets {
            poll: _,
            events: _,
            listeners: _,
            ready: _,
            piece: _,
            has_waker: _,
        } = self;
    }
}

/// The token of the waker, which no connection has: their numbers begin with 1.
const WAKER: Token = Token(0);

/// The token of a connection: its number.
pub fn token_of(conn: ConnId) -> Token
    ensures { result.0 ≡ token_for (Source.Conn conn) }
{
    Token(conn.0 as usize)
}

/// The token of a listener: those at the top, which no connection reaches.
fn token_of_listener(place: usize) -> Token
    ensures { result.0 ≡ token_for (Source.Listener place) }
{
    Token(usize::MAX - place)
}

/// Whose token it is.
fn source_of(token: Token, listeners: usize) -> Source
    ensures { IsOf listeners token.0 result }
{
    let place = usize::MAX - token.0;
    if token == WAKER {
        Source::Waker
    } else if place < listeners {
        Source::Listener { place }
    } else {
        Source::Conn {
            conn: ConnId(token.0 as u64),
        }
    }
}

impl Sockets {
    /// None yet.
    pub fn new<O: Net>(os: &O, alloc: Global) -> io::Result<Sockets> {
        Ok(Sockets {
            poll: Poll::new(os)?,
            events: Events::with_capacity(alloc, EVENT_LIMIT)?,
            listeners: Vec::new(alloc),
            ready: Vec::with_capacity(alloc, EVENT_LIMIT)?,
            piece: Vec::from_elem(alloc, 0u8, PIECE)?,
            has_waker: false,
        })
    }

    /// What ends a wait of the loop from another thread. One is made at most.
    pub fn waker(&mut self) -> io::Result<Waker> {
        let waker = Waker::new(self.poll.registry(), WAKER)?;
        self.has_waker = true;
        Ok(waker)
    }

    /// Where sources are registered.
    pub fn registry(&self) -> &Registry {
        self.poll.registry()
    }

    /// A node of this process listens.
    pub fn listen<O: Net>(&mut self, os: &O, local: NodeNo, address: SocketAddr) -> io::Result<()> {
        let mut listener = TcpListener::bind(os, address)?;
        let token = token_of_listener(self.listeners.len());
        self.poll
            .registry()
            .register(&mut listener, token, Interest::READABLE)?;
        self.listeners.push(Listening {
            local,
            listener,
            callers: Callers::MayWait,
        })?;
        Ok(())
    }

    /// Asks the system what is ready, and waits so many milliseconds for it.
    fn ask(&mut self, millis: u64) -> io::Result<()> {
        self.poll
            .poll(&mut self.events, Some(Duration::from_millis(millis)))
    }

    /// Looks for what is ready without sleeping, for some microseconds. Whether something is.
    fn look(&mut self) -> io::Result<bool> {
        for _look in 0..LOOKS {
            self.ask(0)?;
            if !self.events.is_empty() {
                return Ok(true);
            }
        }
        Ok(false)
    }

    /// Waits until something is ready, or 100 milliseconds, or not at all. What is ready stands in `ready` then. If workers answer in other
    /// threads, and something was ready for the turn before, it looks a while before it sleeps.
    pub fn wait(&mut self, at_once: bool) -> io::Result<()> {
        let was_busy = self.has_waker && !self.ready.is_empty();
        if at_once {
            self.ask(0)?;
        } else if !(was_busy && self.look()?) {
            self.ask(WAIT)?;
        }
        self.ready.clear();
        let listeners = self.listeners.len();
        for event in &self.events {
            let source = source_of(event.token(), listeners);
            let closes = event.is_read_closed() || event.is_error();
            self.ready
                .push(ready_of(source, event.is_readable(), closes))?;
        }
        Ok(())
    }
}
