//! A connected socket as a reader and a writer.

ghost use Rattle.std.specs.Prelude.{◌≡◌};
ghost use Rattle.farm_event_loop.specs.Reading.{drain_after, may_have_more};

use mio::net::TcpStream;
use mio::unix::SourceFd;
use mio::{Interest, Registry, Token};
use std::alloc::Global;
use std::io;
use std::io::{ErrorKind, Read, Write};
use std::net::IpAddr;
use std::os::fd::AsRawFd;
use std::sync::Arc;

/// What the last read tells of what is still there.
#[derive(Clone, Copy, PartialEq, Eq)]
pub enum Drain {
    /// There may be more.
    More,
    /// A read gave less than there was room for, so that it has taken all that was there, as of any stream (epoll(7)). The
    /// next one is answered that it would wait, without a call of the system.
    Short,
    /// A read was answered so.
    Guessed,
    /// The read would have waited, so that the next change will be reported.
    Empty,
}

/// One of the two owners of a socket: the reader or the writer. The socket is closed when both are gone.
#[derive(Drop)]
pub struct Half {
    stream: Arc<TcpStream, Global>,
    pub drain: Drain,
    /// From where its other end has connected, if that has.
    origin: Option<IpAddr>,
    /// What the first read gave, if its other end has connected.
    first: Vec<u8>,
    /// Why a call failed last, if one has.
    fault: Option<ErrorKind>,
}

/// The reader and the writer of a socket, whose other end has connected from this address, if it has.
pub fn halves(
    alloc: Global,
    stream: TcpStream,
    origin: Option<IpAddr>,
) -> io::Result<(Half, Half)> {
    let _ = stream.set_nodelay(true);
    let Ok(stream) = Arc::new(alloc, stream) else {
        return Err(ErrorKind::OutOfMemory.into());
    };
    let Ok(other) = Arc::try_clone(&stream) else {
        return Err(ErrorKind::OutOfMemory.into());
    };
    Ok((
        Half::new(alloc, stream, origin),
        Half::new(alloc, other, origin),
    ))
}

impl Half {
    /// Nothing was read or written yet.
    fn new(alloc: Global, stream: Arc<TcpStream, Global>, origin: Option<IpAddr>) -> Half {
        Half {
            stream,
            drain: Drain::Empty,
            origin,
            first: Vec::new(alloc),
            fault: None,
        }
    }

    /// From where the other end has connected, if it has.
    pub fn origin(&self) -> Option<IpAddr> {
        self.origin
    }

    /// What the first read gave, if the other end has connected and memory was there.
    pub fn first(&self) -> &[u8] {
        &self.first
    }

    /// Keeps what the first read gave.
    fn keep_first(&mut self, octets: &[u8]) {
        if self.origin.is_some() && self.first.is_empty() {
            let _ = self.first.extend_from_slice(octets);
        }
    }

    /// Why a call failed last, if one has: not those that would have waited.
    pub fn fault(&self) -> Option<ErrorKind> {
        self.fault
    }

    /// Whether there may be more to read, where it is reported that nothing comes behind that, or not: the end of a stream is
    /// reported once, and read behind all else.
    pub fn may_have_more(&self, closes: bool) -> bool
        ensures { result ≡ may_have_more self.now.drain closes }
    {
        match self.drain {
            Drain::More | Drain::Short => true,
            Drain::Guessed => closes,
            Drain::Empty => false,
        }
    }

    /// Has the socket reported under this token, to read and to write.
    pub fn register(&self, registry: &Registry, token: Token) -> io::Result<()> {
        let fd = self.stream.as_raw_fd();
        registry.register(
            &mut SourceFd(&fd),
            token,
            Interest::READABLE | Interest::WRITABLE,
        )
    }
}

/// Why a call has failed, if it has, and not only would have waited.
fn fault_of(outcome: &io::Result<usize>) -> Option<ErrorKind> {
    match outcome {
        Ok(_) => None,
        Err(error) => match error.kind() {
            ErrorKind::WouldBlock | ErrorKind::Interrupted => None,
            kind => Some(kind),
        },
    }
}

/// What is still there after a call that gave or took so much, of so much that it was to.
fn drain_after(outcome: &io::Result<usize>, most: usize) -> Drain
    ensures { result ≡ drain_after outcome.now most }
{
    match outcome {
        Ok(count) if 0 < *count && *count < most => Drain::Short,
        Ok(_) => Drain::More,
        Err(error) => match error.kind() {
            ErrorKind::WouldBlock => Drain::Empty,
            _ => Drain::More,
        },
    }
}

impl Read for Half {
    fn read(&mut self, buf: &mut [u8]) -> io::Result<usize> {
        if self.drain == Drain::Short {
            self.drain = Drain::Guessed;
            return Err(ErrorKind::WouldBlock.into());
        }
        let mut stream = &*self.stream;
        let outcome = stream.read(buf);
        self.drain = drain_after(&outcome, buf.len());
        self.fault = fault_of(&outcome).or(self.fault);
        if let Ok(count) = &outcome
            && let Some(octets) = buf.get(..*count)
        {
            self.keep_first(octets);
        }
        outcome
    }
}

impl Write for Half {
    fn write(&mut self, buf: &[u8]) -> io::Result<usize> {
        let mut stream = &*self.stream;
        let outcome = stream.write(buf);
        self.fault = fault_of(&outcome).or(self.fault);
        outcome
    }

    fn flush(&mut self) -> io::Result<()> {
        Ok(())
    }
}
