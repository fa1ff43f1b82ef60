//! Readers and writers in memory: of few octets a call, that fail at a call or behind an octet, or that take nothing.

use farm_net::Counted;
use std::io;
use std::io::{ErrorKind, Read, Write};

/// A call that never comes.
pub const NEVER: u32 = u32::MAX;

/// How a stream in memory goes.
#[derive(Clone, Copy)]
pub struct Ways {
    /// The most octets of a call.
    pub most: usize,
    /// The octets behind which it is cut: a call then fails as this.
    pub left: usize,
    pub cut: ErrorKind,
    /// The first call that fails, counted from 0, the first behind it that does not, and how they fail.
    pub from: u32,
    pub until: u32,
    pub kind: ErrorKind,
    /// Whether a reader ends behind its last octet, at the second read that finds nothing.
    pub ends: bool,
}

impl Ways {
    /// It does what it can, and behind the last octet of a reader more may come.
    pub fn sound() -> Ways {
        Ways {
            most: usize::MAX,
            left: usize::MAX,
            cut: ErrorKind::ConnectionReset,
            from: NEVER,
            until: NEVER,
            kind: ErrorKind::ConnectionReset,
            ends: false,
        }
    }

    /// A reader ends behind its last octet.
    pub fn ending() -> Ways {
        Ways {
            ends: true,
            ..Ways::sound()
        }
    }

    /// So many octets a call at most.
    pub fn few(most: usize) -> Ways {
        Ways {
            most,
            ..Ways::sound()
        }
    }

    /// All calls behind so many octets fail as this.
    pub fn cut_behind(octets: usize, cut: ErrorKind) -> Ways {
        Ways {
            left: octets,
            cut,
            ..Ways::sound()
        }
    }

    /// Seven octets a call at most, and this call fails.
    pub fn failing_at(call: u32, kind: ErrorKind) -> Ways {
        Ways {
            most: 7,
            from: call,
            until: call.saturating_add(1),
            kind,
            ..Ways::sound()
        }
    }

    /// All calls fail from this one on.
    pub fn failing_from(call: u32, kind: ErrorKind) -> Ways {
        Ways {
            from: call,
            kind,
            ..Ways::sound()
        }
    }
}

/// A stream in memory that goes so.
#[derive(Drop)]
pub struct Stream<S> {
    pub inner: S,
    ways: Ways,
    calls: u32,
    /// Whether a read has found nothing: it is the next one that tells the end.
    found_nothing: bool,
}

impl<S> Stream<S> {
    /// How many octets the next call may move.
    fn room(&mut self) -> io::Result<usize> {
        let fails = self.ways.from <= self.calls && self.calls < self.ways.until;
        self.calls = self.calls.saturating_add(1);
        if fails {
            return Err(self.ways.kind.into());
        }
        if self.ways.left == 0 {
            return Err(self.ways.cut.into());
        }
        Ok(self.ways.most.min(self.ways.left))
    }
}

impl<S: Read> Read for Stream<S> {
    fn read(&mut self, buf: &mut [u8]) -> io::Result<usize> {
        let some = self.room()?.min(buf.len());
        let count = self.inner.read(&mut buf[..some])?;
        self.ways.left = self.ways.left.saturating_sub(count);
        if count == 0 && !(self.ways.ends && self.found_nothing) {
            self.found_nothing = true;
            return Err(ErrorKind::WouldBlock.into());
        }
        Ok(count)
    }
}

impl<S: Write> Write for Stream<S> {
    fn write(&mut self, buf: &[u8]) -> io::Result<usize> {
        let some = self.room()?.min(buf.len());
        let count = self.inner.write(&buf[..some])?;
        self.ways.left = self.ways.left.saturating_sub(count);
        Ok(count)
    }

    fn flush(&mut self) -> io::Result<()> {
        self.inner.flush()
    }
}

/// Counted, and going so.
pub fn stream_of<S>(inner: S, ways: Ways) -> Counted<Stream<S>> {
    Counted::new(Stream {
        inner,
        ways,
        calls: 0,
        found_nothing: false,
    })
}
