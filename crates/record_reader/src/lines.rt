//! The lines of a record.

ghost use Rattle.std.specs.Prelude.{◌≡◌, ◌==◌, ◌<◌, ◌++◌, ℕ, List, [], false, drop, length, nat_lt, position, IfOk, IfSome, OnOk};
ghost use Rattle.std.specs.Io.KnownBytes.{prepend_known};
ghost use Rattle.record_reader.specs.WholeLines.{GivesLine, HasRead, Reads, TakesLine};

use std::alloc::{AllocError, AllocFailed, Global};
use std::io::{ErrorKind, Read};
use thiserror::Error;

/// The longest line, in octets: more than the longest message and what stands before it.
pub const LINE_LIMIT: usize = 1_048_576;

/// How many octets are asked for in one read.
const PIECE: usize = 65_536;

/// Interrupted reads in a row that are tried again.
const RETRY_LIMIT: u32 = 1_000;

/// Why there is no next line.
#[derive(Clone, Copy, Debug, PartialEq, Eq, Error)]
pub enum LinesFault {
    #[error("the record cannot be read")]
    Failed,
    #[error("the line is too long")]
    TooLong,
    #[error("out of memory")]
    OutOfMemory,
}

impl From<AllocError> for LinesFault {
    fn from(_e: AllocError) -> LinesFault {
        LinesFault::OutOfMemory
    }
}

impl<T: Drop> From<AllocFailed<T>> for LinesFault {
    fn from(_e: AllocFailed<T>) -> LinesFault {
        LinesFault::OutOfMemory
    }
}

/// The lines of a record. It takes the memory of its longest line and of one read.
#[derive(Drop)]
pub struct RecordLines<R> {
    reader: R,
    /// What was read and is not part of a line that was given.
    rest: Vec<u8>,
    /// So many octets of that are.
    given: usize,
    /// How many lines were given, with one that was too long.
    pub count: u64,
}

/// Where the first line feed stands.
fn line_feed_in(octets: &[u8]) -> Option<usize>
    ensures { result ≡ position (λ octet. octet == 10) octets.now }
{
    octets.iter().position(|octet| *octet == b'\n')
}

impl<R: Read> RecordLines<R> {
    /// The lines from where the reader stands.
    pub fn new(alloc: Global, reader: R) -> Self {
        RecordLines {
            reader,
            rest: Vec::new(alloc),
            given: 0,
            count: 0,
        }
    }

    /// The octets that are read and not given.
    fn unread(&self) -> &[u8]
        ensures { result.now ≡ drop self.now.given self.now.rest.items }
    {
        self.rest.get(self.given..).unwrap_or(&[])
    }

    /// A copy of the next line, where it was read to its end.
    fn take_line(&mut self, alloc: Global) -> Result<Option<Vec<u8>>, LinesFault>
        ensures reader { self.new.reader ≡ self.old.reader }
        ensures taken { IfOk result (λ taken. TakesLine (drop self.old.given self.old.rest.items) (drop self.new.given self.new.rest.items) taken) }
    {
        let unread = self.unread();
        let Some(at) = line_feed_in(unread) else {
            return Ok(None);
        };
        let line = Vec::from_slice(alloc, &unread[..at])?;
        self.given = self.given.saturating_add(at).saturating_add(1);
        self.count = self.count.saturating_add(1);
        Ok(Some(line))
    }

    /// What was given is let go.
    fn let_go(&mut self, alloc: Global) -> Result<(), LinesFault>
        ensures reader { self.new.reader ≡ self.old.reader }
        ensures rest { OnOk result (self.new.rest.items ≡ drop self.old.given self.old.rest.items) }
        ensures given { OnOk result (self.new.given ≡ 0) }
    {
        let rest = Vec::from_slice(alloc, self.unread())?;
        self.rest = rest;
        self.given = 0;
        Ok(())
    }

    /// Whether what was read and not given is longer than any line.
    fn is_too_long(&self) -> bool
        ensures { result ≡ nat_lt 1048576 (length (drop self.now.given self.now.rest.items)) }
    {
        self.unread().len() > LINE_LIMIT
    }

    /// One call of the reader. How many octets it brought, which are all that is added; none where it was interrupted.
    fn read_once(&mut self) -> Result<Option<usize>, LinesFault>
        ensures given { self.new.given ≡ self.old.given }
        ensures read { IfOk result (λ read. HasRead (R.remaining self.old.reader) (R.remaining self.new.reader) self.old.rest.items self.new.rest.items read) }
    {
        let mut piece = [0u8; PIECE];
        match self.reader.read(&mut piece) {
            Ok(count) => {
                self.rest.extend_from_slice(&piece[..count])?;
                Ok(Some(count))
            }
            Err(error) => match error.kind() {
                ErrorKind::Interrupted => Ok(None),
                _ => Err(LinesFault::Failed),
            },
        }
    }

    /// One read. Whether it brought something.
    fn read_more(&mut self) -> Result<bool, LinesFault>
        ensures given { self.new.given ≡ self.old.given }
        ensures more { IfOk result (λ more. Reads (R.remaining self.old.reader) (R.remaining self.new.reader) self.old.rest.items self.new.rest.items more) }
    {
        for _ in 0..RETRY_LIMIT {
            if let Some(count) = self.read_once()? {
                return Ok(count > 0);
            }
        }
        Err(LinesFault::Failed)
    }

    /// The next line without its line feed; none at the end. What stands behind the last line feed was not finished, and is
    /// no line.
    pub fn next_line(&mut self, alloc: Global) -> Result<Option<Vec<u8>>, LinesFault>
        ensures { GivesLine (prepend_known (drop self.old.given self.old.rest.items) (R.remaining self.old.reader)) (prepend_known (drop self.new.given self.new.rest.items) (R.remaining self.new.reader)) result }
    {
        for _ in 0..LINE_LIMIT {
            if let Some(line) = self.take_line(alloc)? {
                return Ok(Some(line));
            }
            if self.is_too_long() {
                self.count = self.count.saturating_add(1);
                return Err(LinesFault::TooLong);
            }
            self.let_go(alloc)?;
            if !self.read_more()? {
                return Ok(None);
            }
        }
        Err(LinesFault::TooLong)
    }
}
