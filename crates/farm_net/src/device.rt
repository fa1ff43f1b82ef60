//! Readers and writers that count how often they fail.

ghost use Rattle.std.specs.Prelude.{◌≡◌, ℕ};
ghost use Rattle.std.specs.Io.{ReadsAtMost, WritesAtMost};
ghost use Rattle.std.specs.Io.KnownBytes.{Keeps, ReadConsumes, WriteAppends};
ghost use Rattle.farm_net.specs.Device.{Counts, count_after, device_of, fault_count};

use std::io;
use std::io::{ErrorKind, Read, Write};

/// What may fail, and tells how often it has.
pub trait Device {
    /// How many calls have failed.
    ghost faults: { Self → ℕ };

    /// How many calls have failed: not those that would have blocked or were interrupted. At
    /// 2^64 - 1 the number stays.
    fn faults(&self) -> u64
        ensures { result ≡ faults self.now };
}

/// A reader or a writer whose failures are counted.
#[derive(Drop)]
pub struct Counted<S> {
    device: S,
    faults: u64,
}

impl<S> Counted<S> {
    /// None of its calls has failed yet.
    pub fn new(device: S) -> Self
        ensures device { device_of result ≡ device }
        ensures faults { fault_count result ≡ 0 }
    {
        Counted { device, faults: 0 }
    }

    /// The reader or writer itself.
    pub fn device(&self) -> &S
        ensures { result.now ≡ device_of self.now }
    {
        &self.device
    }
}

/// The count after a call that failed so.
fn count_after(faults: u64, kind: ErrorKind) -> u64
    ensures { result ≡ count_after faults kind }
{
    match kind {
        ErrorKind::WouldBlock | ErrorKind::Interrupted => faults,
        _ => faults.saturating_add(1),
    }
}

impl<S> Device for Counted<S> {
    ghost faults = { fault_count };

    fn faults(&self) -> u64 {
        self.faults
    }
}

impl<S: Read> Read for Counted<S> {
    ghost remaining = { λ c. S.remaining (device_of c) };

    fn read(&mut self, buf: &mut [u8]) -> io::Result<usize>
        ensures bound { ReadsAtMost result buf.new }
        ensures bytes { ReadConsumes (S.remaining (device_of self.old)) (S.remaining (device_of self.new)) result buf.new }
        ensures faults { Counts (fault_count self.old) (fault_count self.new) result }
    {
        let result = self.device.read(buf);
        if let Err(error) = &result {
            self.faults = count_after(self.faults, error.kind());
        }
        result
    }
}

impl<S: Write> Write for Counted<S> {
    ghost contents = { λ c. S.contents (device_of c) };

    fn write(&mut self, buf: &[u8]) -> io::Result<usize>
        ensures bound { WritesAtMost result buf.now }
        ensures bytes { WriteAppends (S.contents (device_of self.old)) (S.contents (device_of self.new)) result buf.now }
        ensures faults { Counts (fault_count self.old) (fault_count self.new) result }
    {
        let result = self.device.write(buf);
        if let Err(error) = &result {
            self.faults = count_after(self.faults, error.kind());
        }
        result
    }

    fn flush(&mut self) -> io::Result<()>
        ensures bytes { Keeps (S.contents (device_of self.old)) (S.contents (device_of self.new)) }
        ensures faults { Counts (fault_count self.old) (fault_count self.new) result }
    {
        let result = self.device.flush();
        if let Err(error) = &result {
            self.faults = count_after(self.faults, error.kind());
        }
        result
    }
}
