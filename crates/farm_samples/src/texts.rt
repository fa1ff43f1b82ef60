//! Texts from readers, and to writers, that are interrupted, stop or fail.

use farm_text::{read_text, write_text};
use std::alloc::Global;
use std::io;
use std::io::{ErrorKind, Read, Write};

/// A stream whose calls are refused from one on: at first it gives a line a call.
#[derive(Drop)]
struct Refusing {
    calls: u32,
    from: u32,
    kind: ErrorKind,
}

impl Read for Refusing {
    fn read(&mut self, buf: &mut [u8]) -> io::Result<usize> {
        self.calls = self.calls.saturating_add(1);
        if self.calls > self.from {
            return Err(io::Error::from(self.kind));
        }
        match buf.first_mut() {
            Some(octet) => {
                *octet = b'\n';
                Ok(1)
            }
            None => Ok(0),
        }
    }
}

/// A writer that is interrupted some times, and then takes so many octets; the rest it takes not, or refuses, as it
/// refuses to be flushed.
#[derive(Drop)]
struct Short {
    calls: u32,
    interrupted: u32,
    room: usize,
    refuses: bool,
    kept: Vec<u8>,
}

impl Short {
    fn new(alloc: Global, interrupted: u32, room: usize, refuses: bool) -> Short {
        Short {
            calls: 0,
            interrupted,
            room,
            refuses,
            kept: Vec::new(alloc),
        }
    }
}

impl Write for Short {
    fn write(&mut self, buf: &[u8]) -> io::Result<usize> {
        self.calls = self.calls.saturating_add(1);
        if self.calls <= self.interrupted {
            return Err(io::Error::from(ErrorKind::Interrupted));
        }
        let count = buf.len().min(self.room);
        if count == 0 && self.refuses {
            return Err(io::Error::from(ErrorKind::BrokenPipe));
        }
        for octet in buf.iter().take(count) {
            self.kept.push(*octet)?;
        }
        self.room = self.room.saturating_sub(count);
        Ok(count)
    }

    fn flush(&mut self) -> io::Result<()> {
        if self.refuses {
            return Err(io::Error::from(ErrorKind::BrokenPipe));
        }
        Ok(())
    }
}

/// Prints what comes of a reader whose calls are refused so from one on.
fn print_read(rt: &impl Print, alloc: Global, from: u32, kind: ErrorKind) -> anyhow::Result<()> {
    let mut reader = Refusing {
        calls: 0,
        from,
        kind,
    };
    match read_text(alloc, &mut reader) {
        Ok(text) => println!(rt; "read {} octets in {} calls", text.len(), reader.calls)?,
        Err(fault) => println!(rt; "{fault} after {} calls", reader.calls)?,
    }
    Ok(())
}

/// Prints what comes of a writer that is interrupted so often, takes so many octets, and refuses the rest or takes it not.
fn print_write(
    rt: &impl Print,
    alloc: Global,
    interrupted: u32,
    room: usize,
    refuses: bool,
) -> anyhow::Result<()> {
    let mut writer = Short::new(alloc, interrupted, room, refuses);
    let told = match write_text(&mut writer, b"end steps 0 skipped 0 entries 0\n") {
        Ok(()) => "written",
        Err(_) => "not written",
    };
    println!(rt;
        "{told}: {} octets in {} calls",
        writer.kept.len(),
        writer.calls
    )?;
    Ok(())
}

/// Prints what comes of readers that fail.
pub fn print_reads(rt: &impl Print, alloc: Global) -> anyhow::Result<()> {
    // The second read fails; each read is interrupted.
    print_read(rt, alloc, 1, ErrorKind::BrokenPipe)?;
    print_read(rt, alloc, 0, ErrorKind::Interrupted)
}

/// Prints what comes of writers that stop or fail.
pub fn print_writes(rt: &impl Print, alloc: Global) -> anyhow::Result<()> {
    // Three, a thousand and a thousand and one interrupted writes; the last is given up.
    print_write(rt, alloc, 3, 100, false)?;
    print_write(rt, alloc, 1_000, 100, false)?;
    print_write(rt, alloc, 1_001, 100, false)?;
    // A broken pipe, which is asked once; room for a beginning, and then nothing is taken, or refused.
    print_write(rt, alloc, 0, 0, true)?;
    print_write(rt, alloc, 0, 20, false)?;
    print_write(rt, alloc, 0, 20, true)?;
    // All is written, and cannot be flushed.
    print_write(rt, alloc, 0, 100, true)
}
