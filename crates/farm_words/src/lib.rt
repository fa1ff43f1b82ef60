//! Diameter messages in words: [`tell_words`] prints what it reads from standard input, with each message as a person reads it.
#![tactic(auto)]

ghost use Rattle.std.specs.Prelude.{◌≢◌, IfErr};
ghost use Rattle.std.specs.Io.KnownBytes.{Keeps};

mod avps;
mod header;
mod lines;
mod names;
mod streams;
mod values;

use farm_command::{Status, end};
use farm_text::write_text;
use lines::in_words;
use std::alloc::Global;
use std::io;
use std::io::{Read, Write};
use std::process::ExitCode;
use streams::{WordsFault, read_all};

/// Reads the text, and writes it with its messages in words.
fn tell<R: Read, W: Write>(alloc: Global, reader: &mut R, writer: &mut W) -> Result<(), WordsFault>
    // Nothing is written before all is read and in words.
    ensures nothing { IfErr result (λ fault. fault ≢ WordsFault.Write → Keeps (W.contents writer.old) (W.contents writer.new)) }
{
    let text = read_all(alloc, reader)?;
    let told = in_words(alloc, &text)?;
    Ok(write_text(writer, &told)?)
}

/// How the program ends by a fault.
fn status_of(fault: WordsFault) -> Status {
    match fault {
        WordsFault::Read | WordsFault::Write => Status::Failed,
        WordsFault::TooLong => Status::Refused,
        WordsFault::OutOfMemory => Status::OutOfMemory,
    }
}

/// Prints what stands on standard input, with its messages in words.
pub fn tell_words(rt: &HostRuntime) -> ExitCode {
    match tell(rt.alloc(), &mut rt.reader(), &mut io::writer(rt)) {
        Ok(()) => ExitCode::SUCCESS,
        Err(fault) => end(rt, status_of(fault), Some(&fault)),
    }
}
