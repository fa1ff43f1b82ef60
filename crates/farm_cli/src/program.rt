//! What the program does, from the words of its command line to its output.

use crate::ending::Ending;
use crate::fault::Fault;
use crate::sites::{replay_row_site, replay_site_file};
use dia_base::SCHEDULE_LIMIT;
use farm_command::{About, CliFault, Command, Run, command_of, end_about, words_of};
use farm_site::{SITE_LIMIT, SiteFault};
use farm_text::{ReadFault, TEXT_LIMIT, file_at, write_text};
use std::alloc::Global;
use std::io;
use std::process::ExitCode;

// A text of either is read up to one octet above its limit.
const _: () = prove!(SITE_LIMIT == TEXT_LIMIT && SCHEDULE_LIMIT == TEXT_LIMIT);

/// The run that the words behind the program's name ask for.
fn run_of<'a>(alloc: Global, words: &'a [String]) -> Result<Run<'a>, Fault> {
    match command_of(alloc, words) {
        Ok(Command::Run(run)) => Ok(run),
        Ok(_) => Err(Fault::Words(CliFault::Elsewhere)),
        Err(fault) => Err(Fault::Words(fault)),
    }
}

/// The octets of a site file, up to one above its size limit.
fn site_file(rt: &HostRuntime, path: &str) -> Result<Vec<u8>, Fault> {
    match file_at(rt, path) {
        Ok(octets) => Ok(octets),
        Err(ReadFault::OutOfMemory) => Err(Fault::Site(SiteFault::OutOfMemory)),
        Err(ReadFault::Failed) => Err(Fault::SiteFile),
    }
}

/// Carries out a run between standard input and standard output, and puts the names of the steps that were skipped into
/// `named`, where it asks for them. Nothing is written before the run is done.
fn carry_out(rt: &HostRuntime, run: &Run<'_>, named: &mut Vec<u8>) -> Result<(), Fault> {
    let (alloc, action, skipped) = (rt.alloc(), run.action, run.skipped);
    let (reader, writer) = (&mut rt.reader(), &mut io::writer(rt));
    match run.site {
        Some(path) => {
            let octets = site_file(rt, path)?;
            replay_site_file(alloc, action, skipped, &octets, reader, writer, named)
        }
        None => replay_row_site(alloc, action, skipped, reader, writer, named).map_err(
            Fault::Replay,
        ),
    }
}

/// Carries out a run. What was printed stands, whether or not steps can be named on standard error.
fn run_and_name(rt: &HostRuntime, run: &Run<'_>) -> Result<(), Fault> {
    let mut named = Vec::new(rt.alloc());
    carry_out(rt, run, &mut named)?;
    let _ = write_text(&mut rt.stderr(), &named);
    Ok(())
}

/// Ends the program. A site file that cannot be read is named.
fn finish(rt: &HostRuntime, done: Result<(), Fault>, site: Option<&str>) -> ExitCode {
    let ending = Ending::of(done);
    let about = match &ending.told {
        Some(Fault::SiteFile) => site.map(About::File),
        _ => None,
    };
    end_about(rt, ending.status, ending.told.as_ref(), about)
}

/// Does what the words behind the program's name ask for.
fn run_words(rt: &HostRuntime, words: &[String]) -> ExitCode {
    match run_of(rt.alloc(), words) {
        Ok(run) => finish(rt, run_and_name(rt, &run), run.site),
        Err(fault) => finish(rt, Err(fault), None),
    }
}

/// Does what the words of the command line ask for, and ends the program.
pub fn farm(rt: &HostRuntime) -> ExitCode {
    match words_of(rt) {
        Ok(words) => run_words(rt, &words),
        Err(fault) => finish(rt, Err(Fault::Words(fault)), None),
    }
}
