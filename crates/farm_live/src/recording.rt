//! The record of a process: a file, to which what happened is written before anything goes to the sockets.

use crate::Logger;
use crate::fault::Fault;
use crate::setting::Setting;
use cc_book::Book;
use dia_base::{Moment, NodeNo};
use farm_event_loop::Live;
use farm_node::Node;
use farm_record::{Event, Recorder};
use farm_report::report;
use log::{info, warn};
use std::alloc::{AllocError, Global};
use std::fs::{self, File, OpenOptions};
use std::io::{self, Read, Write};
use std::rt::Clock;

/// What is written behind a line that was not finished, where a record can be written no further.
const LOST: &[u8] = b" ~\nlost\n";

/// What a record begins with, and goes on with behind a line that was not finished.
const START: &[u8] = b" ~\n";

/// The record of a process, if it has one.
#[derive(Drop)]
pub struct Record {
    file: Option<File>,
    /// The second in which it was last looked whether a file stands at its path.
    looked: u64,
}

/// How many octets the file at a path has, 0 where none is there.
fn length_at(rt: &HostRuntime, path: &str) -> io::Result<u64> {
    match fs::metadata(rt, path) {
        Ok(found) => Ok(found.len()),
        Err(error) if error.kind() == io::ErrorKind::NotFound => Ok(0),
        Err(error) => Err(error),
    }
}

/// Whether no file stands at a path.
fn is_missing(rt: &HostRuntime, path: &str) -> bool {
    match fs::metadata(rt, path) {
        Ok(_) => false,
        Err(error) => error.kind() == io::ErrorKind::NotFound,
    }
}

/// Whether a record may be written behind what the file at a path has: nothing, or a record.
fn is_free(rt: &HostRuntime, path: &str) -> io::Result<bool> {
    if length_at(rt, path)? == 0 {
        return Ok(true);
    }
    let mut first = [0; 3];
    File::open(rt, path)?.read(&mut first)?;
    Ok(first.as_slice() == START)
}

/// Refuses a path whose file has something else than a record.
fn check_free(rt: &HostRuntime, path: &str) -> Result<(), Fault> {
    match is_free(rt, path) {
        Ok(true) => Ok(()),
        Ok(false) => Err(Fault::NoRecord),
        Err(error) => Err(Fault::Record(error)),
    }
}

/// The file at this path, to write behind what it has.
fn file_at(rt: &HostRuntime, path: &str) -> Result<File, Fault> {
    let mut options = OpenOptions::new();
    options.append(true).create(true);
    match options.open(rt, path) {
        Ok(file) => Ok(file),
        Err(error) => Err(Fault::Record(error)),
    }
}

/// The lines of a report, as they stand in a record.
fn tell_report(alloc: Global, book: &Book, recorder: &mut Recorder) -> Result<(), AllocError> {
    let text = report(alloc, book)?;
    for line in text.as_str().lines() {
        let line = Vec::from_slice(alloc, line.as_bytes())?;
        recorder.tell(alloc, &Event::Report { line });
    }
    Ok(())
}

/// What happens to these nodes is recorded from now on.
fn begin_in<O: Clock, N: Node + Drop>(
    setting: &Setting<'_, O>,
    nodes: &[NodeNo],
    is_client: bool,
    live: &mut Live<N>,
) -> Result<(), Fault> {
    let nodes = Vec::from_slice(setting.rt.alloc(), nodes)?;
    live.begin_record(setting.os, setting.site, nodes, is_client)?;
    Ok(())
}

impl Record {
    /// Begins the record that the command asks for, if it does, of a process that is these nodes.
    pub fn begin<O: Clock, N: Node + Drop>(
        setting: &Setting<'_, O>,
        nodes: &[NodeNo],
        is_client: bool,
        live: &mut Live<N>,
    ) -> Result<Record, Fault> {
        let Some(path) = setting.command.record_path else {
            return Ok(Record {
                file: None,
                looked: 0,
            });
        };
        check_free(setting.rt, path)?;
        let file = file_at(setting.rt, path)?;
        begin_in(setting, nodes, is_client, live)?;
        Ok(Record {
            file: Some(file),
            looked: 0,
        })
    }

    /// Writes lines; whether there is a file, and they are written. Where that fails it is told once, and nothing is written
    /// any more.
    fn put(&mut self, log: &Logger, lines: &[u8]) -> bool {
        let Some(file) = &mut self.file else {
            return false;
        };
        if lines.is_empty() {
            return true;
        }
        let Err(error) = file.write_all(lines) else {
            return true;
        };
        warn!(log; target: "farm", "the record cannot be written, and ends: {error}");
        let _ = file.write_all(LOST);
        self.file = None;
        false
    }

    /// Tells once that memory was missing for what was to be recorded.
    fn look(&mut self, log: &Logger, has_failed: bool) {
        if has_failed && self.file.is_some() {
            warn!(log; target: "farm", "the record ends: out of memory");
            self.file = None;
        }
    }

    /// Goes on in a new file at a path. Where none can be made it stays in the file that was moved away.
    fn reopen(&mut self, rt: &HostRuntime, log: &Logger, path: &str) {
        match file_at(rt, path) {
            Ok(file) => {
                self.file = Some(file);
                if self.put(log, START) {
                    info!(log; target: "farm", "the record goes on in a new file");
                }
            }
            Err(fault) => {
                warn!(log; target: "farm", "the record stays in the file that was moved away: {fault}");
                self.looked = u64::MAX;
            }
        }
    }

    /// Goes on in a new file where the one at its path was moved away. It looks once a second.
    pub fn follow<O>(&mut self, setting: &Setting<'_, O>, moment: Moment) {
        let Some(path) = setting.command.record_path else {
            return;
        };
        let second = moment.0 / 1_000;
        if self.file.is_none() || second <= self.looked {
            return;
        }
        self.looked = second;
        if is_missing(setting.rt, path) {
            self.reopen(setting.rt, setting.log, path);
        }
    }

    /// Writes what was recorded and is not written yet. Where that fails, or there is no file any more, no more is recorded.
    pub fn write<N: Node + Drop>(&mut self, log: &Logger, live: &mut Live<N>) {
        if self.put(log, live.serving.recorder().lines()) {
            live.serving.record_written();
        } else {
            live.serving.record_failed();
        }
        self.look(log, live.serving.recorder().has_failed());
    }

    /// The process ends in good order, and its book, if it has one, has come to this.
    pub fn end(&mut self, rt: &HostRuntime, log: &Logger, book: &Option<Book>, recorder: Recorder) {
        let mut recorder = recorder;
        if let Some(book) = book {
            if tell_report(rt.alloc(), book, &mut recorder).is_err() {
                recorder.fail();
            }
        }
        recorder.tell(rt.alloc(), &Event::End);
        let _ = self.put(log, recorder.lines());
        self.look(log, recorder.has_failed());
    }

    /// Whether what happens is recorded.
    pub fn is_on(&self) -> bool {
        self.file.is_some()
    }
}
