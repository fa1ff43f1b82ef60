//! What a fault is about: it is told on a second line.

use std::fs::File;
use std::io::{ErrorKind, Read};
use std::{fmt, io};

/// What a fault is about.
#[derive(Clone, Copy)]
pub enum About<'a> {
    /// The file at this path, which is to be read.
    File(&'a str),
    /// The file at this path, which is to be made. What stands there now says nothing of the fault.
    NewFile(&'a str),
    /// The book at this path. One that is missing is told with the command that makes it, for the site of a file.
    Book { path: &'a str, site: &'a str },
}

impl<'a> About<'a> {
    /// The line that tells it: `PATH: REASON` if the file is to be read, and cannot be opened and read now, else `PATH`.
    pub fn line(self, rt: &HostRuntime) -> AboutLine<'a> {
        let (path, reason) = match self {
            About::File(path) | About::Book { path, .. } => (path, reason(rt, path)),
            About::NewFile(path) => (path, None),
        };
        AboutLine {
            about: self,
            path,
            reason,
        }
    }
}

/// What a fault is about, as a line.
#[derive(Clone, Copy)]
pub struct AboutLine<'a> {
    about: About<'a>,
    path: &'a str,
    reason: Option<io::Error>,
}

impl fmt::Display for AboutLine<'_> {
    fn fmt<W: fmt::Write>(&self, f: &mut fmt::Formatter<W>) -> fmt::Result {
        let path = self.path;
        let Some(reason) = self.reason else {
            return write!(f, "{path}");
        };
        write!(f, "{path}: {reason}")?;
        match self.about {
            About::Book { site, .. } if reason.kind() == ErrorKind::NotFound => {
                write!(f, ": farm book create {path} --site {site} makes it")
            }
            About::Book { .. } | About::File(_) | About::NewFile(_) => Ok(()),
        }
    }
}

/// Why the file at a path cannot be opened and read, if it cannot. A folder is opened, and not read.
fn reason(rt: &HostRuntime, path: &str) -> Option<io::Error> {
    match File::open(rt, path) {
        Ok(mut file) => file.read(&mut [0u8; 1]).err(),
        Err(error) => Some(error),
    }
}
