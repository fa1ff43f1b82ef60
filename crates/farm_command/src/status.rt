//! How a program ends: the exit statuses of all programs.

ghost use Rattle.std.specs.Prelude.{◌≡◌};
ghost use Rattle.farm_command.specs.Ending.{code_of, status_of, stream_of};

use crate::about::About;
use crate::fault::CliFault;
use std::fmt::Display;
use std::process::ExitCode;

/// How a program ends.
#[derive(Clone, Copy)]
pub enum Status {
    /// 0: it has done what it was asked to do, or was asked for help or its version.
    Done,
    /// 1: a file, a stream or a socket has failed.
    Failed,
    /// 2: the words of the command line are refused.
    Misused,
    /// 3: a site, a schedule or another text is refused.
    Refused,
    /// 4: want of memory.
    OutOfMemory,
}

/// A stream on which a program tells something at its end.
#[derive(Clone, Copy)]
pub enum Stream {
    Output,
    Error,
}

impl Status {
    /// The exit status.
    pub fn code(self) -> u8
        ensures { result ≡ code_of self }
    {
        match self {
            Status::Done => 0,
            Status::Failed => 1,
            Status::Misused => 2,
            Status::Refused => 3,
            Status::OutOfMemory => 4,
        }
    }

    /// Where it is told why a program ends so: help and the version are output, and a fault is none.
    pub fn stream(self) -> Stream
        ensures { result ≡ stream_of self }
    {
        match self {
            Status::Done => Stream::Output,
            Status::Failed | Status::Misused | Status::Refused | Status::OutOfMemory =>
                Stream::Error,
        }
    }
}

impl CliFault {
    /// How a program ends whose words are no command.
    pub fn status(&self) -> Status
        ensures { result ≡ status_of self.now }
    {
        match self {
            CliFault::Asked(_) => Status::Done,
            CliFault::Refused(_)
            | CliFault::Missing(_)
            | CliFault::Malformed(_)
            | CliFault::Elsewhere
            | CliFault::NotUtf8 => Status::Misused,
            CliFault::OutOfMemory => Status::OutOfMemory,
        }
    }
}

/// Tells the last word of a program, if there is one, on the stream of its status; whether that was written.
fn tell<T: Display>(rt: &HostRuntime, status: Status, told: Option<&T>) -> bool {
    match (status.stream(), told) {
        (_, None) => true,
        (Stream::Output, Some(text)) => rt.println(text).is_ok(),
        (Stream::Error, Some(fault)) => {
            let _ = rt.eprintln(fault);
            true
        }
    }
}

/// Ends a program: tells its last word, if there is one, and gives its exit status. Where standard output cannot be written, that
/// is the fault that is told; where standard error cannot, nothing is told.
pub fn end<T: Display>(rt: &HostRuntime, status: Status, told: Option<&T>) -> ExitCode {
    if tell(rt, status, told) {
        return ExitCode::from(status.code());
    }
    let _ = rt.eprintln("the output cannot be written");
    ExitCode::from(Status::Failed.code())
}

/// Ends a program as [`end`] does, and tells on standard error, on a second line, what its fault is about, if there is something.
pub fn end_about<T: Display>(
    rt: &HostRuntime,
    status: Status,
    told: Option<&T>,
    about: Option<About<'_>>,
) -> ExitCode {
    let code = end(rt, status, told);
    if let Some(about) = about {
        let _ = rt.eprintln(&about.line(rt));
    }
    code
}

/// Ends a program whose words are no command of its own: by its usage, but for help and the version, and for want of memory.
pub fn refuse(rt: &HostRuntime, fault: &CliFault, usage: &str) -> ExitCode {
    match fault.status() {
        Status::Misused => end(rt, Status::Misused, Some(&usage)),
        status => end(rt, status, Some(fault)),
    }
}
