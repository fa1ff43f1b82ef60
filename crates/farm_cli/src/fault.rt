//! Why the program does not do what it is asked to do.

ghost use Rattle.std.specs.Prelude.{◌≡◌};
ghost use Rattle.farm_cli.specs.Ending.{replay_status, status_of};

use crate::replay::ReplayFault;
use farm_command::{CliFault, Status};
use farm_script::{LineFault, ScriptFault};
use farm_site::SiteFault;
use thiserror::Error;

/// The first fault, in this order: the words of the command line, the site file, the schedule and its run.
#[derive(Debug, Drop, Error)]
pub enum Fault {
    /// The words are no command; or they ask for help or the version, which is no fault.
    #[error("{0}")]
    Words(CliFault),
    #[error("the site file cannot be read")]
    SiteFile,
    /// What the site file spells is refused, or memory ran out while it was read.
    #[error("{0}")]
    Site(SiteFault),
    #[error("{0}")]
    Replay(ReplayFault),
}

impl Fault {
    /// How the program ends by this fault.
    pub fn status(&self) -> Status
        ensures { result ≡ status_of self.now }
    {
        match self {
            Fault::Words(fault) => fault.status(),
            Fault::SiteFile => Status::Failed,
            Fault::Site(SiteFault::OutOfMemory) => Status::OutOfMemory,
            Fault::Site(_) => Status::Refused,
            Fault::Replay(fault) => replay_status(fault),
        }
    }
}

fn replay_status(fault: &ReplayFault) -> Status
    ensures { result ≡ replay_status fault.now }
{
    match fault {
        ReplayFault::Read | ReplayFault::Write => Status::Failed,
        ReplayFault::Script(
            ScriptFault::Line {
                fault: LineFault::OutOfMemory,
                ..
            },
        )
        | ReplayFault::OutOfMemory => Status::OutOfMemory,
        ReplayFault::Script(_) => Status::Refused,
    }
}
