//! How the program ends.

ghost use Rattle.std.specs.Prelude.{◌≡◌};

use crate::fault::Fault;
use farm_command::Status;

/// How the program ends, and what it tells last, if there is something: on the stream of the status.
#[derive(Drop)]
pub struct Ending {
    pub status: Status,
    pub told: Option<Fault>,
}

impl Ending {
    ghost use Rattle.farm_cli.specs.Ending.{ending_of};

    /// Done without a word, or ended by a fault, which is told.
    pub fn of(done: Result<(), Fault>) -> Self
        ensures { result ≡ ending_of done }
    {
        match done {
            Ok(()) => Ending {
                status: Status::Done,
                told: None,
            },
            Err(fault) => Ending {
                status: fault.status(),
                told: Some(fault),
            },
        }
    }
}
