//! Why there is no picture.

ghost use Rattle.std.specs.Prelude.{◌≡◌, ◌≢◌};
ghost use Rattle.farm_picture.specs.declared.fault.PictureFault.TheVariants.{OutOfMemory, Write};

use farm_command::Status;
use farm_script::{LineFault, ScriptFault};
use farm_site::SiteFault;
use farm_text::ReadFault;
use std::alloc::AllocError;
use thiserror::Error;

/// Why there is no picture.
#[derive(Clone, Copy, Debug, PartialEq, Eq, Error)]
pub enum PictureFault {
    #[error("the schedule cannot be read")]
    Read,
    #[error("the output cannot be written")]
    Write,
    #[error("{0}")]
    Script(ScriptFault),
    #[error("the site file cannot be read")]
    SiteFile,
    #[error("{0}")]
    Site(SiteFault),
    #[error("out of memory")]
    OutOfMemory,
}

impl PictureFault {
    /// How the program ends by this fault.
    pub fn status(self) -> Status {
        match self {
            PictureFault::Read | PictureFault::Write | PictureFault::SiteFile => Status::Failed,
            PictureFault::Script(
                ScriptFault::Line {
                    fault: LineFault::OutOfMemory,
                    ..
                },
            )
            | PictureFault::Site(SiteFault::OutOfMemory)
            | PictureFault::OutOfMemory => Status::OutOfMemory,
            PictureFault::Script(_) | PictureFault::Site(_) => Status::Refused,
        }
    }
}

impl From<AllocError> for PictureFault {
    ghost from_gives = { λ _ e. e ≡ OutOfMemory };

    fn from(_e: AllocError) -> PictureFault {
        PictureFault::OutOfMemory
    }
}

impl From<ReadFault> for PictureFault {
    ghost from_gives = { λ _ e. e ≢ Write };

    fn from(fault: ReadFault) -> PictureFault {
        match fault {
            ReadFault::Failed => PictureFault::Read,
            ReadFault::OutOfMemory => PictureFault::OutOfMemory,
        }
    }
}
