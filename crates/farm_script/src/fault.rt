//! Why a text is no schedule.

ghost use Rattle.std.specs.Prelude.{◌≡◌};
ghost use Rattle.farm_script.specs.declared.fault.LineFault.TheVariants.{OutOfMemory};

use std::alloc::{AllocError, AllocFailed};
use thiserror::Error;

/// What is wrong with a line. The first that applies is the line's fault.
#[derive(Clone, Copy, Debug, PartialEq, Eq, Error)]
pub enum LineFault {
    #[error("unknown word")]
    UnknownWord,
    #[error("wrong count")]
    WrongCount,
    #[error("unknown name")]
    UnknownName,
    #[error("bad number")]
    BadNumber,
    #[error("bad hex")]
    BadHex,
    #[error("bad message")]
    BadMessage,
    #[error("too many steps")]
    TooManySteps,
    #[error("out of memory")]
    OutOfMemory,
}

/// Why a text is no schedule. Lines count from 1.
#[derive(Clone, Copy, Debug, PartialEq, Eq, Error)]
pub enum ScriptFault {
    #[error("schedule: line {line}: {fault}")]
    Line { line: u64, fault: LineFault },
    #[error("schedule: too long")]
    TooLong,
}

impl From<AllocError> for LineFault {
    ghost from_gives = { λ _ e. e ≡ OutOfMemory };

    fn from(_e: AllocError) -> LineFault {
        LineFault::OutOfMemory
    }
}

impl<T: Drop> From<AllocFailed<T>> for LineFault {
    ghost from_gives = { λ _ e. e ≡ OutOfMemory };

    fn from(_e: AllocFailed<T>) -> LineFault {
        LineFault::OutOfMemory
    }
}
