//! Why a front does not do what it is told.

ghost use Rattle.std.specs.Prelude.{◌≡◌};
ghost use Rattle.front_core.specs.declared.error.FrontError.TheVariants.{OutOfMemory};

use dia_base::ConnId;
use std::alloc::{AllocError, AllocFailed};
use thiserror::Error;

/// A call that a front refused. The front and the book are as they were.
#[derive(Clone, Copy, Debug, PartialEq, Eq, Error)]
pub enum FrontError {
    #[error("out of memory")]
    OutOfMemory,
    #[error("the connection is not up")]
    UnknownConn { conn: ConnId },
}

impl From<AllocError> for FrontError {
    ghost from_gives = { λ _ e. e ≡ OutOfMemory };

    fn from(_e: AllocError) -> FrontError {
        FrontError::OutOfMemory
    }
}

impl<T: Drop> From<AllocFailed<T>> for FrontError {
    ghost from_gives = { λ _ e. e ≡ OutOfMemory };

    fn from(_e: AllocFailed<T>) -> FrontError {
        FrontError::OutOfMemory
    }
}
