//! Why a text does not say who may come up.

ghost use Rattle.std.specs.Prelude.{◌≡◌};
ghost use Rattle.farm_access.specs.declared.fault.AccessFault.TheVariants.{OutOfMemory};

use std::alloc::{AllocError, AllocFailed};
use thiserror::Error;

/// Why a text does not say who may come up.
#[derive(Clone, Copy, Debug, PartialEq, Eq, Error)]
pub enum AccessFault {
    /// The text is no TOML document.
    #[error("site: NotToml")]
    NotToml,
    /// What stands at `node` is no array of tables.
    #[error("site: WrongType node")]
    NoTables,
    /// More than 64 entries stand at `node`.
    #[error("site: TooMany node")]
    TooManyNodes,
    /// What stands at `from` is no array of texts.
    #[error("site: WrongType from")]
    NoTexts,
    /// A text at `from` writes no address and no prefix.
    #[error("site: OutOfRange from")]
    NoPrefix,
    /// More than 64 values stand at `from`.
    #[error("site: TooMany from")]
    TooManyPrefixes,
    /// What stands at `strict` is no array of texts.
    #[error("site: WrongType strict")]
    NoWords,
    /// A text at `strict` is no word of [`Strict`](crate::Strict).
    #[error("site: UnknownName strict")]
    UnknownWord,
    /// A word stands twice at `strict`.
    #[error("site: Twice strict")]
    WordTwice,
    #[error("out of memory")]
    OutOfMemory,
}

impl From<AllocError> for AccessFault {
    ghost from_gives = { λ _ e. e ≡ OutOfMemory };

    fn from(_e: AllocError) -> AccessFault {
        AccessFault::OutOfMemory
    }
}

impl<T: Drop> From<AllocFailed<T>> for AccessFault {
    ghost from_gives = { λ _ e. e ≡ OutOfMemory };

    fn from(_e: AllocFailed<T>) -> AccessFault {
        AccessFault::OutOfMemory
    }
}
