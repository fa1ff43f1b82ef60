//! Why a key is not looked up, or not put.

use sqlite_trees::error::StoreError;
use std::alloc::AllocError;
use thiserror::Error;

/// Why a key is not looked up, or not put.
#[derive(Clone, Copy, Debug, PartialEq, Eq, Error)]
pub enum KeyError {
    /// An entry has no place.
    #[error("an entry of the keys is damaged")]
    Damaged,
    /// What lies below failed.
    #[error("{0}")]
    Store(StoreError),
}

impl From<StoreError> for KeyError {
    ghost use Rattle.std.specs.Prelude.{◌≡◌};
    ghost use Rattle.book_keys.specs.declared.error.KeyError.TheVariants.{Store};

    ghost from_gives = { λ error e. e ≡ Store error };

    fn from(error: StoreError) -> KeyError {
        KeyError::Store(error)
    }
}

impl From<AllocError> for KeyError {
    ghost use Rattle.std.specs.Prelude.{◌≡◌};
    ghost use Rattle.book_keys.specs.declared.error.KeyError.TheVariants.{Store};
    ghost use Rattle.sqlite_trees.specs.declared.error.StoreError.TheVariants.{OutOfMemory};

    ghost from_gives = { λ _ e. e ≡ Store OutOfMemory };

    fn from(_: AllocError) -> KeyError {
        KeyError::Store(StoreError::OutOfMemory)
    }
}
