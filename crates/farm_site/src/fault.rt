//! Why a text is no site.

ghost use Rattle.std.specs.Prelude.{◌≡◌};
ghost use Rattle.farm_site.specs.declared.fault.SiteFault.TheVariants.{OutOfMemory};

use crate::key::Key;
use std::alloc::{AllocError, AllocFailed};
use thiserror::Error;

/// Why a text is no site, with the key at fault. Of one key the first that applies is told, in this order.
#[derive(Clone, Copy, Debug, PartialEq, Eq, Error)]
pub enum SiteFault {
    /// The text is no TOML document, or has more octets than a site file may have.
    #[error("site: NotToml")]
    NotToml,
    /// A key that must be there is not.
    #[error("site: Missing {key}")]
    Missing { key: Key },
    /// A value of another type than the key's.
    #[error("site: WrongType {key}")]
    WrongType { key: Key },
    /// A value of the key's type that it may not have.
    #[error("site: OutOfRange {key}")]
    OutOfRange { key: Key },
    /// What may stand once stands twice.
    #[error("site: Twice {key}")]
    Twice { key: Key },
    /// A name of no node, or of a node that may not stand there.
    #[error("site: UnknownName {key}")]
    UnknownName { key: Key },
    /// A text that is no DiameterIdentity (RFC 6733, section 4.3.1).
    #[error("site: BadIdentity {key}")]
    BadIdentity { key: Key },
    /// More entries of a table, or more elements of an array, than there may be.
    #[error("site: TooMany {key}")]
    TooMany { key: Key },
    /// A link that may not be there.
    #[error("site: BadLink")]
    BadLink,
    #[error("out of memory")]
    OutOfMemory,
}

impl From<AllocError> for SiteFault {
    ghost from_gives = { λ _ e. e ≡ OutOfMemory };

    fn from(_e: AllocError) -> SiteFault {
        SiteFault::OutOfMemory
    }
}

impl<T: Drop> From<AllocFailed<T>> for SiteFault {
    ghost from_gives = { λ _ e. e ≡ OutOfMemory };

    fn from(_e: AllocFailed<T>) -> SiteFault {
        SiteFault::OutOfMemory
    }
}
