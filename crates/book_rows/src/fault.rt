//! Why octets are no row.

use std::alloc::{AllocError, AllocFailed};

/// What is wrong with octets that are no row, or do not tell what a book is, where it stands, or its terms: the first fault
/// from left to right.
#[derive(Clone, Copy, Debug, PartialEq, Eq)]
pub enum Fault {
    /// A part passes the end.
    Short,
    /// A flag is neither 0 nor 1.
    BadFlag,
    /// The kind of the entry, or of a tariff's units, is none that this release knows.
    UnknownKind,
    /// A number is too large for its part.
    OutOfRange,
    /// A CC-Request-Type is none of RFC 8506, section 8.3.
    UnknownRequestType,
    /// A Requested-Action is none of RFC 8506, section 8.41.
    UnknownAction,
    /// A Result-Code is none that a reply has.
    UnknownResultCode,
    /// The services pass a limit of a request.
    PastLimits,
    /// A tariff is out of its ranges, or two rate the same services.
    BadTariffs,
    /// Octets stand behind the row.
    LeftOver,
    /// What a book is stands in another format than this release writes.
    OtherFormat,
}

/// Why no row was read.
#[derive(Drop)]
pub enum ReadError {
    OutOfMemory,
    /// The octets spell no row.
    NoRow(Fault),
}

impl From<AllocError> for ReadError {
    ghost use Rattle.std.specs.Prelude.{◌≡◌};
    ghost use Rattle.book_rows.specs.declared.fault.ReadError.TheVariants.{OutOfMemory};

    ghost from_gives = { λ _ e. e ≡ OutOfMemory };

    fn from(_: AllocError) -> ReadError {
        ReadError::OutOfMemory
    }
}

impl<T: Drop> From<AllocFailed<T>> for ReadError {
    ghost use Rattle.std.specs.Prelude.{◌≡◌};
    ghost use Rattle.book_rows.specs.declared.fault.ReadError.TheVariants.{OutOfMemory};

    ghost from_gives = { λ _ e. e ≡ OutOfMemory };

    fn from(_: AllocFailed<T>) -> ReadError {
        ReadError::OutOfMemory
    }
}

impl From<Fault> for ReadError {
    ghost use Rattle.std.specs.Prelude.{◌≡◌};
    ghost use Rattle.book_rows.specs.declared.fault.ReadError.TheVariants.{NoRow};

    ghost from_gives = { λ fault e. e ≡ NoRow fault };

    fn from(fault: Fault) -> ReadError {
        ReadError::NoRow(fault)
    }
}
