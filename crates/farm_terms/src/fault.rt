//! Why a text spells no change of the terms, or no accounts.

ghost use Rattle.std.specs.Prelude.{◌≡◌};
ghost use Rattle.farm_terms.specs.declared.fault.AccountsFault.TheVariants.{OutOfMemory};

use farm_script::LineFault;
use std::alloc::AllocError;
use thiserror::Error;

/// Why a text spells no change of the terms.
#[derive(Clone, Copy, Debug, PartialEq, Eq, Error)]
pub enum TextFault {
    /// The fault stands on this line, counted from 1.
    #[error("line {line}: {fault}")]
    Line { line: u64, fault: LineFault },
    #[error("it has more than 4,096 lines, or 16 MiB")]
    TooLong,
    /// No line feed stands behind the last line.
    #[error("the last line does not end: the text is cut off")]
    CutOff,
    #[error("it is no change of the terms")]
    NoChange,
    #[error("out of memory")]
    OutOfMemory,
}

impl From<AllocError> for TextFault {
    fn from(_e: AllocError) -> TextFault {
        TextFault::OutOfMemory
    }
}

/// Why a text spells no accounts beside those of a site. Lines count from 1.
#[derive(Clone, Copy, Debug, PartialEq, Eq, Error)]
pub enum AccountsFault {
    /// The line spells no account.
    #[error("accounts: line {line}: {fault}")]
    Line { line: u64, fault: LineFault },
    /// The line's account stands in the site's own table, or on a line before.
    #[error("accounts: line {line}: this account stands there already")]
    Twice { line: u64 },
    /// No line feed stands behind the last line.
    #[error("accounts: the last line does not end: the file is cut off")]
    CutOff,
    #[error("accounts: more than 1,000,000 accounts")]
    TooMany,
    #[error("out of memory")]
    OutOfMemory,
}

impl From<AllocError> for AccountsFault {
    ghost from_gives = { λ _ e. e ≡ OutOfMemory };

    fn from(_e: AllocError) -> AccountsFault {
        AccountsFault::OutOfMemory
    }
}
