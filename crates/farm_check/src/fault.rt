//! Why a site file is not accepted.

ghost use Rattle.std.specs.Prelude.{◌≡◌};
ghost use Rattle.farm_check.specs.declared.fault.CheckFault.TheVariants.{OutOfMemory};
ghost use Rattle.farm_check.specs.Checking.{status_of};

use book_place::FileKeyFault;
use farm_access::AccessFault;
use farm_command::Status;
use farm_site::SiteFault;
use farm_terms::AccountsFault;
use std::alloc::{AllocError, AllocFailed};
use thiserror::Error;

/// Why a site file is not accepted, or not looked at.
#[derive(Debug, Drop, Error)]
pub enum CheckFault {
    #[error("the site file cannot be read")]
    SiteFile,
    /// The first fault of the site file, and what is told of it: its own line, its place, and what was expected there.
    #[error("{1}")]
    Site(SiteFault, String),
    /// What the file says of who may come up is refused; and what is told of it, likewise.
    #[error("{1}")]
    Access(AccessFault, String),
    /// What the file says of where the book or the accounts are is refused; and what is told of it, likewise.
    #[error("{1}")]
    File(FileKeyFault, String),
    /// The file of accounts at this path.
    #[error("the file of accounts cannot be read")]
    AccountsFile(String),
    /// The file of accounts is refused; and what is told of it: its own line, and what was expected there.
    #[error("{1}")]
    Accounts(AccountsFault, String),
    #[error("the output cannot be written")]
    Write,
    #[error("out of memory")]
    OutOfMemory,
}

impl CheckFault {
    /// How the program ends by this fault.
    pub fn status(&self) -> Status
        ensures { result ≡ status_of self.now }
    {
        match self {
            CheckFault::SiteFile | CheckFault::AccountsFile(_) | CheckFault::Write =>
                Status::Failed,
            CheckFault::Site(_, _)
            | CheckFault::Access(_, _)
            | CheckFault::File(_, _)
            | CheckFault::Accounts(_, _) => Status::Refused,
            CheckFault::OutOfMemory => Status::OutOfMemory,
        }
    }
}

impl From<AllocError> for CheckFault {
    ghost from_gives = { λ _ e. e ≡ OutOfMemory };

    fn from(_e: AllocError) -> CheckFault {
        CheckFault::OutOfMemory
    }
}

impl<T: Drop> From<AllocFailed<T>> for CheckFault {
    ghost from_gives = { λ _ e. e ≡ OutOfMemory };

    fn from(_e: AllocFailed<T>) -> CheckFault {
        CheckFault::OutOfMemory
    }
}
