//! Why the program does not do what it is asked to do.

use book_clock::ClockBehind;
use book_ending::status_of_book;
use book_opening::BookFault;
use book_place::FileKeyFault;
use farm_access::AccessFault;
use farm_client::LinesFault;
use farm_command::{CliFault, Status};
use farm_endpoints::EndpointFault;
use farm_event_loop::LoopFault;
use farm_site::SiteFault;
use farm_terms::{AccountsFault, SiteChangeFault, SiteTermsFault};
use pool_node::StartFault;
use std::alloc::{AllocError, AllocFailed};
use std::io;
use thiserror::Error;

/// Why the program does not do what it is asked to do.
#[derive(Debug, Drop, Error)]
pub enum Fault {
    /// The words are no command; or they ask for help or the version, which is no fault.
    #[error("{0}")]
    Words(CliFault),
    #[error("the site file cannot be read")]
    SiteFile,
    /// What the site file spells is refused, or memory ran out while it was read.
    #[error("{0}")]
    Site(SiteFault),
    /// What it says of who may connect from where is refused, or memory ran out.
    #[error("{0}")]
    Access(AccessFault),
    /// What it says of where the book or the accounts are is refused, or memory ran out.
    #[error("{0}")]
    FileKey(FileKeyFault),
    /// The file of accounts is not read, or refused.
    #[error("{0}")]
    Terms(SiteTermsFault),
    /// The site has no such node, or one without an address.
    #[error("{0}")]
    Endpoint(EndpointFault),
    #[error("the messages cannot be read")]
    Read,
    #[error("{0}")]
    Lines(LinesFault),
    #[error("the output cannot be written")]
    Write,
    #[error("{0}")]
    Loop(LoopFault),
    /// The workers of the fronts are not started.
    #[error("{0}")]
    Start(StartFault),
    /// Where the status port is to be is no address, or the port cannot be had.
    #[error("the status port is to be PORT or ADDRESS:PORT")]
    StatusAddress,
    #[error("the status port cannot be opened: {0}")]
    Status(io::Error),
    /// A token is named, and no status port, by which it would end the process.
    #[error("error: --token FILE goes with --status ADDRESS")]
    TokenAlone,
    #[error("the token's file can be neither read nor made")]
    TokenFile,
    #[error("the token's file is not its owner's alone: chmod 600 makes it so")]
    TokenSeen,
    #[error("the token's file has no token: 16 to 256 letters, digits or signs on one line")]
    NoToken,
    #[error("the record cannot be opened: {0}")]
    Record(io::Error),
    /// What stands there is left as it is.
    #[error("the record cannot be written: its file does not begin as a record")]
    NoRecord,
    /// The book in the file is not opened. The file is as it was.
    #[error("the book cannot be opened: {0}")]
    Book(BookFault),
    /// The system's clock stands far behind the book. The book is as it was.
    #[error("the book is not served on: {0}")]
    Clock(ClockBehind),
    /// The disk of the book has failed, or has no room: whether what was charged last stands is not known.
    #[error("the book cannot be stored: whether what was charged last stands is not known")]
    BookNotStored,
    /// The connection of a client has ended before each request was answered.
    #[error("the connection has ended")]
    Ended,
    #[error("out of memory")]
    OutOfMemory,
}

impl From<LoopFault> for Fault {
    fn from(fault: LoopFault) -> Fault {
        Fault::Loop(fault)
    }
}

impl From<io::Error> for Fault {
    fn from(error: io::Error) -> Fault {
        Fault::Loop(error.into())
    }
}

impl From<SiteTermsFault> for Fault {
    fn from(fault: SiteTermsFault) -> Fault {
        Fault::Terms(fault)
    }
}

impl From<SiteChangeFault> for Fault {
    fn from(fault: SiteChangeFault) -> Fault {
        match fault {
            SiteChangeFault::Terms(fault) => Fault::Terms(fault),
            SiteChangeFault::Stays(key) => Fault::Book(BookFault::OtherTerms(key)),
        }
    }
}

impl From<BookFault> for Fault {
    fn from(fault: BookFault) -> Fault {
        Fault::Book(fault)
    }
}

impl From<StartFault> for Fault {
    fn from(fault: StartFault) -> Fault {
        Fault::Start(fault)
    }
}

impl From<AllocError> for Fault {
    fn from(_e: AllocError) -> Fault {
        Fault::OutOfMemory
    }
}

impl<T: Drop> From<AllocFailed<T>> for Fault {
    fn from(_e: AllocFailed<T>) -> Fault {
        Fault::OutOfMemory
    }
}

impl Fault {
    /// How the program ends by this fault.
    pub fn status(&self) -> Status {
        match self {
            Fault::Words(fault) => fault.status(),
            Fault::StatusAddress | Fault::TokenAlone => Status::Misused,
            Fault::Site(SiteFault::OutOfMemory)
            | Fault::Access(AccessFault::OutOfMemory)
            | Fault::FileKey(FileKeyFault::OutOfMemory)
            | Fault::Terms(
                SiteTermsFault::OutOfMemory | SiteTermsFault::Accounts(AccountsFault::OutOfMemory),
            )
            | Fault::Endpoint(EndpointFault::OutOfMemory)
            | Fault::Lines(LinesFault::OutOfMemory)
            | Fault::Loop(LoopFault::OutOfMemory)
            | Fault::Start(StartFault::OutOfMemory)
            | Fault::OutOfMemory => Status::OutOfMemory,
            Fault::Book(fault) => status_of_book(*fault),
            Fault::Site(_)
            | Fault::Access(_)
            | Fault::FileKey(_)
            | Fault::Terms(SiteTermsFault::Accounts(_))
            | Fault::Clock(_)
            | Fault::Endpoint(EndpointFault::NoAddress | EndpointFault::UnknownName { .. })
            | Fault::Lines(LinesFault::NoMessage { .. })
            | Fault::NoToken
            | Fault::TokenSeen
            | Fault::NoRecord => Status::Refused,
            Fault::SiteFile
            | Fault::Terms(SiteTermsFault::NotRead)
            | Fault::Read
            | Fault::Write
            | Fault::Loop(LoopFault::Sockets(_) | LoopFault::Listening { .. })
            | Fault::Start(StartFault::NoWorker | StartFault::UnknownNode { .. })
            | Fault::Status(_)
            | Fault::TokenFile
            | Fault::Record(_)
            | Fault::BookNotStored
            | Fault::Ended => Status::Failed,
        }
    }
}
