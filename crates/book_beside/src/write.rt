//! Writes beside the rows of a book.

ghost use Rattle.std.specs.Prelude.{◌≡◌};
ghost use Rattle.book_beside.specs.Beside.{tree_of};

/// The number of the table of accounts. The rowid is the place of the account in the terms of the book.
pub const ACCOUNTS: u32 = 2;

/// The number of the table of open sessions. The rowid is the place of the session among those that are open.
pub const SESSIONS: u32 = 3;

/// A table beside the rows.
#[derive(Clone, Copy, Debug, PartialEq, Eq)]
pub enum Side {
    Accounts,
    Sessions,
}

impl Side {
    /// The number of the table.
    pub fn tree(self) -> u32
        ensures { result ≡ tree_of self }
    {
        match self {
            Side::Accounts => ACCOUNTS,
            Side::Sessions => SESSIONS,
        }
    }
}

/// What changes beside the rows.
#[derive(Drop)]
pub enum Write {
    /// The account at this place stands so.
    Account { place: u64, octets: Vec<u8> },
    /// No account has this place.
    NoAccount { place: u64 },
    /// The open session at this place stands so.
    Session { place: u64, octets: Vec<u8> },
    /// No open session has this place any more.
    NoSession { place: u64 },
}
