//! What a history consists of.

use cc_book::Entry;

/// A record of the one history of a shared book: what has happened to it since it is shared. It stands in clauses alone, and no
/// value of it is made.
pub enum Logged {
    /// The book has appended this entry.
    Entered { entry: Entry },
    /// The book was closed.
    Closed,
}
