//! What a book has come to, as far as the answers of its fronts were collected.

ghost use Rattle.std.specs.Prelude.{◌≡◌, ◌-◌};
ghost use Rattle.pool_node.specs.Figures.{HasCollected, HasTaken, count_if, ends, figures_after, figures_of, opens};

use crate::served::{ServedCounts, came_to};
use cc_book::{Book, BookRefusal};
use cc_shared::Receipt;
use cc_view::{RequestKind, ResultCode};
use front_pool::Finished;

/// What a book has come to, as far as the answers of its fronts were collected.
#[derive(Clone, Copy, PartialEq, Eq)]
pub struct BookFigures {
    /// Entries of the history.
    pub entries: u64,
    /// Requests that were answered since the book was opened, by what they came to.
    pub served: ServedCounts,
    /// Sessions that were open as the book was opened or were opened since, and those of them that have ended.
    pub opened: u64,
    pub ended: u64,
}

/// Whether a request of this kind that is answered so opens its session.
fn opens(kind: RequestKind, code: ResultCode) -> bool
    ensures { result ≡ opens kind code }
{
    match (kind, code) {
        (RequestKind::Initial, ResultCode::Success) => true,
        _ => false,
    }
}

/// Whether a request of this kind that is answered so ends its session.
fn ends(kind: RequestKind, code: ResultCode) -> bool
    ensures { result ≡ ends kind code }
{
    match (kind, code) {
        (RequestKind::Termination, ResultCode::UnknownSessionId) => false,
        (RequestKind::Termination, _) => true,
        _ => false,
    }
}

/// One more, or none.
fn count_if(one: bool, count: u64) -> u64
    ensures { result ≡ count_if one count }
{
    if one { count.saturating_add(1) } else { count }
}

impl BookFigures {
    /// Of a book as it is opened.
    pub fn of(book: &Book) -> Self
        ensures { result ≡ figures_of book.now }
    {
        BookFigures {
            entries: book.history().len() as u64,
            served: ServedCounts::none(),
            opened: book.open_sessions(),
            ended: 0,
        }
    }

    /// Sessions that are open.
    pub fn sessions(&self) -> u64
        ensures { result ≡ self.now.opened - self.now.ended }
    {
        self.opened.saturating_sub(self.ended)
    }

    /// A job was collected.
    pub fn collected(&mut self, finished: &Finished)
        ensures { HasCollected finished.now.receipt self.old self.new }
    {
        if let Some(receipt) = &finished.receipt {
            self.taken(receipt);
        }
    }

    /// A request was served.
    fn taken(&mut self, receipt: &Receipt)
        ensures { HasTaken receipt.now self.old self.new }
    {
        self.served.count(came_to(receipt));
        if !receipt.fresh {
            return;
        }
        let (kind, code) = (receipt.request.kind, receipt.reply.code);
        self.entries = self.entries.max(receipt.place.saturating_add(1));
        self.opened = count_if(opens(kind, code), self.opened);
        self.ended = count_if(ends(kind, code), self.ended);
    }

    /// A sweep has ended so many sessions, which is an entry where it has ended any.
    pub fn swept(&mut self, swept: &Result<u64, BookRefusal>)
        ensures { self.new ≡ figures_after swept.now self.old }
    {
        if let Ok(ended) = swept {
            if *ended != 0 {
                self.ended = self.ended.saturating_add(*ended);
                self.entries = self.entries.saturating_add(1);
            }
        }
    }
}
