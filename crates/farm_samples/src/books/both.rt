//! Both books, side by side.

use crate::books::site::{OPENINGS, VALIDITY, tariffs};
use cc_book::{Answered, Book, BookRefusal};
use cc_list::ListBook;
use cc_view::{CcReply, CcRequest};
use dia_base::Moment;
use samples_given::{MONEY, accounts};
use std::alloc::Global;

/// A book by maps and a book by lists, with one site, and how often they did not agree.
#[derive(Drop)]
pub struct Both {
    maps: Book,
    lists: ListBook,
    pub differences: u64,
}

impl Both {
    /// Both without an entry, for so many.
    pub fn new(alloc: Global, limit: u16) -> anyhow::Result<Both> {
        Ok(Both {
            maps: by_maps(alloc, limit)?,
            lists: by_lists(alloc, limit)?,
            differences: 0,
        })
    }

    /// Both take the request, after they were asked what they would answer. Whether it was a repeat.
    pub fn take(&mut self, alloc: Global, moment: Moment, request: &CcRequest) -> bool {
        let quoted = self.are_quotes_alike(alloc, moment, request);
        self.count(quoted);
        let taken = self.maps.take(alloc, moment, request);
        let other = self.lists.take(alloc, moment, request);
        self.count(same_answer(&taken, &other));
        self.compare();
        is_repeat(&taken)
    }

    fn are_quotes_alike(&self, alloc: Global, moment: Moment, request: &CcRequest) -> bool {
        let quoted = self.maps.quote(alloc, moment, request);
        let other = self.lists.quote(alloc, moment, request);
        same_answer(&quoted, &other)
    }

    /// Both look at the clock.
    pub fn sweep(&mut self, moment: Moment) {
        let ended = self.maps.sweep(moment);
        let other = self.lists.sweep(moment);
        self.count(ended == other);
        self.compare();
    }

    /// Compares all that is told of the books.
    fn compare(&mut self) {
        let mut same = self.maps.open_sessions() == self.lists.open_sessions()
            && self.maps.history().len() == self.lists.history().len();
        for account in 0..OPENINGS.len() {
            same = same
                && self.maps.balance(account) == self.lists.balance(account)
                && self.maps.reserved(account) == self.lists.reserved(account);
        }
        self.count(same);
    }

    fn count(&mut self, same: bool) {
        if !same {
            self.differences = self.differences.saturating_add(1);
        }
    }
}

fn by_maps(alloc: Global, limit: u16) -> anyhow::Result<Book> {
    let tariffs = tariffs(alloc)?;
    let accounts = accounts(alloc, &OPENINGS)?;
    Ok(Book::new(alloc, accounts, tariffs, VALIDITY, MONEY, limit as u64)?)
}

fn by_lists(alloc: Global, limit: u16) -> anyhow::Result<ListBook> {
    let tariffs = tariffs(alloc)?;
    let accounts = accounts(alloc, &OPENINGS)?;
    Ok(ListBook::new(alloc, accounts, tariffs, VALIDITY, MONEY, limit as u64)?)
}

fn is_repeat(taken: &Result<Answered, BookRefusal>) -> bool {
    match taken {
        Ok(answered) => !answered.fresh,
        Err(_) => false,
    }
}

fn same_answer(one: &Result<Answered, BookRefusal>, other: &Result<Answered, BookRefusal>) -> bool {
    match (one, other) {
        (Ok(one), Ok(other)) => {
            one.place == other.place
                && one.fresh == other.fresh
                && same_reply(&one.reply, &other.reply)
        }
        (Err(one), Err(other)) => one == other,
        (Ok(_), Err(_)) | (Err(_), Ok(_)) => false,
    }
}

fn same_reply(one: &CcReply, other: &CcReply) -> bool {
    one.code == other.code
        && one.cost == other.cost
        && one.check == other.check
        && one.services.as_slice() == other.services.as_slice()
}
