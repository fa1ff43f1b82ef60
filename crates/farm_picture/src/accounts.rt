//! What a charge did to the accounts.

use cc_book::Book;
use std::alloc::{AllocError, Global};

/// What an account has and what sessions hold of it, in whole minor units.
#[derive(Clone, Copy)]
pub struct Purse {
    pub balance: i128,
    pub held: i128,
}

/// The book at one moment.
#[derive(Drop)]
pub struct Accounts {
    /// How many entries it has.
    pub entries: usize,
    /// One for each account, in their order.
    pub purses: Vec<Purse>,
}

/// What a charge did.
#[derive(Clone, Copy)]
pub enum Charge {
    /// It changed the account at this place.
    Moved {
        account: usize,
        before: Purse,
        after: Purse,
    },
    /// The book keeps the request, and no account has changed.
    Kept,
    /// The book is as it was, and its answer is not known yet.
    Unchanged,
    /// The request was charged before: its reply is given again.
    Repeated,
    /// The request is refused.
    Refused,
}

/// The accounts of a book as they are now.
pub fn accounts_of(alloc: Global, book: &Book) -> Result<Accounts, AllocError> {
    let mut purses = Vec::new(alloc);
    for place in 0..book.accounts().len() {
        let balance = book.balance(place).unwrap_or(0);
        let held = book.reserved(place).unwrap_or(0);
        purses.push(Purse { balance, held })?;
    }
    Ok(Accounts {
        entries: book.history().len(),
        purses,
    })
}

/// What a charge did between these two moments. It changes one account at most: that of the request.
pub fn charge_between(before: &Accounts, after: &Accounts) -> Charge {
    for (account, (old, new)) in before.purses.iter().zip(after.purses.iter()).enumerate() {
        if old.balance != new.balance || old.held != new.held {
            return Charge::Moved {
                account,
                before: *old,
                after: *new,
            };
        }
    }
    if before.entries == after.entries {
        Charge::Unchanged
    } else {
        Charge::Kept
    }
}
