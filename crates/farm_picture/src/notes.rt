//! What stands beside the line of a node in words.

use crate::accounts::{Charge, Purse};
use crate::svg::Class;
use crate::timeline::{Deed, Event, Row};
use cc_book::Account;
use dia_base::NodeNo;
use std::alloc::{AllocError, Global};

/// Words at a node's line, in a row.
#[derive(Drop)]
pub struct Note {
    pub node: NodeNo,
    pub row: usize,
    pub class: Class,
    pub words: String,
}

/// The notes of the rows, in their order, where the book has these accounts in the end.
pub fn notes_of(
    alloc: Global,
    accounts: &[Account],
    rows: &[Row],
) -> Result<Vec<Note>, AllocError> {
    let mut notes = Vec::new(alloc);
    for (place, row) in rows.iter().enumerate() {
        if let Event::At { node, deed } = &row.event {
            notes.push(Note {
                node: *node,
                row: place,
                class: class_of(deed),
                words: words_of(alloc, accounts, deed)?,
            })?;
        }
    }
    Ok(notes)
}

fn class_of(deed: &Deed) -> Class {
    match deed {
        Deed::Restarted | Deed::Crashed => Class::Restart,
        Deed::Picked | Deed::SentToNobody | Deed::Dropped => Class::Note,
        Deed::Charged { .. } => Class::Money,
        Deed::Refused { .. } => Class::Refusal,
    }
}

fn words_of(alloc: Global, accounts: &[Account], deed: &Deed) -> Result<String, AllocError> {
    let words = match deed {
        Deed::Charged { charge, .. } => return charge_words(alloc, accounts, charge),
        Deed::Restarted => "restarts",
        Deed::Crashed => "crashes",
        Deed::Picked => "takes a request",
        Deed::Refused { .. } => "refuses it, by order",
        Deed::SentToNobody => "message lost: connection gone",
        Deed::Dropped => "answer lost: connection gone",
    };
    String::from_str(alloc, words)
}

fn charge_words(
    alloc: Global,
    accounts: &[Account],
    charge: &Charge,
) -> Result<String, AllocError> {
    let words = match charge {
        Charge::Moved {
            account,
            before,
            after,
        } => return move_words(alloc, accounts, *account, *before, *after),
        Charge::Kept => "no account changes",
        Charge::Unchanged => "nothing charged",
        Charge::Repeated => "a repeat: nothing charged",
        Charge::Refused => "refused: nothing charged",
    };
    String::from_str(alloc, words)
}

/// The account's name, and what has changed of its balance and of what is held.
fn move_words(
    alloc: Global,
    accounts: &[Account],
    account: usize,
    before: Purse,
    after: Purse,
) -> Result<String, AllocError> {
    let mut words = account_name(alloc, accounts, account)?;
    words.push(':')?;
    if before.balance != after.balance {
        let old = before.balance;
        let new = after.balance;
        write!(words, " {old} -> {new}")?;
    }
    if before.held != after.held {
        let old = before.held;
        let new = after.held;
        let comma = if before.balance == after.balance {
            ""
        } else {
            ","
        };
        write!(words, "{comma} held {old} -> {new}")?;
    }
    Ok(words)
}

/// The text of the Subscription-Id of the account at this place, with each octet as the character of its
/// number.
pub fn account_name(
    alloc: Global,
    accounts: &[Account],
    account: usize,
) -> Result<String, AllocError> {
    match accounts.get(account) {
        Some(account) => account
            .id
            .as_slice()
            .iter()
            .map(|octet| char::from(*octet))
            .collect(alloc),
        None => Ok(String::new(alloc)),
    }
}
