//! What a shared book shows, and gives back, with what was seen of its history.

use crate::history::SeenHistory;
use cc_book::Book;
use cc_view::{RequestKind, ResultCode};
use dia_avp::Octets;
use dia_base::Moment;

/// A sweep of a shared book.
#[derive(Drop)]
pub struct Swept {
    /// How many sessions it has ended.
    pub ended: u64,
    /// What was seen of the history behind it.
    pub seen: SeenHistory,
}

/// A change of the terms of a shared book.
#[derive(Drop)]
pub struct TermsChanged {
    /// The place of its entry in the history, from 0.
    pub place: u64,
    /// What was seen of the history behind it.
    pub seen: SeenHistory,
}

/// All accounts of a shared book at one moment of its history.
#[derive(Drop)]
pub struct Snapshot {
    /// Balance and reserved amount of each account, in their order. None of a book that is closed.
    pub standings: Vec<(i128, i128)>,
    /// What was seen of the history then.
    pub seen: SeenHistory,
}

/// What stands on an account: amounts in minor units.
#[derive(Clone, Copy, Debug)]
pub struct Standing {
    pub balance: i128,
    /// What its sessions have reserved.
    pub reserved: i128,
    /// How many sessions are open that charge it.
    pub sessions: usize,
    /// Whether the account is closed.
    pub closed: bool,
}

/// What a look at one account of a shared book has found.
#[derive(Clone, Copy)]
pub enum Found {
    Account(Standing),
    /// No account has the Subscription-Id.
    NoAccount,
    /// The book is closed.
    Closed,
}

/// A request that charged an account, as it stands in the history.
#[derive(Drop)]
pub struct AccountCharge {
    /// Its place in the history, from 0.
    pub place: u64,
    pub moment: Moment,
    /// Its Session-Id.
    pub session: Octets,
    /// Its CC-Request-Number.
    pub number: u32,
    /// Its CC-Request-Type.
    pub kind: RequestKind,
    /// What it debited, in minor units: below zero for a refund.
    pub debit: i128,
    /// The Result-Code of its answer.
    pub code: ResultCode,
}

/// One account of a shared book at one moment of its history.
#[derive(Drop)]
pub struct AccountLook {
    pub found: Found,
    /// The requests that charged it last, the latest first, ten at most ([`SHOWN_CHARGES`](crate::SHOWN_CHARGES)).
    pub last: Vec<AccountCharge>,
    /// What was seen of the history then.
    pub seen: SeenHistory,
}

/// A book that was closed, with all of its history.
#[derive(Drop)]
pub struct ClosedBook {
    pub book: Book,
    pub seen: SeenHistory,
}
