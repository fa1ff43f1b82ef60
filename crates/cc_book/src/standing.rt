//! What a history has left: balances, and the sessions that are open.

ghost use Rattle.std.specs.Prelude.{◌≡◌, ℕ, ◌<◌, ◌≤◌, ◌^◌, ◌+◌, ◌-◌, ◌%◌, [], length, map, pos, negsuc, ◌≤ℤ◌, ◌++◌, IfOk, OnOk, OnErr, All, count_by};
ghost use Rattle.std.specs.Option.{ForSome};
ghost use Rattle.cc_book.specs.Changing.{HasAccountRoom};
ghost use Rattle.cc_book.specs.OpenSessions.{FitsIn};
ghost use Rattle.cc_book.specs.Standing.{after_change, after_debit, held_by_all, is_due, openings_of, reserved_in, without_due};

use crate::account::Account;
use crate::lookup::Lookup;
use crate::open_sessions::OpenSessions;
use crate::outcome::Change;
use crate::session::OpenSession;
use dia_avp::Octets;
use dia_base::Moment;
use std::alloc::{AllocError, Global};

/// What a history has left, by maps and totals.
#[derive(Debug)]
pub struct Standing {
    /// The balance of each account.
    pub balances: Vec<i128>,
    /// The sessions that are open, in the order in which they opened.
    pub sessions: OpenSessions,
}

// By hand, so that each exit of an owner is proved with one call.
impl Drop for Standing {
    fn drop(self) {
        let Standing {
            balances: _,
            sessions: _,
        } = self;
    }
}

impl Lookup for Standing {
    ghost balances = { λ standing. standing.balances.items };

    ghost sessions = { λ standing. standing.sessions.items };

    fn open_session(&self, id: &Octets) -> Option<(usize, &OpenSession)> {
        self.sessions.find(id)
    }

    fn balance(&self, account: usize) -> i128 {
        self.balances[account]
    }

    fn held(&self, account: usize) -> u128 {
        self.reserved(account)
    }
}

impl Standing {
    /// What stands before the first request, with room for so many sessions.
    pub fn new(alloc: Global, accounts: &[Account], room: usize) -> Result<Self, AllocError>
        ensures balances { IfOk result (λ standing. standing.balances.items ≡ map (λ account. account.opening) accounts.now) }
        ensures least { IfOk result (λ standing. All (λ balance. negsuc (2 ^ 63) ≤ℤ balance) standing.balances.items) }
        ensures most { IfOk result (λ standing. All (λ balance. balance ≤ℤ pos (2 ^ 63)) standing.balances.items) }
        ensures sessions { IfOk result (λ standing. standing.sessions.items ≡ []) }
        ensures room { IfOk result (λ standing. room ≤ standing.sessions.room) }
        ensures accounts { IfOk result (λ standing. standing.sessions.accounts ≡ length accounts.now) }
    {
        let mut balances = Vec::new(alloc);
        for account in accounts {
            balances.push(account.opening as i128)?;
        }
        Ok(Standing {
            balances,
            sessions: OpenSessions::new(alloc, accounts.len(), room)?,
        })
    }

    /// What the sessions of an account have reserved of it.
    pub fn reserved(&self, account: usize) -> u128
        ensures { result ≡ reserved_in account self.now.sessions.items }
    {
        self.sessions.total(account)
    }

    /// What the sessions have reserved of all accounts together, modulo 2^128.
    pub fn reserved_by_all(&self) -> u128
        ensures { result ≡ held_by_all self.now.sessions.items % 2 ^ 128 }
    {
        self.sessions.held()
    }

    /// How many of the open sessions have ended by a moment.
    pub fn count_due(&self, validity: u32, moment: Moment) -> usize
        ensures { result ≡ count_by (is_due validity moment) self.now.sessions.items }
    {
        self.sessions.count_due(validity, moment)
    }

    /// Ends the sessions that have ended by a moment, with all that they hold.
    pub fn sweep(&mut self, validity: u32, moment: Moment)
        requires { (account : ℕ) → reserved_in account self.old.sessions.items ≤ 2 ^ 124 }
        ensures sessions { self.new.sessions.items ≡ without_due validity moment self.old.sessions.items }
        ensures room { self.old.sessions.room ≤ self.new.sessions.room }
        ensures accounts { self.new.sessions.accounts ≡ self.old.sessions.accounts }
        ensures balances { self.new.balances ≡ self.old.balances }
    {
        self.sessions.sweep(validity, moment);
    }

    /// Makes room for so many accounts to join.
    pub fn reserve_accounts(&mut self, joining: usize) -> Result<(), AllocError>
        ensures balances { self.new.balances.items ≡ self.old.balances.items }
        ensures accounts { self.new.sessions.accounts ≡ self.old.sessions.accounts }
        ensures sessions { self.new.sessions.items ≡ self.old.sessions.items }
        ensures room { self.new.sessions.room ≡ self.old.sessions.room }
        ensures ok { OnOk result (HasAccountRoom self.new joining) }
    {
        self.balances.reserve(joining)?;
        self.sessions.reserve_accounts(joining)
    }

    /// Accounts join, with their opening amounts. There is room for them.
    pub fn join(&mut self, joining: &[Account])
        requires { HasAccountRoom self.old (length joining.now) }
        ensures balances { self.new.balances.items ≡ self.old.balances.items ++ openings_of joining.now }
        ensures least { All (λ opening. negsuc (2 ^ 63) ≤ℤ opening) (openings_of joining.now) }
        ensures most { All (λ opening. opening ≤ℤ pos (2 ^ 63)) (openings_of joining.now) }
        ensures accounts { self.new.sessions.accounts ≡ self.old.sessions.accounts + length joining.now }
        ensures sessions { self.new.sessions.items ≡ self.old.sessions.items }
        ensures room { self.new.sessions.room ≡ self.old.sessions.room }
    {
        self.sessions.join(joining.len());
        for account in joining {
            self.balances.push_reserved(account.opening as i128);
        }
    }

    /// Debits an account.
    pub fn debit(&mut self, account: Option<usize>, debit: i128)
        requires within { ForSome account (λ place. place < length self.old.balances.items) }
        requires least { All (λ balance. negsuc (2 ^ 124) ≤ℤ balance) self.old.balances.items }
        requires most { All (λ balance. balance ≤ℤ pos (2 ^ 124)) self.old.balances.items }
        requires debit_least { negsuc (2 ^ 103 - 1) ≤ℤ debit }
        requires debit_most { debit ≤ℤ pos (2 ^ 103) }
        ensures balances { self.new.balances.items ≡ after_debit self.old.balances.items account debit }
        ensures sessions { self.new.sessions ≡ self.old.sessions }
    {
        if let Some(account) = account {
            self.balances[account] -= debit;
        }
    }

    /// Changes the session of a request, whose Session-Id this is. There is room for one that opens.
    pub fn change(&mut self, id: Octets, change: Change)
        requires room { 0 < self.old.sessions.room }
        requires fits { FitsIn self.old.sessions id change }
        requires held { (account : ℕ) → reserved_in account self.old.sessions.items ≤ 2 ^ 124 }
        ensures sessions { self.new.sessions.items ≡ after_change self.old.sessions.items change }
        ensures room { self.old.sessions.room ≤ self.new.sessions.room + 1 }
        ensures accounts { self.new.sessions.accounts ≡ self.old.sessions.accounts }
        ensures balances { self.new.balances ≡ self.old.balances }
    {
        match change {
            Change::Stays => {}
            Change::Opens { session } => self.sessions.add(id, session),
            Change::GoesOn { place, session } => self.sessions.go_on(place, session),
            Change::Ends { place } => self.sessions.end(place),
        }
    }
}
