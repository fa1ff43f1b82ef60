//! What a history has left, in two lists.

ghost use Rattle.std.specs.Prelude.{◌≡◌, ℕ, ◌-◌, ◌<◌, ◌≤◌, ◌^◌, [], length, map, pos, negsuc, ◌≤ℤ◌, ◌++◌, IfOk, IfSome, OnErr, OnOk, vec_capacity, vec_len, All, count_by};
ghost use Rattle.std.specs.Option.{ForSome};
ghost use Rattle.cc_book.specs.Standing.{after_change, after_debit, is_due, openings_of, place_in, reserved_in, without_due, IsPlacedIn};

use cc_book::{Account, Change, Lookup, OpenSession, held_in};
use dia_avp::Octets;
use dia_base::Moment;
use std::alloc::{AllocError, Global};

/// What a history has left.
#[derive(Drop)]
pub struct Lists {
    /// The balance of each account.
    pub balances: Vec<i128>,
    /// The sessions that are open.
    pub sessions: Vec<OpenSession>,
}

impl Lookup for Lists {
    ghost balances = { λ lists. lists.balances.items };

    ghost sessions = { λ lists. lists.sessions.items };

    fn open_session(&self, id: &Octets) -> Option<(usize, &OpenSession)> {
        let place = self.place_of(id)?;
        Some((place, &self.sessions[place]))
    }

    fn balance(&self, account: usize) -> i128 {
        self.balances[account]
    }

    fn held(&self, account: usize) -> u128 {
        self.reserved(account)
    }
}

impl Lists {
    /// What stands before the first request, with room for so many sessions.
    pub fn new(alloc: Global, accounts: &[Account], room: usize) -> Result<Self, AllocError>
        ensures balances { IfOk result (λ lists. lists.balances.items ≡ map (λ account. account.opening) accounts.now) }
        ensures least { IfOk result (λ lists. All (λ balance. negsuc (2 ^ 63) ≤ℤ balance) lists.balances.items) }
        ensures most { IfOk result (λ lists. All (λ balance. balance ≤ℤ pos (2 ^ 63)) lists.balances.items) }
        ensures sessions { IfOk result (λ lists. lists.sessions.items ≡ []) }
        ensures room { IfOk result (λ lists. vec_capacity lists.sessions ≡ room) }
    {
        let mut balances = Vec::new(alloc);
        for account in accounts {
            balances.push(account.opening as i128)?;
        }
        Ok(Lists {
            balances,
            sessions: Vec::with_capacity(alloc, room)?,
        })
    }

    /// Accounts join, with their opening amounts. An error leaves all as it is.
    pub fn join(&mut self, joining: &[Account]) -> Result<(), AllocError>
        ensures balances { OnOk result (self.new.balances.items ≡ self.old.balances.items ++ openings_of joining.now) }
        ensures least { OnOk result (All (λ opening. negsuc (2 ^ 63) ≤ℤ opening) (openings_of joining.now)) }
        ensures most { OnOk result (All (λ opening. opening ≤ℤ pos (2 ^ 63)) (openings_of joining.now)) }
        ensures sessions { self.new.sessions ≡ self.old.sessions }
        ensures err_balances { OnErr result (self.new.balances.items ≡ self.old.balances.items) }
    {
        self.balances.reserve(joining.len())?;
        for account in joining {
            self.balances.push_reserved(account.opening as i128);
        }
        Ok(())
    }

    fn place_of(&self, id: &Octets) -> Option<usize>
        ensures value { result ≡ place_in self.now.sessions.items id.now }
        ensures within { IfSome result (λ place. place < length self.now.sessions.items) }
    {
        self.sessions.iter().position(|session| session.id == *id)
    }

    /// What the sessions of an account have reserved of it.
    pub fn reserved(&self, account: usize) -> u128
        requires { (other : ℕ) → reserved_in other self.now.sessions.items ≤ 2 ^ 124 }
        ensures { result ≡ reserved_in account self.now.sessions.items }
    {
        let mut reserved = 0;
        for session in &self.sessions {
            if session.account == account {
                reserved += held_in(session.holds.as_slice());
            }
        }
        reserved
    }

    /// How many of the open sessions have ended by a moment.
    pub fn count_due(&self, validity: u32, moment: Moment) -> usize
        ensures { result ≡ count_by (is_due validity moment) self.now.sessions.items }
    {
        self.sessions
            .iter()
            .filter(|session| session.is_due(validity, moment))
            .count()
    }

    /// Ends the sessions that have ended by a moment, with all that they hold.
    pub fn sweep(&mut self, validity: u32, moment: Moment)
        ensures sessions { self.new.sessions.items ≡ without_due validity moment self.old.sessions.items }
        ensures room { vec_capacity self.new.sessions ≡ vec_capacity self.old.sessions }
        ensures balances { self.new.balances ≡ self.old.balances }
    {
        for place in (0..self.sessions.len()).rev() {
            if self.sessions[place].is_due(validity, moment) {
                let _swept = self.sessions.swap_remove(place);
            }
        }
    }

    /// Debits an account.
    pub fn debit(&mut self, account: Option<usize>, debit: i128)
        requires within { ForSome account (λ place. place < length self.old.balances.items) }
        requires least { All (λ balance. negsuc (2 ^ 124) ≤ℤ balance) self.old.balances.items }
        requires most { All (λ balance. balance ≤ℤ pos (2 ^ 124)) self.old.balances.items }
        requires debit_least { negsuc (2 ^ 103 - 1) ≤ℤ debit }
        requires debit_most { debit ≤ℤ pos (2 ^ 103) }
        ensures balances { self.new.balances.items ≡ after_debit self.old.balances.items account debit }
        ensures sessions { self.new.sessions ≡ self.old.sessions }
    {
        if let Some(account) = account {
            self.balances[account] -= debit;
        }
    }

    /// Changes the session of a request. There is room for one that opens.
    pub fn change(&mut self, change: Change)
        requires room { vec_len self.old.sessions < vec_capacity self.old.sessions }
        requires within { IsPlacedIn change (length self.old.sessions.items) }
        ensures sessions { self.new.sessions.items ≡ after_change self.old.sessions.items change }
        ensures room { vec_capacity self.new.sessions ≡ vec_capacity self.old.sessions }
        ensures balances { self.new.balances ≡ self.old.balances }
    {
        match change {
            Change::Stays => {}
            Change::Opens { session } => self.sessions.push_reserved(session),
            Change::GoesOn { place, session } => self.sessions[place] = session,
            Change::Ends { place } => {
                let _ended = self.sessions.swap_remove(place);
            }
        }
    }
}
