//! What a book keeps: its history, and beside it what the entries replied and what they have left.

ghost use Rattle.std.specs.Prelude.{◌≡◌, ◌≢◌, ◌≤◌, ◌<◌, ◌^◌, ◌%◌, [], length, map, nat_abs, Err, IfOk, IfSome, MatchOption, if◌then◌else◌, nat_lt, slice_get, Some, None, pos};
ghost use Rattle.cc_book.specs.declared.book.BookRefusal.TheVariants.{OutOfMemory};

mod changing;
mod planning;

use crate::account::Account;
use crate::book::{BookRefusal, free_place};
use crate::charges::{Charge, NO_CHARGE};
use crate::entry::Entry;
use crate::kept_terms::KeptTerms;
use crate::places::Places;
use crate::session::OpenSession;
use crate::standing::Standing;
use crate::terms::Terms;
use cc_view::CcReply;
use dia_base::{HISTORY_LIMIT, Moment};
pub use planning::kept_answer;
use std::alloc::{AllocError, Global};
use std::marker::Model;

/// What a book keeps. Balances, reservations, sessions and replies are made from the terms that it began with and the entries alone.
/// Beside the entries it keeps what they replied and what they have left, so that nothing is worked out twice. Its owner is
/// [`Book`](crate::Book), whose methods have the contracts of these.
#[derive(Debug, Drop)]
pub struct BookState {
    /// The terms that it began with, and those that hold now.
    terms: KeptTerms,
    limit: u64,
    history: Vec<Entry>,
    /// The reply of each entry, none of a sweep.
    replies: Vec<Option<CcReply>>,
    /// What each entry charged.
    charges: Vec<Charge>,
    /// Where its requests stand in the history.
    places: Places,
    standing: Standing,
}

impl Model for BookState {
    ghost use Rattle.std.specs.Prelude.{◌≡◌, ◌+◌, ◌≤◌, ◌^◌, length, vec_capacity};
    ghost use Rattle.cc_book.specs.AccountMachine.{terms_of};
    ghost use Rattle.cc_book.specs.Charging.{charges_of};
    ghost use Rattle.cc_book.specs.Places.{HasPlaces, IsIndexed};
    ghost use Rattle.cc_book.specs.Taking.{HasRoom, IsBook, Ledger};

    ghost Value = { Ledger };

    ghost view = { λ b. record { terms = b.terms.begun; limit = b.limit; history = b.history.items } };

    ghost invariant = { λ b.
        IsBook b.terms.begun b.limit b.history.items b.replies.items b.standing.balances.items b.standing.sessions.items
        × HasRoom b.limit (vec_capacity b.history) (vec_capacity b.replies) (length b.history.items + b.standing.sessions.room)
        × (b.standing.sessions.accounts ≡ length b.standing.balances.items)
        × IsIndexed b.history.items b.places
        × HasPlaces b.limit (length b.history.items) b.places
        × (b.limit ≤ 2 ^ 20)
        × (b.terms.current ≡ terms_of b.terms.begun b.history.items)
        × (b.charges.items ≡ charges_of b.terms.begun b.history.items)
        × (b.limit ≤ vec_capacity b.charges) };
}

impl BookState {
    ghost use Rattle.cc_book.specs.AccountMachine.{postings_of, terms_of};
    ghost use Rattle.cc_book.specs.Charging.{charges_of};
    ghost use Rattle.cc_book.specs.Balance.{balance_of, reserved_of, open_sessions_of};
    ghost use Rattle.cc_book.specs.History.{IsLegal};
    ghost use Rattle.cc_book.specs.Standing.{held_by_all, sessions_in};
    ghost use Rattle.cc_book.specs.Taking.{Ledger, SweepsWith, is_fresh, sweep_answer, after_sweep_with, with_take};

    /// A book under these terms, with no entry, and with room for so many.
    pub fn under(alloc: Global, terms: Terms, limit: u64) -> Result<Self, AllocError>
        requires { limit ≤ HISTORY_LIMIT }
        ensures { IfOk result (λ book. book ≡ record { terms = terms; limit = limit; history = [] }) }
    {
        let room = limit as usize;
        let standing = Standing::new(alloc, terms.accounts.as_slice(), room)?;
        Ok(BookState {
            terms: KeptTerms::of(alloc, terms)?,
            limit,
            history: Vec::with_capacity(alloc, room)?,
            replies: Vec::with_capacity(alloc, room)?,
            charges: Vec::with_capacity(alloc, room)?,
            places: Places::new(alloc, room)?,
            standing,
        })
    }

    /// What `sweep` would answer now. It changes nothing, and takes no memory.
    pub fn quote_sweep(&self, moment: Moment) -> Result<u64, BookRefusal>
        ensures answer { SweepsWith (sweep_answer self.now moment) result }
        ensures memory { result ≢ Err OutOfMemory }
    {
        let ended = self.standing.count_due(self.terms.validity(), moment);
        if ended == 0 {
            return Ok(0);
        }
        let Some(_place) = free_place(&self.history, self.limit) else {
            return Err(BookRefusal::Full { limit: self.limit });
        };
        Ok(ended as u64)
    }

    /// Ends each session whose deadline is at most the moment: a session lasts for twice its validity from its last
    /// request on that is no EVENT (RFC 8506, section 13), and what it had reserved is free again. It answers how many
    /// ended, and appends an entry only where some did. Full where some would and the history is at its limit: the book is
    /// unchanged then. It takes no memory. Moments need not rise from call to call.
    pub fn sweep(&mut self, moment: Moment) -> Result<u64, BookRefusal>
        ensures answer { SweepsWith (sweep_answer self.old moment) result }
        ensures after { self.new ≡ after_sweep_with self.old moment result }
        ensures memory { result ≢ Err OutOfMemory }
    {
        let ended = self.quote_sweep(moment)?;
        if ended == 0 {
            return Ok(0);
        }
        self.history.push_reserved(Entry::Sweep { moment });
        self.replies.push_reserved(None);
        self.charges.push_reserved(NO_CHARGE);
        self.standing.sweep(self.terms.validity(), moment);
        Ok(ended)
    }

    /// A copy of the terms that it began with. Its accounts are a list alone ([`Accounts::list`]).
    pub fn terms(&self, alloc: Global) -> Result<Terms, AllocError>
        ensures { IfOk result (λ terms. terms ≡ self.now.terms) }
    {
        self.terms.begun(alloc)
    }

    /// Validity-Time of its grants in seconds.
    pub fn validity(&self) -> u32
        ensures { result ≡ self.now.terms.validity }
    {
        self.terms.validity()
    }

    /// The accounts: those that were handed to `new`, and behind them those that have joined.
    pub fn accounts(&self) -> &[Account]
        ensures { result.now ≡ (terms_of self.now.terms self.now.history).accounts }
    {
        self.terms_now().accounts.as_slice()
    }

    /// The balance of the account at this place, which stays below 2^124 in size. None beyond the last account.
    pub fn balance(&self, account: usize) -> Option<i128>
        ensures small { IfSome result (λ balance. nat_abs balance < 2 ^ 124) }
        ensures value { result ≡ (if nat_lt account (length (terms_of self.now.terms self.now.history).accounts) then Some (balance_of self.now.terms self.now.history account) else None) }
    {
        if account < self.standing.balances.len() {
            Some(self.standing.balances[account])
        } else {
            None
        }
    }

    /// What the sessions of the account at this place have reserved. None beyond the last account.
    pub fn reserved(&self, account: usize) -> Option<i128>
        ensures { result ≡ (if nat_lt account (length (terms_of self.now.terms self.now.history).accounts) then Some (pos (reserved_of self.now.terms self.now.history account)) else None) }
    {
        if account < self.standing.balances.len() {
            Some(self.standing.reserved(account) as i128)
        } else {
            None
        }
    }

    /// What the open sessions have reserved of all accounts together, modulo 2^128.
    pub fn reserved_by_all(&self) -> u128
        ensures { result ≡ held_by_all (sessions_in self.now.terms self.now.history) % 2 ^ 128 }
    {
        self.standing.reserved_by_all()
    }

    /// How many sessions are open: the length of their list.
    pub fn session_count(&self) -> usize
        ensures { result ≡ length (sessions_in self.now.terms self.now.history) }
    {
        self.standing.sessions.len()
    }

    /// The open session at a place of their list. None beyond the last one.
    pub fn session_at(&self, place: usize) -> Option<&OpenSession>
        ensures { MatchOption result (length (sessions_in self.now.terms self.now.history) ≤ place) (λ session. slice_get (sessions_in self.now.terms self.now.history) place ≡ Some session.now) }
    {
        self.standing.sessions.at(place)
    }

    /// How many sessions are open.
    pub fn open_sessions(&self) -> u64
        ensures { result ≡ open_sessions_of self.now.terms self.now.history }
    {
        self.standing.sessions.len() as u64
    }

    /// The entries, the oldest first.
    pub fn history(&self) -> &[Entry]
        ensures entries { result.now ≡ self.now.history }
        ensures legal { IsLegal self.now.terms self.now.history }
        ensures within { length self.now.history ≤ self.now.limit }
    {
        self.history.as_slice()
    }

    /// The reply of each entry, the oldest first: none of a sweep and of a change of the terms.
    pub fn replies(&self) -> &[Option<CcReply>]
        ensures { result.now ≡ map (λ posting. posting.reply) (postings_of self.now.terms self.now.history) }
    {
        self.replies.as_slice()
    }

    /// What each entry charged, the oldest first.
    pub fn charges(&self) -> &[Charge]
        ensures { result.now ≡ charges_of self.now.terms self.now.history }
    {
        self.charges.as_slice()
    }
}
