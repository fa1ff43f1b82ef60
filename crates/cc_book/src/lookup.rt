//! What a request looks up of a book.

ghost use Rattle.std.specs.Prelude.{◌≡◌, ℕ, ◌<◌, ◌≤◌, ◌^◌, ℤ, nat_abs, List, length, pos, negsuc, ◌+ℤ◌, ◌-ℤ◌, ◌≤ℤ◌, MatchOption, None, slice_index_or, All};
ghost use Rattle.std.specs.Option.{ForSome};
ghost use Rattle.cc_book.specs.declared.session.OpenSession.{OpenSession as Session};
ghost use Rattle.cc_book.specs.Bounds.{bears, bears_in};
ghost use Rattle.cc_book.specs.Standing.{IsOpenAt, free_in, place_in, reserved_in};

use crate::session::OpenSession;
use dia_avp::Octets;

/// What a balance, and what is reserved of an account, stay below in size, so that no sum of amounts leaves 128 bits.
const AMOUNT_BOUND: u128 = 1 << 124;

/// The most that a request debits or credits.
const GREATEST_DEBIT: u128 = 1 << 103;

/// The most that a request is granted.
const GREATEST_GRANTS: u128 = 1 << 89;

/// What a history has left, however it is kept: all that is looked up to answer a request.
pub trait Lookup {
    /// The balance of each account.
    ghost balances: { Self → List ℤ };

    /// The sessions that are open, in the order in which they opened.
    ghost sessions: { Self → List Session };

    /// The open session with this Session-Id, and its place.
    fn open_session(&self, id: &Octets) -> Option<(usize, &OpenSession)>
        ensures { MatchOption result (place_in (sessions self.now) id.now ≡ None) (λ found. IsOpenAt (sessions self.now) id.now found.0 found.1.now) };

    /// The balance of an account.
    fn balance(&self, account: usize) -> i128
        requires { account < length (balances self.now) }
        ensures { result ≡ slice_index_or (balances self.now) account (pos 0) };

    /// What sessions have reserved of an account.
    fn held(&self, account: usize) -> u128
        requires { (other : ℕ) → reserved_in other (sessions self.now) ≤ 2 ^ 124 }
        ensures { result ≡ reserved_in account (sessions self.now) };

    /// Whether an account bears one more request: nothing that it may debit or be granted brings the balance, or what
    /// is reserved, to 2^124. Without an account there is nothing to bear.
    fn bears_more(&self, account: Option<usize>) -> bool
        requires within { ForSome account (λ place. place < length (balances self.now)) }
        requires held { (other : ℕ) → reserved_in other (sessions self.now) ≤ 2 ^ 124 }
        ensures { result ≡ bears_in (balances self.now) (sessions self.now) account }
    {
        match account {
            Some(account) => bears(self.balance(account), self.held(account)),
            None => true,
        }
    }

    /// What is free of an account: its balance less what sessions have reserved of it.
    fn free(&self, account: usize) -> i128
        requires within { account < length (balances self.now) }
        requires least { All (λ balance. negsuc (2 ^ 124) ≤ℤ balance) (balances self.now) }
        requires most { All (λ balance. balance ≤ℤ pos (2 ^ 124)) (balances self.now) }
        requires held { (account : ℕ) → reserved_in account (sessions self.now) ≤ 2 ^ 124 }
        ensures value { result ≡ slice_index_or (balances self.now) account (pos 0) -ℤ pos (reserved_in account (sessions self.now)) }
        ensures least { negsuc (2 ^ 125) ≤ℤ result }
        ensures most { result ≤ℤ pos (2 ^ 124) }
    {
        self.balance(account) - self.held(account) as i128
    }

    /// What is free of an account, nothing without one.
    fn free_for(&self, account: Option<usize>) -> i128
        requires within { ForSome account (λ place. place < length (balances self.now)) }
        requires least { All (λ balance. negsuc (2 ^ 124) ≤ℤ balance) (balances self.now) }
        requires most { All (λ balance. balance ≤ℤ pos (2 ^ 124)) (balances self.now) }
        requires held { (account : ℕ) → reserved_in account (sessions self.now) ≤ 2 ^ 124 }
        ensures { result ≡ free_in (balances self.now) (sessions self.now) account }
    {
        match account {
            Some(account) => self.free(account),
            None => 0,
        }
    }

    /// What is free of an account for the grants of a request, which has ended so much of what was reserved and debits
    /// so much.
    fn free_to_grant(&self, account: usize, ended: u128, debit: i128) -> i128
        requires within { account < length (balances self.now) }
        requires least { All (λ balance. negsuc (2 ^ 124) ≤ℤ balance) (balances self.now) }
        requires most { All (λ balance. balance ≤ℤ pos (2 ^ 124)) (balances self.now) }
        requires held { (account : ℕ) → reserved_in account (sessions self.now) ≤ 2 ^ 124 }
        requires ended { ended ≤ 2 ^ 124 }
        requires debit_least { pos 0 ≤ℤ debit }
        requires debit_most { debit ≤ℤ pos (2 ^ 103) }
        ensures value { result ≡ ((slice_index_or (balances self.now) account (pos 0) -ℤ pos (reserved_in account (sessions self.now))) +ℤ pos ended) -ℤ debit }
        ensures least { negsuc (2 ^ 126) ≤ℤ result }
    {
        self.free(account) + ended as i128 - debit
    }
}

/// Whether an account with this balance, of which so much is reserved, bears one more request.
fn bears(balance: i128, reserved: u128) -> bool
    ensures { result ≡ bears balance reserved }
{
    balance.unsigned_abs() < AMOUNT_BOUND - GREATEST_DEBIT
        && reserved < AMOUNT_BOUND - GREATEST_GRANTS
}
