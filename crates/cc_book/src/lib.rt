//! The account book of online charging: its history, and what it replies to a request (RFC 8506).
//!
//! - [`Book`]: a history of entries, from which every balance and every reply is made. [`Book::take`] charges a
//!   request and keeps it; a repeat gets the kept reply, and one with another content a refusal. [`Book::quote`] says
//!   what `take` would answer. [`Book::sweep`] ends the sessions that sent no request for twice their validity.
//! - [`Plan`]: what a request does, found out by [`Book::plan`], which alone may refuse or want memory, and done by
//!   [`Book::commit`]. Between the two an answer can be spelled: a book is not charged for one that cannot be.
//! - [`Account`], [`Money`], [`Entry`], [`Answered`], [`BookRefusal`]: what goes in and comes out. [`Accounts`] and
//!   [`Subscriptions`] find accounts by their Subscription-Ids.
//! - For another body of the book, as `cc_list` is: [`Lookup`], what a request looks up of a book; [`Terms::outcome_of`],
//!   what it does then, an [`Outcome`]; and what both bodies do alike, copies and the test whether a book is full.
//!
//! INITIAL, UPDATE and TERMINATION are answered with what a session is granted and holds of its account, EVENTs
//! with debits, refunds, balance checks and price enquiries. A session ends with its TERMINATION, or by a sweep.
//!
//! The reply to a request stands in `specs/AccountMachine`, what entries do to accounts in `specs/Posting` and
//! `specs/Balance`, sessions and reservations in `specs/Session` and `specs/Reservation`, what services ask and used
//! in `specs/ServiceRating`, at which price in `specs/Pricing`, how terms change in `specs/TermsChange`, the history in
//! `specs/History`, which requests are one in `specs/Duplicate` and `specs/Content`, how a request is found in it in
//! `specs/Places`, how an account in `specs/Owners`, what it has left in `specs/Standing`, a call in `specs/Taking`, and its two halves in `specs/Planning`.
//! `specs/Bounds` says which amounts an account bears, `specs/Charging` which entries charged it last. `specs/RowExample`, `specs/SessionExample` and
//! `specs/BoundExample` are worked examples. The functions of `laws`, `bound_laws` and `standing_laws` have no body: their contracts are
//! laws of these definitions.
//!
//! ```text
//! let mut book = Book::new(alloc, accounts, tariffs, 600, money, HISTORY_LIMIT)?;
//! match book.take(alloc, Moment(1000), &request) {
//!     Ok(answered) => send(answered.reply),             // a repeat is not `fresh`
//!     Err(BookRefusal::Full { limit }) => refuse(limit), // the book is unchanged
//!     Err(BookRefusal::OutOfMemory) => give_up(),        // and here
//! }
//! let plan = book.plan(alloc, Moment(2000), &request)?;  // the book is as it was
//! let answer = spell(plan.answered())?;                  // and if this fails, it stays so
//! let answered = book.commit(plan);                      // it has taken the request
//! let ended = book.sweep(Moment(1_201_000))?;            // Full only where there is something to end
//! let balance = book.balance(0);                         // of the first account
//! ```
#![tactic(auto)]

mod account;
mod accounts;
mod asking;
mod book;
mod bound_laws;
mod change_laws;
mod charges;
mod content;
mod copy;
mod entry;
mod event;
mod kept_terms;
mod key;
mod laws;
mod lookup;
mod memory;
mod open_sessions;
mod outcome;
mod places;
mod plan;
mod price;
mod session;
mod settling;
mod standing;
mod standing_laws;
mod state;
mod subscriptions;
mod terms;
mod terms_change;

pub use account::{Account, Money};
pub use accounts::{Accounts, Owner};
pub use book::{Answered, Book, BookRefusal, free_place};
pub use bound_laws::{
    accounts_at_their_bound_refuse_requests, accounts_bear_requests_below_their_bounds,
    entries_move_little, short_books_are_full_at_their_limit, what_is_reserved_is_bounded_too,
};
pub use change_laws::{
    accounts_join_at_their_place, changes_are_refused_by_name, changes_leave_sessions_alone,
    closed_accounts_are_granted_nothing, closed_accounts_are_not_named,
    closed_accounts_settle_what_was_used, tariffs_hold_from_their_place,
    terms_change_by_their_entries_alone, used_units_are_paid_at_the_price_of_their_grant,
};
pub use charges::{Charge, last_charges};
pub use content::same_request;
pub use copy::{RequestCopy, copy_of_reply};
pub use entry::Entry;
pub use kept_terms::KeptTerms;
pub use laws::{
    balances_move_by_debits, bare_services_decide_the_result, books_with_one_history_answer_alike,
    checks_tell_what_is_free, debits_pay_for_what_is_granted, ended_sessions_hold_nothing,
    events_are_charged_by_their_action, events_leave_sessions_alone,
    first_known_subscription_is_charged, grants_are_of_what_is_free, grants_are_reserved,
    kept_replies_are_of_entries, kept_reply_is_the_first, kept_reply_stays, keys_are_distinct,
    keys_are_session_and_number, legal_histories_grow, new_keys_have_no_reply,
    openings_grant_what_is_free, openings_less_debits_are_balances, other_contents_are_refused,
    other_requests_are_refused, refunds_are_debits_below_zero, repeats_change_nothing, replies_fit,
    replies_grant_units, requests_leave_other_accounts_alone, requests_leave_other_services_alone,
    requests_leave_other_sessions_alone, same_requests_are_equal, services_are_held_once,
    services_share_what_is_free, sessions_and_services_stand_apart,
    sessions_last_twice_their_validity, sessions_pay_for_what_is_used, sweeps_end_a_session_once,
    sweeps_end_sessions_at_their_deadline, sweeps_end_what_is_due, sweeps_release_what_was_held,
    tariff_kinds_choose_the_count, terminations_debit_and_end, the_empty_history_is_legal,
    updates_debit_and_then_grant,
};
pub use lookup::Lookup;
pub use open_sessions::OpenSessions;
pub use outcome::{Change, Outcome};
pub use plan::{Plan, Taken};
pub use price::{Price, Prices};
pub use session::{Hold, OpenSession, held_in};
pub use standing::Standing;
pub use standing_laws::entries_change_sessions;
pub use state::kept_answer;
pub use subscriptions::Subscriptions;
pub use terms::Terms;
pub use terms_change::{ChangeRefusal, TermsChange};
