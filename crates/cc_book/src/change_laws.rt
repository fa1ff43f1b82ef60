//! Laws of terms that change.
#![tactic(auto, unfolding(crate::specs::AccountMachine::kept_reply, crate::specs::AccountMachine::postings_of, crate::specs::AccountMachine::reply_to, crate::specs::Balance::balance_of, crate::specs::Balance::open_sessions_of, crate::specs::Balance::reserved_of, crate::specs::Balance::spent_by,))]

ghost use Rattle.std.specs.Prelude.{◌≡◌, ℕ, All, List, [], ◌∷◌, ◌++◌, codes, None, Some, true, false, pos, negsuc, Ok, Err};
ghost use Rattle.dia_base.specs.declared.number.Moment.{Moment};
ghost use Rattle.cc_view.specs.declared.code.ResultCode.TheVariants.{CreditLimitReached, UserUnknown};
ghost use Rattle.cc_view.specs.declared.request.RequestKind.TheVariants.{Initial};
ghost use Rattle.cc_view.specs.declared.request.RequestedAction.TheVariants.{DirectDebiting};
ghost use Rattle.cc_view.specs.declared.request.ServiceName.{ServiceName};
ghost use Rattle.cc_view.specs.declared.request.Subscription.{Subscription};
ghost use Rattle.cc_book.specs.declared.entry.Entry.{Entry};
ghost use Rattle.cc_book.specs.declared.entry.Entry.TheVariants.{Take, Sweep, ChangeTerms};
ghost use Rattle.cc_book.specs.declared.terms.Terms.{Terms};
ghost use Rattle.cc_book.specs.declared.terms_change.ChangeRefusal.TheVariants.{Nothing, AlreadyThere, Twice, NotThere, ClosedAlready, ClosedTwice, NotClosed, ReopenedTwice, Full};
ghost use Rattle.cc_book.specs.declared.terms_change.TermsChange.{TermsChange};
ghost use Rattle.cc_view.specs.declared.request.CcRequest.{CcRequest};
ghost use Rattle.cc_book.specs.AccountMachine.{account_of, charged_account, code_alone, grants_after, is_closed, kept_reply, postings_of, reply_to, terms_of};
ghost use Rattle.cc_book.specs.Balance.{balance_of, open_sessions_of, reserved_of};
ghost use Rattle.cc_book.specs.ChangeExample.{changed, closed_update, closes, dear_update, dearer, either_initial, first_number, joined_by, joiner, joiner_initial, joins, reopens, standing_by};
ghost use Rattle.cc_book.specs.Changing.{change_answer};
ghost use Rattle.cc_book.specs.Laws.{KeepsTerms};
ghost use Rattle.cc_book.specs.Pricing.{price_of};
ghost use Rattle.cc_book.specs.Reservation.{held_by};
ghost use Rattle.cc_book.specs.RowExample.{any_units, ended_by, event_on, granted_units, gratis_terms, initial, initial_again, no_units, opened_by, request_of, row_account, row_book, row_service, row_terms, subscription, success, taken, termination, update};
ghost use Rattle.cc_book.specs.Session.{session_of};
ghost use Rattle.cc_book.specs.TermsChange.{changed_terms, fault_of_change};

/// The terms that hold are those that the book began with, after each change since: no request and no sweep changes them.
pub fn terms_change_by_their_entries_alone()
    ensures by_change { (terms : Terms) (history : List Entry) (moment : Moment) (change : TermsChange) →
        terms_of terms (history ++ ChangeTerms moment change ∷ []) ≡ changed_terms (terms_of terms history) change }
    ensures by_request { (terms : Terms) (history : List Entry) (moment : Moment) (request : CcRequest) →
        terms_of terms (history ++ Take moment request ∷ []) ≡ terms_of terms history }
    ensures by_sweep { (terms : Terms) (history : List Entry) (moment : Moment) →
        terms_of terms (history ++ Sweep moment ∷ []) ≡ terms_of terms history }
    ensures without { (terms : Terms) (history : List Entry) → All KeepsTerms history → terms_of terms history ≡ terms }
{}

/// A change of the terms leaves each session as it is, with what it holds and its prices: what is held stays held at the
/// cost at which it was granted, and what was granted is paid for at the price of its grant.
pub fn changes_leave_sessions_alone()
    ensures session { (terms : Terms) (history : List Entry) (moment : Moment) (change : TermsChange) (session : List ℕ) →
        session_of terms.validity session (postings_of terms (history ++ ChangeTerms moment change ∷ [])) ≡ session_of terms.validity session (postings_of terms history) }
    ensures held { (terms : Terms) (history : List Entry) (moment : Moment) (change : TermsChange) (session : List ℕ) (name : ServiceName) →
        held_by terms.validity session name (postings_of terms (history ++ ChangeTerms moment change ∷ [])) ≡ held_by terms.validity session name (postings_of terms history) }
    ensures reserved { (terms : Terms) (history : List Entry) (moment : Moment) (change : TermsChange) (account : ℕ) →
        reserved_of terms (history ++ ChangeTerms moment change ∷ []) account ≡ reserved_of terms history account }
    ensures prices { (terms : Terms) (history : List Entry) (moment : Moment) (change : TermsChange) (session : List ℕ) (name : ServiceName) →
        price_of session name (postings_of terms (history ++ ChangeTerms moment change ∷ [])) ≡ price_of session name (postings_of terms history) }
    ensures counted { (terms : Terms) (history : List Entry) (moment : Moment) (change : TermsChange) →
        open_sessions_of terms (history ++ ChangeTerms moment change ∷ []) ≡ open_sessions_of terms history }
{}

/// The worked example: an account that joins between two requests that name it. The first is refused, and so is its repeat
/// once the account is there; the second is granted. The balance of the account is its opening amount.
pub fn accounts_join_at_their_place()
    ensures before { reply_to row_terms [] joiner_initial ≡ code_alone UserUnknown }
    ensures repeated { kept_reply row_terms (taken 1000 joiner_initial ∷ changed 2000 joins ∷ []) joiner_initial ≡ Some (code_alone UserUnknown) }
    ensures after { reply_to row_terms (taken 1000 joiner_initial ∷ changed 2000 joins ∷ []) (initial_again (codes "491700000006")) ≡ success (granted_units None 5000 false ∷ []) }
    ensures balance { balance_of row_terms (taken 1000 joiner_initial ∷ changed 2000 joins ∷ []) 5 ≡ pos 50 }
    ensures held { reserved_of row_terms (changed 1000 joins ∷ taken 2000 joiner_initial ∷ []) 5 ≡ 25 }
    ensures beside { balance_of row_terms (changed 1000 joins ∷ taken 2000 joiner_initial ∷ []) 4 ≡ pos 25 }
{}

/// The worked example: a tariff of 7 for a block holds from its place on. With 27 an account is granted five blocks of 5,
/// and three of 7, which are the last. What was granted before stays held at its cost.
pub fn tariffs_hold_from_their_place()
    ensures cheap { reply_to row_terms [] (initial (codes "491700000004") any_units) ≡ success (granted_units None 5000 false ∷ []) }
    ensures dear { reply_to row_terms (changed 1000 dearer ∷ []) (initial (codes "491700000004") any_units) ≡ success (granted_units None 3000 true ∷ []) }
    ensures repeated { kept_reply row_terms (opened_by (codes "491700000004") ++ changed 2000 dearer ∷ []) (initial (codes "491700000004") any_units) ≡ Some (success (granted_units None 5000 false ∷ [])) }
    ensures held { reserved_of row_terms (opened_by (codes "491700000004") ++ changed 2000 dearer ∷ []) 3 ≡ 25 }
    ensures debited { balance_of row_terms (changed 1000 dearer ∷ taken 2000 (event_on (codes "491700000001") DirectDebiting) ∷ []) 0 ≡ pos 972 }
{}

/// The worked example: used units are paid for at the price of their grant. A session is granted 5000 octets at 5 a block,
/// and then the tariff is 7. The next report pays 5 a block, and is granted at 7; the one after that pays 7. A service that
/// was granted nothing pays what holds when it reports, and so does one in a session that begins anew. A refused grant
/// leaves the price of the one before.
pub fn used_units_are_paid_at_the_price_of_their_grant()
    ensures old_price { balance_of row_terms (dear_update 3000) 0 ≡ pos 985 }
    ensures new_grant { reserved_of row_terms (dear_update 3000) 0 ≡ 35 }
    ensures new_price { balance_of row_terms (dear_update 3000 ++ taken 4000 (termination (codes "491700000001") 2500) ∷ []) 0 ≡ pos 964 }
    ensures never_granted { balance_of row_terms (taken 1000 (initial (codes "491700000001") None) ∷ changed 2000 dearer ∷ taken 3000 (update (codes "491700000001") 3000) ∷ []) 0 ≡ pos 979 }
    ensures anew { balance_of row_terms (ended_by (codes "491700000001") 0 ++ changed 3000 dearer ∷ taken 4000 (request_of 3 Initial None (codes "491700000001") (row_service None None 1000 ∷ [])) ∷ []) 0 ≡ pos 993 }
    ensures refused { (reply_to row_terms (opened_by (codes "491700000004") ++ changed 2000 dearer ∷ []) (update (codes "491700000004") 5000)) ≡ success (no_units None CreditLimitReached ∷ []) }
    ensures after_refusal { balance_of row_terms (opened_by (codes "491700000004") ++ changed 2000 dearer ∷ taken 3000 (update (codes "491700000004") 5000) ∷ taken 4000 (termination (codes "491700000004") 1000) ∷ []) 3 ≡ negsuc 2 }
{}

/// No request but of an open session charges a closed account: the Subscription-Ids of one name no account.
pub fn closed_accounts_are_not_named()
    ensures { (terms : Terms) (subscriptions : List Subscription) (account : ℕ) →
        account_of terms subscriptions ≡ Some account → is_closed terms (Some account) ≡ false }
{}

/// Nothing is granted of an account that is closed.
pub fn closed_accounts_are_granted_nothing()
    ensures { (terms : Terms) (history : List Entry) (request : CcRequest) →
        is_closed (terms_of terms history) (charged_account (terms_of terms history) (postings_of terms history) request) ≡ true →
        grants_after (terms_of terms history) (postings_of terms history) request ≡ [] }
{}

/// The worked example: an account of 1000 closes while a session holds 25 of it for 5000 octets. The session stays open: an
/// UPDATE pays for the 3000 that it reports, and is refused more, as is one at a price of 0; a TERMINATION pays too. An EVENT
/// and an INITIAL find no account, or that of the next Subscription-Id. What was answered before stays, and once the account
/// is open again it grants as before.
pub fn closed_accounts_settle_what_was_used()
    ensures held { reserved_of row_terms (opened_by (codes "491700000001") ++ changed 2000 closes ∷ []) 0 ≡ 25 }
    ensures paid { balance_of row_terms (closed_update 3000) 0 ≡ pos 985 }
    ensures refused { reply_to row_terms (opened_by (codes "491700000001") ++ changed 2000 closes ∷ []) (update (codes "491700000001") 3000) ≡ success (no_units None CreditLimitReached ∷ []) }
    ensures released { reserved_of row_terms (closed_update 3000) 0 ≡ 0 }
    ensures still_open { open_sessions_of row_terms (closed_update 3000) ≡ 1 }
    ensures ended { balance_of row_terms (closed_update 3000 ++ taken 4000 (termination (codes "491700000001") 1000) ∷ []) 0 ≡ pos 980 }
    ensures for_nothing { reply_to gratis_terms (opened_by (codes "491700000001") ++ changed 2000 closes ∷ []) (update (codes "491700000001") 0) ≡ success (no_units None CreditLimitReached ∷ []) }
    ensures event { reply_to row_terms (changed 1000 closes ∷ []) (event_on (codes "491700000001") DirectDebiting) ≡ code_alone UserUnknown }
    ensures initial { reply_to row_terms (changed 1000 closes ∷ []) (initial (codes "491700000001") any_units) ≡ code_alone UserUnknown }
    ensures first { charged_account row_terms [] either_initial ≡ Some 0 }
    ensures next { reserved_of row_terms (changed 1000 closes ∷ taken 2000 either_initial ∷ []) 3 ≡ 25 }
    ensures repeated { kept_reply row_terms (opened_by (codes "491700000001") ++ changed 2000 closes ∷ []) (initial (codes "491700000001") any_units) ≡ Some (success (granted_units None 5000 false ∷ [])) }
    ensures reopened { reply_to row_terms (changed 1000 closes ∷ changed 2000 reopens ∷ []) (initial (codes "491700000001") any_units) ≡ success (granted_units None 5000 false ∷ []) }
{}

/// The worked example: what is wrong with a change, by name. A full book refuses one with which nothing is wrong.
pub fn changes_are_refused_by_name()
    ensures nothing { fault_of_change row_terms (joined_by []) ≡ Some Nothing }
    ensures there { fault_of_change row_terms (joined_by (joiner ∷ row_account (codes "491700000001") 9 ∷ [])) ≡ Some (AlreadyThere 1) }
    ensures twice { fault_of_change row_terms (joined_by (joiner ∷ joiner ∷ [])) ≡ Some (Twice 1) }
    ensures of_another_type { fault_of_change row_terms (joined_by (record (row_account (codes "491700000001") 9) { id_kind = 1 } ∷ [])) ≡ None }
    ensures strange { fault_of_change row_terms (standing_by (first_number ∷ subscription 0 (codes "499") ∷ []) []) ≡ Some (NotThere 1) }
    ensures closed_already { fault_of_change (terms_of row_terms (changed 1000 closes ∷ [])) closes ≡ Some (ClosedAlready 0) }
    ensures closed_twice { fault_of_change row_terms (standing_by (first_number ∷ first_number ∷ []) []) ≡ Some (ClosedTwice 1) }
    ensures not_closed { fault_of_change row_terms reopens ≡ Some (NotClosed 0) }
    ensures reopened_twice { fault_of_change (terms_of row_terms (changed 1000 closes ∷ [])) (standing_by [] (first_number ∷ first_number ∷ [])) ≡ Some (ReopenedTwice 1) }
    ensures closed_now { fault_of_change (terms_of row_terms (changed 1000 closes ∷ [])) reopens ≡ None }
    ensures made { change_answer (row_book 2 (opened_by (codes "491700000001"))) joins ≡ Ok 1 }
    ensures full { change_answer (row_book 1 (opened_by (codes "491700000001"))) joins ≡ Err (Full 1) }
    ensures fault_first { change_answer (row_book 0 []) (joined_by []) ≡ Err Nothing }
    ensures again { change_answer (row_book 9 (changed 1000 joins ∷ [])) joins ≡ Err (AlreadyThere 0) }
{}
