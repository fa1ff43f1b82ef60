//! Laws of the account book, in the words of a reader who knows none of its code.
#![tactic(auto, unfolding(crate::specs::AccountMachine::postings_of, crate::specs::AccountMachine::reply_to, crate::specs::Balance::balance_of, crate::specs::Balance::open_sessions_of, crate::specs::Balance::reserved_of, crate::specs::Balance::spent_by,))]

ghost use Rattle.std.specs.Prelude.{◌≡◌, ◌≢◌, ℕ, ◌+◌, ◌<◌, ◌≤◌, All, IsTrue, List, find, [], ◌∷◌, ◌++◌, ◌↔◌, length, None, Option, Some, true, false, codes, if◌then◌else◌, pos, negsuc, ◌-ℤ◌, ◌≤ℤ◌, ◌<ℤ◌, Ok, Err, sum_by, unwrap_or};
ghost use Rattle.std.specs.Int.{int_max};
ghost use Rattle.dia_base.specs.declared.number.Moment.{Moment};
ghost use Rattle.cc_view.specs.Answer.Fitting.{Fits};
ghost use Rattle.cc_view.specs.Answer.Typed.{GrantsUnits};
ghost use Rattle.cc_view.specs.Request.ServiceLimits.{WithinLimits, name_of};
ghost use Rattle.cc_view.specs.declared.code.ResultCode.TheVariants.{Success, CreditLimitReached, UnableToComply, UnknownSessionId, UserUnknown};
ghost use Rattle.cc_view.specs.declared.request.RequestKind.TheVariants.{Event, Initial, Termination, Update};
ghost use Rattle.cc_view.specs.declared.request.RequestedAction.TheVariants.{DirectDebiting, RefundAccount, CheckBalance, PriceEnquiry};
ghost use Rattle.cc_view.specs.declared.reply.CcReply.{CcReply};
ghost use Rattle.cc_view.specs.declared.request.CcRequest.{CcRequest};
ghost use Rattle.cc_view.specs.declared.request.Service.{Service};
ghost use Rattle.cc_view.specs.declared.request.ServiceName.{ServiceName};
ghost use Rattle.cc_rating.specs.Rating.{cost_of};
ghost use Rattle.cc_rating.specs.Tariffs.{fault_of, rates};
ghost use Rattle.cc_rating.specs.declared.tariff.Tariff.{Tariff};
ghost use Rattle.cc_rating.specs.declared.tariff.UnitKind.TheVariants.{Time, Octets, Units};
ghost use Rattle.cc_book.specs.declared.book.BookRefusal.TheVariants.{Full};
ghost use Rattle.cc_book.specs.declared.entry.Entry.{Entry};
ghost use Rattle.cc_book.specs.declared.entry.Entry.TheVariants.{Take, Sweep, ChangeTerms};
ghost use Rattle.cc_book.specs.declared.terms.Terms.{Terms};
ghost use Rattle.cc_book.specs.declared.terms_change.TermsChange.{TermsChange};
ghost use Rattle.cc_book.specs.AccountMachine.{account_of, charged_account, code_alone, free_after, free_to_grant, grants_after, opening_at, total_of, postings_of, reply_to, kept_reply, terms_of};
ghost use Rattle.cc_book.specs.Balance.{debit_of, balance_of, open_sessions_of, reserved_of};
ghost use Rattle.cc_book.specs.Content.{same_request};
ghost use Rattle.cc_book.specs.Duplicate.{key_of, same_key};
ghost use Rattle.cc_book.specs.History.{IsLegal, IsNew, ended_sessions, place_of};
ghost use Rattle.cc_book.specs.Laws.{GrantsAtMost, HasLimits, IsRefused, KeepsTerms, RepliesToEntry, cost_of_reply, debits_of, grants_alive, total_below};
ghost use Rattle.cc_book.specs.Posting.{is_account};
ghost use Rattle.cc_book.specs.Pricing.{price_at};
ghost use Rattle.cc_book.specs.Reservation.{held_by, reserved_by};
ghost use Rattle.cc_book.specs.RowExample.{any_units, bare_initial, bare_reply, bare_terms, counted_service, ended_by, event_between, event_on, granted_units, gratis_terms, half_bare_initial, initial, initial_again, no_units, octets, opened_by, opened_then, request_of, row_book, row_reply, row_service, row_terms, subscription, success, taken, tariff_in, termination, two_services_initial, two_services_update, unrated_initial, unrated_reply, update, updated_by};
ghost use Rattle.cc_book.specs.ServiceRating.{asked_of, tariff_of, unit_code, used_cost, used_of, used_total};
ghost use Rattle.cc_book.specs.Session.{Opened, is_open, open_count, session_of};
ghost use Rattle.cc_book.specs.SessionExample.{early_update, failed_opening, first_termination, first_update, group_opening, narrow_update, opening, other_opening, other_termination, reopening, second_opening, service_name, session, small_terms, strange_update, swept, unrelated_event, wide_opening};
ghost use Rattle.cc_book.specs.Standing.{held_in};
ghost use Rattle.cc_book.specs.Taking.{Ledger, after_sweep, answer_of, is_fresh, sweep_answer, with_take};
ghost use Rattle.cc_book.specs.TermsChange.{fault_of_change};

/// Books with one history answer alike, whatever came before they had it: the history is all that counts.
pub fn books_with_one_history_answer_alike()
    ensures { (one other : Ledger) (request : CcRequest) →
        one.terms ≡ other.terms → one.limit ≡ other.limit → one.history ≡ other.history → answer_of one request ≡ answer_of other request }
{}

/// A repeat is answered, and leaves the book as it was: no balance, no reservation, no session, whatever else it asks.
pub fn repeats_change_nothing()
    ensures answered { (ledger : Ledger) (request : CcRequest) (reply : CcReply) → kept_reply ledger.terms ledger.history request ≡ Some reply →
        answer_of ledger request ≡ Ok (record { reply = reply; place = unwrap_or (place_of ledger.history (key_of request)) 0; fresh = false }) }
    ensures unchanged { (ledger : Ledger) (moment : Moment) (request : CcRequest) (reply : CcReply) → kept_reply ledger.terms ledger.history request ≡ Some reply →
        (if is_fresh (answer_of ledger request) then with_take ledger moment request else ledger) ≡ ledger }
{}

/// In a legal history the reply that is kept for a request is the account machine's after the entries before it.
pub fn kept_reply_is_the_first()
    ensures { (terms : Terms) (before after : List Entry) (moment : Moment) (request : CcRequest) →
        IsLegal terms (before ++ Take moment request ∷ after) →
        kept_reply terms (before ++ Take moment request ∷ after) request ≡ Some (reply_to terms before request) }
{}

/// In a legal history a request with the key of a taken one, but with another content, gets DIAMETER_UNABLE_TO_COMPLY
/// alone: it is not told what was granted for something else.
pub fn other_contents_are_refused()
    ensures { (terms : Terms) (before after : List Entry) (moment : Moment) (taken request : CcRequest) →
        IsLegal terms (before ++ Take moment taken ∷ after) → IsTrue (same_key (key_of taken) (key_of request)) → taken ≢ request →
        kept_reply terms (before ++ Take moment taken ∷ after) request ≡ Some (code_alone UnableToComply) }
{}

/// Two requests ask the same exactly where they are equal: nothing that is read in them is left out.
pub fn same_requests_are_equal()
    ensures { (one other : CcRequest) → IsTrue (same_request one other) ↔ (one ≡ other) }
{}

/// The reply that is kept stays when the history grows.
pub fn kept_reply_stays()
    ensures { (terms : Terms) (history more : List Entry) (request : CcRequest) (reply : CcReply) →
        kept_reply terms history request ≡ Some reply → kept_reply terms (history ++ more) request ≡ Some reply }
{}

/// A reply that is kept is the account machine's to an entry of the history, this very request, after the entries before
/// it, or DIAMETER_UNABLE_TO_COMPLY alone, where that entry is another content with the key of this request.
pub fn kept_replies_are_of_entries()
    ensures { (terms : Terms) (history : List Entry) (request : CcRequest) (reply : CcReply) →
        kept_reply terms history request ≡ Some reply → RepliesToEntry terms history request reply }
{}

/// A history without entries is legal.
pub fn the_empty_history_is_legal()
    ensures { (terms : Terms) → IsLegal terms [] }
{}

/// A legal history stays legal when it grows by a request for which no reply is kept, by a sweep that ends a session, or
/// by a change of the terms with which nothing is wrong.
pub fn legal_histories_grow()
    ensures by_request { (terms : Terms) (history : List Entry) (moment : Moment) (request : CcRequest) →
        IsLegal terms history → kept_reply terms history request ≡ None → IsLegal terms (history ++ Take moment request ∷ []) }
    ensures by_sweep { (terms : Terms) (history : List Entry) (moment : Moment) →
        IsLegal terms history → 0 < ended_sessions terms history moment → IsLegal terms (history ++ Sweep moment ∷ []) }
    ensures by_change { (terms : Terms) (history : List Entry) (moment : Moment) (change : TermsChange) →
        IsLegal terms history → fault_of_change (terms_of terms history) change ≡ None → IsLegal terms (history ++ ChangeTerms moment change ∷ []) }
{}

/// No two requests of a legal history have one key.
pub fn keys_are_distinct()
    ensures { (terms : Terms) (before between after : List Entry) (m n : Moment) (one other : CcRequest) →
        IsLegal terms (before ++ Take m one ∷ (between ++ Take n other ∷ after)) → key_of one ≢ key_of other }
{}

/// Two requests have one key exactly where they have one Session-Id and one CC-Request-Number (RFC 8506, section 8.2).
pub fn keys_are_session_and_number()
    ensures { (one other : CcRequest) →
        (same_key (key_of one) (key_of other) ≡ true) ↔ ((one.session ≡ other.session) × (one.number ≡ other.number)) }
{}

/// A request moves the balance of the account that it charges by its debit, and no other balance. A sweep moves none, and
/// a change of the terms moves none of an account that is there: one that joins has its opening amount.
pub fn balances_move_by_debits()
    ensures by_request { (terms : Terms) (history : List Entry) (moment : Moment) (request : CcRequest) (account : ℕ) →
        balance_of terms (history ++ Take moment request ∷ []) account
        ≡ balance_of terms history account -ℤ (if is_account account (charged_account (terms_of terms history) (postings_of terms history) request) then debit_of terms history request else pos 0) }
    ensures by_sweep { (terms : Terms) (history : List Entry) (moment : Moment) (account : ℕ) →
        balance_of terms (history ++ Sweep moment ∷ []) account ≡ balance_of terms history account }
    ensures by_change { (terms : Terms) (history : List Entry) (moment : Moment) (change : TermsChange) (account : ℕ) → account < length (terms_of terms history).accounts →
        balance_of terms (history ++ ChangeTerms moment change ∷ []) account ≡ balance_of terms history account }
    ensures joined { (terms : Terms) (history : List Entry) (moment : Moment) (change : TermsChange) (place : ℕ) → place < length change.joining →
        balance_of terms (history ++ ChangeTerms moment change ∷ []) (length (terms_of terms history).accounts + place) ≡ opening_at change.joining place }
{}

/// The balances of all accounts are their opening amounts less all debits: each debit is of one account, once.
pub fn openings_less_debits_are_balances()
    ensures { (terms : Terms) (history : List Entry) →
        total_below (length (terms_of terms history).accounts) (λ account. balance_of terms history account)
        ≡ total_below (length (terms_of terms history).accounts) (λ account. opening_at (terms_of terms history).accounts account) -ℤ debits_of (postings_of terms history) }
{}

/// A DIRECT_DEBITING debits what the units cost that its reply grants, by the tariffs of its services: nothing
/// where nothing is granted. One whose units have a cost is made exactly where so much is free of its account, beside
/// what sessions hold of it (RFC 8506, section 8.41).
pub fn debits_pay_for_what_is_granted()
    ensures paid { (terms : Terms) (history : List Entry) (request : CcRequest) → request.kind ≡ Event → request.action ≡ Some DirectDebiting →
        debit_of terms history request ≡ pos (cost_of_reply (terms_of terms history).tariffs (reply_to terms history request)) }
    ensures covered { (terms : Terms) (history : List Entry) (request : CcRequest) (account : ℕ) →
        request.kind ≡ Event → request.action ≡ Some DirectDebiting → account_of (terms_of terms history) request.subscriptions ≡ Some account →
        (reply_to terms history request).code ≡ Success → debit_of terms history request ≤ℤ free_after (terms_of terms history) (postings_of terms history) account }
    ensures made { (terms : Terms) (history : List Entry) (request : CcRequest) (account total : ℕ) → request.kind ≡ Event →
        account_of (terms_of terms history) request.subscriptions ≡ Some account → total_of (terms_of terms history).tariffs request.services ≡ Some total → request.action ≡ Some DirectDebiting →
        pos total ≤ℤ free_after (terms_of terms history) (postings_of terms history) account → (reply_to terms history request).code ≡ Success }
    ensures too_little { (terms : Terms) (history : List Entry) (request : CcRequest) (account total : ℕ) → request.kind ≡ Event →
        account_of (terms_of terms history) request.subscriptions ≡ Some account → total_of (terms_of terms history).tariffs request.services ≡ Some total → request.action ≡ Some DirectDebiting →
        free_after (terms_of terms history) (postings_of terms history) account <ℤ pos total → reply_to terms history request ≡ code_alone CreditLimitReached }
{}

/// A CHECK_BALANCE tells 0 exactly where a DIRECT_DEBITING of the same units would be made, and else 1 (RFC 8506,
/// section 8.6).
pub fn checks_tell_what_is_free()
    ensures enough { (terms : Terms) (history : List Entry) (request : CcRequest) (account total : ℕ) → request.kind ≡ Event →
        account_of (terms_of terms history) request.subscriptions ≡ Some account → total_of (terms_of terms history).tariffs request.services ≡ Some total → request.action ≡ Some CheckBalance →
        pos total ≤ℤ free_after (terms_of terms history) (postings_of terms history) account → (reply_to terms history request).check ≡ Some 0 }
    ensures too_little { (terms : Terms) (history : List Entry) (request : CcRequest) (account total : ℕ) → request.kind ≡ Event →
        account_of (terms_of terms history) request.subscriptions ≡ Some account → total_of (terms_of terms history).tariffs request.services ≡ Some total → request.action ≡ Some CheckBalance →
        free_after (terms_of terms history) (postings_of terms history) account <ℤ pos total → (reply_to terms history request).check ≡ Some 1 }
{}

/// A REFUND_ACCOUNT that succeeds credits what its asked units cost. No other EVENT but a debit moves a balance, and
/// none that is refused.
pub fn refunds_are_debits_below_zero()
    ensures refunded { (terms : Terms) (history : List Entry) (request : CcRequest) (total : ℕ) → request.kind ≡ Event → request.action ≡ Some RefundAccount →
        (reply_to terms history request).code ≡ Success → total_of (terms_of terms history).tariffs request.services ≡ Some total → debit_of terms history request ≡ pos 0 -ℤ pos total }
    ensures checked { (terms : Terms) (history : List Entry) (request : CcRequest) → request.kind ≡ Event → request.action ≡ Some CheckBalance → debit_of terms history request ≡ pos 0 }
    ensures enquired { (terms : Terms) (history : List Entry) (request : CcRequest) → request.kind ≡ Event → request.action ≡ Some PriceEnquiry → debit_of terms history request ≡ pos 0 }
    ensures unnamed { (terms : Terms) (history : List Entry) (request : CcRequest) → request.kind ≡ Event → request.action ≡ None → debit_of terms history request ≡ pos 0 }
    ensures refused { (terms : Terms) (history : List Entry) (request : CcRequest) → request.kind ≡ Event → (reply_to terms history request).code ≢ Success → debit_of terms history request ≡ pos 0 }
{}

/// A reply has no more services than its request, and its units have codes that fit an AVP: so each
/// answer is a message (RFC 6733, section 3).
pub fn replies_fit()
    ensures { (terms : Terms) (history : List Entry) (request : CcRequest) → WithinLimits request.services → Fits (reply_to terms history request) }
{}

/// What a reply grants is time, octets or units: so a receiver with the dictionary reads each AVP of the answer.
pub fn replies_grant_units()
    ensures { (terms : Terms) (history : List Entry) (request : CcRequest) → WithinLimits request.services → GrantsUnits (reply_to terms history request) }
{}

/// No reply is kept for a request exactly where its key is new.
pub fn new_keys_have_no_reply()
    ensures { (terms : Terms) (history : List Entry) (request : CcRequest) → (kept_reply terms history request ≡ None) ↔ IsNew history (key_of request) }
{}

/// The worked example: a session lasts for twice its validity from its last request on (RFC 8506,
/// section 13). A later grant for a service takes the place of the earlier one. What has ended holds
/// nothing more, though the session opens anew.
pub fn sessions_last_twice_their_validity()
    ensures lasts { is_open 600 session (opening ∷ swept 1199999 ∷ []) ≡ true }
    ensures ends { is_open 600 session (opening ∷ swept 1200000 ∷ []) ≡ false }
    ensures shorter_lasts { is_open 60 session (opening ∷ swept 119999 ∷ []) ≡ true }
    ensures shorter_ends { is_open 60 session (opening ∷ swept 120000 ∷ []) ≡ false }
    ensures moves { is_open 600 session (opening ∷ first_update ∷ swept 1200000 ∷ []) ≡ true }
    ensures reserved { reserved_by 600 0 (opening ∷ []) ≡ 25 }
    ensures replaced { reserved_by 600 0 (opening ∷ first_update ∷ []) ≡ 10 }
    ensures of_others { reserved_by 600 1 (opening ∷ first_update ∷ []) ≡ 0 }
    ensures ended { reserved_by 600 0 (opening ∷ first_termination ∷ reopening ∷ []) ≡ 0 }
    ensures anew { open_count 600 (opening ∷ first_termination ∷ reopening ∷ []) ≡ 1 }
{}

/// The worked example: two sessions and two services. Sessions end and hold apart, by Session-Id; services hold
/// apart, by Rating-Group and Service-Identifier. Each request of a session moves its deadline to its own moment,
/// also back and also where it is refused, but not an EVENT (RFC 8506, sections 5.1 and 8.2).
pub fn sessions_and_services_stand_apart()
    ensures kept_for_others { reserved_by 600 0 (wide_opening ∷ narrow_update ∷ []) ≡ 32 }
    ensures prolonged { is_open 600 session (wide_opening ∷ second_opening ∷ swept 1201000 ∷ []) ≡ true }
    ensures not_for_longer { is_open 600 session (wide_opening ∷ second_opening ∷ swept 1700000 ∷ []) ≡ false }
    ensures until_then { is_open 600 session (wide_opening ∷ unrelated_event ∷ swept 1200999 ∷ []) ≡ true }
    ensures not_by_event { is_open 600 session (wide_opening ∷ unrelated_event ∷ swept 1201000 ∷ []) ≡ false }
    ensures held_through_event { reserved_by 600 0 (wide_opening ∷ unrelated_event ∷ []) ≡ 35 }
    ensures other_ended { reserved_by 600 0 (wide_opening ∷ other_opening ∷ other_termination ∷ []) ≡ 35 }
    ensures two_open { open_count 600 (wide_opening ∷ other_opening ∷ []) ≡ 2 }
    ensures back { is_open 600 session (wide_opening ∷ early_update ∷ swept 1200500 ∷ []) ≡ false }
    ensures not_by_other { is_open 600 session (other_opening ∷ []) ≡ false }
    ensures not_prolonged_by_other { is_open 600 session (wide_opening ∷ other_opening ∷ swept 1201000 ∷ []) ≡ false }
    ensures of_group { held_by 600 session (service_name 1 None) (group_opening ∷ []) ≡ 25 }
    ensures of_identifier { held_by 600 session (service_name 1 (Some 1)) (group_opening ∷ []) ≡ 10 }
    ensures none_counted { open_count 600 (failed_opening ∷ []) ≡ 0 }
    ensures none_open { is_open 600 session (failed_opening ∷ []) ≡ false }
    ensures free { free_after small_terms (group_opening ∷ []) 0 ≡ pos 65 }
    ensures opener { session_of 600 session (wide_opening ∷ strange_update ∷ []) ≡ Some (record { account = Some 0; deadline = 1202000 }) }
{}

/// The worked example: the four actions of an EVENT on 3200 octets, which cost 20 (RFC 8506, section 8.41).
pub fn events_are_charged_by_their_action()
    ensures shown { reply_to row_terms [] (event_on (codes "491700000001") DirectDebiting) ≡ success (row_reply None Success (Some 3200) None false ∷ []) }
    ensures debited { balance_of row_terms (taken 1000 (event_on (codes "491700000001") DirectDebiting) ∷ []) 0 ≡ pos 980 }
    ensures refund { reply_to row_terms [] (event_on (codes "491700000001") RefundAccount) ≡ code_alone Success }
    ensures refunded { balance_of row_terms (taken 1000 (event_on (codes "491700000001") RefundAccount) ∷ []) 0 ≡ pos 1020 }
    ensures enough { (reply_to row_terms [] (event_on (codes "491700000001") CheckBalance)).check ≡ Some 0 }
    ensures too_little { (reply_to row_terms [] (event_on (codes "491700000003") CheckBalance)).check ≡ Some 1 }
    ensures unchanged { balance_of row_terms (taken 1000 (event_on (codes "491700000003") CheckBalance) ∷ []) 2 ≡ pos 4 }
    ensures price { (reply_to row_terms [] (event_on (codes "499") PriceEnquiry)).cost ≡ Some (record { digits = pos 20; exponent = negsuc 1; currency = 978 }) }
    ensures unknown { reply_to row_terms [] (event_on (codes "499") DirectDebiting) ≡ code_alone UserUnknown }
{}

/// The worked example: whom a request charges. The first of its Subscription-Ids that is of an account counts, by type
/// and text; an EVENT charges the account that it names, also under the Session-Id of another's session. An account may
/// begin in debt.
pub fn first_known_subscription_is_charged()
    ensures first_known { account_of row_terms (subscription 0 (codes "499") ∷ subscription 0 (codes "491700000004") ∷ subscription 0 (codes "491700000002") ∷ []) ≡ Some 3 }
    ensures of_another_type { account_of row_terms (subscription 1 (codes "491700000001") ∷ []) ≡ None }
    ensures of_another_text { account_of row_terms (subscription 0 (codes "49170000000") ∷ []) ≡ None }
    ensures by_event { balance_of row_terms (opened_by (codes "491700000001") ++ taken 2000 (event_between (codes "491700000004") DirectDebiting) ∷ []) 3 ≡ pos 7 }
    ensures not_the_session { balance_of row_terms (opened_by (codes "491700000001") ++ taken 2000 (event_between (codes "491700000004") DirectDebiting) ∷ []) 0 ≡ pos 1000 }
    ensures in_debt { balance_of gratis_terms [] 0 ≡ negsuc 9 }
{}

/// The worked example: the units of each kind of tariff, among counts of seconds, of octets and of pieces (RFC 8506,
/// sections 8.18 and 8.19): what is asked, what was used, and the code of the AVP in which they are told.
pub fn tariff_kinds_choose_the_count()
    ensures seconds_asked { asked_of (tariff_in Time) counted_service ≡ Some 1 }
    ensures octets_asked { asked_of (tariff_in Octets) counted_service ≡ Some 2 }
    ensures pieces_asked { asked_of (tariff_in Units) counted_service ≡ Some 3 }
    ensures seconds_used { used_of (tariff_in Time) counted_service ≡ 4 }
    ensures octets_used { used_of (tariff_in Octets) counted_service ≡ 5 }
    ensures pieces_used { used_of (tariff_in Units) counted_service ≡ 6 }
    ensures seconds_code { (unit_code Time).0 ≡ 420 }
    ensures octets_code { (unit_code Octets).0 ≡ 421 }
    ensures pieces_code { (unit_code Units).0 ≡ 417 }
{}

/// The worked example: what an INITIAL is granted where a block of 1000 octets costs 5, and what is then reserved. All
/// that is asked is granted where it is free; else the whole blocks that are free, as the last grant; else nothing
/// (RFC 8506, section 5.2).
pub fn openings_grant_what_is_free()
    ensures full { reply_to row_terms [] (initial (codes "491700000001") any_units) ≡ success (granted_units None 5000 false ∷ []) }
    ensures full_held { reserved_of row_terms (opened_by (codes "491700000001")) 0 ≡ 25 }
    ensures cut_down { reply_to row_terms [] (initial (codes "491700000002") any_units) ≡ success (granted_units None 2000 true ∷ []) }
    ensures cut_down_held { reserved_of row_terms (opened_by (codes "491700000002")) 1 ≡ 10 }
    ensures none { reply_to row_terms [] (initial (codes "491700000003") any_units) ≡ success (no_units None CreditLimitReached ∷ []) }
    ensures none_held { reserved_of row_terms (opened_by (codes "491700000003")) 2 ≡ 0 }
    ensures begun { reply_to row_terms [] (initial (codes "491700000004") (octets 4500)) ≡ success (granted_units None 4500 false ∷ []) }
    ensures begun_held { reserved_of row_terms (taken 1000 (initial (codes "491700000004") (octets 4500)) ∷ []) 3 ≡ 25 }
    ensures too_many { reply_to row_terms [] (initial (codes "491700000004") (octets 5500)) ≡ success (granted_units None 5000 true ∷ []) }
    ensures too_many_held { reserved_of row_terms (taken 1000 (initial (codes "491700000004") (octets 5500)) ∷ []) 3 ≡ 25 }
    ensures greatest { reply_to row_terms [] (initial (codes "491700000001") (octets 20000)) ≡ success (granted_units None 10000 false ∷ []) }
    ensures stranger { reply_to row_terms [] (initial (codes "499") any_units) ≡ code_alone UserUnknown }
{}

/// The worked example: an UPDATE ends the reservation of its service, debits what was used, though the balance falls
/// below zero, and grants anew of what is free then. It charges the account that opened the session (RFC 8506,
/// section 5.3).
pub fn updates_debit_and_then_grant()
    ensures granted { reply_to row_terms (opened_by (codes "491700000001")) (update (codes "491700000001") 3000) ≡ success (granted_units None 5000 false ∷ []) }
    ensures debited { balance_of row_terms (updated_by (codes "491700000001") 3000) 0 ≡ pos 985 }
    ensures held { reserved_of row_terms (updated_by (codes "491700000001") 3000) 0 ≡ 25 }
    ensures overdrawn { reply_to row_terms (opened_by (codes "491700000005")) (update (codes "491700000005") 7000) ≡ success (no_units None CreditLimitReached ∷ []) }
    ensures in_debt { balance_of row_terms (updated_by (codes "491700000005") 7000) 4 ≡ negsuc 9 }
    ensures none_held { reserved_of row_terms (updated_by (codes "491700000005") 7000) 4 ≡ 0 }
    ensures still_open { open_sessions_of row_terms (updated_by (codes "491700000005") 7000) ≡ 1 }
    ensures not_open { reply_to row_terms [] (update (codes "491700000001") 3000) ≡ code_alone UnknownSessionId }
    ensures unmoved { balance_of row_terms (taken 1000 (update (codes "491700000001") 3000) ∷ []) 0 ≡ pos 1000 }
    ensures of_opener { balance_of row_terms (opened_by (codes "491700000001") ++ taken 2000 (update (codes "491700000002") 3000) ∷ []) 0 ≡ pos 985 }
    ensures not_of_other { balance_of row_terms (opened_by (codes "491700000001") ++ taken 2000 (update (codes "491700000002") 3000) ∷ []) 1 ≡ pos 12 }
{}

/// The worked example: a TERMINATION debits what was used, ends the reservations of its session and the session. After
/// it the session is unknown, until an INITIAL opens it anew. Nothing is granted to a TERMINATION (RFC 8506,
/// section 5.4).
pub fn terminations_debit_and_end()
    ensures answered { reply_to row_terms (opened_by (codes "491700000001")) (termination (codes "491700000001") 3000) ≡ success (no_units None Success ∷ []) }
    ensures debited { balance_of row_terms (ended_by (codes "491700000001") 3000) 0 ≡ pos 985 }
    ensures released { reserved_of row_terms (ended_by (codes "491700000001") 3000) 0 ≡ 0 }
    ensures none_open { open_sessions_of row_terms (ended_by (codes "491700000001") 3000) ≡ 0 }
    ensures unknown { reply_to row_terms (ended_by (codes "491700000001") 3000) (update (codes "491700000001") 0) ≡ code_alone UnknownSessionId }
    ensures twice { reply_to row_terms (ended_by (codes "491700000001") 3000) (termination (codes "491700000001") 0) ≡ code_alone UnknownSessionId }
    ensures open_already { reply_to row_terms (opened_by (codes "491700000001")) (initial_again (codes "491700000001")) ≡ code_alone UnableToComply }
    ensures anew { reply_to row_terms (ended_by (codes "491700000001") 3000) (initial_again (codes "491700000001")) ≡ success (granted_units None 5000 false ∷ []) }
    ensures anew_held { reserved_of row_terms (ended_by (codes "491700000001") 3000 ++ taken 3000 (initial_again (codes "491700000001")) ∷ []) 0 ≡ 25 }
    ensures anew_open { open_sessions_of row_terms (ended_by (codes "491700000001") 3000 ++ taken 3000 (initial_again (codes "491700000001")) ∷ []) ≡ 1 }
    ensures asked { reply_to row_terms (opened_by (codes "491700000001")) (request_of 2 Termination None (codes "491700000001") (row_service None any_units 3000 ∷ []))
        ≡ success (no_units None Success ∷ []) }
    ensures asked_held { reserved_of row_terms (opened_by (codes "491700000001") ++ taken 2000 (request_of 2 Termination None (codes "491700000001") (row_service None any_units 3000 ∷ [])) ∷ []) 0 ≡ 0 }
{}

/// The worked example: a sweep ends a session twice its validity after its last request, and what it held is free again
/// (RFC 8506, section 13).
pub fn sweeps_release_what_was_held()
    ensures too_early { reserved_of row_terms (opened_by (codes "491700000001") ++ Sweep (record { 0 = 1200999 }) ∷ []) 0 ≡ 25 }
    ensures released { reserved_of row_terms (opened_by (codes "491700000001") ++ Sweep (record { 0 = 1201000 }) ∷ []) 0 ≡ 0 }
    ensures ended { ended_sessions row_terms (opened_by (codes "491700000001")) (record { 0 = 1201000 }) ≡ 1 }
    ensures unmoved { balance_of row_terms (opened_by (codes "491700000001") ++ Sweep (record { 0 = 1201000 }) ∷ []) 0 ≡ pos 1000 }
    ensures unknown { reply_to row_terms (opened_by (codes "491700000001") ++ Sweep (record { 0 = 1201000 }) ∷ []) (update (codes "491700000001") 3000) ≡ code_alone UnknownSessionId }
    ensures after_update { reserved_of row_terms (updated_by (codes "491700000001") 3000 ++ Sweep (record { 0 = 1201000 }) ∷ []) 0 ≡ 25 }
{}

/// The worked example: how many sessions a sweep ends. An UPDATE moves the deadline, also back, and an EVENT does not. A
/// deadline may lie beyond the last moment there is. Full is answered only where a session is due.
pub fn sweeps_end_sessions_at_their_deadline()
    ensures too_early { sweep_answer (row_book 10 (opened_by (codes "491700000001"))) (record { 0 = 1200999 }) ≡ Ok 0 }
    ensures due { sweep_answer (row_book 10 (opened_by (codes "491700000001"))) (record { 0 = 1201000 }) ≡ Ok 1 }
    ensures moved { sweep_answer (row_book 10 (opened_then 500000 (update (codes "491700000001") 0))) (record { 0 = 1699999 }) ≡ Ok 0 }
    ensures moved_due { sweep_answer (row_book 10 (opened_then 500000 (update (codes "491700000001") 0))) (record { 0 = 1700000 }) ≡ Ok 1 }
    ensures moved_back { sweep_answer (row_book 10 (opened_then 500 (update (codes "491700000001") 0))) (record { 0 = 1200500 }) ≡ Ok 1 }
    ensures beside_event { sweep_answer (row_book 10 (opened_then 900000 (event_between (codes "491700000001") DirectDebiting))) (record { 0 = 1201000 }) ≡ Ok 1 }
    ensures beyond { sweep_answer (row_book 10 (taken 18446744073709551615 (initial (codes "491700000001") any_units) ∷ [])) (record { 0 = 18446744073709551615 }) ≡ Ok 0 }
    ensures full { sweep_answer (row_book 1 (opened_by (codes "491700000001"))) (record { 0 = 1201000 }) ≡ Err (Full 1) }
    ensures not_full { sweep_answer (row_book 1 (opened_by (codes "491700000001"))) (record { 0 = 1200999 }) ≡ Ok 0 }
{}

/// The worked example: the services of a request are granted in order, each of what those before it leave free, and
/// each has a Result-Code of its own (RFC 8506, section 5.1.2). One without a tariff has no units and is not charged.
pub fn services_share_what_is_free()
    ensures opened { reply_to row_terms [] two_services_initial ≡ success (granted_units None 5000 false ∷ no_units (Some 1) CreditLimitReached ∷ []) }
    ensures opened_held { reserved_of row_terms (taken 1000 two_services_initial ∷ []) 3 ≡ 25 }
    ensures updated { reply_to row_terms (taken 1000 two_services_initial ∷ []) two_services_update ≡ success (granted_units None 4000 true ∷ no_units (Some 1) Success ∷ []) }
    ensures debited { balance_of row_terms (taken 1000 two_services_initial ∷ taken 2000 two_services_update ∷ []) 3 ≡ pos 22 }
    ensures updated_held { reserved_of row_terms (taken 1000 two_services_initial ∷ taken 2000 two_services_update ∷ []) 3 ≡ 20 }
    ensures of_nothing { reply_to row_terms [] (request_of 0 Initial None (codes "491700000005") (row_service None any_units 0 ∷ row_service (Some 1) (octets 0) 0 ∷ []))
        ≡ success (granted_units None 5000 false ∷ granted_units (Some 1) 0 false ∷ []) }
    ensures of_debt { reply_to row_terms (updated_by (codes "491700000005") 7000) (request_of 2 Update None (codes "491700000005") (row_service None (octets 0) 0 ∷ []))
        ≡ success (no_units None CreditLimitReached ∷ []) }
    ensures gratis { reply_to gratis_terms [] (initial (codes "491700000001") (octets 7000)) ≡ success (granted_units None 7000 false ∷ []) }
    ensures unrated { reply_to row_terms [] unrated_initial ≡ success (unrated_reply ∷ granted_units None 5000 false ∷ []) }
    ensures uncharged { balance_of row_terms (taken 1000 unrated_initial ∷ []) 0 ≡ pos 1000 }
{}

/// The worked example: where a request has a service of the command itself, its Result-Code is the command's. An
/// INITIAL that is refused so opens no session and reserves nothing.
pub fn bare_services_decide_the_result()
    ensures granted { reply_to bare_terms [] (bare_initial (codes "491700000001")) ≡ bare_reply Success (Some 5000) (Some 600) }
    ensures opened { open_sessions_of bare_terms (taken 1000 (bare_initial (codes "491700000001")) ∷ []) ≡ 1 }
    ensures refused { reply_to bare_terms [] (bare_initial (codes "491700000003")) ≡ bare_reply CreditLimitReached None None }
    ensures not_opened { open_sessions_of bare_terms (taken 1000 (bare_initial (codes "491700000003")) ∷ []) ≡ 0 }
    ensures not_held { reserved_of bare_terms (taken 1000 (bare_initial (codes "491700000003")) ∷ []) 2 ≡ 0 }
    ensures beside_granted { (reply_to bare_terms [] half_bare_initial).code ≡ CreditLimitReached }
    ensures beside_held { reserved_of bare_terms (taken 1000 half_bare_initial ∷ []) 3 ≡ 0 }
{}

/// The worked example: an EVENT under the Session-Id of an open session is charged beside it. It leaves the session
/// open and its reservation as it was, and what is reserved is not free for it (RFC 8506, section 6).
pub fn events_leave_sessions_alone()
    ensures debited { balance_of row_terms (opened_by (codes "491700000001") ++ taken 2000 (event_between (codes "491700000001") DirectDebiting) ∷ []) 0 ≡ pos 980 }
    ensures held { reserved_of row_terms (opened_by (codes "491700000001") ++ taken 2000 (event_between (codes "491700000001") DirectDebiting) ∷ []) 0 ≡ 25 }
    ensures still_open { open_sessions_of row_terms (opened_by (codes "491700000001") ++ taken 2000 (event_between (codes "491700000001") DirectDebiting) ∷ []) ≡ 1 }
    ensures not_free { reply_to row_terms (opened_by (codes "491700000004")) (event_between (codes "491700000004") DirectDebiting) ≡ code_alone CreditLimitReached }
    ensures not_enough { (reply_to row_terms (opened_by (codes "491700000004")) (event_between (codes "491700000004") CheckBalance)).check ≡ Some 1 }
{}

/// A request of a session debits in full what its used units cost, also where less is free: an INITIAL of a session that
/// is not open, with an account that the site knows, and an UPDATE or a TERMINATION of an open session (RFC 8506,
/// sections 5.3 and 5.4). Each of its services is paid for: in an open session at the tariff of its last grant there, and
/// where there was none at the tariff that holds.
pub fn sessions_pay_for_what_is_used()
    ensures initial { (terms : Terms) (history : List Entry) (request : CcRequest) (account : ℕ) → request.kind ≡ Initial →
        is_open terms.validity request.session (postings_of terms history) ≡ false → account_of (terms_of terms history) request.subscriptions ≡ Some account →
        debit_of terms history request ≡ pos (used_total (tariff_of (terms_of terms history).tariffs) request.services) }
    ensures update { (terms : Terms) (history : List Entry) (request : CcRequest) → request.kind ≡ Update →
        is_open terms.validity request.session (postings_of terms history) ≡ true →
        debit_of terms history request ≡ pos (used_total (price_at (terms_of terms history).tariffs (postings_of terms history) request.session) request.services) }
    ensures termination { (terms : Terms) (history : List Entry) (request : CcRequest) → request.kind ≡ Termination →
        is_open terms.validity request.session (postings_of terms history) ≡ true →
        debit_of terms history request ≡ pos (used_total (price_at (terms_of terms history).tariffs (postings_of terms history) request.session) request.services) }
    ensures each { (price : Service → Option Tariff) (services : List Service) →
        used_total price services ≡ sum_by (λ service. used_cost (price service) service) services }
{}

/// All other requests of sessions are refused: they debit nothing and reserve nothing.
pub fn other_requests_are_refused()
    ensures open_already { (terms : Terms) (history : List Entry) (request : CcRequest) → request.kind ≡ Initial →
        is_open terms.validity request.session (postings_of terms history) ≡ true → IsRefused terms history request UnableToComply }
    ensures no_account { (terms : Terms) (history : List Entry) (request : CcRequest) → request.kind ≡ Initial →
        is_open terms.validity request.session (postings_of terms history) ≡ false → account_of (terms_of terms history) request.subscriptions ≡ None →
        IsRefused terms history request UserUnknown }
    ensures update { (terms : Terms) (history : List Entry) (request : CcRequest) → request.kind ≡ Update →
        is_open terms.validity request.session (postings_of terms history) ≡ false → IsRefused terms history request UnknownSessionId }
    ensures termination { (terms : Terms) (history : List Entry) (request : CcRequest) → request.kind ≡ Termination →
        is_open terms.validity request.session (postings_of terms history) ≡ false → IsRefused terms history request UnknownSessionId }
{}

/// What a request reserves adds up to no more than is free for it: that is what is free of its account once the
/// reservations of its services have ended and their used units are debited, or nothing where that is below zero. So
/// no grant brings what is free below zero (RFC 8506, section 5.1).
pub fn grants_are_of_what_is_free()
    ensures most { (terms : Terms) (history : List Entry) (request : CcRequest) → fault_of (terms_of terms history).tariffs ≡ None →
        pos (held_in (grants_after (terms_of terms history) (postings_of terms history) request)) ≤ℤ int_max (free_to_grant (terms_of terms history) (postings_of terms history) request) (pos 0) }
    ensures left { (terms : Terms) (history : List Entry) (moment : Moment) (request : CcRequest) (account : ℕ) →
        charged_account (terms_of terms history) (postings_of terms history) request ≡ Some account →
        free_after (terms_of terms (history ++ Take moment request ∷ [])) (postings_of terms (history ++ Take moment request ∷ [])) account
        ≡ free_to_grant (terms_of terms history) (postings_of terms history) request -ℤ pos (held_in (grants_after (terms_of terms history) (postings_of terms history) request)) }
    ensures not_below { (terms : Terms) (history : List Entry) (moment : Moment) (request : CcRequest) (account : ℕ) → fault_of (terms_of terms history).tariffs ≡ None →
        charged_account (terms_of terms history) (postings_of terms history) request ≡ Some account → pos 0 ≤ℤ free_to_grant (terms_of terms history) (postings_of terms history) request →
        pos 0 ≤ℤ free_after (terms_of terms (history ++ Take moment request ∷ [])) (postings_of terms (history ++ Take moment request ∷ [])) account }
{}

/// What a reply grants to a session is reserved: what an UPDATE reserves, and an INITIAL that is answered
/// DIAMETER_SUCCESS, is what the units cost that the reply grants, by the tariffs of its services. A TERMINATION is
/// granted nothing.
pub fn grants_are_reserved()
    ensures opening { (terms : Terms) (history : List Entry) (request : CcRequest) → request.kind ≡ Initial → (reply_to terms history request).code ≡ Success →
        held_in (grants_after (terms_of terms history) (postings_of terms history) request) ≡ cost_of_reply (terms_of terms history).tariffs (reply_to terms history request) }
    ensures update { (terms : Terms) (history : List Entry) (request : CcRequest) → request.kind ≡ Update →
        held_in (grants_after (terms_of terms history) (postings_of terms history) request) ≡ cost_of_reply (terms_of terms history).tariffs (reply_to terms history request) }
    ensures termination { (terms : Terms) (history : List Entry) (request : CcRequest) → request.kind ≡ Termination →
        cost_of_reply (terms_of terms history).tariffs (reply_to terms history request) ≡ 0 }
{}

/// A session that is not open holds nothing for any service: what was reserved for it is free again. Where no session
/// is open, nothing is reserved of any account.
pub fn ended_sessions_hold_nothing()
    ensures service { (terms : Terms) (history : List Entry) (session : List ℕ) (name : ServiceName) →
        is_open terms.validity session (postings_of terms history) ≡ false → held_by terms.validity session name (postings_of terms history) ≡ 0 }
    ensures account { (terms : Terms) (history : List Entry) (account : ℕ) → open_sessions_of terms history ≡ 0 → reserved_of terms history account ≡ 0 }
{}

/// A request leaves each session but its own as it is: open or not, with its account, its deadline and what it holds.
/// An EVENT leaves its own so too (RFC 8506, section 6).
pub fn requests_leave_other_sessions_alone()
    ensures session { (terms : Terms) (history : List Entry) (moment : Moment) (request : CcRequest) (session : List ℕ) → request.session ≢ session →
        session_of terms.validity session (postings_of terms (history ++ Take moment request ∷ [])) ≡ session_of terms.validity session (postings_of terms history) }
    ensures held { (terms : Terms) (history : List Entry) (moment : Moment) (request : CcRequest) (session : List ℕ) (name : ServiceName) → request.session ≢ session →
        held_by terms.validity session name (postings_of terms (history ++ Take moment request ∷ [])) ≡ held_by terms.validity session name (postings_of terms history) }
    ensures by_event { (terms : Terms) (history : List Entry) (moment : Moment) (request : CcRequest) (session : List ℕ) → request.kind ≡ Event →
        session_of terms.validity session (postings_of terms (history ++ Take moment request ∷ [])) ≡ session_of terms.validity session (postings_of terms history) }
    ensures held_by_event { (terms : Terms) (history : List Entry) (moment : Moment) (request : CcRequest) (session : List ℕ) (name : ServiceName) → request.kind ≡ Event →
        held_by terms.validity session name (postings_of terms (history ++ Take moment request ∷ [])) ≡ held_by terms.validity session name (postings_of terms history) }
{}

/// A request touches no account but the one that it charges: the balance of every other stays, and so does what sessions
/// hold of it. An EVENT leaves alone what they hold of its own account too.
pub fn requests_leave_other_accounts_alone()
    ensures balance { (terms : Terms) (history : List Entry) (moment : Moment) (request : CcRequest) (account : ℕ) →
        charged_account (terms_of terms history) (postings_of terms history) request ≢ Some account →
        balance_of terms (history ++ Take moment request ∷ []) account ≡ balance_of terms history account }
    ensures reserved { (terms : Terms) (history : List Entry) (moment : Moment) (request : CcRequest) (account : ℕ) →
        charged_account (terms_of terms history) (postings_of terms history) request ≢ Some account →
        reserved_of terms (history ++ Take moment request ∷ []) account ≡ reserved_of terms history account }
    ensures by_event { (terms : Terms) (history : List Entry) (moment : Moment) (request : CcRequest) (account : ℕ) → request.kind ≡ Event →
        reserved_of terms (history ++ Take moment request ∷ []) account ≡ reserved_of terms history account }
{}

/// A request leaves what its session holds for the services that it does not name, unless it ends the session.
pub fn requests_leave_other_services_alone()
    ensures { (terms : Terms) (history : List Entry) (moment : Moment) (request : CcRequest) (name : ServiceName) →
        request.kind ≢ Termination → All (λ service. name_of service ≢ name) request.services →
        held_by terms.validity request.session name (postings_of terms (history ++ Take moment request ∷ [])) ≡ held_by terms.validity request.session name (postings_of terms history) }
{}

/// A sweep ends exactly the sessions whose deadline is at most its moment, and what they held is free again. All others
/// stay as they are, with what they hold (RFC 8506, section 13). Moments need not rise.
pub fn sweeps_end_what_is_due()
    ensures ended { (terms : Terms) (history : List Entry) (moment : Moment) (session : List ℕ) (opened : Opened) →
        session_of terms.validity session (postings_of terms history) ≡ Some opened → opened.deadline ≤ moment.0 →
        session_of terms.validity session (postings_of terms (history ++ Sweep moment ∷ [])) ≡ None }
    ensures released { (terms : Terms) (history : List Entry) (moment : Moment) (session : List ℕ) (name : ServiceName) (opened : Opened) →
        session_of terms.validity session (postings_of terms history) ≡ Some opened → opened.deadline ≤ moment.0 →
        held_by terms.validity session name (postings_of terms (history ++ Sweep moment ∷ [])) ≡ 0 }
    ensures lasts { (terms : Terms) (history : List Entry) (moment : Moment) (session : List ℕ) (opened : Opened) →
        session_of terms.validity session (postings_of terms history) ≡ Some opened → moment.0 < opened.deadline →
        session_of terms.validity session (postings_of terms (history ++ Sweep moment ∷ [])) ≡ Some opened }
    ensures held { (terms : Terms) (history : List Entry) (moment : Moment) (session : List ℕ) (name : ServiceName) (opened : Opened) →
        session_of terms.validity session (postings_of terms history) ≡ Some opened → moment.0 < opened.deadline →
        held_by terms.validity session name (postings_of terms (history ++ Sweep moment ∷ [])) ≡ held_by terms.validity session name (postings_of terms history) }
    ensures closed { (terms : Terms) (history : List Entry) (moment : Moment) (session : List ℕ) →
        session_of terms.validity session (postings_of terms history) ≡ None →
        session_of terms.validity session (postings_of terms (history ++ Sweep moment ∷ [])) ≡ None }
{}

/// What a sweep is answered is by how many the open sessions are fewer. A second sweep at its moment ends none.
pub fn sweeps_end_a_session_once()
    ensures counted { (terms : Terms) (history : List Entry) (moment : Moment) →
        open_sessions_of terms (history ++ Sweep moment ∷ []) + ended_sessions terms history moment ≡ open_sessions_of terms history }
    ensures again { (ledger : Ledger) (moment : Moment) (ended : ℕ) →
        sweep_answer ledger moment ≡ Ok ended → sweep_answer (after_sweep ledger moment) moment ≡ Ok 0 }
{}

/// What a session holds for a service is of one grant: each later grant takes the place of the one before. So it costs
/// no more than the greatest grant of a tariff that the service has had; where the terms never change, of its tariff.
pub fn services_are_held_once()
    ensures once { (terms : Terms) (history : List Entry) (session : List ℕ) (name : ServiceName) →
        All HasLimits history → grants_alive terms.validity session name (postings_of terms history) ≤ 1 }
    ensures limited { (terms : Terms) (history : List Entry) (session : List ℕ) (name : ServiceName) (most : ℕ) → All HasLimits history →
        ((before after : List Entry) → history ≡ before ++ after → GrantsAtMost (terms_of terms before).tariffs name most) →
        held_by terms.validity session name (postings_of terms history) ≤ most }
    ensures most { (terms : Terms) (history : List Entry) (session : List ℕ) (name : ServiceName) (tariff : Tariff) →
        All HasLimits history → All KeepsTerms history → fault_of terms.tariffs ≡ None → find (rates name.group name.ident) terms.tariffs ≡ Some tariff →
        held_by terms.validity session name (postings_of terms history) ≤ cost_of tariff tariff.greatest }
{}
