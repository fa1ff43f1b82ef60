//! Laws of a front, in the words of a reader who knows none of its code.

ghost use Rattle.std.specs.Prelude.{◌≡◌, ◌⊎◌, ℕ, ◌+◌, true, List, [], ◌∷◌, ◌++◌, All, Some};
ghost use Rattle.dia_base.specs.declared.number.ConnId.{ConnId};
ghost use Rattle.dia_base.specs.declared.number.Moment.{Moment};
ghost use Rattle.dia_message.specs.declared.message.Message.{Message};
ghost use Rattle.dia_message.specs.Traffic.{Traffic};
ghost use Rattle.cc_book.specs.declared.entry.Entry.{Entry};
ghost use Rattle.cc_book.specs.History.{IsLegal};
ghost use Rattle.cc_book.specs.Taking.{Ledger};
ghost use Rattle.front_core.specs.declared.site.FrontSite.{FrontSite};
ghost use Rattle.front_core.specs.Answered.{IsBookAnswer, IsRefusedAtCharge, IsRefusedAtArrival};
ghost use Rattle.front_core.specs.ChargeCases.{IsCharge};
ghost use Rattle.front_core.specs.Charging.{answer_in, book_after};
ghost use Rattle.front_core.specs.Counts.{answers_with, requests_with, unanswered_with};
ghost use Rattle.front_core.specs.FrontState.{FrontState, is_among};
ghost use Rattle.front_core.specs.FrontStep.{after_arrival, after_charge, after_emit, after_pick, after_refusal, preparation_at, sent_at_arrival};
ghost use Rattle.front_core.specs.ShortRuns.{busy_front, change, charge, debit, emit, lost, no_change, pick, refuse, restart, second_emits, second_picks, second_up, sent_after, silence, sweep, told, unknown_user, up};

use cc_view::first_debit;

/// A charge is a refusal, a repeat, a refusal for want of room, or a take, and there is no other case.
pub fn charges_by_four_cases()
    ensures { (site : FrontSite) (ledger : Ledger) (moment : Moment) (message : Message) →
        IsCharge site ledger moment message (answer_in site ledger message (preparation_at site message)) (book_after ledger moment (preparation_at site message)) }
{}

/// What a charge answers is the book's reply as the book is then, or a refusal with a cause.
pub fn a_charge_answers_or_refuses()
    ensures { (site : FrontSite) (ledger book : Ledger) (moment : Moment) (message answer : Message) →
        IsLegal ledger.terms ledger.history → IsCharge site ledger moment message answer book →
        IsBookAnswer site book message answer ⊎ IsRefusedAtCharge site ledger message answer }
{}

/// An answer that the book stands behind stays one, however the history grows.
pub fn answers_stay()
    ensures { (site : FrontSite) (ledger : Ledger) (more : List Entry) (message answer : Message) →
        IsBookAnswer site ledger message answer → IsBookAnswer site (record ledger { history = ledger.history ++ more }) message answer }
{}

/// What a front sends when a message arrives goes to the connection of the message, and refuses it with a cause.
pub fn an_arrival_is_refused_with_cause()
    ensures { (front : FrontState) (conn : ConnId) (message : Message) →
        All (λ item. (item.0 ≡ conn) × IsRefusedAtArrival front message item.1) (sent_at_arrival front conn message) }
{}

/// A front loses no request, counted by connection and identifiers: each that comes waits for its answer, or is refused
/// at once. It waits through a pick, a charge and a refusal, and where its answer is sent it goes out on a connection
/// that is up. Only a restart forgets it.
pub fn requests_wait_for_their_answers()
    ensures arrival { (front : FrontState) (on : ConnId) (message : Message) (conn : ConnId) (hop end : ℕ) →
        unanswered_with (after_arrival front on message) conn hop end + answers_with (sent_at_arrival front on message) conn hop end
        ≡ unanswered_with front conn hop end + requests_with ((on, message) ∷ []) conn hop end }
    ensures pick { (front next : FrontState) (worker : ℕ) (conn : ConnId) (hop end : ℕ) → after_pick front worker ≡ Some next →
        unanswered_with next conn hop end ≡ unanswered_with front conn hop end }
    ensures charge { (front : FrontState) (ledger : Ledger) (moment : Moment) (worker : ℕ) (turn : FrontState × Ledger) (conn : ConnId) (hop end : ℕ) →
        after_charge front ledger moment worker ≡ Some turn → unanswered_with turn.0 conn hop end ≡ unanswered_with front conn hop end }
    ensures refusal { (front next : FrontState) (worker : ℕ) (conn : ConnId) (hop end : ℕ) → after_refusal front worker ≡ Some next →
        unanswered_with next conn hop end ≡ unanswered_with front conn hop end }
    ensures emit { (front : FrontState) (worker : ℕ) (turn : FrontState × Traffic) (conn : ConnId) (hop end : ℕ) →
        after_emit front worker ≡ Some turn → is_among front.connections conn ≡ true →
        unanswered_with turn.0 conn hop end + answers_with turn.1 conn hop end ≡ unanswered_with front conn hop end }
{}

/// Worked examples: what a front with one worker, at which one request may wait, sends at the last of these events, and
/// how many entries the book has then.
pub fn fronts_answer_what_they_charge()
    // A sweep between the charge and its answer changes neither.
    ensures charged { told 1 1 (up ∷ debit ∷ pick ∷ charge ∷ sweep ∷ emit ∷ []) ≡ (sent_after 5 unknown_user, 1) }
    // Nor does a change of the terms, which is an entry of the book where it is made.
    ensures changed { told 1 1 (up ∷ debit ∷ pick ∷ charge ∷ change ∷ no_change ∷ emit ∷ []) ≡ (sent_after 6 unknown_user, 2) }
    ensures full { told 1 1 (up ∷ debit ∷ debit ∷ []) ≡ (sent_after 2 busy_front, 0) }
    // What is refused by order is not charged.
    ensures ordered { told 1 1 (up ∷ debit ∷ pick ∷ refuse ∷ charge ∷ emit ∷ []) ≡ (sent_after 5 busy_front, 0) }
    // An order does not apply before a request is picked, nor when it is charged.
    ensures too_early_or_late { told 1 1 (refuse ∷ up ∷ debit ∷ refuse ∷ pick ∷ charge ∷ refuse ∷ emit ∷ []) ≡ (sent_after 7 unknown_user, 1) }
    // The answer goes on the connection of its request, which is up again, and not on a newer one.
    ensures up_again { told 1 1 (up ∷ debit ∷ lost ∷ up ∷ second_up ∷ pick ∷ charge ∷ emit ∷ []) ≡ (sent_after 7 unknown_user, 1) }
{
    first_debit();
}

/// Worked examples: a front with two workers, at which three requests may wait, sends nothing of what is lost with a
/// connection or at a restart. What was charged stays in the book.
pub fn lost_connections_get_no_answers()
    ensures before_the_charge { told 2 3 (up ∷ debit ∷ pick ∷ lost ∷ charge ∷ emit ∷ []) ≡ (silence 6, 1) }
    ensures after_the_charge { told 2 3 (up ∷ debit ∷ pick ∷ charge ∷ lost ∷ second_up ∷ emit ∷ []) ≡ (silence 7, 1) }
    ensures at_a_restart { told 2 3 (up ∷ debit ∷ debit ∷ debit ∷ pick ∷ charge ∷ second_picks ∷ restart ∷ up ∷ emit ∷ second_emits ∷ pick ∷ charge ∷ emit ∷ []) ≡ (silence 14, 1) }
    // A message on a connection that is not up is lost.
    ensures on_no_connection { told 2 3 (debit ∷ up ∷ pick ∷ charge ∷ emit ∷ []) ≡ (silence 5, 0) }
{
    first_debit();
}
