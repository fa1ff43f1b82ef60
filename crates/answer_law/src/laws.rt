//! Worked examples: the answers of a front, octet for octet. No function here does anything.

ghost use Rattle.std.specs.Prelude.{◌≡◌, [], ◌∷◌};
ghost use Rattle.dia_avp.specs.AvpExample.{from_hex};
ghost use Rattle.answer_law.specs.AnswerExample.{answer_another_content, answer_balance, answer_debit, answer_debit_without_a_tariff, answer_end_of_session, answer_exhausted, answer_last_units, answer_not_open, answer_one_without_a_tariff, answer_open_already, answer_price, answer_refund, answer_two_services, answer_unknown_subscriber, answer_with_credit, answer_with_none, answer_with_the_rest, answer_without_number, answered, balance, debit, debit_without_a_tariff, end_of_session, exhausted, last_units, not_open, one_without_a_tariff, open_already, price, refund, two_services, unknown_subscriber, with_credit, with_none, with_the_rest, without_number};

/// Requests of sessions. One opens with credit, with the last units, and with none. One has two services, of which the second has
/// no credit, and is updated. One has a service without a tariff, and runs dry. One ends. What a service is refused for stands
/// inside its Multiple-Services-Credit-Control (RFC 8506, sections 5 and 8.16).
pub fn sessions_are_answered_octet_for_octet()
    ensures with_credit { answered [] with_credit ≡ from_hex answer_with_credit }
    ensures with_the_rest { answered [] with_the_rest ≡ from_hex answer_with_the_rest }
    ensures with_none { answered [] with_none ≡ from_hex answer_with_none }
    ensures two_services { answered [] two_services ≡ from_hex answer_two_services }
    ensures last_units { answered (two_services ∷ []) last_units ≡ from_hex answer_last_units }
    ensures one_without_a_tariff { answered [] one_without_a_tariff ≡ from_hex answer_one_without_a_tariff }
    ensures exhausted { answered (one_without_a_tariff ∷ []) exhausted ≡ from_hex answer_exhausted }
    ensures end_of_session { answered (with_credit ∷ []) end_of_session ≡ from_hex answer_end_of_session }
{}

/// Requests of which no service is served: the command has its result alone (RFC 8506, section 9).
pub fn results_are_told_alone()
    ensures unknown_subscriber { answered [] unknown_subscriber ≡ from_hex answer_unknown_subscriber }
    ensures open_already { answered (with_the_rest ∷ []) open_already ≡ from_hex answer_open_already }
    ensures not_open { answered (unknown_subscriber ∷ []) not_open ≡ from_hex answer_not_open }
    ensures debit_without_a_tariff { answered [] debit_without_a_tariff ≡ from_hex answer_debit_without_a_tariff }
{}

/// One-time events: a debit, a refund, a price enquiry, and a balance check (RFC 8506, section 6).
pub fn events_are_answered_octet_for_octet()
    ensures debit { answered [] debit ≡ from_hex answer_debit }
    ensures refund { answered [] refund ≡ from_hex answer_refund }
    ensures price { answered [] price ≡ from_hex answer_price }
    ensures balance { answered [] balance ≡ from_hex answer_balance }
{}

/// Requests with the Session-Id and CC-Request-Number of a debit before them (RFC 8506, section 8.2): the debit once more has the
/// same answer, and another one DIAMETER_UNABLE_TO_COMPLY alone.
pub fn repeats_are_answered_by_what_they_ask()
    ensures repeat { answered (debit ∷ []) debit ≡ from_hex answer_debit }
    ensures another_content { answered (debit ∷ []) debit_without_a_tariff ≡ from_hex answer_another_content }
{}

/// A request that the front refuses: E is set, and Failed-AVP has the AVP at fault (RFC 6733, sections 7.2 and 7.5).
pub fn refusals_name_the_avp_at_fault()
    ensures without_number { answered [] without_number ≡ from_hex answer_without_number }
{}
