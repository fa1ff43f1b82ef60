//! What a front answers, octet for octet (RFC 8506): worked examples, computed from the definitions of what is read in a request
//! (`cc_view`), of the account machine's reply and the book (`cc_book`), of the answer's octets (`cc_view`, `dia_message`), and of
//! what a front does with them (`front_core`). No function here does anything, and nothing stands on it.
//!
//! - [`sessions_are_answered_octet_for_octet`]: INITIAL, UPDATE and TERMINATION, with Multiple-Services-Credit-Control.
//! - [`events_are_answered_octet_for_octet`]: a debit, a refund, a price enquiry, and a balance check.
//! - [`results_are_told_alone`]: requests of which no service is served.
//! - [`repeats_are_answered_by_what_they_ask`]: requests whose key the book has.
//! - [`refusals_name_the_avp_at_fault`]: a request that breaks the grammar.
//!
//! The texts of requests and answers are in `specs/AnswerExample`. Fourteen of these requests stand in
//! `examples/sessions/answers.schedule` too, and its stored run has the same answers.
#![tactic(auto)]

mod laws;

pub use laws::{
    events_are_answered_octet_for_octet, refusals_name_the_avp_at_fault,
    repeats_are_answered_by_what_they_ask, results_are_told_alone,
    sessions_are_answered_octet_for_octet,
};
