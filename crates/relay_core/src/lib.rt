//! One relay: what it decides on a request, what it keeps of it, and where answers go (RFC 6733,
//! sections 2.8.1, 5.5.4 and 6). An event comes in, and what is sent goes out; nothing here waits.
//!
//! - [`Relay`]: a relay with its events, `conn_up`, `on_message`, `conn_lost` and `restart`, and `run` over a
//!   list of [`RelayEvent`]. After want of memory, and every other [`RelayError`], it is as it was.
//! - [`MatchingRelay`]: a relay that compares End-to-End Identifiers too, or does not ([`Matching`]).
//! - [`PartingRelay`]: the same where peers leave: those that have said goodbye get no new request.
//! - [`RelaySite`]: what it is set up with; [`RelayNode`]: the same with the peers that are up.
//! - [`FailoverChoice`], [`PlannedFailover`]: what is prepared before a connection is given up.
//! - [`descending_goes_on`], [`descendants_read_alike`], [`loops_are_not_forwarded`],
//!   [`loops_are_refused`], [`returning_requests_loop`], [`relays_keep_their_promise`],
//!   [`identifiers_come_back_late`], [`matched_runs_are_runs`], [`runs_by_hop_are_runs`],
//!   [`answers_have_the_end_of_their_request`], [`parting_relays_keep_their_promise`],
//!   [`requests_go_to_those_that_stay`], [`answers_of_those_who_leave_are_answers`],
//!   [`relays_that_nobody_leaves_are_relays`]: laws, functions without a
//!   body. `rule_examples` has a worked example for each rule, `step_examples` one for each case of an event.
//!
//! The thirteen rules stand in `specs/Verdict`, with `specs/NextHop`; what may change in a request in
//! `specs/Forwarding`; a message that comes in `specs/RelayStep`; a lost connection in `specs/Failover`, with
//! its plan in `specs/FailoverPlan`; a run in `specs/RelayRun`, and what is promised of it in
//! `specs/Promise`, over the acts of `specs/Acts`; End-to-End Identifiers in `specs/AnswerMatching` and
//! `specs/MatchedRun`; peers that leave in `specs/Staying` and `specs/PartingRun`.
//!
//! ```
//! use dia_avp::ViewWire;
//! use dia_base::{ConnId, NodeNo};
//! use dia_message::{Message, Out};
//! use relay_core::{Relay, RelayError, RelaySite};
//! use std::alloc::Global;
//!
//! fn first_sent(alloc: Global, site: RelaySite, request: Message) -> Result<Out, RelayError> {
//!     let mut relay = Relay::new(alloc, site)?;
//!     relay.conn_up(NodeNo(4), ConnId(1))?;
//!     relay.conn_up(NodeNo(2), ConnId(2))?;
//!     relay.on_message::<ViewWire>(alloc, ConnId(1), request)
//! }
//! ```
#![tactic(auto)]

mod answering;
mod deciding;
mod error;
mod failover;
mod forwarding;
mod laws;
mod matched_run;
mod matching;
mod node;
mod outgoing;
mod parting;
mod reading;
mod recording;
mod relay;
mod routing;
mod rule_examples;
mod run;
mod step_examples;

pub use error::RelayError;
pub use failover::{FailoverChoice, PlannedFailover};
pub use laws::{
    answers_have_the_end_of_their_request, answers_of_those_who_leave_are_answers,
    descendants_read_alike, descending_goes_on, first_forwarding, identifiers_come_back_late,
    loops_are_not_forwarded, loops_are_refused, matched_runs_are_runs,
    parting_relays_keep_their_promise, relays_keep_their_promise,
    relays_that_nobody_leaves_are_relays, requests_go_to_those_that_stay, returning_requests_loop,
    runs_by_hop_are_runs,
};
pub use matching::{Matching, MatchingRelay};
pub use node::{RelayNode, RelaySite};
pub use parting::PartingRelay;
pub use relay::Relay;
pub use rule_examples::{
    a_full_relay_refuses_last, a_linked_host_is_the_only_candidate,
    bodies_that_are_cut_off_are_refused_first, candidates_that_were_passed_are_passed_over,
    hosts_that_were_passed_are_passed_over, hosts_without_a_realm_are_refused_fourth,
    loops_are_refused_second, no_request_goes_back_to_its_sender, no_request_goes_to_a_client,
    requests_for_the_relay_itself_are_refused_fifth,
    requests_without_a_candidate_are_refused_eleventh, requests_without_p_are_refused_third,
    requests_without_room_for_a_record_are_refused_sixth, the_first_candidate_that_is_up_is_taken,
    the_first_host_and_realm_count, unknown_applications_are_refused_tenth,
    unknown_realms_are_refused_ninth,
};
pub use run::RelayEvent;
pub use step_examples::{
    a_restart_forgets_all, answers_go_to_the_origin_under_its_identifier,
    answers_of_another_end_are_dropped, forwarded_requests_are_kept_with_their_origin,
    linked_peers_come_up_once, lost_connections_fail_over,
    refused_requests_are_answered_and_not_kept, requests_go_past_who_leaves,
    unknown_connections_change_nothing,
};
