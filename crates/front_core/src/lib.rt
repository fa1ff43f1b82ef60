//! One front of a credit-control server: a queue of requests, and workers that charge them in the book.
//! An event comes in, and what is sent goes out; nothing here waits or reads a clock.
//!
//! - `front`: a front, its connections and its queue; `front::work`: what its workers do.
//! - `preparing`: what a message is before the book is asked; `charging`: the answer after it is.
//! - `run`: a front over a list of `event`s.
//! - `laws`: what holds of every charge and every answer, and worked examples; `step_examples`: one event each.
//!
//! Definitions stand in `specs/`: `FrontState` and `FrontStep` (each call), `Charging` and `ChargeCases` (a charge),
//! `Answered` and `Cause` (what an answer stands on), `FrontRun` (one event after another), `ShortRuns` and
//! `StepExample` (worked examples), `Counts` and `Promise` (what is promised of every run).
//!
//! ```
//! let mut front = Front::new(alloc, name, realm, vendors, 4, 1024)?;
//! front.conn_up(conn)?;
//! let refused = front.on_message::<ViewWire>(alloc, conn, message)?;
//! post(refused);
//! if front.pick(0) {
//!     front.charge::<ViewWire>(alloc, 0, &mut book, now)?;
//! }
//! if let Some(out) = front.emit(alloc, 0)? {
//!     post(out);
//! }
//! ```
#![tactic(auto)]

mod charging;
mod error;
mod event;
mod front;
mod laws;
mod preparing;
mod run;
mod site;
mod step_examples;
mod worker;

pub use error::FrontError;
pub use event::FrontEvent;
pub use front::Front;
pub use laws::{
    a_charge_answers_or_refuses, an_arrival_is_refused_with_cause, answers_stay,
    charges_by_four_cases, fronts_answer_what_they_charge, lost_connections_get_no_answers,
    requests_wait_for_their_answers,
};
pub use preparing::{Prepared, prepare};
pub use site::FrontSite;
pub use step_examples::{
    a_full_queue_refuses_at_once, a_request_joins_the_end_of_the_queue, an_answer_goes_out_once,
    an_idle_worker_picks_the_first_request, only_a_restart_loses_requests,
    what_was_picked_is_charged, what_was_picked_is_refused_by_order,
};
pub use worker::{Job, Worker};
