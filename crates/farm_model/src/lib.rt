//! The farm as data, and what holds of every run of it. No function here does anything.
//!
//! - [`Site`] and [`Step`] are those of `farm_base`, handed on.
//! - [`Direction`], [`FrontAt`], [`RelayAt`]: what the farm consists of between two steps. [`Trace`]:
//!   what is told of a run.
//! - [`runs_keep_the_promise`], a law: its contract says what is promised of every run, over any graph
//!   of relays, whatever is lost, cut, restarted or sent again. [`sound_sites_keep_the_promise`]: the same, with any number of
//!   workers and any room for requests at each front.
//!
//! The definitions are in `specs/`: `World` (the farm between two steps), `Arrival` (a message comes to a node), `Loss` (connections
//! end), `FarmStep` (one step by cases), `Applying` (where a step can apply), `Run` (one step after
//! another, and the trace), `SoundSite` (what of a site all that rests on), `Cause`, `OwnCauses` and `Promise` (who is answered what, and why). What proves the law stands in `proofs/`, and reads no
//! code; so no change of the program above checks it again. It sees the farm as `farm_law` does
//! (`proofs/Moves/AsFarm`), shows of each step which of its moves it is, and goes from step to step in
//! `proofs/Runs/Running`.
//!
//! ```text
//! use farm_model::Step;
//!
//! // A step as the program above runs it.
//! fn is_delivery(step: &Step) -> bool {
//!     matches!(step, Step::Deliver { .. })
//! }
//! ```
#![tactic(auto)]

mod laws;
mod state;

pub use farm_base::{Link, Node, Route, Site, Step};
pub use laws::{runs_keep_the_promise, sound_sites_keep_the_promise};
pub use state::{Direction, FrontAt, RelayAt, Trace};
