//! The farm of clients, relays and fronts as one machine: what it consists of, one step of it, and
//! whole runs.
//!
//! - [`run`]: the steps of a schedule over a site, one after the other, from an empty history. Its
//!   contract carries what is promised of every run: who is answered what, how often, and what the
//!   book stands on, over any graph of relays.
//! - [`World`]: the farm between two steps, for who looks at a run step by step.
//! - [`relays_of`], [`relay_starting_at`], [`fronts_of`], [`empty_book`]: what the farm of a site begins with, for those who
//!   serve it.
//! - [`row_site`]: the site that a schedule runs over where no site file is given.
//! - [`Site`], [`Step`], [`Trace`] and the definitions of a step and a run are `farm_model`'s.
//!
//! Inside, `directions` keeps what is in flight, `nodes` asks the site, `fronts` and `relays` find the node
//! that an event comes to, `events` tells it by the face that all nodes have, and `opening` makes the farm before its first step. A function
//! for each word of a schedule stands in `turns`, in `loss` where connections end, and in `workers` where
//! a worker of a front acts; `runs` goes over the steps.
//!
//! ```text
//! use dia_avp::ViewWire;
//! use farm_world::{Step, Trace, row_site, run};
//!
//! fn entries(alloc: Global, steps: &[Step]) -> Result<usize, AllocError> {
//!     let site = row_site(alloc)?;
//!     match run::<ViewWire>(alloc, &site, steps) {
//!         Ok(trace) => Ok(trace.book.history().len()),
//!         Err(_) => Err(AllocError),
//!     }
//! }
//! ```
#![tactic(auto)]

mod directions;
mod events;
mod fronts;
mod loss;
mod nodes;
mod opening;
mod relays;
mod row;
mod runs;
mod turns;
mod workers;
mod world;

pub use dia_base::NodeKind;
pub use farm_model::{Direction, FrontAt, Link, Node, RelayAt, Route, Site, Step, Trace};
pub use nodes::is_client;
pub use opening::{empty_book, fronts_of, relay_starting_at, relays_of};
pub use row::row_site;
pub use runs::{RunError, run};
pub use world::World;
