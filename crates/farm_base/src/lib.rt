//! What a farm is made of, and what can happen to it, as data. Its functions copy.
//!
//! - [`Site`] with its [`Node`]s, [`Link`]s and [`Route`]s.
//! - [`Step`], one step of a schedule.
//!
//! The definitions are in `specs/`: `Nodes` (who is linked with whom), `FrontProfile` (what fronts know and
//! tolerate), `CheckedSite` (what a site keeps to), `RowSite` (the
//! site without a file), `Lists`. What comes of a run is `farm_model`'s; site files and schedules are read over this alone.
//!
//! ```text
//! use farm_base::Step;
//!
//! fn is_delivery(step: &Step) -> bool {
//!     matches!(step, Step::Deliver { .. })
//! }
//! ```
#![tactic(auto)]

mod site;
mod step;

pub use site::{Link, Node, Route, Site};
pub use step::Step;
