//! The proved farm, played step by step, for those who look at what it does at each.
//!
//! - [`PlayedFarm`]: the farm of a site. Whatever is done with it, it stands at the end of a run of `World::step` from the
//!   beginning, and has the line of each step that applied, in their order (`specs/PlayedRun`).
//! - [`Reconciled`]: the same, and what records tell that nodes receive, and that clients send: nothing else passes there, in no other order
//!   (`specs/Reconciling`).
//! - The lines are those of a schedule (`specs/StepLines`), as `farm_script` reads them.
#![tactic(auto)]

mod awaited;
mod change;
mod farm;
mod passing;
mod reconciled;
mod steps;

pub use farm::PlayedFarm;
pub use passing::{Passages, Passed};
pub use reconciled::Reconciled;
pub use steps::push_step;
