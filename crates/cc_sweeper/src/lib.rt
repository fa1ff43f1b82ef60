//! Threads that sweep a shared book and change its terms, so that who asks for it waits neither for the book's lock nor for a disk.
//!
//! - [`Sweeper`]: stands with whoever asks. [`Sweeper::ask`] asks for a sweep at a moment, [`Sweeper::collect`] takes what it has
//!   come to ([`SweepDone`]), and [`Sweeper::stop`] ends the thread and gives the last one. One sweep is under way at most.
//! - [`start_sweeper`]: starts the thread, with a handle of its own on the book. It wakes by a [`front_pool::Wake`] once a sweep is
//!   done.
//!
//! - [`Changes`]: stands with whoever asks for changes of the terms. [`Changes::begin`] begins one, in a thread of its own ([`Changer`]),
//!   and [`Changes::collect`] says what it has come to. One is under way at most.
//!
//! - [`Looks`]: the same for looks at accounts. [`Looks::begin`] begins one, in a thread of its own ([`Looker`]), and [`Looks::collect`]
//!   says what it has found. One is under way at most.
//!
//! What a sweeper and who asks it hand each other is one errand, in a cell that no lock guards: nothing, a sweep that is asked for, or what it has come
//! to. What each of them knows of it stands in `specs/Errands`; so what is collected is the sweep that was asked for, once.
//!
//! ```text
//! let mut sweeper = start_sweeper(&rt, alloc, shared.another()?, waker)?;
//! if !sweeper.is_under_way() {
//!     sweeper.ask(&rt, moment);
//! }
//! // later, when it has waked:
//! if let Some(done) = sweeper.collect(&rt) {
//!     tell(done.moment, done.swept);
//! }
//! ```
#![tactic(auto)]

mod changer;
mod changes;
mod desk;
mod errand;
mod hand;
mod looker;
mod looks;
mod starting;
mod sweeper;

pub use changer::{ChangeResult, Changer, start_change};
pub use changes::{ChangeFault, Changes};
pub use errand::SweepDone;
pub use looker::{LookResult, Looker, start_look};
pub use looks::{LookFault, Looks};
pub use starting::start_sweeper;
pub use sweeper::Sweeper;
