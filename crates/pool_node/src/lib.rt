//! All fronts of a site as one node, each with worker threads of its own, on one account book.
//!
//! - [`PoolFronts`]: the node. A request goes to the workers of the front that it came to; at each tick, and when a worker
//!   has waked the node, what is finished is collected and sent on the connection that it came on, if that is still up.
//! - [`PoolFront`]: one front: its connections, and its [`front_pool::Pool`].
//! - [`start_fronts`]: starts the fronts of a site. [`COLLECT_OCTETS`], [`COLLECT_LIMIT`]: how much is collected of a front
//!   at one event.
//!
//! - [`BookFigures`]: what the book has come to, as far as answers were collected. [`PoolFronts::end`] ends all workers and
//!   gives the book back.
//! - [`NextSweep`]: when the book is swept next: once a second at most, and never again once it is full. [`Timing`]: when it is
//!   swept first, and from when on time goes on. A tick asks a [`cc_sweeper::Sweeper`] for a sweep that is due, and what it has come
//!   to is collected at a later tick or wake: the node takes the book's lock only as it ends.
//!   [`sweeps_go_on`], [`sweeps_are_one_at_a_time`]: laws of that.
//! - [`BookEvents`]: what the fronts have done that nobody else can tell of, for those who record it. Requests that workers have refused
//!   wait for those who log them ([`farm_node::Refuses`]), at most [`REFUSED_LIMIT`].
//!
//! What the node does at each event stands in `specs/Fronts`, and how many octets go out then in `specs/Measure`.
#![tactic(auto)]

mod booked;
mod ending;
mod events;
mod figures;
mod front;
mod fronts;
mod laws;
mod refusing;
mod served;
mod start;
mod sweeping;
mod timing;

pub use events::BookEvents;
pub use figures::BookFigures;
pub use front::PoolFront;
pub use fronts::{COLLECT_LIMIT, COLLECT_OCTETS, PoolFronts};
pub use laws::{sweeps_are_one_at_a_time, sweeps_go_on};
pub use refusing::REFUSED_LIMIT;
pub use served::{CameTo, ServedCounts};
pub use start::{Bell, StartFault, seats_for, start_fronts};
pub use sweeping::{NextSweep, SWEEP_INTERVAL};
pub use timing::Timing;
