//! What was read of records and is not played yet. Each part has one owner, and none knows the farm that plays:
//!
//! - [`Queues`]: the entries of nodes, each node's in the order of its record.
//! - [`Connections`]: the ends of connections that were told, and the connections that stand.
//! - [`Fronts`]: the requests that fronts hold, in their queues and with their workers.
//! - [`is_as_told`], [`is_first`]: whether what was sent is what a record tells. [`is_refused`]: whether a record tells that the book was not asked.
//! - [`BookTold`]: what was told of the book, by its places, and what a book on disk has there. [`Reports`]: what it has come to at the ends of processes.
#![tactic(auto)]

mod book_told;
mod comparing;
mod connections;
mod fronts;
mod queues;
mod refusing;
mod reports;

pub use book_told::BookTold;
pub use comparing::{is_as_told, is_first};
pub use connections::{Connections, OpenDials, linked_with};
pub use fronts::{Fronts, InHand, Outcome, Request, RequestState, Worker};
pub use queues::{Beginning, NodeEntry, Queues};
pub use refusing::is_refused;
pub use reports::Reports;
