//! A client that sends requests and keeps their answers: what it reads, sends and prints, without sockets.
//!
//! - [`Sender`]: the client as a node, on its one connection.
//! - [`messages_of`], [`line_of`]: messages as lines of hexadecimal digits.
#![tactic(auto)]

mod messages;
mod sender;

pub use messages::{LinesFault, line_of, messages_of};
pub use sender::{FLIGHT_LIMIT, Sender};
