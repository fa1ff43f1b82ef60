//! Connections over readers and writers.
//!
//! - [`Conn`]: a connection over any reader and writer. [`Conn::receive`] reads for a turn, no more than so many
//!   messages, and gives those that are whole then, [`Conn::send`] puts a message behind what waits to be written, and
//!   [`Conn::flush`] writes for a turn. What is not ready ends a turn and is no loss.
//! - [`Loss`]: why a connection is lost. A call tells it once, of an open connection, which has ended then.
//! - [`Device`]: what counts how often it has failed; [`Counted`] counts for any reader or writer. A failed
//!   call is a loss only where the count rose.
//! - [`TURN_LIMIT`], [`UNSENT_LIMIT`]: how many calls a turn makes, and how many octets may wait.
//!
//! `specs/Turn` says what a turn reads and writes, `specs/Connection` what a connection is and what is told of
//! it, and `specs/Device` what is counted. No socket stands here: those who have sockets hand them in as
//! readers and writers.
//!
//! ```
//! use farm_net::{Conn, Counted, Device, Loss};
//!
//! /// Sends back what was received.
//! fn echo<R: Read + Device, W: Write + Device>(conn: &mut Conn<R, W>) -> Result<(), Loss> {
//!     let mut piece = [0u8; 4096];
//!     let received = conn.receive(&mut piece, usize::MAX);
//!     for message in &received.messages {
//!         conn.send(message)?;
//!     }
//!     conn.flush()?;
//!     received.outcome
//! }
//! ```
#![tactic(auto)]

mod conn;
mod device;
mod loss;
mod turn;

pub use conn::{Conn, Received, Stage, UNSENT_LIMIT};
pub use device::{Counted, Device};
pub use loss::Loss;
pub use turn::TURN_LIMIT;
