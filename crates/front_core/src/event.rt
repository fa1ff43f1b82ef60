//! What happens at a front.

use cc_book::TermsChange;
use dia_base::{ConnId, Moment};
use dia_message::Message;

/// One event of a front. Workers are numbered from 0.
#[derive(Drop)]
pub enum FrontEvent {
    /// A connection comes up.
    Up { conn: ConnId },
    /// A message comes on a connection.
    Message { conn: ConnId, message: Message },
    /// A worker picks the first request of the queue.
    Pick { worker: u64 },
    /// A worker charges the request that it holds, at this moment.
    Charge { worker: u64, moment: Moment },
    /// A worker refuses, by order, the request that it holds.
    Refuse { worker: u64 },
    /// A worker sends the answer that it holds.
    Emit { worker: u64 },
    /// The book ends the sessions that are due at this moment (RFC 8506, section 13).
    Sweep { moment: Moment },
    /// The terms of the book change at this moment.
    ChangeTerms { moment: Moment, change: TermsChange },
    /// A connection is lost.
    Lost { conn: ConnId },
    /// The front restarts.
    Restart,
}
