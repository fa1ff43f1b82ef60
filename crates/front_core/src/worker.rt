//! Requests that wait, and the workers that take them.

use dia_base::ConnId;
use dia_message::Message;

/// A request in the queue, with the connection that it came on.
#[derive(Drop)]
pub struct Job {
    pub conn: ConnId,
    pub request: Message,
}

/// What a worker holds.
#[derive(Drop)]
pub enum Worker {
    /// Nothing: it can pick a request.
    Idle,
    /// A request that is not charged yet.
    Picked { conn: ConnId, request: Message },
    /// An answer that is not sent yet.
    Done { conn: ConnId, answer: Message },
}
