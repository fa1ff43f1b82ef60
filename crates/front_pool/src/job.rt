//! What goes through a pool, and what is left of it at the end.

ghost use Rattle.std.specs.Prelude.{◌≡◌};
ghost use Rattle.std.specs.Bool.{Decides};

use crate::site::Pooling;
use cc_shared::{Receipt, Seat};
use dia_base::{ConnId, Moment, NodeNo};
use dia_message::Message;

/// A request that was handed over: its number, which no other of its pool has, and the connection that it came on.
#[derive(Drop)]
pub struct Job {
    pub number: u64,
    pub conn: ConnId,
    pub request: Message,
}

/// A job that a worker has finished.
#[derive(Drop)]
pub struct Finished {
    /// Its number.
    pub job: u64,
    /// The front in whose name it is answered.
    pub front: NodeNo,
    /// The connection that it came on.
    pub conn: ConnId,
    pub request: Message,
    /// None where memory was refused for an answer. Nothing can be sent then, and those who collect it are to say so.
    pub answer: Option<Message>,
    /// The book's receipt. None where the book was not asked, or did not serve.
    pub receipt: Option<Receipt>,
    /// The moment with which the book was asked. None where it was not.
    pub moment: Option<Moment>,
}

/// What is left of a pool: the seats, as many as it was started with, the jobs that its workers have finished, and those
/// that none has.
#[derive(Drop)]
pub struct Stopped<L: Pooling> {
    pub seats: Vec<Seat<L>>,
    pub finished: Vec<Finished>,
    pub unserved: Vec<Job>,
}

/// Whether this is that job, finished: by number, connection and request.
pub fn is_of(job: &Job, finished: &Finished) -> bool
    ensures { Decides result ((job.now.number ≡ finished.now.job) × (job.now.conn ≡ finished.now.conn) × (job.now.request ≡ finished.now.request)) }
{
    job.number == finished.job
        && is_same_conn(&job.conn, &finished.conn)
        && is_same_request(&job.request, &finished.request)
}

fn is_same_conn(one: &ConnId, other: &ConnId) -> bool
    ensures { Decides result (one.now ≡ other.now) }
{
    one == other
}

fn is_same_request(one: &Message, other: &Message) -> bool
    ensures { Decides result (one.now ≡ other.now) }
{
    one == other
}
