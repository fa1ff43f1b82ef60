//! Why a pool does not do what it is told.

use crate::site::Pooling;
use book_store::RowStore;
use cc_shared::{Seat, SharedBook};
use dia_message::Message;

/// A request that was not handed over. The pool is as it was.
#[derive(Drop)]
pub enum SubmitError {
    /// As many jobs wait as may, or all numbers are given.
    PoolFull { request: Message },
    OutOfMemory { request: Message },
}

/// A pool that was not started, for want of memory or of a thread: no thread of it runs. The handle is the one that was
/// handed in, and there are as many seats as were.
#[derive(Drop)]
pub struct StartFailed<L: Pooling, S: RowStore> {
    pub shared: SharedBook<L, S>,
    pub seats: Vec<Seat<L>>,
}
