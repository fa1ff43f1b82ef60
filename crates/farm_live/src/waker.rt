//! How workers end the wait of the loop.

use front_pool::Wake;
use mio::Waker;

/// Wakes the loop of the process. Where that fails, its next tick comes in time.
#[derive(Drop)]
pub struct LoopWaker(pub Waker);

impl Wake for LoopWaker {
    fn wake(&self) {
        let _ = self.0.wake();
    }
}
