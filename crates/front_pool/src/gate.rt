//! Places that a job passes on its way through a worker.

use std::rt::Clock;
use std::sync::Wait;

/// What a job passes in its worker's thread, which may wait there. A message that is refused unread passes it too.
pub trait Gate {
    /// Before the book is asked.
    fn before_book<R: Wait + Clock>(&self, rt: &R, job: u64);

    /// Once its answer stands among the finished ones.
    fn answered<R: Wait + Clock>(&self, rt: &R, job: u64);
}

/// Wakes whoever waits for finished answers, as a loop over sockets does.
pub trait Wake {
    fn wake(&self);
}

/// The gate that holds nobody.
#[derive(Clone, Copy)]
pub struct NoGate;

impl Gate for NoGate {
    fn before_book<R: Wait + Clock>(&self, _rt: &R, _job: u64) {}

    fn answered<R: Wait + Clock>(&self, _rt: &R, _job: u64) {}
}

/// The gate that holds nobody, and wakes after each answer.
#[derive(Drop)]
pub struct Wakes<K> {
    pub waker: K,
}

impl<K: Wake> Gate for Wakes<K> {
    fn before_book<R: Wait + Clock>(&self, _rt: &R, _job: u64) {}

    fn answered<R: Wait + Clock>(&self, _rt: &R, _job: u64) {
        self.waker.wake();
    }
}
