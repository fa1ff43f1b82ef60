//! What the workers of a front do.

ghost use Rattle.std.specs.Prelude.{◌≡◌, IfOk, OnErr, IsOk, IsOkUnless, None};
ghost use Rattle.front_core.specs.FrontStep.{after_pick, after_charge, after_refusal, after_emit, Applies, Charges, Emits};

use crate::charging::{charge, too_busy};
use crate::error::FrontError;
use crate::front::Front;
use crate::worker::{Job, Worker};
use cc_book::Book;
use dia_avp::Wire;
use dia_base::{Listing, Moment};
use dia_message::Out;
use std::alloc::Global;
use std::mem;

impl Front {
    /// An idle worker takes the first request of the queue. It answers whether there are both; where
    /// not, nothing changes. It takes no memory.
    pub fn pick(&mut self, worker: u64) -> bool
        ensures { Applies (after_pick self.old worker) result self.old self.new }
    {
        let place = worker as usize;
        let Some(Worker::Idle) = self.workers.get(place) else {
            return false;
        };
        let Some(job) = self.queue.pop_front() else {
            return false;
        };
        let Job { conn, request } = job;
        self.workers[place] = Worker::Picked { conn, request };
        true
    }

    /// A worker charges the request that it holds, and holds its answer then. A message that its view
    /// refuses is answered without the book; a request that the book has already gets the kept reply, and
    /// one that it has no room for is answered 3004: the book is as it was then. The answer is false where
    /// the worker holds no request, and then nothing changes.
    pub fn charge<W: Wire>(
        &mut self,
        alloc: Global,
        worker: u64,
        book: &mut Book,
        moment: Moment,
    ) -> Result<bool, FrontError>
        ensures ok { IfOk result (λ applied. Charges (after_charge self.old book.old moment worker) applied self.old book.old self.new book.new) }
        ensures idle { after_charge self.old book.old moment worker ≡ None → IsOk result }
        ensures err { OnErr result ((self.new ≡ self.old) × (book.new ≡ book.old)) }
        ensures memory { IsOkUnless result FrontError.OutOfMemory }
    {
        let place = worker as usize;
        let Some(Worker::Picked { conn, request }) = self.workers.get(place) else {
            return Ok(false);
        };
        let conn = *conn;
        let answer = charge::<W>(alloc, &self.site, request, book, moment)?;
        self.workers[place] = Worker::Done { conn, answer };
        Ok(true)
    }

    /// A worker that holds a request which is not charged yet refuses it by order, with 3004 and without
    /// the book, and holds that answer then. The answer is false where the worker holds no such
    /// request, and then nothing changes. After an error the front is as it was.
    pub fn refuse<W: Wire>(&mut self, alloc: Global, worker: u64) -> Result<bool, FrontError>
        ensures ok { IfOk result (λ applied. Applies (after_refusal self.old worker) applied self.old self.new) }
        ensures idle { after_refusal self.old worker ≡ None → IsOk result }
        ensures err { OnErr result (self.new ≡ self.old) }
        ensures memory { IsOkUnless result FrontError.OutOfMemory }
    {
        let place = worker as usize;
        let held = self.workers.get(place);
        let Some(Worker::Picked { conn, request }) = held else {
            return Ok(false);
        };
        let conn = *conn;
        let answer = too_busy::<W>(alloc, &self.site, request)?;
        self.workers[place] = Worker::Done { conn, answer };
        Ok(true)
    }

    /// A worker that is done sends its answer, if the connection is still up, and is idle again. The
    /// answer is none where the worker is not done, and then nothing changes.
    pub fn emit(&mut self, alloc: Global, worker: u64) -> Result<Option<Out>, FrontError>
        ensures ok { IfOk result (λ out. Emits (after_emit self.old worker) out self.old self.new) }
        ensures idle { after_emit self.old worker ≡ None → IsOk result }
        ensures err { OnErr result (self.new ≡ self.old) }
        ensures memory { IsOkUnless result FrontError.OutOfMemory }
    {
        let place = worker as usize;
        let Some(Worker::Done { .. }) = self.workers.get(place) else {
            return Ok(None);
        };
        let mut items = Vec::with_capacity(alloc, 1)?;
        let held = mem::replace(&mut self.workers[place], Worker::Idle);
        let Worker::Done { conn, answer } = held else {
            unreachable!();
        };
        if !self.connections.contains(&conn) {
            return Ok(Some(Out::nothing(alloc)));
        }
        items.push_reserved((conn, answer));
        Ok(Some(Out {
            items: Listing::from_vec(items),
        }))
    }
}
