//! Requests that workers have refused, for a log.

ghost use Rattle.std.specs.Prelude.{◌≡◌, ◌≤◌, ◌+◌, ◌++◌, [], length, option_to_list, true, IfNone};
ghost use Rattle.pool_node.specs.Refusing.{no_refusals};

use cc_shared::Receipt;
use cc_view::{CcReply, ResultCode};
use dia_avp::ViewWire;
use farm_node::{Refused, is_of_credit, result_code};
use front_pool::Finished;
use std::alloc::{AllocError, Global};
use std::collections::VecDeque;
use std::marker::Model;

/// The most refused requests that wait to be logged. Further ones are not kept.
pub const REFUSED_LIMIT: usize = 1_024;

/// Requests that were refused and are not logged yet, the oldest first. Those that credit control itself refused are kept only where
/// that is asked for: where credit runs out they are many.
#[derive(Drop)]
pub struct Refusals {
    alloc: Global,
    waiting: VecDeque<Refused>,
    keeps_credit: bool,
}

impl Model for Refusals {
    ghost use Rattle.pool_node.specs.Refusing.{RefusalsState};

    ghost Value = { RefusalsState };

    ghost view = { λ r. record { waiting = r.waiting.items; keeps_credit = r.keeps_credit } };
}

/// The first Result-Code of a reply that is not DIAMETER_SUCCESS: its own, or that of a service. DIAMETER_SUCCESS where there is none.
fn code_in(reply: &CcReply) -> ResultCode {
    if reply.code != ResultCode::Success {
        return reply.code;
    }
    for service in reply.services.as_slice() {
        if service.code != ResultCode::Success {
            return service.code;
        }
    }
    ResultCode::Success
}

/// The Result-Code of a finished job, none where it was served or has no answer.
fn code_of(alloc: Global, finished: &Finished) -> Option<u32> {
    match (&finished.receipt, &finished.answer) {
        (Some(receipt), _) => code_of_receipt(receipt),
        (None, Some(answer)) => Some(result_code::<ViewWire>(alloc, answer)),
        (None, None) => None,
    }
}

/// The same of a job for which the book was asked.
fn code_of_receipt(receipt: &Receipt) -> Option<u32> {
    let code = code_in(&receipt.reply);
    if code == ResultCode::Success {
        None
    } else {
        Some(code.number())
    }
}

impl Refusals {
    /// None yet.
    pub fn new(alloc: Global) -> Self
        ensures { result ≡ no_refusals }
    {
        Refusals {
            alloc,
            waiting: VecDeque::new(alloc),
            keeps_credit: false,
        }
    }

    /// From now on those that credit control itself refused are kept too.
    pub fn keep_credit(&mut self)
        ensures { self.new ≡ record self.old { keeps_credit = true } }
    {
        self.keeps_credit = true;
    }

    /// A job was collected. Nothing is kept of it where memory is missing.
    pub fn collected(&mut self, finished: &Finished)
        ensures few { length self.old.waiting ≤ 1024 → length self.new.waiting ≤ 1024 }
        ensures credit { self.new.keeps_credit ≡ self.old.keeps_credit }
    {
        let Some(code) = code_of(self.alloc, finished) else {
            return;
        };
        let is_wanted = self.keeps_credit || !is_of_credit(code);
        if is_wanted && self.waiting.len() < REFUSED_LIMIT {
            let _kept = self.keep(finished, code);
        }
    }

    /// Keeps what a log says of a job that was refused with this Result-Code.
    fn keep(&mut self, finished: &Finished, code: u32) -> Result<(), AllocError>
        ensures more { length self.new.waiting ≤ length self.old.waiting + 1 }
        ensures credit { self.new.keeps_credit ≡ self.old.keeps_credit }
    {
        let (conn, body) = (finished.conn, &finished.request.body);
        let refused = Refused::of::<ViewWire>(self.alloc, conn, body, code)?;
        self.waiting.push_back(refused)?;
        Ok(())
    }

    /// Takes the oldest one.
    pub fn take_first(&mut self) -> Option<Refused>
        ensures taken { self.old.waiting ≡ option_to_list result ++ self.new.waiting }
        ensures none { IfNone result (self.old.waiting ≡ []) }
        ensures credit { self.new.keeps_credit ≡ self.old.keeps_credit }
    {
        self.waiting.pop_front()
    }
}
