//! What a worker does with a message: it reads the request, has it served, and spells the answer.

ghost use Rattle.std.specs.Prelude.{◌≡◌, ◌≤◌, IfSome, None, Ok, Some};
ghost use Rattle.cc_view.specs.Answer.{answer_to};
ghost use Rattle.cc_view.specs.RequestView.{view_under};
ghost use Rattle.front_pool.specs.Answering.{IsAnsweredByOne, IsServedAt, Reads, too_busy};
ghost use Rattle.front_pool.specs.Counting.{takes_of, takes_served};
ghost use Rattle.front_pool.specs.Jobs.{job_of};

use crate::gate::Gate;
use crate::site::{PoolSite, Pooling};
use crate::task::{Done, Task};
use cc_shared::{Asked, Receipt, Served};
use cc_view::{CcRequest, Refusal, ResultCode, answer_bytes, refusal_bytes};
use dia_avp::Wire;
use dia_base::{Moment, NodeNo};
use dia_message::Message;
use farm_clock::Timer;
use front_core::{Prepared, prepare};
use std::alloc::Global;
use std::rt::Clock;
use std::sync::Wait;

/// DIAMETER_TOO_BUSY. None where memory is refused for it.
fn too_busy<W: Wire>(alloc: Global, site: &PoolSite, message: &Message) -> Option<Message>
    ensures { IfSome result (λ answer. answer ≡ too_busy site.now message.now) }
{
    let busy = Refusal {
        code: ResultCode::TooBusy,
        failed: None,
    };
    refusal_bytes::<W>(alloc, &site.name, &site.realm, message, &busy).ok()
}

/// The answer to a request that was served. None where memory is refused for it.
fn answer<W: Wire>(
    alloc: Global,
    site: &PoolSite,
    message: &Message,
    receipt: &Receipt,
) -> Option<Message>
    ensures { IfSome result (λ answer. answer ≡ answer_to site.now.name site.now.realm message.now receipt.now.request receipt.now.reply) }
{
    answer_bytes::<W>(
        alloc,
        &site.name,
        &site.realm,
        message,
        &receipt.request,
        &receipt.reply,
    )
    .ok()
}

/// A job of a front whose message was read.
pub enum Reading {
    /// It is answered without the book.
    Answered { finished: Done },
    /// The book is asked.
    Asks { asked: Asked<Task> },
}

/// A job of this front of which the book was not asked: DIAMETER_TOO_BUSY.
pub fn refuse<W: Wire, L: Pooling>(alloc: Global, front: NodeNo, site: &PoolSite, job: Task) -> Done
    requires site { site.now ≡ L.site front }
    ensures job { job_of result ≡ job }
    ensures answered { IsAnsweredByOne L.site L.shared result }
    ensures receipt { result.receipt ≡ None }
    ensures moment { result.moment ≡ None }
{
    let busy = too_busy::<W>(alloc, site, job.request());
    job.finish(front, busy, None, None)
}

/// The moment at which a request is charged: not before that at which the timer was started. None where it cannot be read.
fn charged_at<R: Clock>(rt: &R, timer: Timer) -> Option<Moment>
    ensures { IfSome result (λ moment. timer.first ≤ moment.0) }
{
    timer.now(rt).ok()
}

/// Asks the book for a request that was read in a message. Where no moment can be read, the job is answered DIAMETER_TOO_BUSY.
fn ask<W: Wire, L: Pooling, R: Clock>(
    rt: &R,
    alloc: Global,
    front: NodeNo,
    site: &PoolSite,
    timer: Timer,
    job: Task,
    request: CcRequest,
) -> Reading
    requires site { site.now ≡ L.site front }
    requires view { view_under site.now.profile job.request ≡ Ok request }
    ensures { Reads L.site L.shared front job result }
{
    match charged_at(rt, timer) {
        Some(moment) => Reading::Asks {
            asked: Asked {
                job,
                moment,
                request,
            },
        },
        None => Reading::Answered {
            finished: refuse::<W, L>(alloc, front, site, job),
        },
    }
}

/// Reads the message of a job of this front. It passes the gate once it is read, and the clock is read behind that.
pub fn read<W: Wire, L: Pooling, R: Wait + Clock, G: Gate>(
    rt: &R,
    alloc: Global,
    front: NodeNo,
    site: &PoolSite,
    timer: Timer,
    gate: &G,
    job: Task,
) -> Reading
    requires { site.now ≡ L.site front }
    ensures { Reads L.site L.shared front job result }
{
    let profile = site.profile.as_profile();
    let prepared = prepare::<W>(alloc, &site.name, &site.realm, profile, job.request());
    gate.before_book(rt, job.number());
    match prepared {
        Ok(Prepared::Refused(refusal)) => Reading::Answered {
            finished: job.finish(front, Some(refusal), None, None),
        },
        Ok(Prepared::Ask(request)) => {
            ask::<W, L, R>(rt, alloc, front, site, timer, job, request)
        }
        Err(_) => Reading::Answered {
            finished: refuse::<W, L>(alloc, front, site, job),
        },
    }
}

/// Spells the answer of a job of this front for which the book was asked. One that was not served is answered DIAMETER_TOO_BUSY.
pub fn spell<W: Wire, L: Pooling>(
    alloc: Global,
    front: NodeNo,
    site: &PoolSite,
    served: Served<Task>,
) -> Done
    requires site { site.now ≡ L.site front }
    requires served { IsServedAt (L.site front) L.shared served }
    ensures job { job_of result ≡ served.job }
    ensures answered { IsAnsweredByOne L.site L.shared result }
    ensures count { takes_of result ≡ takes_served served }
    ensures moment { result.moment ≡ Some served.moment }
{
    let Served {
        job,
        moment,
        result,
    } = served;
    match result {
        Ok(receipt) => {
            let written = answer::<W>(alloc, site, job.request(), &receipt);
            job.finish(front, written, Some(receipt), Some(moment))
        }
        Err(_) => {
            let busy = too_busy::<W>(alloc, site, job.request());
            job.finish(front, busy, None, Some(moment))
        }
    }
}
