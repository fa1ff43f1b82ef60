//! The answer to a request that a worker holds.

ghost use Rattle.std.specs.Prelude.{◌≡◌, IfOk, OnOk, OnErr, IsOkUnless};
ghost use Rattle.cc_book.specs.Taking.{answer_of};
ghost use Rattle.front_core.specs.Charging.{answer_by, after_take, answer_in, book_after};
ghost use Rattle.front_core.specs.FrontStep.{preparation_at, too_busy};

use crate::error::FrontError;
use crate::preparing::{Prepared, prepare};
use crate::site::FrontSite;
use cc_book::{Book, BookRefusal};
use cc_view::{CcRequest, Refusal, ResultCode, answer_bytes, refusal_bytes};
use dia_avp::Wire;
use dia_base::Moment;
use dia_message::Message;
use std::alloc::{AllocError, Global};

/// The answer of a front to a message, and the book after it. After an error the book is as it was.
pub fn charge<W: Wire>(
    alloc: Global,
    site: &FrontSite,
    message: &Message,
    book: &mut Book,
    moment: Moment,
) -> Result<Message, FrontError>
    ensures answer { IfOk result (λ answer. answer ≡ answer_in site.now book.old message.now (preparation_at site.now message.now)) }
    ensures book { OnOk result (book.new ≡ book_after book.old moment (preparation_at site.now message.now)) }
    ensures err { OnErr result (book.new ≡ book.old) }
    ensures memory { IsOkUnless result FrontError.OutOfMemory }
{
    let profile = site.profile.as_profile();
    match prepare::<W>(alloc, &site.name, &site.realm, profile, message)? {
        Prepared::Refused(answer) => Ok(answer),
        Prepared::Ask(request) => take::<W>(alloc, site, message, &request, book, moment),
    }
}

/// The answer to a request: the book's reply, or 3004 where the book is full. What the book would do is planned, the
/// answer is spelled from the plan, and only then the plan is committed, so that an error leaves the book as it was.
/// So does a request that the book has already, sent again by its client or by a relay: it gets the kept reply.
fn take<W: Wire>(
    alloc: Global,
    site: &FrontSite,
    message: &Message,
    request: &CcRequest,
    book: &mut Book,
    moment: Moment,
) -> Result<Message, FrontError>
    ensures answer { IfOk result (λ answer. answer ≡ answer_by site.now message.now request.now (answer_of book.old request.now)) }
    ensures book { OnOk result (book.new ≡ after_take book.old moment request.now) }
    ensures err { OnErr result (book.new ≡ book.old) }
    ensures memory { IsOkUnless result FrontError.OutOfMemory }
{
    let plan = match book.plan(alloc, moment, request) {
        Ok(plan) => plan,
        Err(BookRefusal::Full { .. }) => {
            let answer = too_busy::<W>(alloc, site, message)?;
            return Ok(answer);
        }
        Err(BookRefusal::OutOfMemory) => return Err(FrontError::OutOfMemory),
    };
    let answer = answer_bytes::<W>(
        alloc,
        &site.name,
        &site.realm,
        message,
        request,
        &plan.answered().reply,
    )?;
    let _answered = book.commit(plan);
    Ok(answer)
}

/// The refusal of a request that the front is too busy for: DIAMETER_TOO_BUSY (RFC 6733, section 7.1.3).
pub fn too_busy<W: Wire>(
    alloc: Global,
    site: &FrontSite,
    message: &Message,
) -> Result<Message, AllocError>
    ensures { IfOk result (λ answer. answer ≡ too_busy site.now message.now) }
{
    let busy = Refusal {
        code: ResultCode::TooBusy,
        failed: None,
    };
    refusal_bytes::<W>(alloc, &site.name, &site.realm, message, &busy)
}
