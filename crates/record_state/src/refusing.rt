//! Requests that a front answers without its book, since it has no room.

use dia_avp::{ViewWire, Wire};
use dia_message::Message;
use record_reader::Finished;
use std::alloc::Global;

/// The Result-Code of an answer by which a front or a relay says that it has no room (RFC 6733, section 7.1.3).
const TOO_BUSY: u32 = 3004;

/// The code of the AVP Result-Code.
const RESULT_CODE: u32 = 268;

/// Whether an answer says that its sender has no room.
fn is_too_busy(alloc: Global, answer: &Message) -> bool {
    let Ok(avps) = ViewWire::split(alloc, &answer.body) else {
        return false;
    };
    let code = avps
        .iter()
        .find(|avp| avp.code == RESULT_CODE && avp.vendor == 0);
    match code {
        Some(avp) => avp.value.as_slice() == TOO_BUSY.to_be_bytes().as_slice(),
        None => false,
    }
}

/// Whether a line tells that a worker has refused a request: the book was not asked, and the front was too busy.
pub fn is_refused(alloc: Global, finished: &Finished) -> bool {
    match &finished.answer {
        Some(answer) => finished.place.is_none() && is_too_busy(alloc, answer),
        None => false,
    }
}
