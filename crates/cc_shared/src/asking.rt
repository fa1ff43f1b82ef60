//! Requests that are served together.

use crate::error::ServeError;
use crate::receipt::Receipt;
use cc_view::CcRequest;
use dia_base::Moment;

/// A request that the book is asked to take at a moment, with what the caller has it for.
#[derive(Drop)]
pub struct Asked<J> {
    pub job: J,
    pub moment: Moment,
    pub request: CcRequest,
}

/// What such a request came to, with what the caller has it for, and the moment at which it was asked.
#[derive(Drop)]
pub struct Served<J> {
    pub job: J,
    pub moment: Moment,
    pub result: Result<Receipt, ServeError>,
}
