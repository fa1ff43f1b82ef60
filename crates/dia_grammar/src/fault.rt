//! What is wrong with the AVPs of a request.

use thiserror::Error;

/// The first fault. `at` is the place of an AVP in the list of AVPs, counted from 0, and no place in
/// octets. `code` is that of an AVP of vendor 0.
#[derive(Clone, Copy, Debug, PartialEq, Eq, Error)]
pub enum GrammarFault {
    #[error("AVP {code} is missing")]
    Missing { code: u32 },
    #[error("AVP number {at} is a second one of its code")]
    Twice { at: usize },
    #[error("AVP number {at} has the flag M and is not known")]
    UnknownM { at: usize },
    #[error("the first AVP is no Session-Id")]
    FirstNotSessionId,
}
