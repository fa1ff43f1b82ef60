//! The values of a request that are looked at (RFC 6733, section 7.1.5).

ghost use Rattle.std.specs.Prelude.{◌≡◌};
ghost use Rattle.cc_view.specs.Finding.{IsRefusal, Passes};
ghost use Rattle.cc_view.specs.RequestView.Checking.{fault_refusal, length_refusal, value_refusal, value_refusal_among, values_refusal};

use crate::code::ResultCode;
use crate::refusal::Refusal;
use crate::view::ViewError;
use crate::view::failed_avp::least_form;
use crate::view::refusals::refusal_for;
use dia_avp::RawAvp;
use dia_base::codes::{
    CC_REQUEST_NUMBER, CC_REQUEST_TYPE, REQUESTED_ACTION, SERVICE_IDENTIFIER, SESSION_ID,
};
use dia_dict::{DictFault, reading_fault};
use dia_grammar::is_among;
use std::alloc::Global;

/// Whose values are looked at in the command.
pub(crate) const COMMAND_VALUES: [u32; 5] = [
    SESSION_ID,
    CC_REQUEST_TYPE,
    CC_REQUEST_NUMBER,
    REQUESTED_ACTION,
    SERVICE_IDENTIFIER,
];

/// Refuses the first value of these codes that is none of its kind.
pub(crate) fn check_values(alloc: Global, codes: &[u32], avps: &[RawAvp]) -> Result<(), ViewError>
    ensures { Passes (values_refusal codes.now avps.now) result }
{
    for avp in avps {
        check_value_among(alloc, codes, avp)?;
    }
    Ok(())
}

fn check_value_among(alloc: Global, codes: &[u32], avp: &RawAvp) -> Result<(), ViewError>
    ensures { Passes (value_refusal_among codes.now avp.now) result }
{
    if is_among(avp, codes) {
        check_value(alloc, avp)
    } else {
        Ok(())
    }
}

fn check_value(alloc: Global, avp: &RawAvp) -> Result<(), ViewError>
    ensures { Passes (value_refusal avp.now) result }
{
    match reading_fault(avp) {
        Some(fault) => refuse_fault(alloc, avp, fault),
        None => Ok(()),
    }
}

fn refuse_fault(alloc: Global, avp: &RawAvp, fault: DictFault) -> Result<(), ViewError>
    ensures { Passes (fault_refusal avp.now fault) result }
{
    match fault {
        DictFault::BadLength { .. } => Err(length_refusal(alloc, avp)),
        DictFault::BadUtf8 { .. } => Err(refusal_for(alloc, ResultCode::InvalidAvpValue, avp)),
        DictFault::BadEnumerated { .. } => {
            Err(refusal_for(alloc, ResultCode::InvalidAvpValue, avp))
        }
        DictFault::NoRow { .. } => Ok(()),
        DictFault::OutOfMemory => Err(ViewError::OutOfMemory),
    }
}

/// A refusal of a value whose length none of its kind has.
fn length_refusal(alloc: Global, avp: &RawAvp) -> ViewError
    ensures { IsRefusal (length_refusal avp.now) result }
{
    match least_form(alloc, avp.code, avp.flags, avp.vendor) {
        Ok(least) => ViewError::Refused(Refusal {
            code: ResultCode::InvalidAvpLength,
            failed: Some(least),
        }),
        Err(_) => ViewError::OutOfMemory,
    }
}
