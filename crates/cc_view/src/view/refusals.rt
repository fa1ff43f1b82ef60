//! Refusals with the AVP at fault (RFC 6733, section 7.1.5).

ghost use Rattle.std.specs.Prelude.{◌≡◌, ◌<◌, length, Err};
ghost use Rattle.dia_avp.specs.AvpList.{Answers, Reads};
ghost use Rattle.dia_grammar.specs.Grammar.{IsWithin};
ghost use Rattle.dia_grammar.specs.Profile.{profile_of};
ghost use Rattle.cc_view.specs.RequestView.Counting.{counted};
ghost use Rattle.cc_view.specs.Finding.{GivesAll, IsRefusal, Passes};
ghost use Rattle.cc_view.specs.Refusal.{avps_of, grammar_refusal, refusal_at, refusal_by_fault, refusal_for, refusal_for_missing, refusal_of_octets, refusal_with};
ghost use Rattle.cc_view.specs.declared.view.ViewError.TheVariants.{Refused};

use crate::code::ResultCode;
use crate::refusal::Refusal;
use crate::view::ViewError;
use crate::view::broken::broken_avp_in;
use crate::view::counting::counted_avps;
use crate::view::failed_avp::{copy_or_least_form, least_form};
use dia_avp::layout::MANDATORY;
use dia_avp::{AvpFault, Octets, RawAvp, Wire};
use dia_grammar::{GrammarFault, Profile, check_under};
use std::alloc::Global;

/// A refusal that names no AVP.
pub(crate) fn refusal_with(code: ResultCode) -> ViewError
    ensures { result ≡ Refused (refusal_with code) }
{
    ViewError::Refused(Refusal { code, failed: None })
}

/// A refusal for an AVP that was received.
pub(crate) fn refusal_for(alloc: Global, code: ResultCode, avp: &RawAvp) -> ViewError
    ensures { IsRefusal (refusal_for code avp.now) result }
{
    match copy_or_least_form(alloc, avp) {
        Ok(avp) => ViewError::Refused(Refusal {
            code,
            failed: Some(avp),
        }),
        Err(_) => ViewError::OutOfMemory,
    }
}

/// A refusal for an AVP that is missing.
pub(crate) fn refusal_for_missing(alloc: Global, code: u32) -> ViewError
    ensures { IsRefusal (refusal_for_missing code) result }
{
    match least_form(alloc, code, MANDATORY, 0) {
        Ok(avp) => ViewError::Refused(Refusal {
            code: ResultCode::MissingAvp,
            failed: Some(avp),
        }),
        Err(_) => ViewError::OutOfMemory,
    }
}

/// The AVPs of a body, or the refusal of a body that is no list of AVPs: DIAMETER_INVALID_AVP_LENGTH
/// with the AVP at which it cannot go on (RFC 6733, section 7.1.5). A relay refuses such a body too.
pub fn avps_of<W: Wire>(alloc: Global, body: &Octets) -> Result<Vec<RawAvp>, ViewError>
    ensures { GivesAll (avps_of body.now) result }
{
    avps_by(alloc, body.as_slice(), W::split(alloc, body))
}

/// The AVPs that a split of these octets gave, or their refusal.
pub(crate) fn avps_by(
    alloc: Global,
    octets: &[u8],
    split: Result<Vec<RawAvp>, AvpFault>,
) -> Result<Vec<RawAvp>, ViewError>
    requires { Answers (Reads octets.now) split }
    ensures { GivesAll (avps_of octets.now) result }
{
    match split {
        Ok(avps) => Ok(avps),
        Err(fault) => match fault {
            AvpFault::OutOfMemory => Err(ViewError::OutOfMemory),
            _ => Err(refusal_of_octets(alloc, octets, fault)),
        },
    }
}

fn refusal_of_octets(alloc: Global, octets: &[u8], fault: AvpFault) -> ViewError
    ensures { IsRefusal (refusal_of_octets octets.now fault) result }
{
    match broken_avp_in(alloc, octets, fault) {
        Ok(failed) => ViewError::Refused(Refusal {
            code: ResultCode::InvalidAvpLength,
            failed,
        }),
        Err(_) => ViewError::OutOfMemory,
    }
}

/// A refusal for the AVP at this place.
pub(crate) fn refusal_at(alloc: Global, code: ResultCode, avps: &[RawAvp], at: usize) -> ViewError
    requires { at < length avps.now }
    ensures { Passes (refusal_at code avps.now at) (Err result) }
{
    refusal_for(alloc, code, &avps[at])
}

/// Refuses AVPs that break the grammar of a request, as they are counted under the profile. Where it
/// tolerates nothing they are counted as they came.
pub(crate) fn check_grammar<W: Wire>(
    alloc: Global,
    profile: Profile,
    avps: &[RawAvp],
) -> Result<(), ViewError>
    ensures { Passes (grammar_refusal (profile_of profile.entry) (counted (profile_of profile.entry) avps.now)) result }
{
    if profile.tolerates_nothing() {
        return check_counted(alloc, profile, avps);
    }
    let counted = counted_avps::<W>(alloc, profile, avps)?;
    check_counted(alloc, profile, &counted)
}

/// Refuses AVPs, as they are counted, that break the grammar of a request.
fn check_counted(alloc: Global, profile: Profile, avps: &[RawAvp]) -> Result<(), ViewError>
    ensures { Passes (grammar_refusal (profile_of profile.entry) avps.now) result }
{
    match check_under(avps, profile) {
        Ok(()) => Ok(()),
        Err(fault) => Err(refusal_by_fault(alloc, avps, fault)),
    }
}

fn refusal_by_fault(alloc: Global, avps: &[RawAvp], fault: GrammarFault) -> ViewError
    requires { IsWithin avps.now fault }
    ensures { Passes (refusal_by_fault avps.now fault) (Err result) }
{
    match fault {
        GrammarFault::Missing { code } => refusal_for_missing(alloc, code),
        GrammarFault::FirstNotSessionId => refusal_with(ResultCode::UnableToComply),
        GrammarFault::UnknownM { at } => refusal_at(alloc, ResultCode::AvpUnsupported, avps, at),
        GrammarFault::Twice { at } => {
            refusal_at(alloc, ResultCode::AvpOccursTooManyTimes, avps, at)
        }
    }
}
