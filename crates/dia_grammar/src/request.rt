//! The AVPs of a Credit-Control-Request (RFC 8506, section 3.1).

ghost use Rattle.std.specs.Prelude.{◌≡◌, IfErr};
ghost use Rattle.std.specs.List.{list_any};
ghost use Rattle.std.specs.Result.{result_err};
ghost use Rattle.dia_grammar.specs.Grammar.{IsWithin, begins_with_session, grammar_fault, is_event_type, missing_of, required_in, session_fault};
ghost use Rattle.dia_grammar.specs.Profile.{profile_of, strict};

use crate::asking::{first_missing, first_repeated, first_unknown, has_avp, is_of};
use crate::fault::GrammarFault;
use crate::profile::Profile;
use dia_avp::{RawAvp, u32_of};
use dia_base::codes::{
    AUTH_APPLICATION_ID, CC_REQUEST_NUMBER, CC_REQUEST_TYPE, DESTINATION_REALM, ORIGIN_HOST,
    ORIGIN_REALM, REQUESTED_ACTION, REQUESTED_SERVICE_UNIT, SERVICE_CONTEXT_ID, SERVICE_IDENTIFIER,
    SESSION_ID,
};

/// What a request has at most once.
const SINGLE: [u32; 11] = [
    SESSION_ID,
    ORIGIN_HOST,
    ORIGIN_REALM,
    DESTINATION_REALM,
    AUTH_APPLICATION_ID,
    SERVICE_CONTEXT_ID,
    CC_REQUEST_TYPE,
    CC_REQUEST_NUMBER,
    REQUESTED_ACTION,
    REQUESTED_SERVICE_UNIT,
    SERVICE_IDENTIFIER,
];

/// What each request has beside its Session-Id.
const REQUIRED: [u32; 7] = [
    ORIGIN_HOST,
    ORIGIN_REALM,
    DESTINATION_REALM,
    AUTH_APPLICATION_ID,
    SERVICE_CONTEXT_ID,
    CC_REQUEST_TYPE,
    CC_REQUEST_NUMBER,
];

/// EVENT_REQUEST, a value of CC-Request-Type (RFC 8506, section 8.3).
const EVENT_REQUEST: u32 = 4;

/// Whether the first AVP is a Session-Id (RFC 6733, section 8.8).
fn begins_with_session(avps: &[RawAvp]) -> bool
    ensures { result ≡ begins_with_session avps.now }
{
    match avps {
        [first, ..] => is_of(first, SESSION_ID),
        [] => false,
    }
}

fn session_fault(avps: &[RawAvp]) -> Option<GrammarFault>
    ensures { result ≡ session_fault avps.now }
{
    if !has_avp(avps, SESSION_ID) {
        Some(GrammarFault::Missing { code: SESSION_ID })
    } else if !begins_with_session(avps) {
        Some(GrammarFault::FirstNotSessionId)
    } else {
        None
    }
}

fn is_event_type(avp: &RawAvp) -> bool
    ensures { result ≡ is_event_type avp.now }
{
    is_of(avp, CC_REQUEST_TYPE) && u32_of(avp) == Some(EVENT_REQUEST)
}

/// Whether the AVPs say that the request is an event. A CC-Request-Type that has not 4 octets does
/// not.
fn is_event(avps: &[RawAvp]) -> bool
    ensures { result ≡ list_any is_event_type avps.now }
{
    avps.iter().any(is_event_type)
}

/// The first code that the request has to have and no AVP has. An event says what it asks for, by
/// Requested-Action (RFC 8506, section 8.3).
fn missing_in_request(avps: &[RawAvp]) -> Option<u32>
    ensures { result ≡ missing_of (required_in avps.now) avps.now }
{
    let missing = first_missing(avps, &REQUIRED);
    if missing.is_none() && is_event(avps) {
        first_missing(avps, &[REQUESTED_ACTION])
    } else {
        missing
    }
}

/// Whether these are the AVPs of a Credit-Control-Request, where AVPs of the listed vendors are
/// known and nothing more is known or tolerated: the answer of [`check_under`] to such a profile.
pub fn check(avps: &[RawAvp], vendors: &[u32]) -> Result<(), GrammarFault>
    ensures fault { result_err result ≡ grammar_fault (strict vendors.now) avps.now }
    ensures within { IfErr result (IsWithin avps.now) }
{
    check_under(avps, Profile::strict(vendors))
}

/// Whether these are the AVPs of a Credit-Control-Request, as they are counted under the profile: what
/// it tolerates has been left out or put in. The first of these that applies is the answer:
///
/// 1. There is no Session-Id (`Missing`), or it is not the first AVP (`FirstNotSessionId`).
/// 2. An AVP has the flag M and is not known (`UnknownM`), the first in order.
/// 3. An AVP is a second Session-Id, Origin-Host, Origin-Realm, Destination-Realm,
///    Auth-Application-Id, Service-Context-Id, CC-Request-Type, CC-Request-Number, Requested-Action,
///    Requested-Service-Unit or Service-Identifier (`Twice`), the first in order.
/// 4. There is no Origin-Host, Origin-Realm, Destination-Realm, Auth-Application-Id,
///    Service-Context-Id, CC-Request-Type or CC-Request-Number, in this order, or the type is
///    EVENT_REQUEST and there is no Requested-Action (`Missing`).
///
/// No value but that of CC-Request-Type is looked at. It takes no memory.
pub fn check_under(avps: &[RawAvp], profile: Profile) -> Result<(), GrammarFault>
    ensures fault { result_err result ≡ grammar_fault (profile_of profile.entry) avps.now }
    ensures within { IfErr result (IsWithin avps.now) }
{
    if let Some(fault) = session_fault(avps) {
        return Err(fault);
    }
    if let Some(at) = first_unknown(avps, profile) {
        return Err(GrammarFault::UnknownM { at });
    }
    if let Some(at) = first_repeated(avps, &SINGLE) {
        return Err(GrammarFault::Twice { at });
    }
    if let Some(code) = missing_in_request(avps) {
        return Err(GrammarFault::Missing { code });
    }
    Ok(())
}
