//! What is asked of a list of AVPs, be it that of a message or of a group.

ghost use Rattle.std.specs.Prelude.{◌≡◌, ◌<◌, length, IfSome};
ghost use Rattle.dia_grammar.specs.Grammar.{has_avp, has_row, is_among, is_known, is_of, is_second, is_standard, is_unknown_mandatory, missing_of, second_of, unknown_of};
ghost use Rattle.dia_grammar.specs.Profile.{profile_of};

use crate::profile::Profile;
use dia_avp::RawAvp;
use dia_avp::layout::is_mandatory;
use dia_base::Code;
use dia_base::codes::SERVICE_CONTEXT_ID;
use dia_dict::row_of;

/// Whether the AVP has this code and vendor 0.
pub fn is_of(avp: &RawAvp, code: u32) -> bool
    ensures { result ≡ is_of code avp.now }
{
    avp.vendor == 0 && avp.code == code
}

/// Whether the AVP has one of these codes and vendor 0.
pub fn is_among(avp: &RawAvp, codes: &[u32]) -> bool
    ensures { result ≡ is_among codes.now avp.now }
{
    codes.iter().any(|code| is_of(avp, *code))
}

/// Whether an AVP of this code and vendor 0 is there.
pub fn has_avp(avps: &[RawAvp], code: u32) -> bool
    ensures { result ≡ has_avp code avps.now }
{
    avps.iter().any(|avp| is_of(avp, code))
}

fn has_row(avp: &RawAvp) -> bool
    ensures { result ≡ has_row avp.now.code avp.now.vendor }
{
    row_of(Code(avp.code), avp.vendor).is_some()
}

/// Whether it has one of the codes 1 to 461 of vendor 0.
fn is_standard(avp: &RawAvp) -> bool
    ensures { result ≡ is_standard avp.now.code avp.now.vendor }
{
    avp.vendor == 0 && 1 <= avp.code && avp.code <= SERVICE_CONTEXT_ID
}

/// Whether the AVP is known: its vendor is 0 and its code is known under the profile or one of 1 to 461,
/// or the dictionary has a row for it, or its vendor is listed.
pub fn is_known(avp: &RawAvp, profile: Profile) -> bool
    ensures { result ≡ is_known (profile_of profile.entry) avp.now }
{
    is_among(avp, profile.known)
        || is_standard(avp)
        || has_row(avp)
        || profile.vendors.contains(&avp.vendor)
}

fn is_unknown_mandatory(avp: &RawAvp, profile: Profile) -> bool
    ensures { result ≡ is_unknown_mandatory (profile_of profile.entry) avp.now }
{
    is_mandatory(avp.flags) && !is_known(avp, profile)
}

/// The place of the first AVP that has the flag M and is not known (RFC 6733, section 7.1.5:
/// DIAMETER_AVP_UNSUPPORTED).
pub fn first_unknown(avps: &[RawAvp], profile: Profile) -> Option<usize>
    ensures place { result ≡ unknown_of (profile_of profile.entry) avps.now }
    ensures within { IfSome result (λ at. at < length avps.now) }
{
    avps.iter()
        .position(|avp| is_unknown_mandatory(avp, profile))
}

/// Whether it has one of the codes, and an AVP before it has the same.
fn is_second(avp: &RawAvp, before: &[RawAvp], codes: &[u32]) -> bool
    ensures { result ≡ is_second codes.now before.now avp.now }
{
    is_among(avp, codes) && has_avp(before, avp.code)
}

/// The place of the first AVP that is a second one of its code, among these codes (RFC 6733, section
/// 7.1.5: DIAMETER_AVP_OCCURS_TOO_MANY_TIMES).
pub fn first_repeated(avps: &[RawAvp], codes: &[u32]) -> Option<usize>
    ensures place { result ≡ second_of codes.now avps.now }
    ensures within { IfSome result (λ at. at < length avps.now) }
{
    for (at, avp) in avps.iter().enumerate() {
        if is_second(avp, &avps[..at], codes) {
            return Some(at);
        }
    }
    None
}

/// The first of these codes that no AVP has (RFC 6733, section 7.1.5: DIAMETER_MISSING_AVP).
pub fn first_missing(avps: &[RawAvp], codes: &[u32]) -> Option<u32>
    ensures { result ≡ missing_of codes.now avps.now }
{
    codes.iter().copied().find(|code| !has_avp(avps, *code))
}
