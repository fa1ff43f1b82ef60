//! The AVPs of a request as its grammar counts them, where a profile tolerates something.

ghost use Rattle.std.specs.Prelude.{◌≡◌, ◌++◌, None, filter, find, option_to_list, IfOk, OnOk};
ghost use Rattle.std.specs.Option.{option_copied};
ghost use Rattle.dia_base.specs.Codes.{auth_application_id};
ghost use Rattle.dia_grammar.specs.Grammar.{is_of};
ghost use Rattle.dia_grammar.specs.Profile.{profile_of};
ghost use Rattle.cc_view.specs.RequestView.Counting.{applications_inside, counted, first_with, inner_applications, is_alike, is_credit_control, is_left_out, is_new, kept_behind, kept_one, put_in, repeats};

use crate::view::counts::members_of;
use dia_avp::{RawAvp, Wire, u32_of};
use dia_base::codes::{AUTH_APPLICATION_ID, CREDIT_CONTROL_APPLICATION, ORIGIN_HOST, ORIGIN_REALM};
use dia_grammar::{Profile, is_of};
use std::alloc::{AllocError, Global};

/// The code of Vendor-Specific-Application-Id (RFC 6733, section 6.11).
const VENDOR_SPECIFIC_APPLICATION_ID: u32 = 260;

/// The AVPs as they are counted under the profile: copies of those that are kept, and of what is put in.
#[tactic(auto, unfolding(crate::specs::RequestView::Counting::counted))]
pub(crate) fn counted_avps<W: Wire>(
    alloc: Global,
    profile: Profile,
    avps: &[RawAvp],
) -> Result<Vec<RawAvp>, AllocError>
    ensures { IfOk result (λ found. found.items ≡ counted (profile_of profile.entry) avps.now) }
{
    let mut found = kept_of(alloc, profile, avps)?;
    push_stand_ins::<W>(alloc, profile, avps, &mut found)?;
    Ok(found)
}

/// The AVPs without those that are left out.
fn kept_of(alloc: Global, profile: Profile, avps: &[RawAvp]) -> Result<Vec<RawAvp>, AllocError>
    ensures { IfOk result (λ kept. kept.items ≡ kept_behind (profile_of profile.entry) None None avps.now) }
{
    let mut kept = Vec::new(alloc);
    let mut host = None;
    let mut realm = None;
    for avp in avps {
        push_kept(profile, host, realm, avp, &mut kept)?;
        host = first_with(ORIGIN_HOST, host, avp);
        realm = first_with(ORIGIN_REALM, realm, avp);
    }
    Ok(kept)
}

/// The first AVP of this code, once this one has come.
fn first_with<'a>(code: u32, first: Option<&'a RawAvp>, avp: &'a RawAvp) -> Option<&'a RawAvp>
    ensures { option_copied result ≡ first_with code (option_copied first.entry) avp.now }
{
    match first {
        Some(first) => Some(first),
        None if is_of(avp, code) => Some(avp),
        None => None,
    }
}

/// Adds an AVP that stands behind the first Origin-Host and Origin-Realm, unless it is left out.
fn push_kept(
    profile: Profile,
    host: Option<&RawAvp>,
    realm: Option<&RawAvp>,
    avp: &RawAvp,
    kept: &mut Vec<RawAvp>,
) -> Result<(), AllocError>
    ensures { OnOk result (kept.new.items ≡ kept.old.items ++ kept_one (profile_of profile.entry) (option_copied host.entry) (option_copied realm.entry) avp.now) }
{
    if is_left_out(profile, host, realm, avp) {
        return Ok(());
    }
    kept.push(avp.clone()?)?;
    Ok(())
}

fn is_left_out(
    profile: Profile,
    host: Option<&RawAvp>,
    realm: Option<&RawAvp>,
    avp: &RawAvp,
) -> bool
    ensures { result ≡ is_left_out (profile_of profile.entry) (option_copied host.entry) (option_copied realm.entry) avp.now }
{
    profile.tolerates_origin_twice()
        && (repeats(ORIGIN_HOST, host, avp) || repeats(ORIGIN_REALM, realm, avp))
}

/// Whether the AVP is of this code, and says what the first of this code says.
fn repeats(code: u32, first: Option<&RawAvp>, avp: &RawAvp) -> bool
    ensures { result ≡ repeats code (option_copied first.entry) avp.now }
{
    match first {
        Some(first) => is_of(avp, code) && is_alike(first, avp),
        None => false,
    }
}

/// Whether the two have the same octets.
#[tactic(auto, unfolding(crate::specs::RequestView::Counting::is_alike))]
fn is_alike(first: &RawAvp, avp: &RawAvp) -> bool
    ensures { result ≡ is_alike first.now avp.now }
{
    first.value == avp.value
}

/// Puts in what the groups of a request say of its application, where that is tolerated.
fn push_stand_ins<W: Wire>(
    alloc: Global,
    profile: Profile,
    avps: &[RawAvp],
    found: &mut Vec<RawAvp>,
) -> Result<(), AllocError>
    ensures { OnOk result (found.new.items ≡ found.old.items ++ put_in (profile_of profile.entry) avps.now) }
{
    if !profile.tolerates_application_in_group() {
        return Ok(());
    }
    let inner = inner_applications::<W>(alloc, avps)?;
    match first_application(avps) {
        Some(own) => push_new(own, &inner, found),
        None => push_first(&inner, found),
    }
}

/// The request's own Auth-Application-Id. Of several the first counts.
fn first_application(avps: &[RawAvp]) -> Option<&RawAvp>
    ensures { option_copied result ≡ find (is_of auth_application_id) avps.now }
{
    avps.iter().find(|avp| is_of(avp, AUTH_APPLICATION_ID))
}

/// The Auth-Application-Ids in the Vendor-Specific-Application-Ids of a request.
fn inner_applications<W: Wire>(alloc: Global, avps: &[RawAvp]) -> Result<Vec<RawAvp>, AllocError>
    ensures { IfOk result (λ found. found.items ≡ inner_applications avps.now) }
{
    let mut found = Vec::new(alloc);
    for avp in avps {
        push_inside::<W>(alloc, avp, &mut found)?;
    }
    Ok(found)
}

fn push_inside<W: Wire>(
    alloc: Global,
    avp: &RawAvp,
    found: &mut Vec<RawAvp>,
) -> Result<(), AllocError>
    ensures { OnOk result (found.new.items ≡ found.old.items ++ applications_inside avp.now) }
{
    if !is_of(avp, VENDOR_SPECIFIC_APPLICATION_ID) {
        return Ok(());
    }
    let members = members_of::<W>(alloc, avp, 1)?;
    push_applications(&members, found)
}

fn push_applications(members: &[RawAvp], found: &mut Vec<RawAvp>) -> Result<(), AllocError>
    ensures { OnOk result (found.new.items ≡ found.old.items ++ filter (is_of auth_application_id) members.now) }
{
    for avp in members {
        if is_of(avp, AUTH_APPLICATION_ID) {
            found.push(avp.clone()?)?;
        }
    }
    Ok(())
}

/// Puts in the applications of groups that say something else than the request's own: such a second one is
/// refused.
fn push_new(own: &RawAvp, inner: &[RawAvp], found: &mut Vec<RawAvp>) -> Result<(), AllocError>
    ensures { OnOk result (found.new.items ≡ found.old.items ++ filter (is_new own.now) inner.now) }
{
    for application in inner {
        if !is_alike(own, application) {
            found.push(application.clone()?)?;
        }
    }
    Ok(())
}

/// Puts in the first application that is Credit-Control, if there is one.
fn push_first(inner: &[RawAvp], found: &mut Vec<RawAvp>) -> Result<(), AllocError>
    ensures { OnOk result (found.new.items ≡ found.old.items ++ option_to_list (find is_credit_control inner.now)) }
{
    match first_credit_control(inner) {
        Some(avp) => {
            found.push(avp.clone()?)?;
            Ok(())
        }
        None => Ok(()),
    }
}

fn first_credit_control(avps: &[RawAvp]) -> Option<&RawAvp>
    ensures { option_copied result ≡ find is_credit_control avps.now }
{
    avps.iter().find(|avp| is_credit_control(avp))
}

fn is_credit_control(avp: &RawAvp) -> bool
    ensures { result ≡ is_credit_control avp.now }
{
    u32_of(avp) == Some(CREDIT_CONTROL_APPLICATION)
}
