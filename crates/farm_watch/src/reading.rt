//! What a node reads in the capabilities of a neighbour (RFC 6733, section 5.3).

ghost use Rattle.std.specs.Prelude.{◌≡◌, ℕ, List, IfOk, IfSome, Some, find};
ghost use Rattle.std.specs.List.{list_any};
ghost use Rattle.std.specs.Option.{option_copied};
ghost use Rattle.dia_avp.specs.AvpList.{Answers, Reads};
ghost use Rattle.farm_watch.specs.Capabilities.{advertises, avps_in, greeting_to, has_number, is_advertised, is_named, is_of, is_shared, is_success, is_up, name_in, neighbour_named, neighbour_of};

use crate::codes::{RELAY_APPLICATION, SUCCESS, VENDOR_SPECIFIC_APPLICATION_ID};
use crate::site::{Application, Neighbour, WatchSite};
use dia_avp::{AvpFault, Octets, RawAvp, Wire, u32_of};
use dia_base::codes::{AUTH_APPLICATION_ID, CREDIT_CONTROL_APPLICATION, ORIGIN_HOST, RESULT_CODE};
use dia_base::{Identity, NodeNo};
use std::alloc::{AllocError, Global};

/// What becomes of a node that has connected and says who it is.
#[derive(Clone, Copy, PartialEq, Eq)]
pub enum Greeting {
    /// It says it in no way that can be read, it may not connect, or it is connected.
    Unwelcome,
    /// It speaks no application that this node speaks.
    NothingInCommon,
    /// It is this neighbour.
    Welcome(NodeNo),
}

/// What becomes of a node whose Capabilities-Exchange-Request has this body, where these nodes are up.
pub(crate) fn greeting_to<W: Wire>(
    alloc: Global,
    site: &WatchSite,
    up: &[NodeNo],
    body: &Octets,
) -> Result<Greeting, AllocError>
    ensures { IfOk result (λ g. g ≡ greeting_to site.now up.now (avps_in body.now)) }
{
    let avps = readable(W::split(alloc, body), alloc)?;
    let Some(node) = neighbour_of(site, &avps) else {
        return Ok(Greeting::Unwelcome);
    };
    if is_up(up, node) {
        return Ok(Greeting::Unwelcome);
    }
    if is_shared::<W>(alloc, site.application, &avps)? {
        Ok(Greeting::Welcome(node))
    } else {
        Ok(Greeting::NothingInCommon)
    }
}

/// Whether the body of a Capabilities-Exchange-Answer says that it succeeded.
pub(crate) fn is_success<W: Wire>(alloc: Global, body: &Octets) -> Result<bool, AllocError>
    ensures { IfOk result (λ b. b ≡ is_success (avps_in body.now)) }
{
    let avps = readable(W::split(alloc, body), alloc)?;
    match first_of(&avps, RESULT_CODE) {
        Some(avp) => Ok(has_number(avp, SUCCESS)),
        None => Ok(false),
    }
}

/// Whether the first Origin-Host of a body names this neighbour, without ASCII case.
pub fn is_named_in<W: Wire>(
    alloc: Global,
    site: &WatchSite,
    body: &Octets,
    node: NodeNo,
) -> Result<bool, AllocError>
    ensures { IfOk result (λ b. b ≡ is_named site.now node (avps_in body.now)) }
{
    let avps = readable(W::split(alloc, body), alloc)?;
    match neighbour_of(site, &avps) {
        Some(other) => Ok(other.0 == node.0),
        None => Ok(false),
    }
}

/// The name that the first Origin-Host of a body says; none where it says no identity, or memory is missing.
pub fn name_in<W: Wire>(alloc: Global, body: &Octets) -> Option<Identity>
    ensures { IfSome result (λ name. name_in (avps_in body.now) ≡ Some name) }
{
    let Ok(avps) = readable(W::split(alloc, body), alloc) else {
        return None;
    };
    let origin = first_of(&avps, ORIGIN_HOST)?;
    match Identity::read(alloc, origin.value.as_slice()) {
        Ok(name) => Some(name),
        Err(_) => None,
    }
}

/// Whether a node is up.
pub(crate) fn is_up(up: &[NodeNo], node: NodeNo) -> bool
    ensures { result ≡ is_up up.now node }
{
    up.iter().any(|other| other.0 == node.0)
}

/// The AVPs of a split, none where the octets are no list of AVPs.
pub(crate) fn readable(
    split: Result<Vec<RawAvp>, AvpFault>,
    alloc: Global,
) -> Result<Vec<RawAvp>, AllocError>
    ensures { (octets : List ℕ) → Answers (Reads octets) split → IfOk result (λ avps. avps.items ≡ avps_in octets) }
{
    match split {
        Ok(avps) => Ok(avps),
        Err(fault) => match fault {
            AvpFault::OutOfMemory => Err(AllocError),
            _ => Ok(Vec::new(alloc)),
        },
    }
}

fn is_of(avp: &RawAvp, code: u32) -> bool
    ensures { result ≡ is_of code avp.now }
{
    avp.code == code && avp.vendor == 0
}

pub(crate) fn first_of(avps: &[RawAvp], code: u32) -> Option<&RawAvp>
    ensures { option_copied result ≡ find (is_of code) avps.now }
{
    avps.iter().find(|avp| is_of(avp, code))
}

pub(crate) fn has_number(avp: &RawAvp, number: u32) -> bool
    ensures { result ≡ has_number number avp.now }
{
    match u32_of(avp) {
        Some(n) => n == number,
        None => false,
    }
}

/// The neighbour that the first Origin-Host names.
fn neighbour_of(site: &WatchSite, avps: &[RawAvp]) -> Option<NodeNo>
    ensures { result ≡ neighbour_of site.now avps.now }
{
    let origin = first_of(avps, ORIGIN_HOST)?;
    let name = origin.value.as_slice();
    let neighbour = neighbour_named(site.neighbours.as_slice(), name)?;
    Some(neighbour.node)
}

fn neighbour_named<'a>(neighbours: &'a [Neighbour], name: &[u8]) -> Option<&'a Neighbour>
    ensures { option_copied result ≡ neighbour_named neighbours.now name.now }
{
    neighbours.iter().find(|neighbour| neighbour.name.as_slice().eq_ignore_ascii_case(name))
}

/// Whether a node of this application and one that sent these AVPs have an application in common.
fn is_shared<W: Wire>(
    alloc: Global,
    application: Application,
    avps: &[RawAvp],
) -> Result<bool, AllocError>
    ensures { IfOk result (λ b. b ≡ is_shared application avps.now) }
{
    match application {
        Application::Relay => Ok(true),
        Application::CreditControl => is_advertised::<W>(alloc, avps),
    }
}

fn is_advertised<W: Wire>(alloc: Global, avps: &[RawAvp]) -> Result<bool, AllocError>
    ensures { IfOk result (λ b. b ≡ list_any is_advertised avps.now) }
{
    for avp in avps {
        if is_advertised_in::<W>(alloc, avp)? {
            return Ok(true);
        }
    }
    Ok(false)
}

/// Whether the AVP, or a member of it, advertises Credit-Control or all applications.
fn is_advertised_in<W: Wire>(alloc: Global, avp: &RawAvp) -> Result<bool, AllocError>
    ensures { IfOk result (λ b. b ≡ is_advertised avp.now) }
{
    if is_of(avp, VENDOR_SPECIFIC_APPLICATION_ID) {
        let members = members_of::<W>(alloc, avp)?;
        Ok(do_advertise(&members))
    } else {
        Ok(advertises(avp))
    }
}

fn do_advertise(avps: &[RawAvp]) -> bool
    ensures { result ≡ list_any advertises avps.now }
{
    avps.iter().any(|avp| advertises(avp))
}

/// The members of a group.
fn members_of<W: Wire>(alloc: Global, avp: &RawAvp) -> Result<Vec<RawAvp>, AllocError>
    ensures { IfOk result (λ avps. avps.items ≡ avps_in avp.now.value) }
{
    readable(W::inside(alloc, avp, 1), alloc)
}

fn advertises(avp: &RawAvp) -> bool
    ensures { result ≡ advertises avp.now }
{
    is_of(avp, AUTH_APPLICATION_ID)
        && (has_number(avp, CREDIT_CONTROL_APPLICATION) || has_number(avp, RELAY_APPLICATION))
}
