//! The messages that a node writes to a neighbour (RFC 6733, sections 5.3 to 5.5).

ghost use Rattle.std.specs.Prelude.{◌≡◌, ◌≤◌, ◌++◌, flat_map, length, IfOk, OnOk};
ghost use Rattle.dia_avp.specs.AvpList.{written, written_list};
ghost use Rattle.dia_dict.specs.declared.value.Typed.TheVariants.{Address, Unsigned32};
ghost use Rattle.farm_watch.specs.Numbers.{host_ip_address};
ghost use Rattle.dia_dict.specs.Reading.{avp_of, avp_with, flags_of};
ghost use Rattle.farm_watch.specs.PeerMessages.{address_octets, answer_header, capabilities_part, cause_part, cea, cer, dpr, dwr, origin_part, own_part, request_header, result_part, state_part, success_to, vendor_application, vendor_part};

use crate::codes::{
    CAPABILITIES_EXCHANGE, COMMON_MESSAGES, DEVICE_WATCHDOG, DISCONNECT_CAUSE, DISCONNECT_PEER,
    HOST_IP_ADDRESS, ORIGIN_STATE_ID, SUCCESS, SUPPORTED_VENDOR_ID, VENDOR_ID,
    VENDOR_SPECIFIC_APPLICATION_ID,
};
use crate::site::{HostAddress, WatchSite};
use byteorder::{BigEndian, ByteOrder};
use dia_avp::layout::MANDATORY;
use dia_avp::{Octets, write_avp};
use dia_base::codes::{
    AUTH_APPLICATION_ID, CREDIT_CONTROL_APPLICATION, ORIGIN_HOST, ORIGIN_REALM, PRODUCT_NAME,
    RESULT_CODE,
};
use dia_message::{Header, Message};
use std::alloc::{AllocError, Global};

/// What the node calls itself.
const PRODUCT: &str = "Diameter relay farm";

/// The address family of IPv4.
const IPV4: u8 = 1;

/// The address family of IPv6.
const IPV6: u8 = 2;

/// A Disconnect-Cause (RFC 6733, section 5.4.3).
const REBOOTING: u32 = 0;

/// Capabilities-Exchange-Request.
#[tactic(auto, unfolding(crate::specs::PeerMessages::cer))]
pub(crate) fn cer(alloc: Global, site: &WatchSite, identifier: u32) -> Result<Message, AllocError>
    ensures { IfOk result (λ message. message ≡ cer site.now identifier) }
{
    let mut body = Vec::new(alloc);
    push_capabilities(alloc, &mut body, site)?;
    Ok(Message {
        header: request_header(CAPABILITIES_EXCHANGE, identifier),
        body: Octets::from_vec(body)?,
    })
}

/// Capabilities-Exchange-Answer.
#[tactic(auto, unfolding(crate::specs::PeerMessages::cea))]
pub(crate) fn cea(
    alloc: Global,
    site: &WatchSite,
    code: u32,
    request: &Header,
) -> Result<Message, AllocError>
    ensures { IfOk result (λ message. message ≡ cea site.now code request.now) }
{
    let mut body = Vec::new(alloc);
    push_u32(&mut body, RESULT_CODE, code)?;
    push_capabilities(alloc, &mut body, site)?;
    Ok(Message {
        header: answer_header(request),
        body: Octets::from_vec(body)?,
    })
}

/// Device-Watchdog-Request.
#[tactic(auto, unfolding(crate::specs::PeerMessages::dwr))]
pub(crate) fn dwr(alloc: Global, site: &WatchSite, identifier: u32) -> Result<Message, AllocError>
    ensures { IfOk result (λ message. message ≡ dwr site.now identifier) }
{
    let mut body = Vec::new(alloc);
    push_origin(&mut body, site)?;
    push_state(&mut body, site)?;
    Ok(Message {
        header: request_header(DEVICE_WATCHDOG, identifier),
        body: Octets::from_vec(body)?,
    })
}

/// Disconnect-Peer-Request. Its cause is REBOOTING: the neighbour may connect again.
#[tactic(auto, unfolding(crate::specs::PeerMessages::dpr))]
pub(crate) fn dpr(alloc: Global, site: &WatchSite, identifier: u32) -> Result<Message, AllocError>
    ensures { IfOk result (λ message. message ≡ dpr site.now identifier) }
{
    let mut body = Vec::new(alloc);
    push_origin(&mut body, site)?;
    push_u32(&mut body, DISCONNECT_CAUSE, REBOOTING)?;
    Ok(Message {
        header: request_header(DISCONNECT_PEER, identifier),
        body: Octets::from_vec(body)?,
    })
}

/// Device-Watchdog-Answer and Disconnect-Peer-Answer, by the request.
#[tactic(auto, unfolding(crate::specs::PeerMessages::success_to))]
pub(crate) fn success_to(
    alloc: Global,
    site: &WatchSite,
    request: &Header,
) -> Result<Message, AllocError>
    ensures { IfOk result (λ message. message ≡ success_to site.now request.now) }
{
    let mut body = Vec::new(alloc);
    push_u32(&mut body, RESULT_CODE, SUCCESS)?;
    push_origin(&mut body, site)?;
    if request.command != DISCONNECT_PEER {
        push_state(&mut body, site)?;
    }
    Ok(Message {
        header: answer_header(request),
        body: Octets::from_vec(body)?,
    })
}

fn request_header(command: u32, identifier: u32) -> Header
    ensures { result ≡ request_header command identifier }
{
    Header {
        request: true,
        proxiable: false,
        error: false,
        resent: false,
        command,
        application: COMMON_MESSAGES,
        hop: identifier,
        end: identifier,
    }
}

fn answer_header(request: &Header) -> Header
    ensures { result ≡ answer_header request.now }
{
    Header {
        request: false,
        proxiable: false,
        error: false,
        resent: false,
        ..*request
    }
}

/// Adds an AVP with these octets as its value.
fn push(body: &mut Vec<u8>, code: u32, value: &[u8]) -> Result<(), AllocError>
    requires { length value.now ≤ 255 }
    ensures { OnOk result (body.new.items ≡ body.old.items ++ written (avp_with code value.now)) }
{
    let flags = if code == PRODUCT_NAME { 0 } else { MANDATORY };
    write_avp(body, code, flags, 0, value).map_err(|_| AllocError)
}

/// Adds an Unsigned32.
fn push_u32(body: &mut Vec<u8>, code: u32, n: u32) -> Result<(), AllocError>
    ensures { OnOk result (body.new.items ≡ body.old.items ++ written (avp_of code (Unsigned32 n))) }
{
    let mut octets = [0u8; 4];
    BigEndian::write_u32(&mut octets, n);
    push(body, code, &octets)
}

/// Adds Origin-Host and Origin-Realm.
fn push_origin(body: &mut Vec<u8>, site: &WatchSite) -> Result<(), AllocError>
    ensures { OnOk result (body.new.items ≡ body.old.items ++ written_list (origin_part site.now)) }
{
    push(body, ORIGIN_HOST, site.name.as_slice())?;
    push(body, ORIGIN_REALM, site.realm.as_slice())
}

/// Adds Host-IP-Address.
fn push_address(alloc: Global, body: &mut Vec<u8>, address: HostAddress) -> Result<(), AllocError>
    ensures { OnOk result (body.new.items ≡ body.old.items ++ written (avp_of host_ip_address (Address (address_octets address)))) }
{
    let mut value = Vec::new(alloc);
    match address {
        HostAddress::V4(octets) => {
            value.extend_from_slice(&[0, IPV4])?;
            value.extend_from_slice(&octets)?;
        }
        HostAddress::V6(octets) => {
            value.extend_from_slice(&[0, IPV6])?;
            value.extend_from_slice(&octets)?;
        }
    }
    push(body, HOST_IP_ADDRESS, &value)
}

/// Adds what a node tells of itself, for whatever vendor.
fn push_own(alloc: Global, body: &mut Vec<u8>, site: &WatchSite) -> Result<(), AllocError>
    ensures { OnOk result (body.new.items ≡ body.old.items ++ written_list (own_part site.now)) }
{
    push_origin(body, site)?;
    push_address(alloc, body, site.address)?;
    push_u32(body, VENDOR_ID, 0)?;
    push(body, PRODUCT_NAME, PRODUCT.as_bytes())?;
    push_u32(body, AUTH_APPLICATION_ID, site.application.number())
}

/// Adds Origin-State-Id, if the node tells it.
fn push_state(body: &mut Vec<u8>, site: &WatchSite) -> Result<(), AllocError>
    ensures { OnOk result (body.new.items ≡ body.old.items ++ written_list (state_part site.now)) }
{
    match site.state {
        Some(state) => push_u32(body, ORIGIN_STATE_ID, state),
        None => Ok(()),
    }
}

/// Credit control as an application of the vendor.
fn vendor_application(alloc: Global, vendor: u32) -> Result<Vec<u8>, AllocError>
    ensures group { IfOk result (λ group. group.items ≡ written_list (vendor_application vendor)) }
    ensures short { IfOk result (λ group. length group.items ≡ 24) }
{
    let mut group = Vec::new(alloc);
    push_u32(&mut group, VENDOR_ID, vendor)?;
    push_u32(&mut group, AUTH_APPLICATION_ID, CREDIT_CONTROL_APPLICATION)?;
    Ok(group)
}

/// Adds that a node speaks credit control for the vendor.
fn push_vendor(alloc: Global, body: &mut Vec<u8>, vendor: u32) -> Result<(), AllocError>
    ensures { OnOk result (body.new.items ≡ body.old.items ++ written_list (vendor_part vendor)) }
{
    push_u32(body, SUPPORTED_VENDOR_ID, vendor)?;
    let group = vendor_application(alloc, vendor)?;
    push(body, VENDOR_SPECIFIC_APPLICATION_ID, &group)
}

/// Adds that a node speaks credit control for these vendors.
fn push_vendors(alloc: Global, body: &mut Vec<u8>, vendors: &[u32]) -> Result<(), AllocError>
    ensures { OnOk result (body.new.items ≡ body.old.items ++ written_list (flat_map vendor_part vendors.now)) }
{
    for vendor in vendors {
        push_vendor(alloc, body, *vendor)?;
    }
    Ok(())
}

/// Adds what a node tells of itself.
fn push_capabilities(alloc: Global, body: &mut Vec<u8>, site: &WatchSite) -> Result<(), AllocError>
    ensures { OnOk result (body.new.items ≡ body.old.items ++ written_list (capabilities_part site.now)) }
{
    push_own(alloc, body, site)?;
    push_state(body, site)?;
    push_vendors(alloc, body, site.advertised.as_slice())
}
