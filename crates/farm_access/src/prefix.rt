//! Prefixes of addresses.

ghost use Rattle.std.specs.Prelude.{◌≡◌, ◌/◌, ◌^◌, ◌-◌, ◌<◌, IfNone, IfSome, ℕ};
ghost use Rattle.std.specs.Net.Addr.{ipv4_bits, ipv6_bits};
ghost use Rattle.std.specs.Net.Grammar.{IsIpv4Text, IsNumber};
ghost use Rattle.std.specs.declared.net.ipv4_addr.Ipv4Addr.{Ipv4Addr};
ghost use Rattle.std.specs.declared.net.ip_addr.IpAddr.{IpAddr};
ghost use Rattle.farm_access.specs.Prefixes.{IsAddressText, IsPrefixText, WritesPart, WritesWhole, contains, width_of};
ghost use Rattle.farm_access.specs.declared.prefix.Prefix.{Prefix};

use std::net::{IpAddr, Ipv4Addr, Ipv6Addr};

/// The addresses that begin with the same bits (RFC 4632, section 3.1; RFC 4291, section 2.3).
#[derive(Clone, Copy, PartialEq, Eq)]
pub struct Prefix {
    /// One of them.
    pub address: IpAddr,
    /// How many bits they have in common: of an IPv4 address at most 32, of an IPv6 address at most 128. A greater number
    /// means all.
    pub length: u32,
}

/// The first bits of an IPv4 address, as a number.
fn first_of_v4(address: Ipv4Addr, length: u32) -> u32
    ensures { result ≡ ipv4_bits address / 2 ^ (32 - length) }
{
    match address.to_bits().checked_shr(32u32.saturating_sub(length)) {
        Some(bits) => bits,
        None => 0,
    }
}

/// The first bits of an IPv6 address, as a number.
fn first_of_v6(address: Ipv6Addr, length: u32) -> u128
    ensures { result ≡ ipv6_bits address / 2 ^ (128 - length) }
{
    match address.to_bits().checked_shr(128u32.saturating_sub(length)) {
        Some(bits) => bits,
        None => 0,
    }
}

/// How many bits an address has.
fn width_of(address: IpAddr) -> u32
    ensures { result ≡ width_of address }
{
    match address {
        IpAddr::V4(_) => Ipv4Addr::BITS,
        IpAddr::V6(_) => Ipv6Addr::BITS,
    }
}

/// The number that decimal digits write.
fn number_of(digits: &str) -> Option<u32>
    ensures some { IfSome result (IsNumber 10 digits.now) }
    ensures none { IfNone result ((n : ℕ) → n < 2 ^ 32 → ¬ IsNumber 10 digits.now n) }
{
    if digits.starts_with('+') {
        return None;
    }
    match u32::from_str_radix(digits, 10) {
        Ok(number) => Some(number),
        Err(_) => None,
    }
}

/// The IPv4 address that a text writes.
fn v4_of(text: &str) -> Option<Ipv4Addr>
    ensures some { IfSome result (IsIpv4Text text.now) }
    ensures none { IfNone result ((address : Ipv4Addr) → ¬ IsIpv4Text text.now address) }
{
    match Ipv4Addr::parse_ascii(text.as_bytes()) {
        Ok(address) => Some(address),
        Err(_) => None,
    }
}

/// The address that a text writes which writes no IPv4 address.
fn v6_of(text: &str) -> Option<IpAddr>
    requires { (address : Ipv4Addr) → ¬ IsIpv4Text text.now address }
    ensures some { IfSome result (IsAddressText text.now) }
    ensures none { IfNone result ((address : IpAddr) → ¬ IsAddressText text.now address) }
{
    match Ipv6Addr::parse_ascii(text.as_bytes()) {
        Ok(address) => Some(IpAddr::V6(address)),
        Err(_) => None,
    }
}

/// The address that a text writes.
fn address_of(text: &str) -> Option<IpAddr>
    ensures some { IfSome result (IsAddressText text.now) }
    ensures none { IfNone result ((address : IpAddr) → ¬ IsAddressText text.now address) }
{
    match v4_of(text) {
        Some(address) => Some(IpAddr::V4(address)),
        None => v6_of(text),
    }
}

/// All bits of the address that a text writes.
fn whole_of(text: &str) -> Option<Prefix>
    ensures some { IfSome result (WritesWhole text.now) }
    ensures none { IfNone result ((prefix : Prefix) → ¬ WritesWhole text.now prefix) }
{
    let address = address_of(text)?;
    Some(Prefix {
        address,
        length: width_of(address),
    })
}

/// So many bits of the address that a text writes.
fn part_of(text: &str, digits: &str) -> Option<Prefix>
    ensures some { IfSome result (WritesPart text.now digits.now) }
    ensures none { IfNone result ((prefix : Prefix) → ¬ WritesPart text.now digits.now prefix) }
{
    let address = address_of(text)?;
    let length = number_of(digits)?;
    if length > width_of(address) {
        return None;
    }
    Some(Prefix { address, length })
}

impl Prefix {
    /// The prefix that a text writes: an address, `/` and a number of its bits, as `192.0.2.0/24` or `2001:db8::/32`, or an
    /// address alone, which is all of its bits. None where the text writes no address, or more bits than that has.
    pub fn read(text: &str) -> Option<Prefix>
        ensures some { IfSome result (IsPrefixText text.now) }
        ensures none { IfNone result ((prefix : Prefix) → ¬ IsPrefixText text.now prefix) }
    {
        match text.split_once('/') {
            Some((address, digits)) => part_of(address, digits),
            None => whole_of(text),
        }
    }

    /// Whether an address begins with its bits. An IPv4 address and an IPv6 address have none in common.
    pub fn contains(&self, address: IpAddr) -> bool
        ensures { result ≡ contains self.now address }
    {
        match (self.address, address) {
            (IpAddr::V4(one), IpAddr::V4(other)) => {
                first_of_v4(one, self.length) == first_of_v4(other, self.length)
            }
            (IpAddr::V6(one), IpAddr::V6(other)) => {
                first_of_v6(one, self.length) == first_of_v6(other, self.length)
            }
            (IpAddr::V4(_), IpAddr::V6(_)) | (IpAddr::V6(_), IpAddr::V4(_)) => false,
        }
    }
}
