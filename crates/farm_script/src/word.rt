//! What a word stands for: a node, a number, a message.

ghost use Rattle.std.specs.Prelude.{◌≡◌, ◌⊎◌, true, ◌+◌, ◌-◌, ◌*◌, ◌<◌, ◌^◌, position, IfOk, IfErr, IsErr};
ghost use Rattle.std.specs.Option.{SomeIff};
ghost use Rattle.hex.specs.Hex.{decode_of};
ghost use Rattle.farm_script.specs.Words.{Answers, message_of, node_of, is_named, number_of, value_of, is_digit};

use crate::fault::LineFault;
use dia_base::NodeNo;
use dia_message::{Message, whole_message};
use farm_base::{Node, Site};
use hex::FromHexError;
use std::alloc::Global;

/// The node with this name, compared without ASCII case: a relay, a front or a client.
pub fn node_of(site: &Site, name: &[u8]) -> Result<NodeNo, LineFault>
    ensures { result ≡ node_of site.now name.now }
{
    place_of(site.nodes.as_slice(), name)
        .and_then(number_at)
        .ok_or(LineFault::UnknownName)
}

fn place_of(nodes: &[Node], name: &[u8]) -> Option<usize>
    ensures { result ≡ position (is_named name.now) nodes.now }
{
    nodes.iter().position(|node| is_named(node, name))
}

fn is_named(node: &Node, name: &[u8]) -> bool
    ensures { result ≡ is_named name.now node.now }
{
    node.name.as_slice().eq_ignore_ascii_case(name)
}

/// The number of the node at a place.
fn number_at(place: usize) -> Option<NodeNo>
    ensures { SomeIff result (place < 2 ^ 32) (record { 0 = place }) }
{
    u32::try_from(place).ok().map(NodeNo)
}

/// The number that the decimal digits of a word write, below 2^64.
pub fn number_of(word: &[u8]) -> Result<u64, LineFault>
    ensures { result ≡ number_of word.now }
{
    value_of(word).ok_or(LineFault::BadNumber)
}

fn value_of(word: &[u8]) -> Option<u64>
    ensures { result ≡ value_of word.now }
{
    let mut number = 0u64;
    for octet in word {
        number = with_digit(number, *octet)?;
    }
    Some(number)
}

/// A number with one more decimal digit behind it.
fn with_digit(number: u64, octet: u8) -> Option<u64>
    ensures { SomeIff result ((is_digit octet ≡ true) × (10 * number + (octet - 48) < 2 ^ 64)) (10 * number + (octet - 48)) }
{
    let digit = digit_of(octet)?;
    number.checked_mul(10)?.checked_add(u64::from(digit))
}

fn digit_of(octet: u8) -> Option<u8>
    ensures { SomeIff result (is_digit octet ≡ true) (octet - 48) }
{
    match octet {
        b'0'..=b'9' => Some(octet - b'0'),
        _ => None,
    }
}

/// The message that hexadecimal digits write.
pub fn message_of(alloc: Global, word: &[u8]) -> Result<Message, LineFault>
    ensures { Answers (message_of word.now) result }
{
    let octets = octets_of(alloc, word)?;
    whole_message(alloc, &octets)?.ok_or(LineFault::BadMessage)
}

fn octets_of(alloc: Global, word: &[u8]) -> Result<Vec<u8>, LineFault>
    ensures ok { IfOk result (λ octets. decode_of word.now ≡ Ok octets.items) }
    ensures err { IfErr result (λ fault. (fault ≡ LineFault.OutOfMemory) ⊎ ((fault ≡ LineFault.BadHex) × IsErr (decode_of word.now))) }
{
    match hex::decode(alloc, word) {
        Ok(octets) => Ok(octets),
        Err(FromHexError::OutOfMemory) => Err(LineFault::OutOfMemory),
        Err(_) => Err(LineFault::BadHex),
    }
}
