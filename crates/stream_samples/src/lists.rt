//! Lists of AVPs: those that end too early, and groups that are too deep.

use dia_avp::{AvpFault, Octets, RawAvp, ViewWire, Wire};
use std::alloc::Global;

/// Prints an AVP behind others.
fn print_avp(rt: &impl Print, alloc: Global, avp: &RawAvp) -> anyhow::Result<()> {
    let value = hex::encode(alloc, avp.value.as_slice())?;
    print!(rt; " {} {value}", avp.code)?;
    Ok(())
}

/// Prints what a list spells.
fn print_avps(rt: &impl Print, alloc: Global, text: &str, avps: &[RawAvp]) -> anyhow::Result<()> {
    print!(rt; "{text}:")?;
    for avp in avps {
        print_avp(rt, alloc, avp)?;
    }
    println!(rt; "")?;
    Ok(())
}

/// Prints what a list spells, or its first fault.
fn print_split(rt: &impl Print, alloc: Global, text: &str, octets: &Octets) -> anyhow::Result<()> {
    match ViewWire::split(alloc, octets) {
        Ok(avps) => print_avps(rt, alloc, text, &avps),
        Err(fault) => Ok(println!(rt; "{text}: {fault}")?),
    }
}

/// The same of a text.
fn print_text(rt: &impl Print, alloc: Global, text: &str) -> anyhow::Result<()> {
    let octets = Octets::from_vec(hex::decode(alloc, text)?)?;
    print_split(rt, alloc, text, &octets)
}

/// A group with one AVP.
fn group(alloc: Global) -> anyhow::Result<RawAvp> {
    let value = Octets::from_vec(hex::decode(alloc, "000001b04000000c0000000a")?)?;
    Ok(RawAvp {
        code: 456,
        flags: 0x40,
        vendor: 0,
        value,
    })
}

/// How many AVPs a group spells at a depth.
fn count_inside(alloc: Global, group: &RawAvp, depth: u32) -> Result<usize, AvpFault> {
    Ok(ViewWire::inside(alloc, group, depth)?.len())
}

/// Prints what a group spells at each depth.
fn print_depths(rt: &impl Print, alloc: Global, group: &RawAvp) -> anyhow::Result<()> {
    for depth in 1..=6 {
        match count_inside(alloc, group, depth) {
            Ok(count) => println!(rt; "depth {depth}: {count} inside")?,
            Err(fault) => println!(rt; "depth {depth}: {fault}")?,
        }
    }
    Ok(())
}

/// Lists that are whole or not, and a group at each depth.
pub fn print_all(rt: &impl Print, alloc: Global) -> anyhow::Result<()> {
    for text in [
        "00000107400000",
        "0000010740000007",
        "00000107c000000b00000000",
        "000001074000000a63",
        "000001074000000963",
    ] {
        print_text(rt, alloc, text)?;
    }
    let group = group(alloc)?;
    print_depths(rt, alloc, &group)
}
