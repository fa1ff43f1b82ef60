//! Numbers, flags and octets: how they are written, and read again.

ghost use Rattle.std.specs.Prelude.{◌≡◌, ◌<◌, ◌^◌, ◌++◌, [], ◌∷◌, OnOk};
ghost use Rattle.book_rows.specs.declared.fault.Fault.TheVariants.{BadFlag};
ghost use Rattle.book_rows.specs.Form.{Adds, Gives, counted, number, optional};
ghost use Rattle.book_rows.specs.Parts.{bool_number, flag, signed, signed_by, signed_parts};

use crate::fault::{Fault, ReadError};
use byteorder::{BigEndian, ByteOrder};
use dia_avp::Octets;
use std::alloc::{AllocError, Global};

/// The number in the first octet, and the octets behind it. `Fault::Short` where there are fewer.
#[tactic(auto, unfolding(crate::specs::Form::number))]
pub fn u8_at(octets: &[u8]) -> Result<(u8, &[u8]), ReadError>
    ensures { Gives (λ x. (x.0, x.1.now)) result ((number 1).read octets.now) }
{
    match octets {
        [] => Err(ReadError::NoRow(Fault::Short)),
        [first, rest @ ..] => Ok((*first, rest)),
    }
}

/// The number in the first 4 octets, and the octets behind it. `Fault::Short` where there are fewer.
#[tactic(auto, unfolding(crate::specs::Form::number))]
pub fn u32_at(octets: &[u8]) -> Result<(u32, &[u8]), ReadError>
    ensures { Gives (λ x. (x.0, x.1.now)) result ((number 4).read octets.now) }
{
    if octets.len() < 4 {
        return Err(ReadError::NoRow(Fault::Short));
    }
    Ok((BigEndian::read_u32(octets), &octets[4..]))
}

/// The number in the first 8 octets, and the octets behind it. `Fault::Short` where there are fewer.
#[tactic(auto, unfolding(crate::specs::Form::number))]
pub fn u64_at(octets: &[u8]) -> Result<(u64, &[u8]), ReadError>
    ensures { Gives (λ x. (x.0, x.1.now)) result ((number 8).read octets.now) }
{
    if octets.len() < 8 {
        return Err(ReadError::NoRow(Fault::Short));
    }
    Ok((BigEndian::read_u64(octets), &octets[8..]))
}

/// The number in the first 16 octets, and the octets behind it. `Fault::Short` where there are fewer.
#[tactic(auto, unfolding(crate::specs::Form::number))]
pub fn u128_at(octets: &[u8]) -> Result<(u128, &[u8]), ReadError>
    ensures { Gives (λ x. (x.0, x.1.now)) result ((number 16).read octets.now) }
{
    if octets.len() < 16 {
        return Err(ReadError::NoRow(Fault::Short));
    }
    Ok((BigEndian::read_u128(octets), &octets[16..]))
}

/// Adds the number as one octet.
#[tactic(auto, unfolding(crate::specs::Form::number))]
pub fn push_u8(out: &mut Vec<u8>, value: u8) -> Result<(), AllocError>
    ensures { OnOk result (Adds (number 1) value out.old.items out.new.items) }
{
    out.push(value)?;
    Ok(())
}

/// Adds the number as 4 octets, the highest first.
#[tactic(auto, unfolding(crate::specs::Form::number))]
pub fn push_u32(out: &mut Vec<u8>, value: u32) -> Result<(), AllocError>
    ensures { OnOk result (Adds (number 4) value out.old.items out.new.items) }
{
    let mut octets = [0; 4];
    BigEndian::write_u32(&mut octets, value);
    out.extend_from_slice(&octets)
}

/// Adds the number as 8 octets, the highest first.
#[tactic(auto, unfolding(crate::specs::Form::number))]
pub fn push_u64(out: &mut Vec<u8>, value: u64) -> Result<(), AllocError>
    ensures { OnOk result (Adds (number 8) value out.old.items out.new.items) }
{
    let mut octets = [0; 8];
    BigEndian::write_u64(&mut octets, value);
    out.extend_from_slice(&octets)
}

/// Adds the number as 16 octets, the highest first.
#[tactic(auto, unfolding(crate::specs::Form::number))]
pub fn push_u128(out: &mut Vec<u8>, value: u128) -> Result<(), AllocError>
    ensures { OnOk result (Adds (number 16) value out.old.items out.new.items) }
{
    let mut octets = [0; 16];
    BigEndian::write_u128(&mut octets, value);
    out.extend_from_slice(&octets)
}

#[tactic(auto, unfolding(crate::specs::Parts::flag))]
pub fn flag_at(octets: &[u8]) -> Result<(bool, &[u8]), ReadError>
    ensures { Gives (λ x. (x.0, x.1.now)) result (flag.read octets.now) }
{
    let (number, rest) = u8_at(octets)?;
    match number {
        0 => Ok((false, rest)),
        1 => Ok((true, rest)),
        _ => Err(ReadError::NoRow(Fault::BadFlag)),
    }
}

pub fn push_flag(out: &mut Vec<u8>, value: bool) -> Result<(), AllocError>
    ensures { OnOk result (Adds flag value out.old.items out.new.items) }
{
    push_u8(out, number_of(value))?;
    Ok(())
}

fn number_of(value: bool) -> u8
    ensures { result ≡ bool_number value }
{
    if value { 1 } else { 0 }
}

/// A signed number, and the octets behind it. `Fault::BadFlag` where the first octet is neither 0 nor 1, and
/// `Fault::OutOfRange` where the size does not fit.
#[tactic(auto, unfolding(crate::specs::Parts::signed))]
pub fn signed_at(octets: &[u8]) -> Result<(i128, &[u8]), ReadError>
    ensures { Gives (λ x. (x.0, x.1.now)) result (signed.read octets.now) }
{
    let (is_below, rest) = flag_at(octets)?;
    let (size, rest) = u128_at(rest)?;
    if size >= 1 << 127 {
        return Err(ReadError::NoRow(Fault::OutOfRange));
    }
    Ok((signed_by(is_below, size), rest))
}

/// The number of this size, or below 0 the one whose size is larger by one.
fn signed_by(is_below: bool, size: u128) -> i128
    requires { size < 2 ^ 127 }
    ensures { result ≡ signed_by is_below size }
{
    if is_below {
        -1 - size as i128
    } else {
        size as i128
    }
}

/// Adds the number: whether it is below 0, and its size, or below 0 its size less 1.
pub fn push_signed(out: &mut Vec<u8>, value: i128) -> Result<(), AllocError>
    ensures { OnOk result (Adds signed value out.old.items out.new.items) }
{
    let (is_below, size) = parts_of(value);
    push_flag(out, is_below)?;
    push_u128(out, size)?;
    Ok(())
}

/// Whether the number is below 0, and its size, or below 0 what is left of its size without 1.
fn parts_of(value: i128) -> (bool, u128)
    ensures parts { result ≡ signed_parts value }
    ensures size { result.1 < 2 ^ 127 }
{
    if value < 0 {
        (true, (-1 - value) as u128)
    } else {
        (false, value as u128)
    }
}

/// As many octets as 8 octets count, in memory of their own, and the octets behind them. `Fault::Short` where there are fewer.
#[tactic(auto, unfolding(crate::specs::Form::counted))]
pub fn octets_at(alloc: Global, octets: &[u8]) -> Result<(Octets, &[u8]), ReadError>
    ensures { Gives (λ x. (x.0, x.1.now)) result (counted.read octets.now) }
{
    let (count, rest) = u64_at(octets)?;
    let count = count as usize;
    if rest.len() < count {
        return Err(ReadError::NoRow(Fault::Short));
    }
    Ok((Octets::copy_of(alloc, &rest[..count])?, &rest[count..]))
}

/// Adds how many octets there are, and the octets.
pub fn push_octets(out: &mut Vec<u8>, value: &Octets) -> Result<(), AllocError>
    ensures { OnOk result (Adds counted value.now out.old.items out.new.items) }
{
    let octets = value.as_slice();
    push_u64(out, octets.len() as u64)?;
    out.extend_from_slice(octets)?;
    Ok(())
}

/// An Unsigned32, if it is there, and the octets behind it. `Fault::BadFlag` where the first octet is neither 0 nor 1.
#[tactic(auto, unfolding(crate::specs::Form::optional))]
pub fn optional_u32_at(octets: &[u8]) -> Result<(Option<u32>, &[u8]), ReadError>
    ensures { Gives (λ x. (x.0, x.1.now)) result ((optional BadFlag (number 4)).read octets.now) }
{
    match octets {
        [] => Err(ReadError::NoRow(Fault::Short)),
        [0, rest @ ..] => Ok((None, rest)),
        [1, rest @ ..] => {
            let (value, rest) = u32_at(rest)?;
            Ok((Some(value), rest))
        }
        [_, ..] => Err(ReadError::NoRow(Fault::BadFlag)),
    }
}

/// Adds an octet 0 where there is no number, else an octet 1 and the number.
pub fn push_optional_u32(out: &mut Vec<u8>, value: Option<u32>) -> Result<(), AllocError>
    ensures { OnOk result (Adds (optional BadFlag (number 4)) value out.old.items out.new.items) }
{
    match value {
        None => push_absent(out)?,
        Some(value) => {
            push_present(out)?;
            push_u32(out, value)?;
        }
    }
    Ok(())
}

/// An Unsigned64, if it is there.
#[tactic(auto, unfolding(crate::specs::Form::optional))]
pub fn optional_u64_at(octets: &[u8]) -> Result<(Option<u64>, &[u8]), ReadError>
    ensures { Gives (λ x. (x.0, x.1.now)) result ((optional BadFlag (number 8)).read octets.now) }
{
    match octets {
        [] => Err(ReadError::NoRow(Fault::Short)),
        [0, rest @ ..] => Ok((None, rest)),
        [1, rest @ ..] => {
            let (value, rest) = u64_at(rest)?;
            Ok((Some(value), rest))
        }
        [_, ..] => Err(ReadError::NoRow(Fault::BadFlag)),
    }
}

pub fn push_optional_u64(out: &mut Vec<u8>, value: Option<u64>) -> Result<(), AllocError>
    ensures { OnOk result (Adds (optional BadFlag (number 8)) value out.old.items out.new.items) }
{
    match value {
        None => push_absent(out)?,
        Some(value) => {
            push_present(out)?;
            push_u64(out, value)?;
        }
    }
    Ok(())
}

/// The octet of a value that is not there.
pub fn push_absent(out: &mut Vec<u8>) -> Result<(), AllocError>
    ensures { OnOk result (out.new.items ≡ out.old.items ++ 0 ∷ []) }
{
    out.push(0)?;
    Ok(())
}

/// The octet before a value that is there.
pub fn push_present(out: &mut Vec<u8>) -> Result<(), AllocError>
    ensures { OnOk result (out.new.items ≡ out.old.items ++ 1 ∷ []) }
{
    out.push(1)?;
    Ok(())
}
