//! Signed numbers of 32 and 64 bits: how they are written, and read again.

ghost use Rattle.std.specs.Prelude.{◌≡◌, ◌^◌, OnOk, true};
ghost use Rattle.book_rows.specs.Form.{Adds, Gives};
ghost use Rattle.book_rows.specs.Parts.{is_small, signed};
ghost use Rattle.book_rows.specs.TermsParts.{small};

use crate::fault::{Fault, ReadError};
use crate::numbers::{push_signed, signed_at};
use std::alloc::AllocError;

/// A signed number of 64 bits, and the octets behind it. `Fault::OutOfRange` where it has more.
#[tactic(auto, unfolding(crate::specs::TermsParts::small))]
pub fn i64_at(octets: &[u8]) -> Result<(i64, &[u8]), ReadError>
    ensures { Gives (λ x. (x.0, x.1.now)) result ((small (2 ^ 63)).read octets.now) }
{
    let (number, rest) = signed_at(octets)?;
    match i64::try_from(number) {
        Ok(number) => Ok((number, rest)),
        Err(_) => Err(ReadError::NoRow(Fault::OutOfRange)),
    }
}

/// A signed number of 32 bits, and the octets behind it. `Fault::OutOfRange` where it has more.
#[tactic(auto, unfolding(crate::specs::TermsParts::small))]
pub fn i32_at(octets: &[u8]) -> Result<(i32, &[u8]), ReadError>
    ensures { Gives (λ x. (x.0, x.1.now)) result ((small (2 ^ 31)).read octets.now) }
{
    let (number, rest) = signed_at(octets)?;
    match i32::try_from(number) {
        Ok(number) => Ok((number, rest)),
        Err(_) => Err(ReadError::NoRow(Fault::OutOfRange)),
    }
}

/// Adds the number, whose size, or below 0 its size less 1, is below 2^63.
fn push_wide_i64(out: &mut Vec<u8>, value: i64) -> Result<(), AllocError>
    ensures added { OnOk result (Adds signed value out.old.items out.new.items) }
    ensures small { is_small (2 ^ 63) value ≡ true }
{
    push_signed(out, value as i128)?;
    Ok(())
}

/// Adds a signed number of 64 bits.
pub fn push_i64(out: &mut Vec<u8>, value: i64) -> Result<(), AllocError>
    ensures { OnOk result (Adds (small (2 ^ 63)) value out.old.items out.new.items) }
{
    push_wide_i64(out, value)?;
    Ok(())
}

/// Adds the number, whose size, or below 0 its size less 1, is below 2^31.
fn push_wide_i32(out: &mut Vec<u8>, value: i32) -> Result<(), AllocError>
    ensures added { OnOk result (Adds signed value out.old.items out.new.items) }
    ensures small { is_small (2 ^ 31) value ≡ true }
{
    push_signed(out, value as i128)?;
    Ok(())
}

/// Adds a signed number of 32 bits.
pub fn push_i32(out: &mut Vec<u8>, value: i32) -> Result<(), AllocError>
    ensures { OnOk result (Adds (small (2 ^ 31)) value out.old.items out.new.items) }
{
    push_wide_i32(out, value)?;
    Ok(())
}
