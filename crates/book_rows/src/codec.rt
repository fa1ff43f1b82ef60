//! Rows as octets: how they are written, and read again.

ghost use Rattle.std.specs.Prelude.{◌≡◌, ◌↔◌, [], ◌∷◌, ◌++◌, IfOk, IsTrue, OnOk};
ghost use Rattle.byteorder.specs.Endian.{big_number};
ghost use Rattle.sha2.specs.Sha256.{sha256};
ghost use Rattle.book_rows.specs.declared.row.Row.{Row};
ghost use Rattle.book_rows.specs.Form.{Adds, Gives};
ghost use Rattle.book_rows.specs.Row.{body, body_of, row, row_of, spelled, step, sum_after, taken, Chains, IsRow};

use crate::change::{change_at, push_change};
use crate::fault::{Fault, ReadError};
use crate::numbers::{
    push_absent, push_present, push_signed, push_u64, push_u128, signed_at, u64_at, u128_at,
};
use crate::reply::{push_reply, reply_at};
use crate::request::{push_request, request_at};
use crate::row::{Row, Step, Sum, Taken};
use byteorder::{BigEndian, ByteOrder};
use dia_base::Moment;
use sha2::{Digest, Sha256};
use std::alloc::{AllocError, Global};

/// A row's octets seldom go beyond this number, for which room is asked at once.
const USUAL: usize = 512;

#[tactic(auto, unfolding(crate::specs::Row::taken))]
fn taken_at(alloc: Global, octets: &[u8]) -> Result<(Taken, &[u8]), ReadError>
    ensures { Gives (λ x. (x.0, x.1.now)) result (taken.read octets.now) }
{
    let (request, rest) = request_at(alloc, octets)?;
    let (reply, rest) = reply_at(alloc, rest)?;
    let (debit, rest) = signed_at(rest)?;
    Ok((
        Taken {
            request,
            reply,
            debit,
        },
        rest,
    ))
}

fn push_taken(out: &mut Vec<u8>, value: &Taken) -> Result<(), AllocError>
    ensures { OnOk result (Adds taken value.now out.old.items out.new.items) }
{
    push_request(out, &value.request)?;
    push_reply(out, &value.reply)?;
    push_signed(out, value.debit)?;
    Ok(())
}

/// What an entry is, behind an octet that says its kind.
#[tactic(auto, unfolding(crate::specs::Row::step))]
fn step_at(alloc: Global, octets: &[u8]) -> Result<(Step, &[u8]), ReadError>
    ensures { Gives (λ x. (x.0, x.1.now)) result (step.read octets.now) }
{
    match octets {
        [] => Err(ReadError::NoRow(Fault::Short)),
        [0, rest @ ..] => Ok((Step::Sweep, rest)),
        [1, rest @ ..] => {
            let (taken, rest) = taken_at(alloc, rest)?;
            Ok((Step::Take(taken), rest))
        }
        [2, rest @ ..] => {
            let (change, rest) = change_at(alloc, rest)?;
            Ok((Step::ChangeTerms(change), rest))
        }
        [_, ..] => Err(ReadError::NoRow(Fault::UnknownKind)),
    }
}

fn push_step(out: &mut Vec<u8>, value: &Step) -> Result<(), AllocError>
    ensures { OnOk result (Adds step value.now out.old.items out.new.items) }
{
    match value {
        Step::Sweep => push_absent(out)?,
        Step::Take(taken) => {
            push_present(out)?;
            push_taken(out, taken)?;
        }
        Step::ChangeTerms(change) => {
            push_changing(out)?;
            push_change(out, change)?;
        }
    }
    Ok(())
}

/// The octet before a change of the terms.
fn push_changing(out: &mut Vec<u8>) -> Result<(), AllocError>
    ensures { OnOk result (out.new.items ≡ out.old.items ++ 2 ∷ []) }
{
    out.push(2)?;
    Ok(())
}

#[tactic(auto, unfolding(crate::specs::Row::row, crate::specs::Row::body))]
fn row_at(alloc: Global, octets: &[u8]) -> Result<(Row, &[u8]), ReadError>
    ensures { Gives (λ x. (x.0, x.1.now)) result (row.read octets.now) }
{
    let (place, rest) = u64_at(octets)?;
    let (moment, rest) = u64_at(rest)?;
    let (step, rest) = step_at(alloc, rest)?;
    let (sum, rest) = u128_at(rest)?;
    Ok((
        Row {
            place,
            moment: Moment(moment),
            step,
            sum: Sum(sum),
        },
        rest,
    ))
}

#[tactic(auto, unfolding(crate::specs::Row::row_of))]
fn whole_row(alloc: Global, octets: &[u8]) -> Result<Row, ReadError>
    ensures { Gives (λ row. row) result (row_of octets.now) }
{
    let (row, rest) = row_at(alloc, octets)?;
    if !rest.is_empty() {
        return Err(ReadError::NoRow(Fault::LeftOver));
    }
    Ok(row)
}

/// The row that octets spell, all of them. The fault is the first one from left to right.
pub fn read_row(alloc: Global, octets: &[u8]) -> Result<Row, ReadError>
    // What is read is spelled so.
    ensures found { IfOk result (λ row. (octets.now ≡ spelled row) × IsRow row) }
    // What is spelled so is read, unless memory runs out.
    ensures only { (r : Row) → IsRow r → octets.now ≡ spelled r → Gives (λ row. row) result (Ok r) }
    // Which fault it is.
    ensures exact { Gives (λ row. row) result (row_of octets.now) }
{
    whole_row(alloc, octets)
}

fn push_body(out: &mut Vec<u8>, place: u64, moment: Moment, step: &Step) -> Result<(), AllocError>
    ensures { OnOk result (Adds body (place, (moment.0, step.now)) out.old.items out.new.items) }
{
    push_u64(out, place)?;
    push_u64(out, moment.0)?;
    push_step(out, step)?;
    Ok(())
}

/// The octets of the row.
pub fn spell_row(alloc: Global, row: &Row) -> Result<Vec<u8>, AllocError>
    ensures octets { IfOk result (λ octets. octets.items ≡ spelled row.now) }
    ensures is_row { OnOk result (IsRow row.now) }
{
    let mut out = Vec::with_capacity(alloc, USUAL)?;
    push_body(&mut out, row.place, row.moment, &row.step)?;
    push_u128(&mut out, row.sum.0)?;
    Ok(out)
}

/// The sum over a sum and octets behind it.
#[tactic(auto, unfolding(crate::specs::Row::sum_after))]
fn sum_after(before: Sum, octets: &[u8]) -> Sum
    ensures { result.0 ≡ sum_after before.0 octets.now }
{
    let mut sum = [0; 16];
    BigEndian::write_u128(&mut sum, before.0);
    Sum(first_octets(&digest_of(&sum, octets)))
}

/// The SHA-256 of octets in two parts.
fn digest_of(first: &[u8], second: &[u8]) -> [u8; 32]
    ensures { result ≡ sha256 (first.now ++ second.now) }
{
    let mut hasher = Sha256::new();
    hasher.update(first);
    hasher.update(second);
    hasher.finalize()
}

/// The number in the first 16 octets.
fn first_octets(digest: &[u8; 32]) -> u128
    ensures { result ≡ big_number 16 digest.now }
{
    BigEndian::read_u128(digest)
}

/// The row at a place whose sum chains it to the sum before.
pub fn chained_row(
    alloc: Global,
    before: Sum,
    place: u64,
    moment: Moment,
    step: Step,
) -> Result<Row, AllocError>
    ensures parts { IfOk result (λ row. (row.place ≡ place) × (row.moment ≡ moment) × (row.step ≡ step)) }
    ensures chains { IfOk result (Chains before.0) }
{
    let mut out = Vec::with_capacity(alloc, USUAL)?;
    push_body(&mut out, place, moment, &step)?;
    Ok(Row {
        place,
        moment,
        step,
        sum: sum_after(before, &out),
    })
}

/// Whether the sum of the row chains it to the sum before.
pub fn is_chained(alloc: Global, before: Sum, row: &Row) -> Result<bool, AllocError>
    ensures { IfOk result (λ chained. IsTrue chained ↔ Chains before.0 row.now) }
{
    let mut out = Vec::with_capacity(alloc, USUAL)?;
    push_body(&mut out, row.place, row.moment, &row.step)?;
    Ok(row.sum == sum_after(before, &out))
}
