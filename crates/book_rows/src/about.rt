//! What a stored book is, and where it stands: how that is written, and read again.

ghost use Rattle.std.specs.Prelude.{◌≡◌, IfOk, OnOk};
ghost use Rattle.book_rows.specs.Form.{Adds, Gives};
ghost use Rattle.book_rows.specs.About.{about as about_form, moment_in, standing as standing_form, sum_in, whole};

use crate::fault::{Fault, ReadError};
use crate::numbers::{
    octets_at, push_octets, push_u32, push_u64, push_u128, u32_at, u64_at, u128_at,
};
use crate::row::Sum;
use byteorder::{BigEndian, ByteOrder};
use dia_avp::Octets;
use dia_base::Moment;
use std::alloc::{AllocError, Global};

/// The format of what this release stores. A book of another format is refused.
pub const FORMAT: u32 = 1;

/// Which book it is: 16 octets that are drawn once, as a number whose highest octet is the first.
#[derive(Clone, Copy, PartialEq, Eq)]
pub struct Identity(pub u128);

/// What a stored book is. It stays as it is for the book's life.
#[derive(Drop)]
pub struct About {
    pub identity: Identity,
    /// The octets of the terms under which its replies were made.
    pub terms: Octets,
}

/// Where a stored book stands.
#[derive(Clone, Copy, Debug, PartialEq, Eq)]
pub struct Standing {
    /// How many rows it has.
    pub count: u64,
    /// The moment of the last one, 0 without one.
    pub moment: Moment,
    /// The sum of the last one, 0 without one.
    pub sum: Sum,
}

#[tactic(auto, unfolding(crate::specs::About::about, crate::specs::About::format))]
fn about_at(alloc: Global, octets: &[u8]) -> Result<(About, &[u8]), ReadError>
    ensures { Gives (λ x. (x.0, x.1.now)) result (about_form.read octets.now) }
{
    let (format, rest) = u32_at(octets)?;
    if format != FORMAT {
        return Err(ReadError::NoRow(Fault::OtherFormat));
    }
    let (identity, rest) = u128_at(rest)?;
    let (terms, rest) = octets_at(alloc, rest)?;
    Ok((
        About {
            identity: Identity(identity),
            terms,
        },
        rest,
    ))
}

/// What a book is that octets tell, all of them. Another format than this one is told before anything else, and then the
/// first fault from left to right.
#[tactic(auto, unfolding(crate::specs::About::whole))]
pub fn read_about(alloc: Global, octets: &[u8]) -> Result<About, ReadError>
    ensures { Gives (λ about. about) result (whole about_form octets.now) }
{
    let (about, rest) = about_at(alloc, octets)?;
    if !rest.is_empty() {
        return Err(ReadError::NoRow(Fault::LeftOver));
    }
    Ok(about)
}

fn push_about(out: &mut Vec<u8>, value: &About) -> Result<(), AllocError>
    ensures { OnOk result (Adds about_form value.now out.old.items out.new.items) }
{
    push_u32(out, FORMAT)?;
    push_u128(out, value.identity.0)?;
    push_octets(out, &value.terms)?;
    Ok(())
}

/// The octets that tell what a book is.
pub fn spell_about(alloc: Global, about: &About) -> Result<Vec<u8>, AllocError>
    ensures octets { IfOk result (λ octets. octets.items ≡ about_form.spell about.now) }
    ensures fits { OnOk result (about_form.Fits about.now) }
{
    let mut out = Vec::new(alloc);
    push_about(&mut out, about)?;
    Ok(out)
}

#[tactic(auto, unfolding(crate::specs::About::standing))]
fn standing_at(octets: &[u8]) -> Result<(Standing, &[u8]), ReadError>
    ensures { Gives (λ x. (x.0, x.1.now)) result (standing_form.read octets.now) }
{
    let (count, rest) = u64_at(octets)?;
    let (moment, rest) = u64_at(rest)?;
    let (sum, rest) = u128_at(rest)?;
    Ok((
        Standing {
            count,
            moment: Moment(moment),
            sum: Sum(sum),
        },
        rest,
    ))
}

/// Where a book stands that octets tell, all of them.
#[tactic(auto, unfolding(crate::specs::About::whole))]
pub fn read_standing(octets: &[u8]) -> Result<Standing, ReadError>
    ensures { Gives (λ standing. standing) result (whole standing_form octets.now) }
{
    let (standing, rest) = standing_at(octets)?;
    if !rest.is_empty() {
        return Err(ReadError::NoRow(Fault::LeftOver));
    }
    Ok(standing)
}

fn push_standing(out: &mut Vec<u8>, value: Standing) -> Result<(), AllocError>
    ensures { OnOk result (Adds standing_form value out.old.items out.new.items) }
{
    push_u64(out, value.count)?;
    push_u64(out, value.moment.0)?;
    push_u128(out, value.sum.0)?;
    Ok(())
}

/// The octets that tell where a book stands.
pub fn spell_standing(alloc: Global, standing: Standing) -> Result<Vec<u8>, AllocError>
    ensures octets { IfOk result (λ octets. octets.items ≡ standing_form.spell standing) }
    ensures fits { OnOk result (standing_form.Fits standing) }
{
    let mut out = Vec::new(alloc);
    push_standing(&mut out, standing)?;
    Ok(out)
}

/// Where a book stands that has so many rows, of which these octets are the last. A row that is too short to have a moment
/// and a sum counts as one with 0 for both.
#[tactic(auto, unfolding(crate::specs::About::moment_in, crate::specs::About::sum_in))]
pub fn standing_behind(count: u64, last: &[u8]) -> Standing
    ensures count { result.count ≡ count }
    ensures moment { result.moment.0 ≡ moment_in last.now }
    ensures sum { result.sum.0 ≡ sum_in last.now }
{
    if last.len() < 32 {
        return Standing {
            count,
            moment: Moment(0),
            sum: Sum(0),
        };
    }
    Standing {
        count,
        moment: Moment(BigEndian::read_u64(&last[8..])),
        sum: Sum(BigEndian::read_u128(&last[last.len() - 16..])),
    }
}
