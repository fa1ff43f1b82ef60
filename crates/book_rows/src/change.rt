//! Changes of the terms: how they are written, and read again.

ghost use Rattle.std.specs.Prelude.{◌≡◌, OnOk};
ghost use Rattle.book_rows.specs.Form.{Adds, Gives};
ghost use Rattle.book_rows.specs.TermsParts.{change};

use crate::accounts::{accounts_at, push_accounts};
use crate::fault::ReadError;
use crate::request::{push_subscriptions, subscriptions_at};
use crate::tariffs::{optional_tariffs_at, push_optional_tariffs};
use cc_book::{Accounts, TermsChange};
use dia_base::Listing;
use std::alloc::{AllocError, Global};

#[tactic(auto, unfolding(crate::specs::TermsParts::change))]
pub fn change_at(alloc: Global, octets: &[u8]) -> Result<(TermsChange, &[u8]), ReadError>
    ensures { Gives (λ x. (x.0, x.1.now)) result (change.read octets.now) }
{
    let (joining, rest) = accounts_at(alloc, octets)?;
    let (closing, rest) = subscriptions_at(alloc, rest)?;
    let (reopening, rest) = subscriptions_at(alloc, rest)?;
    let (tariffs, rest) = optional_tariffs_at(alloc, rest)?;
    Ok((
        TermsChange {
            joining: Accounts::from_vec(alloc, joining)?,
            closing: Listing::from_vec(closing),
            reopening: Listing::from_vec(reopening),
            tariffs,
        },
        rest,
    ))
}

pub fn push_change(out: &mut Vec<u8>, value: &TermsChange) -> Result<(), AllocError>
    ensures { OnOk result (Adds change value.now out.old.items out.new.items) }
{
    push_accounts(out, value.joining.as_slice())?;
    push_subscriptions(out, value.closing.as_slice())?;
    push_subscriptions(out, value.reopening.as_slice())?;
    push_optional_tariffs(out, &value.tariffs)?;
    Ok(())
}
