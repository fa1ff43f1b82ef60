//! The line of a change of the terms.

ghost use Rattle.std.specs.Prelude.{◌≡◌, ◌++◌, IfOk, OnOk, string_bytes};
ghost use Rattle.std.specs.List.{flat_map};
ghost use Rattle.book_lines.specs.Lines.{change_line, change_text, difference_line, joining_text, look_text, opening_text, standing_text, tariff_text, tariffs_text};

use crate::charge::{push_head, push_known};
use crate::services::{push_name, push_sum, push_sums};
use crate::words::{push_quoted, unit_word};
use cc_book::{Account, TermsChange};
use cc_rating::{Tariff, Tariffs};
use cc_view::Subscription;
use dia_base::Moment;
use std::alloc::{AllocError, Global};

/// `opening OPENING`.
#[tactic(auto, unfolding(crate::specs::Lines::opening_text))]
fn opening_text(alloc: Global, opening: i64) -> Result<String, AllocError>
    ensures { IfOk result (λ text. string_bytes text ≡ opening_text opening) }
{
    format!(in alloc; " opening {opening}")
}

/// Adds an account that joins.
fn push_joining(alloc: Global, out: &mut Vec<u8>, account: &Account) -> Result<(), AllocError>
    ensures { OnOk result (out.new.items ≡ out.old.items ++ joining_text account.now) }
{
    let opening = opening_text(alloc, account.opening)?;
    push_known(alloc, out, account)?;
    out.extend_from_slice(opening.as_bytes())
}

/// Adds each account that joins.
fn push_all_joining(
    alloc: Global,
    out: &mut Vec<u8>,
    accounts: &[Account],
) -> Result<(), AllocError>
    ensures { OnOk result (out.new.items ≡ out.old.items ++ flat_map joining_text accounts.now) }
{
    for account in accounts {
        push_joining(alloc, out, account)?;
    }
    Ok(())
}

/// Adds an account of which this is said, and not its opening.
#[tactic(auto, unfolding(crate::specs::Lines::standing_text))]
fn push_standing(
    alloc: Global,
    out: &mut Vec<u8>,
    subscription: &Subscription,
    said: &[u8],
) -> Result<(), AllocError>
    ensures { OnOk result (out.new.items ≡ out.old.items ++ standing_text said.now subscription.now) }
{
    let kind = subscription.kind;
    let text = format!(in alloc; " account {kind} ")?;
    out.extend_from_slice(text.as_bytes())?;
    push_quoted(out, subscription.text.as_slice())?;
    out.extend_from_slice(said)
}

fn push_all_standing(
    alloc: Global,
    out: &mut Vec<u8>,
    subscriptions: &[Subscription],
    said: &[u8],
) -> Result<(), AllocError>
    ensures { OnOk result (out.new.items ≡ out.old.items ++ flat_map (standing_text said.now) subscriptions.now) }
{
    for subscription in subscriptions {
        push_standing(alloc, out, subscription, said)?;
    }
    Ok(())
}

#[tactic(auto, unfolding(crate::specs::Lines::tariff_text))]
fn push_tariff(alloc: Global, out: &mut Vec<u8>, tariff: &Tariff) -> Result<(), AllocError>
    ensures { OnOk result (out.new.items ≡ out.old.items ++ tariff_text tariff.now) }
{
    out.extend_from_slice(b" tariff")?;
    push_name(alloc, out, tariff.group, tariff.ident)?;
    out.extend_from_slice(b" ")?;
    out.extend_from_slice(unit_word(tariff.kind).as_bytes())?;
    let numbers = [
        u128::from(tariff.block),
        u128::from(tariff.price),
        u128::from(tariff.quantum),
        u128::from(tariff.greatest),
    ];
    push_sums(alloc, out, &numbers)
}

fn push_all_tariffs(alloc: Global, out: &mut Vec<u8>, tariffs: &[Tariff]) -> Result<(), AllocError>
    ensures { OnOk result (out.new.items ≡ out.old.items ++ flat_map tariff_text tariffs.now) }
{
    for tariff in tariffs {
        push_tariff(alloc, out, tariff)?;
    }
    Ok(())
}

/// Adds the tariffs that hold from now on, if the change says any.
fn push_tariffs(
    alloc: Global,
    out: &mut Vec<u8>,
    tariffs: &Option<Tariffs>,
) -> Result<(), AllocError>
    ensures { OnOk result (out.new.items ≡ out.old.items ++ tariffs_text tariffs.now) }
{
    let Some(tariffs) = tariffs else {
        return out.extend_from_slice(b" tariffs -");
    };
    let tariffs = tariffs.as_slice();
    out.extend_from_slice(b" tariffs")?;
    push_sum(alloc, out, tariffs.len() as u128)?;
    push_all_tariffs(alloc, out, tariffs)
}

/// Adds the accounts that join, close and open again by a change, and the tariffs.
#[tactic(auto, unfolding(crate::specs::Lines::change_text))]
fn push_change_text(
    alloc: Global,
    out: &mut Vec<u8>,
    change: &TermsChange,
) -> Result<(), AllocError>
    ensures { OnOk result (out.new.items ≡ out.old.items ++ change_text change.now) }
{
    let joining = change.joining.as_slice();
    out.extend_from_slice(b" accounts")?;
    push_sum(alloc, out, joining.len() as u128)?;
    push_all_joining(alloc, out, joining)?;
    push_all_standing(alloc, out, change.closing.as_slice(), b" closed")?;
    push_all_standing(alloc, out, change.reopening.as_slice(), b" open")?;
    push_tariffs(alloc, out, &change.tariffs)
}

/// Adds the line of a change of the terms.
#[tactic(auto, unfolding(crate::specs::Lines::change_line))]
pub fn push_change_line(
    alloc: Global,
    out: &mut Vec<u8>,
    place: u64,
    moment: Moment,
    change: &TermsChange,
) -> Result<(), AllocError>
    ensures { OnOk result (out.new.items ≡ out.old.items ++ change_line place moment change.now) }
{
    push_head(alloc, out, place, moment)?;
    out.extend_from_slice(b" change")?;
    push_change_text(alloc, out, change)?;
    out.extend_from_slice(b"\n")
}

/// Adds `look: the site has other terms:`.
#[tactic(auto, unfolding(crate::specs::Lines::look_text))]
fn push_look(out: &mut Vec<u8>) -> Result<(), AllocError>
    ensures { OnOk result (out.new.items ≡ out.old.items ++ look_text) }
{
    out.extend_from_slice(b"look: the site has other terms:")
}

/// Adds the line of a site that has other terms than the book: `change` leads from those that hold to those of the site.
#[tactic(auto, unfolding(crate::specs::Lines::difference_line))]
pub fn push_difference_line(
    alloc: Global,
    out: &mut Vec<u8>,
    change: &TermsChange,
) -> Result<(), AllocError>
    ensures { OnOk result (out.new.items ≡ out.old.items ++ difference_line change.now) }
{
    push_look(out)?;
    push_change_text(alloc, out, change)?;
    out.extend_from_slice(b"\n")
}
