//! The words of a change of the terms.

ghost use Rattle.std.specs.Prelude.{◌≡◌, ◌++◌, OnOk, IfOk, string_bytes};
ghost use Rattle.std.specs.List.{flat_map};
ghost use Rattle.farm_player.specs.ChangeWords.{account_words, amount_word, change_words, key_word, number_word, standing_words, tariff_words, tariffs_words, units_word};

use cc_book::{Account, TermsChange};
use cc_rating::{Tariff, Tariffs, UnitKind};
use cc_view::Subscription;
use std::alloc::{AllocError, Global};

/// A number, behind a space.
pub fn push_number(alloc: Global, out: &mut Vec<u8>, number: u64) -> Result<(), AllocError>
    ensures { OnOk result (out.new.items ≡ out.old.items ++ number_word number) }
{
    let text = format!(in alloc; "{number}")?;
    out.push(b' ')?;
    out.extend_from_slice(text.as_bytes())
}

/// An amount, behind a space.
#[tactic(auto, unfolding(crate::specs::ChangeWords::amount_word))]
fn amount_text(alloc: Global, amount: i64) -> Result<String, AllocError>
    ensures { IfOk result (λ text. string_bytes text ≡ amount_word amount) }
{
    format!(in alloc; " {amount}")
}

/// A Rating-Group or a Service-Identifier, or `-` for none, behind a space.
fn push_key(alloc: Global, out: &mut Vec<u8>, key: Option<u32>) -> Result<(), AllocError>
    ensures { OnOk result (out.new.items ≡ out.old.items ++ key_word key) }
{
    match key {
        Some(number) => push_number(alloc, out, u64::from(number)),
        None => out.extend_from_slice(b" -"),
    }
}

fn push_units(out: &mut Vec<u8>, kind: UnitKind) -> Result<(), AllocError>
    ensures { OnOk result (out.new.items ≡ out.old.items ++ units_word kind) }
{
    out.extend_from_slice(match kind {
        UnitKind::Time => b" time",
        UnitKind::Octets => b" octets",
        UnitKind::Units => b" units",
    })
}

/// An account that joins.
#[tactic(auto, unfolding(crate::specs::ChangeWords::account_words))]
fn push_account(alloc: Global, out: &mut Vec<u8>, account: &Account) -> Result<(), AllocError>
    ensures { OnOk result (out.new.items ≡ out.old.items ++ account_words account.now) }
{
    let opening = amount_text(alloc, account.opening)?;
    out.extend_from_slice(b" account")?;
    push_number(alloc, out, u64::from(account.id_kind))?;
    out.push(b' ')?;
    out.extend_from_slice(account.id.as_slice())?;
    out.extend_from_slice(opening.as_bytes())
}

fn push_accounts(alloc: Global, out: &mut Vec<u8>, accounts: &[Account]) -> Result<(), AllocError>
    ensures { OnOk result (out.new.items ≡ out.old.items ++ flat_map account_words accounts.now) }
{
    for account in accounts {
        push_account(alloc, out, account)?;
    }
    Ok(())
}

/// An account of which this is said, and not its opening.
#[tactic(auto, unfolding(crate::specs::ChangeWords::standing_words))]
fn push_standing(
    alloc: Global,
    out: &mut Vec<u8>,
    subscription: &Subscription,
    said: &[u8],
) -> Result<(), AllocError>
    ensures { OnOk result (out.new.items ≡ out.old.items ++ standing_words said.now subscription.now) }
{
    out.extend_from_slice(b" account")?;
    push_number(alloc, out, u64::from(subscription.kind))?;
    out.push(b' ')?;
    out.extend_from_slice(subscription.text.as_slice())?;
    out.extend_from_slice(said)
}

fn push_all_standing(
    alloc: Global,
    out: &mut Vec<u8>,
    subscriptions: &[Subscription],
    said: &[u8],
) -> Result<(), AllocError>
    ensures { OnOk result (out.new.items ≡ out.old.items ++ flat_map (standing_words said.now) subscriptions.now) }
{
    for subscription in subscriptions {
        push_standing(alloc, out, subscription, said)?;
    }
    Ok(())
}

#[tactic(auto, unfolding(crate::specs::ChangeWords::tariff_words))]
fn push_tariff(alloc: Global, out: &mut Vec<u8>, tariff: &Tariff) -> Result<(), AllocError>
    ensures { OnOk result (out.new.items ≡ out.old.items ++ tariff_words tariff.now) }
{
    out.extend_from_slice(b" tariff")?;
    push_key(alloc, out, tariff.group)?;
    push_key(alloc, out, tariff.ident)?;
    push_units(out, tariff.kind)?;
    push_number(alloc, out, tariff.block)?;
    push_number(alloc, out, tariff.price)?;
    push_number(alloc, out, tariff.quantum)?;
    push_number(alloc, out, tariff.greatest)
}

fn push_all_tariffs(alloc: Global, out: &mut Vec<u8>, tariffs: &[Tariff]) -> Result<(), AllocError>
    ensures { OnOk result (out.new.items ≡ out.old.items ++ flat_map tariff_words tariffs.now) }
{
    for tariff in tariffs {
        push_tariff(alloc, out, tariff)?;
    }
    Ok(())
}

/// The tariffs that hold from then on, if the change says any.
fn push_tariffs(
    alloc: Global,
    out: &mut Vec<u8>,
    tariffs: &Option<Tariffs>,
) -> Result<(), AllocError>
    ensures { OnOk result (out.new.items ≡ out.old.items ++ tariffs_words tariffs.now) }
{
    let Some(tariffs) = tariffs else {
        return Ok(());
    };
    out.extend_from_slice(b" tariffs")?;
    push_all_tariffs(alloc, out, tariffs.as_slice())
}

/// What a change says, as items behind one another.
pub fn push_change(alloc: Global, out: &mut Vec<u8>, change: &TermsChange) -> Result<(), AllocError>
    ensures { OnOk result (out.new.items ≡ out.old.items ++ change_words change.now) }
{
    push_accounts(alloc, out, change.joining.as_slice())?;
    push_all_standing(alloc, out, change.closing.as_slice(), b" closed")?;
    push_all_standing(alloc, out, change.reopening.as_slice(), b" open")?;
    push_tariffs(alloc, out, &change.tariffs)
}
