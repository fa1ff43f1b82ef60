//! Accounts: how they are written, and read again.

ghost use Rattle.std.specs.Prelude.{◌≡◌, OnOk};
ghost use Rattle.book_rows.specs.Form.{Adds, AddsAll, Gives, listed, so_many};
ghost use Rattle.book_rows.specs.TermsParts.{account};

use crate::fault::ReadError;
use crate::numbers::{octets_at, push_octets, push_u32, push_u64, u32_at, u64_at};
use crate::small::{i64_at, push_i64};
use cc_book::Account;
use std::alloc::{AllocError, Global};

#[tactic(auto, unfolding(crate::specs::TermsParts::account))]
fn account_at(alloc: Global, octets: &[u8]) -> Result<(Account, &[u8]), ReadError>
    ensures { Gives (λ x. (x.0, x.1.now)) result (account.read octets.now) }
{
    let (id_kind, rest) = u32_at(octets)?;
    let (id, rest) = octets_at(alloc, rest)?;
    let (opening, rest) = i64_at(rest)?;
    Ok((
        Account {
            id_kind,
            id,
            opening,
        },
        rest,
    ))
}

fn push_account(out: &mut Vec<u8>, value: &Account) -> Result<(), AllocError>
    ensures { OnOk result (Adds account value.now out.old.items out.new.items) }
{
    push_u32(out, value.id_kind)?;
    push_octets(out, &value.id)?;
    push_i64(out, value.opening)?;
    Ok(())
}

fn so_many_accounts_at(
    alloc: Global,
    count: u64,
    octets: &[u8],
) -> Result<(Vec<Account>, &[u8]), ReadError>
    ensures { Gives (λ x. (x.0.items, x.1.now)) result (so_many account.read count octets.now) }
{
    let mut values = Vec::new(alloc);
    let mut rest = octets;
    for _ in 0..count {
        let (value, behind) = account_at(alloc, rest)?;
        values.push(value)?;
        rest = behind;
    }
    Ok((values, rest))
}

/// The accounts that octets tell first, and the octets behind them.
#[tactic(auto, unfolding(crate::specs::Form::listed))]
pub fn accounts_at(alloc: Global, octets: &[u8]) -> Result<(Vec<Account>, &[u8]), ReadError>
    ensures { Gives (λ x. (x.0.items, x.1.now)) result ((listed account).read octets.now) }
{
    let (count, rest) = u64_at(octets)?;
    so_many_accounts_at(alloc, count, rest)
}

fn push_all_accounts(out: &mut Vec<u8>, values: &[Account]) -> Result<(), AllocError>
    ensures { OnOk result (AddsAll account values.now out.old.items out.new.items) }
{
    for value in values {
        push_account(out, value)?;
    }
    Ok(())
}

/// Adds how many accounts there are, and each of them.
pub fn push_accounts(out: &mut Vec<u8>, values: &[Account]) -> Result<(), AllocError>
    ensures { OnOk result (Adds (listed account) values.now out.old.items out.new.items) }
{
    push_u64(out, values.len() as u64)?;
    push_all_accounts(out, values)?;
    Ok(())
}
