//! Accounts, one tariff, and a book of both.

ghost use Rattle.std.specs.Prelude.{◌≤◌, ◌^◌};

use cc_book::{Account, Book, Money};
use cc_rating::{Tariff, Tariffs, UnitKind};
use dia_avp::Octets;
use std::alloc::Global;

/// Euros, in cents.
pub const MONEY: Money = Money {
    currency: 978,
    exponent: -2,
};

/// The Validity-Time of grants, in seconds.
pub const VALIDITY: u32 = 600;

/// One account of 1000: its Subscription-Id-Data, and what it begins with.
pub const ONE_ACCOUNT: [(&str, i64); 1] = [("491700000001", 1_000)];

fn account(alloc: Global, id: &str, opening: i64) -> anyhow::Result<Account> {
    Ok(Account {
        id_kind: 0,
        id: Octets::copy_of(alloc, id.as_bytes())?,
        opening,
    })
}

/// Accounts of these Subscription-Id-Data, with what each begins with.
pub fn accounts(alloc: Global, openings: &[(&str, i64)]) -> anyhow::Result<Vec<Account>> {
    let mut accounts = Vec::new(alloc);
    for (id, opening) in openings {
        accounts.push(account(alloc, id, *opening)?)?;
    }
    Ok(accounts)
}

/// 5 for each 1000 octets of group 10.
fn tariffs(alloc: Global) -> anyhow::Result<Tariffs> {
    let tariff = Tariff {
        group: Some(10),
        ident: None,
        kind: UnitKind::Octets,
        block: 1_000,
        price: 5,
        quantum: 5_000,
        greatest: 10_000,
    };
    Ok(Tariffs::new(alloc, vec![in alloc; tariff]?)?)
}

/// A book of these accounts, and 5 for each 1000 octets of group 10, which takes so many entries.
pub fn book(alloc: Global, openings: &[(&str, i64)], limit: u64) -> anyhow::Result<Book>
    requires { limit ≤ 2 ^ 20 }
{
    let accounts = accounts(alloc, openings)?;
    let tariffs = tariffs(alloc)?;
    Ok(Book::new(alloc, accounts, tariffs, VALIDITY, MONEY, limit)?)
}
