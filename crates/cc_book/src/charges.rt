//! What entries charged.

ghost use Rattle.std.specs.Prelude.{◌≡◌, IfOk, length};
ghost use Rattle.cc_book.specs.Charging.{latest};
ghost use Rattle.cc_book.specs.Posting.{is_account};

use std::alloc::{AllocError, Global};

/// What an entry charged: an account by its place, and what it debited that in minor units, below zero for a refund. No account and
/// nothing, where it charged none.
#[derive(Clone, Copy, Debug)]
pub struct Charge {
    pub account: Option<usize>,
    pub debit: i128,
}

/// That of an entry that charges no account.
pub const NO_CHARGE: Charge = Charge {
    account: None,
    debit: 0,
};

impl Charge {
    /// Whether it charged this account.
    fn is_to(&self, account: usize) -> bool
        ensures { result ≡ is_account account self.now.account }
    {
        self.account == Some(account)
    }
}

/// The places of the last entries that charged an account, the latest first, and no more than `most` of them.
pub fn last_charges(
    alloc: Global,
    charges: &[Charge],
    account: usize,
    most: usize,
) -> Result<Vec<usize>, AllocError>
    ensures { IfOk result (λ places. places.items ≡ latest account charges.now (length charges.now) most) }
{
    let mut places = Vec::new(alloc);
    for place in (0..charges.len()).rev() {
        if places.len() == most {
            break;
        }
        if charges[place].is_to(account) {
            places.push(place)?;
        }
    }
    Ok(places)
}
