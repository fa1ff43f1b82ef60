//! Accounts, and the money that they are kept in.

ghost use Rattle.std.specs.Prelude.{◌≡◌};
ghost use Rattle.cc_book.specs.TermsChange.{same_owner};

use dia_avp::Octets;

/// An account of the site. Amounts are whole minor units of its money.
#[derive(Clone, Debug, Drop)]
pub struct Account {
    /// Subscription-Id-Type of its owner (RFC 8506, section 8.47).
    pub id_kind: u32,
    /// Subscription-Id-Data of its owner (RFC 8506, section 8.48).
    pub id: Octets,
    /// The balance before the first request.
    pub opening: i64,
}

impl Account {
    /// Whether both have one Subscription-Id.
    pub fn has_same_owner(&self, other: &Account) -> bool
        ensures { result ≡ same_owner self.now other.now }
    {
        self.id_kind == other.id_kind && self.id == other.id
    }
}

/// The money of a site: one minor unit is ten to the exponent of the currency.
#[derive(Clone, Copy, Debug, PartialEq, Eq)]
pub struct Money {
    /// Currency-Code (RFC 8506, section 8.11; ISO 4217).
    pub currency: u32,
    /// Exponent (RFC 8506, section 8.9).
    pub exponent: i32,
}
