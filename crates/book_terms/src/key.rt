//! The keys of a site file in which no change can make the terms of a book the site's.

ghost use Rattle.std.specs.Prelude.{Some};
ghost use Rattle.book_terms.specs.Words.{words_of};

use std::fmt;

/// A key of a site file in which the terms of a book differ, and stay. Places count from 0.
#[derive(Clone, Copy, Debug, PartialEq, Eq)]
pub enum TermsKey {
    Currency,
    Exponent,
    Validity,
    /// The opening of the account at this place of the site: the book has the account with another one.
    Opening { place: u64 },
}

/// The key in words of a site file. Accounts count from 1, as `farm check` counts entries.
impl fmt::Display for TermsKey {
    ghost output = { λ key. Some (words_of key) };

    fn fmt<W: fmt::Write>(&self, f: &mut fmt::Formatter<W>) -> fmt::Result {
        match *self {
            TermsKey::Currency => write!(f, "currency"),
            TermsKey::Exponent => write!(f, "exponent"),
            TermsKey::Validity => write!(f, "validity"),
            TermsKey::Opening { place } => {
                let number = u128::from(place) + 1;
                write!(f, "the opening of account {number}")
            }
        }
    }
}
