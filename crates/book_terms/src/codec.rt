//! Terms as octets: how they are written, and read again.

ghost use Rattle.std.specs.Prelude.{◌≡◌, [], IfOk, OnOk};
ghost use Rattle.book_rows.specs.About.{whole};
ghost use Rattle.book_rows.specs.Form.{Adds, Gives};
ghost use Rattle.book_terms.specs.Terms.{terms as terms_form};

use book_rows::{
    Fault, ReadError, accounts_at, i32_at, push_accounts, push_i32, push_tariffs, push_u32,
    tariffs_at, u32_at,
};
use cc_book::{Accounts, Money, Subscriptions, Terms};
use std::alloc::{AllocError, Global};

#[tactic(auto, unfolding(crate::specs::Terms::terms))]
fn terms_at(alloc: Global, octets: &[u8]) -> Result<(Terms, &[u8]), ReadError>
    ensures { Gives (λ x. (x.0, x.1.now)) result (terms_form.read octets.now) }
{
    let (currency, rest) = u32_at(octets)?;
    let (exponent, rest) = i32_at(rest)?;
    let (validity, rest) = u32_at(rest)?;
    let (tariffs, rest) = tariffs_at(alloc, rest)?;
    let (accounts, rest) = accounts_at(alloc, rest)?;
    Ok((
        Terms {
            accounts: Accounts::from_vec(alloc, accounts)?,
            closed: Subscriptions::empty(alloc),
            tariffs,
            validity,
            money: Money { currency, exponent },
        },
        rest,
    ))
}

#[tactic(auto, unfolding(book_rows::specs::About::whole))]
fn whole_terms(alloc: Global, octets: &[u8]) -> Result<Terms, ReadError>
    ensures { Gives (λ terms. terms) result (whole terms_form octets.now) }
{
    let (terms, rest) = terms_at(alloc, octets)?;
    if !rest.is_empty() {
        return Err(ReadError::NoRow(Fault::LeftOver));
    }
    Ok(terms)
}

/// The terms that octets tell, all of them. The fault is the first one from left to right.
pub fn read_terms(alloc: Global, octets: &[u8]) -> Result<Terms, ReadError>
    // What is read is spelled so.
    ensures found { IfOk result (λ terms. (octets.now ≡ terms_form.spell terms) × terms_form.Fits terms) }
    // Which fault it is.
    ensures exact { Gives (λ terms. terms) result (whole terms_form octets.now) }
{
    whole_terms(alloc, octets)
}

fn push_terms(out: &mut Vec<u8>, value: &Terms) -> Result<(), AllocError>
    requires { value.now.closed ≡ [] }
    ensures { OnOk result (Adds terms_form value.now out.old.items out.new.items) }
{
    push_u32(out, value.money.currency)?;
    push_i32(out, value.money.exponent)?;
    push_u32(out, value.validity)?;
    push_tariffs(out, &value.tariffs)?;
    push_accounts(out, value.accounts.as_slice())?;
    Ok(())
}

/// The octets of the terms that a book begins with: no account is closed then.
pub fn spell_terms(alloc: Global, terms: &Terms) -> Result<Vec<u8>, AllocError>
    requires { terms.now.closed ≡ [] }
    ensures octets { IfOk result (λ octets. octets.items ≡ terms_form.spell terms.now) }
    ensures fits { OnOk result (terms_form.Fits terms.now) }
{
    let mut out = Vec::new(alloc);
    push_terms(&mut out, terms)?;
    Ok(out)
}
