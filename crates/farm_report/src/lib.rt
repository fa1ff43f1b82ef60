//! What a book comes to, as text.
//!
//! - [`report`]: `entries K open S`, and a line for each account.
//!
//! The exact text is `report_of` in `specs/Report`.
//!
//! ```text
//! use cc_book::Book;
//! use farm_report::report;
//!
//! fn print(rt: &impl Print, alloc: Global, book: &Book) -> io::Result<()> {
//!     let text = report(alloc, book)?;
//!     print!(rt; "{text}")
//! }
//! ```
#![tactic(auto)]

ghost use Rattle.std.specs.Prelude.{◌≡◌, IfOk, string_bytes, encode_utf8_all};
ghost use Rattle.farm_report.specs.Report.{report_of, heading_of, account_line};

use cc_book::{Account, Book};
use std::alloc::{AllocError, Global};

/// The report of a book: `entries K open S`, and for each account in order
/// `account TYPE ID balance B reserved R`. Each line ends with a line feed.
pub fn report(alloc: Global, book: &Book) -> Result<String, AllocError>
    ensures { IfOk result (λ text. string_bytes text ≡ report_of book.now) }
{
    let mut text = heading(alloc, book)?;
    for (place, account) in book.accounts().iter().enumerate() {
        let balance = book.balance(place).unwrap();
        let reserved = book.reserved(place).unwrap();
        let line = account_line(alloc, account, balance, reserved)?;
        text.push_str(line.as_str())?;
    }
    Ok(text)
}

fn heading(alloc: Global, book: &Book) -> Result<String, AllocError>
    ensures { IfOk result (λ text. string_bytes text ≡ heading_of book.now) }
{
    let entries = book.history().len();
    let open = book.open_sessions();
    format!(in alloc; "entries {entries} open {open}\n")
}

fn account_line(
    alloc: Global,
    account: &Account,
    balance: i128,
    reserved: i128,
) -> Result<String, AllocError>
    ensures { IfOk result (λ line. string_bytes line ≡ account_line account.now balance reserved) }
{
    let kind = account.id_kind;
    let id = text_of(alloc, account.id.as_slice())?;
    format!(in alloc; "account {kind} {id} balance {balance} reserved {reserved}\n")
}

/// The characters with these codes.
fn text_of(alloc: Global, octets: &[u8]) -> Result<String, AllocError>
    ensures { IfOk result (λ text. string_bytes text ≡ encode_utf8_all octets.now) }
{
    octets.iter().map(|octet| char::from(*octet)).collect(alloc)
}
