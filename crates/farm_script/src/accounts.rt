//! A text of accounts, one on a line.

ghost use Rattle.std.specs.Prelude.{◌≡◌};
ghost use Rattle.farm_script.specs.AccountLines.{AnswersAccounts, account_in, accounts_of, line_of_account};
ghost use Rattle.farm_script.specs.Words.{Answers};

use crate::fault::{LineFault, ScriptFault};
use crate::line::{first_line, is_skipped, words_of};
use crate::no_memory_at;
use crate::terms::account_of;
use cc_book::Account;
use std::alloc::Global;

/// The accounts that a text spells, each on a line of its own as `account TYPE ID OPENING`, or the fault of the first line that spells none.
///
/// A line ends with a line feed, which the last may lack, or with a carriage return and a line feed. Empty lines and lines
/// that begin with `#` are skipped. How long a text is, and whether an account stands twice, is not asked.
pub fn accounts_of(alloc: Global, text: &[u8]) -> Result<Vec<Account>, ScriptFault>
    ensures { AnswersAccounts (accounts_of text.now) result }
{
    let mut accounts = Vec::new(alloc);
    let mut line = 0u64;
    let mut rest = text;
    while !rest.is_empty() {
        let (first, behind) = first_line(rest);
        line += 1;
        match account_in(alloc, first) {
            Ok(Some(account)) => accounts.push(account).map_err(|_| no_memory_at(line))?,
            Ok(None) => {}
            Err(fault) => return Err(ScriptFault::Line { line, fault }),
        }
        rest = behind;
    }
    Ok(accounts)
}

/// The account of a line, without its end, of such a text: none where the line says nothing.
pub fn account_in(alloc: Global, line: &[u8]) -> Result<Option<Account>, LineFault>
    ensures { Answers (account_in line.now) result }
{
    if is_skipped(line) {
        return Ok(None);
    }
    let words = words_of(alloc, line)?;
    Ok(Some(account_of(alloc, &words)?))
}

/// The number of the line, from 1, that spells the account at a place, from 0, of those of a text.
pub fn line_of_account(text: &[u8], place: usize) -> u64
    ensures { result ≡ line_of_account text.now place }
{
    let mut left = place;
    let mut line = 1u64;
    let mut rest = text;
    while !rest.is_empty() {
        let (first, behind) = first_line(rest);
        if !is_skipped(first) {
            if left == 0 {
                return line;
            }
            left -= 1;
        }
        line += 1;
        rest = behind;
    }
    line
}
