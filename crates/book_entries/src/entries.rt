//! Rows as entries again.

ghost use Rattle.std.specs.Prelude.{◌≡◌};
ghost use Rattle.book_entries.specs.Entries.{entry_of};

use book_rows::{Row, Step};
use cc_book::Entry;

/// The entry that a row tells. The reply, the debit and the sum are what the entries before it make of it.
pub fn entry_of(row: Row) -> Entry
    ensures { result ≡ entry_of row }
{
    let moment = row.moment;
    match row.into_step() {
        Step::Take(taken) => Entry::Take {
            moment,
            request: taken.into_request(),
        },
        Step::Sweep => Entry::Sweep { moment },
        Step::ChangeTerms(change) => Entry::ChangeTerms { moment, change },
    }
}
