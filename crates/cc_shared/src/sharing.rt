//! What names one sharing of a book.

use std::marker::Brand;
use std::sync::ledger::Ledger;

/// Names one sharing of a book: the ledger of its takes, the book that was handed in, its history from then on, and whether it is
/// stored. Each call of a program that shares a book picks it.
pub trait Sharing: Ledger {
    ghost use Rattle.cc_shared.specs.History.{SharedLedger};

    ghost shared: { SharedLedger };
}

impl Sharing for Brand {
    ghost use Rattle.std.specs.Prelude.{[], false, pos};

    ghost shared = { record {
      opened = record {
        terms = record { accounts = []; closed = []; tariffs = []; validity = 0; money = record { currency = 0; exponent = pos 0 } };
        limit = 0;
        history = [];
      };
      log = record { number = 0; log_name = 0; cells_name = 0 };
      stored = false;
    } };
}
