//! What a pool does to the book is what charges of its front do.

ghost use Rattle.std.specs.Prelude.{◌≡◌, ◌≤◌, length, true, false, Some};
ghost use Rattle.dia_base.specs.declared.number.Moment.{Moment};
ghost use Rattle.cc_book.specs.History.{IsLegal};
ghost use Rattle.cc_book.specs.Taking.{Ledger};
ghost use Rattle.cc_shared.specs.declared.receipt.Receipt.{Receipt};
ghost use Rattle.cc_shared.specs.History.{SharedLedger};
ghost use Rattle.cc_shared.specs.Receipts.{Fits};
ghost use Rattle.front_core.specs.declared.site.FrontSite.{FrontSite};
ghost use Rattle.front_core.specs.ChargeCases.{IsCharge};
ghost use Rattle.front_pool.specs.declared.job.Finished.{Finished};
ghost use Rattle.front_pool.specs.Answering.{IsAnswered};
ghost use Rattle.front_pool.specs.Charging.{IsChargedAt, answer_with, pool_of};

/// Each fresh receipt of a finished job that stands in the history of a book, as [`cc_shared::SharedBook::finish`] sees it,
/// is one charge of the front, of which the place is the order: from the book as it was before that place to the book as it
/// was behind it. One that is not fresh is a charge which finds the reply kept, and changes nothing.
pub fn fresh_receipts_are_charges()
    ensures fresh { (site : FrontSite) (shared : SharedLedger) (ledger : Ledger) (finished : Finished) (receipt : Receipt) →
        IsLegal ledger.terms ledger.history → length ledger.history ≤ ledger.limit →
        IsAnswered (pool_of site) shared finished → finished.receipt ≡ Some receipt → Fits ledger.terms ledger.history receipt →
        receipt.fresh ≡ true → IsChargedAt site ledger finished.request receipt }
    ensures repeated { (site : FrontSite) (shared : SharedLedger) (ledger : Ledger) (moment : Moment) (finished : Finished) (receipt : Receipt) →
        IsLegal ledger.terms ledger.history → IsAnswered (pool_of site) shared finished → finished.receipt ≡ Some receipt →
        Fits ledger.terms ledger.history receipt → IsCharge site ledger moment finished.request (answer_with site finished.request receipt) ledger }
{}
