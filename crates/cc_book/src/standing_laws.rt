//! Laws of what each entry does to the sessions that are open, for those who store them.
#![tactic(auto)]

ghost use Rattle.std.specs.Prelude.{◌≡◌, List, [], ◌∷◌, ◌++◌};
ghost use Rattle.dia_base.specs.declared.number.Moment.{Moment};
ghost use Rattle.cc_book.specs.declared.entry.Entry.{Entry};
ghost use Rattle.cc_book.specs.declared.entry.Entry.TheVariants.{Take, Sweep, ChangeTerms};
ghost use Rattle.cc_book.specs.declared.plan.Taken.{Taken};
ghost use Rattle.cc_book.specs.declared.terms.Terms.{Terms};
ghost use Rattle.cc_book.specs.declared.terms_change.TermsChange.{TermsChange};
ghost use Rattle.cc_book.specs.Planning.{IsTaking};
ghost use Rattle.cc_book.specs.Standing.{after_change, sessions_in, without_due};
ghost use Rattle.cc_book.specs.Taking.{Ledger, with_take};

/// A request does to the open sessions what its outcome says; a sweep ends those that are due; a change of the terms leaves them.
pub fn entries_change_sessions()
    ensures by_request { (ledger : Ledger) (taken : Taken) → IsTaking ledger taken →
        sessions_in ledger.terms (with_take ledger taken.moment taken.request).history ≡ after_change (sessions_in ledger.terms ledger.history) taken.outcome.change }
    ensures by_sweep { (terms : Terms) (history : List Entry) (moment : Moment) →
        sessions_in terms (history ++ Sweep moment ∷ []) ≡ without_due terms.validity moment (sessions_in terms history) }
    ensures by_change { (terms : Terms) (history : List Entry) (moment : Moment) (change : TermsChange) →
        sessions_in terms (history ++ ChangeTerms moment change ∷ []) ≡ sessions_in terms history }
{}
