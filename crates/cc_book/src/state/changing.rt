//! The terms that hold, and how they change.

ghost use Rattle.std.specs.Prelude.{◌≡◌, ◌≢◌, Err};
ghost use Rattle.cc_book.specs.declared.terms_change.ChangeRefusal.TheVariants.{OutOfMemory};

use super::BookState;
use crate::book::free_place;
use crate::charges::NO_CHARGE;
use crate::entry::Entry;
use crate::terms::Terms;
use crate::terms_change::{ChangeRefusal, TermsChange};
use dia_base::Moment;
use std::alloc::Global;

impl BookState {
    ghost use Rattle.cc_book.specs.AccountMachine.{terms_of};
    ghost use Rattle.cc_book.specs.Changing.{ChangesWith, after_change_with, change_answer};

    /// The terms that hold now: those that it began with, and each change since.
    pub fn terms_now(&self) -> &Terms
        ensures { result.now ≡ terms_of self.now.terms self.now.history }
    {
        self.terms.current()
    }

    /// What `change_terms` would answer now. It changes nothing, and takes no memory.
    pub fn quote_change(&self, change: &TermsChange) -> Result<u64, ChangeRefusal>
        ensures answer { ChangesWith (change_answer self.now change.now) result }
        ensures memory { result ≢ Err OutOfMemory }
    {
        if let Some(fault) = change.fault(self.terms_now()) {
            return Err(fault);
        }
        match free_place(&self.history, self.limit) {
            Some(place) => Ok(place),
            None => Err(ChangeRefusal::Full { limit: self.limit }),
        }
    }

    /// Changes the terms, all that the change says or nothing: from here on the accounts that join are there, each with
    /// its opening amount as its balance, and the new tariffs hold. It answers the place of the entry. No reply and no
    /// debit of the past changes, and what is held stays held at the cost at which it was granted. Memory is wanted only
    /// for what is not refused, and that of the change alone. After a refusal the book is unchanged.
    pub fn change_terms(
        &mut self,
        alloc: Global,
        moment: Moment,
        change: TermsChange,
    ) -> Result<u64, ChangeRefusal>
        ensures answer { ChangesWith (change_answer self.old change) result }
        ensures after { self.new ≡ after_change_with self.old moment change result }
    {
        let place = self.quote_change(&change)?;
        self.standing.reserve_accounts(change.joining.len())?;
        self.terms.change(alloc, &change)?;
        self.standing.join(change.joining.as_slice());
        let change = change.into_list();
        self.history
            .push_reserved(Entry::ChangeTerms { moment, change });
        self.replies.push_reserved(None);
        self.charges.push_reserved(NO_CHARGE);
        Ok(place)
    }
}
