//! The terms that hold, and how they change.

ghost use Rattle.std.specs.Prelude.{◌≡◌, ◌≢◌, Err};
ghost use Rattle.cc_book.specs.declared.terms_change.ChangeRefusal.TheVariants.{OutOfMemory};

use super::ListBook;
use cc_book::{ChangeRefusal, Entry, Terms, TermsChange, free_place};
use dia_base::Moment;
use std::alloc::Global;

impl ListBook {
    ghost use Rattle.cc_book.specs.AccountMachine.{terms_of};
    ghost use Rattle.cc_book.specs.Changing.{ChangesWith, after_change_with, change_answer};

    /// The terms that hold now: those that it began with, and each change since.
    pub fn terms_now(&self) -> &Terms
        ensures { result.now ≡ terms_of self.now.terms self.now.history }
    {
        match &self.changed {
            Some(terms) => terms,
            None => &self.terms,
        }
    }

    /// What `change_terms` would answer now. It changes nothing, and takes no memory.
    pub fn quote_change(&self, change: &TermsChange) -> Result<u64, ChangeRefusal>
        ensures answer { ChangesWith (change_answer self.now change.now) result }
        ensures memory { result ≢ Err OutOfMemory }
    {
        if let Some(fault) = change.fault(self.terms_now()) {
            return Err(fault);
        }
        match free_place(&self.history, self.limit) {
            Some(place) => Ok(place),
            None => Err(ChangeRefusal::Full { limit: self.limit }),
        }
    }

    /// Changes the terms, all that the change says or nothing. It answers the place of the entry. Memory is wanted only
    /// for what is not refused. After a refusal the book is unchanged.
    pub fn change_terms(
        &mut self,
        alloc: Global,
        moment: Moment,
        change: TermsChange,
    ) -> Result<u64, ChangeRefusal>
        ensures answer { ChangesWith (change_answer self.old change) result }
        ensures after { self.new ≡ after_change_with self.old moment change result }
    {
        let place = self.quote_change(&change)?;
        let terms = self.terms_now().changed(alloc, &change)?;
        self.standing.join(change.joining.as_slice())?;
        self.changed = Some(terms);
        self.history
            .push_reserved(Entry::ChangeTerms { moment, change });
        self.replies.push_reserved(None);
        Ok(place)
    }
}
