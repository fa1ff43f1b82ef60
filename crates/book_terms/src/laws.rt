//! What holds of all terms.

ghost use Rattle.std.specs.Prelude.{◌≡◌, Ok, true};
ghost use Rattle.cc_book.specs.declared.terms.Terms.{Terms};
ghost use Rattle.book_rows.specs.About.{whole};
ghost use Rattle.book_terms.specs.declared.key.TermsKey.{TermsKey};
ghost use Rattle.cc_book.specs.declared.terms_change.TermsChange.{TermsChange};
ghost use Rattle.cc_book.specs.TermsChange.{changed_terms, says_nothing};
ghost use Rattle.book_terms.specs.Difference.{DiffersIn, Hold, IsNeeded};
ghost use Rattle.book_terms.specs.Terms.{terms};

/// What terms are spelled as is read as these terms.
pub fn terms_are_read_back()
    ensures { (t : Terms) → terms.Fits t → whole terms (terms.spell t) ≡ Ok t }
{}

/// Two terms that spell the same are the same.
pub fn terms_are_spelled_once()
    ensures { (a b : Terms) → terms.Fits a → terms.Fits b → terms.spell a ≡ terms.spell b → a ≡ b }
{}

/// A change that is needed leads to the terms that are wanted.
pub fn needed_changes_lead_there()
    ensures { (now wanted : Terms) (change : TermsChange) → IsNeeded now wanted change → Hold (changed_terms now change) wanted }
{}

/// Where the change that is needed says nothing, the terms that are wanted hold.
pub fn terms_hold_where_nothing_is_needed()
    ensures { (now wanted : Terms) (change : TermsChange) → IsNeeded now wanted change → says_nothing change ≡ true → Hold now wanted }
{}

/// Where terms hold that are wanted, no change is needed.
pub fn terms_that_hold_need_no_change()
    ensures { (now wanted : Terms) (change : TermsChange) → Hold now wanted → IsNeeded now wanted change → says_nothing change ≡ true }
{}

/// Terms that hold differ in no key that stays.
pub fn terms_that_hold_differ_in_no_key()
    ensures { (key : TermsKey) (now wanted : Terms) → Hold now wanted → DiffersIn key now wanted → ⊥ }
{}
