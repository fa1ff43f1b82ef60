//! What holds of the rows of all histories.

ghost use Rattle.std.specs.Prelude.{◌≡◌, ℕ, List, [], ◌∷◌, ◌++◌, Some, slice_get, length, All};
ghost use Rattle.cc_book.specs.declared.entry.Entry.{Entry};
ghost use Rattle.cc_book.specs.declared.terms.Terms.{Terms};
ghost use Rattle.book_rows.specs.Row.{IsRow};
ghost use Rattle.book_entries.specs.Entries.{history_of};
ghost use Rattle.book_entries.specs.Rows.{HasRowAt, row_behind, rows_of, stored_of, sum_of};

/// The rows of a history, read as entries again, are this history.
pub fn rows_tell_their_history()
    ensures { (terms : Terms) (history : List Entry) → history_of (rows_of terms history) ≡ history }
{}

/// Each entry has its row at its place, and there are no other rows.
pub fn each_place_has_its_row()
    ensures each { (terms : Terms) (history : List Entry) (place : ℕ) (entry : Entry) → slice_get history place ≡ Some entry → HasRowAt terms history place entry }
    ensures count { (terms : Terms) (history : List Entry) → length (rows_of terms history) ≡ length history }
{}

/// A history with an entry more has the rows that it had, and one more.
pub fn longer_histories_keep_their_rows()
    ensures { (terms : Terms) (history : List Entry) (entry : Entry) → rows_of terms (history ++ entry ∷ []) ≡ rows_of terms history ++ row_behind terms history (sum_of terms history) entry ∷ [] }
{}

/// Two histories of which the same octets are stored are the same, under whatever terms.
pub fn same_octets_tell_one_history()
    ensures { (terms others : Terms) (one other : List Entry) → All IsRow (rows_of terms one) → All IsRow (rows_of others other) → stored_of terms one ≡ stored_of others other → one ≡ other }
{}
