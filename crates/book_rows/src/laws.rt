//! What holds of all rows.

ghost use Rattle.std.specs.Prelude.{◌≡◌, Ok};
ghost use Rattle.book_rows.specs.declared.about.About.{About};
ghost use Rattle.book_rows.specs.declared.about.Standing.{Standing};
ghost use Rattle.book_rows.specs.About.{about, moment_in, standing, sum_in, whole};
ghost use Rattle.book_rows.specs.declared.row.Row.{Row};
ghost use Rattle.book_rows.specs.Row.{row_of, spelled, IsRow};

/// What a row is spelled as is read as this row.
pub fn spelled_rows_are_read_back()
    ensures { (r : Row) → IsRow r → row_of (spelled r) ≡ Ok r }
{}

/// Two rows that spell the same are the same.
pub fn rows_are_spelled_once()
    ensures { (a b : Row) → IsRow a → IsRow b → spelled a ≡ spelled b → a ≡ b }
{}

/// What tells what a book is is read as this.
pub fn abouts_are_read_back()
    ensures { (a : About) → about.Fits a → whole about (about.spell a) ≡ Ok a }
{}

/// What tells where a book stands is read as this.
pub fn standings_are_read_back()
    ensures { (s : Standing) → standing.Fits s → whole standing (standing.spell s) ≡ Ok s }
{}

/// The moment and the sum that are read off the octets of a row are the row's.
pub fn standings_are_of_the_last()
    ensures moment { (r : Row) → IsRow r → moment_in (spelled r) ≡ r.moment.0 }
    ensures sum { (r : Row) → IsRow r → sum_in (spelled r) ≡ r.sum.0 }
{}
