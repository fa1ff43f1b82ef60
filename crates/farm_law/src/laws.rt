//! What moves keep.

ghost use Rattle.std.specs.Prelude.{◌≡◌, []};
ghost use Rattle.cc_book.specs.Taking.{Ledger};
ghost use Rattle.farm_law.specs.Farm.{Farm};
ghost use Rattle.farm_law.specs.Invariant.{IsKept, new_farm};
ghost use Rattle.farm_law.specs.Moves.{Moves};
ghost use Rattle.farm_law.specs.Parties.{Parties};
ghost use Rattle.farm_law.specs.Tally.{OwesEach};

use cc_book::{legal_histories_grow, the_empty_history_is_legal};
use front_core::answers_stay;
use relay_core::{descendants_read_alike, descending_goes_on};

/// A farm in which nothing has happened keeps what farms keep, and so does each one that moves lead to from one that
/// does. And whatever error answers are on their way or received, as many have nodes written.
pub fn moves_keep_a_farm()
    ensures start { (p : Parties) (book : Ledger) → book.history ≡ [] → IsKept p (new_farm book) }
    ensures moves { (p : Parties) (old new : Farm) → Moves p old new → IsKept p old → IsKept p new }
    ensures owed { (p : Parties) (old new : Farm) → Moves p old new → IsKept p old → OwesEach p old → OwesEach p new }
{
    the_empty_history_is_legal();
    legal_histories_grow();
    answers_stay();
    descending_goes_on();
    descendants_read_alike();
}
