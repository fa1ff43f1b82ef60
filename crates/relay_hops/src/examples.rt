//! Worked examples of identifiers, and that there is one choice. Each is the contract of a function without a body.

ghost use Rattle.std.specs.Prelude.{◌≡◌, ◌∷◌, ℕ, [], map};
ghost use Rattle.relay_hops.specs.PendingTable.{PendingTable};
ghost use Rattle.relay_hops.specs.Identifiers.{IsGiven, places_for};
ghost use Rattle.relay_hops.specs.IdentifierExample.{GivesOnly, of_two, row_under};

/// A table gives one identifier and no other one.
pub fn one_identifier_is_given()
    ensures { (pending : PendingTable) (hop other next later : ℕ) → IsGiven pending hop next → IsGiven pending other later → (hop ≡ other) × (next ≡ later) }
{}

/// Identifiers rise by one from a start, whatever was answered; the highest bit is set, and behind the highest one
/// they begin again.
pub fn identifiers_rise_from_the_start()
    ensures first { GivesOnly (of_two [] 0) 2147483648 1 }
    ensures second { GivesOnly (of_two (row_under 2147483648 ∷ []) 1) 2147483649 2 }
    // The first was answered, and is not given again.
    ensures answered { GivesOnly (of_two (row_under 2147483649 ∷ []) 2) 2147483650 3 }
    ensures last { GivesOnly (of_two [] 2147483647) 4294967295 0 }
{}

/// One whose place a pending request has is passed over: there are four places, and 2147483649 has the second one,
/// as 2147483653 has.
pub fn places_in_use_are_passed_over()
    ensures passed { GivesOnly (of_two (row_under 2147483649 ∷ []) 5) 2147483654 7 }
    ensures both { GivesOnly (of_two (row_under 2147483650 ∷ row_under 2147483649 ∷ []) 5) 2147483655 8 }
    ensures around { GivesOnly (of_two (row_under 4294967295 ∷ []) 2147483647) 2147483648 1 }
{}

/// The least power of two that is twice the limit or more.
pub fn there_are_twice_as_many_places()
    ensures { map places_for (0 ∷ 1 ∷ 2 ∷ 3 ∷ 16384 ∷ 16385 ∷ 1073741824 ∷ []) ≡ 1 ∷ 2 ∷ 4 ∷ 8 ∷ 32768 ∷ 65536 ∷ 2147483648 ∷ [] }
{}
