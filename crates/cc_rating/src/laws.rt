//! Laws of rating, in the words of a reader who knows none of its code.

ghost use Rattle.std.specs.Prelude.{◌≡◌, ℕ, ◌<◌, ◌≤◌, ◌^◌, ◌-◌, ◌∷◌, List, [], ◌↔◌, Some, None, true, false, ℤ, pos, negsuc, ◌≤ℤ◌, min, map, find};
ghost use Rattle.std.specs.Int.{int_max};
ghost use Rattle.cc_rating.specs.declared.tariff.Tariff.{Tariff};
ghost use Rattle.cc_rating.specs.declared.tariff.UnitKind.TheVariants.{Time, Units};
ghost use Rattle.cc_rating.specs.declared.tariffs.TariffFault.TheVariants.{OutOfRange, Twice};
ghost use Rattle.cc_rating.specs.Laws.{AreTariffs, CostsFewestBlocks};
ghost use Rattle.cc_rating.specs.Rating.{cost_of, grant_of};
ghost use Rattle.cc_rating.specs.TariffExample.{by_both, by_group, by_identifier, by_neither, dear, fault_behind, gift, grant, most_units};
ghost use Rattle.cc_rating.specs.Tariffs.{fault_of, rates};

/// Units cost the price for each of the fewest blocks that hold them.
pub fn cost_is_of_fewest_blocks()
    ensures { (tariff : Tariff) (units : ℕ) → 0 < tariff.block → CostsFewestBlocks tariff units }
{}

/// What is granted is free, or costs nothing: its cost is that of its units, and at most what is free.
pub fn grants_are_free()
    ensures cost { (tariff : Tariff) (free : ℤ) (asked : ℕ) → (grant_of tariff free asked).held ≡ cost_of tariff (grant_of tariff free asked).units }
    ensures most { (tariff : Tariff) (free : ℤ) (asked : ℕ) → 0 < tariff.block → pos (grant_of tariff free asked).held ≤ℤ int_max free (pos 0) }
{}

/// A grant has no more units than were asked and than the tariff's greatest grant has, and no such number of
/// units that is free is above it. So all that may be granted is granted where it is free.
pub fn grants_are_the_most_that_is_free()
    ensures at_most_asked { (tariff : Tariff) (free : ℤ) (asked : ℕ) → (grant_of tariff free asked).units ≤ min asked tariff.greatest }
    ensures most { (tariff : Tariff) (free : ℤ) (asked units : ℕ) → 0 < tariff.block →
        units ≤ min asked tariff.greatest → pos (cost_of tariff units) ≤ℤ free → units ≤ (grant_of tariff free asked).units }
{}

/// A grant is marked as the last one exactly where it was cut down, unless there is a debt: then even a grant of
/// no units is marked, where units have a price.
pub fn last_grants_are_cut_down()
    ensures { (tariff : Tariff) (free : ℤ) (asked : ℕ) → 0 < tariff.block → pos 0 ≤ℤ free →
        ((grant_of tariff free asked).last ≡ true) ↔ ((grant_of tariff free asked).units < min asked tariff.greatest) }
{}

/// Tariffs have no fault exactly where each is in its ranges and is for a group or for an identifier, and
/// no service is rated by two of them.
pub fn sound_tariffs_have_no_fault()
    ensures { (tariffs : List Tariff) → (fault_of tariffs ≡ None) ↔ AreTariffs tariffs }
{}

/// Worked examples: each block that is begun costs its price.
pub fn begun_blocks_are_paid()
    ensures blocks { map (cost_of by_group) (0 ∷ 1 ∷ 1000 ∷ 1001 ∷ 3200 ∷ 5000 ∷ []) ≡ 0 ∷ 5 ∷ 5 ∷ 10 ∷ 20 ∷ 25 ∷ [] }
    ensures most { cost_of dear most_units ≡ 19342813113834066794250240 }
{}

/// Worked examples: what is granted of what is free. Five blocks cost 25, and 10,000 octets are granted at most.
pub fn grants_hold_their_cost()
    ensures all_free { grant_of by_group (pos 1000) 5000 ≡ grant 5000 25 false }
    ensures just_free { grant_of by_group (pos 25) 5000 ≡ grant 5000 25 false }
    ensures begun_block { grant_of by_group (pos 27) 4500 ≡ grant 4500 25 false }
    ensures sixth_block { grant_of by_group (pos 27) 5500 ≡ grant 5000 25 true }
    ensures two_blocks { grant_of by_group (pos 12) 5000 ≡ grant 2000 10 true }
    ensures no_block { grant_of by_group (pos 4) 5000 ≡ grant 0 0 true }
    ensures greatest { grant_of by_group (pos 1000) most_units ≡ grant 10000 50 false }
    ensures nothing_asked { grant_of by_group (pos 0) 0 ≡ grant 0 0 false }
    // An account in debt is granted nothing, be it by 1, by 10 or by 2 ^ 127, but for what is free of charge.
    ensures debt { map (grant_of by_group (negsuc 0)) (0 ∷ 5000 ∷ []) ≡ grant 0 0 true ∷ grant 0 0 true ∷ [] }
    ensures deeper_debt { grant_of by_group (negsuc 9) 5000 ≡ grant 0 0 true }
    ensures deepest_debt { grant_of by_group (negsuc (2 ^ 127 - 1)) 1 ≡ grant 0 0 true }
    ensures gift { grant_of gift (negsuc 9) 5000 ≡ grant 5000 0 false }
{}

/// Worked examples: the fault of a tariff behind another one, which is for the Rating-Group 10.
pub fn tariffs_are_refused_out_of_range_or_twice()
    ensures same_group { fault_behind by_group ≡ Some Twice }
    ensures both_keys { fault_behind by_both ≡ Some Twice }
    ensures other_key { fault_behind by_identifier ≡ None }
    ensures no_key { fault_behind by_neither ≡ Some OutOfRange }
    ensures price { map (λ price. fault_behind (record by_identifier { price = price })) (0 ∷ 1048576 ∷ 1048577 ∷ []) ≡ None ∷ None ∷ Some OutOfRange ∷ [] }
    ensures block { map (λ block. fault_behind (record by_identifier { block = block })) (0 ∷ 1 ∷ 4294967296 ∷ 4294967297 ∷ []) ≡ Some OutOfRange ∷ None ∷ None ∷ Some OutOfRange ∷ [] }
    // CC-Time has 32 bits, and what a quantum and a grant of other units may have is below 2 ^ 63.
    ensures quantum_of_time { map (λ units. fault_behind (record by_identifier { kind = Time; quantum = units })) (0 ∷ 4294967295 ∷ 4294967296 ∷ []) ≡ Some OutOfRange ∷ None ∷ Some OutOfRange ∷ [] }
    ensures grant_of_time { map (λ units. fault_behind (record by_identifier { kind = Time; greatest = units })) (0 ∷ 4294967295 ∷ 4294967296 ∷ []) ≡ Some OutOfRange ∷ None ∷ Some OutOfRange ∷ [] }
    ensures quantum_of_units { map (λ units. fault_behind (record by_identifier { kind = Units; quantum = units })) (4294967296 ∷ 9223372036854775807 ∷ 9223372036854775808 ∷ []) ≡ None ∷ None ∷ Some OutOfRange ∷ [] }
    ensures grant_of_octets { map (λ units. fault_behind (record by_identifier { greatest = units })) (4294967296 ∷ 9223372036854775807 ∷ 9223372036854775808 ∷ []) ≡ None ∷ None ∷ Some OutOfRange ∷ [] }
    // Of two faults OutOfRange is told.
    ensures out_of_range_first { fault_behind (record by_group { block = 0 }) ≡ Some OutOfRange }
{}

/// Worked examples: the tariff of a service is that of its Rating-Group, where it has one, and else that of its
/// Service-Identifier.
pub fn rating_groups_come_before_identifiers()
    ensures group { find (rates (Some 10) (Some 7)) (by_group ∷ by_identifier ∷ []) ≡ Some by_group }
    ensures identifier { find (rates None (Some 7)) (by_group ∷ by_identifier ∷ []) ≡ Some by_identifier }
    ensures other_group { find (rates (Some 11) (Some 7)) (by_group ∷ by_identifier ∷ []) ≡ None }
    ensures unnamed { find (rates None None) (by_group ∷ by_identifier ∷ []) ≡ None }
{}
