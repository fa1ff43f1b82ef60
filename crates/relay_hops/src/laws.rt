//! What is held after a change, key by key.

ghost use Rattle.std.specs.Prelude.{◌≡◌, ◌==◌, ◌↔◌, ◌≤◌, ◌∷◌, ℕ, List, map, is_some, IsSome, Some, None, option_map, if◌then◌else◌};
ghost use Rattle.std.specs.List.{list_any, count_by};
ghost use Rattle.dia_base.specs.declared.number.ConnId.{ConnId};
ghost use Rattle.relay_hops.specs.declared.row.Held.{Held};
ghost use Rattle.relay_hops.specs.declared.row.Row.{Row};
ghost use Rattle.relay_hops.specs.PendingTable.{has_key, IsMap, held_at, hops_on, AreInUse, IsWith, IsMoved, without_origin, orphaned};

/// What is held under a key has the identifier of the key.
pub fn held_has_its_identifier()
    ensures { (rows : List Row) (conn : ConnId) (hop : ℕ) (held : Held) → held_at rows conn hop ≡ Some held → held.request.header.hop ≡ hop }
{}

/// A row more is held under its own key, and every other key holds what it held.
pub fn held_with_one_more()
    ensures { (row : Row) (others rows : List Row) (conn : ConnId) (hop : ℕ) → IsWith row others rows → IsMap rows → held_at rows conn hop ≡ (if has_key conn hop row then Some row.held else held_at others conn hop) }
{}

/// A row that is taken out leaves nothing under its key, and every other key holds what it held.
pub fn held_with_one_less()
    ensures { (row : Row) (others rows : List Row) (conn : ConnId) (hop : ℕ) → IsWith row others rows → IsMap rows → held_at others conn hop ≡ (if has_key conn hop row then None else held_at rows conn hop) }
{}

/// A row that moves is one row less and one row more.
pub fn moved_is_out_and_in()
    ensures { (row other : Row) (old new : List Row) → IsMoved row other old new → (rest : List Row) × IsWith row rest old × IsWith other rest new }
{}

/// When a connection has ended, each key holds what it held, without an origin there.
pub fn held_without_origins()
    ensures { (rows : List Row) (ended conn : ConnId) (hop : ℕ) → held_at (map (orphaned ended) rows) conn hop ≡ option_map (without_origin ended) (held_at rows conn hop) }
{}

/// An identifier is among those on a connection where something is held under the two.
pub fn sent_to_is_what_is_held()
    ensures { (rows : List Row) (conn : ConnId) (hop : ℕ) → list_any (λ h. h == hop) (hops_on rows conn) ≡ is_some (held_at rows conn hop) }
{}

/// A key under which nothing is held has no row.
pub fn free_is_without_a_row()
    ensures { (rows : List Row) (conn : ConnId) (hop : ℕ) → (held_at rows conn hop ≡ None) ↔ (count_by (has_key conn hop) rows ≡ 0) }
{}

/// Of the identifiers in use on a connection the first is the least.
pub fn the_first_is_the_least()
    ensures held { (rows : List Row) (conn : ConnId) (hop : ℕ) (hops : List ℕ) → AreInUse rows conn (hop ∷ hops) → IsSome (held_at rows conn hop) }
    ensures least { (rows : List Row) (conn : ConnId) (hop : ℕ) (hops : List ℕ) → AreInUse rows conn (hop ∷ hops) → (other : ℕ) → IsSome (held_at rows conn other) → hop ≤ other }
{}

/// Once nothing is held under the first of them, and under every other identifier what was held, the
/// rest of them are those in use.
pub fn the_rest_are_in_use()
    ensures { (rows new : List Row) (conn : ConnId) (hop : ℕ) (hops : List ℕ) → AreInUse rows conn (hop ∷ hops) →
        ((other : ℕ) → held_at new conn other ≡ (if other == hop then None else held_at rows conn other)) → AreInUse new conn hops }
{}
