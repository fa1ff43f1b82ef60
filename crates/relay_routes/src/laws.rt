//! Laws of loops and routes.

ghost use Rattle.std.specs.Prelude.{◌≡◌, ◌∷◌, ◌++◌, ◌↔◌, ℕ, List, [], true, false, Ok, Err, map, codes};
ghost use Rattle.dia_base.specs.Folding.{folded_of};
ghost use Rattle.dia_avp.specs.AvpList.{written};
ghost use Rattle.dia_avp.specs.declared.avp.RawAvp.{RawAvp};
ghost use Rattle.relay_routes.specs.RouteExample.{avp, r1, r2, f1, f2, other_avps, route, routes_of_r1, routes_of_r2};
ghost use Rattle.relay_routes.specs.Routing.{names_node, record_of, loops, candidates_of, IsLoop, AreCandidates};
ghost use Rattle.relay_routes.specs.declared.routes.Route.{Route};
ghost use Rattle.relay_routes.specs.declared.routes.RouteFault.TheVariants.{RealmUnknown, NoApplication};

/// What a node's record was appended to, names the node.
pub fn added_record_names()
    ensures { (node : List ℕ) (avps : List RawAvp) → names_node node (avps ++ record_of node ∷ []) ≡ true }
{}

/// AVPs that name a node still do so with more behind them.
pub fn names_with_more()
    ensures { (node : List ℕ) (avps more : List RawAvp) → names_node node avps ≡ true → names_node node (avps ++ more) ≡ true }
{}

/// Whether a request loops is the same for each spelling of the identity.
pub fn same_loop()
    ensures { (node other body : List ℕ) → folded_of node ≡ folded_of other → loops node body ≡ loops other body }
{}

/// A request loops where its body spells AVPs and one of them is a Route-Record of the node.
pub fn loops_have_a_record_of_the_node()
    ensures { (node body : List ℕ) → (loops node body ≡ true) ↔ IsLoop node body }
{}

/// The candidates are the peers of the first route for the realm and the application. The realm is
/// unknown where no route is for it, else a route for the application is missing.
pub fn candidates_are_of_the_first_route()
    ensures { (routes : List Route) (realm : List ℕ) (app : ℕ) → AreCandidates routes realm app (candidates_of routes realm app) }
{}

/// Worked examples: the candidates for a realm, which is compared whole and without ASCII case, and an application. Of
/// several routes the first counts.
pub fn candidates_go_by_realm_and_application()
    ensures past_the_fronts { candidates_of routes_of_r1 (codes "OCS.EXAMPLE") 4 ≡ Ok (f1 ∷ f2 ∷ r2 ∷ []) }
    ensures fronts { candidates_of routes_of_r2 (codes "OCS.EXAMPLE") 4 ≡ Ok (f1 ∷ f2 ∷ []) }
    ensures each_other { map (λ routes. candidates_of routes (codes "LOOP.EXAMPLE") 4) (routes_of_r1 ∷ routes_of_r2 ∷ []) ≡ Ok (r2 ∷ []) ∷ Ok (r1 ∷ []) ∷ [] }
    ensures realm { map (λ routes. candidates_of routes (codes "nowhere.example") 4) (routes_of_r1 ∷ routes_of_r2 ∷ []) ≡ Err RealmUnknown ∷ Err RealmUnknown ∷ [] }
    ensures longer_realm { map (λ routes. candidates_of routes (codes "ocs.example.") 4) (routes_of_r1 ∷ routes_of_r2 ∷ []) ≡ Err RealmUnknown ∷ Err RealmUnknown ∷ [] }
    ensures application { map (λ routes. candidates_of routes (codes "ocs.example") 3) (routes_of_r1 ∷ routes_of_r2 ∷ []) ≡ Err NoApplication ∷ Err NoApplication ∷ [] }
    ensures no_routes { candidates_of [] (codes "ocs.example") 4 ≡ Err RealmUnknown }
    ensures first { candidates_of (route (codes "ocs.example") (f1 ∷ []) ∷ routes_of_r1) (codes "ocs.example") 4 ≡ Ok (f1 ∷ []) }
{}

/// Worked examples: a node is named by a Route-Record that is its whole identity, in either case, wherever it stands. A
/// Route-Record is written with the flag M and padding (RFC 6733, sections 4.1 and 4.5).
pub fn records_name_whole_identities()
    ensures nothing { names_node (codes "r1.example") [] ≡ false }
    ensures others { names_node (codes "r1.example") other_avps ≡ false }
    ensures last { names_node (codes "r1.example") (other_avps ++ avp 282 0 (codes "R1.example") ∷ []) ≡ true }
    ensures first { names_node (codes "r2.example") other_avps ≡ true }
    ensures record { written (record_of (codes "c1.example")) ≡
        0 ∷ 0 ∷ 1 ∷ 26 ∷ 64 ∷ 0 ∷ 0 ∷ 18 ∷ 99 ∷ 49 ∷ 46 ∷ 101 ∷ 120 ∷ 97 ∷ 109 ∷ 112 ∷ 108 ∷ 101 ∷ 0 ∷ 0 ∷ [] }
{}
