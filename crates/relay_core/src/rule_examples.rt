//! Worked examples: which of the thirteen rules decides on a request (RFC 6733, section 6.1), on a relay between two
//! clients, another relay and two fronts. Of two rules that apply the first decides.
#![tactic(auto, unfolding(dia_avp::specs::AvpReading::split_of, dia_avp::specs::AvpReading::split_from,))]

ghost use Rattle.std.specs.Prelude.{◌≡◌, ◌∷◌, ◌++◌, ℕ, List, [], length, map, replicate, codes, Ok, Err};
ghost use Rattle.cc_view.specs.Refusal.{avps_of};
ghost use Rattle.relay_hops.specs.declared.row.Row.{Row};
ghost use Rattle.relay_core.specs.RuleExample.{all_up, avp, but_for, client_up, cut_off, host, no_front_up, nowhere, ocs, of_application, of_body, of_vendor, realm, record_by, request_with, way, way_beside, way_from, way_of, without_p};
ghost use Rattle.relay_core.specs.RelayState.{with_rows};

/// The body is no list of AVPs: DIAMETER_INVALID_AVP_LENGTH, though it loops and P is clear.
pub fn bodies_that_are_cut_off_are_refused_first()
    ensures cut_off { way_of all_up (cut_off (request_with (ocs ∷ []))) ≡ Err 5014 }
    ensures first { way_of all_up (cut_off (without_p (request_with (record_by (codes "r1.example") ∷ ocs ∷ [])))) ≡ Err 5014 }
{}

/// A Route-Record is the relay's own, in either case and wherever it stands: DIAMETER_LOOP_DETECTED, though P is clear.
pub fn loops_are_refused_second()
    ensures own { way (record_by (codes "r1.example") ∷ ocs ∷ []) ≡ Err 3005 }
    ensures any { way (ocs ∷ record_by (codes "r2.example") ∷ record_by (codes "R1.Example") ∷ []) ≡ Err 3005 }
    ensures others { way (ocs ∷ record_by (codes "r2.example") ∷ []) ≡ Ok 2 }
    ensures second { way_of all_up (without_p (request_with (ocs ∷ record_by (codes "r1.example") ∷ []))) ≡ Err 3005 }
{}

/// P is clear: DIAMETER_COMMAND_UNSUPPORTED, though there is a Destination-Host without a realm.
pub fn requests_without_p_are_refused_third()
    ensures clear { way_of all_up (without_p (request_with (ocs ∷ []))) ≡ Err 3001 }
    ensures third { way_of all_up (without_p (request_with (host (codes "f1.example") ∷ []))) ≡ Err 3001 }
{}

/// Destination-Host without Destination-Realm: DIAMETER_UNABLE_TO_DELIVER, though it is the relay itself.
pub fn hosts_without_a_realm_are_refused_fourth()
    ensures linked { way (host (codes "f1.example") ∷ []) ≡ Err 3002 }
    ensures fourth { way (host (codes "r1.example") ∷ []) ≡ Err 3002 }
{}

/// The relay is named, or nobody: DIAMETER_APPLICATION_UNSUPPORTED, though it would be too long.
pub fn requests_for_the_relay_itself_are_refused_fifth()
    ensures nobody { way [] ≡ Err 3007 }
    ensures itself { way (host (codes "r1.example") ∷ ocs ∷ []) ≡ Err 3007 }
    ensures without_case { way (ocs ∷ host (codes "R1.EXAMPLE") ∷ []) ≡ Err 3007 }
    ensures fifth { (body value : List ℕ) → avps_of body ≡ Ok (avp 33 value ∷ []) → length body ≡ 262108 → way_of all_up (of_body body) ≡ Err 3007 }
{}

/// With its Route-Record the request would be longer than a message is: DIAMETER_UNABLE_TO_DELIVER, though its realm is
/// unknown. The longest that is forwarded has 262,144 octets then, 20 of them the header and 20 the Route-Record.
pub fn requests_without_room_for_a_record_are_refused_sixth()
    ensures longest { (body value : List ℕ) → avps_of body ≡ Ok (ocs ∷ avp 33 value ∷ []) → length body ≡ 262104 → way_of all_up (of_body body) ≡ Ok 2 }
    ensures too_long { (body value : List ℕ) → avps_of body ≡ Ok (ocs ∷ avp 33 value ∷ []) → length body ≡ 262108 → way_of all_up (of_body body) ≡ Err 3002 }
    ensures sixth { (body value : List ℕ) → avps_of body ≡ Ok (nowhere ∷ avp 33 value ∷ []) → length body ≡ 262108 → way_of all_up (of_body body) ≡ Err 3002 }
{}

/// Destination-Host is a linked client: DIAMETER_UNABLE_TO_DELIVER, be it up or not and whatever the realm.
pub fn no_request_goes_to_a_client()
    ensures up { way (host (codes "c1.example") ∷ ocs ∷ []) ≡ Err 3002 }
    ensures down { way (host (codes "C2.example") ∷ ocs ∷ []) ≡ Err 3002 }
    ensures seventh { way (host (codes "c1.example") ∷ nowhere ∷ []) ≡ Err 3002 }
{}

/// Destination-Host is another linked peer: it alone is a candidate, whatever the realm and the application.
pub fn a_linked_host_is_the_only_candidate()
    ensures second { way (host (codes "f2.example") ∷ ocs ∷ []) ≡ Ok 3 }
    ensures relay { way (host (codes "R2.example") ∷ ocs ∷ []) ≡ Ok 4 }
    ensures realm { way (host (codes "f2.example") ∷ nowhere ∷ []) ≡ Ok 3 }
    ensures application { way_of all_up (of_application 3 (request_with (host (codes "f2.example") ∷ ocs ∷ []))) ≡ Ok 3 }
    ensures down { way_of (but_for 3 all_up) (request_with (host (codes "f2.example") ∷ ocs ∷ [])) ≡ Err 3002 }
    // One that is not linked is passed on by its realm.
    ensures not_linked { way (host (codes "f9.example") ∷ ocs ∷ []) ≡ Ok 2 }
{}

/// No route has the realm: DIAMETER_REALM_NOT_SERVED, though the relay is full.
pub fn unknown_realms_are_refused_ninth()
    ensures unknown { way (nowhere ∷ []) ≡ Err 3003 }
    ensures longer { way (realm (codes "ocs.example.") ∷ []) ≡ Err 3003 }
    ensures host { way (host (codes "f9.example") ∷ nowhere ∷ []) ≡ Err 3003 }
    ensures ninth { (rows : List Row) → length rows ≡ 16384 → way_beside rows (nowhere ∷ []) ≡ Err 3003 }
{}

/// The realm has no route for the application: DIAMETER_UNABLE_TO_DELIVER, though the relay is full.
pub fn unknown_applications_are_refused_tenth()
    ensures unknown { way_of all_up (of_application 3 (request_with (ocs ∷ []))) ≡ Err 3002 }
    ensures tenth { (rows : List Row) → length rows ≡ 16384 → way_of (with_rows rows all_up) (of_application 3 (request_with (ocs ∷ []))) ≡ Err 3002 }
{}

/// No candidate is up and not passed over: DIAMETER_UNABLE_TO_DELIVER, though the relay is full.
pub fn requests_without_a_candidate_are_refused_eleventh()
    ensures down { way_of client_up (request_with (ocs ∷ [])) ≡ Err 3002 }
    ensures passed_over { way (realm (codes "loop.example") ∷ record_by (codes "r2.example") ∷ []) ≡ Err 3002 }
    ensures eleventh { (rows : List Row) → length rows ≡ 16384 → way_of (with_rows rows client_up) (request_with (ocs ∷ [])) ≡ Err 3002 }
{}

/// As many requests are pending as there may be, 16,384: DIAMETER_TOO_BUSY.
pub fn a_full_relay_refuses_last()
    ensures last_place { (rows : List Row) → length rows ≡ 16383 → way_beside rows (ocs ∷ []) ≡ Ok 2 }
    ensures full { (rows : List Row) → length rows ≡ 16384 → way_beside rows (ocs ∷ []) ≡ Err 3004 }
{}

/// Else it goes to the first candidate of the realm that is up and not passed over. Realms are compared whole, without ASCII case.
pub fn the_first_candidate_that_is_up_is_taken()
    ensures first { way (ocs ∷ []) ≡ Ok 2 }
    ensures second { way_of (but_for 2 all_up) (request_with (ocs ∷ [])) ≡ Ok 3 }
    ensures third { way_of no_front_up (request_with (ocs ∷ [])) ≡ Ok 4 }
    ensures other_realm { way (realm (codes "LOOP.example") ∷ []) ≡ Ok 4 }
{}

/// A candidate is passed over where a Route-Record of the request is its identity, whole and in either case, wherever it
/// stands. Other names, AVPs of a vendor and the Origin-Host are none.
pub fn candidates_that_were_passed_are_passed_over()
    ensures first { way (ocs ∷ record_by (codes "f1.example") ∷ []) ≡ Ok 3 }
    ensures without_case { way (record_by (codes "F1.Example") ∷ ocs ∷ []) ≡ Ok 3 }
    ensures both { way (record_by (codes "f2.example") ∷ ocs ∷ record_by (codes "f1.example") ∷ []) ≡ Ok 4 }
    ensures all { way (map (λ name. record_by (codes name ++ codes ".example")) ("f1" ∷ "r2" ∷ "f2" ∷ []) ++ ocs ∷ []) ≡ Err 3002 }
    // The one that is not passed over is down.
    ensures down { way_of (but_for 3 all_up) (request_with (ocs ∷ record_by (codes "f1.example") ∷ record_by (codes "r2.example") ∷ [])) ≡ Err 3002 }
    ensures other_names { map (λ name. way (ocs ∷ record_by (codes name) ∷ [])) ("f1.exampl" ∷ "f1.example." ∷ "f1" ∷ "" ∷ "r9.example" ∷ []) ≡ replicate 5 (Ok 2) }
    ensures other_avps { map way ((ocs ∷ of_vendor 282 (codes "f1.example") ∷ []) ∷ (ocs ∷ avp 264 (codes "f1.example") ∷ []) ∷ []) ≡ Ok 2 ∷ Ok 2 ∷ [] }
{}

/// A peer that is named as the host is passed over too, and no other one takes its place.
pub fn hosts_that_were_passed_are_passed_over()
    ensures front { way (host (codes "f2.example") ∷ ocs ∷ record_by (codes "f2.example") ∷ []) ≡ Err 3002 }
    ensures relay { way (record_by (codes "r2.example") ∷ ocs ∷ host (codes "R2.EXAMPLE") ∷ []) ≡ Err 3002 }
    ensures another { way (host (codes "f2.example") ∷ ocs ∷ record_by (codes "f1.example") ∷ []) ≡ Ok 3 }
    // One that is not linked is passed on by its realm.
    ensures not_linked { way (host (codes "f9.example") ∷ ocs ∷ record_by (codes "f9.example") ∷ []) ≡ Ok 2 }
{}

/// The Route-Record that is appended counts like those that came: no request goes back to the peer that sent it. What
/// the other relay sends for loop.example is refused, since that realm leads to it alone.
pub fn no_request_goes_back_to_its_sender()
    ensures back { way_from (codes "r2.example") (realm (codes "loop.example") ∷ []) ≡ Err 3002 }
    ensures without_case { way_from (codes "R2.Example") (realm (codes "loop.example") ∷ []) ≡ Err 3002 }
    ensures host { way_from (codes "r2.example") (host (codes "r2.example") ∷ ocs ∷ []) ≡ Err 3002 }
    ensures front { way_from (codes "f1.example") (ocs ∷ []) ≡ Ok 3 }
    ensures others { way_from (codes "r2.example") (ocs ∷ []) ≡ Ok 2 }
{}

/// Of several Destination-Hosts and Destination-Realms the first counts, and none of a vendor.
pub fn the_first_host_and_realm_count()
    ensures host { way (host (codes "f2.example") ∷ ocs ∷ host (codes "f1.example") ∷ []) ≡ Ok 3 }
    ensures realm { map way ((nowhere ∷ ocs ∷ []) ∷ (ocs ∷ nowhere ∷ []) ∷ []) ≡ Err 3003 ∷ Ok 2 ∷ [] }
    ensures vendor { map way ((of_vendor 293 (codes "f2.example") ∷ ocs ∷ []) ∷ (of_vendor 283 (codes "ocs.example") ∷ []) ∷ []) ≡ Ok 2 ∷ Err 3007 ∷ [] }
{}
