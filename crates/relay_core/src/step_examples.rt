//! Worked examples: what a relay does at one event (RFC 6733, sections 5.5.4, 6.1 and 6.2). Nothing else may be done.

ghost use Rattle.std.specs.Prelude.{◌≡◌, ◌∷◌, [], None, Some, Ok, Err, map, true};
ghost use Rattle.cc_view.specs.FirstDebit.{answer_message, debit_message};
ghost use Rattle.relay_hops.specs.PendingTable.{again, under};
ghost use Rattle.relay_routes.specs.RouteExample.{f1, node};
ghost use Rattle.relay_peers.specs.PeerTable.{conn_in};
ghost use Rattle.cc_view.specs.declared.code.ResultCode.TheVariants.{UnableToDeliver};
ghost use Rattle.relay_core.specs.declared.error.RelayError.TheVariants.{PeerUp, UnknownPeer};
ghost use Rattle.relay_core.specs.declared.matching.Matching.TheVariants.{EndToEnd, HopByHop};
ghost use Rattle.relay_core.specs.AnswerMatching.{is_dropped};
ghost use Rattle.relay_core.specs.Connecting.{after_restart, new_relay, up_fault};
ghost use Rattle.relay_core.specs.FirstForwarding.{forwarded_debit};
ghost use Rattle.relay_core.specs.RelayState.{with_rows};
ghost use Rattle.relay_core.specs.Staying.{staying_after};
ghost use Rattle.relay_core.specs.declared.run.RelayEvent.TheVariants.{Up};
ghost use Rattle.relay_core.specs.RuleExample.{all_up, but_for, c1, client_up, conn, request_with, site_of_r1};
ghost use Rattle.relay_core.specs.StepExample.{DoesOnly, DoesOnlyAmong, DoesOnlyBy, DoesUnder, DoesUnderNew, but_on, way_again_among, way_among, of_end, debit_again_on, debit_on, lost, of_c1, received, refused_with};

/// A request that is refused is answered where it came from, with E and the relay's name, and is not pending. The first
/// names nobody, DIAMETER_APPLICATION_UNSUPPORTED; the second meets no candidate, DIAMETER_UNABLE_TO_DELIVER.
pub fn refused_requests_are_answered_and_not_kept()
    ensures nobody { DoesOnly all_up (received 1 (request_with [])) ((conn 1, refused_with (0 ∷ 0 ∷ 11 ∷ 191 ∷ [])) ∷ []) all_up }
    ensures nowhere { DoesOnly client_up (received 1 debit_message) ((conn 1, refused_with (0 ∷ 0 ∷ 11 ∷ 186 ∷ [])) ∷ []) client_up }
{}

/// A request goes out with the Route-Record of its sender, under an identifier of the relay, and is pending with where it
/// came from.
pub fn forwarded_requests_are_kept_with_their_origin()
    ensures { DoesUnderNew all_up (received 1 debit_message)
        (λ hop. (conn 2, under hop forwarded_debit) ∷ []) (λ hop. with_rows (debit_on 2 hop of_c1 ∷ []) all_up) }
{}

/// An answer goes back to where its request came from under the identifier of that, otherwise unchanged, and the request
/// is pending no more. It goes nowhere where that connection has ended, and is ignored where no request is pending under
/// its identifier on its connection: then the request waits on, and its own answer goes back.
pub fn answers_go_to_the_origin_under_its_identifier()
    ensures matched { DoesOnly (with_rows (debit_on 3 5 None ∷ debit_on 2 5 of_c1 ∷ []) all_up) (received 2 (under 5 answer_message))
        ((conn 1, answer_message) ∷ []) (with_rows (debit_on 3 5 None ∷ []) all_up) }
    ensures alone { DoesOnly (with_rows (debit_on 2 5 of_c1 ∷ []) all_up) (received 2 (under 5 answer_message))
        ((conn 1, answer_message) ∷ []) (with_rows [] all_up) }
    ensures orphaned { DoesOnly (with_rows (debit_on 3 5 None ∷ debit_on 2 5 of_c1 ∷ []) all_up) (received 3 (under 5 answer_message))
        [] (with_rows (debit_on 2 5 of_c1 ∷ []) all_up) }
    ensures other_identifier { DoesOnly (with_rows (debit_on 2 5 of_c1 ∷ []) all_up) (received 2 (under 7 answer_message))
        [] (with_rows (debit_on 2 5 of_c1 ∷ []) all_up) }
    ensures other_connection { DoesOnly (with_rows (debit_on 2 5 of_c1 ∷ []) all_up) (received 3 (under 5 answer_message))
        [] (with_rows (debit_on 2 5 of_c1 ∷ []) all_up) }
{}

/// Where End-to-End Identifiers are compared, an answer under the Hop-by-Hop Identifier of a pending request goes nowhere
/// that has another End-to-End Identifier, and the request waits on, whether somebody waits for its answer or nobody. With its
/// own it goes back. Under another Hop-by-Hop Identifier or on another connection that does not help. Where they are not
/// compared, any of them goes back.
pub fn answers_of_another_end_are_dropped()
    ensures another { DoesOnlyBy EndToEnd (with_rows (debit_on 2 5 of_c1 ∷ []) all_up) (received 2 (of_end 101 (under 5 answer_message)))
        [] (with_rows (debit_on 2 5 of_c1 ∷ []) all_up) }
    ensures counted { is_dropped EndToEnd (with_rows (debit_on 2 5 of_c1 ∷ []) all_up) (conn 2) (of_end 101 (under 5 answer_message)) ≡ true }
    ensures orphaned { DoesOnlyBy EndToEnd (with_rows (debit_on 2 5 None ∷ []) all_up) (received 2 (of_end 101 (under 5 answer_message)))
        [] (with_rows (debit_on 2 5 None ∷ []) all_up) }
    ensures own { DoesOnlyBy EndToEnd (with_rows (debit_on 2 5 of_c1 ∷ []) all_up) (received 2 (under 5 answer_message))
        ((conn 1, answer_message) ∷ []) (with_rows [] all_up) }
    ensures other_identifier { DoesOnlyBy EndToEnd (with_rows (debit_on 2 5 of_c1 ∷ []) all_up) (received 2 (under 7 answer_message))
        [] (with_rows (debit_on 2 5 of_c1 ∷ []) all_up) }
    ensures other_connection { DoesOnlyBy EndToEnd (with_rows (debit_on 2 5 of_c1 ∷ []) all_up) (received 3 (under 5 answer_message))
        [] (with_rows (debit_on 2 5 of_c1 ∷ []) all_up) }
    ensures not_compared { DoesOnlyBy HopByHop (with_rows (debit_on 2 5 of_c1 ∷ []) all_up) (received 2 (of_end 101 (under 5 answer_message)))
        ((conn 1, of_end 101 answer_message) ∷ []) (with_rows [] all_up) }
{}

/// Where a connection is lost, a request that was sent on it goes to the next candidate that is up, with T and no second
/// Route-Record, and is pending there. Where none is up its origin is answered DIAMETER_UNABLE_TO_DELIVER, and where the
/// origin is gone nothing is sent; it is pending no more.
pub fn lost_connections_fail_over()
    ensures next { DoesUnder (with_rows (debit_on 2 5 of_c1 ∷ []) all_up) (lost 2)
        (λ hop. (conn 3, again hop forwarded_debit) ∷ []) (λ hop. with_rows (debit_again_on 3 hop ∷ []) (but_for 2 all_up)) }
    ensures none_up { DoesOnly (with_rows (debit_on 4 5 of_c1 ∷ []) (but_for 3 (but_for 2 all_up))) (lost 4)
        ((conn 1, refused_with (0 ∷ 0 ∷ 11 ∷ 186 ∷ [])) ∷ []) client_up }
    ensures no_origin { DoesOnly (with_rows (debit_on 2 5 None ∷ []) all_up) (lost 2) [] (but_for 2 all_up) }
    // What came on the connection waits on, and its answer will go nowhere.
    ensures origin { DoesOnly (with_rows (debit_on 2 5 of_c1 ∷ []) all_up) (lost 1) [] (with_rows (debit_on 2 5 None ∷ []) (but_for 1 all_up)) }
{}

/// Where f1 has said goodbye, a request goes to f2, and where f2 has too, to r2; where all have, it is refused,
/// DIAMETER_UNABLE_TO_DELIVER. One of c1 goes to f1 though c1 has said goodbye itself. What was sent to f2 goes again to r2,
/// past f1, once f2 is lost. An answer of f1 goes where it went. Once f1 comes up on another connection, it stays.
pub fn requests_go_past_who_leaves()
    ensures all { way_among (but_on []) ≡ Ok 2 }
    ensures new { map way_among (but_on (2 ∷ []) ∷ but_on (2 ∷ 3 ∷ []) ∷ but_on (2 ∷ 3 ∷ 4 ∷ []) ∷ []) ≡ Ok 3 ∷ Ok 4 ∷ Err 3002 ∷ [] }
    ensures asker { way_among (but_on (1 ∷ [])) ≡ Ok 2 }
    ensures again { map (λ staying. way_again_among staying 3) (but_on [] ∷ but_on (2 ∷ []) ∷ but_on (2 ∷ 4 ∷ []) ∷ []) ≡ Ok (conn 2) ∷ Ok (conn 4) ∷ Err UnableToDeliver ∷ [] }
    ensures answers { DoesOnlyAmong (but_on (2 ∷ [])) (with_rows (debit_on 2 5 of_c1 ∷ []) all_up) (received 2 (under 5 answer_message))
        ((conn 1, answer_message) ∷ []) (with_rows [] all_up) }
    ensures back { conn_in (staying_after (but_for 2 all_up) (Up f1 (conn 9)) (but_on (2 ∷ []))) f1 ≡ Some (conn 9) }
{}

/// Only a linked peer that is not up comes up, on a connection that no other peer has.
pub fn linked_peers_come_up_once()
    ensures stranger { up_fault all_up (node 9) (conn 1) ≡ Some (UnknownPeer (node 9)) }
    ensures up { up_fault all_up c1 (conn 9) ≡ Some (PeerUp c1) }
    ensures taken { up_fault all_up (node 5) (conn 1) ≡ Some (PeerUp (node 5)) }
    ensures down { up_fault all_up (node 5) (conn 9) ≡ None }
    ensures again { up_fault (but_for 1 all_up) c1 (conn 9) ≡ None }
{}

/// A restart forgets all connections and all that is pending.
pub fn a_restart_forgets_all()
    ensures { after_restart (with_rows (debit_on 2 5 of_c1 ∷ []) all_up) ≡ new_relay site_of_r1 }
{}

/// What happens on a connection that no peer is up on changes nothing.
pub fn unknown_connections_change_nothing()
    ensures message { DoesOnly all_up (received 9 debit_message) [] all_up }
    ensures lost { DoesOnly all_up (lost 9) [] all_up }
{}
