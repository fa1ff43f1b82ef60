//! Worked examples: what a front does at one event, and what does not apply.
#![tactic(auto, unfolding(dia_avp::specs::AvpReading::split_of, dia_avp::specs::AvpReading::split_from, cc_view::specs::Answer::refusal_of,))]

ghost use Rattle.std.specs.Prelude.{◌≡◌, ◌∷◌, [], map, None, Some};
ghost use Rattle.cc_book.specs.Taking.{with_take};
ghost use Rattle.cc_view.specs.FirstDebit.{answer_message, debit_message, debit_request};
ghost use Rattle.front_core.specs.declared.worker.Worker.TheVariants.{Done, Idle};
ghost use Rattle.front_core.specs.FrontStep.{after_charge, after_emit, after_pick, after_refusal, after_restart, without_connection};
ghost use Rattle.front_core.specs.ShortRuns.{busy_front, conn, empty_book, unknown_user};
ghost use Rattle.front_core.specs.StepExample.{at_arrival, cut_front_with, done, front_with, full_book, job, moment, picked, second_debit, second_job};

use cc_view::first_debit;

/// A request that finds as many waiting as there are places is answered DIAMETER_TOO_BUSY at once, and the queue is as it
/// was. A message without R is ignored.
pub fn a_full_queue_refuses_at_once()
    ensures full { at_arrival (front_with 2 (second_job ∷ second_job ∷ []) (Idle ∷ [])) debit_message
        ≡ (front_with 2 (second_job ∷ second_job ∷ []) (Idle ∷ []), (conn 1, busy_front) ∷ []) }
    ensures no_places { at_arrival (front_with 0 [] (Idle ∷ [])) debit_message ≡ (front_with 0 [] (Idle ∷ []), (conn 1, busy_front) ∷ []) }
    ensures no_request { map (λ places. at_arrival (front_with places (job ∷ []) (Idle ∷ [])) answer_message) (1 ∷ 2 ∷ [])
        ≡ (front_with 1 (job ∷ []) (Idle ∷ []), []) ∷ (front_with 2 (job ∷ []) (Idle ∷ []), []) ∷ [] }
{}

/// Where there is a place a request joins the end of the queue, and nothing is sent.
pub fn a_request_joins_the_end_of_the_queue()
    ensures first { at_arrival (front_with 1 [] (picked ∷ [])) debit_message ≡ (front_with 1 (job ∷ []) (picked ∷ []), []) }
    ensures last_place { at_arrival (front_with 2 (job ∷ []) (Idle ∷ [])) second_debit ≡ (front_with 2 (job ∷ second_job ∷ []) (Idle ∷ []), []) }
{}

/// An idle worker picks the request that has waited longest. Nobody else picks, nor does anybody from an empty queue.
pub fn an_idle_worker_picks_the_first_request()
    ensures idle { after_pick (front_with 2 (job ∷ second_job ∷ []) (done ∷ Idle ∷ [])) 1 ≡ Some (front_with 2 (second_job ∷ []) (done ∷ picked ∷ [])) }
    ensures busy { map (after_pick (front_with 2 (job ∷ []) (picked ∷ done ∷ []))) (0 ∷ 1 ∷ 2 ∷ []) ≡ None ∷ None ∷ None ∷ [] }
    ensures empty { after_pick (front_with 2 [] (Idle ∷ [])) 0 ≡ None }
{}

/// What a worker picked is charged: it holds the answer then, and the book has an entry more. A full book takes none, and
/// the answer is DIAMETER_TOO_BUSY. An idle worker charges nothing, nor does one that holds an answer.
pub fn what_was_picked_is_charged()
    ensures picked { after_charge (front_with 2 (second_job ∷ []) (Idle ∷ picked ∷ [])) empty_book moment 1
        ≡ Some (front_with 2 (second_job ∷ []) (Idle ∷ done ∷ []), with_take empty_book moment debit_request) }
    ensures no_room { after_charge (front_with 2 [] (picked ∷ [])) full_book moment 0 ≡ Some (front_with 2 [] (Done (conn 1) busy_front ∷ []), full_book) }
    ensures others { map (after_charge (front_with 2 (job ∷ []) (Idle ∷ done ∷ [])) empty_book moment) (0 ∷ 1 ∷ 2 ∷ []) ≡ None ∷ None ∷ None ∷ [] }
{
    first_debit();
}

/// What a worker picked is refused by order, with DIAMETER_TOO_BUSY. An idle worker refuses nothing, nor does one that
/// holds an answer.
pub fn what_was_picked_is_refused_by_order()
    ensures picked { after_refusal (front_with 2 (second_job ∷ []) (Idle ∷ picked ∷ [])) 1
        ≡ Some (front_with 2 (second_job ∷ []) (Idle ∷ Done (conn 1) busy_front ∷ [])) }
    ensures others { map (after_refusal (front_with 2 (job ∷ []) (Idle ∷ done ∷ []))) (0 ∷ 1 ∷ 2 ∷ []) ≡ None ∷ None ∷ None ∷ [] }
{}

/// A worker that holds an answer is idle again, and the answer goes out on the connection of its request, if that is there.
/// An idle worker sends nothing, nor does one that did not charge.
pub fn an_answer_goes_out_once()
    ensures done { after_emit (front_with 2 (job ∷ []) (picked ∷ done ∷ [])) 1
        ≡ Some (front_with 2 (job ∷ []) (picked ∷ Idle ∷ []), (conn 1, unknown_user) ∷ []) }
    ensures cut { after_emit (cut_front_with 2 (job ∷ []) (done ∷ [])) 0 ≡ Some (cut_front_with 2 (job ∷ []) (Idle ∷ []), []) }
    ensures others { map (after_emit (front_with 2 (job ∷ []) (Idle ∷ picked ∷ []))) (0 ∷ 1 ∷ 2 ∷ []) ≡ None ∷ None ∷ None ∷ [] }
{}

/// A connection that is lost takes no request with it, at whichever worker it is; a restart takes all.
pub fn only_a_restart_loses_requests()
    ensures lost { without_connection (front_with 2 (job ∷ []) (picked ∷ done ∷ [])) (conn 1) ≡ cut_front_with 2 (job ∷ []) (picked ∷ done ∷ []) }
    ensures other { without_connection (front_with 2 (job ∷ []) (picked ∷ [])) (conn 2) ≡ front_with 2 (job ∷ []) (picked ∷ []) }
    ensures restart { after_restart (front_with 2 (job ∷ []) (picked ∷ done ∷ [])) ≡ cut_front_with 2 [] (Idle ∷ Idle ∷ []) }
{}
