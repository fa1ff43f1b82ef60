//! The work of a pool, as a run of the farm.

ghost use Rattle.std.specs.Prelude.{◌≡◌, ◌⊎◌, ◌≤◌, ℕ, Bool, List, MatchBool, length, slice_get, true, Some};
ghost use Rattle.dia_base.specs.declared.number.NodeNo.{NodeNo};
ghost use Rattle.cc_book.specs.declared.entry.Entry.{Entry};
ghost use Rattle.cc_book.specs.declared.terms.Terms.{Terms};
ghost use Rattle.cc_book.specs.Duplicate.{key_of};
ghost use Rattle.cc_book.specs.History.{IsLegal};
ghost use Rattle.cc_book.specs.Taking.{Ledger};
ghost use Rattle.cc_shared.specs.declared.receipt.Receipt.{Receipt};
ghost use Rattle.cc_shared.specs.Receipts.{Fits};
ghost use Rattle.cc_shared.specs.declared.asking.Asked.{Asked};
ghost use Rattle.cc_shared.specs.declared.asking.Served.{Served};
ghost use Rattle.cc_shared.specs.declared.logged.Logged.{Logged};
ghost use Rattle.cc_shared.specs.History.{SharedLedger, book_at};
ghost use Rattle.cc_shared.specs.Serving.{ServesEach};
ghost use Rattle.front_pool.specs.declared.job.Job.{Job};
ghost use Rattle.farm_base.specs.declared.site.Site.{Site};
ghost use Rattle.farm_base.specs.CheckedSite.{IsChecked};
ghost use Rattle.farm_model.specs.World.{WorldState, front_at};
ghost use Rattle.dia_base.specs.declared.number.Moment.{Moment};
ghost use Rattle.dia_message.specs.declared.message.Message.{Message};
ghost use Rattle.front_core.specs.declared.site.FrontSite.{FrontSite};
ghost use Rattle.front_core.specs.Charging.{answer_in, book_after};
ghost use Rattle.front_core.specs.FrontState.{FrontState};
ghost use Rattle.front_core.specs.FrontStep.{preparation_at};
ghost use Rattle.front_core.specs.declared.worker.Worker.TheVariants.{Idle};
ghost use Rattle.front_pool.specs.Charging.{as_of};
ghost use Rattle.pool_law.specs.Batches.{AreInHand, HappensInARow};
ghost use Rattle.pool_law.specs.AsFarm.{AreBelow, RunsAsFarm, ServesAsPromised, steps_for};
ghost use Rattle.pool_law.specs.PoolRun.{AreInOrder, BookEvent, Leads, queue_of, sent_of, steps_of};
ghost use Rattle.pool_law.specs.ServedExample.{a_day, a_morning, narrow_site, steps_of_the_day};
ghost use Rattle.pool_law.specs.ServedFarm.{CanHappen, Comes, Happening, HasIt, Holds, IsFinished, May, ServedFarm, Serves, Stands, new_served};
ghost use Rattle.pool_law.specs.ServedFarm.{charges, dies, finds_busy, goes_unanswered, hands_out, hands_over, ignores, turns_away};
ghost use Rattle.farm_base.specs.Nodes.{is_front};

use farm_model::sound_sites_keep_the_promise;

/// Where a front of the farm stands with the book as it was at some place of its history, with an idle worker, and its queue
/// holds what a pool has finished from that place on, in the order of the receipts, then a run of the farm leads to the book as
/// the pool has left it: the worker picks, charges and answers each, at the moment of its entry, and the book is swept, and its terms
/// change, where its history was. What the front sends is each receipt's answer, in that order.
pub fn pools_run_as_fronts()
    ensures { (site : Site) (node : NodeNo) (worker : ℕ) (front : FrontState) (book : Ledger) (place : ℕ) (events : List BookEvent) (old : WorldState) →
        IsLegal book.terms book.history → length book.history ≤ book.limit → AreInOrder front.site book place events →
        old.book ≡ as_of book place → front_at node old.fronts ≡ Some front → slice_get front.workers worker ≡ Some Idle →
        front.queue ≡ queue_of events → Leads site node front book (steps_of node worker events) (sent_of front events) old }
{}

/// Receipts that stand in one legal history stand at one place exactly where their requests have one key: a repeat stands at
/// the place of its first. Fresh ones at one place are of one request, so that each fresh request has a place of its own.
pub fn each_key_has_one_place()
    ensures places { (terms : Terms) (history : List Entry) (one : Receipt) (other : Receipt) → IsLegal terms history → Fits terms history one →
        Fits terms history other → key_of one.request ≡ key_of other.request → one.place ≡ other.place }
    ensures keys { (terms : Terms) (history : List Entry) (one : Receipt) (other : Receipt) → IsLegal terms history → Fits terms history one →
        Fits terms history other → one.place ≡ other.place → key_of one.request ≡ key_of other.request }
    ensures fresh { (terms : Terms) (history : List Entry) (one : Receipt) (other : Receipt) → IsLegal terms history → Fits terms history one →
        Fits terms history other → one.place ≡ other.place → one.fresh ≡ true → other.fresh ≡ true → one.request ≡ other.request }
{}

/// What serves is a run of the farm: from the start of a site's farm, whatever happens to its clients, relays and connections, to the
/// pools of its fronts, to their book and to their processes, is a row of steps, all of which apply. A message that comes is a
/// `deliver`, also one that is turned away, at a front whose queue is full; a job that is taken a `pick`, one that the book has a
/// `charge`, one for which memory, the time or an open book is missing a `refuse`, an answer that is handed out an `emit`; a change of
/// the terms is `terms`, and a death a `crash` that the book outlives. Behind each, the same is in flight, in the same order, the same was sent and received, and the
/// book is the same. Each job has a worker of its own in that farm: there are more than any number of a job.
pub fn what_serves_runs_as_a_farm()
    ensures { (site : Site) (workers : ℕ) (happenings : List Happening) (served : ServedFarm) → AreBelow workers happenings →
        Serves site (new_served site) happenings served → RunsAsFarm site workers happenings served }
{}

/// So what serves keeps what is promised of every run, over each checked site: whatever is lost, cut, sent again or taken by
/// whichever worker, and whenever the processes of fronts die.
pub fn what_serves_keeps_the_promise()
    ensures { (site : Site) (happenings : List Happening) (served : ServedFarm) → IsChecked site → Serves site (new_served site) happenings served →
        ServesAsPromised site happenings served }
{
    sound_sites_keep_the_promise();
}

/// Jobs that a worker has in hand and the book serves at one call happen one after the other, with nothing between, each as it was
/// answered: so a batch is a row of happenings, however many jobs it has.
pub fn batches_happen_in_a_row()
    ensures { (site : Site) (shared : SharedLedger) (node : NodeNo) (front : FrontState) (written : Bool) (asked : List (Asked Job)) (served : List (Served Job))
        (old : ServedFarm) (count : ℕ) (counted : ℕ) (before : List Logged) (behind : List Logged) → front_at node old.world.fronts ≡ Some front →
        old.world.book ≡ book_at shared.opened before → AreInHand front.site (old.pools node) asked →
        ServesEach shared count before asked served behind counted → HappensInARow site shared old node written served behind }
{}

/// A book behind its lock has each message in one way, and in every legal book there is one: the answer that is due, and the book
/// behind it, are those of a front of the farm that charges the message.
pub fn a_book_has_each_message_as_a_front_charges_it()
    ensures is { (site : FrontSite) (book : Ledger) (moment : Moment) (message : Message) → IsLegal book.terms book.history →
        HasIt site book moment message (answer_in site book message (preparation_at site message)) (book_after book moment (preparation_at site message)) }
    ensures alone { (site : FrontSite) (book : Ledger) (moment : Moment) (message : Message) (answer : Message) (left : Ledger) →
        HasIt site book moment message answer left → (answer_in site book message (preparation_at site message) ≡ answer)
        × (book_after book moment (preparation_at site message) ≡ left) }
{}

/// No front of a farm that serves is stuck. Each message that comes to it is ignored, put into its queue or turned away. A job in hand is
/// finished as any legal book has it, and may be without it; a job that is finished goes out or unanswered; the front may die.
pub fn fronts_can_go_on()
    ensures comes { (site : Site) (old : ServedFarm) (from : NodeNo) (node : NodeNo) (place : ℕ) (number : ℕ) → Comes site old from node place →
        May site old (ignores from node place) ⊎ (May site old (hands_over from node place number) ⊎ May site old (turns_away from node place)) }
    ensures in_hand { (site : Site) (old : ServedFarm) (node : NodeNo) (number : ℕ) (moment : Moment) (written : Bool) → IsLegal old.world.book.terms old.world.book.history →
        Holds old node number → May site old (charges node number moment written) × May site old (finds_busy node number written) }
    ensures finished { (site : Site) (old : ServedFarm) (node : NodeNo) (number : ℕ) (written : Bool) → IsFinished old node number written →
        MatchBool written (May site old (hands_out node number)) (May site old (goes_unanswered node number)) }
    ensures death { (site : Site) (old : ServedFarm) (node : NodeNo) → is_front site node ≡ true → Stands old node → May site old (dies node) }
{}

/// A worked example: two fronts, at each of which one request may wait; a repeat, a request that is turned away, an answer whose
/// connection has ended, a charge that no answer leaves for, and a death of both fronts.
pub fn a_day_is_told_in_steps()
    ensures { steps_for a_day ≡ steps_of_the_day }
{}

/// A worked example, of which each thing can happen behind those before it: a morning at one front, with a request that is turned away,
/// a repeat, an answer that goes nowhere, and a death.
pub fn a_morning_can_happen()
    ensures { CanHappen narrow_site a_morning }
{}
