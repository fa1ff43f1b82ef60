//! What holds of every run of the farm.

ghost use Rattle.std.specs.Prelude.{List};
ghost use Rattle.farm_base.specs.declared.site.Site.{Site};
ghost use Rattle.farm_model.specs.declared.state.Trace.{Trace};
ghost use Rattle.farm_base.specs.CheckedSite.{IsChecked};
ghost use Rattle.farm_model.specs.Promise.{KeepsPromise};
ghost use Rattle.farm_model.specs.Run.{Past, IsTrace};
ghost use Rattle.farm_model.specs.SoundSite.{IsSound};

use cc_book::kept_replies_are_of_entries;
use farm_law::moves_keep_a_farm;
use front_core::{a_charge_answers_or_refuses, charges_by_four_cases};
use relay_core::{loops_are_refused, relays_keep_their_promise, returning_requests_loop};

/// The trace of a run over a checked site keeps the promise, whatever its steps are and whatever graph its relays
/// make.
pub fn runs_keep_the_promise()
    ensures { (site : Site) (past : Past) (trace : Trace) → IsChecked site → IsTrace site past trace → KeepsPromise site past trace }
{
    sound_sites_keep_the_promise();
}

/// The same of each site whose names, links and routes are sound, however many workers its fronts have and however many requests
/// may wait there. It stands on the laws that it calls, of moves, of the book, of fronts and of relays.
pub fn sound_sites_keep_the_promise()
    ensures { (site : Site) (past : Past) (trace : Trace) → IsSound site → IsTrace site past trace → KeepsPromise site past trace }
{
    moves_keep_a_farm();
    kept_replies_are_of_entries();
    charges_by_four_cases();
    a_charge_answers_or_refuses();
    loops_are_refused();
    returning_requests_loop();
    relays_keep_their_promise();
}
