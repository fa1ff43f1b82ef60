//! What a pool of worker threads does to the book is what a front of the farm does in steps. No function here does anything.
//!
//! - [`pools_run_as_fronts`]: jobs that workers have finished in parallel, on one book behind a lock, are told by their receipts
//!   as a run of the farm: each is picked, charged and answered by one worker of one front, in the order of the receipts, with
//!   the sweeps and changes of the terms between them. Of that run all holds that `farm_model` says of runs.
//! - [`each_key_has_one_place`]: where receipts stand in one history: each fresh one at a place of its own, repeats at that of
//!   their first.
//! - [`what_serves_runs_as_a_farm`]: all fronts of a site, over their pools, with all that happens around them and with deaths of their
//!   processes, from the start on, as a run of the farm. [`what_serves_keeps_the_promise`]: so it keeps what is promised of runs.
//!   [`batches_happen_in_a_row`]: a batch of jobs, one after the other. [`a_book_has_each_message_as_a_front_charges_it`]: what the book
//!   says to a message is what a charge does. [`fronts_can_go_on`]: what may happen at a front.
//!
//! The definitions are in `specs/`: `PoolRun` (the order of receipts, its steps, and what the run leaves), `ServedFarm` (what happens to a
//! farm that serves, and which clause allows it), `AsFarm` (the same as steps of a farm), `Batches` (what comes of a batch), `ServedExample` (a day, by hand).
#![tactic(auto)]

mod laws;

pub use laws::{
    a_book_has_each_message_as_a_front_charges_it, a_day_is_told_in_steps, a_morning_can_happen,
    batches_happen_in_a_row, each_key_has_one_place, fronts_can_go_on, pools_run_as_fronts,
    what_serves_keeps_the_promise, what_serves_runs_as_a_farm,
};
