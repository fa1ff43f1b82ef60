//! The farm as a program: it replays a schedule from standard input over a site.
//!
//! - `program`: words, site file, schedule, run and output, in this order.
//! - `sites`: a replay over the row site, and over the site of a file.
//! - `replay`: a schedule from a reader, run over a site, and what that prints to a writer.
//! - `output`: what is printed of a run.
//! - `skipped`: the steps that did not apply, by name.
//! - `fault`, `ending`: why the program did not do it, and how it ends.
#![tactic(auto)]

mod ending;
mod fault;
mod output;
mod program;
mod replay;
mod sites;
mod skipped;

use program::farm;
use std::process::ExitCode;

fn main(rt: HostRuntime) -> ExitCode {
    farm(&rt)
}
