//! Nodes of a Diameter farm over TCP, and a client that sends requests to them.
//!
//! - `program`: words, site file, and what is asked for. `setting`: what a process is started with.
//! - `relay`, `fronts`, `sending`: to serve as a relay or as all fronts, or to send. `serving`, `turns`: what these have in
//!   common.
//! - `label`: how the log is spelled, and what it calls the process.
//! - `boxed`: the file of a book behind a pointer. `waker`: how the workers of fronts end the wait of the loop.
//! - `watching`, `rising`, `view`, `token`: what it says of itself in its log and on its status port, and who may end it there.
//! - `jobs`: what is asked for at its status port and done on the book: `changing`, changes of its terms, and `looking`, looks at its
//!   accounts, which `naming` reads.
//! - `recording`: the record of what happens, which is written before anything goes to the sockets.
//! - `fault`: why the program does not do it, and its exit status; `about`: the file, address or names that it is about.
#![tactic(auto)]

mod about;
mod boxed;
mod changing;
mod charged;
mod fault;
mod fronts;
mod jobs;
mod label;
mod looking;
mod naming;
mod program;
mod recording;
mod relay;
mod rising;
mod sending;
mod serving;
mod setting;
mod token;
mod turns;
mod view;
mod waker;
mod watching;

use farm_command::end;
use farm_log::Lines;
use log::Logged;
use program::farm;
use std::process::ExitCode;

/// What tells an operator what happens, on standard error.
pub type Logger = Logged<HostRuntime, Lines<HostRuntime>>;

fn main(rt: HostRuntime) -> ExitCode {
    match farm(&rt, &rt) {
        Ok(()) => ExitCode::SUCCESS,
        Err(told) => end(&rt, told.status(), Some(&told)),
    }
}
