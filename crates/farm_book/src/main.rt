//! An account book on disk: it is made, checked, printed and copied, under the terms of a site.
#![tactic(auto)]

mod about;
mod fault;
mod tasks;

use farm_command::{CliFault, Command, command_of, refuse, words_of};
use std::process::ExitCode;
use tasks::carry_out_task;

/// What is told where the words are others.
const USAGE: &str =
    "usage: book create|check|report|export|change-terms FILE --site FILE, or book backup FILE FILE --site FILE";

/// Does what the words behind the program's name ask for.
fn carry_out(rt: &HostRuntime, words: &[String]) -> ExitCode {
    match command_of(rt.alloc(), words) {
        Ok(Command::Book(command)) => carry_out_task(rt, &command),
        Ok(_) => refuse(rt, &CliFault::Elsewhere, USAGE),
        Err(fault) => refuse(rt, &fault, USAGE),
    }
}

fn main(rt: HostRuntime) -> ExitCode {
    match words_of(&rt) {
        Ok(words) => carry_out(&rt, &words),
        Err(fault) => refuse(&rt, &fault, USAGE),
    }
}
