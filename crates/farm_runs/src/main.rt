//! The program of `audit`, `schedule` and `picture`: what happened in a farm.
#![tactic(auto)]

use farm_audit::audit;
use farm_command::{CliFault, Command, command_of, refuse, words_of};
use farm_picture::draw_run;
use std::process::ExitCode;

/// What is told if the words are others than those of `audit` and `schedule`.
const AUDIT: &str =
    "usage: schedule --site FILE [--book FILE] RECORD.., or audit --site FILE [--book FILE] RECORD..";

/// What is told if they begin as those of `picture` and are others.
const PICTURE: &str =
    "usage: picture [--site FILE] [--from STEP] [--to STEP] < SCHEDULE > PICTURE.svg";

/// What is told of these words behind the program's name if they are no command.
fn usage_of(words: &[String]) -> &'static str {
    match words.first() {
        Some(word) if word.as_str() == "picture" => PICTURE,
        Some(_) | None => AUDIT,
    }
}

/// Does what the words behind the program's name ask for.
fn carry_out(rt: &HostRuntime, words: &[String]) -> ExitCode {
    match command_of(rt.alloc(), words) {
        Ok(Command::Audit(command)) => audit(rt, &command),
        Ok(Command::Picture(command)) => draw_run(rt, &command),
        Ok(_) => refuse(rt, &CliFault::Elsewhere, usage_of(words)),
        Err(fault) => refuse(rt, &fault, usage_of(words)),
    }
}

fn main(rt: HostRuntime) -> ExitCode {
    match words_of(&rt) {
        Ok(words) => carry_out(&rt, &words),
        Err(fault) => refuse(&rt, &fault, AUDIT),
    }
}
