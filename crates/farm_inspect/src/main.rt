//! The program of `check` and `words`: what a site file says, and what Diameter messages say.
#![tactic(auto)]

use farm_check::check_site;
use farm_command::{CliFault, Command, command_of, refuse, words_of};
use farm_words::tell_words;
use std::process::ExitCode;

/// What is told if the words are others than those of `check`.
const CHECK: &str = "usage: check --site FILE";

/// What is told if they begin as `words` and are others.
const WORDS: &str = "usage: words < LINES";

/// What is told of these words behind the program's name if they are no command.
fn usage_of(words: &[String]) -> &'static str {
    match words.first() {
        Some(word) if word.as_str() == "words" => WORDS,
        Some(_) | None => CHECK,
    }
}

/// Does what the words behind the program's name ask for.
fn carry_out(rt: &HostRuntime, words: &[String]) -> ExitCode {
    match command_of(rt.alloc(), words) {
        Ok(Command::Check(command)) => check_site(rt, &command),
        Ok(Command::Words) => tell_words(rt),
        Ok(_) => refuse(rt, &CliFault::Elsewhere, usage_of(words)),
        Err(fault) => refuse(rt, &fault, usage_of(words)),
    }
}

fn main(rt: HostRuntime) -> ExitCode {
    match words_of(&rt) {
        Ok(words) => carry_out(&rt, &words),
        Err(fault) => refuse(&rt, &fault, CHECK),
    }
}
