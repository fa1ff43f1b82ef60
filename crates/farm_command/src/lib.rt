//! The command line of all programs.
//!
//! - [`command_of`]: what the words behind a program's name ask for, a [`Command`], or why they are none ([`CliFault`]).
//! - [`words_of`]: these words.
//! - [`Status`], [`end`], [`end_about`], [`refuse`]: the exit statuses of all programs, and how one ends.
//! - [`About`]: the file that a fault is about, which is told behind it.
//! - [`Word`]: the options and operands that may be missing or malformed, as they are told.
//!
//! Each program reads the same command line, and carries out its own commands alone ([`CliFault::Elsewhere`]).
#![tactic(auto)]

mod about;
mod book_task;
mod command;
mod fault;
mod lines;
mod reading;
mod status;
mod subcommand;
mod word;
mod words;

pub use about::{About, AboutLine};
pub use book_task::BookTask;
pub use command::{
    Action, Audit, AuditAction, BookCommand, Check, Command, LogFormat, Picture, Process, Run, Task,
};
pub use fault::CliFault;
pub use lines::VERSION;
pub use reading::command_of;
pub use status::{Status, Stream, end, end_about, refuse};
pub use subcommand::Subcommand;
pub use word::Word;
pub use words::words_of;
