//! What a command line asks for.

use crate::book_task::BookTask;
use log::LevelFilter;

/// What is printed of a run.
#[derive(Clone, Copy)]
pub enum Action {
    /// What clients received, the end line, and the report.
    Replay,
    /// The report alone.
    Report,
}

/// A run of the schedule on standard input.
#[derive(Drop)]
pub struct Run<'a> {
    pub action: Action,
    /// The path of the site file; None for the row site.
    pub site: Option<&'a str>,
    /// Whether the steps that do not apply are named.
    pub skipped: bool,
}

/// What a process does over TCP.
#[derive(Drop)]
pub enum Task<'a> {
    /// It serves as the relay of this name, until so many answers were sent; 0 for ever.
    Relay { name: &'a str, answers: u64 },
    /// It serves as all fronts of the site, until so many answers were sent; 0 for ever.
    Fronts { answers: u64 },
    /// It sends the messages of standard input as this client, on its connection with this node.
    Send { client: &'a str, peer: &'a str },
}

/// How the log is spelled.
#[derive(Clone, Copy, PartialEq, Eq)]
pub enum LogFormat {
    /// As text, for people.
    Text,
    /// Each fact as `key=value` on one line.
    Logfmt,
}

/// A process of a farm over TCP.
#[derive(Drop)]
pub struct Process<'a> {
    pub task: Task<'a>,
    /// The path of the site file.
    pub site: &'a str,
    /// Where it says what it does, if it is to.
    pub status: Option<&'a str>,
    /// The path of the file with the token that ends it, if there is to be one.
    pub token: Option<&'a str>,
    /// The path of the record of what happens, if there is to be one.
    pub record_path: Option<&'a str>,
    /// The path of the file with the book of the fronts, if it is not kept in memory alone.
    pub book: Option<&'a str>,
    /// Whether it serves although the system's clock stands far behind the book.
    pub clock_behind: bool,
    /// Whether the book of the fronts may change its terms, so that those of the site hold.
    pub change_terms: bool,
    /// What it logs on standard error.
    pub level: LevelFilter,
    /// How that is spelled.
    pub log_format: LogFormat,
}

/// A look at a site file.
#[derive(Drop)]
pub struct Check<'a> {
    /// The path of the site file.
    pub site: &'a str,
}

/// What is printed of records that were put in order.
#[derive(Clone, Copy)]
pub enum AuditAction {
    /// What they come to.
    Audit,
    /// The steps, as a schedule.
    Schedule,
}

/// The records of a farm, which are put in order and played.
#[derive(Drop)]
pub struct Audit<'a> {
    pub action: AuditAction,
    /// The path of the site file.
    pub site: &'a str,
    /// The path of what was exported of the book of the fronts, if it outlives their process.
    pub book: Option<&'a str>,
    /// The paths of the records, in the order of the words.
    pub records: Vec<&'a str>,
}

/// An account book on disk.
#[derive(Drop)]
pub struct BookCommand<'a> {
    pub task: BookTask<'a>,
    /// The path of the site file.
    pub site: &'a str,
    /// The path of the file with the book.
    pub file: &'a str,
}

/// The picture of a part of a run of the schedule on standard input.
#[derive(Drop)]
pub struct Picture<'a> {
    /// The path of the site file; None for the row site.
    pub site: Option<&'a str>,
    /// The number of its first step, from 1, if it is said.
    pub from: Option<usize>,
    /// The number of its last step, from 1, if it is said.
    pub to: Option<usize>,
}

/// What a command line asks for.
#[derive(Drop)]
pub enum Command<'a> {
    /// `replay` and `report`; without a word a replay over the row site.
    Run(Run<'a>),
    /// `relay`, `front` and `send`.
    Process(Process<'a>),
    /// `check`.
    Check(Check<'a>),
    /// `audit` and `schedule`.
    Audit(Audit<'a>),
    /// `book`.
    Book(BookCommand<'a>),
    /// `picture`.
    Picture(Picture<'a>),
    /// `words`: the messages on standard input in words.
    Words,
}
