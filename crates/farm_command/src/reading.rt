//! What the words of the command line ask for, by what clap finds in them.

ghost use Rattle.std.specs.Prelude.{◌≡◌, ◌<◌, ℕ, Option, [], ◌∷◌, None, Some, codes, map, option_map, string_bytes, IfErr, IfOk, true, ◌⊎◌};
ghost use Rattle.clap.specs.Kinds.{HasKind, Kinds};
ghost use Rattle.clap.specs.Walk.{all_of};
ghost use Rattle.clap.specs.Words.{fault_of, found_of, kind_of, rows_of, subcommand_of, subcommand_rows_of, takes};
ghost use Rattle.farm_command.specs.declared.subcommand.Subcommand.TheVariants as sub;
ghost use Rattle.farm_command.specs.CommandLine.{command_line, id_of, operands_of};
ghost use Rattle.farm_command.specs.Asked.{AreFew, AreWrong, HasAudit, HasBook, HasProcess, HasOptions, HasPicture, HasReports, HasRun, IsCount, IsFaultBy, IsFaultIn, IsFaultOf, IsFormat, IsLevel, IsMalformed, IsOfKinds, IsPlain, IsReadFrom, IsStep, IsUnknown, of_audit, of_task, flag_in, subcommand_for, value_in};

use crate::book_task::{BookTask, task_named};
use crate::command::{
    Action, Audit, AuditAction, BookCommand, Check, Command, LogFormat, Picture, Process, Run, Task,
};
use crate::fault::CliFault;
use crate::lines::command_line;
use crate::subcommand::{Subcommand, subcommand_named};
use crate::word::Word;
use clap::error::ErrorKind;
use clap::{ArgMatches, Error};
use log::LevelFilter;
use std::alloc::{AllocError, Global};

/// The value of an option, if it is there.
fn value_of<'a>(found: &ArgMatches<'a>, word: Word) -> Option<&'a str>
    ensures { option_map (λ s. s.now) result ≡ value_in word (rows_of (found_of found.now)) }
{
    found.get_str(word.id())
}

/// The value of an option that must be there.
fn text_in<'a>(found: &ArgMatches<'a>, word: Word) -> Result<&'a str, CliFault>
    ensures value { IfOk result (λ text. value_in word (rows_of (found_of found.now))
        ≡ Some text.now) }
    ensures fault { IfErr result (λ fault. (fault ≡ CliFault.Missing word)
        × (value_in word (rows_of (found_of found.now)) ≡ None)) }
{
    value_of(found, word).ok_or(CliFault::Missing(word))
}

/// Whether a flag is there.
fn flag_in(found: &ArgMatches<'_>, name: &str) -> bool
    ensures { result ≡ flag_in name.now (rows_of (found_of found.now)) }
{
    match found.get_str(name) {
        Some(text) => text == "true",
        None => false,
    }
}

/// After how many answers a serving node ends: 0 where that is not said.
fn count_in(found: &ArgMatches<'_>) -> Result<u64, CliFault>
    ensures value { IfOk result (IsCount (value_in Word.Answers (rows_of (found_of found.now)))) }
    ensures fault { IfErr result (λ fault. (fault ≡ CliFault.Malformed Word.Answers)
        × IsMalformed Word.Answers (rows_of (found_of found.now))) }
{
    match value_of(found, Word::Answers) {
        Some(text) => match text.parse::<u64>() {
            Ok(count) => Ok(count),
            Err(_) => Err(CliFault::Malformed(Word::Answers)),
        },
        None => Ok(0),
    }
}

/// What is logged on standard error: `info` where that is not said.
fn level_in(found: &ArgMatches<'_>) -> Result<LevelFilter, CliFault>
    ensures value { IfOk result (IsLevel (value_in Word.Log (rows_of (found_of found.now)))) }
    ensures fault { IfErr result (λ fault. (fault ≡ CliFault.Malformed Word.Log)
        × IsMalformed Word.Log (rows_of (found_of found.now))) }
{
    match value_of(found, Word::Log) {
        Some(text) => match text.parse::<LevelFilter>() {
            Ok(level) => Ok(level),
            Err(_) => Err(CliFault::Malformed(Word::Log)),
        },
        None => Ok(LevelFilter::Info),
    }
}

/// How the log is spelled: as text where that is not said.
fn format_in(found: &ArgMatches<'_>) -> Result<LogFormat, CliFault>
    ensures value { IfOk result (IsFormat (value_in Word.LogFormat (rows_of (found_of found.now)))) }
    ensures fault { IfErr result (λ fault. (fault ≡ CliFault.Malformed Word.LogFormat)
        × IsMalformed Word.LogFormat (rows_of (found_of found.now))) }
{
    match value_of(found, Word::LogFormat) {
        Some("text") | None => Ok(LogFormat::Text),
        Some("logfmt") => Ok(LogFormat::Logfmt),
        Some(_) => Err(CliFault::Malformed(Word::LogFormat)),
    }
}

/// The number of a step, if the option is there.
fn step_in(found: &ArgMatches<'_>, word: Word) -> Result<Option<usize>, CliFault>
    ensures value { IfOk result (IsStep (value_in word (rows_of (found_of found.now)))) }
    ensures fault { IfErr result (λ fault. (fault ≡ CliFault.Malformed word)
        × ((step : Option ℕ) → ¬ IsStep (value_in word (rows_of (found_of found.now))) step)) }
{
    match value_of(found, word) {
        Some(text) => match text.parse::<usize>() {
            Ok(step) if step > 0 => Ok(Some(step)),
            _ => Err(CliFault::Malformed(word)),
        },
        None => Ok(None),
    }
}

/// The operands of `audit` and `schedule`.
fn records_in<'a>(alloc: Global, found: &ArgMatches<'a>) -> Result<Vec<&'a str>, CliFault>
    ensures value { IfOk result (λ records.
        all_of (id_of Word.Records) (rows_of (found_of found.now)) ≡ Some (map (λ s. s.now) records.items)) }
    ensures fault { IfErr result (λ fault. (fault ≡ CliFault.OutOfMemory)
        ⊎ ((fault ≡ CliFault.Missing Word.Records)
        × (value_in Word.Records (rows_of (found_of found.now)) ≡ None))) }
{
    let Some(records) = found.get_strs("records") else {
        return Err(CliFault::Missing(Word::Records));
    };
    match records.iter().copied().collect(alloc) {
        Ok(records) => Ok(records),
        Err(_) => Err(CliFault::OutOfMemory),
    }
}

/// What operands ask for: what is done, and the file.
fn task_and_file<'a>(operands: &[&'a str]) -> Result<(BookTask<'a>, &'a str), CliFault>
    ensures value { IfOk result (λ read. map (λ s. s.now) operands.now
        ≡ operands_of read.0 read.1.now) }
    ensures fault { IfErr result (λ fault.
        ((fault ≡ CliFault.Missing Word.TaskAndFile) × AreFew (Some (map (λ s. s.now) operands.now)))
        ⊎ ((fault ≡ CliFault.Malformed Word.TaskAndFile) × AreWrong (Some (map (λ s. s.now) operands.now)))) }
{
    match operands {
        [] | [_] => Err(CliFault::Missing(Word::TaskAndFile)),
        [word, file] => match task_named(word) {
            Some(task) => Ok((task, *file)),
            None => Err(CliFault::Malformed(Word::TaskAndFile)),
        },
        [word, file, to] if *word == "backup" => Ok((BookTask::Backup { to: *to }, *file)),
        [_, _, _, ..] => Err(CliFault::Malformed(Word::TaskAndFile)),
    }
}

/// The operands of `book`.
fn operands_in<'a>(found: &ArgMatches<'a>) -> Result<(BookTask<'a>, &'a str), CliFault>
    ensures value { IfOk result (λ read. all_of (id_of Word.TaskAndFile) (rows_of (found_of found.now))
        ≡ Some (operands_of read.0 read.1.now)) }
    ensures fault { IfErr result (IsFaultOf sub.Book (rows_of (found_of found.now))) }
{
    let Some(operands) = found.get_strs("task-and-file") else {
        return Err(CliFault::Missing(Word::TaskAndFile));
    };
    task_and_file(operands)
}

/// A run, by what was found for `replay` or `report`.
fn run_in<'a>(action: Action, found: &ArgMatches<'a>) -> Run<'a>
    ensures { (result.action ≡ action) × HasRun (rows_of (found_of found.now)) result }
{
    Run {
        action,
        site: value_of(found, Word::Site),
        skipped: flag_in(found, "skipped"),
    }
}

/// A process that does this, over this site, with the files and the port that were found.
fn process_of<'a>(
    task: Task<'a>,
    site: &'a str,
    level: LevelFilter,
    log_format: LogFormat,
    found: &ArgMatches<'a>,
) -> Process<'a>
    ensures is { (result.task ≡ task.entry) × (result.site ≡ site.entry) × (result.level ≡ level) × (result.log_format ≡ log_format) }
    ensures reports { HasReports (rows_of (found_of found.now)) result }
{
    Process {
        task,
        site,
        status: value_of(found, Word::Status),
        token: value_of(found, Word::Token),
        record_path: value_of(found, Word::Record),
        book: value_of(found, Word::Book),
        clock_behind: flag_in(found, "clock-behind"),
        change_terms: flag_in(found, "change-terms"),
        level,
        log_format,
    }
}

/// What was found for `relay`.
fn relay_in<'a>(found: &ArgMatches<'a>) -> Result<Process<'a>, CliFault>
    ensures task { IfOk result (λ process. of_task process.task ≡ sub.Relay) }
    ensures process { IfOk result (HasProcess (rows_of (found_of found.now))) }
    ensures fault { IfErr result (IsFaultOf sub.Relay (rows_of (found_of found.now))) }
{
    let name = text_in(found, Word::Name)?;
    let answers = count_in(found)?;
    let site = text_in(found, Word::Site)?;
    let level = level_in(found)?;
    let format = format_in(found)?;
    Ok(process_of(Task::Relay { name, answers }, site, level, format, found))
}

/// What was found for `front`.
fn front_in<'a>(found: &ArgMatches<'a>) -> Result<Process<'a>, CliFault>
    ensures task { IfOk result (λ process. of_task process.task ≡ sub.Front) }
    ensures process { IfOk result (HasProcess (rows_of (found_of found.now))) }
    ensures fault { IfErr result (IsFaultOf sub.Front (rows_of (found_of found.now))) }
{
    let answers = count_in(found)?;
    let site = text_in(found, Word::Site)?;
    let level = level_in(found)?;
    let format = format_in(found)?;
    Ok(process_of(Task::Fronts { answers }, site, level, format, found))
}

/// What was found for `send`.
fn send_in<'a>(found: &ArgMatches<'a>) -> Result<Process<'a>, CliFault>
    ensures task { IfOk result (λ process. of_task process.task ≡ sub.Send) }
    ensures process { IfOk result (HasProcess (rows_of (found_of found.now))) }
    ensures fault { IfErr result (IsFaultOf sub.Send (rows_of (found_of found.now))) }
{
    let client = text_in(found, Word::Client)?;
    let peer = text_in(found, Word::Peer)?;
    let site = text_in(found, Word::Site)?;
    let level = level_in(found)?;
    let format = format_in(found)?;
    Ok(process_of(Task::Send { client, peer }, site, level, format, found))
}

/// What was found for `check`.
fn check_in<'a>(found: &ArgMatches<'a>) -> Result<Check<'a>, CliFault>
    ensures check { IfOk result (λ check. value_in Word.Site (rows_of (found_of found.now))
        ≡ Some check.site.now) }
    ensures fault { IfErr result (IsFaultOf sub.Check (rows_of (found_of found.now))) }
{
    let site = text_in(found, Word::Site)?;
    Ok(Check { site })
}

/// What was found for `audit`, or for `schedule`, which have the same faults.
fn audit_in<'a>(
    alloc: Global,
    action: AuditAction,
    found: &ArgMatches<'a>,
) -> Result<Audit<'a>, CliFault>
    ensures audit { IfOk result (λ audit. (audit.action ≡ action)
        × HasAudit (rows_of (found_of found.now)) audit) }
    ensures fault { IfErr result (IsFaultOf (of_audit action) (rows_of (found_of found.now))) }
{
    let site = text_in(found, Word::Site)?;
    let records = records_in(alloc, found)?;
    let book = value_of(found, Word::Book);
    Ok(Audit {
        action,
        site,
        book,
        records,
    })
}

/// What was found for `book`.
fn book_in<'a>(found: &ArgMatches<'a>) -> Result<BookCommand<'a>, CliFault>
    ensures book { IfOk result (HasBook (rows_of (found_of found.now))) }
    ensures fault { IfErr result (IsFaultOf sub.Book (rows_of (found_of found.now))) }
{
    let site = text_in(found, Word::Site)?;
    let (task, file) = operands_in(found)?;
    Ok(BookCommand { task, site, file })
}

/// What was found for `picture`.
fn picture_in<'a>(found: &ArgMatches<'a>) -> Result<Picture<'a>, CliFault>
    ensures picture { IfOk result (HasPicture (rows_of (found_of found.now))) }
    ensures fault { IfErr result (IsFaultOf sub.Picture (rows_of (found_of found.now))) }
{
    let from = step_in(found, Word::From)?;
    let to = step_in(found, Word::To)?;
    let site = value_of(found, Word::Site);
    Ok(Picture { site, from, to })
}

/// What a subcommand asks for, by what was found for it.
fn command_by<'a>(
    alloc: Global,
    subcommand: Subcommand,
    found: &ArgMatches<'a>,
) -> Result<Command<'a>, CliFault>
    ensures subcommand { IfOk result (λ command. subcommand_for command ≡ subcommand) }
    ensures options { IfOk result (HasOptions (rows_of (found_of found.now))) }
    ensures fault { IfErr result (IsFaultOf subcommand (rows_of (found_of found.now))) }
{
    match subcommand {
        Subcommand::Replay => Ok(Command::Run(run_in(Action::Replay, found))),
        Subcommand::Report => Ok(Command::Run(run_in(Action::Report, found))),
        Subcommand::Relay => Ok(Command::Process(relay_in(found)?)),
        Subcommand::Front => Ok(Command::Process(front_in(found)?)),
        Subcommand::Send => Ok(Command::Process(send_in(found)?)),
        Subcommand::Check => Ok(Command::Check(check_in(found)?)),
        Subcommand::Audit => Ok(Command::Audit(audit_in(alloc, AuditAction::Audit, found)?)),
        Subcommand::Schedule => Ok(Command::Audit(audit_in(alloc, AuditAction::Schedule, found)?)),
        Subcommand::Book => Ok(Command::Book(book_in(found)?)),
        Subcommand::Picture => Ok(Command::Picture(picture_in(found)?)),
        Subcommand::Words => Ok(Command::Words),
    }
}

/// What clap found: without a subcommand a replay over the row site.
fn command_in<'a>(alloc: Global, found: &ArgMatches<'a>) -> Result<Command<'a>, CliFault>
    ensures command { IfOk result (IsReadFrom (subcommand_rows_of found.now)) }
    ensures fault { IfErr result (λ fault. IsFaultIn (subcommand_rows_of found.now) fault
        ⊎ IsUnknown (subcommand_rows_of found.now)) }
{
    let Some((name, options)) = found.subcommand() else {
        return Ok(Command::Run(Run {
            action: Action::Replay,
            site: None,
            skipped: false,
        }));
    };
    match subcommand_named(name) {
        Some(subcommand) => command_by(alloc, subcommand, options),
        None => Err(CliFault::Elsewhere),
    }
}

/// What clap prints of a fault, without the line feed at its end.
fn text_of(alloc: Global, error: &Error) -> Result<String, AllocError> {
    let text = error.to_string(alloc)?;
    String::from_str(alloc, text.trim_end())
}

/// The fault in clap's terms, with what clap prints of it.
fn fault_of(alloc: Global, error: &Error) -> CliFault
    ensures memory { kind_of error.now ≡ ErrorKind.OutOfMemory → result ≡ CliFault.OutOfMemory }
    ensures told { (kinds : Kinds) → HasKind kinds error.now → IsOfKinds kinds result }
{
    if error.kind() == ErrorKind::OutOfMemory {
        return CliFault::OutOfMemory;
    }
    match text_of(alloc, error) {
        Ok(text) if error.use_stderr() => CliFault::Refused(text),
        Ok(text) => CliFault::Asked(text),
        Err(_) => CliFault::OutOfMemory,
    }
}

/// What the words behind the program's name ask for; no words ask for a replay over the row site.
pub fn command_of<'a>(alloc: Global, words: &'a [String]) -> Result<Command<'a>, CliFault>
    // Where it accepts, clap finds no fault in the words, and subcommand, options and operands are those that clap reads.
    ensures passes { IfOk result (λ command.
        fault_of command_line (map string_bytes words.now) ≡ []) }
    ensures read { IfOk result (IsReadFrom (subcommand_of command_line (map string_bytes words.now))) }
    ensures none { words.now ≡ [] → IfOk result IsPlain }

    // Words that clap takes are refused only where something is missing or malformed in what it reads, or memory ran out.
    ensures taken { takes command_line (map string_bytes words.now) ≡ true →
        IfErr result (IsFaultIn (subcommand_of command_line (map string_bytes words.now))) }
    // Other words are refused by a kind of fault that clap finds.
    ensures refused { IfErr result (IsFaultBy (fault_of command_line (map string_bytes words.now))
        (subcommand_of command_line (map string_bytes words.now))) }
{
    let Ok(line) = command_line(alloc) else {
        return Err(CliFault::OutOfMemory);
    };
    match line.try_get_matches_from(words) {
        Ok(found) => command_in(alloc, &found),
        Err(error) => Err(fault_of(alloc, &error)),
    }
}
