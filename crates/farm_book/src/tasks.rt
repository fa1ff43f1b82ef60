//! What is done with a book.

ghost use Rattle.std.specs.Prelude.{◌≡◌, ◌≤◌, ◌↔◌, [], IfErr, IfOk, IsTrue, is_some};
ghost use Rattle.book_lines.specs.Lines.{lines_of};
ghost use Rattle.farm_base.specs.CheckedSite.{IsChecked};
ghost use Rattle.farm_report.specs.Report.{report_of};
ghost use Rattle.book_opening.specs.Opened.{now_in};
ghost use Rattle.book_terms.specs.Difference.{IsNeeded};
ghost use Rattle.farm_terms.specs.SiteAccounts.{AreTermsOf};
ghost use Rattle.farm_terms.specs.SiteChange.{LeadsToSite};
ghost use Rattle.farm_book.specs.Told.{IsCopyOf, IsStoredFor, IsTold, summary_text, text_of};

use crate::about::about;
use crate::fault::TaskFault;
use book_copy::{Copied, copy_file};
use book_lines::{entry_lines, made_line, push_difference_line, summary};
use book_opening::{StoredBook, change_book, change_for, create_book, empty_under, read_book};
use book_place::accounts_path;
use book_store::FIRST_SUM;
use cc_book::{Terms, TermsChange};
use dia_base::HISTORY_LIMIT;
use farm_base::Site;
use farm_command::{BookCommand, BookTask, end_about};
use farm_report::report;
use farm_site::{SiteDocument, site_document_of_octets};
use farm_terms::{site_change, site_terms};
use farm_text::{ReadFault, file_at, write_text};
use std::alloc::Global;
use std::io;
use std::process::ExitCode;
use toml::Table;

/// The site of a file, with its document.
fn site_at(rt: &HostRuntime, path: &str) -> Result<SiteDocument, TaskFault>
    ensures { IfOk result (λ read. IsChecked read.site) }
{
    let octets = match file_at(rt, path) {
        Ok(octets) => octets,
        Err(ReadFault::Failed) => return Err(TaskFault::SiteFile),
        Err(ReadFault::OutOfMemory) => return Err(TaskFault::OutOfMemory),
    };
    match site_document_of_octets(rt.alloc(), &octets) {
        Ok(read) => Ok(read),
        Err(fault) => Err(TaskFault::Site(fault)),
    }
}

/// The path of the file of accounts, if the document of the site file at a path names one.
fn accounts_at(alloc: Global, site: &str, document: &Table) -> Result<Option<String>, TaskFault> {
    match accounts_path(alloc, site, document) {
        Ok(path) => Ok(path),
        Err(fault) => Err(TaskFault::FileKey(fault)),
    }
}

/// Makes a book under the terms that a site wants. It is given as it is stored then.
fn made(rt: &HostRuntime, path: &str, site: &Site, wanted: &Terms) -> Result<StoredBook, TaskFault>
    requires checked { IsChecked site.now }
    requires open { wanted.now.closed ≡ [] }
    ensures { IfOk result (IsStoredFor site.now) }
{
    let terms = wanted.copy(rt.alloc())?;
    let book = empty_under(rt.alloc(), terms, site.limit)?;
    match create_book(rt, path, wanted) {
        Ok(identity) => Ok(StoredBook {
            identity,
            book,
            sum: FIRST_SUM,
        }),
        Err(fault) => Err(TaskFault::NotMade(fault)),
    }
}

/// Reads a book with the limit of a site.
fn read_for(rt: &HostRuntime, path: &str, site: &Site) -> Result<StoredBook, TaskFault>
    requires { IsChecked site.now }
    ensures { IfOk result (IsStoredFor site.now) }
{
    match read_book(rt, path, site.limit) {
        Ok(read) => Ok(read),
        Err(fault) => Err(TaskFault::NotRead(fault)),
    }
}

/// Reads a book, and gives it with the change that leads from the terms that hold in it to those that a site wants, with the accounts of
/// the file at a path, if it names one. That file is read behind the book, and no list of its accounts is made: so they do not stand in
/// memory beside those of the book.
fn read_under(
    rt: &HostRuntime,
    path: &str,
    site: &Site,
    accounts: Option<&str>,
) -> Result<(StoredBook, TermsChange), TaskFault>
    requires { IsChecked site.now }
    ensures stored { IfOk result (λ told. IsStoredFor site.now told.0) }
    ensures leads { IfOk result (λ told. LeadsToSite site.now (is_some accounts.entry) (now_in told.0.book) told.1) }
{
    let stored = read_for(rt, path, site)?;
    let change = site_change(rt, site, accounts, stored.book.terms_now())?;
    Ok((stored, change))
}

/// A fault of a book that is read, told of its backup.
fn of_backup(fault: TaskFault) -> TaskFault {
    match fault {
        TaskFault::NotRead(fault) => TaskFault::CopyNotRead(fault),
        fault => fault,
    }
}

/// Copies a book to a new file, and reads that.
fn backed_up(
    rt: &HostRuntime,
    path: &str,
    to: &str,
    site: &Site,
    accounts: Option<&str>,
) -> Result<(StoredBook, TermsChange), TaskFault>
    requires { IsChecked site.now }
    ensures stored { IfOk result (λ told. IsStoredFor site.now told.0) }
    ensures leads { IfOk result (λ told. LeadsToSite site.now (is_some accounts.entry) (now_in told.0.book) told.1) }
{
    drop(read_under(rt, path, site, accounts)?);
    let copied = copy_file(rt, path, to).map_err(TaskFault::NotCopied)?;
    match read_under(rt, to, site, accounts) {
        Ok((copy, change)) => Ok((checked_copy(copied, copy)?, change)),
        Err(fault) => Err(of_backup(fault)),
    }
}

/// A book with the change that leads from its terms to those that are wanted.
fn with_change(
    alloc: Global,
    stored: StoredBook,
    wanted: &Terms,
) -> Result<(StoredBook, TermsChange), TaskFault>
    ensures stored { IfOk result (λ told. told.0 ≡ stored) }
    ensures needed { IfOk result (λ told. IsNeeded (now_in told.0.book) wanted.now told.1) }
{
    match change_for(alloc, &stored.book, wanted) {
        Ok(change) => Ok((stored, change)),
        Err(fault) => Err(TaskFault::NotRead(fault)),
    }
}

/// Changes the terms of a book to those that are wanted.
fn changed(
    rt: &HostRuntime,
    path: &str,
    site: &Site,
    wanted: &Terms,
) -> Result<StoredBook, TaskFault>
    requires { IsChecked site.now }
    ensures { IfOk result (IsStoredFor site.now) }
{
    match change_book(rt, path, site.limit, wanted) {
        Ok(changed) => Ok(changed),
        Err(fault) => Err(TaskFault::NotChanged(fault)),
    }
}

/// Whether what was read again is the book that was copied.
fn is_copy_of(copied: Copied, copy: &StoredBook) -> bool
    ensures { IsTrue result ↔ IsCopyOf copied copy.now }
{
    copy.identity.0 == copied.identity.0 && copy.sum.0 == copied.sum.0
}

/// Refuses what was read again where it is not the book that was copied.
fn checked_copy(copied: Copied, copy: StoredBook) -> Result<StoredBook, TaskFault>
    ensures copy { IfOk result (λ book. book ≡ copy) }
    ensures same { IfOk result (IsCopyOf copied) }
    ensures other { IfErr result (λ fault. (fault ≡ TaskFault.OtherCopy) × (IsCopyOf copied copy → ⊥)) }
{
    if is_copy_of(copied, &copy) {
        Ok(copy)
    } else {
        Err(TaskFault::OtherCopy)
    }
}

/// Makes a book under the terms that a site wants, with the accounts of the file at a path, if it names one, and gives it with the change
/// that leads there.
#[tactic(auto, using(crate::proofs::Stored::none_closed))]
fn made_under(
    rt: &HostRuntime,
    path: &str,
    site: &Site,
    accounts: Option<&str>,
) -> Result<(StoredBook, TermsChange), TaskFault>
    requires { IsChecked site.now }
    ensures stored { IfOk result (λ told. IsStoredFor site.now told.0) }
    ensures leads { IfOk result (λ told. LeadsToSite site.now (is_some accounts.entry) (now_in told.0.book) told.1) }
{
    let wanted = site_terms(rt, site, accounts)?;
    let stored = made(rt, path, site, &wanted)?;
    with_change(rt.alloc(), stored, &wanted)
}

/// Changes the terms of a book to those that a site wants, in the same way.
fn changed_under(
    rt: &HostRuntime,
    path: &str,
    site: &Site,
    accounts: Option<&str>,
) -> Result<(StoredBook, TermsChange), TaskFault>
    requires { IsChecked site.now }
    ensures stored { IfOk result (λ told. IsStoredFor site.now told.0) }
    ensures leads { IfOk result (λ told. LeadsToSite site.now (is_some accounts.entry) (now_in told.0.book) told.1) }
{
    let wanted = site_terms(rt, site, accounts)?;
    let stored = changed(rt, path, site, &wanted)?;
    with_change(rt.alloc(), stored, &wanted)
}

/// Makes, reads, changes or copies the book that a command names, and gives it with the change that leads from its terms to those that its
/// site wants, with the accounts of the file at a path, if it names one.
fn stored(
    rt: &HostRuntime,
    command: &BookCommand<'_>,
    site: &Site,
    accounts: Option<&str>,
) -> Result<(StoredBook, TermsChange), TaskFault>
    requires { IsChecked site.now }
    ensures stored { IfOk result (λ told. IsStoredFor site.now told.0) }
    ensures leads { IfOk result (λ told. LeadsToSite site.now (is_some accounts.entry) (now_in told.0.book) told.1) }
{
    match command.task {
        BookTask::Check | BookTask::Report | BookTask::Export => {
            read_under(rt, command.file, site, accounts)
        }
        BookTask::Create => made_under(rt, command.file, site, accounts),
        BookTask::ChangeTerms => changed_under(rt, command.file, site, accounts),
        BookTask::Backup { to } => backed_up(rt, command.file, to, site, accounts),
    }
}

/// What a book comes to.
fn summary_of(alloc: Global, limit: u64, stored: &StoredBook) -> Result<Vec<u8>, TaskFault>
    requires { stored.now.book.limit ≡ limit }
    ensures { IfOk result (λ text. text.items ≡ summary_text stored.now) }
{
    let history = stored.book.history();
    Ok(summary(alloc, stored.identity, history, stored.sum, limit)?)
}

/// The same, and which change leads to the terms of the site, where they do not hold.
fn checked(
    alloc: Global,
    limit: u64,
    stored: &StoredBook,
    change: &TermsChange,
) -> Result<Vec<u8>, TaskFault>
    requires { stored.now.book.limit ≡ limit }
    ensures { IfOk result (λ text. text.items ≡ text_of BookTask.Check stored.now change.now) }
{
    let mut text = summary_of(alloc, limit, stored)?;
    if !change.says_nothing() {
        push_difference_line(alloc, &mut text, change)?;
    }
    Ok(text)
}

/// The report of the accounts of a book.
fn report_of(alloc: Global, stored: &StoredBook) -> Result<Vec<u8>, TaskFault>
    ensures { IfOk result (λ text. text.items ≡ report_of stored.now.book) }
{
    let text = report(alloc, &stored.book)?;
    Ok(text.into_bytes())
}

/// The entries of a book, one on a line.
fn entries_of(alloc: Global, limit: u64, stored: &StoredBook) -> Result<Vec<u8>, TaskFault>
    requires { limit ≤ HISTORY_LIMIT }
    ensures { IfOk result (λ text. text.items ≡ lines_of stored.now.book.terms stored.now.book.history) }
{
    let terms = stored.book.terms(alloc)?;
    let empty = empty_under(alloc, terms, limit)?;
    match entry_lines(alloc, empty, stored.book.history()) {
        Ok(lines) => Ok(lines),
        Err(fault) => Err(TaskFault::Lines(fault)),
    }
}

/// What a task prints of a book with room for so many entries, and of the change that leads to the terms of the site.
fn text_of(
    alloc: Global,
    task: BookTask<'_>,
    limit: u64,
    stored: &StoredBook,
    change: &TermsChange,
) -> Result<Vec<u8>, TaskFault>
    requires most { limit ≤ HISTORY_LIMIT }
    requires limit { stored.now.book.limit ≡ limit }
    ensures { IfOk result (λ text. text.items ≡ text_of task.entry stored.now change.now) }
{
    match task {
        BookTask::Create => Ok(made_line(alloc, stored.identity)?),
        BookTask::Check => checked(alloc, limit, stored, change),
        BookTask::ChangeTerms | BookTask::Backup { .. } => summary_of(alloc, limit, stored),
        BookTask::Report => report_of(alloc, stored),
        BookTask::Export => entries_of(alloc, limit, stored),
    }
}

/// Does what a command asks for, for a site, with the accounts of the file at a path, if it names one. It gives what is printed of it.
fn told_of(
    rt: &HostRuntime,
    command: &BookCommand<'_>,
    site: &Site,
    accounts: Option<&str>,
) -> Result<Vec<u8>, TaskFault>
    requires { IsChecked site.now }
    ensures { IfOk result (λ text. IsTold site.now (is_some accounts.entry) command.now.task text.items) }
{
    let (stored, change) = stored(rt, command, site, accounts)?;
    text_of(rt.alloc(), command.task, site.limit, &stored, &change)
}

/// The site of a command, and the path of the file of accounts, if its site file names one.
fn site_of(rt: &HostRuntime, command: &BookCommand<'_>) -> Result<(Site, Option<String>), TaskFault>
    ensures { IfOk result (λ read. IsChecked read.0) }
{
    let read = site_at(rt, command.site)?;
    let accounts = accounts_at(rt.alloc(), command.site, &read.document)?;
    Ok((read.site, accounts))
}

/// Prints what is told of a task.
fn print(rt: &HostRuntime, told: &[u8]) -> Result<(), TaskFault> {
    match write_text(&mut io::writer(rt), told) {
        Ok(()) => Ok(()),
        Err(_) => Err(TaskFault::Write),
    }
}

/// Ends the program, by the fault of a command, if there is one.
fn finish(
    rt: &HostRuntime,
    command: &BookCommand<'_>,
    accounts: Option<&str>,
    done: Result<(), TaskFault>,
) -> ExitCode {
    match done {
        Ok(()) => ExitCode::SUCCESS,
        Err(fault) => {
            let about = about(&fault, command, accounts);
            end_about(rt, fault.status(), Some(&fault), about)
        }
    }
}

/// Does what a command asks for, and prints it. Nothing is printed before it is done.
pub fn carry_out_task(rt: &HostRuntime, command: &BookCommand<'_>) -> ExitCode {
    let (site, accounts) = match site_of(rt, command) {
        Ok(read) => read,
        Err(fault) => return finish(rt, command, None, Err(fault)),
    };
    let done = match told_of(rt, command, &site, accounts.as_deref()) {
        Ok(told) => print(rt, &told),
        Err(fault) => Err(fault),
    };
    finish(rt, command, accounts.as_deref(), done)
}
