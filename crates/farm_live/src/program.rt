//! What the program does, from the words of its command line on.

ghost use Rattle.std.specs.Prelude.{◌≡◌, IfOk, Some};
ghost use Rattle.farm_access.specs.Spelling.{Spells};
ghost use Rattle.farm_base.specs.CheckedSite.{IsChecked};
ghost use Rattle.farm_live.specs.Serving.{IsSpelled};
ghost use Rattle.farm_site.specs.Spelling.{IsSiteFile};
ghost use Rattle.toml.specs.Parse.{parse_document};
ghost use Rattle.toml.specs.View.{table_view};

use crate::about::Told;
use crate::fault::Fault;
use crate::fronts::serve_fronts;
use crate::label::lines_of;
use crate::relay::serve_relay;
use crate::sending::send;
use crate::setting::Setting;
use book_place::{accounts_path, book_path};
use farm_access::Access;
use farm_base::Site;
use farm_command::{CliFault, Command, Process, Task, command_of, words_of};
use farm_site::{SiteDocument, site_document_of_octets};
use farm_text::{ReadFault, file_at};
use log::Logged;
use std::alloc::Global;
use std::net::Net;
use std::random::RandomSource;
use std::rt::Clock;
use std::sync::Wait;
use std::thread::Threads;
use toml::Table;

/// The octets of the site file.
fn site_file(rt: &HostRuntime, path: &str) -> Result<Vec<u8>, Fault> {
    match file_at(rt, path) {
        Ok(octets) => Ok(octets),
        Err(ReadFault::OutOfMemory) => Err(Fault::OutOfMemory),
        Err(ReadFault::Failed) => Err(Fault::SiteFile),
    }
}

/// What a site file spells: the site, who may connect to its nodes from where, and the files of the book that is served on and of
/// accounts beside the site's.
#[derive(Drop)]
struct Spelled {
    site: Site,
    access: Access,
    book: Option<String>,
    accounts: Option<String>,
}

/// The site that the octets of a file spell, with their document.
fn read_in(alloc: Global, file: &[u8]) -> Result<SiteDocument, Fault>
    ensures checked { IfOk result (λ read. IsChecked read.site) }
    ensures site { IfOk result (λ read. IsSiteFile file.now read.site) }
    ensures document { IfOk result (λ read. parse_document file.now ≡ Some (table_view read.document)) }
{
    match site_document_of_octets(alloc, file) {
        Ok(read) => Ok(read),
        Err(fault) => Err(Fault::Site(fault)),
    }
}

/// Who may come up, by the document of a file.
fn access_in(alloc: Global, file: &[u8], document: &Table) -> Result<Access, Fault>
    requires { parse_document file.now ≡ Some (table_view document.now) }
    ensures { IfOk result (λ access. Spells file.now access) }
{
    match Access::of_document(alloc, document) {
        Ok(access) => Ok(access),
        Err(fault) => Err(Fault::Access(fault)),
    }
}

/// The path of the book that is served on, if there is one, by the command and the document of its site file.
fn book_in(
    alloc: Global,
    command: &Process<'_>,
    document: &Table,
) -> Result<Option<String>, Fault> {
    match book_path(alloc, command.book, command.site, document) {
        Ok(path) => Ok(path),
        Err(fault) => Err(Fault::FileKey(fault)),
    }
}

/// The path of the file of accounts, if the document of the site file of a command names one.
fn accounts_in(
    alloc: Global,
    command: &Process<'_>,
    document: &Table,
) -> Result<Option<String>, Fault> {
    match accounts_path(alloc, command.site, document) {
        Ok(path) => Ok(path),
        Err(fault) => Err(Fault::FileKey(fault)),
    }
}

/// What the octets of the site file of a command spell.
fn spelled_in(rt: &HostRuntime, command: &Process<'_>, file: &[u8]) -> Result<Spelled, Fault>
    ensures checked { IfOk result (λ spelled. IsChecked spelled.site) }
    ensures site { IfOk result (λ spelled. IsSiteFile file.now spelled.site) }
    ensures access { IfOk result (λ spelled. Spells file.now spelled.access) }
{
    let read = read_in(rt.alloc(), file)?;
    let access = access_in(rt.alloc(), file, &read.document)?;
    let book = book_in(rt.alloc(), command, &read.document)?;
    let accounts = accounts_in(rt.alloc(), command, &read.document)?;
    Ok(Spelled {
        site: read.site,
        access,
        book,
        accounts,
    })
}

/// What the site file of a command spells.
#[tactic(auto, using(crate::proofs::SiteFile::one_file_spells))]
fn spelled_at(rt: &HostRuntime, command: &Process<'_>) -> Result<Spelled, Fault>
    ensures checked { IfOk result (λ spelled. IsChecked spelled.site) }
    ensures spelled { IfOk result (λ spelled. IsSpelled spelled.site spelled.access) }
{
    let file = site_file(rt, command.site)?;
    spelled_in(rt, command, &file)
}

/// Carries out a command.
fn carry_out<O>(os: &O, rt: &HostRuntime, command: &Process<'_>) -> Result<(), Told>
where
    O: Threads + Wait + Net + Clock + RandomSource + Copy + Send + 'static,
{
    let spelled = match spelled_at(rt, command) {
        Ok(spelled) => spelled,
        Err(fault) => return Err(Told::of_site_file(rt, command, fault)),
    };
    let Ok(lines) = lines_of(rt, command, &spelled.site) else {
        return Err(Told::alone(Fault::OutOfMemory));
    };
    let log = Logged::new(*rt, command.level, lines);
    let setting = Setting {
        os,
        rt,
        log: &log,
        command,
        site: &spelled.site,
        access: &spelled.access,
        book: spelled.book.as_deref(),
        accounts: spelled.accounts.as_deref(),
    };
    match run_task(&setting) {
        Ok(()) => Ok(()),
        Err(fault) => Err(Told::of(&setting, fault)),
    }
}

/// Does what the command asks for, on its site.
fn run_task<O>(setting: &Setting<'_, O>) -> Result<(), Fault>
where
    O: Threads + Wait + Net + Clock + RandomSource + Copy + Send + 'static,
    requires checked { IsChecked setting.now.site.now }
    requires spelled { IsSpelled setting.now.site.now setting.now.access.now }
{
    match &setting.command.task {
        Task::Relay { name, answers } => serve_relay(setting, name, *answers),
        Task::Fronts { answers } => serve_fronts(setting, *answers),
        Task::Send { client, peer } => send(setting, client, peer),
    }
}

/// The process that the words behind the program's name ask for.
fn process_of<'a>(alloc: Global, words: &'a [String]) -> Result<Process<'a>, Fault> {
    match command_of(alloc, words) {
        Ok(Command::Process(process)) => Ok(process),
        Ok(_) => Err(Fault::Words(CliFault::Elsewhere)),
        Err(fault) => Err(Fault::Words(fault)),
    }
}

/// Does what the words of the command line ask for. Of `os` come the sockets, the threads, and the leave to wait.
pub fn farm<O>(os: &O, rt: &HostRuntime) -> Result<(), Told>
where
    O: Threads + Wait + Net + Clock + RandomSource + Copy + Send + 'static,
{
    let words = match words_of(rt) {
        Ok(words) => words,
        Err(fault) => return Err(Told::alone(Fault::Words(fault))),
    };
    let command = process_of(rt.alloc(), &words).map_err(Told::alone)?;
    carry_out(os, rt, &command)
}
