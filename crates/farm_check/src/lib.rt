//! Reads a site file for somebody who runs a farm: [`check_site`] prints what it comes to, and what may look wrong in it, or where its
//! fault stands and what was expected there.
#![tactic(auto)]

ghost use Rattle.std.specs.Prelude.{◌≡◌, ◌≢◌, IfErr, IfOk, OnOk, Some};
ghost use Rattle.std.specs.Io.KnownBytes.{Keeps};
ghost use Rattle.toml.specs.Parse.{parse_document};
ghost use Rattle.toml.specs.View.{table_view};
ghost use Rattle.farm_base.specs.CheckedSite.{IsChecked};
ghost use Rattle.farm_check.specs.Checking.{IsAccepted, IsEnded, IsPlacedFile, IsRefused, IsWritten};
ghost use Rattle.farm_site.specs.Spelling.{IsSiteFile};

mod clients;
mod doubts;
mod expected;
mod fault;
mod files;
mod keys;
mod lines;
mod money;
mod names;
mod nodes;
mod origins;
mod parts;
mod places;
mod summary;
mod told;

use book_place::{FileKey, path_from};
use cc_book::Account;
use farm_access::Access;
use farm_command::{About, Check, end_about};
use farm_site::{SiteDocument, SiteFault, site_document_of_octets};
use farm_text::{ReadFault, file_at, write_text};
use fault::CheckFault;
use files::{AccountsRefusal, Files, accounts_at, check_path};
use keys::push_unknown_keys;
use lines::Lines;
use origins::{
    check_origins, push_ends_off, push_fairness_off, push_goodbyes_off, push_names_off,
    push_open_nodes, push_state_off,
};
use std::alloc::{AllocError, Global};
use std::io;
use std::io::Write;
use std::process::ExitCode;
use summary::push_summary;
use told::fault_text;
use toml::Table;

/// What a site file says that is accepted.
#[derive(Drop)]
struct Accepted {
    read: SiteDocument,
    access: Access,
    files: Files,
}

/// The site of the octets of a file, with their document.
fn site_in(alloc: Global, file: &[u8]) -> Result<SiteDocument, CheckFault>
    ensures checked { IfOk result (λ read. IsChecked read.site) }
    ensures site { IfOk result (λ read. IsSiteFile file.now read.site) }
    ensures document { IfOk result (λ read. parse_document file.now ≡ Some (table_view read.document)) }
    ensures fault { IfErr result (IsRefused file.now) }
{
    match site_document_of_octets(alloc, file) {
        Ok(read) => Ok(read),
        Err(SiteFault::OutOfMemory) => Err(CheckFault::OutOfMemory),
        Err(fault) => Err(CheckFault::Site(fault, fault_text(alloc, file, fault)?)),
    }
}

/// The files that the document of a site file names. A relative path of accounts begins at the folder of the site file.
fn files_in(alloc: Global, site: &str, file: &[u8], document: &Table) -> Result<Files, CheckFault>
    requires { parse_document file.now ≡ Some (table_view document.now) }
    ensures book { OnOk result (IsPlacedFile file.now FileKey.Book) }
    ensures accounts { OnOk result (IsPlacedFile file.now FileKey.Accounts) }
    ensures fault { IfErr result (IsRefused file.now) }
{
    let book = match check_path(alloc, file, document, FileKey::Book)? {
        Some(path) => Some(String::from_str(alloc, path)?),
        None => None,
    };
    let accounts = match check_path(alloc, file, document, FileKey::Accounts)? {
        Some(path) => Some(path_from(alloc, site, path)?),
        None => None,
    };
    Ok(Files { book, accounts })
}

/// What the octets of the site file at a path say, or their first fault.
fn accepted_in(alloc: Global, site: &str, file: &[u8]) -> Result<Accepted, CheckFault>
    ensures ok { IfOk result (λ _. IsAccepted file.now) }
    ensures checked { IfOk result (λ accepted. IsChecked accepted.read.site) }
    ensures fault { IfErr result (IsRefused file.now) }
{
    let read = site_in(alloc, file)?;
    let access = check_origins(alloc, file, &read.document)?;
    let files = files_in(alloc, site, file, &read.document)?;
    Ok(Accepted {
        read,
        access,
        files,
    })
}

/// What is told of a site file that is accepted, whose site has these accounts.
fn told_of(alloc: Global, accepted: &Accepted, accounts: &[Account]) -> Result<Lines, AllocError>
    requires { IsChecked accepted.now.read.site }
    ensures { IfOk result IsEnded }
{
    let Accepted {
        read,
        access,
        files,
    } = accepted;
    let mut lines = Lines::new(alloc);
    push_summary(alloc, &mut lines, &read.site, accounts, files)?;
    push_open_nodes(alloc, &mut lines, &read.site, &read.document)?;
    push_names_off(&mut lines, access.strictness())?;
    push_ends_off(&mut lines, access.strictness())?;
    push_goodbyes_off(&mut lines, access.strictness())?;
    push_state_off(&mut lines, access.strictness())?;
    push_fairness_off(&mut lines, access.strictness())?;
    push_unknown_keys(alloc, &mut lines, &read.document)?;
    lines.end()?;
    Ok(lines)
}

/// Writes what is told of the site file at a path, with these octets, if it is accepted, and the file of accounts that it may name is.
fn check_file<W: Write>(
    rt: &HostRuntime,
    site: &str,
    file: &[u8],
    writer: &mut W,
) -> Result<(), CheckFault>
    ensures ok { OnOk result (IsAccepted file.now) }
    ensures written { OnOk result (IsWritten (W.contents writer.old) (W.contents writer.new)) }
    ensures fault { IfErr result (λ fault. fault ≢ CheckFault.Write → IsRefused file.now fault) }

    // Nothing is written before all is known.
    ensures nothing { IfErr result (λ fault. fault ≢ CheckFault.Write → Keeps (W.contents writer.old) (W.contents writer.new)) }
{
    let accepted = accepted_in(rt.alloc(), site, file)?;
    let accounts = match accounts_at(rt, &accepted.read.site, accepted.files.accounts.as_deref()) {
        Ok(accounts) => accounts,
        Err(AccountsRefusal::NotRead(path)) => return Err(CheckFault::AccountsFile(path)),
        Err(AccountsRefusal::Refused(fault, told)) => {
            return Err(CheckFault::Accounts(fault, told));
        }
        Err(AccountsRefusal::OutOfMemory) => return Err(CheckFault::OutOfMemory),
    };
    let Ok(lines) = told_of(rt.alloc(), &accepted, accounts.as_slice()) else {
        return Err(CheckFault::OutOfMemory);
    };
    match write_text(writer, lines.as_bytes()) {
        Ok(()) => Ok(()),
        Err(_) => Err(CheckFault::Write),
    }
}

/// The octets of a site file, up to one above its size limit.
fn site_file(rt: &HostRuntime, path: &str) -> Result<Vec<u8>, CheckFault> {
    match file_at(rt, path) {
        Ok(octets) => Ok(octets),
        Err(ReadFault::Failed) => Err(CheckFault::SiteFile),
        Err(ReadFault::OutOfMemory) => Err(CheckFault::OutOfMemory),
    }
}

/// Checks the site file that a command names.
fn check(rt: &HostRuntime, command: &Check<'_>) -> Result<(), CheckFault> {
    let file = site_file(rt, command.site)?;
    check_file(rt, command.site, &file, &mut io::writer(rt))
}

/// The file that cannot be read, if this is the fault of a command.
fn about<'a>(fault: &'a CheckFault, command: &'a Check<'_>) -> Option<About<'a>> {
    match fault {
        CheckFault::SiteFile => Some(About::File(command.site)),
        CheckFault::AccountsFile(path) => Some(About::File(path.as_str())),
        _ => None,
    }
}

/// Checks the site file that a command names, and prints what it comes to, or its fault.
pub fn check_site(rt: &HostRuntime, command: &Check<'_>) -> ExitCode {
    match check(rt, command) {
        Ok(()) => ExitCode::SUCCESS,
        Err(fault) => end_about(rt, fault.status(), Some(&fault), about(&fault, command)),
    }
}
