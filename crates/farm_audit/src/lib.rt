//! Puts the records of a farm into one order and plays it with the proved farm ([`audit`]): `schedule` prints the steps, `audit` says that
//! each client received what the farm gives, that each request was charged as it charges, and what the book comes to. Where
//! the records contradict one another or the farm, it tells the first place.
//!
//! - `order`: the records, in an order in which their events may happen, and what they come to. `record_player` plays them.
//! - Here: the files and the exit statuses.
#![tactic(auto)]

ghost use Rattle.farm_base.specs.CheckedSite.{IsChecked};

mod fault;
mod order;

use farm_command::{About, Audit as AuditCommand, AuditAction, end_about};
use farm_site::site_of_octets;
use farm_text::{ReadFault, file_at, write_text};
use farm_world::Site;
use fault::AuditFault;
use order::Audit;
use record_player::PlayFault;
use record_reader::{RecordFault, Source};
use std::fs::File;
use std::io;
use std::io::Write;
use std::process::ExitCode;

/// The octets of a site file, up to one above its size limit.
fn site_file(rt: &HostRuntime, path: &str) -> Result<Vec<u8>, AuditFault> {
    match file_at(rt, path) {
        Ok(octets) => Ok(octets),
        Err(ReadFault::Failed) => Err(AuditFault::SiteFile),
        Err(ReadFault::OutOfMemory) => Err(AuditFault::OutOfMemory),
    }
}

/// Puts the records that a command names in order and plays them. Writes what they come to, or the steps where they are asked for.
fn play_files<W: Write>(
    rt: &HostRuntime,
    site: &Site,
    command: &AuditCommand<'_>,
    writer: &mut W,
) -> Result<(), AuditFault>
    requires { IsChecked site.now }
{
    let prints = matches!(&command.action, AuditAction::Schedule);
    let mut audit = Audit::new(rt.alloc(), site, prints)?;
    add_book(rt, &mut audit, command.book)?;
    add_files(rt, &mut audit, &command.records)?;
    audit.run(writer)?;
    if prints {
        return Ok(());
    }
    let text = audit.summary()?;
    match write_text(writer, text.as_bytes()) {
        Ok(()) => Ok(()),
        Err(_) => Err(AuditFault::Write),
    }
}

/// Hands what was exported of the book to an audit, if the fronts have it on disk.
fn add_book(
    rt: &HostRuntime,
    audit: &mut Audit<'_, File>,
    book: Option<&str>,
) -> Result<(), AuditFault> {
    let Some(path) = book else {
        return Ok(());
    };
    let Ok(file) = File::open(rt, path) else {
        return Err(AuditFault::BookFile);
    };
    audit.set_book(file);
    Ok(())
}

/// Hands the records of these files to an audit.
fn add_files(
    rt: &HostRuntime,
    audit: &mut Audit<'_, File>,
    records: &[&str],
) -> Result<(), AuditFault> {
    for (record, path) in records.iter().enumerate() {
        let Ok(file) = File::open(rt, path) else {
            return Err(AuditFault::RecordFile { record });
        };
        audit.add(file)?;
    }
    Ok(())
}

/// Puts the records that a command names in order, over its site.
fn audit_records(rt: &HostRuntime, command: &AuditCommand<'_>) -> Result<(), AuditFault> {
    let octets = site_file(rt, command.site)?;
    match site_of_octets(rt.alloc(), &octets) {
        Ok(site) => play_files(rt, &site, command, &mut io::writer(rt)),
        Err(fault) => Err(AuditFault::Site(fault)),
    }
}

/// The file of a command in which a fault is found, if it is found in one.
fn found_in<'a>(fault: &AuditFault, command: &AuditCommand<'a>) -> Option<&'a str> {
    match fault.source()? {
        Source::Record(record) => command.records.get(record).copied(),
        Source::Book => command.book,
    }
}

/// The file of a command that cannot be read, if this is its fault.
fn unreadable<'a>(fault: &AuditFault, command: &AuditCommand<'a>) -> Option<&'a str> {
    match fault {
        AuditFault::SiteFile => Some(command.site),
        AuditFault::BookFile => command.book,
        AuditFault::RecordFile { .. }
        | AuditFault::Play(PlayFault::Record(RecordFault::Unreadable { .. })) => found_in(
            fault, command,
        ),
        _ => None,
    }
}

/// Ends by a fault, which is told behind the name of the file where it is found.
fn end_by(rt: &HostRuntime, command: &AuditCommand<'_>, fault: &AuditFault) -> ExitCode {
    if let Some(name) = found_in(fault, command) {
        let _ = rt.eprint(name);
        let _ = rt.eprint(": ");
    }
    let about = unreadable(fault, command).map(About::File);
    end_about(rt, fault.status(), Some(fault), about)
}

/// Audits the records that a command names, and prints what they come to, or their steps where these are asked for.
pub fn audit(rt: &HostRuntime, command: &AuditCommand<'_>) -> ExitCode {
    match audit_records(rt, command) {
        Ok(()) => ExitCode::SUCCESS,
        Err(fault) => end_by(rt, command, &fault),
    }
}
