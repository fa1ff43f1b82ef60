//! A run of the farm as a picture: [`draw_run`] reads a schedule from standard input, runs it over the row site,
//! or over the site of a file with `--site FILE`, and writes an SVG of its first steps, or of those that `--from` and `--to`
//! name.
#![tactic(auto)]

ghost use Rattle.std.specs.Prelude.{◌≢◌, IfErr, IfOk, IsOkUnless, OnOk};
ghost use Rattle.std.specs.Io.KnownBytes.{Keeps};
ghost use Rattle.farm_base.specs.CheckedSite.{IsChecked};
ghost use Rattle.farm_base.specs.RowSite.{the_row_site};
ghost use Rattle.farm_picture.specs.Painting.{IsSchedule, GivesSchedule, GivesScheduleOfFile};

mod accounts;
mod drawing;
mod ending;
mod escape;
mod fault;
mod flights;
mod labels;
mod layout;
mod notes;
mod part;
mod svg;
mod timeline;
mod ways;

use dia_avp::ViewWire;
use drawing::draw;
use farm_command::{About, Picture, end_about};
use farm_script::steps_of;
use farm_site::site_of_octets;
use farm_text::{ReadFault, file_at, read_text, write_text};
use farm_world::{Site, row_site};
use fault::PictureFault;
use part::Part;
use std::alloc::Global;
use std::io;
use std::io::{Read, Write};
use std::process::ExitCode;
use timeline::timeline_of;

/// The picture of a schedule's run over the site, from an empty history.
fn picture_of(alloc: Global, site: &Site, part: Part, text: &[u8]) -> Result<String, PictureFault>
    requires { IsChecked site.now }
    ensures { IfOk result (λ _. IsSchedule site.now text.now) }
{
    let steps = steps_of(alloc, text, site).map_err(|fault| PictureFault::Script(fault))?;
    let timeline = timeline_of::<ViewWire>(alloc, site, &steps, part)?;
    let picture = draw(alloc, site, &timeline)?;
    Ok(picture)
}

/// Writes all of the picture.
fn write_picture<W: Write>(writer: &mut W, picture: &[u8]) -> Result<(), PictureFault>
    ensures { IsOkUnless result PictureFault.Write }
{
    match write_text(writer, picture) {
        Ok(()) => Ok(()),
        Err(_) => Err(PictureFault::Write),
    }
}

/// Reads a schedule and writes its picture.
fn paint<R: Read, W: Write>(
    alloc: Global,
    site: &Site,
    part: Part,
    reader: &mut R,
    writer: &mut W,
) -> Result<(), PictureFault>
    requires { IsChecked site.now }
    ensures ok { OnOk result (GivesSchedule site.now (R.remaining reader.old)) }

    // Nothing is written before all is drawn.
    ensures nothing { IfErr result (λ fault. fault ≢ PictureFault.Write → Keeps (W.contents writer.old) (W.contents writer.new)) }
{
    let text = read_text(alloc, reader)?;
    let picture = picture_of(alloc, site, part, &text)?;
    write_picture(writer, picture.as_bytes())
}

/// The picture of a run over the row site.
fn paint_row_site<R: Read, W: Write>(
    alloc: Global,
    part: Part,
    reader: &mut R,
    writer: &mut W,
) -> Result<(), PictureFault>
    ensures ok { OnOk result (GivesSchedule the_row_site (R.remaining reader.old)) }
    ensures nothing { IfErr result (λ fault. fault ≢ PictureFault.Write → Keeps (W.contents writer.old) (W.contents writer.new)) }
{
    let site = row_site(alloc)?;
    paint(alloc, &site, part, reader, writer)
}

/// The picture of a run over the site that the octets of a site file spell.
fn paint_site_file<R: Read, W: Write>(
    alloc: Global,
    file: &[u8],
    part: Part,
    reader: &mut R,
    writer: &mut W,
) -> Result<(), PictureFault>
    ensures ok { OnOk result (GivesScheduleOfFile file.now (R.remaining reader.old)) }
    ensures nothing { IfErr result (λ fault. fault ≢ PictureFault.Write → Keeps (W.contents writer.old) (W.contents writer.new)) }
{
    match site_of_octets(alloc, file) {
        Ok(site) => paint(alloc, &site, part, reader, writer),
        Err(fault) => Err(PictureFault::Site(fault)),
    }
}

/// The octets of a site file, up to one above its size limit.
fn site_file(rt: &HostRuntime, path: &str) -> Result<Vec<u8>, PictureFault> {
    match file_at(rt, path) {
        Ok(octets) => Ok(octets),
        Err(ReadFault::Failed) => Err(PictureFault::SiteFile),
        Err(ReadFault::OutOfMemory) => Err(PictureFault::OutOfMemory),
    }
}

/// The part of a run that a command asks for.
fn part_of(command: &Picture<'_>) -> Part {
    Part {
        from: command.from.unwrap_or(1),
        to: command.to.unwrap_or(usize::MAX),
    }
}

/// Draws what a command asks for.
fn picture(rt: &HostRuntime, command: &Picture<'_>) -> Result<(), PictureFault> {
    let (reader, writer) = (&mut rt.reader(), &mut io::writer(rt));
    match command.site {
        None => paint_row_site(rt.alloc(), part_of(command), reader, writer),
        Some(path) => {
            let file = site_file(rt, path)?;
            paint_site_file(rt.alloc(), &file, part_of(command), reader, writer)
        }
    }
}

/// The site file of a command, if its fault is that this cannot be read.
fn about<'a>(fault: &PictureFault, command: &Picture<'a>) -> Option<About<'a>> {
    match fault {
        PictureFault::SiteFile => command.site.map(About::File),
        _ => None,
    }
}

/// Draws what a command asks for of the schedule on standard input.
pub fn draw_run(rt: &HostRuntime, command: &Picture<'_>) -> ExitCode {
    match picture(rt, command) {
        Ok(()) => ExitCode::SUCCESS,
        Err(fault) => end_about(rt, fault.status(), Some(&fault), about(&fault, command)),
    }
}
