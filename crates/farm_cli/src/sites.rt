//! A replay over the row site, and over the site of a file.

ghost use Rattle.std.specs.Prelude.{◌≡◌, ◌≢◌, ℕ, List, OnOk, IfErr, IfSome, Err};
ghost use Rattle.std.specs.Io.KnownBytes.{Keeps, Appends};
ghost use Rattle.farm_script.specs.declared.fault.ScriptFault.{ScriptFault};
ghost use Rattle.farm_site.specs.declared.fault.SiteFault.{SiteFault};
ghost use Rattle.farm_cli.specs.Replay.{Replays, IsRefused, WasRead};
ghost use Rattle.farm_cli.specs.Skipped.{Names};
ghost use Rattle.farm_site.specs.Faults.{AreWhyOctets};
ghost use Rattle.farm_cli.specs.Sites.{OfSpelledSite, WasReadBehind};
ghost use Rattle.farm_base.specs.declared.site.Site.{Site};
ghost use Rattle.farm_base.specs.RowSite.{the_row_site};
ghost use Rattle.farm_text.specs.Reading.{ReadsText};
ghost use Rattle.farm_text.specs.Writing.{BeginsWriting};

use crate::fault::Fault;
use crate::replay::{ReplayFault, replay_io};
use dia_avp::ViewWire;
use farm_command::Action;
use farm_site::site_of_octets;
use farm_world::row_site;
use std::alloc::Global;
use std::io::{Read, Write};

/// The replay of a schedule over the row site.
pub fn replay_row_site<R: Read, W: Write>(
    alloc: Global,
    action: Action,
    skipped: bool,
    reader: &mut R,
    writer: &mut W,
    named: &mut Vec<u8>,
) -> Result<(), ReplayFault>
    ensures ok { OnOk result (IfSome (R.remaining reader.old) (λ octets.
        (printed : List ℕ) × Replays action the_row_site octets printed × Appends (W.contents writer.old) (W.contents writer.new) printed)) }
    ensures named { OnOk result (IfSome (R.remaining reader.old) (λ octets. Names skipped the_row_site octets named.old.items named.new.items)) }
    ensures read { WasRead result → ReadsText (R.remaining reader.old) (R.remaining reader.new) }
    ensures script { (fault : ScriptFault) → result ≡ Err (ReplayFault.Script fault) →
        IfSome (R.remaining reader.old) (λ octets. IsRefused the_row_site octets fault) }
    ensures nothing { IfErr result (λ fault. fault ≢ ReplayFault.Write → Keeps (W.contents writer.old) (W.contents writer.new)) }
    ensures write { result ≡ Err ReplayFault.Write → IfSome (R.remaining reader.old) (λ octets.
        (printed : List ℕ) × Replays action the_row_site octets printed × BeginsWriting (W.contents writer.old) (W.contents writer.new) printed) }
{
    let Ok(site) = row_site(alloc) else {
        return Err(ReplayFault::OutOfMemory);
    };
    replay_io::<ViewWire, _, _>(alloc, action, skipped, &site, reader, writer, named)
}

/// The replay of a schedule over the site that the octets of a site file spell.
pub fn replay_site_file<R: Read, W: Write>(
    alloc: Global,
    action: Action,
    skipped: bool,
    file: &[u8],
    reader: &mut R,
    writer: &mut W,
    named: &mut Vec<u8>,
) -> Result<(), Fault>
    // The site is the one that the file spells, and a checked one: no site file reaches a run that keeps less than is
    // promised.
    ensures ok { OnOk result (OfSpelledSite file.now (λ site. IfSome (R.remaining reader.old) (λ octets.
        (printed : List ℕ) × Replays action site octets printed × Appends (W.contents writer.old) (W.contents writer.new) printed))) }
    ensures named { OnOk result (OfSpelledSite file.now (λ site. IfSome (R.remaining reader.old) (λ octets.
        Names skipped site octets named.old.items named.new.items))) }
    ensures script { (fault : ScriptFault) → result ≡ Err (Fault.Replay (ReplayFault.Script fault)) →
        OfSpelledSite file.now (λ site. IfSome (R.remaining reader.old) (λ octets. IsRefused site octets fault)) }
    ensures write { result ≡ Err (Fault.Replay ReplayFault.Write) → OfSpelledSite file.now (λ site. IfSome (R.remaining reader.old) (λ octets.
        (printed : List ℕ) × Replays action site octets printed × BeginsWriting (W.contents writer.old) (W.contents writer.new) printed)) }
    ensures read { WasReadBehind result → ReadsText (R.remaining reader.old) (R.remaining reader.new) }

    // A site is refused by a fault that its file has. No schedule is read then, and nothing is written.
    ensures why { (fault : SiteFault) → result ≡ Err (Fault.Site fault) → AreWhyOctets file.now fault }
    ensures site { (fault : SiteFault) → result ≡ Err (Fault.Site fault) → Keeps (R.remaining reader.old) (R.remaining reader.new) }
    ensures nothing { IfErr result (λ fault. fault ≢ Fault.Replay ReplayFault.Write → Keeps (W.contents writer.old) (W.contents writer.new)) }
{
    let spelled = match site_of_octets(alloc, file) {
        Ok(site) => site,
        Err(fault) => return Err(Fault::Site(fault)),
    };
    match replay_io::<ViewWire, _, _>(alloc, action, skipped, &spelled, reader, writer, named) {
        Ok(()) => Ok(()),
        Err(fault) => Err(Fault::Replay(fault)),
    }
}
