//! A schedule from a reader, run over a site, and what it prints to a writer.

ghost use Rattle.std.specs.Prelude.{◌≡◌, ◌≢◌, ℕ, List, IfOk, OnErr, OnOk, IfSome, IfErr, IsOkUnless, Err};
ghost use Rattle.std.specs.Io.KnownBytes.{Keeps, Appends};
ghost use Rattle.farm_script.specs.declared.fault.ScriptFault.{ScriptFault};
ghost use Rattle.farm_base.specs.CheckedSite.{IsChecked};
ghost use Rattle.farm_text.specs.Reading.{ReadsText};
ghost use Rattle.farm_text.specs.Writing.{BeginsWriting};
ghost use Rattle.farm_cli.specs.Replay.{Prints, Replays, IsRefused, IsOfText, WasRead, of_reading};
ghost use Rattle.farm_cli.specs.Skipped.{Names};

use crate::output::output;
use crate::skipped::name_skipped;
use dia_avp::Wire;
use farm_command::Action;
use farm_script::{ScriptFault, steps_of};
use farm_text::{ReadFault, read_text, write_text};
use farm_world::{Site, Step, run};
use std::alloc::Global;
use std::io::{Read, Write};
use thiserror::Error;

/// Why a schedule was not replayed, or not to its end.
#[derive(Clone, Copy, Debug, PartialEq, Eq, Error)]
pub enum ReplayFault {
    #[error("the schedule cannot be read")]
    Read,
    #[error("the output cannot be written")]
    Write,
    #[error("{0}")]
    Script(ScriptFault),
    #[error("out of memory")]
    OutOfMemory,
}

impl From<ReadFault> for ReplayFault {
    ghost from_gives = { λ fault result. result ≡ of_reading fault };

    fn from(fault: ReadFault) -> ReplayFault {
        match fault {
            ReadFault::Failed => ReplayFault::Read,
            ReadFault::OutOfMemory => ReplayFault::OutOfMemory,
        }
    }
}

/// Writes all of the text. After a fault a beginning of it was written.
fn write_output<W: Write>(writer: &mut W, text: &[u8]) -> Result<(), ReplayFault>
    ensures ok { OnOk result (Appends (W.contents writer.old) (W.contents writer.new) text.now) }
    ensures err { OnErr result (BeginsWriting (W.contents writer.old) (W.contents writer.new) text.now) }
    ensures fault { IsOkUnless result ReplayFault.Write }
{
    match write_text(writer, text) {
        Ok(()) => Ok(()),
        Err(_) => Err(ReplayFault::Write),
    }
}

/// What the action prints of a run of the steps over the site, from an empty history.
fn print_steps<V: Wire>(
    alloc: Global,
    action: Action,
    site: &Site,
    steps: &[Step],
) -> Result<Vec<u8>, ReplayFault>
    requires { IsChecked site.now }
    ensures ok { IfOk result (λ printed. Prints action site.now steps.now printed.items) }
    ensures memory { IsOkUnless result ReplayFault.OutOfMemory }
{
    let Ok(trace) = run::<V>(alloc, site, steps) else {
        return Err(ReplayFault::OutOfMemory);
    };
    match output(alloc, action, site, steps.len(), &trace) {
        Ok(printed) => Ok(printed),
        Err(_) => Err(ReplayFault::OutOfMemory),
    }
}

/// What the action prints of a schedule's text, run over the site from an empty history. Where it is asked for, the steps
/// that did not apply are named behind what `named` has.
pub fn replay_text<V: Wire>(
    alloc: Global,
    action: Action,
    skipped: bool,
    site: &Site,
    text: &[u8],
    named: &mut Vec<u8>,
) -> Result<Vec<u8>, ReplayFault>
    requires { IsChecked site.now }

    // The action's output of a run of the text's steps; or the first fault of a text that is no schedule.
    ensures ok { IfOk result (λ printed. Replays action site.now text.now printed.items) }
    ensures named { IfOk result (λ printed. Names skipped site.now text.now named.old.items named.new.items) }
    ensures script { (fault : ScriptFault) → result ≡ Err (ReplayFault.Script fault) → IsRefused site.now text.now fault }
    ensures fault { IfErr result IsOfText }
{
    let steps = match steps_of(alloc, text, site) {
        Ok(steps) => steps,
        Err(fault) => return Err(ReplayFault::Script(fault)),
    };
    let Ok(()) = name_skipped::<V>(alloc, skipped, site, text, &steps, named) else {
        return Err(ReplayFault::OutOfMemory);
    };
    print_steps::<V>(alloc, action, site, &steps)
}

/// Reads a schedule, runs its steps over the site from an empty history, and writes what the
/// action prints of it. Nothing is written before the run is done. Where it is asked for, the steps that did not apply are
/// named behind what `named` has.
pub fn replay_io<V: Wire, R: Read, W: Write>(
    alloc: Global,
    action: Action,
    skipped: bool,
    site: &Site,
    reader: &mut R,
    writer: &mut W,
    named: &mut Vec<u8>,
) -> Result<(), ReplayFault>
    requires { IsChecked site.now }

    // Where reader and writer tell their octets, what is written is the action's output of a run
    // of the schedule's steps.
    ensures ok { OnOk result (IfSome (R.remaining reader.old) (λ octets.
        (printed : List ℕ) × Replays action site.now octets printed × Appends (W.contents writer.old) (W.contents writer.new) printed)) }
    ensures named { OnOk result (IfSome (R.remaining reader.old) (λ octets. Names skipped site.now octets named.old.items named.new.items)) }

    // Nothing is read behind the end, nor behind one octet above the size limit.
    ensures read { WasRead result → ReadsText (R.remaining reader.old) (R.remaining reader.new) }

    // Of a schedule that is refused nothing is written, and the fault is its first.
    ensures script { (fault : ScriptFault) → result ≡ Err (ReplayFault.Script fault) →
        IfSome (R.remaining reader.old) (λ octets. IsRefused site.now octets fault) }
    ensures nothing { IfErr result (λ fault. fault ≢ ReplayFault.Write → Keeps (W.contents writer.old) (W.contents writer.new)) }

    // After a fault of the writer a beginning of that output was written.
    ensures write { result ≡ Err ReplayFault.Write → IfSome (R.remaining reader.old) (λ octets.
        (printed : List ℕ) × Replays action site.now octets printed × BeginsWriting (W.contents writer.old) (W.contents writer.new) printed) }
{
    let text = read_text(alloc, reader)?;
    let printed = replay_text::<V>(alloc, action, skipped, site, &text, named)?;
    write_output(writer, &printed)
}
