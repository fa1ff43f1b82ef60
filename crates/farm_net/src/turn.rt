//! One turn of a connection: what is read of its reader, and what is written to its writer.

ghost use Rattle.std.specs.Prelude.{◌≡◌, ◌≢◌, ◌<◌, ◌≤◌, ◌*◌, ◌++◌, ◌↔◌, [], None, Some, Ok, Err, length, take, IsTrue, IfOk, IfErr, IfSome, OnOk, OnErr, ℕ};
ghost use Rattle.std.specs.Io.KnownBytes.{Appends, Consumes, IsAtEnd, Keeps};
ghost use Rattle.dia_message.specs.declared.frames.FrameFault.{FrameFault as Fault};
ghost use Rattle.dia_message.specs.Stream.{stream_of};
ghost use Rattle.farm_net.specs.Device.{HasFailed};
ghost use Rattle.farm_net.specs.Turn.{HasWritten, IsOfPiece, IsOfReader, IsOfStream, IsOfWriter, Receives};

use crate::device::Device;
use crate::loss::Loss;
use bytes::BytesMut;
use dia_message::{FrameFault, Frames, HEADER_LEN, Message};
use std::alloc::Global;
use std::io::{Read, Write};

/// The most reads of a turn, and the most writes.
pub const TURN_LIMIT: u32 = 64;

/// Whether a call has failed since the count was taken.
fn has_failed(before: u64, after: u64) -> bool
    ensures { IsTrue result ↔ HasFailed before after }
{
    before < after || after == u64::MAX
}

/// One read: how many octets it gave, or none where the turn ends.
fn read_once<R: Read + Device>(
    reader: &mut R,
    before: u64,
    piece: &mut [u8],
) -> Result<Option<usize>, Loss>
    requires { 0 < length piece.old }
    ensures octets { IfOk result (λ count. IfSome count (λ n. (n ≤ length piece.new) × Consumes (R.remaining reader.old) (R.remaining reader.new) (take n piece.new))) }
    ensures none { result ≡ Ok None → Keeps (R.remaining reader.old) (R.remaining reader.new) }
    ensures err { OnErr result (Keeps (R.remaining reader.old) (R.remaining reader.new)) }
    ensures end { result ≡ Err Loss.End → IsAtEnd (R.remaining reader.new) }
    ensures fault { result ≡ Err Loss.Read → HasFailed before (R.faults reader.new) }
    ensures quiet { result ≡ Ok None → HasFailed before (R.faults reader.new) → ⊥ }
    ensures only { IfErr result IsOfReader }
{
    match reader.read(piece) {
        Ok(0) => Err(Loss::End),
        Ok(count) => Ok(Some(count)),
        Err(_) => {
            if has_failed(before, reader.faults()) {
                Err(Loss::Read)
            } else {
                Ok(None)
            }
        }
    }
}

/// The messages that are whole with a piece of the stream go behind those before.
fn take_piece(
    alloc: Global,
    frames: &mut Frames,
    piece: &[u8],
    messages: &mut Vec<Message>,
) -> Result<(), Loss>
    requires { (stream_of frames.old).fault ≡ None }
    ensures messages { result ≢ Err Loss.OutOfMemory → messages.new.items ≡ messages.old.items ++ (stream_of (frames.old ++ piece.now)).messages }
    ensures rest { result ≢ Err Loss.OutOfMemory → frames.new ≡ (stream_of (frames.old ++ piece.now)).rest }
    ensures memory { result ≡ Err Loss.OutOfMemory → messages.new.items ≡ messages.old.items }
    ensures fault { (fault : Fault) → result ≡ Err (Loss.Frame fault) → (stream_of (frames.old ++ piece.now)).fault ≡ Some fault }
    ensures sound { OnOk result ((stream_of frames.new).fault ≡ None) }
    ensures only { IfErr result IsOfPiece }
{
    let mut more = match frames.feed(alloc, piece) {
        Ok(more) => more,
        Err(FrameFault::OutOfMemory) => return Err(Loss::OutOfMemory),
        Err(fault) => return Err(Loss::Frame(fault)),
    };
    if messages.append(&mut more).is_err() {
        return Err(Loss::OutOfMemory);
    }
    match frames.fault() {
        Some(fault) => Err(Loss::Frame(fault)),
        None => Ok(()),
    }
}

/// How many octets are read at most, of a piece of so many, where so many messages more may come: no message is shorter than its header.
fn octets_for(more: usize, piece: usize) -> usize
    ensures piece { result ≤ piece }
    ensures most { result ≤ 20 * more }
{
    piece.min(more.saturating_mul(HEADER_LEN))
}

/// Reads until the reader has nothing now, so many messages have come, or often enough for a turn.
pub(crate) fn read_turn<R: Read + Device>(
    alloc: Global,
    reader: &mut R,
    frames: &mut Frames,
    piece: &mut [u8],
    most: usize,
    messages: &mut Vec<Message>,
) -> Result<(), Loss>
    requires room { 0 < length piece.old }
    requires none { messages.old.items ≡ [] }
    ensures few { length messages.new.items ≤ most }
    ensures receives { Receives (R.remaining reader.old) (R.remaining reader.new) frames.old messages.new.items frames.new result }
    ensures end { result ≡ Err Loss.End → IsAtEnd (R.remaining reader.new) }
    ensures fault { result ≡ Err Loss.Read → HasFailed (R.faults reader.old) (R.faults reader.new) }
    ensures quiet { OnOk result (HasFailed (R.faults reader.old) (R.faults reader.new) → ⊥) }
    ensures frame { (fault : Fault) → result ≡ Err (Loss.Frame fault) → (stream_of frames.new).fault ≡ Some fault }
    ensures sound { OnOk result ((stream_of frames.new).fault ≡ None) }
    ensures only { IfErr result IsOfStream }
{
    // What is wrong with the octets that are unread stays wrong.
    if let Some(fault) = frames.fault() {
        return Err(Loss::Frame(fault));
    }
    let before = reader.faults();
    for _ in 0..TURN_LIMIT {
        let here = octets_for(most.saturating_sub(messages.len()), piece.len());
        if here == 0 {
            break;
        }
        let (room, _) = piece.split_at_mut(here);
        match read_once(reader, before, room)? {
            Some(count) => {
                let (octets, _) = room.split_at(count);
                take_piece(alloc, frames, octets, messages)?;
            }
            None => return Ok(()),
        }
    }
    if has_failed(before, reader.faults()) {
        return Err(Loss::Read);
    }
    Ok(())
}

/// Writes until the writer takes nothing now, nothing is left, or often enough for a turn.
pub(crate) fn write_turn<W: Write + Device>(
    writer: &mut W,
    outbox: &mut BytesMut,
) -> Result<(), Loss>
    ensures writes { HasWritten (W.contents writer.old) (W.contents writer.new) outbox.old.items outbox.new.items }
    ensures fault { OnErr result (HasFailed (W.faults writer.old) (W.faults writer.new)) }
    ensures quiet { OnOk result (HasFailed (W.faults writer.old) (W.faults writer.new) → ⊥) }
    ensures only { IfErr result IsOfWriter }
{
    let before = writer.faults();
    for _ in 0..TURN_LIMIT {
        if outbox.is_empty() {
            break;
        }
        match writer.write(outbox.as_slice()) {
            Ok(0) | Err(_) => break,
            Ok(count) => outbox.advance(count),
        }
    }
    if has_failed(before, writer.faults()) {
        Err(Loss::Write)
    } else {
        Ok(())
    }
}
