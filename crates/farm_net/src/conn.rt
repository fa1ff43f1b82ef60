//! A connection over a reader and a writer.

ghost use Rattle.std.specs.Prelude.{◌≡◌, ◌≢◌, ◌<◌, ◌≤◌, ◌+◌, ◌++◌, ◌↔◌, [], Some, Err, length, IfErr, IsErr, IsTrue, OnOk, OnErr, ◌⊎◌};
ghost use Rattle.std.specs.Io.KnownBytes.{IsAtEnd};
ghost use Rattle.dia_message.specs.Spelling.{octets_of};
ghost use Rattle.dia_message.specs.Stream.{stream_of};
ghost use Rattle.dia_message.specs.declared.frames.FrameFault.{FrameFault as Fault};
ghost use Rattle.farm_net.specs.Device.{HasFailed};
ghost use Rattle.farm_net.specs.Turn.{HasWritten, IsOfStream, IsOfWriter, Receives};
ghost use Rattle.farm_net.specs.Connection.{IsOfSending, IsTold, connection, too_much};

use crate::device::Device;
use crate::loss::Loss;
use crate::turn::{read_turn, write_turn};
use bytes::BytesMut;
use dia_message::{Frames, HEADER_LEN, Message, write_header};
use std::alloc::{AllocError, Global};
use std::io::{Read, Write};
use std::marker::Model;

/// The most octets of a connection that wait to be written.
pub const UNSENT_LIMIT: usize = 1_048_576;

/// Where a connection stands.
#[derive(Clone, Copy, PartialEq, Eq)]
pub enum Stage {
    /// Messages come in and go out.
    Open,
    /// What waits to be written is written still, and no more.
    Finishing,
    /// It is lost: nothing is read or written.
    Ended,
}

/// What a turn of reading has brought.
#[derive(Drop)]
pub struct Received {
    /// The messages that are whole now, in order. They came before the loss, if there is one.
    pub messages: Vec<Message>,
    /// Whether the connection is lost, and why.
    pub outcome: Result<(), Loss>,
}

/// A connection over a reader and a writer, with the octets that are read and not yet whole messages, and
/// those that wait to be written.
///
/// A call tells that the connection is lost at most once, and no call after it reads, writes or tells
/// anything. What is not ready is no loss: the turn ends, and the next one goes on.
pub struct Conn<R, W> {
    alloc: Global,
    reader: R,
    writer: W,
    frames: Frames,
    outbox: BytesMut,
    stage: Stage,
}

// By hand, so that each exit of an owner is proved with one call.
impl<R: Drop, W: Drop> Drop for Conn<R, W> {
    fn drop(self) {
        let Conn {
            alloc: _,
            reader: _,
            writer: _,
            frames: _,
            outbox: _,
            stage: _,
        } = self;
    }
}

impl<R, W> Model for Conn<R, W> {
    ghost use Rattle.std.specs.Prelude.{◌≤◌, length};
    ghost use Rattle.farm_net.specs.Connection.{Connection};

    ghost Value = { Connection R W };

    ghost view = { λ c. record { reader = c.reader; writer = c.writer; rest = c.frames; unsent = c.outbox.items; stage = c.stage } };

    ghost invariant = { λ c. length c.outbox.items ≤ 1048576 };
}

impl<R: Read + Device, W: Write + Device> Conn<R, W> {
    /// A connection of which nothing was read or written yet. It takes no memory.
    pub fn new(alloc: Global, reader: R, writer: W) -> Self
        ensures { result ≡ connection reader writer }
    {
        Conn {
            alloc,
            reader,
            writer,
            frames: Frames::new(alloc),
            outbox: BytesMut::new(alloc),
            stage: Stage::Open,
        }
    }

    /// Reads for one turn, at most 64 times, `piece` at a time, and no more than so many messages: what is behind them stays unread.
    /// What `piece` holds is of no account.
    pub fn receive(&mut self, piece: &mut [u8], most: usize) -> Received
        requires { 0 < length piece.old }
        ensures few { length result.messages.items ≤ most }

        // The messages of what was unread and of the octets that were read now, and the rest of them.
        ensures receives { self.old.stage ≡ Stage.Open → Receives (R.remaining self.old.reader) (R.remaining self.new.reader) self.old.rest result.messages.items self.new.rest result.outcome }
        ensures closed { self.old.stage ≢ Stage.Open → (self.new ≡ self.old) × (result.messages.items ≡ []) }
        ensures told { IsTold self.old.stage result.outcome self.new.stage }
        ensures others { (self.new.writer ≡ self.old.writer) × (self.new.unsent ≡ self.old.unsent) }

        // Why it is lost.
        ensures end { result.outcome ≡ Err Loss.End → IsAtEnd (R.remaining self.new.reader) }
        ensures fault { result.outcome ≡ Err Loss.Read → HasFailed (R.faults self.old.reader) (R.faults self.new.reader) }
        ensures quiet { self.old.stage ≡ Stage.Open → OnOk result.outcome (HasFailed (R.faults self.old.reader) (R.faults self.new.reader) → ⊥) }
        ensures frame { (fault : Fault) → result.outcome ≡ Err (Loss.Frame fault) → (stream_of self.new.rest).fault ≡ Some fault }
        ensures only { IfErr result.outcome IsOfStream }
    {
        let mut messages = Vec::new(self.alloc);
        if self.stage != Stage::Open {
            return Received {
                messages,
                outcome: Ok(()),
            };
        }
        let outcome = read_turn(
            self.alloc,
            &mut self.reader,
            &mut self.frames,
            piece,
            most,
            &mut messages,
        );
        if outcome.is_err() {
            self.stage = Stage::Ended;
        }
        Received { messages, outcome }
    }

    /// A message is to be written, behind all before it. Where more than 1,048,576 octets would wait then,
    /// the connection is lost.
    pub fn send(&mut self, message: &Message) -> Result<(), Loss>
        ensures sent { self.old.stage ≡ Stage.Open → OnOk result (self.new.unsent ≡ self.old.unsent ++ octets_of message.now) }
        ensures closed { self.old.stage ≢ Stage.Open → self.new ≡ self.old }
        ensures told { IsTold self.old.stage result self.new.stage }
        ensures others { (self.new.reader ≡ self.old.reader) × (self.new.writer ≡ self.old.writer) × (self.new.rest ≡ self.old.rest) }

        // It is lost where that is too much, and else only where memory is missing.
        ensures too_much { self.old.stage ≡ Stage.Open → IsTrue (too_much self.old.unsent message.now) → result ≡ Err Loss.Unsent }
        ensures unsent { result ≡ Err Loss.Unsent → IsTrue (too_much self.old.unsent message.now) }
        ensures only { IfErr result IsOfSending }
    {
        if self.stage != Stage::Open {
            return Ok(());
        }
        if is_too_much(&self.outbox, message) {
            self.stage = Stage::Ended;
            return Err(Loss::Unsent);
        }
        if push_message(&mut self.outbox, message).is_err() {
            self.stage = Stage::Ended;
            return Err(Loss::OutOfMemory);
        }
        Ok(())
    }

    /// Writes for one turn, at most 64 times.
    pub fn flush(&mut self) -> Result<(), Loss>
        ensures writes { HasWritten (W.contents self.old.writer) (W.contents self.new.writer) self.old.unsent self.new.unsent }
        ensures closed { self.old.stage ≡ Stage.Ended → self.new ≡ self.old }
        ensures told { IsTold self.old.stage result self.new.stage }
        ensures others { (self.new.reader ≡ self.old.reader) × (self.new.rest ≡ self.old.rest) }
        ensures fault { IsErr result → HasFailed (W.faults self.old.writer) (W.faults self.new.writer) }
        ensures quiet { self.old.stage ≡ Stage.Open → OnOk result (HasFailed (W.faults self.old.writer) (W.faults self.new.writer) → ⊥) }
        ensures only { IfErr result IsOfWriter }
    {
        if self.stage == Stage::Ended {
            return Ok(());
        }
        let outcome = write_turn(&mut self.writer, &mut self.outbox);
        if outcome.is_err() {
            let told = self.stage == Stage::Open;
            self.stage = Stage::Ended;
            if !told {
                return Ok(());
            }
        }
        outcome
    }

    /// The node has done with it: what waits is written still, and no loss is told any more.
    pub fn finish(&mut self)
        ensures stage { (self.old.stage ≡ Stage.Open → self.new.stage ≡ Stage.Finishing) × (self.old.stage ≢ Stage.Open → self.new.stage ≡ self.old.stage) }
        ensures others { self.new ≡ record self.old { stage = self.new.stage } }
    {
        if self.stage == Stage::Open {
            self.stage = Stage::Finishing;
        }
    }

    /// How many octets wait to be written.
    pub fn unsent(&self) -> usize
        ensures { result ≡ length self.now.unsent }
    {
        self.outbox.len()
    }

    /// Whether octets wait to be written.
    pub fn wants_write(&self) -> bool
        ensures { IsTrue result ↔ ((self.now.stage ≢ Stage.Ended) × (0 < length self.now.unsent)) }
    {
        self.stage != Stage::Ended && !self.outbox.is_empty()
    }

    /// Whether there is nothing more to do: it may be let go.
    pub fn is_done(&self) -> bool
        ensures { IsTrue result ↔ ((self.now.stage ≡ Stage.Ended) ⊎ ((self.now.stage ≡ Stage.Finishing) × (self.now.unsent ≡ []))) }
    {
        match self.stage {
            Stage::Open => false,
            Stage::Finishing => self.outbox.is_empty(),
            Stage::Ended => true,
        }
    }

    /// Where it stands.
    pub fn stage(&self) -> Stage
        ensures { result ≡ self.now.stage }
    {
        self.stage
    }

    /// The reader.
    pub fn reader(&self) -> &R
        ensures { result.now ≡ self.now.reader }
    {
        &self.reader
    }

    /// The writer.
    pub fn writer(&self) -> &W
        ensures { result.now ≡ self.now.writer }
    {
        &self.writer
    }
}

/// Whether more octets than may be would wait with the message.
fn is_too_much(outbox: &BytesMut, message: &Message) -> bool
    ensures { result ≡ too_much outbox.now.items message.now }
{
    let length = HEADER_LEN as u128 + message.body.as_slice().len() as u128;
    outbox.len() as u128 + length > UNSENT_LIMIT as u128
}

/// The header of a message as octets.
#[tactic(auto, unfolding(dia_message::specs::Spelling::octets_of))]
fn spell_header(message: &Message) -> [u8; HEADER_LEN]
    ensures { result ++ message.now.body ≡ octets_of message.now }
{
    let length = message.body.as_slice().len().saturating_add(HEADER_LEN) & 0x00ff_ffff;
    write_header(&message.header, length as u32)
}

/// The octets of a message go behind all before them. An error leaves them as they were.
fn push_message(outbox: &mut BytesMut, message: &Message) -> Result<(), AllocError>
    ensures ok { OnOk result (outbox.new.items ≡ outbox.old.items ++ octets_of message.now) }
    ensures err { OnErr result (outbox.new.items ≡ outbox.old.items) }
{
    let before = outbox.len();
    let header = spell_header(message);
    outbox.extend_from_slice(&header)?;
    match outbox.extend_from_slice(message.body.as_slice()) {
        Ok(()) => Ok(()),
        Err(AllocError) => {
            outbox.truncate(before);
            Err(AllocError)
        }
    }
}
