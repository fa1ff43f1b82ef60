//! The messages of a stream of octets, in whatever pieces it comes.

ghost use Rattle.std.specs.Prelude.{◌≡◌, ℕ, ◌≤◌, ◌<◌, List, [], ◌++◌, length, take, drop, is_some, IfOk, OnOk, OnErr, IfSome, None};
ghost use Rattle.std.specs.Result.{result_err, result_unwrap_or};
ghost use Rattle.dia_message.specs.declared.frames.FrameFault.TheVariants.{OutOfMemory};
ghost use Rattle.dia_message.specs.Header.{length_in};
ghost use Rattle.dia_message.specs.Stream.{fault_at, is_whole, message_in, stream_of, unread};
ghost use Rattle.dia_message.specs.Feeding.{Feeds, only_message};

use crate::header::{HEADER_LEN, VERSION, read_header};
use crate::message::Message;
use byteorder::{BigEndian, ByteOrder};
use dia_avp::Octets;
use dia_base::MESSAGE_LIMIT;
use std::alloc::{AllocError, Global};
use std::marker::Model;
use thiserror::Error;

/// Why the rest of a stream begins with no message.
#[derive(Clone, Copy, Debug, PartialEq, Eq, Error)]
pub enum FrameFault {
    /// Seen with the first octet.
    #[error("a message does not begin with version 1")]
    Version,
    /// Seen with four octets, as is `TooLong`.
    #[error("a message length is below 20 or no multiple of 4")]
    Length,
    #[error("a message is longer than {limit} octets", limit = MESSAGE_LIMIT)]
    TooLong,
    /// No fault of the stream: the piece was not taken, and may be fed again.
    #[error("out of memory")]
    OutOfMemory,
}

impl From<AllocError> for FrameFault {
    ghost from_gives = { λ _ e. e ≡ OutOfMemory };

    fn from(_e: AllocError) -> FrameFault {
        FrameFault::OutOfMemory
    }
}

/// The octets before a Message Length has been read.
const LENGTH_END: usize = 4;

/// Reads the messages of a stream (RFC 6733, section 3), which comes in pieces.
///
/// It keeps the octets that are not read yet, and nothing of the messages that it has given: the beginning of one
/// message, or what stands at a fault.
#[derive(Drop)]
pub struct Frames {
    rest: Vec<u8>,
}

impl Model for Frames {
    ghost use Rattle.std.specs.Prelude.{◌≡◌, ℕ, List};
    ghost use Rattle.dia_message.specs.Stream.{stream_of};

    ghost Value = { List ℕ };

    ghost view = { λ f. f.rest.items };

    ghost invariant = { λ f. (stream_of f.rest.items).rest ≡ f.rest.items };
}

impl Frames {
    /// No octets yet, which takes no memory.
    pub fn new(alloc: Global) -> Self
        ensures { result ≡ [] }
    {
        Frames {
            rest: Vec::new(alloc),
        }
    }

    /// The messages that are whole with this piece, in order.
    ///
    /// A fault is answered where no whole message stands before it, and then by every later call.
    /// Behind a fault no piece is taken. `OutOfMemory` leaves the piece untaken too.
    pub fn feed(&mut self, alloc: Global, piece: &[u8]) -> Result<Vec<Message>, FrameFault>
        ensures answer { Feeds self.old piece.now result self.new }

        // To tell a fault that is known takes no memory.
        ensures for_good { IfSome (stream_of self.old).fault (λ fault. result ≡ Err fault) }
    {
        if let Some(fault) = self.fault() {
            return Err(fault);
        }
        let messages = take_piece(alloc, &mut self.rest, piece)?;
        match self.fault() {
            Some(fault) if messages.is_empty() => Err(fault),
            _ => Ok(messages),
        }
    }

    /// What is wrong with the unread octets, if they show it.
    pub fn fault(&self) -> Option<FrameFault>
        ensures value { result ≡ (stream_of self.now).fault }

        // No whole message is left unread.
        ensures unread { stream_of self.now ≡ unread self.now }
    {
        first_of(&self.rest).err()
    }
}

/// The message of octets that are one whole message and nothing else (RFC 6733, section 3); else none.
pub fn whole_message(alloc: Global, octets: &[u8]) -> Result<Option<Message>, AllocError>
    ensures found { IfOk result (λ found. found ≡ only_message octets.now) }

    // Octets that are no message take no memory.
    ensures none { only_message octets.now ≡ None → result ≡ Ok None }
{
    let Ok(Some((first, behind))) = first_of(octets) else {
        return Ok(None);
    };
    if !behind.is_empty() {
        return Ok(None);
    }
    Ok(Some(message_of(alloc, first)?))
}

/// Adds the piece to the unread octets, gives the messages that are whole with it, and keeps what
/// stands behind them.
fn take_piece(alloc: Global, rest: &mut Vec<u8>, piece: &[u8]) -> Result<Vec<Message>, AllocError>
    ensures messages { IfOk result (λ messages. messages.items ≡ (stream_of (rest.old.items ++ piece.now)).messages) }
    ensures ok { OnOk result (rest.new.items ≡ (stream_of (rest.old.items ++ piece.now)).rest) }
    ensures err { OnErr result (rest.new.items ≡ rest.old.items) }
{
    let before = rest.len();
    rest.extend_from_slice(piece)?;
    match messages_of(alloc, rest) {
        Ok((messages, read)) => {
            if read > 0 {
                let left = rest.len() - read;
                rest.copy_within(read.., 0);
                rest.truncate(left);
            }
            Ok(messages)
        }
        Err(AllocError) => {
            rest.truncate(before);
            Err(AllocError)
        }
    }
}

/// The whole messages at the front, and how many octets they take.
fn messages_of(alloc: Global, octets: &[u8]) -> Result<(Vec<Message>, usize), AllocError>
    ensures messages { IfOk result (λ read. read.0.items ≡ (stream_of octets.now).messages) }
    ensures within { IfOk result (λ read. read.1 ≤ length octets.now) }
    ensures behind { IfOk result (λ read. drop read.1 octets.now ≡ (stream_of octets.now).rest) }
{
    let mut messages = Vec::new(alloc);
    let mut rest = octets;
    while let Ok(Some((first, behind))) = first_of(rest) {
        messages.push(message_of(alloc, first)?)?;
        rest = behind;
    }
    Ok((messages, octets.len() - rest.len()))
}

/// The octets of the message at the front and those behind it, if it is whole; or why no message can begin with these
/// octets, where they show it.
fn first_of(octets: &[u8]) -> Result<Option<(&[u8], &[u8])>, FrameFault>
    ensures fault { result_err result ≡ fault_at octets.now }
    ensures found { is_some (result_unwrap_or result None) ≡ is_whole octets.now }
    ensures first { IfSome (result_unwrap_or result None) (λ parts. parts.0.now ≡ take (length_in octets.now) octets.now) }
    ensures behind { IfSome (result_unwrap_or result None) (λ parts. parts.1.now ≡ drop (length_in octets.now) octets.now) }
    ensures least { IfSome (result_unwrap_or result None) (λ parts. 20 ≤ length parts.0.now) }
{
    if octets.is_empty() {
        return Ok(None);
    }
    if octets[0] != VERSION {
        return Err(FrameFault::Version);
    }
    if octets.len() < LENGTH_END {
        return Ok(None);
    }
    let (_, behind) = octets.split_at(1);
    let length = BigEndian::read_u24(behind) as usize;
    if length < HEADER_LEN || length % 4 != 0 {
        return Err(FrameFault::Length);
    }
    if length > MESSAGE_LIMIT {
        return Err(FrameFault::TooLong);
    }
    if length <= octets.len() {
        Ok(Some(octets.split_at(length)))
    } else {
        Ok(None)
    }
}

/// The message of octets that are one whole message. Its body is a buffer of its own, which the values
/// read of it share.
fn message_of(alloc: Global, octets: &[u8]) -> Result<Message, AllocError>
    requires { 20 ≤ length octets.now }
    ensures { IfOk result (λ message. message ≡ message_in octets.now) }
{
    let (front, body) = octets.split_at(HEADER_LEN);
    let mut header = [0u8; HEADER_LEN];
    header.copy_from_slice(front);
    Ok(Message {
        header: read_header(&header).header,
        body: Octets::shared(Vec::from_slice(alloc, body)?)?,
    })
}
