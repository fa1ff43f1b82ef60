//! The messages of standard input, and those of standard output.

ghost use Rattle.std.specs.Prelude.{◌≡◌, ◌==◌, IfErr, IfOk, map, string_bytes};
ghost use Rattle.std.specs.List.{slice_split};
ghost use Rattle.std.specs.Str.Lines.{strip_carriage_return};
ghost use Rattle.farm_client.specs.declared.messages.LinesFault.TheVariants.{OutOfMemory};
ghost use Rattle.farm_client.specs.Lines.{AreMessagesOf, IsWhyNone, line_of, lines_in, message_on, unended};

use dia_message::{Message, spell_message, whole_message};
use std::alloc::{AllocError, AllocFailed, Global};
use thiserror::Error;

/// Why lines are no messages.
#[derive(Clone, Copy, Debug, PartialEq, Eq, Error)]
pub enum LinesFault {
    /// A line, from 1, is not the hexadecimal digits of one whole message.
    #[error("messages: line {line}: no whole message")]
    NoMessage { line: usize },
    #[error("out of memory")]
    OutOfMemory,
}

impl From<AllocError> for LinesFault {
    ghost from_gives = { λ _ e. e ≡ OutOfMemory };

    fn from(_e: AllocError) -> LinesFault {
        LinesFault::OutOfMemory
    }
}

impl<T: Drop> From<AllocFailed<T>> for LinesFault {
    ghost from_gives = { λ _ e. e ≡ OutOfMemory };

    fn from(_e: AllocFailed<T>) -> LinesFault {
        LinesFault::OutOfMemory
    }
}

/// The line without a carriage return at its end.
fn trimmed(line: &[u8]) -> &[u8]
    ensures { result.now ≡ strip_carriage_return line.now }
{
    match line {
        [text @ .., b'\r'] => text,
        _ => line,
    }
}

/// The message of a line.
fn message_of(alloc: Global, line: &[u8]) -> Result<Option<Message>, AllocError>
    ensures { IfOk result (λ found. found ≡ message_on line.now) }
{
    match hex::decode(alloc, trimmed(line)) {
        Ok(octets) => whole_message(alloc, &octets),
        Err(hex::FromHexError::OutOfMemory) => Err(AllocError),
        Err(_) => Ok(None),
    }
}

/// The text without a line feed at its end.
fn unended(text: &[u8]) -> &[u8]
    ensures { result.now ≡ unended text.now }
{
    match text {
        [lines @ .., b'\n'] => lines,
        _ => text,
    }
}

/// What stands between the line feeds of a text.
fn between_feeds(alloc: Global, text: &[u8]) -> Result<Vec<&[u8]>, AllocError>
    ensures { IfOk result (λ parts. map (λ part. part.now) parts.items ≡ slice_split (λ octet. octet == 10) text.now) }
{
    text.split(|octet| *octet == b'\n').collect(alloc)
}

/// The lines of a text, without their line feeds. An empty text has none, nor has a line feed alone.
fn lines_of(alloc: Global, text: &[u8]) -> Result<Vec<&[u8]>, AllocError>
    ensures { IfOk result (λ lines. map (λ line. line.now) lines.items ≡ lines_in text.now) }
{
    let text = unended(text);
    if text.is_empty() {
        return Ok(Vec::new(alloc));
    }
    between_feeds(alloc, text)
}

/// The messages of a text, one on a line, in order. What stands behind the last line feed is a line, unless it is empty.
pub fn messages_of(alloc: Global, text: &[u8]) -> Result<Vec<Message>, LinesFault>
    ensures ok { IfOk result (λ messages. AreMessagesOf text.now messages.items) }
    ensures err { IfErr result (IsWhyNone text.now) }
{
    let mut messages = Vec::new(alloc);
    let lines = lines_of(alloc, text)?;
    for (place, line) in lines.iter().enumerate() {
        match message_of(alloc, line)? {
            Some(message) => messages.push(message)?,
            None => return Err(LinesFault::NoMessage { line: place + 1 }),
        }
    }
    Ok(messages)
}

/// A message as a line of hexadecimal digits.
pub fn line_of(alloc: Global, message: &Message) -> Result<String, AllocError>
    ensures { IfOk result (λ line. string_bytes line ≡ line_of message.now) }
{
    let octets = spell_message(alloc, message)?;
    let mut line = hex::encode(alloc, &octets)?;
    line.push('\n')?;
    Ok(line)
}
