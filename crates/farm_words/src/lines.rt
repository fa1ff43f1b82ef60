//! The lines of a text, and the messages in them.

use crate::avps::push_avps;
use crate::header::push_header;
use dia_avp::DEPTH_LIMIT;
use dia_message::{Message, whole_message};
use hex::FromHexError;
use std::alloc::{AllocError, Global};

/// The word that begins the line of a message that a client received.
const RECV: &[u8] = b"recv";

/// The text with each message in words: that of a line of hexadecimal digits, and that of a line
/// `recv CLIENT CONN HEX`. All other lines stay as they are.
pub fn in_words(alloc: Global, text: &[u8]) -> Result<Vec<u8>, AllocError> {
    let mut out = Vec::new(alloc);
    for line in text.split_inclusive(|octet| *octet == b'\n') {
        push_line(alloc, &mut out, line)?;
    }
    Ok(out)
}

fn push_line(alloc: Global, out: &mut Vec<u8>, line: &[u8]) -> Result<(), AllocError> {
    let (front, digits) = parts_of(alloc, without_end(line))?;
    match message_of(alloc, digits)? {
        Some(message) => {
            let words = words_of(alloc, &message)?;
            out.extend_from_slice(front)?;
            out.extend_from_slice(words.as_bytes())?;
        }
        None => out.extend_from_slice(line)?,
    }
    Ok(())
}

/// A line without the line feed at its end, nor a carriage return before that.
fn without_end(line: &[u8]) -> &[u8] {
    match line {
        [front @ .., b'\r', b'\n'] => front,
        [front @ .., b'\n'] => front,
        _ => line,
    }
}

/// What stands before the digits of a message, with the space behind it, and what may be the digits.
fn parts_of(alloc: Global, line: &[u8]) -> Result<(&[u8], &[u8]), AllocError> {
    let words: Vec<&[u8]> = line.splitn(5, |octet| *octet == b' ').collect(alloc)?;
    let parts = match words.as_slice() {
        [verb, client, conn, digits] if *verb == RECV && !client.is_empty() && is_number(conn) => {
            line.split_at(line.len().saturating_sub(digits.len()))
        }
        _ => line.split_at(0),
    };
    Ok(parts)
}

fn is_number(word: &[u8]) -> bool {
    !word.is_empty() && word.iter().all(|octet| octet.is_ascii_digit())
}

/// The message that the digits write, if they write one and nothing else.
fn message_of(alloc: Global, digits: &[u8]) -> Result<Option<Message>, AllocError> {
    match hex::decode(alloc, digits) {
        Ok(octets) => whole_message(alloc, &octets),
        Err(FromHexError::OutOfMemory) => Err(AllocError),
        Err(_) => Ok(None),
    }
}

/// The lines of a message: that of its header, and those of its AVPs.
fn words_of(alloc: Global, message: &Message) -> Result<String, AllocError> {
    let mut out = String::new(alloc);
    push_header(&mut out, &message.header)?;
    push_avps(alloc, &mut out, &message.body, DEPTH_LIMIT)?;
    Ok(out)
}
