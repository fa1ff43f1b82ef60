//! The file with the token by which whoever may end a node is known.

use crate::fault::Fault;
use farm_status::{Token, TokenFault};
use farm_text::{ReadFault, read_text};
use std::fs::{File, OpenOptions};
use std::io::{ErrorKind, Write};
use std::os::unix::fs::{OpenOptionsExt, PermissionsExt};
use std::random::RandomSource;

/// The file is its owner's alone.
const OWN: u32 = 0o600;

/// What the group of a file and all others may do with it.
const OTHERS: u32 = 0o077;

/// The digits of a token that is made.
const DIGITS: &[u8; 16] = b"0123456789abcdef";

/// The token of the file at this path. Where it is not there it is made, with a token that nobody knows yet; one that others
/// may read or write is refused.
pub fn token_at(rt: &HostRuntime, path: &str) -> Result<Token, Fault> {
    match File::open(rt, path) {
        Ok(mut file) => read_token(rt, &mut file),
        Err(error) if error.kind() == ErrorKind::NotFound => make_token(rt, path),
        Err(_) => Err(Fault::TokenFile),
    }
}

/// The token of a file that is there.
fn read_token(rt: &HostRuntime, file: &mut File) -> Result<Token, Fault> {
    let Ok(metadata) = file.metadata() else {
        return Err(Fault::TokenFile);
    };
    if metadata.permissions().mode() & OTHERS != 0 {
        return Err(Fault::TokenSeen);
    }
    match read_text(rt.alloc(), file) {
        Ok(text) => token_in(rt, &text),
        Err(ReadFault::OutOfMemory) => Err(Fault::OutOfMemory),
        Err(ReadFault::Failed) => Err(Fault::TokenFile),
    }
}

/// The token that a text spells.
fn token_in(rt: &HostRuntime, text: &[u8]) -> Result<Token, Fault> {
    match Token::read(rt.alloc(), text) {
        Ok(token) => Ok(token),
        Err(TokenFault::OutOfMemory) => Err(Fault::OutOfMemory),
        Err(TokenFault::NoToken) => Err(Fault::NoToken),
    }
}

/// The digit of the lower half of an octet.
fn digit(octet: u8) -> u8 {
    DIGITS[(octet & 0x0f) as usize]
}

/// 32 hexadecimal digits by chance, and a line feed.
fn text_by_chance(rt: &HostRuntime) -> Result<Vec<u8>, Fault> {
    let mut octets = [0u8; 16];
    if rt.fill_bytes(&mut octets).is_err() {
        return Err(Fault::TokenFile);
    }
    let mut text = Vec::with_capacity(rt.alloc(), 33)?;
    for octet in octets {
        text.push(digit(octet >> 4))?;
        text.push(digit(octet))?;
    }
    text.push(b'\n')?;
    Ok(text)
}

/// A file with a new token, which its owner alone may read.
fn make_token(rt: &HostRuntime, path: &str) -> Result<Token, Fault> {
    let text = text_by_chance(rt)?;
    let mut options = OpenOptions::new();
    options.write(true).create_new(true).mode(OWN);
    let Ok(mut file) = options.open(rt, path) else {
        return Err(Fault::TokenFile);
    };
    if file.write_all(&text).is_err() {
        return Err(Fault::TokenFile);
    }
    token_in(rt, &text)
}
