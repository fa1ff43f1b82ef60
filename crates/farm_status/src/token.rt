//! The word by which a node knows who may end it.

ghost use Rattle.std.specs.Prelude.{◌≡◌, IfErr, IfOk};
ghost use Rattle.farm_status.specs.Replies.{is_text};
ghost use Rattle.farm_status.specs.Tokens.{IsTokenText, IsWhyNone, is_graphic, unended};

use std::alloc::Global;
use thiserror::Error;

/// The least and the most octets of a token.
pub const TOKEN_LEAST: usize = 16;

pub const TOKEN_MOST: usize = 256;

/// Why a text is no token.
#[derive(Clone, Copy, Debug, PartialEq, Eq, Error)]
pub enum TokenFault {
    #[error("a token has 16 to 256 letters, digits or signs, and no blank")]
    NoToken,
    #[error("out of memory")]
    OutOfMemory,
}

/// The word by which a node knows who may end it: 16 to 256 octets, each 0x21 to 0x7e.
#[derive(Drop)]
pub struct Token {
    octets: Vec<u8>,
}

fn is_graphic(octet: u8) -> bool
    ensures { result ≡ is_graphic octet }
{
    octet >= 0x21 && octet <= 0x7e
}

impl Token {
    /// The token that these octets are.
    fn of(alloc: Global, octets: &[u8]) -> Result<Token, TokenFault>
        ensures ok { IfOk result (λ token. (token.octets.items ≡ octets.now) × IsTokenText octets.now) }
        ensures err { IfErr result (IsWhyNone octets.now) }
    {
        if octets.len() < TOKEN_LEAST || octets.len() > TOKEN_MOST {
            return Err(TokenFault::NoToken);
        }
        if !octets.iter().all(|octet| is_graphic(*octet)) {
            return Err(TokenFault::NoToken);
        }
        match Vec::from_slice(alloc, octets) {
            Ok(octets) => Ok(Token { octets }),
            Err(_) => Err(TokenFault::OutOfMemory),
        }
    }

    /// The token that a text spells: all of it, but for a line feed at its end.
    pub fn read(alloc: Global, text: &[u8]) -> Result<Token, TokenFault>
        ensures ok { IfOk result (λ token. (token.octets.items ≡ unended text.now) × IsTokenText token.octets.items) }
        ensures err { IfErr result (IsWhyNone (unended text.now)) }
    {
        match text.strip_suffix(b"\n") {
            Some(line) => Token::of(alloc, line),
            None => Token::of(alloc, text),
        }
    }

    /// Whether this is the token: the whole of it, and nothing else.
    pub fn is(&self, shown: &[u8]) -> bool
        ensures { result ≡ is_text shown.now self.now.octets.items }
    {
        shown == self.octets.as_slice()
    }

    /// Its octets.
    pub fn as_slice(&self) -> &[u8]
        ensures { result.now ≡ self.now.octets.items }
    {
        &self.octets
    }
}
