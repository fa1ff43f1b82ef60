//! A text from a reader, within a limit, and why it is not told in words.

ghost use Rattle.std.specs.Prelude.{◌≡◌, ◌≢◌, ◌≤◌, IfErr, IfOk, IfSome, length};
ghost use Rattle.farm_words.specs.declared.streams.WordsFault.TheVariants.{OutOfMemory, Write};

use farm_text::{ReadFault, TEXT_LIMIT, WriteFault, read_text};
use std::alloc::{AllocError, Global};
use std::io::Read;
use thiserror::Error;

/// Why a text was not told.
#[derive(Clone, Copy, Debug, PartialEq, Eq, Error)]
pub enum WordsFault {
    #[error("words: the input cannot be read")]
    Read,
    #[error("words: the output cannot be written")]
    Write,
    #[error("words: too long")]
    TooLong,
    #[error("words: out of memory")]
    OutOfMemory,
}

impl From<AllocError> for WordsFault {
    ghost from_gives = { λ _ e. e ≡ OutOfMemory };

    fn from(_e: AllocError) -> WordsFault {
        WordsFault::OutOfMemory
    }
}

impl From<WriteFault> for WordsFault {
    ghost from_gives = { λ _ e. e ≡ Write };

    fn from(_fault: WriteFault) -> WordsFault {
        WordsFault::Write
    }
}

impl From<ReadFault> for WordsFault {
    ghost from_gives = { λ _ e. e ≢ Write };

    fn from(fault: ReadFault) -> WordsFault {
        match fault {
            ReadFault::Failed => WordsFault::Read,
            ReadFault::OutOfMemory => WordsFault::OutOfMemory,
        }
    }
}

/// All that the reader gives, where that is within the limit.
pub fn read_all<R: Read>(alloc: Global, reader: &mut R) -> Result<Vec<u8>, WordsFault>
    ensures size { IfOk result (λ text. length text.items ≤ 16777216) }
    ensures all { IfOk result (λ text. IfSome (R.remaining reader.old) (λ octets. text.items ≡ octets)) }
    ensures fault { IfErr result (λ fault. fault ≢ WordsFault.Write) }
{
    let text = read_text(alloc, reader)?;
    if text.len() > TEXT_LIMIT {
        Err(WordsFault::TooLong)
    } else {
        Ok(text)
    }
}
