//! A text to a writer.

ghost use Rattle.std.specs.Prelude.{OnOk, OnErr};
ghost use Rattle.std.specs.Io.KnownBytes.{Appends};
ghost use Rattle.farm_text.specs.Writing.{BeginsWriting};

use crate::reading::RETRY_LIMIT;
use std::io::{ErrorKind, Write};
use thiserror::Error;

/// A write failed or took nothing, or more than 1,000 were interrupted.
#[derive(Clone, Copy, Debug, PartialEq, Eq, Error)]
#[error("the output cannot be written")]
pub struct WriteFault;

/// Writes all of the text, and flushes. After a fault a beginning of it was written.
pub fn write_text<W: Write>(writer: &mut W, text: &[u8]) -> Result<(), WriteFault>
    ensures ok { OnOk result (Appends (W.contents writer.old) (W.contents writer.new) text.now) }
    ensures err { OnErr result (BeginsWriting (W.contents writer.old) (W.contents writer.new) text.now) }
{
    let mut rest = text;
    let mut interrupted = 0;
    while !rest.is_empty() {
        match writer.write(rest) {
            Ok(0) => return Err(WriteFault),
            Ok(count) => {
                let (_, behind) = rest.split_at(count);
                rest = behind;
            }
            Err(error) => {
                if error.kind() != ErrorKind::Interrupted || interrupted >= RETRY_LIMIT {
                    return Err(WriteFault);
                }
                interrupted += 1;
            }
        }
    }
    writer.flush().map_err(|_| WriteFault)
}
