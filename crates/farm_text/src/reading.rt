//! A text from a reader.

ghost use Rattle.std.specs.Prelude.{◌≡◌, ◌+◌, ◌<◌, ◌≤◌, ◌^◌, length, take, IfOk, IfSome, OnErr, OnOk};
ghost use Rattle.std.specs.Io.KnownBytes.{Consumes, IsAtEnd, Keeps};
ghost use Rattle.farm_text.specs.Reading.{ReadsText, ReadsUpTo};

use std::alloc::Global;
use std::io;
use std::io::{ErrorKind, Read};
use thiserror::Error;

/// The longest text, in octets: one octet more is read, which tells that a text is longer.
pub const TEXT_LIMIT: usize = 16_777_216;

/// Interrupted calls of one stream that are tried again.
pub(crate) const RETRY_LIMIT: u32 = 1_000;

/// How many octets are asked for in one read.
const PIECE: usize = 4_096;

/// Why a text was not read to its end.
#[derive(Clone, Copy, Debug, PartialEq, Eq, Error)]
pub enum ReadFault {
    /// A read failed, or more than 1,000 were interrupted.
    #[error("the text cannot be read")]
    Failed,
    #[error("out of memory")]
    OutOfMemory,
}

/// One read, which gives nothing only at the end.
fn read_some<R: Read>(reader: &mut R, piece: &mut [u8]) -> io::Result<usize>
    requires { 0 < length piece.old }
    ensures bound { IfOk result (λ count. count ≤ length piece.new) }
    ensures octets { IfOk result (λ count. Consumes (R.remaining reader.old) (R.remaining reader.new) (take count piece.new)) }
    ensures end { IfOk result (λ count. count ≡ 0 → IsAtEnd (R.remaining reader.new)) }
    ensures err { OnErr result (Keeps (R.remaining reader.old) (R.remaining reader.new)) }
{
    reader.read(piece)
}

/// Reads a text, up to one octet above [`TEXT_LIMIT`], as [`read_up_to`] does.
pub fn read_text<R: Read>(alloc: Global, reader: &mut R) -> Result<Vec<u8>, ReadFault>
    ensures text { IfOk result (λ text. IfSome (R.remaining reader.old) (λ octets. text.items ≡ take 16777217 octets)) }
    ensures read { OnOk result (ReadsText (R.remaining reader.old) (R.remaining reader.new)) }
{
    read_up_to(alloc, reader, TEXT_LIMIT)
}

/// Reads until the end, a fault, or one octet above the size limit. After a fault it is not said how much was read.
pub fn read_up_to<R: Read>(
    alloc: Global,
    reader: &mut R,
    limit: usize,
) -> Result<Vec<u8>, ReadFault>
    requires { limit < 2 ^ 32 }
    ensures text { IfOk result (λ text. IfSome (R.remaining reader.old) (λ octets. text.items ≡ take (limit + 1) octets)) }
    ensures read { OnOk result (ReadsUpTo limit (R.remaining reader.old) (R.remaining reader.new)) }
{
    let mut text = Vec::new(alloc);
    let mut piece = [0u8; PIECE];
    let mut interrupted = 0;
    while text.len() <= limit {
        let room = (limit + 1 - text.len()).min(PIECE);
        match read_some(reader, &mut piece[..room]) {
            Ok(count) => {
                if count == 0 {
                    return Ok(text);
                }
                if text.extend_from_slice(&piece[..count]).is_err() {
                    return Err(ReadFault::OutOfMemory);
                }
            }
            Err(error) => {
                if error.kind() != ErrorKind::Interrupted || interrupted >= RETRY_LIMIT {
                    return Err(ReadFault::Failed);
                }
                interrupted += 1;
            }
        }
    }
    Ok(text)
}
