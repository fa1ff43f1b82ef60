//! A text from a file.

ghost use Rattle.std.specs.Prelude.{◌<◌, ◌^◌};

use crate::reading::{ReadFault, TEXT_LIMIT, read_up_to};
use std::fs::File;

/// The octets of the file at this path, up to one above the size limit. One that cannot be opened is one that cannot be read.
pub fn file_at(rt: &HostRuntime, path: &str) -> Result<Vec<u8>, ReadFault> {
    file_up_to(rt, path, TEXT_LIMIT)
}

/// The octets of the file at this path, up to one above this size limit. One that cannot be opened is one that cannot be read.
pub fn file_up_to(rt: &HostRuntime, path: &str, limit: usize) -> Result<Vec<u8>, ReadFault>
    requires { limit < 2 ^ 32 }
{
    match File::open(rt, path) {
        Ok(mut file) => read_up_to(rt.alloc(), &mut file, limit),
        Err(_) => Err(ReadFault::Failed),
    }
}
