//! The words behind a program's name.

use crate::fault::CliFault;
use std::env;
use std::io::ErrorKind;

/// The words behind the program's name. Refused: a word that is no UTF-8; for want of memory.
pub fn words_of(rt: &HostRuntime) -> Result<Vec<String>, CliFault> {
    match env::args(rt) {
        Ok(words) => match words.skip(1).collect(rt.alloc()) {
            Ok(words) => Ok(words),
            Err(_) => Err(CliFault::OutOfMemory),
        },
        Err(error) if error.kind() == ErrorKind::OutOfMemory => Err(CliFault::OutOfMemory),
        Err(_) => Err(CliFault::NotUtf8),
    }
}
