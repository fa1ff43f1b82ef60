//! What a book is.

use super::tables;
use book_rows::{ReadError, read_about};
use book_store::RowStore;
use std::alloc::Global;

/// What octets tell of a book.
fn print_read(rt: &impl Print, alloc: Global, octets: &[u8]) -> anyhow::Result<()> {
    match read_about(alloc, octets) {
        Ok(about) => {
            let terms = hex::encode(alloc, about.terms.as_slice())?;
            println!(rt; "book {}, terms {}", about.identity.0, terms.as_str())?;
        }
        Err(ReadError::NoRow(fault)) => println!(rt; "{fault:?}")?,
        Err(ReadError::OutOfMemory) => println!(rt; "out of memory")?,
    }
    Ok(())
}

/// The octets that tell what a book is, as they are stored, with the number of another format, and one octet less or more.
pub fn print_all(rt: &impl Print, alloc: Global) -> anyhow::Result<()> {
    let mut store = tables::store(alloc)?;
    let octets = store.about(alloc)?;
    let text = hex::encode(alloc, octets.as_slice())?;
    println!(rt; "{}", text.as_str())?;
    print_read(rt, alloc, octets.as_slice())?;
    let mut other = Vec::from_slice(alloc, octets.as_slice())?;
    if let Some(format) = other.get_mut(3) {
        *format = 2;
    }
    print_read(rt, alloc, other.as_slice())?;
    let short = octets.as_slice().split_last();
    if let Some((_, front)) = short {
        print_read(rt, alloc, front)?;
    }
    let mut longer = Vec::from_slice(alloc, octets.as_slice())?;
    longer.push(0)?;
    print_read(rt, alloc, longer.as_slice())
}
