//! A book that is copied to another file.

ghost use Rattle.std.specs.Prelude.{◌≡◌, [], IfOk};

use crate::error::CopyFault;
use crate::rows::copy_book;
use book_file::{FileError, about_of, close_file, create_file, open_file};
use book_rows::{About, Identity, Sum};
use book_store::RowStore;
use std::alloc::Global;
use std::fs;

/// The book that was copied.
#[derive(Clone, Copy)]
pub struct Copied {
    /// Which book it is.
    pub identity: Identity,
    /// The sum of its last row, which names the whole history.
    pub sum: Sum,
}

/// Refuses a path at which something stands.
fn check_free(rt: &HostRuntime, path: &str) -> Result<(), CopyFault> {
    if fs::exists(rt, path)? {
        return Err(CopyFault::Stands);
    }
    Ok(())
}

/// The path of the log of a file with a book.
fn log_of(alloc: Global, path: &str) -> Result<String, CopyFault> {
    Ok(format!(in alloc; "{path}-wal")?)
}

/// A book that was opened, with what it is.
fn with_about<A: RowStore + Drop>(
    alloc: Global,
    opened: Result<A, FileError>,
) -> Result<(A, About), CopyFault>
    requires { IfOk opened (λ book. A.is_clean book → A.is_ready book) }
    ensures { IfOk result (λ found. A.is_clean found.0 → A.is_ready found.0) }
{
    let mut book = match opened {
        Ok(book) => book,
        Err(error) => return Err(CopyFault::Book(error)),
    };
    match about_of(alloc, &mut book) {
        Ok(about) => Ok((book, about)),
        Err(error) => Err(CopyFault::Book(error)),
    }
}

/// A book and its copy, which was made with no row, and the sum of the last row that was copied.
fn copy_to<A: RowStore + Drop, B: RowStore + Drop>(
    alloc: Global,
    book: A,
    made: Result<B, FileError>,
) -> Result<(A, B, Sum), CopyFault>
    requires ready { A.is_clean book → A.is_ready book }
    requires copy_ready { IfOk made (λ copy. B.is_clean copy → B.is_ready copy) }
    requires empty { IfOk made (λ copy. B.is_clean copy → B.rows copy ≡ []) }
{
    let mut book = book;
    let mut copy = match made {
        Ok(copy) => copy,
        Err(error) => return Err(CopyFault::Copy(error)),
    };
    let sum = copy_book(alloc, &mut book, &mut copy)?;
    Ok((book, copy, sum))
}

/// Makes a file with the book of another file: the same identity, terms and rows. A path at which a file stands, or its log, is
/// refused. The book is held from its opening on, so that no other process changes it meanwhile, and it stays as it is. What a
/// copy that failed has left is no copy.
pub fn copy_file(rt: &HostRuntime, path: &str, to: &str) -> Result<Copied, CopyFault> {
    let alloc = rt.alloc();
    check_free(rt, to)?;
    check_free(rt, &log_of(alloc, to)?)?;
    let (book, about) = with_about(alloc, open_file(rt, path))?;
    let made = create_file(rt, to, &about);
    let (book, copy, sum) = copy_to(alloc, book, made)?;
    let closed = close_file(copy);
    close_file(book).map_err(CopyFault::Book)?;
    closed.map_err(CopyFault::Copy)?;
    Ok(Copied {
        identity: about.identity,
        sum,
    })
}
