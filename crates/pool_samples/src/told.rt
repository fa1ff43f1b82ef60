//! What stands in a book.

use cc_book::Book;

/// Prints how many entries a book has, and the balance of its account.
pub fn print_book(rt: &impl Print, before: &str, book: &Book) -> anyhow::Result<()> {
    println!(rt;
        "{before}entries {} balance {}",
        book.history().len(),
        book.balance(0).unwrap_or(0)
    )?;
    Ok(())
}
