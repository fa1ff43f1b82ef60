//! How answers are told.

use crate::told::print_book;
use anyhow::Context;
use cc_book::Book;
use cc_shared::{CloseError, Receipt, ServeError};
use cc_view::answer_bytes;
use dia_avp::ViewWire;
use dia_base::Identity;
use dia_message::Message;
use samples_given::debit;
use std::alloc::Global;

/// The answer of a front to the debit, with the reply of this receipt.
fn answer(alloc: Global, receipt: &Receipt) -> anyhow::Result<Message> {
    let name = Identity::read(alloc, b"f1.example")?;
    let realm = Identity::read(alloc, b"ocs.example")?;
    let message = debit(alloc, 0)?;
    let (request, reply) = (&receipt.request, &receipt.reply);
    Ok(answer_bytes::<ViewWire>(alloc, &name, &realm, &message, request, reply)?)
}

/// Prints whether all these receipts give one answer to the debit.
pub fn print_answers(rt: &impl Print, alloc: Global, receipts: &[Receipt]) -> anyhow::Result<()> {
    let first = receipts.first().context("no receipt")?;
    let expected = answer(alloc, first)?;
    for receipt in receipts {
        println!(rt; "equal answers {}", answer(alloc, receipt)? == expected)?;
    }
    Ok(())
}

/// Prints what became of a request.
pub fn print_served(rt: &impl Print, served: &Result<Receipt, ServeError>) -> anyhow::Result<()> {
    match served {
        Ok(receipt) => println!(rt;
            "place {} fresh {} code {}",
            receipt.place,
            receipt.fresh,
            receipt.reply.code.number()
        )?,
        Err(error) => println!(rt; "request {}: {}", error.request.number, error.why)?,
    }
    Ok(())
}

/// Prints what became of a book that was closed.
pub fn print_finished(rt: &impl Print, finished: &Result<Book, CloseError>) -> anyhow::Result<()> {
    match finished {
        Ok(book) => print_book(rt, "finished: ", book),
        Err(CloseError::ReceiptNotInHistory { place, book }) => {
            println!(rt; "a receipt of place {place} is not in the history")?;
            print_book(rt, "handed back: ", book)
        }
        Err(CloseError::CountsDiffer { book }) => print_book(rt, "the counts differ: ", book),
        Err(CloseError::OutOfMemory { book }) => print_book(rt, "out of memory: ", book),
        Err(CloseError::Closed) => {
            println!(rt; "closed")?;
            Ok(())
        }
    }
}
