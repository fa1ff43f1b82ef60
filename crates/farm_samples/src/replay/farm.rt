//! A run, and what is told of it.

ghost use Rattle.farm_base.specs.CheckedSite.{IsChecked};

use cc_book::Book;
use dia_avp::ViewWire;
use dia_base::ConnId;
use dia_message::{Message, spell_message};
use farm_base::{Site, Step};
use farm_model::Trace;
use farm_report::report;
use farm_world::{RunError, run};
use std::alloc::Global;

/// Runs the steps, and prints the run: where memory was refused at a step, that of the steps before it.
pub fn print(rt: &impl Print, alloc: Global, site: &Site, steps: &[Step]) -> anyhow::Result<()>
    requires { IsChecked site.now }
{
    match run::<ViewWire>(alloc, site, steps) {
        Ok(trace) => print_trace(rt, alloc, steps.len() as u64, &trace),
        Err(
            RunError {
                step,
                trace: Some(trace),
            },
        ) => print_trace(rt, alloc, step, &trace),
        Err(RunError { trace: None, .. }) => {
            println!(rt; "not opened")?;
            Ok(())
        }
    }
}

fn print_trace(rt: &impl Print, alloc: Global, steps: u64, trace: &Trace) -> anyhow::Result<()> {
    println!(rt; "steps {steps} skipped {}", trace.skipped)?;
    print_messages(rt, alloc, "sent", trace.sent.as_slice())?;
    print_messages(rt, alloc, "received", trace.received.as_slice())?;
    for (one, other) in trace.ends.as_slice() {
        println!(rt; "ends {} {}", one.0, other.0)?;
    }
    print_report(rt, alloc, &trace.book)
}

/// Prints the report of a book.
pub fn print_report(rt: &impl Print, alloc: Global, book: &Book) -> anyhow::Result<()> {
    let text = report(alloc, book)?;
    print!(rt; "{text}")?;
    Ok(())
}

fn print_messages(
    rt: &impl Print,
    alloc: Global,
    word: &str,
    messages: &[(ConnId, Message)],
) -> anyhow::Result<()> {
    for (conn, message) in messages {
        let octets = spell_message(alloc, message)?;
        println!(rt; "{word} {} {}", conn.0, hex::encode(alloc, octets)?)?;
    }
    Ok(())
}
