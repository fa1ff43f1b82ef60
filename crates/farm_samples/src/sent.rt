//! What nodes send.

use dia_message::Out;
use std::alloc::Global;

/// Prints a line for each message that is sent: the place of its event, its connection, its kind and its AVPs.
pub fn print_sent(rt: &impl Print, alloc: Global, outs: &[Out]) -> anyhow::Result<()> {
    for (place, out) in outs.iter().enumerate() {
        for (conn, message) in out.items.as_slice() {
            let kind = match (message.header.request, message.header.error) {
                (true, _) => "request",
                (false, false) => "answer",
                (false, true) => "error",
            };
            let avps = hex::encode(alloc, message.body.as_slice())?;
            println!(rt; "{place} {} {kind} {avps}", conn.0)?;
        }
    }
    Ok(())
}
