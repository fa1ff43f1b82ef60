//! What a run prints.

ghost use Rattle.std.specs.Prelude.{◌≡◌, ◌∷◌, [], ◌++◌, codes, IfOk, OnOk, length, string_bytes};
ghost use Rattle.std.specs.List.{concat};
ghost use Rattle.std.specs.Fmt.{decimal};
ghost use Rattle.farm_cli.specs.Output.{client_name, name_at, recv_line, end_line, lines_of, output_of};

use dia_base::{ConnId, NodeNo};
use dia_message::{Message, spell_message};
use farm_command::Action;
use farm_report::report;
use farm_world::{Site, Trace, is_client};
use std::alloc::{AllocError, Global};

fn name_at(site: &Site, node: NodeNo) -> &[u8]
    ensures { result.now ≡ name_at site.now node }
{
    match site.nodes.as_slice().get(node.0 as usize) {
        Some(node) => node.name.as_slice(),
        None => &[],
    }
}

fn client_name<'a>(site: &'a Site, ends: &[(NodeNo, NodeNo)], conn: ConnId) -> &'a [u8]
    ensures { result.now ≡ client_name site.now ends.now conn }
{
    match ends.get(conn.0.saturating_sub(1) as usize) {
        Some((one, other)) => {
            let client = if is_client(site, *one) { *one } else { *other };
            name_at(site, client)
        }
        None => &[],
    }
}

/// Adds `recv CLIENT CONN HEX`, with HEX in lower case.
fn push_recv(
    alloc: Global,
    out: &mut Vec<u8>,
    site: &Site,
    ends: &[(NodeNo, NodeNo)],
    conn: ConnId,
    message: &Message,
) -> Result<(), AllocError>
    ensures { OnOk result (out.new.items ≡ out.old.items ++ recv_line site.now ends.now (conn, message.now)) }
{
    let number = number_between_spaces(alloc, conn)?;
    let octets = spell_message(alloc, message)?;
    let hex = hex::encode(alloc, octets)?;
    out.extend_from_slice(b"recv ")?;
    out.extend_from_slice(client_name(site, ends, conn))?;
    out.extend_from_slice(number.as_bytes())?;
    out.extend_from_slice(hex.as_bytes())?;
    out.extend_from_slice(b"\n")?;
    Ok(())
}

fn number_between_spaces(alloc: Global, conn: ConnId) -> Result<String, AllocError>
    ensures { IfOk result (λ text. string_bytes text ≡ concat (codes " " ∷ decimal conn.0 ∷ codes " " ∷ [])) }
{
    let number = conn.0;
    format!(in alloc; " {number} ")
}

fn end_line(alloc: Global, steps: usize, skipped: u64, entries: usize) -> Result<String, AllocError>
    ensures { IfOk result (λ line. string_bytes line ≡ end_line steps skipped entries) }
{
    format!(in alloc; "end steps {steps} skipped {skipped} entries {entries}\n")
}

/// What comes before the report: a line for each message that a client received, in order, and the
/// end line.
fn run_lines(alloc: Global, site: &Site, steps: usize, trace: &Trace) -> Result<Vec<u8>, AllocError>
    ensures { IfOk result (λ out. out.items ≡ lines_of site.now steps trace.now) }
{
    let mut out = Vec::new(alloc);
    for (conn, message) in trace.received.as_slice() {
        push_recv(alloc, &mut out, site, trace.ends.as_slice(), *conn, message)?;
    }
    let end = end_line(alloc, steps, trace.skipped, trace.book.history().len())?;
    out.extend_from_slice(end.as_bytes())?;
    Ok(out)
}

/// What the action prints of a run of so many steps.
pub fn output(
    alloc: Global,
    action: Action,
    site: &Site,
    steps: usize,
    trace: &Trace,
) -> Result<Vec<u8>, AllocError>
    ensures { IfOk result (λ out. out.items ≡ output_of action site.now steps trace.now) }
{
    let mut out = match action {
        Action::Replay => run_lines(alloc, site, steps, trace)?,
        Action::Report => Vec::new(alloc),
    };
    let report = report(alloc, &trace.book)?;
    out.extend_from_slice(report.as_bytes())?;
    Ok(out)
}
