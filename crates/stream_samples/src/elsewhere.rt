//! Capabilities of a node that may not come from where it is.

use crate::connections::silent;
use crate::counting::Counting;
use crate::sites::{FRONT, RELAY};
use dia_avp::ViewWire;
use dia_base::{ConnId, NodeNo};
use samples_given::{CER, MOMENT, Served, Ways, end_of, octets, read, stream_of, written};
use std::alloc::Global;

/// A node that has no part in this.
const OTHER: NodeNo = NodeNo(1);

/// Someone connects from where these nodes may not come from, and this is all that comes.
fn accept<'a>(
    alloc: Global,
    serving: &mut Served<'a, Counting>,
    barred: &[NodeNo],
    octets: &'a [u8],
) -> anyhow::Result<ConnId> {
    let barred = Vec::from_slice(alloc, barred)?;
    let reader = stream_of(octets, Ways::sound());
    let writer = stream_of(Vec::new(alloc), Ways::sound());
    match serving.accept(FRONT, barred, reader, writer, MOMENT) {
        Ok(conn) => Ok(conn),
        Err(refused) => Err(refused.why.into()),
    }
}

/// Hears what comes on a connection. Prints whether its other end is up, how many octets are written, and why it has ended,
/// if it has.
fn hear(
    rt: &impl Print,
    name: &str,
    serving: &mut Served<'_, Counting>,
    conn: ConnId,
) -> anyhow::Result<()> {
    read(serving, conn);
    serving.write_all::<ViewWire>(MOMENT);
    let up = serving
        .link(conn)
        .is_some_and(|link| link.standing.peer().is_some());
    let written = written(serving, conn).len();
    println!(rt; "{name}: up {up} written {written}")?;
    if let Some(why) = end_of(serving, conn) {
        println!(rt; "{name}: {why}")?;
    }
    Ok(())
}

/// Hears the capabilities of r1.example where these nodes may not come up.
fn print(rt: &impl Print, alloc: Global, name: &str, barred: &[NodeNo]) -> anyhow::Result<()> {
    let cer = octets(alloc, &[CER])?;
    let mut serving = silent(alloc)?;
    let conn = accept(alloc, &mut serving, barred, &cer)?;
    hear(rt, name, &mut serving, conn)
}

/// A connection on which all may come up, one on which another node may not, and one on which this node may not.
pub fn print_all(rt: &impl Print, alloc: Global) -> anyhow::Result<()> {
    print(rt, alloc, "all may come", &[])?;
    print(rt, alloc, "another may not", &[OTHER])?;
    print(rt, alloc, "it may not", &[OTHER, RELAY])
}
