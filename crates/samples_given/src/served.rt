//! A node whose connections are over streams in memory.

use crate::streams::{Stream, Ways, stream_of};
use dia_avp::ViewWire;
use dia_base::{ConnId, Moment, NodeNo};
use farm_connections::{End, Refusal, Serving};
use farm_net::Counted;
use farm_node::Node;
use std::alloc::Global;

/// What a connection reads.
pub type Reader<'a> = Counted<Stream<&'a [u8]>>;

/// What it writes.
pub type Writer = Counted<Stream<Vec<u8>>>;

/// A node with its connections.
pub type Served<'a, N> = Serving<N, Reader<'a>, Writer>;

/// When connections are made.
pub const MOMENT: Moment = Moment(1_000);

/// How many octets are read at a time.
const PIECE: usize = 4_096;

/// Someone connects to a node, and this is all that comes.
pub fn accept<'a, N: Node>(
    alloc: Global,
    serving: &mut Served<'a, N>,
    node: NodeNo,
    octets: &'a [u8],
    reads: Ways,
    writes: Ways,
) -> Result<ConnId, Refusal> {
    let reader = stream_of(octets, reads);
    let writer = stream_of(Vec::new(alloc), writes);
    match serving.accept(node, Vec::new(alloc), reader, writer, MOMENT) {
        Ok(conn) => Ok(conn),
        Err(refused) => Err(refused.why),
    }
}

/// A connection is read for one turn.
pub fn read<N: Node>(serving: &mut Served<'_, N>, conn: ConnId) {
    let mut piece = [0u8; PIECE];
    serving.readable::<ViewWire>(conn, &mut piece, usize::MAX, MOMENT);
}

/// What was written on a connection.
pub fn written<'a, N: Node>(serving: &'a Served<'_, N>, conn: ConnId) -> &'a [u8] {
    match serving.link(conn) {
        Some(link) => link.conn.writer().device().inner.as_slice(),
        None => &[],
    }
}

/// Why a connection has ended, if it has.
pub fn end_of<N: Node>(serving: &Served<'_, N>, conn: ConnId) -> Option<End> {
    let (why, _) = serving.link(conn)?.end?;
    Some(why)
}

/// How many octets wait to be written on a connection.
pub fn unsent<N: Node>(serving: &Served<'_, N>, conn: ConnId) -> usize {
    match serving.link(conn) {
        Some(link) => link.conn.unsent(),
        None => 0,
    }
}
