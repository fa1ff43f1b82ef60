//! What is recorded of what a node is told and of what it sends. Where the recorder is off, each of these does nothing.
//!
//! What a node sends at a tick, or when it is woken, is not told here: those are answers of a front's workers, and who has
//! the workers tells of each with its charge ([`farm_record::Recorded`]).

ghost use Rattle.std.specs.Prelude.{◌≡◌, find, OnErr, OnOk};
ghost use Rattle.farm_record.specs.Lines.{line_of};
ghost use Rattle.farm_record.specs.Recording.{Tells, TellsAll, is_of, sent_word, up_event, with_conns};
ghost use Rattle.farm_record.specs.declared.event.Event.TheVariants as Event;
ghost use Rattle.farm_connections.specs.Recording.{RecordsReaction};

use dia_base::{ConnId, NodeNo};
use dia_message::Out;
use farm_node::{NodeError, Reaction};
use farm_record::Recorder;
use std::alloc::Global;

/// A node was told that its neighbour is up. Where it has refused that, nothing is told.
pub fn record_up(
    alloc: Global,
    recorder: &mut Recorder,
    conn: ConnId,
    ends: (NodeNo, NodeNo),
    outcome: Result<(), NodeError>,
)
    ensures ok { OnOk outcome (Tells (line_of recorder.old.names.items (up_event conn ends.0 ends.1 (find (is_of conn) recorder.old.conns.items))) (with_conns recorder.old recorder.new) recorder.new) }
    ensures err { OnErr outcome (recorder.new ≡ recorder.old) }
{
    let (local, peer) = ends;
    if outcome.is_ok() {
        recorder.up(alloc, conn, local, peer);
    }
}

/// The node was told of the message that came last: where it did not take it, it is as it was, and nothing is told of it. Then
/// what it sends for it.
pub fn record_reaction(alloc: Global, recorder: &mut Recorder, reaction: &Reaction)
    ensures { RecordsReaction reaction.now.outcome reaction.now.out.items recorder.old recorder.new }
{
    if reaction.outcome.is_err() {
        recorder.refused();
    }
    recorder.sent(alloc, reaction.out.items.as_slice());
}

/// What the node sends for what was told last.
pub fn record_sent(alloc: Global, recorder: &mut Recorder, out: &Out)
    ensures { TellsAll (sent_word recorder.old.is_client) recorder.old out.now.items recorder.new }
{
    recorder.sent(alloc, out.items.as_slice());
}

/// The node was told of the end of a connection. Where it could not be, the process ends, and nothing is told.
pub fn record_lost(
    alloc: Global,
    recorder: &mut Recorder,
    conn: ConnId,
    outcome: &Result<(), NodeError>,
)
    ensures ok { OnOk outcome.now (Tells (line_of recorder.old.names.items (Event.Drop conn)) (with_conns recorder.old recorder.new) recorder.new) }
    ensures err { OnErr outcome.now (recorder.new ≡ recorder.old) }
{
    if outcome.is_ok() {
        recorder.lost(alloc, conn);
    }
}
