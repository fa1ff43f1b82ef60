//! What is counted of what a node is told and of what it sends.

ghost use Rattle.std.specs.Prelude.{◌≡◌, OnErr, OnOk};
ghost use Rattle.std.specs.List.{fold};
ghost use Rattle.farm_connections.specs.Counting.{CountsSent, is_silence, let_go, with_resent};
ghost use Rattle.farm_metrics.specs.Tallying.{ComesUp, IsLost};

use crate::end::End;
use crate::link::Standing;
use dia_base::{ConnId, NodeNo};
use dia_message::{Message, Out};
use farm_metrics::{Tally, code_of_answer};
use farm_node::NodeError;

/// The node was told that its neighbour is up on a connection.
pub fn count_up(
    tally: &mut Tally,
    conn: ConnId,
    ends: (NodeNo, NodeNo),
    outcome: Result<(), NodeError>,
)
    ensures ok { OnOk outcome (ComesUp conn ends.0 ends.1 tally.old tally.new) }
    ensures err { OnErr outcome (tally.new ≡ tally.old) }
{
    let (local, peer) = ends;
    if outcome.is_ok() {
        tally.peer_up(conn, local, peer);
    }
}

/// The node was told that a connection has ended, for this reason.
pub fn count_lost(tally: &mut Tally, conn: ConnId, why: End)
    ensures { IsLost conn (is_silence why) tally.old tally.new }
{
    let is_silent = match why {
        End::Silent => true,
        End::Loss(_)
        | End::Unwelcome
        | End::Disconnected
        | End::Closed
        | End::Refused(_)
        | End::OutOfMemory => false,
    };
    tally.peer_lost(conn, is_silent);
}

/// The node has sent a message on a connection.
pub fn count_sent(tally: &mut Tally, conn: ConnId, message: &Message)
    ensures { CountsSent conn message.now tally.old tally.new }
{
    if message.header.request {
        tally.request_sent();
    } else {
        let code = code_of_answer(message.body.as_slice());
        tally.answer_sent(conn, message.header.hop, code);
    }
}

/// What the node has sent where a connection is lost: requests again, and answers to those that it gives up.
pub fn count_failovers(tally: &mut Tally, out: &Out)
    ensures { tally.new ≡ fold with_resent tally.old out.now.items }
{
    for (_, message) in out.items.as_slice() {
        if message.header.request {
            tally.failed_over();
        } else {
            tally.gave_up();
        }
    }
}

/// A connection is let go, which somebody else has made or the node itself. It counts where nobody was ever up on it.
pub fn count_let_go(tally: &mut Tally, accepted: bool, standing: Standing)
    ensures { tally.new ≡ let_go accepted standing tally.old }
{
    match standing {
        Standing::Waiting if accepted => tally.conn_refused(),
        Standing::Waiting => tally.dial_failed(),
        Standing::Up { .. } | Standing::Over { .. } => {}
    }
}
