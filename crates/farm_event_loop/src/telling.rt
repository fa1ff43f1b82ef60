//! Which lines the log has of what has happened to connections.

use crate::dial::Dial;
use crate::half::Half;
use crate::kind::Kind;
use crate::limits::Limits;
use crate::rejected::Rejected;
use crate::tell::{At, Named, Pair};
use crate::why::Why;
use crate::{Served, tell};
use dia_base::{ConnId, Moment, NodeNo};
use farm_base::Site;
use farm_connections::{Ended, Link, Note};
use farm_net::Counted;
use farm_node::{Node, Refused, is_of_credit};
use log::Log;

/// A connection with its sockets.
type Socketed = Link<Counted<Half>, Counted<Half>>;

/// A connection as lines name it.
fn at_of<'a>(site: &'a Site, link: &Socketed) -> At<'a> {
    At {
        local: Named {
            site,
            node: link.local,
        },
        conn: link.id,
        origin: link.conn.reader().device().origin(),
    }
}

/// The two nodes of a connection that this process makes.
pub fn pair_of<'a>(site: &'a Site, dial: &Dial) -> Pair<'a> {
    let (local, peer) = (dial.local, dial.peer);
    Pair {
        local: Named { site, node: local },
        peer: Named { site, node: peer },
    }
}

/// The connection of a note, if it is of one.
fn conn_of(note: &Note) -> Option<ConnId> {
    match note {
        Note::Up { conn, .. }
        | Note::Leaves { conn, .. }
        | Note::Lost { conn, .. }
        | Note::Misnamed { conn, .. }
        | Note::Refused { conn, .. } => Some(*conn),
        Note::Refusal { refused } => Some(refused.conn),
        Note::FailedOver { lost, .. } | Note::GivenUp { lost, .. } => Some(*lost),
        Note::Failed { .. } => None,
    }
}

/// The kind of the line of a request that was refused.
fn kind_of_refusal(refused: &Refused) -> Kind {
    if is_of_credit(refused.code) {
        Kind::Credit
    } else {
        Kind::Refusal
    }
}

/// The kind of the line of a note. That a connection is refused is told when that is let go.
fn kind_of(note: &Note) -> Option<Kind> {
    match note {
        Note::Up { .. } => Some(Kind::Up),
        Note::Leaves { .. } => Some(Kind::Leaves),
        Note::Lost { .. } => Some(Kind::Lost),
        Note::Misnamed { .. } => Some(Kind::NotMade),
        Note::Refused { .. } => None,
        Note::FailedOver { .. } => Some(Kind::FailedOver),
        Note::GivenUp { .. } => Some(Kind::GivenUp),
        Note::Refusal { refused } => Some(kind_of_refusal(refused)),
        Note::Failed { .. } => Some(Kind::Failed),
    }
}

/// The node that a note is about, which is up on its connection, was, or does not come up.
fn peer_of(note: &Note, link: &Socketed) -> Option<NodeNo> {
    match note {
        Note::Misnamed { peer, .. } => Some(*peer),
        Note::Up { .. }
        | Note::Leaves { .. }
        | Note::Lost { .. }
        | Note::Refused { .. }
        | Note::FailedOver { .. }
        | Note::GivenUp { .. }
        | Note::Refusal { .. }
        | Note::Failed { .. } => link.standing.peer(),
    }
}

/// Writes the line of a note on this connection.
fn write_note<L: Log>(log: &L, site: &Site, link: &Socketed, note: &Note) {
    let at = at_of(site, link);
    match note {
        Note::Up { peer, .. } => tell::up(log, at, Named { site, node: *peer }),
        Note::Leaves { peer, cause, .. } => {
            tell::leaves(log, at, Named { site, node: *peer }, *cause);
        }
        Note::Lost { peer, why, .. } => {
            let why = Why::of(*why, link.farewell, &link.conn);
            tell::lost(log, at, Named { site, node: *peer }, why);
        }
        Note::Misnamed { peer, name, .. } => {
            let (local, peer) = (at.local, Named { site, node: *peer });
            tell::misnamed(log, Pair { local, peer }, name.as_ref());
        }
        Note::FailedOver { to, .. } => tell::failed_over(log, at, *to),
        Note::GivenUp { to, code, .. } => tell::given_up(log, at, *to, *code),
        Note::Refusal { refused } => {
            tell::refusal(log, at, kind_of_refusal(refused).level(), refused);
        }
        Note::Refused { .. } | Note::Failed { .. } => {}
    }
}

/// Tells what has happened at this moment to a connection, which was not let go since, unless too much of that kind happens.
pub fn tell_note<N: Node, L: Log>(
    log: &L,
    limits: &mut Limits,
    site: &Site,
    serving: &Served<N>,
    note: &Note,
    moment: Moment,
) {
    let Some(kind) = kind_of(note) else {
        return;
    };
    if let Note::Failed { error } = note
        && limits.admit(kind, None, moment)
    {
        tell::node_failed(log, *error);
    }
    if let Some(conn) = conn_of(note)
        && let Some(link) = serving.link(conn)
        && limits.admit(kind, peer_of(note, link), moment)
    {
        write_note(log, site, link, note);
    }
}

/// That a connection fails since the wrong node answers is told by a note, and not once more when it is let go.
pub fn explain(dials: &mut [Dial], note: &Note) {
    if let Note::Misnamed { conn, .. } = note {
        for dial in dials.iter_mut() {
            if dial.is_made(*conn) {
                dial.explain();
            }
        }
    }
}

/// Tells why a connection was refused that somebody has made and that is let go with no node up on it: who was at its other end, if that
/// is known.
pub fn tell_refused<L: Log>(
    log: &L,
    limits: &mut Limits,
    site: &Site,
    ended: &Ended<Counted<Half>, Counted<Half>>,
    rejected: Option<Rejected>,
    why: Why,
    moment: Moment,
) {
    let origin = ended.streams.reader().device().origin();
    if ended.peer.is_some() || origin.is_none() {
        return;
    }
    let local = Named {
        site,
        node: ended.local,
    };
    let at = At {
        local,
        conn: ended.conn,
        origin,
    };
    match rejected {
        Some(rejected) => {
            if limits.admit(Kind::Unwelcome, None, moment) {
                tell::unwelcome(log, at, &rejected);
            }
        }
        None => {
            if limits.admit(Kind::Refused, None, moment) {
                tell::refused(log, at, why);
            }
        }
    }
}
