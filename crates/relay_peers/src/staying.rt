//! The peers that stay.

ghost use Rattle.std.specs.Prelude.{◌≡◌, [], IfOk, filter};
ghost use Rattle.relay_peers.specs.PeerTable.{is_other, without_conn, with_staying};

use crate::peers::Link;
use dia_base::{ConnId, NodeNo};
use std::alloc::{AllocError, Global};
use std::marker::Model;

/// The connections of the peers that are up and stay: all but those that have said goodbye (RFC 6733, section 5.4). Contracts
/// see them as links, as those of [`Peers`](crate::Peers).
#[derive(Drop)]
pub struct Staying {
    pub(crate) links: Vec<Link>,
}

impl Model for Staying {
    ghost use Rattle.std.specs.Prelude.{List};
    ghost use Rattle.relay_peers.specs.declared.peers.Link.{Link};
    ghost use Rattle.relay_peers.specs.PeerTable.{IsOneToOne};

    ghost Value = { List Link };

    ghost view = { λ s. s.links.items };

    ghost invariant = { λ s. IsOneToOne s.links.items };
}

impl Staying {
    /// No peer is up.
    pub fn nobody(alloc: Global) -> Self
        ensures { result ≡ [] }
    {
        Staying {
            links: Vec::new(alloc),
        }
    }

    /// These, and a peer that comes up on this connection: what was known of either before is not so any more.
    pub fn with(&self, alloc: Global, peer: NodeNo, conn: ConnId) -> Result<Staying, AllocError>
        ensures { IfOk result (λ more. more ≡ with_staying self.now peer conn) }
    {
        let mut links = others_than(alloc, &self.links, peer, conn)?;
        links.push(Link { peer, conn })?;
        Ok(Staying { links })
    }

    /// The peer that has this connection, if any, does not stay: it has said goodbye, or the connection has ended. It takes no
    /// memory.
    pub fn leave(&mut self, conn: ConnId)
        ensures { self.new ≡ without_conn self.old conn }
    {
        self.links.retain(|link| link.conn != conn);
    }

    /// No peer is up any more. It takes no memory.
    pub fn all_leave(&mut self)
        ensures { self.new ≡ [] }
    {
        self.links.clear();
    }
}

/// The links of other peers on other connections.
fn others_than(
    alloc: Global,
    links: &[Link],
    peer: NodeNo,
    conn: ConnId,
) -> Result<Vec<Link>, AllocError>
    ensures { IfOk result (λ others. others.items ≡ filter (is_other peer conn) links.now) }
{
    links
        .iter()
        .copied()
        .filter(|link| link.peer != peer && link.conn != conn)
        .collect(alloc)
}
