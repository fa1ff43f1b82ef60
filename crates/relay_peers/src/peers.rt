//! The table of peers.

ghost use Rattle.std.specs.Prelude.{◌≡◌, [], IsSome, IsNone, OnOk, OnErr, IsOkUnless};
ghost use Rattle.std.specs.Option.{option_copied};
ghost use Rattle.relay_peers.specs.PeerTable.{IsOneToOne, conn_in, peer_in, peer_numbered, peer_named, kind_in, links_among, with_link, without_conn};

use crate::staying::Staying;
use dia_base::{ConnId, Identity, NodeKind, NodeNo};
use std::alloc::Global;
use std::marker::Model;
use thiserror::Error;

/// A node that the site links with the relay: its number, the identity under which it sends, and what
/// it is.
#[derive(Clone, Drop)]
pub struct LinkedPeer {
    pub peer: NodeNo,
    pub name: Identity,
    pub kind: NodeKind,
}

/// A peer that is up, and its connection.
#[derive(Clone, Copy, PartialEq, Eq)]
pub struct Link {
    pub peer: NodeNo,
    pub conn: ConnId,
}

/// Why a peer does not come up.
#[derive(Clone, Copy, Debug, PartialEq, Eq, Error)]
pub enum UpFault {
    #[error("the peer, or another one on that connection, is up")]
    PeerUp,
    #[error("no such peer is linked")]
    UnknownPeer,
    #[error("out of memory")]
    OutOfMemory,
}

/// The linked peers, and the connection of each that is up. Contracts see a finite map from peers
/// to connections beside the list of linked peers.
#[derive(Drop)]
pub struct Peers {
    linked: Vec<LinkedPeer>,
    links: Vec<Link>,
}

impl Model for Peers {
    ghost use Rattle.relay_peers.specs.PeerTable.{PeerTable, IsOneToOne};

    ghost Value = { PeerTable };

    ghost view = { λ p. record { linked = p.linked.items; links = p.links.items } };

    ghost invariant = { λ p. IsOneToOne p.links.items };
}

impl Peers {
    /// No peer of the linked ones is up. Of several entries for one node the first counts.
    pub fn new(alloc: Global, linked: Vec<LinkedPeer>) -> Self
        ensures { result ≡ record { linked = linked.items; links = [] } }
    {
        Peers {
            linked,
            links: Vec::new(alloc),
        }
    }

    /// A peer's connection is made. A peer that is not linked is refused first, then one that is up
    /// and one whose connection another peer has. A refusal leaves the table as it was.
    pub fn up(&mut self, peer: NodeNo, conn: ConnId) -> Result<(), UpFault>
        ensures unknown { IsNone (kind_in self.old.linked peer) → result ≡ Err UpFault.UnknownPeer }
        ensures busy { IsSome (kind_in self.old.linked peer) → IsSome (conn_in self.old.links peer) → result ≡ Err UpFault.PeerUp }
        ensures taken { IsSome (kind_in self.old.linked peer) → IsSome (peer_in self.old.links conn) → result ≡ Err UpFault.PeerUp }
        ensures free { IsSome (kind_in self.old.linked peer) → IsNone (conn_in self.old.links peer) → IsNone (peer_in self.old.links conn) → IsOkUnless result UpFault.OutOfMemory }
        ensures ok { OnOk result (self.new ≡ record { linked = self.old.linked; links = with_link self.old.links peer conn }) }
        ensures err { OnErr result (self.new ≡ self.old) }
        ensures one { IsOneToOne self.new.links }
    {
        if self.kind_of(peer).is_none() {
            return Err(UpFault::UnknownPeer);
        }
        if self.conn_of(peer).is_some() || self.peer_of(conn).is_some() {
            return Err(UpFault::PeerUp);
        }
        self.links
            .push(Link { peer, conn })
            .map_err(|_| UpFault::OutOfMemory)
    }

    /// A connection has ended: the peer that had it, if any, is not up. It takes no memory.
    pub fn down(&mut self, conn: ConnId)
        ensures links { self.new ≡ record { linked = self.old.linked; links = without_conn self.old.links conn } }
        ensures one { IsOneToOne self.new.links }
    {
        self.links.retain(|link| link.conn != conn);
    }

    /// No peer is up. It takes no memory.
    pub fn all_down(&mut self)
        ensures { self.new ≡ record { linked = self.old.linked; links = [] } }
    {
        self.links.clear();
    }

    /// The peers that are up with their connections, or those alone of them that stay, if some leave. It takes no memory.
    pub fn links_among<'a>(&'a self, staying: Option<&'a Staying>) -> &'a [Link]
        ensures { result.now ≡ links_among (option_copied staying.entry) self.now.links }
    {
        match staying {
            Some(staying) => &staying.links,
            None => &self.links,
        }
    }

    /// The connection of a peer, if it is up. It takes no memory.
    pub fn conn_of(&self, peer: NodeNo) -> Option<ConnId>
        ensures value { result ≡ conn_in self.now.links peer }
        ensures one { IsOneToOne self.now.links }
    {
        self.links
            .iter()
            .find(|link| link.peer == peer)
            .map(|link| link.conn)
    }

    /// The peer at the other end of a connection. It takes no memory.
    pub fn peer_of(&self, conn: ConnId) -> Option<NodeNo>
        ensures value { result ≡ peer_in self.now.links conn }
        ensures one { IsOneToOne self.now.links }
    {
        self.links
            .iter()
            .find(|link| link.conn == conn)
            .map(|link| link.peer)
    }

    /// The linked peer of this number. It takes no memory.
    pub fn numbered(&self, peer: NodeNo) -> Option<&LinkedPeer>
        ensures { option_copied result ≡ peer_numbered self.now.linked peer }
    {
        self.linked.iter().find(|linked| linked.peer == peer)
    }

    /// The first linked peer of this identity, which is compared whole and without ASCII case. It
    /// takes no memory.
    pub fn named(&self, name: &[u8]) -> Option<&LinkedPeer>
        ensures { option_copied result ≡ peer_named self.now.linked name.now }
    {
        self.linked
            .iter()
            .find(|linked| linked.name.as_slice().eq_ignore_ascii_case(name))
    }

    /// What a linked peer is. It takes no memory.
    pub fn kind_of(&self, peer: NodeNo) -> Option<NodeKind>
        ensures { result ≡ kind_in self.now.linked peer }
    {
        self.numbered(peer).map(|linked| linked.kind)
    }
}
