//! Who has connected and is not welcome, and why.

use crate::half::Half;
use dia_avp::ViewWire;
use dia_base::{Identity, NodeNo};
use dia_message::Frames;
use farm_access::{Access, Coming};
use farm_base::Site;
use farm_connections::{End, Ended};
use farm_net::Counted;
use farm_watch::{MessageKind, kind_of, name_in};
use std::alloc::Global;
use std::fmt;
use std::net::IpAddr;

/// Why a node that has connected is not welcome.
#[derive(Clone, Copy, PartialEq, Eq)]
pub enum Rejection {
    /// The site has no node of this name.
    UnknownName,
    /// It has no link between the two.
    NotLinked,
    /// The node may not connect from where it is.
    WrongAddress,
    /// It is up on another connection.
    AlreadyConnected,
}

impl fmt::Display for Rejection {
    fn fmt<W: fmt::Write>(&self, f: &mut fmt::Formatter<W>) -> fmt::Result {
        f.write_str(match self {
            Rejection::UnknownName => "the site has no such node",
            Rejection::NotLinked => "the site has no link between the two",
            Rejection::WrongAddress => "it may not connect from there",
            Rejection::AlreadyConnected => "it is connected already",
        })
    }
}

/// A node that has connected and is not welcome.
#[derive(Drop)]
pub struct Rejected {
    /// The name that it gives itself.
    pub name: Identity,
    pub why: Rejection,
}

/// The name by which a node asks for an exchange of capabilities in the first message of these octets, if that is one.
fn name_in_first(alloc: Global, octets: &[u8]) -> Option<Identity> {
    let mut frames = Frames::new(alloc);
    let Ok(messages) = frames.feed(alloc, octets) else {
        return None;
    };
    let first = messages.first()?;
    match kind_of(&first.header) {
        MessageKind::Cer => name_in::<ViewWire>(alloc, &first.body),
        _ => None,
    }
}

/// The node of a site with this name, without case.
fn node_named(site: &Site, name: &Identity) -> Option<NodeNo> {
    let place = site
        .nodes
        .as_slice()
        .iter()
        .position(|node| node.name == *name)?;
    Some(NodeNo(u32::try_from(place).ok()?))
}

/// Whether the site has the one node connect to the other one.
fn connects(site: &Site, from: NodeNo, to: NodeNo) -> bool {
    site.links
        .as_slice()
        .iter()
        .any(|link| link.from.0 == from.0 && link.to.0 == to.0)
}

/// Why a node of this name was not welcome that has connected to the node `local` from this address.
fn rejection_of(
    site: &Site,
    access: &Access,
    local: NodeNo,
    address: IpAddr,
    name: &Identity,
) -> Rejection {
    let Some(node) = node_named(site, name) else {
        return Rejection::UnknownName;
    };
    let is_caller = connects(site, node, local);
    if !is_caller && !connects(site, local, node) {
        return Rejection::NotLinked;
    }
    if access.may_come_up(node, Coming::Connects { address, is_caller }) {
        Rejection::AlreadyConnected
    } else {
        Rejection::WrongAddress
    }
}

/// Who was at the other end of a connection that has ended, where that has connected and is not welcome, and has said its name.
pub fn rejected_on(
    alloc: Global,
    site: &Site,
    access: &Access,
    ended: &Ended<Counted<Half>, Counted<Half>>,
) -> Option<Rejected> {
    if ended.why != End::Unwelcome {
        return None;
    }
    let half = ended.streams.reader().device();
    let address = half.origin()?;
    let name = name_in_first(alloc, half.first())?;
    let why = rejection_of(site, access, ended.local, address, &name);
    Some(Rejected { name, why })
}
