//! What a node knows of itself and of its neighbours.

ghost use Rattle.std.specs.Prelude.{◌≡◌};
ghost use Rattle.farm_watch.specs.PeerMessages.{application_number};

use crate::codes::RELAY_APPLICATION;
use dia_base::codes::CREDIT_CONTROL_APPLICATION;
use dia_base::{Identity, Listing, NodeNo};

/// The application that a node advertises to its neighbours (RFC 6733, section 2.4).
#[derive(Clone, Copy, PartialEq, Eq)]
pub enum Application {
    /// A relay forwards the messages of any application.
    Relay,
    /// A front and a client speak Credit-Control alone (RFC 8506).
    CreditControl,
}

impl Application {
    /// The number in Auth-Application-Id.
    pub fn number(self) -> u32
        ensures { result ≡ application_number self }
    {
        match self {
            Application::Relay => RELAY_APPLICATION,
            Application::CreditControl => CREDIT_CONTROL_APPLICATION,
        }
    }
}

/// The address that a node tells its neighbours (RFC 6733, section 4.3.1, Address).
#[derive(Clone, Copy, PartialEq, Eq)]
pub enum HostAddress {
    V4([u8; 4]),
    V6([u8; 16]),
}

/// A node that may connect, by the identity under which it does.
#[derive(Drop)]
pub struct Neighbour {
    pub name: Identity,
    pub node: NodeNo,
}

/// What a node does with a connection whose other end says goodbye, by Disconnect-Peer-Request (RFC 6733, section 5.4). It
/// answers that in either case.
#[derive(Clone, Copy, PartialEq, Eq)]
pub enum Goodbyes {
    /// It ends the connection at once.
    EndAtOnce,
    /// It sends no request there, still takes what comes, and leaves it to the other end to close, for an interval at most.
    LeaveClosing,
}

/// What a node knows of itself and of its neighbours, for all of its connections.
pub struct WatchSite {
    /// Origin-Host of what it writes.
    pub name: Identity,
    /// Origin-Realm of what it writes.
    pub realm: Identity,
    /// Host-IP-Address of what it writes.
    pub address: HostAddress,
    pub application: Application,
    /// The vendors for which it advertises credit control, in the order in which it names them.
    pub advertised: Listing<u32>,
    /// The nodes that may connect to it. Of several with one name the first counts.
    pub neighbours: Listing<Neighbour>,
    /// How long it waits for a message, and then for the answer to its own: in milliseconds.
    pub interval: u32,
    pub goodbyes: Goodbyes,
    /// Its Origin-State-Id, if it tells one: another one says that its sessions were lost (RFC 6733, section 8.16).
    pub state: Option<u32>,
}

// By hand, so that each exit of an owner is proved with one call.
impl Drop for WatchSite {
    fn drop(self) {
        let WatchSite {
            name: _,
            realm: _,
            address: _,
            application: _,
            advertised: _,
            neighbours: _,
            interval: _,
            goodbyes: _,
            state: _,
        } = self;
    }
}

/// The side of a connection that a node is on.
#[derive(Clone, Copy, PartialEq, Eq)]
pub enum Side {
    /// It has connected to this node.
    Connects(NodeNo),
    /// Some node has connected to it.
    Accepts,
}
