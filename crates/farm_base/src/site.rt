//! The site: its nodes, their links and routes, and what the book is opened with.

ghost use Rattle.std.specs.Prelude.{◌≡◌, IfOk};
ghost use Rattle.farm_base.specs.FrontProfile.{front_profile};

use cc_book::Account;
use cc_rating::Tariff;
use dia_avp::Octets;
use dia_base::{Identity, Listing, NodeKind, NodeNo};
use dia_grammar::{SiteProfile, Tolerance};
use std::alloc::AllocError;

/// A node. Its number is its place in the list of nodes.
pub struct Node {
    pub name: Identity,
    pub kind: NodeKind,
    /// Where it listens, as `127.0.0.1:3868`.
    pub address: Option<Octets>,
}

// By hand, so that each exit of an owner is proved with one call.
impl Drop for Node {
    fn drop(self) {
        let Node {
            name: _,
            kind: _,
            address: _,
        } = self;
    }
}

/// A link: the first connects to the second.
#[derive(Clone, Copy, PartialEq, Eq)]
pub struct Link {
    pub from: NodeNo,
    pub to: NodeNo,
}

/// A route of a relay (RFC 6733, section 2.7): the peers for a realm and an application, the best first.
#[derive(Drop)]
pub struct Route {
    pub at: NodeNo,
    pub realm: Identity,
    /// The Application-ID.
    pub app: u32,
    pub peers: Listing<NodeNo>,
}

/// A site.
pub struct Site {
    /// The Origin-Realm of each relay and front.
    pub realm: Identity,
    /// Validity-Time in seconds.
    pub validity: u32,
    /// The most entries of the book.
    pub limit: u64,
    /// The workers of each front.
    pub workers: u32,
    /// The most requests that wait in the queue of a front.
    pub queue: u32,
    /// The vendors whose AVPs are known, beside vendor 0.
    pub vendors: Listing<u32>,
    /// The codes of vendor 0 that are known, beside those of the dictionary.
    pub known: Listing<u32>,
    /// The deviations of clients that fronts tolerate.
    pub tolerate: Listing<Tolerance>,
    /// The vendors for which a node advertises credit control to its neighbours.
    pub advertise: Listing<u32>,
    /// Currency-Code (ISO 4217).
    pub currency: u32,
    /// The power of ten of a minor unit.
    pub exponent: i32,
    /// The interval of the watchdog in milliseconds.
    pub watchdog: u32,
    pub nodes: Listing<Node>,
    pub links: Listing<Link>,
    pub routes: Listing<Route>,
    pub tariffs: Listing<Tariff>,
    pub accounts: Listing<Account>,
}

// By hand, so that each exit of an owner is proved with one call.
impl Drop for Site {
    fn drop(self) {
        let Site {
            realm: _,
            validity: _,
            limit: _,
            workers: _,
            queue: _,
            vendors: _,
            known: _,
            tolerate: _,
            advertise: _,
            currency: _,
            exponent: _,
            watchdog: _,
            nodes: _,
            links: _,
            routes: _,
            tariffs: _,
            accounts: _,
        } = self;
    }
}

impl Site {
    /// What each front knows beside the dictionary, and what it tolerates: a copy.
    pub fn front_profile(&self) -> Result<SiteProfile, AllocError>
        ensures { IfOk result (λ profile. profile ≡ front_profile self.now) }
    {
        Ok(SiteProfile {
            vendors: self.vendors.clone()?,
            known: self.known.clone()?,
            tolerated: self.tolerate.clone()?,
        })
    }
}
