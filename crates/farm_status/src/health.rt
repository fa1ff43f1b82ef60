//! Whether a node can do its work.

ghost use Rattle.std.specs.Prelude.{◌≡◌};
ghost use Rattle.std.specs.List.{list_any};
ghost use Rattle.farm_status.specs.Health.{health_of, health_of_book, serves, status_of_health};

use crate::status::{BookStatus, Peer, PeerState, Work};
use http::StatusCode;
use std::fmt;

/// Whether a node can do its work: a relay forwards requests, and fronts charge them.
#[derive(Clone, Copy, PartialEq, Eq)]
pub enum Health {
    Well,
    /// No neighbour is up that the routes of the relay name.
    NoServer,
    /// The book of the fronts is closed.
    BookClosed,
    /// The book of the fronts takes no new request.
    BookFull,
}

impl fmt::Display for Health {
    fn fmt<W: fmt::Write>(&self, f: &mut fmt::Formatter<W>) -> fmt::Result {
        f.write_str(match self {
            Health::Well => "well",
            Health::NoServer => "no neighbour is up that a route names",
            Health::BookClosed => "the book is closed",
            Health::BookFull => "the book is full",
        })
    }
}

impl Health {
    /// Its status over HTTP (RFC 9110, section 15).
    pub fn status(self) -> StatusCode
        ensures { result ≡ status_of_health self }
    {
        match self {
            Health::Well => StatusCode::OK,
            Health::NoServer | Health::BookClosed | Health::BookFull => {
                StatusCode::SERVICE_UNAVAILABLE
            }
        }
    }
}

/// Whether requests can be sent to a neighbour.
fn serves(peer: &Peer) -> bool
    ensures { result ≡ serves peer.now }
{
    peer.takes_requests && peer.state == PeerState::Up
}

/// Whether requests can be sent to one of these.
fn has_server(peers: &[Peer]) -> bool
    ensures { result ≡ list_any serves peers.now }
{
    peers.iter().any(|peer| serves(peer))
}

/// Whether new requests can be charged on a book.
fn health_of_book(book: Option<BookStatus>) -> Health
    ensures { result ≡ health_of_book book }
{
    match book {
        None => Health::BookClosed,
        Some(book) => {
            if book.entries < book.limit {
                Health::Well
            } else {
                Health::BookFull
            }
        }
    }
}

/// Whether a node with these neighbours can do this work.
pub fn health_of(peers: &[Peer], work: &Work) -> Health
    ensures { result ≡ health_of peers.now work.now }
{
    match work {
        Work::Relay { .. } => {
            if has_server(peers) {
                Health::Well
            } else {
                Health::NoServer
            }
        }
        Work::Fronts { book, .. } => health_of_book(*book),
    }
}
