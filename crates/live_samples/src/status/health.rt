//! Whether a relay or fronts can do their work.

use farm_status::{BookStatus, Peer, PeerState, ServedCount, Work, health_of};
use std::alloc::{AllocError, Global};

/// A relay's neighbours: a gateway, which is up, and a server.
fn peers_of(alloc: Global, server: PeerState) -> Result<Vec<Peer>, AllocError> {
    let mut peers = Vec::new(alloc);
    for (name, state, takes_requests) in [
        ("c1.example", PeerState::Up, false),
        ("f1.example", server, true),
    ] {
        peers.push(Peer {
            local: String::from_str(alloc, "r1.example")?,
            name: String::from_str(alloc, name)?,
            state,
            takes_requests,
            conn: None,
            address: None,
            past: None,
        })?;
    }
    Ok(peers)
}

/// Prints whether a node can do this work, and its status over HTTP.
fn print(rt: &impl Print, peers: &[Peer], work: &Work) -> anyhow::Result<()> {
    let health = health_of(peers, work);
    println!(rt; "{health}: {}", health.status().as_u16())?;
    Ok(())
}

/// Fronts on a book with so many entries of a hundred.
fn fronts_with(alloc: Global, entries: u64) -> Work {
    Work::Fronts {
        fronts: Vec::new(alloc),
        book: Some(BookStatus {
            entries,
            limit: 100,
            sessions: 0,
            reserved: 0,
            served: ServedCount {
                charges: entries,
                enquiries: 0,
                credit_refusals: 0,
                refusals: 0,
                repeats: 0,
            },
            file: None,
        }),
    }
}

/// Prints it of a relay whose server is up, and is not, and of fronts whose book has room, is full, and is closed.
pub fn print_all(rt: &impl Print, alloc: Global) -> anyhow::Result<()> {
    let relay = Work::Relay {
        pending: 0,
        limit: 16,
        mismatched: 0,
    };
    print(rt, &peers_of(alloc, PeerState::Up)?, &relay)?;
    print(rt, &peers_of(alloc, PeerState::Connecting)?, &relay)?;
    print(rt, &[], &fronts_with(alloc, 99))?;
    print(rt, &[], &fronts_with(alloc, 100))?;
    let closed = Work::Fronts {
        fronts: Vec::new(alloc),
        book: None,
    };
    print(rt, &[], &closed)
}
