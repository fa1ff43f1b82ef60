//! A relay and a front behind it as one node, between which messages go at once: what clients send goes through both.

use crate::sites::{RELAY, watch_site};
use cc_book::Book;
use dia_avp::{ViewWire, Wire};
use dia_base::{ConnId, Identity, Listing, Moment, NodeKind, NodeNo};
use dia_message::{Message, Out};
use farm_connections::LocalNode;
use farm_node::{Node, NodeError, Reaction};
use farm_watch::Application;
use relay_core::{Relay, RelaySite};
use relay_peers::LinkedPeer;
use relay_routes::Route;
use samples_given::{FrontAt, Fronts, book, front};
use std::alloc::{AllocError, Global};

pub const CLIENT: NodeNo = NodeNo(1);

const FRONT: NodeNo = NodeNo(2);

/// The connection of the relay and the front, which no connection of a client has.
pub const BETWEEN: ConnId = ConnId(u64::MAX);

/// The relay r1.example and the front f1.example.
#[derive(Drop)]
pub struct Farm {
    relay: Relay,
    fronts: Fronts,
    /// How often the client has come up, and was lost.
    pub ups: u64,
    pub lost: u64,
}

/// Five accounts: their Subscription-Id-Data, and what each begins with.
const ACCOUNTS: [(&str, i64); 5] = [
    ("491700000001", 1_000),
    ("491700000002", 12),
    ("491700000003", 4),
    ("491700000004", 27),
    ("491700000005", 25),
];

/// The front is told that the relay is up, and what time it is.
fn tell(alloc: Global, fronts: &mut Fronts, moment: Moment) -> Result<(), NodeError> {
    fronts.on_up(alloc, FRONT, RELAY, BETWEEN).outcome?;
    fronts.on_tick::<ViewWire>(alloc, moment).outcome
}

/// The front with the book, for which the relay is up.
fn fronts(alloc: Global, moment: Moment) -> anyhow::Result<Fronts> {
    let vendors = Listing::from_vec(vec![in alloc; 10_415]?);
    let front = front(alloc, b"f1.example", vendors)?;
    let at = vec![in alloc; FrontAt { node: FRONT, front }]?;
    let mut fronts = Fronts::new(at, book(alloc, &ACCOUNTS, 100_000)?);
    tell(alloc, &mut fronts, moment)?;
    Ok(fronts)
}

fn peer(alloc: Global, peer: NodeNo, name: &[u8], kind: NodeKind) -> anyhow::Result<LinkedPeer> {
    let name = Identity::read(alloc, name)?;
    Ok(LinkedPeer { peer, name, kind })
}

/// The client and the front.
fn peers(alloc: Global) -> anyhow::Result<Vec<LinkedPeer>> {
    let client = peer(alloc, CLIENT, b"c1.example", NodeKind::Client)?;
    let front = peer(alloc, FRONT, b"f1.example", NodeKind::Front)?;
    Ok(vec![in alloc; client, front]?)
}

/// The realm's requests go to the front.
fn routes(alloc: Global) -> anyhow::Result<Vec<Route>> {
    let realm = Identity::read(alloc, b"ocs.example")?;
    let peers = Listing::from_vec(vec![in alloc; FRONT]?);
    let route = Route {
        realm,
        app: 4,
        peers,
    };
    Ok(vec![in alloc; route]?)
}

/// The relay between the client and the front, which is up for it.
pub fn relay(alloc: Global) -> anyhow::Result<Relay> {
    let name = Identity::read(alloc, b"r1.example")?;
    let realm = Identity::read(alloc, b"ocs.example")?;
    let peers = Listing::from_vec(peers(alloc)?);
    let routes = Listing::from_vec(routes(alloc)?);
    let site = RelaySite {
        name,
        realm,
        peers,
        routes,
    };
    let mut relay = Relay::new(alloc, site)?;
    relay.conn_up(FRONT, BETWEEN)?;
    Ok(relay)
}

/// What the connections of r1.example know of it.
pub fn locals(alloc: Global) -> anyhow::Result<Vec<LocalNode>> {
    let client = (CLIENT, "c1.example");
    let site = watch_site(alloc, "r1.example", Application::Relay, client)?;
    Ok(vec![in alloc; LocalNode { node: RELAY, site }]?)
}

/// A message more is sent.
fn send(
    conn: ConnId,
    message: Message,
    sent: &mut Vec<(ConnId, Message)>,
) -> Result<(), NodeError> {
    if sent.push((conn, message)).is_err() {
        return Err(NodeError::OutOfMemory);
    }
    Ok(())
}

/// All of this is sent.
fn send_all(out: Out, sent: &mut Vec<(ConnId, Message)>) -> Result<(), NodeError> {
    match sent.extend(out.items.into_vec()) {
        Ok(()) => Ok(()),
        Err(AllocError) => Err(NodeError::OutOfMemory),
    }
}

impl Farm {
    /// The two, connected.
    pub fn new(alloc: Global, moment: Moment) -> anyhow::Result<Farm> {
        let relay = relay(alloc)?;
        let fronts = fronts(alloc, moment)?;
        Ok(Farm {
            relay,
            fronts,
            ups: 0,
            lost: 0,
        })
    }

    /// The book.
    pub fn book(&self) -> &Book {
        self.fronts.book()
    }

    /// The relay gets an answer.
    fn answer<W: Wire>(
        &mut self,
        alloc: Global,
        answer: Message,
        sent: &mut Vec<(ConnId, Message)>,
    ) -> Result<(), NodeError> {
        let back = Node::on_message::<W>(&mut self.relay, alloc, BETWEEN, answer);
        back.outcome?;
        send_all(back.out, sent)
    }

    /// The front gets a request, and the relay its answer.
    fn ask<W: Wire>(
        &mut self,
        alloc: Global,
        request: Message,
        sent: &mut Vec<(ConnId, Message)>,
    ) -> Result<(), NodeError> {
        let answers = self.fronts.on_message::<W>(alloc, BETWEEN, request);
        answers.outcome?;
        for (_, answer) in answers.out.items.into_vec() {
            self.answer::<W>(alloc, answer, sent)?;
        }
        Ok(())
    }

    /// What the relay sends goes to the front, or to the client.
    fn pass<W: Wire>(
        &mut self,
        alloc: Global,
        conn: ConnId,
        message: Message,
        sent: &mut Vec<(ConnId, Message)>,
    ) -> Result<(), NodeError> {
        if conn == BETWEEN {
            self.ask::<W>(alloc, message, sent)
        } else {
            send(conn, message, sent)
        }
    }

    /// All that the relay sends: to the front, which answers, or to the client.
    fn forward<W: Wire>(
        &mut self,
        alloc: Global,
        reaction: Reaction,
        sent: &mut Vec<(ConnId, Message)>,
    ) -> Result<(), NodeError> {
        reaction.outcome?;
        for (conn, message) in reaction.out.items.into_vec() {
            self.pass::<W>(alloc, conn, message, sent)?;
        }
        Ok(())
    }
}

impl Node for Farm {
    ghost on_event = { λ old event sent outcome new. Unit {0} };

    fn on_up(&mut self, alloc: Global, local: NodeNo, peer: NodeNo, conn: ConnId) -> Reaction {
        self.ups = self.ups.saturating_add(1);
        self.relay.on_up(alloc, local, peer, conn)
    }

    fn on_message<W: Wire>(&mut self, alloc: Global, conn: ConnId, message: Message) -> Reaction {
        let first = Node::on_message::<W>(&mut self.relay, alloc, conn, message);
        let mut sent = Vec::new(alloc);
        let outcome = self.forward::<W>(alloc, first, &mut sent);
        let out = Out {
            items: Listing::from_vec(sent),
        };
        Reaction { out, outcome }
    }

    fn on_leaving(&mut self, alloc: Global, _conn: ConnId) -> Reaction {
        Reaction::nothing(alloc)
    }

    fn on_lost<W: Wire>(&mut self, alloc: Global, conn: ConnId) -> Reaction {
        self.lost = self.lost.saturating_add(1);
        self.relay.on_lost::<W>(alloc, conn)
    }

    fn on_tick<W: Wire>(&mut self, alloc: Global, _moment: Moment) -> Reaction {
        Reaction::nothing(alloc)
    }

    fn on_wake<W: Wire>(&mut self, alloc: Global) -> Reaction {
        Reaction::nothing(alloc)
    }
}
