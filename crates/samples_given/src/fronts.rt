//! All fronts of a site as one node that charges in steps and starts no thread.

use crate::account_book::{ONE_ACCOUNT, book};
use cc_book::{Book, BookRefusal};
use dia_avp::Wire;
use dia_base::{ConnId, Identity, Listing, Moment, NodeNo};
use dia_message::{Message, Out};
use farm_node::{Node, NodeError, Reaction};
use front_core::{Front, FrontError};
use std::alloc::Global;

/// The most answers that a front gives at one message, or at one tick.
pub const ROUND_LIMIT: u32 = 64;

/// A front, and the node that it is.
#[derive(Drop)]
pub struct FrontAt {
    pub node: NodeNo,
    pub front: Front,
}

/// All fronts of a site in one process, with one book. Of each the worker 0 works: a request is picked as it comes,
/// charged at the moment of the last tick, and its answer goes out at once.
#[derive(Drop)]
pub struct Fronts {
    fronts: Vec<FrontAt>,
    book: Book,
    moment: Moment,
}

/// The worker that works.
const WORKER: u64 = 0;

/// The worker of a front picks a request, charges what it holds and sends its answer. None where it has nothing to do.
fn round<W: Wire>(
    alloc: Global,
    front: &mut Front,
    book: &mut Book,
    moment: Moment,
) -> Result<Option<Out>, FrontError> {
    front.pick(WORKER);
    front.charge::<W>(alloc, WORKER, book, moment)?;
    front.emit(alloc, WORKER)
}

/// The worker of a front works until it has nothing to do, or often enough. What it sends goes behind what is sent
/// before.
fn work<W: Wire>(
    alloc: Global,
    front: &mut Front,
    book: &mut Book,
    moment: Moment,
    sent: &mut Vec<(ConnId, Message)>,
) -> Result<(), FrontError> {
    for _ in 0..ROUND_LIMIT {
        sent.reserve(1)?;
        match round::<W>(alloc, front, book, moment)? {
            Some(out) => {
                if let Some(item) = out.items.into_vec().pop() {
                    sent.push_reserved(item);
                }
            }
            None => return Ok(()),
        }
    }
    Ok(())
}

impl Fronts {
    /// All fronts of a site, with their book. Until the first tick it is the moment 0.
    pub fn new(fronts: Vec<FrontAt>, book: Book) -> Self {
        Fronts {
            fronts,
            book,
            moment: Moment(0),
        }
    }

    /// The book.
    pub fn book(&self) -> &Book {
        &self.book
    }

    /// All workers work.
    fn work_all<W: Wire>(
        &mut self,
        alloc: Global,
        sent: &mut Vec<(ConnId, Message)>,
    ) -> Result<(), FrontError> {
        for at in self.fronts.iter_mut() {
            work::<W>(alloc, &mut at.front, &mut self.book, self.moment, sent)?;
        }
        Ok(())
    }
}

fn reaction(sent: Vec<(ConnId, Message)>, outcome: Result<(), NodeError>) -> Reaction {
    let out = Out {
        items: Listing::from_vec(sent),
    };
    Reaction { out, outcome }
}

/// What fronts do at an event is said here by no contract: each front does it by its own calls.
impl Node for Fronts {
    ghost on_event = { λ old event sent outcome new. Unit {0} };

    fn on_up(&mut self, alloc: Global, local: NodeNo, peer: NodeNo, conn: ConnId) -> Reaction {
        match self.fronts.iter().position(|at| at.node.0 == local.0) {
            Some(place) => self.fronts[place].front.on_up(alloc, local, peer, conn),
            None => Reaction::refuses(alloc, NodeError::UnknownNode { node: local }),
        }
    }

    fn on_message<W: Wire>(&mut self, alloc: Global, conn: ConnId, message: Message) -> Reaction {
        let Some(place) = self.fronts.iter().position(|at| at.front.is_up(conn)) else {
            return Reaction::refuses(alloc, NodeError::UnknownConn { conn });
        };
        let front = &mut self.fronts[place].front;
        let arrival = Node::on_message::<W>(front, alloc, conn, message);
        if arrival.outcome.is_err() {
            return arrival;
        }
        let mut sent = arrival.out.items.into_vec();
        let worked = work::<W>(alloc, front, &mut self.book, self.moment, &mut sent);
        reaction(sent, worked.map_err(NodeError::of_front))
    }

    fn on_leaving(&mut self, alloc: Global, _conn: ConnId) -> Reaction {
        Reaction::nothing(alloc)
    }

    fn on_lost<W: Wire>(&mut self, alloc: Global, conn: ConnId) -> Reaction {
        for at in self.fronts.iter_mut() {
            at.front.conn_lost(conn);
        }
        Reaction::nothing(alloc)
    }

    fn on_tick<W: Wire>(&mut self, alloc: Global, moment: Moment) -> Reaction {
        self.moment = moment;
        let mut sent = Vec::new(alloc);
        let worked = self.work_all::<W>(alloc, &mut sent);
        let swept = match self.book.sweep(moment) {
            Ok(_) => Ok(()),
            Err(BookRefusal::Full { limit }) => Err(NodeError::BookFull { limit }),
            Err(BookRefusal::OutOfMemory) => Err(NodeError::OutOfMemory),
        };
        reaction(sent, worked.map_err(NodeError::of_front).and(swept))
    }

    fn on_wake<W: Wire>(&mut self, alloc: Global) -> Reaction {
        Reaction::nothing(alloc)
    }
}

/// A front of this name in the realm ocs.example, with one worker and room for one request.
pub fn front(alloc: Global, name: &[u8], vendors: Listing<u32>) -> anyhow::Result<Front> {
    let name = Identity::read(alloc, name)?;
    let realm = Identity::read(alloc, b"ocs.example")?;
    Ok(Front::new(alloc, name, realm, vendors, 1, 1)?)
}

/// The fronts at these nodes, by their names.
fn fronts_at(alloc: Global, names: &[(NodeNo, &str)]) -> anyhow::Result<Vec<FrontAt>> {
    let mut fronts = Vec::new(alloc);
    for (node, name) in names {
        fronts.push(FrontAt {
            node: *node,
            front: front(alloc, name.as_bytes(), Listing::empty(alloc))?,
        })?;
    }
    Ok(fronts)
}

/// The fronts at these nodes, by their names, on one book of one account of 1000.
pub fn fronts_of(alloc: Global, names: &[(NodeNo, &str)]) -> anyhow::Result<Fronts> {
    let fronts = fronts_at(alloc, names)?;
    Ok(Fronts::new(fronts, book(alloc, &ONE_ACCOUNT, 10)?))
}
