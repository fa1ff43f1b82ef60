//! The loop of a process: sockets, its node with its connections, and the time.

ghost use Rattle.std.specs.Prelude.{◌≡◌, [], IfOk, false, true};

mod accepting;
mod dialing;
mod listening;
mod reading;

use crate::causes::{Cause, Causes};
use crate::dial::{Dial, DialState};
use crate::fault::LoopFault;
use crate::limits::Limits;
use crate::outgoing::Outgoing;
use crate::share::Shares;
use crate::sockets::Sockets;
use crate::telling::{explain, tell_note};
use crate::turn_clock::TurnClock;
use crate::why::Why;
use crate::{Served, tell};
use dia_avp::ViewWire;
use dia_base::{Identity, Moment, NodeNo};
use farm_access::{Access, Strictness};
use farm_base::Site;
use farm_clock::Timer;
use farm_connections::{LocalNode, NOTE_LIMIT, Note, Serving};
use farm_endpoints::{Endpoint, socket_of};
use farm_metrics::{Micros, Sample, Trend};
use farm_node::Node;
use farm_record::{Event, Recorder};
use log::Log;
use reading::Unread;
use std::alloc::Global;
use std::net::{Net, SocketAddr};
use std::rt::Clock;

/// A node of this process that listens.
#[derive(Clone, Copy)]
pub struct Address {
    pub node: NodeNo,
    pub socket: SocketAddr,
}

/// A process that is nodes of a site: its sockets, and the node with its connections.
pub struct Live<N> {
    alloc: Global,
    pub serving: Served<N>,
    sockets: Sockets,
    dials: Vec<Dial>,
    /// The nodes that are to listen.
    addresses: Vec<Address>,
    listens: bool,
    /// Connections that were not read until they would wait at the turn before, and at this one.
    again: Vec<Unread>,
    later: Vec<Unread>,
    /// Which connections are read while requests wait to be written on others.
    outgoing: Outgoing,
    /// How many lines of the log there are lately.
    limits: Limits,
    /// How many lines of the log were missing when that was last told.
    dropped: u64,
    clock: TurnClock,
    /// What was counted lately.
    trend: Trend,
    /// Why neighbours were lost last.
    causes: Causes,
    interval: u32,
}

// By hand, so that each exit of an owner is proved with one call.
impl<N: Drop> Drop for Live<N> {
    fn drop(self) {
        let Live {
            alloc: _,
            serving: _,
            sockets: _,
            dials: _,
            addresses: _,
            listens: _,
            again: _,
            later: _,
            outgoing: _,
            limits: _,
            dropped: _,
            clock: _,
            trend: _,
            causes: _,
            interval: _,
        } = self;
    }
}

/// The connections that the nodes of a process make.
fn dials_of(alloc: Global, site: &Site, endpoints: &[Endpoint]) -> Result<Vec<Dial>, LoopFault> {
    let mut dials = Vec::new(alloc);
    for endpoint in endpoints {
        for peer in &endpoint.calls {
            let has_address = socket_of(site, *peer).is_some();
            dials.push(Dial::new(endpoint.node, *peer, has_address))?;
        }
    }
    Ok(dials)
}

/// Where the nodes at these endpoints listen, and what they know of their neighbours.
fn ends_of(
    alloc: Global,
    endpoints: Vec<Endpoint>,
) -> Result<(Vec<Address>, Vec<LocalNode>), LoopFault> {
    let mut addresses = Vec::with_capacity(alloc, endpoints.len())?;
    let mut locals = Vec::with_capacity(alloc, endpoints.len())?;
    for endpoint in endpoints {
        let node = endpoint.node;
        if let Some(socket) = endpoint.address {
            addresses.push(Address { node, socket })?;
        }
        locals.push(LocalNode {
            node,
            site: endpoint.watch,
        })?;
    }
    Ok((addresses, locals))
}

/// The names of the nodes of a site, by their numbers.
fn names_of(alloc: Global, site: &Site) -> Result<Vec<Identity>, LoopFault> {
    let mut names = Vec::new(alloc);
    for node in site.nodes.as_slice() {
        names.push(node.name.clone()?)?;
    }
    Ok(names)
}

impl<N: Node + Drop> Live<N> {
    /// The nodes at these endpoints, none of which is connected yet.
    pub fn new<O: Net + Clock>(
        os: &O,
        alloc: Global,
        site: &Site,
        node: N,
        endpoints: Vec<Endpoint>,
    ) -> Result<Self, LoopFault> {
        let sockets = Sockets::new(os, alloc)?;
        let timer = Timer::start(os)?;
        Live::over(os, alloc, site, sockets, node, endpoints, timer)
    }

    /// The same over sockets of which somebody has the waker. All moments are those of the timer.
    pub fn over<O: Clock>(
        os: &O,
        alloc: Global,
        site: &Site,
        sockets: Sockets,
        node: N,
        endpoints: Vec<Endpoint>,
        timer: Timer,
    ) -> Result<Self, LoopFault> {
        let clock = TurnClock::start(os, timer)?;
        let dials = dials_of(alloc, site, &endpoints)?;
        let (addresses, locals) = ends_of(alloc, endpoints)?;
        let limits = Limits::new(alloc, site.nodes.as_slice().len())?;
        Ok(Live {
            alloc,
            serving: Serving::new(alloc, node, locals),
            sockets,
            dials,
            addresses,
            listens: false,
            again: Vec::new(alloc),
            later: Vec::new(alloc),
            outgoing: Outgoing::new(alloc, site.watchdog, clock.moment()),
            limits,
            dropped: 0,
            clock,
            trend: Trend::nothing(alloc),
            causes: Causes::none(alloc),
            interval: site.watchdog,
        })
    }

    /// Nobody is to listen: a client does not.
    pub fn listens_nowhere(&mut self) {
        self.addresses.clear();
    }

    /// Where the site asks for fairness, a connection that brings requests alone has from now on no more of them open than its
    /// share of the room of its node ([`share_of`](crate::share_of)). While it has, one message of it is read in a second, or in half an
    /// interval of the watchdog, whichever is shorter.
    pub fn share_room(&mut self, site: &Site, strictness: Strictness) -> Result<(), LoopFault> {
        if strictness.fairness {
            let shares = Shares::of(self.alloc, site)?;
            self.outgoing.share(shares);
        }
        Ok(())
    }

    /// From now on it is recorded what happens, beginning with that a process begins, which is these nodes: one client, or
    /// others.
    pub fn begin_record<O: Clock>(
        &mut self,
        os: &O,
        site: &Site,
        nodes: Vec<NodeNo>,
        is_client: bool,
    ) -> Result<(), LoopFault> {
        let moment = self.begin_turn(os)?;
        let names = names_of(self.alloc, site)?;
        self.serving
            .begin_record(Recorder::on(self.alloc, names, is_client));
        self.serving.record_event(&Event::Begin { nodes, moment });
        Ok(())
    }

    /// The node, and what is recorded and not written yet. The sockets are closed.
    pub fn into_parts(self) -> (N, Recorder) {
        let Live {
            alloc: _,
            serving,
            sockets: _,
            dials: _,
            addresses: _,
            listens: _,
            again: _,
            later: _,
            outgoing: _,
            limits: _,
            dropped: _,
            clock: _,
            trend: _,
            causes: _,
            interval: _,
        } = self;
        serving.into_parts()
    }

    /// One turn, of which nothing is recorded.
    pub fn turn<O: Net + Clock, L: Log>(
        &mut self,
        os: &O,
        log: &L,
        site: &Site,
        access: &Access,
    ) -> Result<(), LoopFault> {
        let moment = self.hear(os, log, site, access)?;
        self.answer(os, log, site, access, moment)
    }

    /// The first half of a turn: waits 100 milliseconds at most, reads what is ready and need not wait for others, takes
    /// connections from where nodes may come, makes those that are due, and ends with one tick. Which nodes may come up on
    /// them is what the site says ([`Access::may_come_up`]). Nothing is written to a connection, so that what is recorded can
    /// be written before. The moment of the turn.
    pub fn hear<O: Net + Clock, L: Log>(
        &mut self,
        os: &O,
        log: &L,
        site: &Site,
        access: &Access,
    ) -> Result<Moment, LoopFault> {
        let before = self.clock.moment();
        self.outgoing.look(&self.serving, before);
        let at_once = self.may_not_wait(site, before);
        self.sockets.wait(at_once)?;
        let moment = self.begin_turn(os)?;
        self.outgoing.find(site, &self.serving)?;
        self.read_again(os, site, moment)?;
        for at in 0..self.sockets.ready.len() {
            if let Some(ready) = self.sockets.ready.get(at) {
                let ready = *ready;
                self.serve_one(os, site, ready, moment)?;
            }
        }
        if !self.outgoing.drains() {
            self.accept_all(log, site, access, moment);
        }
        self.dial_all(os, log, site, access, moment);
        self.set_clock(os)?;
        self.serving.tick::<ViewWire>(moment);
        self.keep_trend();
        Ok(moment)
    }

    /// The second half: each connection writes, those that have ended are let go, and the nodes listen, once it is time.
    pub fn answer<O: Net, L: Log>(
        &mut self,
        os: &O,
        log: &L,
        site: &Site,
        access: &Access,
        moment: Moment,
    ) -> Result<(), LoopFault>
        ensures { IfOk result (λ _. self.new.serving.desk.failed ≡ false) }
    {
        self.serving.write_all::<ViewWire>(moment);
        self.tell_notes(log, site, moment);
        self.let_go(log, site, access, moment);
        self.listen_where_due(os, log, site)?;
        if self.serving.has_failed() {
            return Err(LoopFault::OutOfMemory);
        }
        Ok(())
    }

    /// A turn begins: what happens in it is recorded with its moment, and counted from now on.
    fn begin_turn<O: Clock>(&mut self, os: &O) -> Result<Moment, LoopFault> {
        let now = self.clock.begin_turn(os)?;
        let moment = self.clock.moment();
        self.serving.begin_turn(moment);
        self.serving.set_clock(now);
        Ok(moment)
    }

    /// What is counted from now on happens now, which the clock is asked for unless the turn has just begun.
    fn set_clock<O: Clock>(&mut self, os: &O) -> Result<(), LoopFault> {
        if let Some(now) = self.clock.look(os)? {
            self.serving.set_clock(now);
        }
        Ok(())
    }

    /// Keeps what is counted by now, where ten seconds have passed.
    fn keep_trend(&mut self) {
        let now = self.serving.tally().clock();
        if self.trend.is_due(now) {
            self.trend.add(Sample::of(self.serving.tally(), now));
        }
    }

    /// What was counted during the last quarter of an hour.
    pub fn trend(&self) -> &Trend {
        &self.trend
    }

    /// The moment at which the last turn began.
    pub fn moment(&self) -> Moment {
        self.clock.moment()
    }

    /// What the clock of what is counted said last.
    pub fn clock(&self) -> Micros {
        self.serving.tally().clock()
    }

    /// Why a neighbour was lost last, if it was.
    pub fn cause_of(&self, local: NodeNo, peer: NodeNo) -> Option<Why> {
        self.causes.of(local, peer)
    }

    /// Keeps why a neighbour was lost, if a note is of that.
    fn keep_cause(&mut self, note: &Note) {
        if let Note::Lost { conn, peer, why } = note
            && let Some(link) = self.serving.link(*conn)
        {
            let cause = Cause {
                local: link.local,
                peer: *peer,
                why: Why::of(*why, link.farewell, &link.conn),
            };
            self.causes.set(cause);
        }
    }

    /// Whether a connection of its own has failed or ended.
    pub fn has_lost(&self) -> bool {
        self.dials.iter().any(|dial| match dial.state {
            DialState::Due { at } => at.0 > 0,
            DialState::Made { .. } | DialState::Nowhere => false,
        })
    }

    /// Whether a node of this process has connected to this one.
    pub fn is_connecting(&self, local: NodeNo, peer: NodeNo) -> bool {
        self.dials.iter().any(|dial| {
            dial.local.0 == local.0
                && dial.peer.0 == peer.0
                && match dial.state {
                    DialState::Made { .. } => true,
                    DialState::Due { .. } | DialState::Nowhere => false,
                }
        })
    }

    /// No new request is taken from now on, of clients and of relays that send to a front, and no connection: what is under way is
    /// answered. To be called before [`Live::close`], for no longer than an interval of the watchdog, since what is not read there may be
    /// a watchdog's request.
    pub fn drain(&mut self)
        ensures { self.new.outgoing.drains ≡ true }
    {
        self.outgoing.set_draining(true);
    }

    /// Each connection is to end in good order.
    pub fn close<O: Clock>(&mut self, os: &O) -> Result<(), LoopFault>
        ensures dials { IfOk result (λ _. self.new.dials.items ≡ []) }
        ensures addresses { IfOk result (λ _. self.new.addresses.items ≡ []) }
        ensures reads { IfOk result (λ _. self.new.outgoing.drains ≡ false) }
    {
        let moment = self.begin_turn(os)?;
        self.outgoing.set_draining(false);
        self.sockets.listeners.clear();
        self.addresses.clear();
        self.dials.clear();
        self.serving.close_all::<ViewWire>(moment);
        Ok(())
    }

    /// Tells what has happened.
    fn tell_notes<L: Log>(&mut self, log: &L, site: &Site, moment: Moment) {
        self.limits.tell_held(log, site, moment);
        for _ in 0..NOTE_LIMIT {
            let Some(note) = self.serving.take_note() else {
                return;
            };
            self.keep_cause(&note);
            explain(self.dials.as_mut_slice(), &note);
            tell_note(log, &mut self.limits, site, &self.serving, &note, moment);
        }
        let dropped = self.serving.notes_dropped();
        if self.dropped < dropped {
            tell::dropped(log, dropped - self.dropped);
            self.dropped = dropped;
        }
    }
}
