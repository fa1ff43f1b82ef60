//! The connections of a process on which requests go out, and which others are read meanwhile.

ghost use Rattle.std.specs.Prelude.{◌≡◌, ◌<◌, ◌||◌, not};
ghost use Rattle.farm_event_loop.specs.Pausing.{makes_wait, sends_requests};

use crate::pause::{Pause, Traffic, is_behind, traffic_on};
use crate::share::{Shares, room_left};
use dia_base::{ConnId, Moment, NodeKind, NodeNo};
use farm_base::Site;
use farm_connections::{Link, Serving, Standing};
use farm_net::Device;
use farm_node::Node;
use std::alloc::{AllocError, Global};
use std::io::{Read, Write};

/// The connections on which requests go out, as they were at the turn's beginning, and how many of them are behind.
#[derive(Drop)]
pub struct Outgoing {
    conns: Vec<ConnId>,
    pause: Pause,
    /// How many requests each connection may have open.
    shares: Shares,
    /// Whether no new request is taken.
    drains: bool,
}

/// What a node of the site is.
fn kind_of(site: &Site, node: NodeNo) -> Option<NodeKind> {
    let node = site.nodes.as_slice().get(node.0 as usize)?;
    Some(node.kind)
}

/// What a connection brings. One of a node that the site has not brings nothing that anybody would wait for.
fn traffic_of<R, W>(site: &Site, link: &Link<R, W>) -> Traffic {
    let Some(local) = kind_of(site, link.local) else {
        return Traffic::Answers;
    };
    let peer = match link.standing {
        Standing::Up { peer } => kind_of(site, peer),
        Standing::Waiting | Standing::Over { .. } => None,
    };
    traffic_on(local, peer)
}

/// Whether requests go out on a connection that brings this.
fn sends_requests(traffic: Traffic) -> bool
    ensures { result ≡ sends_requests traffic }
{
    match traffic {
        Traffic::Answers | Traffic::Both => true,
        Traffic::Requests => false,
    }
}

/// Whether a connection that brings this is read: where no new request is taken, not one that brings requests alone.
fn takes(drains: bool, traffic: Traffic) -> bool
    ensures { result ≡ (not drains || sends_requests traffic) }
{
    !drains || sends_requests(traffic)
}

/// Whether others wait while this connection is behind. One that has ended makes nobody wait.
fn makes_wait<R: Read + Device, W: Write + Device>(link: &Link<R, W>) -> bool
    ensures { result ≡ makes_wait link.now }
{
    link.end.is_none() && is_behind(link.conn.unsent())
}

impl Outgoing {
    /// None at this moment. The interval is that of the watchdog, in milliseconds.
    pub fn new(alloc: Global, interval: u32, moment: Moment) -> Self {
        Outgoing {
            conns: Vec::new(alloc),
            pause: Pause::new(interval, moment),
            shares: Shares::none(alloc),
            drains: false,
        }
    }

    /// Whether no new request is taken from now on: what brings requests alone is not read.
    pub fn set_draining(&mut self, drains: bool)
        ensures { self.new ≡ record self.old { drains = drains } }
    {
        self.drains = drains;
    }

    /// Whether no new request is taken.
    pub fn drains(&self) -> bool
        ensures { result ≡ self.now.drains }
    {
        self.drains
    }

    /// From now on connections have these shares.
    pub fn share(&mut self, shares: Shares) {
        self.shares = shares;
    }

    /// Finds them: to be called at the beginning of a turn.
    pub fn find<N: Node, R: Read + Device, W: Write + Device>(
        &mut self,
        site: &Site,
        serving: &Serving<N, R, W>,
    ) -> Result<(), AllocError> {
        self.conns.clear();
        for link in serving.links() {
            if link.end.is_none() && sends_requests(traffic_of(site, link)) {
                self.conns.push(link.id)?;
            }
        }
        Ok(())
    }

    /// Looks how many of them are behind at this moment, and keeps when none was for the last time: to be called before it is asked
    /// whether one is read.
    pub fn look<N: Node, R: Read + Device, W: Write + Device>(
        &mut self,
        serving: &Serving<N, R, W>,
        moment: Moment,
    )
        ensures none { self.new.pause.behind ≡ 0 → self.new.pause.since ≡ moment }
        ensures some { 0 < self.new.pause.behind → self.new.pause.since ≡ self.old.pause.since }
        ensures patience { self.new.pause.patience ≡ self.old.pause.patience }
        ensures only { self.new ≡ record self.old { pause = self.new.pause } }
    {
        let mut behind: usize = 0;
        for conn in &self.conns {
            if serving.link(*conn).is_some_and(|link| makes_wait(link)) {
                behind = behind.saturating_add(1);
            }
        }
        self.pause.behind = behind;
        if behind == 0 {
            self.pause.since = moment;
        }
    }

    /// How many messages are read at most of a connection at this moment, which was not read since another: none where it has to
    /// wait ([`Pause::may_read`], [`room_left`]), or brings requests alone while none is taken. One that is gone brings nothing.
    pub fn most_on<N: Node, R: Read + Device, W: Write + Device>(
        &self,
        site: &Site,
        serving: &Serving<N, R, W>,
        conn: ConnId,
        since: Moment,
        moment: Moment,
    ) -> usize {
        let Some(link) = serving.link(conn) else {
            return usize::MAX;
        };
        let traffic = traffic_of(site, link);
        if !takes(self.drains, traffic) {
            return 0;
        }
        if !self.pause.may_read(traffic, link.conn.unsent(), moment) {
            return 0;
        }
        let share = self.shares.share(link.local);
        room_left(traffic, share, link.open, self.pause.is_over(since, moment))
    }
}
