//! Connections that others make to the nodes of a process.

use super::Live;
use crate::coming::barred_on;
use crate::half::halves;
use crate::kind::Kind;
use crate::sockets::{Callers, callers_after, token_of};
use crate::tell;
use crate::tell::{At, Named};
use dia_base::{ConnId, Moment, NodeNo};
use farm_access::{Access, canonical};
use farm_base::Site;
use farm_connections::Refusal;
use farm_net::Counted;
use farm_node::Node;
use log::Log;
use mio::net::TcpStream;
use std::net::{IpAddr, SocketAddr};

/// The most connections that are taken of one listener in a turn.
const ACCEPT_LIMIT: u32 = 64;

impl<N: Node + Drop> Live<N> {
    /// Takes the connections that wait at listeners.
    pub(super) fn accept_all<L: Log>(
        &mut self,
        log: &L,
        site: &Site,
        access: &Access,
        moment: Moment,
    ) {
        for place in 0..self.sockets.listeners.len() {
            for _ in 0..ACCEPT_LIMIT {
                if !self.accept_one(log, site, access, place, moment) {
                    break;
                }
            }
        }
    }

    /// Takes one connection of a listener; whether there may be another one.
    fn accept_one<L: Log>(
        &mut self,
        log: &L,
        site: &Site,
        access: &Access,
        place: usize,
        moment: Moment,
    ) -> bool {
        let Some(listening) = self.sockets.listeners.get_mut(place) else {
            return false;
        };
        if !listening.callers.may_wait(moment) {
            return false;
        }
        let local = listening.local;
        match listening.listener.accept() {
            Ok((stream, peer)) => {
                self.take(log, site, access, local, stream, peer, moment);
                true
            }
            Err(error) => {
                listening.callers = callers_after(error.kind(), moment);
                let may_wait = listening.callers.may_wait(moment);
                if let Callers::From { .. } = listening.callers {
                    let node = Named { site, node: local };
                    tell::failed(log, node, "a connection cannot be accepted", &error);
                }
                may_wait
            }
        }
    }

    /// Takes a connection that somebody has made to a node of this process, from this socket. One from where no node may
    /// come is closed, and nothing is read of it.
    fn take<L: Log>(
        &mut self,
        log: &L,
        site: &Site,
        access: &Access,
        local: NodeNo,
        stream: TcpStream,
        peer: SocketAddr,
        moment: Moment,
    ) {
        let address = canonical(peer.ip());
        let node = Named { site, node: local };
        if !access.admits(address) {
            self.serving.count_refused();
            if self.limits.admit(Kind::NotAdmitted, None, moment) {
                tell::not_admitted(log, node, address);
            }
            return;
        }
        let Ok(barred) = barred_on(self.alloc, site, access, local, address) else {
            self.tell_not_taken(log, node, address, Refusal::OutOfMemory, moment);
            return;
        };
        let (reader, writer) = match halves(self.alloc, stream, Some(address)) {
            Ok(both) => both,
            Err(_) => {
                self.tell_not_taken(log, node, address, Refusal::OutOfMemory, moment);
                return;
            }
        };
        match self.serving.accept(
            local,
            barred,
            Counted::new(reader),
            Counted::new(writer),
            moment,
        ) {
            Ok(conn) => {
                self.tell_taken(log, node, conn, address, moment);
                self.serving.record_taken(conn, u64::from(peer.port()));
                self.register(log, node, conn);
            }
            Err(refused) => self.tell_not_taken(log, node, address, refused.why, moment),
        }
    }

    /// Tells that a connection was taken.
    fn tell_taken<L: Log>(
        &mut self,
        log: &L,
        local: Named<'_>,
        conn: ConnId,
        address: IpAddr,
        moment: Moment,
    ) {
        if self.limits.admit(Kind::Taken, None, moment) {
            let origin = Some(address);
            tell::taken(
                log,
                At {
                    local,
                    conn,
                    origin,
                },
            );
        }
    }

    /// Counts one that was not taken, and tells of it.
    fn tell_not_taken<L: Log>(
        &mut self,
        log: &L,
        node: Named<'_>,
        address: IpAddr,
        why: Refusal,
        moment: Moment,
    ) {
        self.serving.count_refused();
        if self.limits.admit(Kind::NotTaken, None, moment) {
            tell::not_taken(log, node, address, why);
        }
    }

    /// Has a connection reported. Where that fails, nothing is heard of it, and it ends an interval later.
    pub(super) fn register<L: Log>(&mut self, log: &L, node: Named<'_>, conn: ConnId) {
        if let Some(link) = self.serving.link(conn) {
            let half = link.conn.reader().device();
            if let Err(error) = half.register(self.sockets.registry(), token_of(conn)) {
                tell::failed(log, node, "a connection cannot be watched", &error);
            }
        }
    }
}
