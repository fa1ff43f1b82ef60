//! Connections that the nodes of a process make.

ghost use Rattle.std.specs.Prelude.{◌≡◌, map};
ghost use Rattle.farm_event_loop.specs.Dialing.{ended_on, wait_after};

use super::Live;
use crate::coming::names_for;
use crate::dial::{Dial, end_on, wait_after};
use crate::half::{Half, halves};
use crate::kind::Kind;
use crate::rejected::rejected_on;
use crate::tell;
use crate::tell::Named;
use crate::telling::{pair_of, tell_refused};
use crate::why::Why;
use dia_base::{ConnId, Moment};
use farm_access::Access;
use farm_base::Site;
use farm_endpoints::socket_of;
use farm_net::Counted;
use farm_node::Node;
use farm_watch::DisconnectCause;
use log::Log;
use mio::net::TcpStream;
use std::alloc::Global;
use std::io;
use std::net::{Net, SocketAddr};

/// Begins to connect to this address: the reader and the writer, and the port here, which both ends see. 0 where that cannot
/// be known.
fn begin<O: Net>(os: &O, alloc: Global, address: SocketAddr) -> io::Result<(Half, Half, u16)> {
    let stream = TcpStream::connect(os, address)?;
    let port = match stream.local_addr() {
        Ok(own) => own.port(),
        Err(_) => 0,
    };
    let (reader, writer) = halves(alloc, stream, None)?;
    Ok((reader, writer, port))
}

impl<N: Node + Drop> Live<N> {
    /// Makes the connections that are due.
    pub(super) fn dial_all<O: Net, L: Log>(
        &mut self,
        os: &O,
        log: &L,
        site: &Site,
        access: &Access,
        moment: Moment,
    ) {
        for place in 0..self.dials.len() {
            let Some(dial) = self.dials.get(place) else {
                continue;
            };
            let dial = *dial;
            if dial.is_due(moment) {
                let state = self.dial_one(os, log, site, access, dial, moment);
                if let Some(dial) = self.dials.get_mut(place) {
                    match state {
                        Some(conn) => dial.make(conn),
                        None => dial.fail(moment, self.interval),
                    }
                }
                if state.is_none() {
                    self.serving.count_dial_failed();
                }
            }
        }
    }

    /// Makes a connection: its number, or none where that has failed at once.
    fn dial_one<O: Net, L: Log>(
        &mut self,
        os: &O,
        log: &L,
        site: &Site,
        access: &Access,
        dial: Dial,
        moment: Moment,
    ) -> Option<ConnId> {
        let address = socket_of(site, dial.peer)?;
        let (reader, writer, port) = match begin(os, self.alloc, address) {
            Ok(begun) => begun,
            Err(error) => {
                tell::not_made(log, pair_of(site, &dial), &error);
                return None;
            }
        };
        match self.serving.connect(
            dial.local,
            dial.peer,
            names_for(access, dial.peer),
            Counted::new(reader),
            Counted::new(writer),
            moment,
        ) {
            Ok(conn) => {
                self.serving
                    .record_dial(conn, dial.local, dial.peer, u64::from(port));
                let node = Named {
                    site,
                    node: dial.local,
                };
                self.register(log, node, conn);
                Some(conn)
            }
            Err(refused) => {
                tell::not_begun(log, pair_of(site, &dial), refused.why);
                None
            }
        }
    }

    /// Lets the connections go that have ended: those that this process has made are made again later, by why their other end
    /// has said goodbye, if it has.
    pub(super) fn let_go<L: Log>(&mut self, log: &L, site: &Site, access: &Access, moment: Moment) {
        for _ in 0..self.serving.count() {
            let Some(ended) = self.serving.take_ended(moment) else {
                return;
            };
            let why = Why::of(ended.why, ended.farewell, &ended.streams);
            let rejected = rejected_on(self.alloc, site, access, &ended);
            tell_refused(log, &mut self.limits, site, &ended, rejected, why, moment);
            if ended.peer.is_none() {
                self.tell_not_up(log, site, ended.conn, why, moment);
            }
            self.make_again(ended.conn, ended.farewell, moment);
        }
    }

    /// Tells why the node at the other end of a connection that this process has made did not come up, unless the log has told it.
    fn tell_not_up<L: Log>(
        &mut self,
        log: &L,
        site: &Site,
        conn: ConnId,
        why: Why,
        moment: Moment,
    ) {
        for dial in &self.dials {
            if dial.is_made(conn)
                && !dial.is_explained
                && self.limits.admit(Kind::NotMade, Some(dial.peer), moment)
            {
                tell::not_up(log, pair_of(site, dial), why);
            }
        }
    }

    /// What was made under the number of a connection that has ended is made again later.
    fn make_again(&mut self, conn: ConnId, farewell: Option<DisconnectCause>, moment: Moment)
        ensures { self.new.dials.items ≡ map (ended_on conn moment (wait_after farewell self.old.interval)) self.old.dials.items }
    {
        let wait = wait_after(farewell, self.interval);
        end_on(&mut self.dials, conn, moment, wait);
    }
}
