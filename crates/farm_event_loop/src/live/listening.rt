//! Where the nodes of a process listen, and from when on.

ghost use Rattle.std.specs.Prelude.{◌≡◌};
ghost use Rattle.std.specs.List.{list_all};
ghost use Rattle.farm_event_loop.specs.Dialing.{is_tried};

use super::Live;
use crate::dial::are_tried;
use crate::fault::LoopFault;
use crate::tell;
use crate::tell::Named;
use farm_base::Site;
use farm_node::Node;
use log::Log;
use mio::net::TcpListener;
use std::net::Net;

impl<N: Node + Drop> Live<N> {
    /// Whether each connection of its own was tried.
    fn has_tried(&self) -> bool
        ensures { result ≡ list_all (is_tried self.now.serving.desk.links.items) self.now.dials.items }
    {
        are_tried(&self.dials, self.serving.links())
    }

    /// Listens, once each connection of its own has come up or failed.
    pub(super) fn listen_where_due<O: Net, L: Log>(
        &mut self,
        os: &O,
        log: &L,
        site: &Site,
    ) -> Result<(), LoopFault> {
        if self.listens || !self.has_tried() {
            return Ok(());
        }
        self.listens = true;
        for address in &self.addresses {
            let node = Named {
                site,
                node: address.node,
            };
            if let Err(error) = self.sockets.listen(os, address.node, address.socket) {
                return Err(LoopFault::listening(self.alloc, node, address.socket, error));
            }
            tell::listens(log, node, address.socket);
        }
        Ok(())
    }

    /// Whether the system lets each node listen at its address: it listens there, and lets go at once. A second process of a node
    /// that serves already is refused here, before it connects to a peer, which would take it for the first one.
    pub fn try_addresses<O: Net>(&self, os: &O, site: &Site) -> Result<(), LoopFault> {
        for address in &self.addresses {
            let node = Named {
                site,
                node: address.node,
            };
            if let Err(error) = TcpListener::bind(os, address.socket) {
                return Err(LoopFault::listening(self.alloc, node, address.socket, error));
            }
        }
        Ok(())
    }
}
