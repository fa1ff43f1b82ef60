//! Messages that arrive, and what nodes send then.

ghost use Rattle.farm_player.specs.Reconciling.{Stays};

use crate::fault::{Difference, PlayResult, found};
use crate::links::LinkPlayer;
use dia_base::NodeNo;
use dia_message::Message;
use record_reader::{NodeEvent, Position};
use record_state::{is_as_told, linked_with};
use std::alloc::AllocError;

impl<'s> LinkPlayer<'s> {
    /// Where the message is in flight that an event tells, which is the next one on its connection; none where it was not sent yet. A
    /// client without a record sends it then. `arrived`: how many of those in flight on the connection have arrived.
    pub fn next_place(
        &mut self,
        event: &NodeEvent,
        message: &Message,
        arrived: usize,
    ) -> PlayResult<Option<usize>>
        ensures stays { Stays self.old.played self.new.played }
    {
        let (position, end) = (event.position, event.end);
        if !self.connections.was_sent(end.conn) && self.played.is_silent(position, end.peer)? {
            self.played.send(position, end.peer, end.node, message)?;
            self.connections.set_sent(end.conn, true);
        }
        if self.played.is_front(end.peer) {
            return self.next_of_front(event, message);
        }
        match self.played.farm().flight(end.peer, end.node).get(arrived) {
            None => Ok(None),
            Some(sent) if sent == message => Ok(Some(arrived)),
            Some(_) => found(position, Difference::NotNext),
        }
    }

    /// The same of what a front has sent, which stands in flight in the book's order.
    fn next_of_front(&mut self, event: &NodeEvent, message: &Message) -> PlayResult<Option<usize>>
        ensures stays { Stays self.old.played self.new.played }
    {
        let (node, front) = (event.end.node, event.end.peer);
        let Some(sender) = self.connections.end_between(front, node) else {
            return Ok(None);
        };
        match self.connections.next_answer(sender) {
            None => return Ok(None),
            Some(sent) if sent == message => {}
            Some(_) => return found(event.position, Difference::NotNext),
        }
        let flight = self.played.farm().flight(front, node);
        let Some(place) = flight.iter().position(|sent| sent == message) else {
            return Ok(None);
        };
        self.connections.take_answer(sender);
        Ok(Some(place))
    }

    /// The message at this place of those in flight arrives at a relay or a client. What that sends is what its record tells.
    pub fn arrive(&mut self, event: &NodeEvent, message: &Message, place: usize) -> PlayResult<()>
        ensures stays { Stays self.old.played self.new.played }
    {
        let (node, peer) = (event.end.node, event.end.peer);
        if message.header.request {
            self.played.learn_start(event)?;
        }
        let before = self.flights_from(node)?;
        self.played.deliver(event.position, peer, node, place)?;
        self.compare_all(event, &before)
    }

    /// How many messages are in flight from a node to each of the nodes that it is linked with.
    pub(super) fn flights_from(&self, node: NodeNo) -> Result<Vec<(NodeNo, usize)>, AllocError> {
        let mut flights = Vec::new(self.alloc);
        for link in self.played.farm().site().links.as_slice() {
            if let Some(peer) = linked_with(link, node) {
                flights.push((peer, self.played.farm().flight(node, peer).len()))?;
            }
        }
        Ok(flights)
    }

    /// What the node of an event has sent since these were in flight from it is what its record tells.
    pub(super) fn compare_all(
        &mut self,
        event: &NodeEvent,
        before: &[(NodeNo, usize)],
    ) -> PlayResult<()>
        ensures stays { Stays self.old.played self.new.played }
    {
        for (peer, since) in before {
            self.compare(event, *peer, *since)?;
        }
        Ok(())
    }

    /// What the node of an event has sent to another one beyond so many messages is what its record tells. A client without a record
    /// receives it.
    pub fn compare(&mut self, event: &NodeEvent, peer: NodeNo, since: usize) -> PlayResult<()>
        ensures stays { Stays self.old.played self.new.played }
    {
        let (position, node) = (event.position, event.end.node);
        if !self.has_sent_as_told(event, peer, since) {
            return found(position, Difference::SentOtherwise);
        }
        self.played.hand_to_silent(position, node, peer, since)
    }

    fn has_sent_as_told(&self, event: &NodeEvent, peer: NodeNo, since: usize) -> bool {
        let node = event.end.node;
        if !self.played.farm().has_end(peer, node) {
            return true;
        }
        match self.played.farm().flight(node, peer).get(since..) {
            Some(sent) => is_as_told(&event.sent, peer, sent, event.is_last),
            None => is_as_told(&event.sent, peer, &[], event.is_last),
        }
    }
}
