//! Messages on their way: at which step each was put in flight, and at which it arrived or was lost.

use crate::labels::{Label, MessageKind, label_of};
use dia_base::{ConnId, NodeNo};
use dia_message::Message;
use farm_world::Direction;
use std::alloc::{AllocError, Global};

/// How the way of a message ended. Rows count the steps from 0.
#[derive(Clone, Copy)]
pub enum FlightEnd {
    Arrived { row: usize },
    /// It was lost. Those that one row lost with their connection have lines below that row, from 1 on.
    Lost { row: usize, line: usize },
    /// It is still on its way.
    InFlight,
}

/// The way of a message over one connection.
#[derive(Drop)]
pub struct Flight {
    pub from: NodeNo,
    pub to: NodeNo,
    pub label: Label,
    /// The row at which it was put in flight.
    pub sent: usize,
    pub end: FlightEnd,
}

/// One direction of a connection, with what is in flight in it: places in the list of flights.
#[derive(Drop)]
struct Lane {
    conn: ConnId,
    from: NodeNo,
    to: NodeNo,
    flights: Vec<usize>,
}

impl Lane {
    fn is_of(&self, direction: &Direction) -> bool {
        self.conn == direction.conn && self.from == direction.from && self.to == direction.to
    }

    fn is_back_of(&self, other: &Lane) -> bool {
        self.conn == other.conn && self.from == other.to && self.to == other.from
    }
}

/// What ended with connections at one row.
#[derive(Drop)]
pub struct Ended {
    /// The two nodes of each connection that both have dropped now.
    pub connections: Vec<(NodeNo, NodeNo)>,
    /// The node that alone has dropped a connection now, and the node at its other end.
    pub ends: Vec<(NodeNo, NodeNo)>,
    /// How many messages were lost with them.
    pub messages: usize,
}

/// All flights of a run so far, beside the directions of the farm.
#[derive(Drop)]
pub struct Flights {
    lanes: Vec<Lane>,
    all: Vec<Flight>,
}

/// Whether the direction of a lane stands: the node that it goes to has not dropped the connection.
fn stands(directions: &[Direction], lane: &Lane) -> bool {
    directions.iter().any(|direction| lane.is_of(direction))
}

impl Flights {
    /// Nothing is in flight.
    pub fn new(alloc: Global) -> Self {
        Flights {
            lanes: Vec::new(alloc),
            all: Vec::new(alloc),
        }
    }

    /// The flights, in the order in which they began.
    pub fn all(&self) -> &[Flight] {
        &self.all
    }

    /// The kind of the message that was put in flight last, where that was at this row.
    pub fn last_sent(&self, row: usize) -> Option<MessageKind> {
        match self.all.last() {
            Some(flight) if flight.sent == row => Some(flight.label.kind),
            _ => None,
        }
    }

    /// The message at this place of those from one node to the other ends its way so.
    pub fn end_one(&mut self, from: NodeNo, to: NodeNo, place: u64, end: FlightEnd) {
        if let Some(flight) = self.take_off(from, to, place) {
            self.end(flight, end);
        }
    }

    fn take_off(&mut self, from: NodeNo, to: NodeNo, place: u64) -> Option<usize> {
        let at = self
            .lanes
            .iter()
            .position(|lane| lane.from == from && lane.to == to)?;
        let lane = self.lanes.get_mut(at)?;
        if place >= lane.flights.len() as u64 {
            return None;
        }
        Some(lane.flights.remove(place as usize))
    }

    fn end(&mut self, flight: usize, end: FlightEnd) {
        if let Some(flight) = self.all.get_mut(flight) {
            flight.end = end;
        }
    }

    /// The messages to nodes that have dropped their connection are lost at this row.
    pub fn end_with_connections(
        &mut self,
        alloc: Global,
        directions: &[Direction],
        row: usize,
    ) -> Result<Ended, AllocError> {
        let mut connections = Vec::new(alloc);
        let mut ends = Vec::new(alloc);
        let mut lost = Vec::new(alloc);
        for lane in &self.lanes {
            if !stands(directions, lane) {
                lost.extend_from_slice(&lane.flights)?;
                if !self.ends_with(directions, lane) {
                    ends.push((lane.to, lane.from))?;
                } else if lane.from <= lane.to {
                    connections.push((lane.from, lane.to))?;
                }
            }
        }
        self.lanes.retain(|lane| stands(directions, lane));
        for (place, flight) in lost.iter().enumerate() {
            let line = place.saturating_add(1);
            self.end(*flight, FlightEnd::Lost { row, line });
        }
        Ok(Ended {
            connections,
            ends,
            messages: lost.len(),
        })
    }

    /// Whether the lane back on the same connection ends now too.
    fn ends_with(&self, directions: &[Direction], lane: &Lane) -> bool {
        self.lanes
            .iter()
            .any(|back| back.is_back_of(lane) && !stands(directions, back))
    }

    /// What the directions hold beyond what is known of them was put in flight at this row.
    pub fn begin(
        &mut self,
        alloc: Global,
        directions: &[Direction],
        row: usize,
    ) -> Result<(), AllocError> {
        for direction in directions {
            let at = self.lane_of(alloc, direction)?;
            let known = self.lanes.get(at).map_or(0, |lane| lane.flights.len());
            if let Some(joined) = direction.messages.as_slice().get(known..) {
                self.put_all(alloc, at, joined, row)?;
            }
        }
        Ok(())
    }

    /// The place of a direction's lane, which is made where there is none.
    fn lane_of(&mut self, alloc: Global, direction: &Direction) -> Result<usize, AllocError> {
        if let Some(at) = self.lanes.iter().position(|lane| lane.is_of(direction)) {
            return Ok(at);
        }
        self.lanes.push(Lane {
            conn: direction.conn,
            from: direction.from,
            to: direction.to,
            flights: Vec::new(alloc),
        })?;
        Ok(self.lanes.len().saturating_sub(1))
    }

    fn put_all(
        &mut self,
        alloc: Global,
        at: usize,
        messages: &[Message],
        row: usize,
    ) -> Result<(), AllocError> {
        for message in messages {
            let label = label_of(alloc, message)?;
            self.put(at, label, row)?;
        }
        Ok(())
    }

    fn put(&mut self, at: usize, label: Label, row: usize) -> Result<(), AllocError> {
        let place = self.all.len();
        let Some(lane) = self.lanes.get_mut(at) else {
            return Ok(());
        };
        lane.flights.push(place)?;
        self.all.push(Flight {
            from: lane.from,
            to: lane.to,
            label,
            sent: row,
            end: FlightEnd::InFlight,
        })?;
        Ok(())
    }
}
