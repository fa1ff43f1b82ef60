//! The lines of messages.

use crate::flights::{Flight, FlightEnd};
use crate::layout::{BAND, LINE, Layout};
use crate::svg::Point;
use std::alloc::{AllocError, Global};

/// The most messages that are drawn as still on their way.
const IN_FLIGHT_LIMIT: usize = 8;

/// How the line of a message ends.
#[derive(Clone, Copy)]
pub enum Tip {
    Arrow { rightwards: bool },
    Cross,
    /// It is still on its way.
    Air,
}

/// The line of a message: it falls from where the message was sent to the height where it ends, and goes
/// on there.
#[derive(Clone, Copy)]
pub struct Way {
    /// The place of the message among the flights.
    pub flight: usize,
    pub start: Point,
    pub bend: Point,
    pub end: Point,
    pub tip: Tip,
    /// The middle of its label.
    pub label: Point,
}

/// The lines of all messages.
#[derive(Drop)]
pub struct Ways {
    pub drawn: Vec<Way>,
    /// How many messages that are still on their way have no line.
    pub left_out: usize,
}

impl Ways {
    /// The height below all of them and the rows.
    pub fn bottom(&self, layout: &Layout) -> usize {
        self.drawn
            .iter()
            .map(|way| way.end.y.saturating_add(LINE))
            .max()
            .unwrap_or(0)
            .max(layout.below)
    }
}

/// The lines of the messages.
pub fn ways_of(alloc: Global, layout: &Layout, flights: &[Flight]) -> Result<Ways, AllocError> {
    let mut drawn = Vec::new(alloc);
    let mut in_flight = 0usize;
    for (place, flight) in flights.iter().enumerate() {
        let is_in_flight = matches!(&flight.end, FlightEnd::InFlight);
        if is_in_flight {
            in_flight = in_flight.saturating_add(1);
        }
        if !is_in_flight || in_flight <= IN_FLIGHT_LIMIT {
            if let Some(way) = way_of(layout, place, flight, in_flight) {
                drawn.push(way)?;
            }
        }
    }
    Ok(Ways {
        drawn,
        left_out: in_flight.saturating_sub(IN_FLIGHT_LIMIT),
    })
}

/// The line of a message, where it is the one of this number among those that are still on their way.
fn way_of(layout: &Layout, place: usize, flight: &Flight, number: usize) -> Option<Way> {
    let from = layout.x_of(flight.from)?;
    let to = layout.x_of(flight.to)?;
    let (left, right) = layout.gap_of(flight)?;
    let rightwards = from < to;
    let y = height_of_end(layout, flight.end, number);
    let far = if rightwards {
        right.saturating_sub(BAND / 2)
    } else {
        left.saturating_add(BAND / 2)
    };
    let (x, tip) = match flight.end {
        FlightEnd::Arrived { .. } => (to, Tip::Arrow { rightwards }),
        FlightEnd::Lost { .. } => (far, Tip::Cross),
        FlightEnd::InFlight => (far, Tip::Air),
    };
    let bend = if rightwards {
        from.saturating_add(BAND)
    } else {
        from.saturating_sub(BAND)
    };
    let middle = left.saturating_add(right) / 2;
    Some(Way {
        flight: place,
        start: Point::new(from, layout.y_of(flight.sent, 0)),
        bend: Point::new(bend, y),
        end: Point::new(x, y),
        tip,
        label: Point::new(middle, y.saturating_sub(5)),
    })
}

fn height_of_end(layout: &Layout, end: FlightEnd, number: usize) -> usize {
    match end {
        FlightEnd::Arrived { row } => layout.y_of(row, 0),
        FlightEnd::Lost { row, line } => layout.y_of(row, line),
        FlightEnd::InFlight => layout.y_of(usize::MAX, number),
    }
}
