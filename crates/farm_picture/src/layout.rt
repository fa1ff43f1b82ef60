//! Places: of the columns, one for each node that takes part, and of the rows, one for each step.

use crate::flights::{Ended, Flight, FlightEnd};
use crate::notes::Note;
use crate::timeline::{Event, Row, Timeline};
use dia_base::{NodeKind, NodeNo};
use farm_world::Site;
use std::alloc::{AllocError, Global};

/// From one line to the next.
pub const LINE: usize = 19;

/// The part of a gap on either side that is for the lines of messages that leave a node.
pub const BAND: usize = 34;

/// What a character takes, rounded up.
const CHARACTER: usize = 7;

const FIRST_COLUMN: usize = 190;

const FIRST_ROW: usize = 58;

/// The most characters of a node's name that are shown.
const NAME_LIMIT: usize = 20;

/// The least room behind a column.
const LEAST_GAP: usize = 150;

/// A node that takes part, and the place of its line.
#[derive(Clone, Copy)]
pub struct Column {
    pub node: NodeNo,
    pub x: usize,
}

/// Where everything stands.
#[derive(Drop)]
pub struct Layout {
    /// Clients, then relays, then fronts.
    pub columns: Vec<Column>,
    /// The heights of the rows.
    rows: Vec<usize>,
    /// The height below the last row.
    pub below: usize,
    /// The right edge of what stands at the columns.
    pub right: usize,
}

impl Layout {
    /// Where the line of a node stands. None for a node without a column.
    pub fn x_of(&self, node: NodeNo) -> Option<usize> {
        let place = place_of(&self.columns, node)?;
        self.columns.get(place).map(|column| column.x)
    }

    /// The height of a row, and of the lines below it, which count from 1.
    pub fn y_of(&self, row: usize, line: usize) -> usize {
        let top = self.rows.get(row).copied().unwrap_or(self.below);
        top.saturating_add(line.saturating_mul(LINE))
    }

    /// The lines on both sides of the gap in which the label of a message stands.
    pub fn gap_of(&self, flight: &Flight) -> Option<(usize, usize)> {
        let place = label_gap(&self.columns, flight)?;
        let left = self.columns.get(place)?;
        let right = self.columns.get(place.saturating_add(1))?;
        Some((left.x, right.x))
    }
}

/// Places the columns and rows of a run with these notes.
pub fn layout_of(
    alloc: Global,
    site: &Site,
    timeline: &Timeline,
    notes: &[Note],
) -> Result<Layout, AllocError> {
    let mut columns = Vec::new(alloc);
    for kind in [NodeKind::Client, NodeKind::Relay, NodeKind::Front] {
        push_columns(&mut columns, site, timeline, kind)?;
    }
    let right = spread(&mut columns, timeline, notes);
    let mut rows = Vec::new(alloc);
    let below = push_rows(&mut rows, &timeline.rows)?;
    Ok(Layout {
        columns,
        rows,
        below,
        right,
    })
}

/// Adds a column for each node of this kind that takes part.
fn push_columns(
    columns: &mut Vec<Column>,
    site: &Site,
    timeline: &Timeline,
    kind: NodeKind,
) -> Result<(), AllocError> {
    for (place, node) in site.nodes.as_slice().iter().enumerate() {
        if let Ok(number) = u32::try_from(place) {
            if node.kind == kind && takes_part(timeline, NodeNo(number)) {
                columns.push(Column {
                    node: NodeNo(number),
                    x: FIRST_COLUMN,
                })?;
            }
        }
    }
    Ok(())
}

fn takes_part(timeline: &Timeline, node: NodeNo) -> bool {
    timeline
        .flights()
        .iter()
        .any(|flight| flight.from == node || flight.to == node)
        || timeline.rows.iter().any(|row| concerns(&row.event, node) || ends_at(&row.ended, node))
}

/// Whether an end of a connection at this node, or at the node that it was with, is gone.
fn ends_at(ended: &Ended, node: NodeNo) -> bool {
    let mut gone = ended.connections.iter().chain(ended.ends.iter());
    gone.any(|(a, b)| *a == node || *b == node)
}

fn concerns(event: &Event, node: NodeNo) -> bool {
    match event {
        Event::Connected { a, b } => *a == node || *b == node,
        Event::Learned { node: at, peer } => *at == node || *peer == node,
        Event::At { node: at, .. } => *at == node,
        Event::Skipped | Event::Plain => false,
    }
}

/// Gives each column its place, so that what stands behind it has room. The answer is the right edge.
fn spread(columns: &mut [Column], timeline: &Timeline, notes: &[Note]) -> usize {
    let mut x = FIRST_COLUMN;
    for place in 0..columns.len() {
        let room = room_behind(columns, timeline, notes, place);
        if let Some(column) = columns.get_mut(place) {
            column.x = x;
        }
        x = x.saturating_add(room);
    }
    x
}

/// The room for labels and notes behind the column at this place.
fn room_behind(columns: &[Column], timeline: &Timeline, notes: &[Note], place: usize) -> usize {
    let labels = timeline
        .flights()
        .iter()
        .filter(|flight| label_gap(columns, flight) == Some(place))
        .map(|flight| flight.label.words.len())
        .max()
        .unwrap_or(0);
    let node = columns.get(place).map(|column| column.node);
    let words = notes
        .iter()
        .filter(|note| Some(note.node) == node)
        .map(|note| note.words.len())
        .max()
        .unwrap_or(0);
    LEAST_GAP
        .max(width_of(labels).saturating_add(2 * BAND))
        .max(width_of(words).saturating_add(BAND))
}

/// What so many characters take.
pub fn width_of(characters: usize) -> usize {
    characters.saturating_mul(CHARACTER)
}

fn place_of(columns: &[Column], node: NodeNo) -> Option<usize> {
    columns.iter().position(|column| column.node == node)
}

/// The place of the column behind which the label of a message stands: before the node that it comes to,
/// or beside that which sent it where it does not arrive.
fn label_gap(columns: &[Column], flight: &Flight) -> Option<usize> {
    let from = place_of(columns, flight.from)?;
    let to = place_of(columns, flight.to)?;
    let arrives = matches!(flight.end, FlightEnd::Arrived { .. });
    match (arrives, from < to) {
        (true, true) => Some(to.saturating_sub(1)),
        (true, false) => Some(to),
        (false, true) => Some(from),
        (false, false) => Some(from.saturating_sub(1)),
    }
}

/// Adds the height of each row. The answer is the height below the last one.
fn push_rows(heights: &mut Vec<usize>, rows: &[Row]) -> Result<usize, AllocError> {
    let mut y = FIRST_ROW;
    for row in rows {
        heights.push(y)?;
        y = y.saturating_add(row.ended.messages.saturating_add(1).saturating_mul(LINE));
    }
    Ok(y)
}

/// The name of a node, or the beginning of a long one.
pub fn name_of(alloc: Global, site: &Site, node: NodeNo) -> Result<Vec<u8>, AllocError> {
    match site.nodes.as_slice().get(node.0 as usize) {
        Some(node) => beginning(alloc, node.name.as_slice()),
        None => Ok(Vec::new(alloc)),
    }
}

fn beginning(alloc: Global, name: &[u8]) -> Result<Vec<u8>, AllocError> {
    let (front, rest) = name.split_at(name.len().min(NAME_LIMIT));
    let mut shown = Vec::from_slice(alloc, front)?;
    if !rest.is_empty() {
        shown.extend_from_slice(b"..")?;
    }
    Ok(shown)
}
