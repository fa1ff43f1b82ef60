//! The picture of a run.

use crate::ending::ending_of;
use crate::flights::Flight;
use crate::labels::MessageKind;
use crate::layout::{Layout, layout_of, name_of, width_of};
use crate::notes::{Note, notes_of};
use crate::svg::{Anchor, Class, Point, Svg};
use crate::timeline::{Event, Row, Timeline};
use crate::ways::{Tip, Way, ways_of};
use dia_base::NodeNo;
use farm_world::Site;
use std::alloc::{AllocError, Global};

/// The height of the names of nodes.
const NAMES: usize = 26;

/// Where the line of a node begins.
const TOP: usize = 36;

/// The right edge of the numbers of steps.
const NUMBERS: usize = 36;

/// The left edge of their words.
const WORDS: usize = 44;

/// Between the words of a line and its middle.
const HALF: usize = 3;

/// From a line to the words above it.
const ABOVE: usize = 5;

/// From the line of a node to the words beside it.
const BESIDE: usize = 12;

/// The picture of a run, as the text of an SVG.
pub fn draw(alloc: Global, site: &Site, timeline: &Timeline) -> Result<String, AllocError> {
    let notes = notes_of(alloc, &timeline.accounts, &timeline.rows)?;
    let layout = layout_of(alloc, site, timeline, &notes)?;
    let ways = ways_of(alloc, &layout, timeline.flights())?;
    let ending = ending_of(alloc, timeline, ways.left_out)?;
    let bottom = ways.bottom(&layout);
    let width = width_of(ending.longest()).saturating_add(WORDS);
    let height = bottom.saturating_add(ending.height());
    let mut svg = Svg::new(alloc, width.max(layout.right), height)?;
    push_nodes(alloc, &mut svg, site, &layout, bottom)?;
    push_steps(alloc, &mut svg, &layout, &timeline.rows)?;
    push_connections(&mut svg, &layout, &timeline.rows)?;
    push_ways(&mut svg, &ways.drawn, timeline.flights())?;
    push_labels(&mut svg, &ways.drawn, timeline.flights())?;
    push_notes(&mut svg, &layout, &notes)?;
    ending.draw(&mut svg, bottom)?;
    svg.finish()
}

/// The names of the nodes, and their lines down to this height.
fn push_nodes(
    alloc: Global,
    svg: &mut Svg,
    site: &Site,
    layout: &Layout,
    bottom: usize,
) -> Result<(), AllocError> {
    for column in &layout.columns {
        let x = column.x;
        let name = name_of(alloc, site, column.node)?;
        svg.words(Class::Name, Anchor::Middle, Point::new(x, NAMES), &name)?;
        svg.line(Class::Life, &[Point::new(x, TOP), Point::new(x, bottom)])?;
    }
    Ok(())
}

/// The number and the word of each step.
fn push_steps(
    alloc: Global,
    svg: &mut Svg,
    layout: &Layout,
    rows: &[Row],
) -> Result<(), AllocError> {
    for (place, row) in rows.iter().enumerate() {
        let y = layout.y_of(place, 0).saturating_add(HALF);
        push_number(alloc, svg, row.number, y)?;
        let word = row.word;
        let skipped = if matches!(&row.event, Event::Skipped) {
            " (skipped)"
        } else {
            ""
        };
        let words = format!(in alloc; "{word}{skipped}")?;
        svg.words(
            Class::Note,
            Anchor::Start,
            Point::new(WORDS, y),
            words.as_bytes(),
        )?;
    }
    Ok(())
}

/// The number of a step, or a mark where the steps before stand.
fn push_number(
    alloc: Global,
    svg: &mut Svg,
    number: Option<usize>,
    y: usize,
) -> Result<(), AllocError> {
    let digits = match number {
        Some(number) => format!(in alloc; "{number}")?,
        None => String::from_str(alloc, "..")?,
    };
    svg.words(
        Class::Note,
        Anchor::End,
        Point::new(NUMBERS, y),
        digits.as_bytes(),
    )
}

/// The connections that were made and those that ended.
fn push_connections(svg: &mut Svg, layout: &Layout, rows: &[Row]) -> Result<(), AllocError> {
    for (place, row) in rows.iter().enumerate() {
        let y = layout.y_of(place, 0);
        match &row.event {
            Event::Connected { a, b } => push_connected(svg, &ends(layout, *a, *b, y))?,
            Event::Learned { node, peer } => {
                push_apart(svg, Class::Connection, &ends(layout, *node, *peer, y))?;
            }
            Event::Skipped | Event::Plain | Event::At { .. } => {}
        }
        push_ended(svg, layout, &row.ended.connections, y)?;
        push_dropped(svg, layout, &row.ended.ends, y)?;
    }
    Ok(())
}

fn push_ended(
    svg: &mut Svg,
    layout: &Layout,
    connections: &[(NodeNo, NodeNo)],
    y: usize,
) -> Result<(), AllocError> {
    for (a, b) in connections {
        svg.line(Class::Cut, &ends(layout, *a, *b, y))?;
    }
    Ok(())
}

/// A bar for each node that alone has dropped its connection.
fn push_dropped(
    svg: &mut Svg,
    layout: &Layout,
    dropped: &[(NodeNo, NodeNo)],
    y: usize,
) -> Result<(), AllocError> {
    for (node, peer) in dropped {
        push_apart(svg, Class::Cut, &ends(layout, *node, *peer, y))?;
    }
    Ok(())
}

/// The places of two nodes at this height.
fn ends(layout: &Layout, a: NodeNo, b: NodeNo, y: usize) -> [Point; 2] {
    let from = layout.x_of(a).unwrap_or(0);
    let to = layout.x_of(b).unwrap_or(0);
    [Point::new(from, y), Point::new(to, y)]
}

fn push_connected(svg: &mut Svg, ends: &[Point; 2]) -> Result<(), AllocError> {
    svg.line(Class::Connection, ends)?;
    svg.circle(Class::Connection, ends[0], 3)?;
    svg.circle(Class::Connection, ends[1], 3)
}

/// The first of the two nodes alone has learned that their connection is made, or has ended.
fn push_apart(svg: &mut Svg, class: Class, ends: &[Point; 2]) -> Result<(), AllocError> {
    svg.dashes(class, ends)?;
    svg.circle(class, ends[0], 3)
}

fn class_of(kind: MessageKind) -> Class {
    match kind {
        MessageKind::Request => Class::Request,
        MessageKind::Answer => Class::Answer,
        MessageKind::Refusal => Class::Refusal,
    }
}

/// The lines of the messages.
fn push_ways(svg: &mut Svg, ways: &[Way], flights: &[Flight]) -> Result<(), AllocError> {
    for way in ways {
        if let Some(flight) = flights.get(way.flight) {
            push_way(svg, class_of(flight.label.kind), way)?;
        }
    }
    Ok(())
}

fn push_way(svg: &mut Svg, class: Class, way: &Way) -> Result<(), AllocError> {
    let points = [way.start, way.bend, way.end];
    match way.tip {
        Tip::Arrow { rightwards } => {
            svg.line(class, &points)?;
            svg.head(class, way.end, rightwards)
        }
        Tip::Cross => {
            svg.line(class, &points)?;
            svg.cross(Class::Lost, way.end)
        }
        Tip::Air => svg.dashes(class, &points),
    }
}

/// The labels of the messages. They come after all lines, so that none is crossed.
fn push_labels(svg: &mut Svg, ways: &[Way], flights: &[Flight]) -> Result<(), AllocError> {
    for way in ways {
        if let Some(flight) = flights.get(way.flight) {
            let label = &flight.label;
            let class = class_of(label.kind);
            svg.words(class, Anchor::Middle, way.label, label.words.as_bytes())?;
        }
    }
    Ok(())
}

/// A circle for each note, on the line of its node, and its words.
fn push_notes(svg: &mut Svg, layout: &Layout, notes: &[Note]) -> Result<(), AllocError> {
    for note in notes {
        let x = layout.x_of(note.node).unwrap_or(0);
        let y = layout.y_of(note.row, 0);
        svg.circle(note.class, Point::new(x, y), 4)?;
        let beside = Point::new(x.saturating_add(BESIDE), words_height(note.class, y));
        svg.words(note.class, Anchor::Start, beside, note.words.as_bytes())?;
    }
    Ok(())
}

/// Where words stand beside a mark at this height: above the bars of connections that end at a restart.
fn words_height(class: Class, y: usize) -> usize {
    if matches!(class, Class::Restart) {
        y.saturating_sub(ABOVE)
    } else {
        y.saturating_add(HALF)
    }
}
