//! What the records tell of the book at the ends of processes.

ghost use Rattle.std.specs.Prelude.{◌≡◌};
ghost use Rattle.std.specs.Bool.{Decides};

use record_reader::{Position, Source};
use std::alloc::{AllocError, Global};

/// A line of what the book has come to.
#[derive(Drop)]
struct ToldLine {
    position: Position,
    line: Vec<u8>,
}

/// The lines of all records that tell what the book has come to.
#[derive(Drop)]
pub struct Reports {
    lines: Vec<ToldLine>,
}

impl Reports {
    pub fn new(alloc: Global) -> Self {
        Reports {
            lines: Vec::new(alloc),
        }
    }

    pub fn add(&mut self, position: Position, line: Vec<u8>) -> Result<(), AllocError> {
        self.lines.push(ToldLine { position, line })?;
        Ok(())
    }

    /// The process of a record begins again: what it told of the book was not the last.
    pub fn forget(&mut self, source: Source) {
        self.lines.retain(|told| told.position.source != source);
    }

    /// The first line of a record that is not the one of this report at its place.
    pub fn first_otherwise(&self, record: usize, report: &[&[u8]]) -> Option<Position> {
        let of_record = self
            .lines
            .iter()
            .filter(|told| told.position.source == Source::Record(record));
        for (place, told) in of_record.enumerate() {
            if !is_line(report, place, &told.line) {
                return Some(told.position);
            }
        }
        None
    }
}

/// Whether a report has this line at this place.
fn is_line(report: &[&[u8]], place: usize, line: &[u8]) -> bool {
    match report.get(place) {
        Some(reported) => is_same(reported, line),
        None => false,
    }
}

fn is_same(one: &[u8], other: &[u8]) -> bool
    ensures { Decides result (one.now ≡ other.now) }
{
    one == other
}
