//! Records: what the processes of a live farm write down, a line for each event.
//!
//! - [`Event`]: what a line tells. [`push_event`] writes one.
//! - [`Recorder`]: the lines that a process has not written yet. What happens at each turn is put behind them in the order
//!   in which it happened; once memory is missing for one, nothing more is told but that the record ends there.
//! - [`Recorded`]: who does what nobody else can tell of, as the workers of fronts do, and hands it over when asked.
//!
//! docs/RECORD.md has the format, and what records of one farm come to. `record_reader` reads them.
#![tactic(auto)]

mod event;
mod recorder;
mod writing;

pub use event::{Age, Event};
pub use recorder::{Recorded, Recorder};
pub use writing::push_event;
