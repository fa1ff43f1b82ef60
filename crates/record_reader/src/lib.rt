//! Records of a live farm as they are read: a stream of lines, the event that each tells, the events with what was sent for each,
//! and the entries of all records.
//!
//! - [`RecordLines`]: the lines of a record from a reader, one after the other, however long the record is.
//! - [`event_of`]: what a line tells.
//! - [`Groups`]: the events of a record, each with the messages that were sent for it.
//! - [`Records`]: all records. An [`Entry`] names the nodes of its connection and the request that it is about, for which a record
//!   has numbers of its own (`process`).
//! - [`BookEntries`]: the entries of a book on disk, by their places. A request is found there by its [`RequestKey`].
//!
//! docs/RECORD.md has the format. `specs/Reading` has what a line says, `specs/Telling` what a process can tell, which is read back
//! ([`what_is_told_is_read`]).
#![tactic(auto)]

mod book;
mod entry;
mod fault;
mod group;
mod laws;
mod lines;
mod position;
mod process;
mod quoted;
mod reading;
mod records;
mod terms;

pub use book::{BookEntries, BookEntry, BookEntryKind, RequestKey};
pub use entry::{Action, End, Entry, Finished, NodeEvent, Sweep};
pub use fault::{EntryFault, RecordFault};
pub use group::{Group, GroupFault, Groups};
pub use laws::what_is_told_is_read;
pub use lines::{LINE_LIMIT, LinesFault, RecordLines};
pub use position::{Position, Source};
pub use reading::event_of;
pub use records::{Records, is_front};
