//! Whole texts, as site files and schedules, from a reader or a file, and to a writer.
#![tactic(auto)]

mod files;
mod reading;
mod writing;

pub use files::{file_at, file_up_to};
pub use reading::{ReadFault, TEXT_LIMIT, read_text, read_up_to};
pub use writing::{WriteFault, write_text};
