//! The events of a record, each with what was sent for it.

ghost use Rattle.std.specs.Prelude.{drop};
ghost use Rattle.std.specs.Io.KnownBytes.{prepend_known};
ghost use Rattle.record_reader.specs.NextEvent.{GivesNext};

use crate::lines::{LinesFault, RecordLines};
use crate::reading::event_of;
use dia_base::ConnId;
use dia_message::Message;
use farm_base::Site;
use farm_record::Event;
use farm_script::LineFault;
use std::alloc::{AllocError, AllocFailed, Global};
use std::io::Read;
use thiserror::Error;

/// An event with what was sent for it.
#[derive(Drop)]
pub struct Group {
    /// The line of the event, from 1.
    pub line: u64,
    pub event: Event,
    pub outs: Vec<(ConnId, Message)>,
    /// Nothing of this start of the process is told behind it; so not all that was sent need be.
    pub is_last: bool,
}

/// Why a record has no next event.
#[derive(Clone, Copy, Debug, PartialEq, Eq, Error)]
pub enum GroupFault {
    #[error("{0}")]
    Lines(LinesFault),
    #[error("{0}")]
    Words(LineFault),
    #[error("the record does not begin")]
    NoBegin,
    #[error("sent for no event")]
    SentForNothing,
    #[error("the record ends here, since it could not be written")]
    Lost,
    #[error("out of memory")]
    OutOfMemory,
}

impl From<AllocError> for GroupFault {
    fn from(_e: AllocError) -> GroupFault {
        GroupFault::OutOfMemory
    }
}

impl<T: Drop> From<AllocFailed<T>> for GroupFault {
    fn from(_e: AllocFailed<T>) -> GroupFault {
        GroupFault::OutOfMemory
    }
}

/// The events of a record. It takes the memory of one event with what was sent for it, and of one line.
#[derive(Drop)]
pub struct Groups<R> {
    lines: RecordLines<R>,
    held: Option<Group>,
    has_begun: bool,
    /// Whether the record was read to its end.
    pub is_at_end: bool,
}

/// Whether messages are sent for such an event.
fn is_answered(event: &Event) -> bool {
    matches!(event, Event::Deliver { .. } | Event::Drop { .. })
}

impl<R: Read> Groups<R> {
    /// A record before its first line.
    pub fn new(alloc: Global, reader: R) -> Self {
        Groups {
            lines: RecordLines::new(alloc, reader),
            held: None,
            has_begun: false,
            is_at_end: false,
        }
    }

    /// The line that was read last, from 1; of a fault the line where it stands.
    pub fn line(&self) -> u64 {
        self.lines.count
    }

    /// The next line that tells an event.
    #[tactic(auto, using(crate::proofs::NextEvent::fault_given, crate::proofs::NextEvent::skipped, crate::proofs::NextEvent::said_behind, crate::proofs::NextEvent::none_behind))]
    fn next_event(&mut self, alloc: Global, site: &Site) -> Result<Option<Event>, GroupFault>
        ensures { GivesNext site.now (prepend_known (drop self.old.lines.given self.old.lines.rest.items) (R.remaining self.old.lines.reader)) (prepend_known (drop self.new.lines.given self.new.lines.rest.items) (R.remaining self.new.lines.reader)) result }
    {
        for _ in 0..u64::MAX {
            let line = match self.lines.next_line(alloc) {
                Ok(Some(line)) => line,
                Ok(None) => return Ok(None),
                Err(fault) => return Err(GroupFault::Lines(fault)),
            };
            match event_of(alloc, &line, site) {
                Ok(Some(event)) => return Ok(Some(event)),
                Ok(None) => {}
                Err(fault) => return Err(GroupFault::Words(fault)),
            }
        }
        Err(GroupFault::OutOfMemory)
    }

    /// A message was sent for the event before.
    fn hold_out(&mut self, conn: ConnId, message: Message) -> Result<(), GroupFault> {
        match &mut self.held {
            Some(group) if is_answered(&group.event) => {
                group.outs.push((conn, message))?;
                Ok(())
            }
            _ => Err(GroupFault::SentForNothing),
        }
    }

    /// The next event with what was sent for it; none at the end. Behind a fault, whose line is [`Groups::line`], nothing more
    /// should be read.
    pub fn next_group(&mut self, alloc: Global, site: &Site) -> Result<Option<Group>, GroupFault> {
        for _ in 0..u64::MAX {
            let Some(event) = self.next_event(alloc, site)? else {
                return Ok(self.last_group());
            };
            match event {
                Event::Time { .. } | Event::End => {}
                Event::Lost => return Err(GroupFault::Lost),
                Event::Out { conn, message } => self.hold_out(conn, message)?,
                event => {
                    if let Some(group) = self.hold(alloc, event)? {
                        return Ok(Some(group));
                    }
                }
            }
        }
        Ok(None)
    }

    /// The event before is whole, and this one is held.
    fn hold(&mut self, alloc: Global, event: Event) -> Result<Option<Group>, GroupFault> {
        let begins = matches!(&event, Event::Begin { .. });
        if !self.has_begun && !begins {
            return Err(GroupFault::NoBegin);
        }
        self.has_begun = true;
        let group = Group {
            line: self.lines.count,
            event,
            outs: Vec::new(alloc),
            is_last: false,
        };
        let mut before = self.held.replace(group);
        if let Some(before) = &mut before {
            before.is_last = begins;
        }
        Ok(before)
    }

    /// What is held at the end.
    fn last_group(&mut self) -> Option<Group> {
        self.is_at_end = true;
        let mut last = self.held.take();
        if let Some(last) = &mut last {
            last.is_last = true;
        }
        last
    }
}
