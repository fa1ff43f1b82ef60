//! All records of a farm, read entry by entry.

use crate::entry::{Action, End, Entry, Finished, NodeEvent, Sweep};
use crate::fault::{EntryFault, RecordFault, found, of_group};
use crate::group::{Group, Groups};
use crate::position::{Position, Source};
use crate::process::{Process, Standing};
use dia_base::{ConnId, Moment, NodeKind, NodeNo};
use dia_message::Message;
use farm_base::Site;
use farm_record::{Age, Event};
use std::alloc::{AllocError, Global};
use std::io::Read;

/// A record, and the process that writes it.
#[derive(Drop)]
struct Record<R> {
    groups: Groups<R>,
    process: Process,
}

/// The records of a farm. They take the memory of one entry each, and of what their processes have under way.
#[derive(Drop)]
pub struct Records<R> {
    alloc: Global,
    records: Vec<Record<R>>,
    /// How many ends of connections were told.
    ends: usize,
    /// How many requests were told that fronts hand to their workers.
    requests: u64,
    entries: u64,
    /// Whether fronts may begin again, since their book outlives their process.
    has_book: bool,
}

/// What a line tells of a job of a front.
#[derive(Drop)]
struct Told {
    front: NodeNo,
    job: u64,
    moment: Moment,
    place: Option<u64>,
    is_new: bool,
    answer: Option<Message>,
}

/// What an event has beside its connection.
#[derive(Drop)]
struct Around {
    position: Position,
    sent: Vec<(NodeNo, Message)>,
    is_last: bool,
}

/// A connection that a node dials or accepts.
#[derive(Clone, Copy)]
struct Named {
    number: ConnId,
    node: NodeNo,
    peer: NodeNo,
    label: u64,
    is_dialled: bool,
}

/// Whether the node is a front.
pub fn is_front(site: &Site, node: NodeNo) -> bool {
    match site.nodes.as_slice().get(node.0 as usize) {
        Some(node) => node.kind == NodeKind::Front,
        None => false,
    }
}

impl Around {
    /// An event on a connection.
    fn event(self, end: End, action: Action, request: Option<u64>) -> NodeEvent {
        let Around {
            position,
            sent,
            is_last,
        } = self;
        NodeEvent {
            position,
            end,
            action,
            sent,
            is_last,
            request,
        }
    }
}

impl<R: Read + Drop> Records<R> {
    /// No record.
    pub fn new(alloc: Global) -> Self {
        Records {
            alloc,
            records: Vec::new(alloc),
            ends: 0,
            requests: 0,
            entries: 0,
            has_book: false,
        }
    }

    /// A record more, before its first line. It has the next place.
    pub fn add(&mut self, reader: R) -> Result<(), AllocError> {
        self.records.push(Record {
            groups: Groups::new(self.alloc, reader),
            process: Process::new(self.alloc),
        })?;
        Ok(())
    }

    /// The book of the fronts outlives their process: from now on they may begin again.
    pub fn set_book(&mut self) {
        self.has_book = true;
    }

    pub fn len(&self) -> usize {
        self.records.len()
    }

    pub fn is_empty(&self) -> bool {
        self.records.is_empty()
    }

    /// How many entries were read.
    pub fn entries(&self) -> u64 {
        self.entries
    }

    /// Whether all were read to their ends.
    pub fn are_at_end(&self) -> bool {
        self.records.iter().all(|record| record.groups.is_at_end)
    }

    /// The first record of fronts that was not read to its end.
    pub fn unread_fronts(&self, site: &Site) -> Option<usize> {
        self.records.iter().position(|record| !record.groups.is_at_end
            && is_of_fronts(site, &record.process))
    }

    fn process(&self, position: Position) -> Result<&Process, RecordFault> {
        let record = match position.source {
            Source::Record(record) => self.records.get(record),
            Source::Book => None,
        };
        match record {
            Some(record) => Ok(&record.process),
            None => found(position, EntryFault::UnknownConnection),
        }
    }

    fn process_mut(&mut self, position: Position) -> Result<&mut Process, RecordFault> {
        let record = match position.source {
            Source::Record(record) => self.records.get_mut(record),
            Source::Book => None,
        };
        match record {
            Some(record) => Ok(&mut record.process),
            None => found(position, EntryFault::UnknownConnection),
        }
    }

    /// The next entry of the record at this place; none at its end. Behind a fault nothing more should be read.
    pub fn next_entry(&mut self, site: &Site, record: usize) -> Result<Option<Entry>, RecordFault> {
        let alloc = self.alloc;
        let Some(from) = self.records.get_mut(record) else {
            return Ok(None);
        };
        match from.groups.next_group(alloc, site) {
            Ok(None) => Ok(None),
            Ok(Some(group)) => self.entry_of(site, record, group),
            Err(fault) => {
                let line = from.groups.line();
                let source = Source::Record(record);
                Err(of_group(fault, Position { source, line }))
            }
        }
    }

    /// What an event tells.
    fn entry_of(
        &mut self,
        site: &Site,
        record: usize,
        group: Group,
    ) -> Result<Option<Entry>, RecordFault> {
        self.entries = self.entries.saturating_add(1);
        let Group {
            line,
            event,
            outs,
            is_last,
        } = group;
        let source = Source::Record(record);
        let position = Position { source, line };
        let sent = self.sent_to(position, outs)?;
        let around = Around {
            position,
            sent,
            is_last,
        };
        self.entry_by_kind(site, event, around)
    }

    fn entry_by_kind(
        &mut self,
        site: &Site,
        event: Event,
        around: Around,
    ) -> Result<Option<Entry>, RecordFault> {
        let position = around.position;
        let entry = match event {
            Event::Begin { nodes, moment } => self.begin(site, position, nodes, moment)?,
            Event::Dial {
                conn,
                node,
                peer,
                label,
            } => self.connection(around, &connection_named(conn, node, peer, label, true))?,
            Event::Accept {
                conn,
                node,
                peer,
                label,
            } => self.connection(around, &connection_named(conn, node, peer, label, false))?,
            Event::Opened { conn } => self.opened(around, conn)?,
            Event::Deliver { conn, message } => self.received(site, around, conn, message)?,
            Event::Send { conn, message } => {
                let end = self.end_of(position, conn)?;
                Entry::Event(around.event(end, Action::Send(message), None))
            }
            Event::Drop { conn } => self.dropped(around, conn)?,
            Event::Report { line } => Entry::Report { position, line },
            Event::Sweep { moment, sessions } => self.sweep(position, moment, sessions),
            event => return self.finished_by_kind(position, event),
        };
        Ok(Some(entry))
    }

    /// What an event tells of a job that is finished.
    fn finished_by_kind(
        &mut self,
        position: Position,
        event: Event,
    ) -> Result<Option<Entry>, RecordFault> {
        let told = match event {
            Event::Charge {
                front,
                job,
                moment,
                place,
                age,
                answer,
            } => Told {
                front,
                job,
                moment,
                place: Some(place),
                is_new: age == Age::New,
                answer,
            },
            Event::Refuse { front, job, answer } => Told {
                front,
                job,
                moment: Moment(0),
                place: None,
                is_new: false,
                answer,
            },
            _ => return Ok(None),
        };
        self.finished(position, told).map(Some)
    }

    /// A process begins, for the first time or again.
    fn begin(
        &mut self,
        site: &Site,
        position: Position,
        nodes: Vec<NodeNo>,
        moment: Moment,
    ) -> Result<Entry, RecordFault> {
        let known = self.process(position)?.nodes();
        let is_first = is_first_begin(site, position, &nodes, known, self.has_book)?;
        self.process_mut(position)?.begin();
        if is_first {
            for node in &nodes {
                self.add_node(position, *node)?;
            }
        }
        Ok(Entry::Begin {
            position,
            nodes,
            is_first,
            moment,
            requests_before: self.requests,
        })
    }

    /// The process of a record is this node too, of which no other record may be.
    fn add_node(&mut self, position: Position, node: NodeNo) -> Result<(), RecordFault> {
        let is_known = self
            .records
            .iter()
            .any(|record| record.process.nodes().contains(&node));
        if is_known {
            return found(position, EntryFault::TwoRecords);
        }
        self.process_mut(position)?.add_node(node)?;
        Ok(())
    }

    /// A connection begins.
    fn connection(&mut self, around: Around, named: &Named) -> Result<Entry, RecordFault> {
        let position = around.position;
        let end = End {
            conn: self.ends,
            node: named.node,
            peer: named.peer,
        };
        let process = self.process_mut(position)?;
        if process.standing(named.number).is_some() || !process.nodes().contains(&named.node) {
            return found(position, EntryFault::NoSuchConnection);
        }
        process.connect(Standing {
            number: named.number,
            end,
            is_dialled: named.is_dialled,
            is_up: !named.is_dialled,
        })?;
        self.ends = self.ends.saturating_add(1);
        let action = if named.is_dialled {
            Action::Dial
        } else {
            Action::Accept
        };
        Ok(Entry::Connection {
            event: around.event(end, action, None),
            label: named.label,
        })
    }

    /// A node has learned that its connection is made.
    fn opened(&mut self, around: Around, number: ConnId) -> Result<Entry, RecordFault> {
        let position = around.position;
        let standing = self.standing(position, number)?;
        if !standing.is_dialled || standing.is_up {
            return found(position, EntryFault::KnownAlready);
        }
        self.process_mut(position)?.set_up(number);
        Ok(Entry::Event(around.event(standing.end, Action::Opened, None)))
    }

    /// A message came.
    fn received(
        &mut self,
        site: &Site,
        around: Around,
        number: ConnId,
        message: Message,
    ) -> Result<Entry, RecordFault> {
        let end = self.end_of(around.position, number)?;
        let is_handed_over = is_front(site, end.node)
            && around.sent.is_empty()
            && message.header.request;
        let request = if is_handed_over {
            Some(self.add_request(around.position, end)?)
        } else {
            None
        };
        Ok(Entry::Event(around.event(end, Action::Receive(message), request)))
    }

    /// A request is with the workers of a front from now on: its number among all.
    fn add_request(&mut self, position: Position, end: End) -> Result<u64, RecordFault> {
        let request = self.requests;
        self.requests = request.saturating_add(1);
        self.process_mut(position)?.add_job(end, request)?;
        Ok(request)
    }

    /// A connection has ended.
    fn dropped(&mut self, around: Around, number: ConnId) -> Result<Entry, RecordFault> {
        let standing = self.standing(around.position, number)?;
        self.process_mut(around.position)?.disconnect(number);
        let action = Action::Drop {
            was_up: standing.is_up,
        };
        Ok(Entry::Event(around.event(standing.end, action, None)))
    }

    /// A job is finished. Its answer is sent if its connection is still there.
    fn finished(&mut self, position: Position, told: Told) -> Result<Entry, RecordFault> {
        let process = self.process_mut(position)?;
        let Some(job) = process.take_job(told.front, told.job) else {
            return found(position, EntryFault::NoSuchRequest);
        };
        let was_posted = told.answer.is_some() && process.is_up(job.end);
        Ok(Entry::Finished(Finished {
            position,
            end: job.end,
            request: job.request,
            moment: told.moment,
            place: told.place,
            is_new: told.is_new,
            answer: told.answer,
            was_posted,
            requests_before: self.requests,
        }))
    }

    fn sweep(&self, position: Position, moment: Moment, sessions: u64) -> Entry {
        Entry::Sweep(Sweep {
            position,
            moment,
            sessions,
            requests_before: self.requests,
        })
    }

    /// A connection that stands by its number in a record.
    fn standing(&self, position: Position, number: ConnId) -> Result<Standing, RecordFault> {
        match self.process(position)?.standing(number) {
            Some(standing) => Ok(*standing),
            None => found(position, EntryFault::UnknownConnection),
        }
    }

    fn end_of(&self, position: Position, number: ConnId) -> Result<End, RecordFault> {
        Ok(self.standing(position, number)?.end)
    }

    /// What was sent, by the nodes at the other ends.
    fn sent_to(
        &self,
        position: Position,
        outs: Vec<(ConnId, Message)>,
    ) -> Result<Vec<(NodeNo, Message)>, RecordFault> {
        let mut sent = Vec::new(self.alloc);
        for (number, message) in outs {
            let peer = self.end_of(position, number)?.peer;
            sent.push((peer, message))?;
        }
        Ok(sent)
    }
}

fn connection_named(
    number: ConnId,
    node: NodeNo,
    peer: NodeNo,
    label: u64,
    is_dialled: bool,
) -> Named {
    Named {
        number,
        node,
        peer,
        label,
        is_dialled,
    }
}

fn is_of_fronts(site: &Site, process: &Process) -> bool {
    match process.nodes().first() {
        Some(node) => is_front(site, *node),
        None => false,
    }
}

/// Whether a process of these nodes begins for the first time: its record has named none so far, or the same. Fronts begin once, if their
/// book does not outlive their process.
fn is_first_begin(
    site: &Site,
    position: Position,
    nodes: &[NodeNo],
    known: &[NodeNo],
    has_book: bool,
) -> Result<bool, RecordFault> {
    let are_fronts = nodes.iter().all(|node| is_front(site, *node));
    if nodes.len() != 1 && !are_fronts {
        return found(position, EntryFault::Mixed);
    }
    if known.is_empty() {
        return Ok(true);
    }
    if known != nodes {
        return found(position, EntryFault::OtherProcess);
    }
    if are_fronts && !has_book {
        return found(position, EntryFault::FrontsAgain);
    }
    Ok(false)
}
