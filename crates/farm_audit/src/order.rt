//! All entries of all records, in an order in which they may happen.

ghost use Rattle.std.specs.Prelude.{IsOk};
ghost use Rattle.farm_base.specs.CheckedSite.{IsChecked};
ghost use Rattle.farm_player.specs.Reconciling.{Agrees};
ghost use Rattle.record_player.specs.Playing.{run_of};

use crate::fault::AuditFault;
use farm_text::write_text;
use farm_world::Site;
use record_player::{Difference, PlayFault, PlayResult, Player, found};
use record_reader::{BookEntries, Entry, NodeEvent, Position, Records};
use record_state::{Beginning, NodeEntry, Queues, Reports};
use std::alloc::{AllocError, Global};
use std::io::{Read, Write};

/// The lines of steps are written once there are so many octets.
const WRITTEN: usize = 65_536;

/// The records, what was read of them and is not played, and the farm that plays.
#[derive(Drop)]
pub struct Audit<'s, R> {
    alloc: Global,
    records: Records<R>,
    queues: Queues,
    player: Player<'s>,
    reports: Reports,
    /// The entries of the book on disk, if it is given.
    book: Option<BookEntries<R>>,
}

/// An `accept` that is the next entry of a node, and the dial that it may be of where nothing else may happen.
#[derive(Clone, Copy)]
struct LateAccept {
    queue: usize,
    dial: usize,
}

impl<'s, R: Read + Drop> Audit<'s, R> {
    /// The farm of a site before its first event. `prints`: whether the lines of its steps are asked for.
    pub fn new(alloc: Global, site: &'s Site, prints: bool) -> PlayResult<Self>
        requires { IsChecked site.now }
    {
        Ok(Audit {
            alloc,
            records: Records::new(alloc),
            queues: Queues::new(alloc),
            player: Player::new(alloc, site, prints)?,
            reports: Reports::new(alloc),
            book: None,
        })
    }

    /// The fronts have their book on disk, which outlives their process: its entries, as they are exported. It comes before the records.
    pub fn set_book(&mut self, reader: R) {
        self.book = Some(BookEntries::new(self.alloc, reader));
        self.records.set_book();
        self.player.set_book();
    }

    /// A record more, of which the first entry is read.
    pub fn add(&mut self, reader: R) -> PlayResult<()> {
        let record = self.records.len();
        self.records.add(reader)?;
        let _begun = self.read(record)?;
        Ok(())
    }

    /// Plays all entries, and writes the lines of the steps where they are asked for. What the book does comes last, so that
    /// a front never has more room than it had.
    pub fn run<W: Write>(&mut self, writer: &mut W) -> Result<(), AuditFault> {
        for _ in 0..u64::MAX {
            let went = self.go_on()?;
            self.write_lines(writer, WRITTEN)?;
            if !went {
                break;
            }
        }
        self.look_at_the_rest()?;
        self.compare_reports()?;
        self.change_last()?;
        self.write_lines(writer, 1)
    }

    /// How many records, entries and steps there were, and the report of the book. It is given only where the proved farm has a run in
    /// which what a record tells has passed at each relay and each client that has one, in its order, and nothing else.
    pub fn summary(&self) -> PlayResult<String>
        ensures { IsOk result → Agrees (run_of self.now.player) }
    {
        if !self.player.agrees() {
            return Err(PlayFault::OtherRun);
        }
        let (records, events) = (self.records.len(), self.records.entries());
        let steps = self.player.farm().steps();
        let mut text = format!(in self.alloc; "records {records} events {events} steps {steps}\n")?;
        self.push_untold(&mut text)?;
        let report = self.player.farm().report()?;
        text.push_str(report.as_str())?;
        Ok(text)
    }

    /// The line with the places of entries of which no record tells, if a book on disk is given.
    fn push_untold(&self, text: &mut String) -> PlayResult<()> {
        let Some(places) = self.player.book().untold() else {
            return Ok(());
        };
        let count = places.len();
        text.push_str(format!(in self.alloc; "untold {count}")?.as_str())?;
        for place in places {
            text.push_str(format!(in self.alloc; " {place}")?.as_str())?;
        }
        text.push_str("\n")?;
        Ok(())
    }

    /// Looks up what the book on disk has at the next place.
    fn look_up_next(&mut self) -> PlayResult<()> {
        if let Some(book) = &mut self.book {
            let next = book.at(self.player.book().place())?;
            self.player.set_next_entry(next);
            let are_all_read = self.records.are_at_end();
            if let Some(moment) = self.player.book().needs_entries_until(are_all_read) {
                self.player.set_needed(book.keys_until(moment)?);
            }
        }
        Ok(())
    }

    /// Plays what may happen next. Whether there was something.
    fn go_on(&mut self) -> PlayResult<bool> {
        self.look_up_next()?;
        let are_fronts_read = self
            .records
            .unread_fronts(self.player.farm().site())
            .is_none();
        self.player.feed_all(are_fronts_read);
        Ok(
            self.advance_all()?
                || self.read_awaited()?
                || self.player.charge_next(self.records.are_at_end())?
                || self.player.charge_repeat()?
                || self.change_between()?
                || self.read_ahead()?
                || self.player.play_untold(self.records.are_at_end())?
                || self.settle()?,
        )
    }

    /// Changes the terms, if the next entry of the book on disk does, and others than changes stand behind it. Whether it did.
    fn change_between(&mut self) -> PlayResult<bool> {
        let Some(book) = &mut self.book else {
            return Ok(false);
        };
        if self.player.book().next_change().is_none() || !book.has_other_ahead()? {
            return Ok(false);
        }
        self.change_terms()
    }

    /// Changes the terms as the last entries of the book on disk do: they stand there since the fronts have ended.
    fn change_last(&mut self) -> PlayResult<()> {
        for _ in 0..u64::MAX {
            self.look_up_next()?;
            if !self.change_terms()? {
                break;
            }
        }
        Ok(())
    }

    /// Changes the terms, if the next entry of the book on disk does. Whether it does.
    fn change_terms(&mut self) -> PlayResult<bool> {
        let Some(book) = &mut self.book else {
            return Ok(false);
        };
        let Some(entry) = self.player.book().next_change() else {
            return Ok(false);
        };
        let step = book.take_change(self.player.farm().site(), &entry)?;
        self.player.change_terms(&entry, &step)?;
        Ok(true)
    }

    /// Writes the lines of steps where they are at least so many octets.
    fn write_lines<W: Write>(&mut self, writer: &mut W, least: usize) -> Result<(), AuditFault> {
        if self.player.farm().line_octets() < least {
            return Ok(());
        }
        let lines = self.player.take_lines();
        match write_text(writer, &lines) {
            Ok(()) => Ok(()),
            Err(_) => Err(AuditFault::Write),
        }
    }

    // ---- what is read

    /// Reads one more entry of a record. Whether there was one.
    fn read(&mut self, record: usize) -> PlayResult<bool> {
        let site = self.player.farm().site();
        match self.records.next_entry(site, record)? {
            Some(entry) => {
                self.keep(entry)?;
                Ok(true)
            }
            None => Ok(false),
        }
    }

    /// An entry is kept until it is played.
    fn keep(&mut self, entry: Entry) -> PlayResult<()> {
        match entry {
            Entry::Begin {
                position,
                nodes,
                is_first,
                moment,
                requests_before,
            } => {
                for node in &nodes {
                    self.keep_begin(Beginning {
                        position,
                        node: *node,
                        is_first,
                        moment,
                        requests_before,
                    })?;
                }
            }
            Entry::Connection { event, label } => {
                self.player.add_connection(event.end, label)?;
                self.keep_event(event)?;
            }
            Entry::Event(event) => {
                self.player.add_event(&event)?;
                self.keep_event(event)?;
            }
            Entry::Finished(finished) => self.player.add_finished(finished)?,
            Entry::Sweep(sweep) => self.player.add_sweep(sweep)?,
            Entry::Report { position, line } => self.reports.add(position, line)?,
        }
        Ok(())
    }

    /// The process of a node begins: that is its next entry. What the process told of the book before was not the last.
    fn keep_begin(&mut self, beginning: Beginning) -> PlayResult<()> {
        let (source, node) = (beginning.position.source, beginning.node);
        if beginning.is_first {
            self.queues.add(source, node)?;
            self.player.add_node(beginning.position, node)?;
        } else {
            self.reports.forget(source);
            self.player.add_beginning(&beginning);
        }
        self.queues.push(node, NodeEntry::Begin(beginning))?;
        Ok(())
    }

    fn keep_event(&mut self, event: NodeEvent) -> Result<(), AllocError> {
        self.queues.push(event.end.node, NodeEntry::Event(event))
    }

    /// Reads more of a record of which nothing is left to be played.
    fn refill(&mut self, record: usize) -> PlayResult<()> {
        for _ in 0..u64::MAX {
            if self.queues.has_entries_of(record) || !self.read(record)? {
                return Ok(());
            }
        }
        Ok(())
    }

    /// Reads one more entry of the fronts, where one that was not read may have to come before one that was.
    fn read_ahead(&mut self) -> PlayResult<bool> {
        match self.records.unread_fronts(self.player.farm().site()) {
            Some(record) if self.player.may_be_told() => self.read(record),
            _ => Ok(false),
        }
    }

    /// Reads one more entry of the fronts, where requests are to be handed over, and no line tells yet of one of them. Whether that is so.
    fn read_awaited(&mut self) -> PlayResult<bool> {
        if !self.player.awaits_lines() {
            return Ok(false);
        }
        if let Some(record) = self.records.unread_fronts(self.player.farm().site()) {
            let _was_read = self.read(record)?;
        }
        Ok(true)
    }

    // ---- what is played

    /// Plays the entries of each node as far as they may happen. Whether there was one.
    fn advance_all(&mut self) -> PlayResult<bool> {
        let mut went = false;
        for queue in 0..self.queues.len() {
            if self.advance(queue)? {
                went = true;
            }
        }
        Ok(went)
    }

    /// Plays the entries of a node as far as they may happen. Whether there was one.
    fn advance(&mut self, queue: usize) -> PlayResult<bool> {
        let mut went = false;
        for _ in 0..u64::MAX {
            if !self.advance_one(queue)? {
                return Ok(went);
            }
            went = true;
        }
        Ok(went)
    }

    /// Plays the next entry of a node if it may happen. Whether there was one, and it did. More is read where nothing of its
    /// record is left.
    fn advance_one(&mut self, queue: usize) -> PlayResult<bool> {
        if let Some(record) = self.queues.record_of(queue) {
            self.refill(record)?;
        }
        let Some(entry) = self.queues.head(queue) else {
            return Ok(false);
        };
        let happened = self.player.try_entry(entry)?;
        if happened {
            self.queues.advance(queue);
        }
        Ok(happened)
    }

    /// Nothing else may happen: an `accept` is of a dial that was given up, or a node learns that its connection is made,
    /// though a dial before it may be the one that was accepted. Whether there is such an entry.
    fn settle(&mut self) -> PlayResult<bool> {
        if let Some(late) = self.last_late_accept() {
            return self.accept_late(late);
        }
        for queue in 0..self.queues.len() {
            if self.open_late(queue)? {
                return Ok(true);
            }
        }
        Ok(false)
    }

    /// Of the `accept`s that come next and are of dials that were given up, the one whose dial was told last: a dial of long
    /// ago is more often one that was never accepted.
    fn last_late_accept(&self) -> Option<LateAccept> {
        let mut last: Option<LateAccept> = None;
        for queue in 0..self.queues.len() {
            let Some(dial) = self.late_dial(queue) else {
                continue;
            };
            let is_later = match last {
                Some(last) => last.dial < dial,
                None => true,
            };
            if is_later {
                last = Some(LateAccept { queue, dial });
            }
        }
        last
    }

    fn late_dial(&self, queue: usize) -> Option<usize> {
        self.player.late_dial(self.queues.head(queue)?)
    }

    fn accept_late(&mut self, late: LateAccept) -> PlayResult<bool> {
        let Some(NodeEntry::Event(event)) = self.queues.head(late.queue) else {
            return Ok(false);
        };
        self.player.accept_late(event, late.dial)?;
        self.queues.advance(late.queue);
        Ok(true)
    }

    fn open_late(&mut self, queue: usize) -> PlayResult<bool> {
        let Some(entry) = self.queues.head(queue) else {
            return Ok(false);
        };
        let happened = self.player.open_late(entry)?;
        if happened {
            self.queues.advance(queue);
        }
        Ok(happened)
    }

    // ---- at the end

    /// Nothing is left. Where something is, it is told of an entry that waits for nobody else who waits.
    fn look_at_the_rest(&self) -> PlayResult<()> {
        let book = self.player.book();
        if let Some(position) = book.entry_left() {
            return found(position, Difference::Untold);
        }
        if let Some(position) = book.behind_missing() {
            let place = book.place();
            return found(position, Difference::PlaceMissing { place });
        }
        let left = self.queues.first_that_waits().or(book.first_left());
        match left {
            Some(position) => found(position, Difference::CannotHappen),
            None => Ok(()),
        }
    }

    /// What records tell of the book is what it comes to.
    fn compare_reports(&self) -> PlayResult<()> {
        let report = self.player.farm().report()?;
        let lines: Vec<&[u8]> = report
            .as_bytes()
            .split(|octet| *octet == b'\n')
            .collect(self.alloc)?;
        for record in 0..self.records.len() {
            if let Some(position) = self.reports.first_otherwise(record, &lines) {
                return found(position, Difference::OtherBook);
            }
        }
        Ok(())
    }
}
