//! What is kept of the entries that were read, and what more is to be read.

ghost use Rattle.std.specs.Prelude.{◌≡◌, OnOk};
ghost use Rattle.farm_player.specs.Reconciling.{Stays};
ghost use Rattle.record_reader.specs.declared.entry.Action.TheVariants.{Receive};
ghost use Rattle.record_player.specs.Telling.{told_by};

use crate::fault::{Difference, PlayResult, found};
use crate::player::Player;
use dia_base::NodeNo;
use dia_message::Message;
use farm_player::Passed;
use record_reader::{Action, BookEntry, End, Finished, NodeEvent, Position, RequestKey, Sweep};
use record_state::{Beginning, Connections};
use std::alloc::AllocError;

/// The way of a message at an end of a connection.
fn passed_at(end: End, is_sent: bool) -> Passed
    ensures { result ≡ record { node = end.node; peer = end.peer; is_sent = is_sent } }
{
    Passed {
        node: end.node,
        peer: end.peer,
        is_sent,
    }
}

/// A front has sent these answers at once.
fn add_answers(connections: &mut Connections, event: &NodeEvent) -> Result<(), AllocError> {
    for (_, message) in &event.sent {
        connections.add_answer(event.end.conn, message.clone()?)?;
    }
    Ok(())
}

impl<'s> Player<'s> {
    /// A node has a record, which begins at this position.
    pub fn add_node(&mut self, position: Position, node: NodeNo) -> PlayResult<()>
        ensures stays { Stays self.old.links.played self.new.links.played }
    {
        self.links.played.add_node(position, node)
    }

    /// An end of a connection was told.
    pub fn add_connection(&mut self, end: End, label: u64) -> Result<(), AllocError>
        ensures stays { Stays self.old.links.played self.new.links.played }
    {
        self.links.connections.add(end, label)
    }

    /// An event was told. What passes at relays and clients is what events tell.
    pub fn add_event(&mut self, event: &NodeEvent) -> PlayResult<()>
        ensures told { OnOk result (self.new.links.played.told ≡ told_by self.old.links.played.farm.site event.now.end event.now.action self.old.links.played.told) }
        ensures site { self.new.links.played.farm.site ≡ self.old.links.played.farm.site }
    {
        if let Some(number) = event.request {
            let key = self.book.key_of(event);
            self.fronts.add(number, event.end, key)?;
        }
        match &event.action {
            Action::Receive(message) => self.add_received(event, message),
            Action::Send(message) => {
                let passed = passed_at(event.end, true);
                self.links.played.tell(event.position, passed, message)
            }
            _ => Ok(()),
        }
    }

    /// A message came. A front has sent answers for it at once, or none.
    fn add_received(&mut self, event: &NodeEvent, message: &Message) -> PlayResult<()>
        ensures told { OnOk result (self.new.links.played.told ≡ told_by self.old.links.played.farm.site event.now.end (Receive message.now) self.old.links.played.told) }
        ensures site { self.new.links.played.farm.site ≡ self.old.links.played.farm.site }
    {
        if self.is_front(event.end.node) {
            add_answers(&mut self.links.connections, event)?;
        }
        let passed = passed_at(event.end, false);
        self.links.played.tell(event.position, passed, message)
    }

    /// A line tells what became of a request. It is a fault if a place of the book is told twice.
    pub fn add_finished(&mut self, finished: Finished) -> PlayResult<()>
        ensures stays { Stays self.old.links.played self.new.links.played }
    {
        self.fronts.finish(&finished, self.links.connections.ends());
        if let Some(answer) = &finished.answer {
            if finished.was_posted {
                self.links
                    .connections
                    .add_answer(finished.end.conn, answer.clone()?)?;
            }
        }
        if let Some(place) = self.book.place_taken(&finished) {
            return found(finished.position, Difference::PlaceTwice { place });
        }
        self.book.add(finished)?;
        Ok(())
    }

    /// A sweep was told.
    pub fn add_sweep(&mut self, sweep: Sweep) -> Result<(), AllocError>
        ensures stays { Stays self.old.links.played self.new.links.played }
    {
        self.book.add_sweep(sweep)
    }

    /// A line was read by which the process of a node begins again.
    pub fn add_beginning(&mut self, beginning: &Beginning)
        ensures stays { Stays self.old.links.played self.new.links.played }
    {
        if self.is_front(beginning.node) {
            self.book
                .add_beginning(beginning.moment, beginning.requests_before);
        }
    }

    // ---- the book on disk

    /// The book of the fronts is on disk.
    pub fn set_book(&mut self)
        ensures stays { Stays self.old.links.played self.new.links.played }
    {
        self.book.set_stored();
    }

    /// What the book on disk has at the next place of [`Player::book`].
    pub fn set_next_entry(&mut self, next: Option<BookEntry>)
        ensures stays { Stays self.old.links.played self.new.links.played }
    {
        self.book.set_next_entry(next);
    }

    /// The keys of its entries from there on, up to the moment that [`Player::book`] needs them.
    pub fn set_needed(&mut self, needed: Vec<RequestKey>)
        ensures stays { Stays self.old.links.played self.new.links.played }
    {
        self.book.set_needed(needed);
    }

    // ---- what more is to be read

    /// Whether a line that was not read yet may tell what stands next in the book, or what keeps a worker busy.
    pub fn may_be_told(&self) -> bool {
        self.fronts.is_held_up() || self.book.may_be_told(&self.fronts)
    }

    /// Nobody has wanted a worker or a line yet. `are_fronts_read`: whether the records of fronts were read to their ends.
    pub fn feed_all(&mut self, are_fronts_read: bool)
        ensures stays { Stays self.old.links.played self.new.links.played }
    {
        self.fronts.feed_all(are_fronts_read);
    }

    /// Whether requests are to be handed over, and a line of fronts that was not read may tell of one of them.
    pub fn awaits_lines(&self) -> bool {
        self.fronts.awaits_lines()
    }
}
