//! All that plays: whether an entry of a node may happen, and then it has.
//!
//! - `reading`: what is kept of entries that were read. `handing`: requests at fronts. `closing`: connections that fronts have lost.
//! - `charges`: the book. `untold`: what only a book on disk tells.

mod charges;
mod closing;
mod handing;
mod reading;
mod untold;

ghost use Rattle.std.specs.Prelude.{◌≡◌, [], IfOk, IsTrue};
ghost use Rattle.farm_base.specs.CheckedSite.{IsChecked};
ghost use Rattle.farm_base.specs.Nodes.{is_front};
ghost use Rattle.farm_player.specs.Reconciling.{Agrees, Stays};
ghost use Rattle.record_player.specs.Playing.{run_of};

use crate::fault::PlayResult;
use crate::links::LinkPlayer;
use crate::played::Played;
use dia_base::NodeNo;
use dia_message::Message;
use farm_player::PlayedFarm;
use farm_world::Site;
use record_reader::{Action, End, NodeEvent, Position};
use record_state::{Beginning, BookTold, Fronts, NodeEntry, RequestState};
use std::alloc::{AllocError, Global};

/// The farm that plays, and what was read of the records and is about connections, requests and the book. After a fault it is not to be
/// used any further.
pub struct Player<'s> {
    alloc: Global,
    links: LinkPlayer<'s>,
    fronts: Fronts,
    book: BookTold,
}

// By hand, so that each exit of an owner is proved with one call.
impl<'s> Drop for Player<'s> {
    fn drop(self) {
        let Player {
            alloc: _,
            links: _,
            fronts: _,
            book: _,
        } = self;
    }
}

impl<'s> Player<'s> {
    /// The farm of a site before its first event. `prints`: whether the lines of its steps are asked for.
    pub fn new(alloc: Global, site: &'s Site, prints: bool) -> Result<Self, AllocError>
        requires { IsChecked site.now }
        ensures told { IfOk result (λ player. player.links.played.told ≡ []) }
        ensures site { IfOk result (λ player. player.links.played.farm.site ≡ site.now) }
    {
        Ok(Player {
            alloc,
            links: LinkPlayer::new(alloc, Played::open(alloc, site, prints)?),
            fronts: Fronts::new(alloc, site)?,
            book: BookTold::new(alloc),
        })
    }

    pub fn farm(&self) -> &PlayedFarm<'s>
        ensures { result.now ≡ self.now.links.played.farm }
    {
        self.links.played.farm()
    }

    /// Whether each relay and each client that has a record has received all that it tells.
    pub fn agrees(&self) -> bool
        ensures { IsTrue result → Agrees (run_of self.now) }
    {
        self.links.played.agrees()
    }

    /// What was told of the book.
    pub fn book(&self) -> &BookTold {
        &self.book
    }

    /// Hands out the lines of the steps since the last time.
    pub fn take_lines(&mut self) -> Vec<u8>
        ensures stays { Stays self.old.links.played self.new.links.played }
    {
        self.links.played.take_lines()
    }

    fn is_front(&self, node: NodeNo) -> bool
        ensures { result ≡ is_front self.now.links.played.farm.site node }
    {
        self.links.played.is_front(node)
    }

    /// Plays the next entry of a node if it may happen. Whether it did.
    pub fn try_entry(&mut self, entry: &NodeEntry) -> PlayResult<bool>
        ensures stays { Stays self.old.links.played self.new.links.played }
    {
        match entry {
            NodeEntry::Begin(beginning) => self.begin(beginning),
            NodeEntry::Event(event) => self.try_event(event),
        }
    }

    fn try_event(&mut self, event: &NodeEvent) -> PlayResult<bool>
        ensures stays { Stays self.old.links.played self.new.links.played }
    {
        let (position, end) = (event.position, event.end);
        match &event.action {
            Action::Dial => self.links.connections.dial(end.conn),
            Action::Accept => return self.accept(position, end),
            Action::Opened => return self.open(position, end),
            Action::Send(message) => {
                self.links
                    .played
                    .send(position, end.node, end.peer, message)?
            }
            Action::Receive(message) => return self.receive(event, message),
            Action::Drop { was_up } => self.lose(event, *was_up)?,
        }
        Ok(true)
    }

    /// The process of a node begins. Where it does again, that of a front does once all that it has charged before is played: it has
    /// forgotten all but the book. Whether it did.
    fn begin(&mut self, beginning: &Beginning) -> PlayResult<bool>
        ensures stays { Stays self.old.links.played self.new.links.played }
    {
        let (position, node) = (beginning.position, beginning.node);
        let requests_before = beginning.requests_before;
        if beginning.is_first {
            return Ok(true);
        }
        if !self.is_front(node) {
            self.links.begin_again(position, node)?;
            return Ok(true);
        }
        let is_behind = self.book.is_behind(beginning.moment);
        if is_behind || self.fronts.has_finished_before(node, requests_before) {
            return Ok(false);
        }
        self.links.connections.lose_all_of(node);
        self.fronts.restart(node, requests_before);
        self.links.played.crash(position, node)?;
        Ok(true)
    }

    /// A connection is accepted once the other node has dialled it, and both have no other one any more. Whether it is.
    fn accept(&mut self, position: Position, end: End) -> PlayResult<bool>
        ensures stays { Stays self.old.links.played self.new.links.played }
    {
        let dials = self.links.connections.open_dials(end);
        if dials.is_none() && !self.links.played.is_silent(position, end.peer)? {
            return Ok(false);
        }
        let opener = dials.map_or(end.conn, |dials| dials.first);
        if !self.make_free(position, end, opener)? {
            return Ok(false);
        }
        self.links.accept(position, end, dials)
    }

    /// A node learns that its connection is made. If a client without a record is to accept it, both have no other one any more. Whether
    /// it does.
    fn open(&mut self, position: Position, end: End) -> PlayResult<bool>
        ensures stays { Stays self.old.links.played self.new.links.played }
    {
        let is_silent = self.links.played.is_silent(position, end.peer)?;
        if is_silent && !self.make_free(position, end, end.conn)? {
            return Ok(false);
        }
        self.links.opened(position, end, is_silent)
    }

    /// A message arrives, once it was sent. A request that a front hands to its workers stays in flight. Whether it did.
    fn receive(&mut self, event: &NodeEvent, message: &Message) -> PlayResult<bool>
        ensures stays { Stays self.old.links.played self.new.links.played }
    {
        let End { conn, node, peer } = event.end;
        let arrived = self.fronts.arrived_on(conn);
        let Some(place) = self.links.next_place(event, message, arrived)? else {
            return Ok(false);
        };
        if !self.is_front(node) {
            self.links.arrive(event, message, place)?;
        } else if let Some(number) = event.request {
            self.fronts.set_state(number, RequestState::Arrived);
        } else if !message.header.request {
            let position = event.position;
            self.links.played.deliver(position, peer, node, place)?;
        } else if !self.hand_back(event)? {
            return Ok(false);
        }
        self.links.connections.set_sent(conn, false);
        Ok(true)
    }

    /// A node learns that its connection has ended, or gives up one that it does not know.
    fn lose(&mut self, event: &NodeEvent, was_up: bool) -> PlayResult<()>
        ensures stays { Stays self.old.links.played self.new.links.played }
    {
        let (position, end) = (event.position, event.end);
        self.links.connections.lose(end.conn);
        if !was_up {
            self.links.give_up(position, end)
        } else if self.is_front(end.node) {
            self.links.connections.set_closing(end.conn, true);
            self.drop_if_done(position, end)
        } else {
            self.links.drop_end(event)
        }
    }

    // ---- where nothing else may happen

    /// The dial that an entry may be of where nothing else may happen: an `accept`, of dials that were all given up.
    pub fn late_dial(&self, entry: &NodeEntry) -> Option<usize> {
        self.links.late_dial(entry)
    }

    /// A connection is accepted that may be of this dial, which was given up.
    pub fn accept_late(&mut self, event: &NodeEvent, dial: usize) -> PlayResult<()>
        ensures stays { Stays self.old.links.played self.new.links.played }
    {
        self.links.accept_late(event, dial)
    }

    /// A node learns that its connection is made, though a dial before it may be the one that was accepted. Whether the entry
    /// tells that, and it did.
    pub fn open_late(&mut self, entry: &NodeEntry) -> PlayResult<bool>
        ensures stays { Stays self.old.links.played self.new.links.played }
    {
        self.links.open_late(entry)
    }
}
