//! What a process has not written yet of its record.

ghost use Rattle.std.specs.Prelude.{◌≡◌, ◌++◌, ◌∷◌, [], find, length, option_copied, MatchBool, OnOk, OnErr, Some, None, take, codes, true, false};
ghost use Rattle.farm_record.specs.declared.event.Event.TheVariants as Event;
ghost use Rattle.farm_record.specs.Lines.{line_of};
ghost use Rattle.farm_record.specs.Recording.{EndsBehind, IsOf, Tells, TellsAll, is_given_up, is_of, passed_line, sent_word, takes, turn_line, up_event, with_conns, without};

use crate::event::Event;
use crate::writing::{push_event, push_passed};
use dia_base::{ConnId, Identity, Moment, NodeNo};
use dia_message::Message;
use std::alloc::{AllocError, Global};

/// A connection of the process, and what both ends call it.
#[derive(Clone, Copy)]
pub struct Labelled {
    pub conn: ConnId,
    pub label: u64,
    /// Whether this process opens it.
    pub opens: bool,
    /// Whether the record has told that it is made.
    pub is_up: bool,
}

/// Somebody who does what nobody else can tell of, and keeps it until it is told.
pub trait Recorded {
    /// Tells what was done since it was asked last, in the order in which it was done. What contracts see of it stays.
    fn tell_events(&mut self, alloc: Global, recorder: &mut Recorder)
        ensures { self.new ≡ self.old };
}

/// The lines of a record that are not written yet. One that is off takes none.
pub struct Recorder {
    pub lines: Vec<u8>,
    /// The names of the site's nodes.
    pub names: Vec<Identity>,
    pub is_on: bool,
    /// Whether the process is a client, whose messages are told as sent.
    pub is_client: bool,
    /// Memory was missing for a line: nothing more is told.
    pub is_broken: bool,
    /// The moment of this turn, where no line was told in it yet.
    pub turn: Option<Moment>,
    /// The connections of the process.
    pub conns: Vec<Labelled>,
    /// Where the line begins of the message that came last.
    pub came_at: usize,
}

// By hand, so that each exit of an owner is proved with one call.
impl Drop for Recorder {
    fn drop(self) {
        let Recorder {
            lines: _,
            names: _,
            is_on: _,
            is_client: _,
            is_broken: _,
            turn: _,
            conns: _,
            came_at: _,
        } = self;
    }
}

fn is_of(known: &Labelled, conn: ConnId) -> bool
    ensures { result ≡ is_of conn known.now }
{
    known.conn.0 == conn.0
}

/// The first of these with this number.
fn first_of(conns: &[Labelled], conn: ConnId) -> Option<&Labelled>
    ensures { option_copied result ≡ find (is_of conn) conns.now }
{
    conns.iter().find(|known| is_of(known, conn))
}

/// What is told where the node at the other end of a connection is known, of which the process knows this.
fn up_event(conn: ConnId, node: NodeNo, peer: NodeNo, known: Option<Labelled>) -> Event
    ensures { result ≡ up_event conn node peer known }
{
    match known {
        Some(known) if known.opens => Event::Opened { conn },
        Some(known) => Event::Accept {
            conn,
            node,
            peer,
            label: known.label,
        },
        None => Event::Accept {
            conn,
            node,
            peer,
            label: 0,
        },
    }
}

/// The word of what a process sends: a client of its own accord, others for the event before.
fn sent_word(is_client: bool) -> &'static str
    ensures { result.now ≡ sent_word is_client }
{
    if is_client { "send" } else { "out" }
}

impl Recorder {
    /// One that takes no lines.
    pub fn off(alloc: Global) -> Self {
        Recorder {
            lines: Vec::new(alloc),
            names: Vec::new(alloc),
            is_on: false,
            is_client: false,
            is_broken: false,
            turn: None,
            conns: Vec::new(alloc),
            came_at: 0,
        }
    }

    /// One without lines, of a site whose nodes have these names.
    pub fn on(alloc: Global, names: Vec<Identity>, is_client: bool) -> Self {
        Recorder {
            lines: Vec::new(alloc),
            names,
            is_on: true,
            is_client,
            is_broken: false,
            turn: None,
            conns: Vec::new(alloc),
            came_at: 0,
        }
    }

    /// Whether it takes lines.
    pub fn is_on(&self) -> bool
        ensures { result ≡ takes self.now }
    {
        self.is_on && !self.is_broken
    }

    /// The lines that are not written yet.
    pub fn lines(&self) -> &[u8]
        ensures { result.now ≡ self.now.lines.items }
    {
        &self.lines
    }

    /// They were written.
    pub fn clear(&mut self)
        ensures lines { self.new.lines.items ≡ [] }
        ensures only { self.new ≡ record self.old { lines = self.new.lines; came_at = 0 } }
    {
        self.lines.clear();
        self.came_at = 0;
    }

    /// They were not written, and no more will be.
    pub fn stop(&mut self)
        ensures lines { self.new.lines.items ≡ [] }
        ensures only { self.new ≡ record self.old { lines = self.new.lines; came_at = 0; is_on = false } }
    {
        self.clear();
        self.is_on = false;
    }

    /// Tells the moment of the turn, before its first line.
    fn tell_turn(&mut self, alloc: Global)
        ensures { Tells [] self.old self.new }
    {
        if !self.is_on() {
            return;
        }
        if let Some(moment) = self.turn.take() {
            let before = self.lines.len();
            let told = push_event(alloc, &mut self.lines, &self.names, &Event::Time { moment });
            self.settle(before, told);
        }
    }

    /// What could not be told in full is taken back to where it began, and the record ends there.
    fn settle(&mut self, before: usize, told: Result<(), AllocError>)
        requires { takes self.old ≡ true }
        ensures ok { OnOk told (self.new ≡ self.old) }
        ensures broken { OnErr told (self.new.is_broken ≡ true) }
        ensures ends { OnErr told (EndsBehind (take before self.old.lines.items) self.new.lines.items) }
        ensures only { IsOf self.old self.new }
    {
        if told.is_err() {
            self.lines.truncate(before);
            self.fail();
        }
    }

    /// Memory was missing for something that was to be told: the record ends here.
    pub fn fail(&mut self)
        ensures broken { takes self.old ≡ true → self.new.is_broken ≡ true }
        ensures off { takes self.old ≡ false → self.new ≡ self.old }
        ensures ends { EndsBehind self.old.lines.items self.new.lines.items }
        ensures only { IsOf self.old self.new }
    {
        if self.is_on() {
            self.is_broken = true;
            let _ = self.lines.extend_from_slice(b"lost\n");
        }
    }

    /// Whether memory was missing for something that was to be told.
    pub fn has_failed(&self) -> bool
        ensures { result ≡ self.now.is_broken }
    {
        self.is_broken
    }

    /// An event.
    pub fn tell(&mut self, alloc: Global, event: &Event)
        ensures { Tells (line_of self.old.names.items event.now) self.old self.new }
    {
        self.tell_turn(alloc);
        if self.is_on() {
            let before = self.lines.len();
            let told = push_event(alloc, &mut self.lines, &self.names, event);
            self.settle(before, told);
        }
    }

    /// The process opens a connection, which both ends call so.
    pub fn dials(&mut self, alloc: Global, conn: ConnId, node: NodeNo, peer: NodeNo, label: u64)
        ensures told { Tells (line_of self.old.names.items (Event.Dial conn node peer label)) (with_conns self.old self.new) self.new }
        ensures kept { takes self.old ≡ true → self.new.is_broken ≡ false → self.new.conns.items ≡ self.old.conns.items ++ record { conn = conn; label = label; opens = true; is_up = false } ∷ [] }
    {
        self.tell(
            alloc,
            &Event::Dial {
                conn,
                node,
                peer,
                label,
            },
        );
        self.keep(conn, label, true);
    }

    /// Somebody has opened a connection with the process, which both ends call so. Nothing is told of it before the node at
    /// the other end is known.
    pub fn takes(&mut self, conn: ConnId, label: u64)
        ensures off { takes self.old ≡ false → self.new ≡ self.old }
        ensures kept { takes self.old ≡ true → self.new.is_broken ≡ false → self.new ≡ with_conns self.old self.new × (self.new.conns.items ≡ self.old.conns.items ++ record { conn = conn; label = label; opens = false; is_up = false } ∷ []) }
    {
        self.keep(conn, label, false);
    }

    fn keep(&mut self, conn: ConnId, label: u64, opens: bool)
        ensures off { takes self.old ≡ false → self.new ≡ self.old }
        ensures kept { takes self.old ≡ true → self.new.is_broken ≡ false → self.new ≡ with_conns self.old self.new × (self.new.conns.items ≡ self.old.conns.items ++ record { conn = conn; label = label; opens = opens; is_up = false } ∷ []) }
        ensures ends { EndsBehind self.old.lines.items self.new.lines.items }
        ensures only { IsOf (with_conns self.old self.new) self.new }
    {
        if self.is_on() {
            let before = self.lines.len();
            let known = Labelled {
                conn,
                label,
                opens,
                is_up: false,
            };
            if self.conns.push(known).is_err() {
                self.settle(before, Err(AllocError));
            }
        }
    }

    /// The connection of this number, if it is known.
    fn known(&self, conn: ConnId) -> Option<Labelled>
        ensures { result ≡ find (is_of conn) self.now.conns.items }
    {
        first_of(&self.conns, conn).copied()
    }

    /// A node is up on the connection of this number.
    fn mark_up(&mut self, conn: ConnId)
        ensures { self.new ≡ with_conns self.old self.new }
    {
        if let Some(place) = self.conns.iter().position(|known| is_of(known, conn)) {
            self.conns[place].is_up = true;
        }
    }

    /// The node `peer` is at the other end of a connection of the node `node`.
    pub fn up(&mut self, alloc: Global, conn: ConnId, node: NodeNo, peer: NodeNo)
        ensures { Tells (line_of self.old.names.items (up_event conn node peer (find (is_of conn) self.old.conns.items))) (with_conns self.old self.new) self.new }
    {
        let known = self.known(conn);
        self.mark_up(conn);
        self.tell(alloc, &up_event(conn, node, peer, known));
    }

    /// Keeps no connection of this number.
    fn forget(&mut self, conn: ConnId)
        ensures conns { self.new.conns.items ≡ without conn self.old.conns.items }
        ensures only { self.new ≡ with_conns self.old self.new }
    {
        self.conns.retain(|known| !is_of(known, conn));
    }

    /// Whether the process has opened a connection that was never made.
    fn is_given_up(&self, conn: ConnId) -> bool
        ensures { result ≡ is_given_up conn self.now.conns.items }
    {
        self.conns.iter().any(|known| known.conn.0 == conn.0 && known.opens && !known.is_up)
    }

    /// A connection has ended on which a node was up.
    pub fn lost(&mut self, alloc: Global, conn: ConnId)
        ensures told { Tells (line_of self.old.names.items (Event.Drop conn)) (with_conns self.old self.new) self.new }
        ensures forgotten { self.new.conns.items ≡ without conn self.old.conns.items }
    {
        self.forget(conn);
        self.tell(alloc, &Event::Drop { conn });
    }

    /// A connection was let go. One that the process has opened, and that was never made, is told as given up.
    pub fn gone(&mut self, alloc: Global, conn: ConnId)
        ensures told { MatchBool (is_given_up conn self.old.conns.items) (Tells (line_of self.old.names.items (Event.Drop conn)) (with_conns self.old self.new) self.new) (self.new ≡ with_conns self.old self.new) }
        ensures forgotten { self.new.conns.items ≡ without conn self.old.conns.items }
    {
        if self.is_given_up(conn) {
            self.lost(alloc, conn);
        } else {
            self.forget(conn);
        }
    }

    /// A message came on a connection.
    pub fn came(&mut self, alloc: Global, conn: ConnId, message: &Message)
        ensures told { Tells (passed_line (codes "deliver") conn message.now) (record self.old { came_at = self.new.came_at }) self.new }
        ensures begins { takes self.old ≡ true → self.new.is_broken ≡ false → self.new.came_at ≡ length (self.old.lines.items ++ turn_line self.old.names.items self.old.turn) }
    {
        self.tell_turn(alloc);
        if self.is_on() {
            self.came_at = self.lines.len();
        }
        self.tell_message(alloc, "deliver", conn, message);
    }

    /// The message that came last was not taken, for want of memory: the node is as it was, and nothing is told of it.
    pub fn refused(&mut self)
        ensures lines { takes self.old ≡ true → self.new.lines.items ≡ take self.old.came_at self.old.lines.items }
        ensures off { takes self.old ≡ false → self.new ≡ self.old }
        ensures only { self.new ≡ record self.old { lines = self.new.lines } }
    {
        if self.is_on() {
            self.lines.truncate(self.came_at);
        }
    }

    /// What the process sends for the event before.
    pub fn sent(&mut self, alloc: Global, messages: &[(ConnId, Message)])
        ensures { TellsAll (sent_word self.old.is_client) self.old messages.now self.new }
    {
        let word = sent_word(self.is_client);
        for (conn, message) in messages {
            self.tell_message(alloc, word, *conn, message);
        }
    }

    fn tell_message(&mut self, alloc: Global, word: &str, conn: ConnId, message: &Message)
        ensures { Tells (passed_line word.now conn message.now) self.old self.new }
    {
        self.tell_turn(alloc);
        if self.is_on() {
            let before = self.lines.len();
            let told = push_passed(alloc, &mut self.lines, word, conn, message);
            self.settle(before, told);
        }
    }
}
