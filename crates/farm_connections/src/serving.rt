//! A node with its connections, for those who have sockets.

ghost use Rattle.std.specs.Prelude.{◌≡◌, ◌<◌, ◌+◌, ◌∷◌, ◌++◌, [], length, option_to_list, false, true, IfNone, IfOk, IfSome, IsNone, OnOk, Some};
ghost use Rattle.farm_metrics.specs.Counting.{IsNothing};
ghost use Rattle.farm_metrics.specs.Tallying.{at_clock, with_dial_failure, with_refused};
ghost use Rattle.farm_node.specs.Events as event;
ghost use Rattle.farm_record.specs.Lines.{line_of};
ghost use Rattle.farm_record.specs.Recording as told;
ghost use Rattle.farm_connections.specs.Calls.{AllClose, BringsOn, ThenSettles, TimePasses};
ghost use Rattle.farm_connections.specs.Desks.{AreSettled, IsDownAt, IsEndOf, IsMade, IsRecordedOnly, Tells, accepts, kept_by};
ghost use Rattle.farm_connections.specs.Counting.{IsLetGo};
ghost use Rattle.farm_connections.specs.Doing.{Reacts};
ghost use Rattle.farm_connections.specs.Locals.{site_at};
ghost use Rattle.farm_connections.specs.Sending.{AreInOrder, Begins, BeginsSo, HasNone, IsLinkOf, WritesOn};
ghost use Rattle.farm_connections.specs.Turns.{IsDown, beginning};

use crate::counting::count_let_go;
use crate::desk::{Desk, greet, place_of};
use crate::end::{End, Ended, NotTaken, Refusal};
use crate::link::{Link, Standing, flush_at, is_overdue};
use crate::local::{LocalNode, site_of};
use crate::naming::NameRule;
use crate::note::{NOTE_LIMIT, Note, Notes};
use dia_avp::Wire;
use dia_base::{ConnId, Moment, NodeNo};
use farm_metrics::{Micros, Tally};
use farm_net::{Conn, Device};
use farm_node::{Node, Refuses};
use farm_record::{Event, Recorded, Recorder};
use farm_watch::{Acts, Numbering, Side, Watch};
use std::alloc::{AllocError, Global};
use std::io::{Read, Write};

/// The most connections that others have made and on which no node is up. A further one is refused. Each is dropped an
/// interval after it was made (`WatchSite::interval`), so that nobody keeps a place by saying nothing.
pub const UNKNOWN_LIMIT: usize = 64;

/// A node with its connections over any readers and writers: what they bring the node is told, and what it says is
/// sent. The node may be several of the site, as all its fronts over one book are.
pub struct Serving<N, R, W> {
    desk: Desk<N, R, W>,
    locals: Vec<LocalNode>,
}

// By hand, so that each exit of an owner is proved with one call.
impl<N: Drop, R: Drop, W: Drop> Drop for Serving<N, R, W> {
    fn drop(self) {
        let Serving { desk: _, locals: _ } = self;
    }
}

/// Whether the connection was made by others, and no node was ever up on it.
fn is_unknown<R, W>(link: &Link<R, W>) -> bool {
    link.accepted && link.standing == Standing::Waiting
}

/// Whether there is nothing more to do with a connection at this moment.
fn is_over<R: Read + Device, W: Write + Device>(link: &Link<R, W>, moment: Moment) -> bool
    ensures { result ≡ true → IsDown link.now.standing }
{
    match (link.end, link.standing) {
        (None, _) | (Some(_), Standing::Up { .. }) => false,
        (Some((_, since)), Standing::Waiting | Standing::Over { .. }) => {
            link.conn.is_done() || is_overdue(since, moment)
        }
    }
}

/// The place of a connection with which there is nothing more to do.
fn place_of_over<R: Read + Device, W: Write + Device>(
    links: &[Link<R, W>],
    moment: Moment,
) -> Option<usize>
    ensures within { IfSome result (λ place. place < length links.now) }
    ensures down { IfSome result (λ place. IsDownAt links.now place) }
{
    links.iter().position(|link| is_over(link, moment))
}

impl<N: Node, R: Read + Device, W: Write + Device> Serving<N, R, W> {
    /// A node without connections, which is all of these nodes of the site. Connections are numbered from 1.
    pub fn new(alloc: Global, node: N, locals: Vec<LocalNode>) -> Self
        ensures begins { kept_by result.desk ≡ beginning node }
        ensures settled { AreSettled result.desk.links.items }
        ensures locals { result.locals ≡ locals }
        ensures fresh { (result.desk.failed ≡ false) × (result.desk.answers ≡ 0) × (result.desk.numbering ≡ Numbering.HopByHop) × IsNothing result.desk.tally }
        ensures notes { (result.desk.notes.waiting.items ≡ []) × (result.desk.notes.dropped ≡ 0) }
    {
        Serving {
            desk: Desk {
                alloc,
                node,
                links: Vec::new(alloc),
                notes: Notes::new(alloc),
                tally: Tally::nothing(alloc),
                recorder: Recorder::off(alloc),
                numbering: Numbering::HopByHop,
                answers: 0,
                made: 0,
                failed: false,
            },
            locals,
        }
    }

    /// Some node has connected to the node `local`, and it is none of `barred`, which may not come up that connect from where
    /// it is. It has an interval to say who it is.
    pub fn accept(
        &mut self,
        local: NodeNo,
        barred: Vec<NodeNo>,
        reader: R,
        writer: W,
        moment: Moment,
    ) -> Result<ConnId, NotTaken<R, W>>
        ensures made { IfOk result (λ conn. IsMade conn local true barred.items NameRule.Any self.old.desk.links.items self.new.desk.links.items) }
        ensures tells { Tells N.on_event self.old.desk self.new.desk }
        ensures settled { AreSettled self.old.desk.links.items → AreSettled self.new.desk.links.items }
        ensures begins { OnOk result (Begins self.old.locals.items self.old.desk.numbering local Side.Accepts moment self.old.desk.links.items self.new.desk.links.items) }
        ensures locals { self.new.locals ≡ self.old.locals }
    {
        let unknown = self
            .desk
            .links
            .iter()
            .filter(|link| is_unknown(link))
            .count();
        if unknown >= UNKNOWN_LIMIT {
            let limit = UNKNOWN_LIMIT;
            let why = Refusal::TooManyUnknown { limit };
            return Err(NotTaken {
                reader,
                writer,
                why,
            });
        }
        self.add(
            local,
            Side::Accepts,
            barred,
            NameRule::Any,
            reader,
            writer,
            moment,
        )
    }

    /// The node `local` has connected to the node `peer`, which comes up by a name of `names`: its
    /// Capabilities-Exchange-Request waits to be written.
    pub fn connect(
        &mut self,
        local: NodeNo,
        peer: NodeNo,
        names: NameRule,
        reader: R,
        writer: W,
        moment: Moment,
    ) -> Result<ConnId, NotTaken<R, W>>
        ensures made { IfOk result (λ conn. IsMade conn local false [] names self.old.desk.links.items self.new.desk.links.items) }
        ensures tells { Tells N.on_event self.old.desk self.new.desk }
        ensures settled { AreSettled self.old.desk.links.items → AreSettled self.new.desk.links.items }
        ensures begins { OnOk result (Begins self.old.locals.items self.old.desk.numbering local (Side.Connects peer) moment self.old.desk.links.items self.new.desk.links.items) }
        ensures locals { self.new.locals ≡ self.old.locals }
    {
        let barred = Vec::new(self.desk.alloc);
        self.add(
            local,
            Side::Connects(peer),
            barred,
            names,
            reader,
            writer,
            moment,
        )
    }

    /// A new connection, or why there is none.
    fn add(
        &mut self,
        local: NodeNo,
        side: Side,
        barred: Vec<NodeNo>,
        names: NameRule,
        reader: R,
        writer: W,
        moment: Moment,
    ) -> Result<ConnId, NotTaken<R, W>>
        ensures made { IfOk result (λ conn. IsMade conn local (accepts side) barred.items names self.old.desk.links.items self.new.desk.links.items) }
        ensures tells { Tells N.on_event self.old.desk self.new.desk }
        ensures settled { AreSettled self.old.desk.links.items → AreSettled self.new.desk.links.items }
        ensures begins { OnOk result (Begins self.old.locals.items self.old.desk.numbering local side moment self.old.desk.links.items self.new.desk.links.items) }
        ensures locals { self.new.locals ≡ self.old.locals }
    {
        let (id, watch, acts) = match self.begin(local, side, moment) {
            Ok(begun) => begun,
            Err(why) => return Err(NotTaken {
                reader,
                writer,
                why,
            }),
        };
        if self.desk.links.reserve(1).is_err() {
            let why = Refusal::OutOfMemory;
            return Err(NotTaken {
                reader,
                writer,
                why,
            });
        }
        let mut link = Link {
            id,
            local,
            accepted: side == Side::Accepts,
            barred,
            names,
            watch,
            conn: Conn::new(self.desk.alloc, reader, writer),
            standing: Standing::Waiting,
            open: 0,
            farewell: None,
            end: None,
        };
        let acts = self.desk.numbering.number(acts, moment);
        greet(&mut link, acts, moment);
        self.desk.put(link);
        Ok(id)
    }

    /// The number and the life of a new connection, and what is sent on it first.
    fn begin(
        &self,
        local: NodeNo,
        side: Side,
        moment: Moment,
    ) -> Result<(ConnId, Watch, Acts), Refusal>
        ensures number { IfOk result (λ begun. begun.0.0 ≡ self.now.desk.made + 1) }
        ensures life { IfOk result (λ begun. BeginsSo (site_at local self.now.locals.items) side moment begun.1 begun.2) }
    {
        let Some(site) = site_of(&self.locals, local) else {
            return Err(Refusal::UnknownLocal { local });
        };
        let Some(number) = self.desk.made.checked_add(1) else {
            return Err(Refusal::NoNumber);
        };
        match Watch::new(self.desk.alloc, site, side, moment) {
            Ok((watch, acts)) => Ok((ConnId(number), watch, acts)),
            Err(AllocError) => Err(Refusal::OutOfMemory),
        }
    }

    /// A connection may have octets. They are read for one turn, at most 64 times, `piece` at a time, and so many messages at
    /// most. The node is told of what came. What is sent for it waits to be written ([`Serving::write_all`]). `piece` is not
    /// empty, and what it holds is of no account. A number that no connection has changes nothing.
    pub fn readable<P: Wire>(&mut self, conn: ConnId, piece: &mut [u8], most: usize, moment: Moment)
        requires { 0 < length piece.old }
        ensures settled { AreSettled self.new.desk.links.items }
        ensures tells { Tells N.on_event self.old.desk self.new.desk }
        ensures brings { ThenSettles N.on_event (BringsOn N.on_event R.remaining self.old.locals.items most moment conn) self.old.desk self.new.desk }
        ensures locals { self.new.locals ≡ self.old.locals }
    {
        self.desk
            .receive_on::<P>(&self.locals, conn, piece, most, moment);
        self.desk.settle::<P>(moment);
    }

    /// A connection may take octets: it writes for one turn, at most 64 times.
    pub fn writable<P: Wire>(&mut self, conn: ConnId, moment: Moment)
        ensures settled { AreSettled self.new.desk.links.items }
        ensures tells { Tells N.on_event self.old.desk self.new.desk }
        ensures writes { ThenSettles N.on_event (λ old mid. kept_by mid ≡ kept_by old) self.old.desk self.new.desk }
        ensures writes_on { ThenSettles N.on_event (λ old mid. WritesOn conn old.links.items mid.links.items) self.old.desk self.new.desk }
        ensures locals { self.new.locals ≡ self.old.locals }
    {
        self.desk.flush_on(conn, moment);
        self.desk.settle::<P>(moment);
    }

    /// Each connection writes for one turn.
    pub fn write_all<P: Wire>(&mut self, moment: Moment)
        ensures settled { AreSettled self.new.desk.links.items }
        ensures tells { Tells N.on_event self.old.desk self.new.desk }
        ensures writes { ThenSettles N.on_event (λ old mid. kept_by mid ≡ kept_by old) self.old.desk self.new.desk }
        ensures locals { self.new.locals ≡ self.old.locals }
    {
        for place in 0..self.desk.links.len() {
            flush_at(&mut self.desk.links[place], moment);
        }
        self.desk.settle::<P>(moment);
    }

    /// Time has passed: for the node, and for the life of each connection.
    pub fn tick<P: Wire>(&mut self, moment: Moment)
        ensures settled { AreSettled self.new.desk.links.items }
        ensures tells { Tells N.on_event self.old.desk self.new.desk }
        ensures passes { ThenSettles N.on_event (TimePasses N.on_event self.old.locals.items moment) self.old.desk self.new.desk }
        ensures locals { self.new.locals ≡ self.old.locals }
    {
        self.desk.tick_node::<P>(moment);
        self.desk.tick_all::<P>(&self.locals, moment);
        self.desk.settle::<P>(moment);
    }

    /// Something that works for the node elsewhere has something for it.
    pub fn wake<P: Wire>(&mut self, moment: Moment)
        ensures settled { AreSettled self.new.desk.links.items }
        ensures tells { Tells N.on_event self.old.desk self.new.desk }
        ensures woken { ThenSettles N.on_event (Reacts N.on_event event.wake) self.old.desk self.new.desk }
        ensures locals { self.new.locals ≡ self.old.locals }
    {
        self.desk.wake_node::<P>(moment);
        self.desk.settle::<P>(moment);
    }

    /// Each connection is to end in good order: the other end of one that is up is told by Disconnect-Peer-Request,
    /// and one that is not up ends at once.
    pub fn close_all<P: Wire>(&mut self, moment: Moment)
        ensures settled { AreSettled self.new.desk.links.items }
        ensures tells { Tells N.on_event self.old.desk self.new.desk }
        ensures closes { ThenSettles N.on_event (AllClose N.on_event self.old.locals.items moment) self.old.desk self.new.desk }
        ensures locals { self.new.locals ≡ self.old.locals }
    {
        self.desk.close_all::<P>(&self.locals, moment);
        self.desk.settle::<P>(moment);
    }

    /// Takes out a connection that has ended and on which nothing waits to be written any more, or for longer than
    /// [`crate::LINGER`]. The node was told of its end before. To be called until there is none.
    pub fn take_ended(&mut self, moment: Moment) -> Option<Ended<R, W>>
        ensures tells { Tells N.on_event self.old.desk self.new.desk }
        ensures settled { AreSettled self.old.desk.links.items → AreSettled self.new.desk.links.items }
        ensures none { IsNone result → self.new ≡ self.old }
        ensures of_link { IfSome result (IsEndOf self.old.desk.links.items) }
        ensures counts { IfSome result (IsLetGo self.old.desk.links.items self.old.desk.tally self.new.desk.tally) }
        ensures locals { self.new.locals ≡ self.old.locals }
    {
        let place = place_of_over(&self.desk.links, moment)?;
        let (why, _) = self.desk.links[place].end?;
        let link = self.desk.take_out(place);
        self.desk.notes.let_go(link.id, link.standing, why);
        count_let_go(&mut self.desk.tally, link.accepted, link.standing);
        self.desk.recorder.gone(self.desk.alloc, link.id);
        Some(Ended {
            conn: link.id,
            local: link.local,
            peer: link.standing.peer(),
            why,
            farewell: link.farewell,
            streams: link.conn,
        })
    }

    /// From now on the requests of the lives of its connections are numbered so from end to end. At first each has its
    /// Hop-by-Hop Identifier.
    pub fn number(&mut self, numbering: Numbering)
        ensures { self.new ≡ record self.old { desk = record self.old.desk { numbering = numbering } } }
    {
        self.desk.numbering = numbering;
    }

    /// From now on it is recorded what happens.
    pub fn begin_record(&mut self, recorder: Recorder)
        ensures only { IsRecordedOnly self.old.desk self.new.desk }
        ensures begins { self.new ≡ record self.old { desk = record self.old.desk { recorder = recorder } } }
    {
        self.desk.recorder = recorder;
    }

    /// What is recorded from now on happens at this moment.
    pub fn begin_turn(&mut self, moment: Moment)
        ensures only { IsRecordedOnly self.old.desk self.new.desk }
        ensures turn { self.new.desk.recorder ≡ record self.old.desk.recorder { turn = Some moment } }
    {
        self.desk.recorder.turn = Some(moment);
    }

    /// What is counted from now on happens when the clock says this.
    pub fn set_clock(&mut self, now: Micros)
        ensures kept { kept_by self.new.desk ≡ kept_by self.old.desk }
        ensures links { self.new.desk.links ≡ self.old.desk.links }
        ensures counts { self.new.desk.tally ≡ at_clock now self.old.desk.tally }
        ensures locals { self.new.locals ≡ self.old.locals }
    {
        self.desk.tally.set_clock(now);
    }

    /// Counts a connection that somebody has made to a node here, and that was not taken.
    pub fn count_refused(&mut self)
        ensures kept { kept_by self.new.desk ≡ kept_by self.old.desk }
        ensures links { self.new.desk.links ≡ self.old.desk.links }
        ensures counts { self.new.desk.tally ≡ with_refused self.old.desk.tally }
        ensures locals { self.new.locals ≡ self.old.locals }
    {
        self.desk.tally.conn_refused();
    }

    /// Counts a connection of a node here that was not made.
    pub fn count_dial_failed(&mut self)
        ensures kept { kept_by self.new.desk ≡ kept_by self.old.desk }
        ensures links { self.new.desk.links ≡ self.old.desk.links }
        ensures counts { self.new.desk.tally ≡ with_dial_failure self.old.desk.tally }
        ensures locals { self.new.locals ≡ self.old.locals }
    {
        self.desk.tally.dial_failed();
    }

    /// Records a connection that the node `local` opens with the node `peer`, which both ends call so.
    pub fn record_dial(&mut self, conn: ConnId, local: NodeNo, peer: NodeNo, label: u64)
        ensures only { IsRecordedOnly self.old.desk self.new.desk }
        ensures dials { told.Tells (line_of self.old.desk.recorder.names.items (Event.Dial conn local peer label)) (told.with_conns self.old.desk.recorder self.new.desk.recorder) self.new.desk.recorder }
        ensures kept { told.takes self.old.desk.recorder ≡ true → self.new.desk.recorder.is_broken ≡ false → self.new.desk.recorder.conns.items ≡ self.old.desk.recorder.conns.items ++ record { conn = conn; label = label; opens = true; is_up = false } ∷ [] }
    {
        self.desk
            .recorder
            .dials(self.desk.alloc, conn, local, peer, label);
    }

    /// What both ends call a connection that somebody has opened. It is recorded once the node at the other end is known.
    pub fn record_taken(&mut self, conn: ConnId, label: u64)
        ensures only { IsRecordedOnly self.old.desk self.new.desk }
        ensures off { told.takes self.old.desk.recorder ≡ false → self.new.desk.recorder ≡ self.old.desk.recorder }
        ensures kept { told.takes self.old.desk.recorder ≡ true → self.new.desk.recorder.is_broken ≡ false → self.new.desk.recorder ≡ told.with_conns self.old.desk.recorder self.new.desk.recorder × (self.new.desk.recorder.conns.items ≡ self.old.desk.recorder.conns.items ++ record { conn = conn; label = label; opens = false; is_up = false } ∷ []) }
    {
        self.desk.recorder.takes(conn, label);
    }

    /// Records an event of the process.
    pub fn record_event(&mut self, event: &Event)
        ensures only { IsRecordedOnly self.old.desk self.new.desk }
        ensures tells { told.Tells (line_of self.old.desk.recorder.names.items event.now) self.old.desk.recorder self.new.desk.recorder }
    {
        self.desk.recorder.tell(self.desk.alloc, event);
    }

    /// What is recorded and not written yet.
    pub fn recorder(&self) -> &Recorder
        ensures { result.now ≡ self.now.desk.recorder }
    {
        &self.desk.recorder
    }

    /// What is recorded was written.
    pub fn record_written(&mut self)
        ensures only { IsRecordedOnly self.old.desk self.new.desk }
        ensures lines { self.new.desk.recorder.lines.items ≡ [] }
        ensures written { self.new.desk.recorder ≡ record self.old.desk.recorder { lines = self.new.desk.recorder.lines; came_at = 0 } }
    {
        self.desk.recorder.clear();
    }

    /// What is recorded cannot be written, and no more is recorded.
    pub fn record_failed(&mut self)
        ensures only { IsRecordedOnly self.old.desk self.new.desk }
        ensures lines { self.new.desk.recorder.lines.items ≡ [] }
        ensures written { self.new.desk.recorder ≡ record self.old.desk.recorder { lines = self.new.desk.recorder.lines; came_at = 0; is_on = false } }
    {
        self.desk.recorder.stop();
    }

    /// Takes out a note; the oldest first.
    pub fn take_note(&mut self) -> Option<Note>
        ensures taken { self.old.desk.notes.waiting.items ≡ option_to_list result ++ self.new.desk.notes.waiting.items }
        ensures none { IfNone result (self.old.desk.notes.waiting.items ≡ []) }
        ensures dropped { self.new.desk.notes.dropped ≡ self.old.desk.notes.dropped }
        ensures only { self.new ≡ record self.old { desk = record self.old.desk { notes = self.new.desk.notes } } }
    {
        self.desk.notes.take_first()
    }

    /// How many notes had no place.
    pub fn notes_dropped(&self) -> u64
        ensures { result ≡ self.now.desk.notes.dropped }
    {
        self.desk.notes.dropped()
    }

    /// How many answers the node has sent: those of the node, and not those of the life of its connections.
    pub fn answers(&self) -> u64
        ensures { result ≡ self.now.desk.answers }
    {
        self.desk.answers
    }

    /// What the node has been told and has sent, counted.
    pub fn tally(&self) -> &Tally
        ensures { result.now ≡ self.now.desk.tally }
    {
        &self.desk.tally
    }

    /// How many connections there are, with those that have ended and are not taken out.
    pub fn count(&self) -> usize
        ensures { result ≡ length self.now.desk.links.items }
    {
        self.desk.links.len()
    }

    /// A connection, to be looked at: its standing, whether it has ended, its reader and writer, and whether it wants to
    /// write. None where no connection has this number.
    pub fn link(&self, conn: ConnId) -> Option<&Link<R, W>>
        ensures some { IfSome result (λ link. IsLinkOf self.now.desk.links.items conn link.now) }
        ensures none { AreInOrder self.now.desk.links.items → IfNone result (HasNone self.now.desk.links.items conn) }
    {
        let place = place_of(&self.desk.links, conn)?;
        self.desk.links.get(place)
    }

    /// All connections, to be looked at.
    pub fn links(&self) -> &[Link<R, W>]
        ensures { result.now ≡ self.now.desk.links.items }
    {
        &self.desk.links
    }

    /// Memory was missing where the node was told that a connection has ended. It cannot go on then: the process is to
    /// end, with status 4.
    pub fn has_failed(&self) -> bool
        ensures { result ≡ self.now.desk.failed }
    {
        self.desk.failed
    }

    /// The node.
    pub fn node(&self) -> &N
        ensures { result.now ≡ self.now.desk.node }
    {
        &self.desk.node
    }
}

impl<N, R: Drop, W: Drop> Serving<N, R, W> {
    /// The node, and what is recorded and not written yet. The connections are let go.
    pub fn into_parts(self) -> (N, Recorder)
        ensures node { result.0 ≡ self.desk.node }
        ensures recorder { result.1 ≡ self.desk.recorder }
    {
        let Serving { desk, locals: _ } = self;
        let Desk {
            alloc: _,
            node,
            links: _,
            notes: _,
            tally: _,
            recorder,
            numbering: _,
            answers: _,
            made: _,
            failed: _,
        } = desk;
        (node, recorder)
    }
}

impl<N: Node + Recorded, R: Read + Device, W: Write + Device> Serving<N, R, W> {
    /// Records what the node has done that only it can tell of.
    pub fn record_node(&mut self)
        ensures tells { Tells N.on_event self.old.desk self.new.desk }
        ensures settled { AreSettled self.old.desk.links.items → AreSettled self.new.desk.links.items }
        ensures locals { self.new.locals ≡ self.old.locals }
    {
        self.desk
            .node
            .tell_events(self.desk.alloc, &mut self.desk.recorder);
    }
}

impl<N: Node + Refuses, R: Read + Device, W: Write + Device> Serving<N, R, W> {
    /// Notes the requests that the node has refused since this was called last, as far as there is room for notes.
    pub fn note_refused(&mut self)
        ensures kept { kept_by self.new.desk ≡ kept_by self.old.desk }
        ensures links { self.new.desk.links ≡ self.old.desk.links }
        ensures locals { self.new.locals ≡ self.old.locals }
    {
        for _ in 0..NOTE_LIMIT {
            if !self.note_one() {
                return;
            }
        }
    }

    /// Notes the oldest request that the node has refused, if there is one.
    fn note_one(&mut self) -> bool
        ensures kept { kept_by self.new.desk ≡ kept_by self.old.desk }
        ensures links { self.new.desk.links ≡ self.old.desk.links }
        ensures locals { self.new.locals ≡ self.old.locals }
    {
        let Some(refused) = self.desk.node.take_refused() else {
            return false;
        };
        self.desk.notes.refused(refused);
        true
    }
}
