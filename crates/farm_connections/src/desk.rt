//! A node with its connections: what it is told, and in which order, and what is sent.

ghost use Rattle.std.specs.Prelude.{◌≡◌, ◌<◌, ◌+◌, ◌∷◌, ◌++◌, [], length, slice_index_or, vec_capacity, IfNone, IfOk, IfSome, OnErr, None, true, false};
ghost use Rattle.std.specs.List.{remove};
ghost use Rattle.farm_node.specs.Events as event;
ghost use Rattle.farm_watch.specs.declared.acts.Act.TheVariants as life;
ghost use Rattle.farm_connections.specs.Calls.{BringsOn, Settles};
ghost use Rattle.farm_connections.specs.Counting.{CountsAll};
ghost use Rattle.farm_connections.specs.Doing.{AtPlace, Becomes, DoesAct, EndsFor, EndsWhereRefused, FailsWhereRefused, HasEnded, Heard, Hears, Performs, Says};
ghost use Rattle.farm_connections.specs.Desks.{AreSettled, IsDownAt, IsPlaceOf, MayComeUpAt, NeverAsks, StandsAt, Tells, is_to_be_told, kept_by, mark_of, marks_of, ups};
ghost use Rattle.farm_connections.specs.Naming.{IsKeptOut, awaited, misnamed};
ghost use Rattle.farm_connections.specs.Sending.{AllGoOut, AreInOrder, GreetsAll, HasFlushed, HasNone, IsNumberedAt, IsSentOn, WritesOn};

use crate::counting::{count_failovers, count_lost, count_sent, count_up};
use crate::end::End;
use crate::link::{
    Link, Standing, be_over, come_up, end_at, end_unless_told, flush_at, greet_at, is_waiting,
    loss_of, may_come_up, open_after, open_peer, part_at, send_at,
};
use crate::local::{LocalNode, site_of};
use crate::naming::misnamed;
use crate::note::{Notes, kept_body};
use crate::recording::{record_lost, record_reaction, record_sent, record_up};
use dia_avp::Wire;
use dia_base::{ConnId, Moment, NodeNo};
use dia_message::{Message, Out};
use farm_metrics::Tally;
use farm_net::Device;
use farm_node::{Node, NodeError};
use farm_record::Recorder;
use farm_watch::{Act, Acts, DisconnectCause, Numbering, Waits, WatchSite};
use std::alloc::{AllocError, Global};
use std::io::{Read, Write};

/// A node with its connections, in the order of their numbers.
#[derive(Drop)]
pub struct Desk<N, R, W> {
    pub alloc: Global,
    pub node: N,
    pub links: Vec<Link<R, W>>,
    pub notes: Notes,
    pub tally: Tally,
    /// What is told of all this, where it is recorded.
    pub recorder: Recorder,
    /// How the requests of the lives of its connections are numbered from end to end.
    pub numbering: Numbering,
    /// How many answers the node has sent.
    pub answers: u64,
    /// How many connections were made.
    pub made: u64,
    /// The node could not be told of an end, for want of memory.
    pub failed: bool,
}

/// The place of a connection: they stand in the order of their numbers.
pub fn place_of<R, W>(links: &[Link<R, W>], conn: ConnId) -> Option<usize>
    ensures place { IfSome result (λ place. place < length links.now) }
    ensures number { IfSome result (λ place. IsNumberedAt links.now place conn) }
    ensures none { AreInOrder links.now → IfNone result (HasNone links.now conn) }
{
    let place = links.partition_point(|link| link.id.0 < conn.0);
    let link = links.get(place)?;
    if link.id.0 == conn.0 {
        Some(place)
    } else {
        None
    }
}

/// The place of a connection that has ended and of which the node is still to be told so.
pub fn place_of_loss<R, W>(links: &[Link<R, W>]) -> Option<usize>
    ensures place { IfSome result (λ place. place < length links.now) }
    ensures none { IfNone result (AreSettled links.now) }
    ensures some { IfSome result (λ place. IsPlaceOf is_to_be_told links.now place) }
{
    links.iter().position(|link| is_to_be_told(link))
}

fn is_to_be_told<R, W>(link: &Link<R, W>) -> bool
    ensures { result ≡ is_to_be_told link.now }
{
    match link.standing {
        Standing::Up { .. } => link.end.is_some(),
        Standing::Waiting | Standing::Over { .. } => false,
    }
}

/// The nodes that are up on connections of this node.
fn peers_of<R, W>(
    alloc: Global,
    links: &[Link<R, W>],
    local: NodeNo,
) -> Result<Vec<NodeNo>, AllocError> {
    let mut peers = Vec::new(alloc);
    for link in links {
        if let Some(peer) = peer_here(link, local) {
            peers.push(peer)?;
        }
    }
    Ok(peers)
}

/// Whether the life of a connection asks which nodes are up, by what it waits for: only while capabilities are exchanged.
fn asks_who_is_up(waits: Waits) -> bool
    ensures never { result ≡ false → NeverAsks waits }
    ensures nobody { result ≡ false → awaited waits ≡ None }
{
    match waits {
        Waits::ForCer { .. } | Waits::ForCea { .. } => true,
        Waits::ForMessage { .. }
        | Waits::ForDwa { .. }
        | Waits::ForDpa { .. }
        | Waits::ForClose { .. }
        | Waits::ForNothing => false,
    }
}

/// The nodes that are not welcome on a connection, by a message that comes on it while its life asks: those that are up on
/// others of its node, those that may not come from where its other end is, and the node that was connected to, where the
/// message is its answer and does not name it ([`misnamed`]). That one is noted.
fn unwelcome_on<P: Wire, R, W>(
    alloc: Global,
    links: &[Link<R, W>],
    link: &Link<R, W>,
    site: &WatchSite,
    message: &Message,
    notes: &mut Notes,
) -> Result<Vec<NodeNo>, AllocError>
    ensures { IfOk result (λ nodes. IsKeptOut (misnamed link.now site.now message.now) nodes.items) }
{
    let mut nodes = peers_of(alloc, links, link.local)?;
    nodes.extend_from_slice(&link.barred)?;
    let misnamed = misnamed::<P, R, W>(alloc, link, site, message)?;
    match misnamed {
        Some(node) => {
            notes.misnamed::<P>(alloc, link.id, node, message);
            with_node(nodes, node)
        }
        None => Ok(nodes),
    }
}

/// These nodes and one more.
fn with_node(nodes: Vec<NodeNo>, node: NodeNo) -> Result<Vec<NodeNo>, AllocError>
    ensures { IfOk result (λ more. more.items ≡ nodes.items ++ node ∷ []) }
{
    let mut nodes = nodes;
    nodes.push(node)?;
    Ok(nodes)
}

/// The node that is up on a connection, if it is one of this node.
fn peer_here<R, W>(link: &Link<R, W>, local: NodeNo) -> Option<NodeNo> {
    match link.standing {
        Standing::Up { peer } if link.local.0 == local.0 => Some(peer),
        Standing::Up { .. } | Standing::Waiting | Standing::Over { .. } => None,
    }
}

/// Why a connection ends whose life drops it at a message, by what it waited for.
fn why_at_message(waits: Waits) -> End {
    match waits {
        Waits::ForCer { .. } | Waits::ForCea { .. } => End::Unwelcome,
        Waits::ForMessage { .. } | Waits::ForDwa { .. } | Waits::ForClose { .. } => {
            End::Disconnected
        }
        Waits::ForDpa { .. } | Waits::ForNothing => End::Closed,
    }
}

/// How many answers the node has sent, with this message.
fn count_after(answers: u64, message: &Message) -> u64 {
    if message.header.request {
        answers
    } else {
        answers.saturating_add(1)
    }
}

/// Whether the node could once not be told of an end.
fn has_failed(failed: bool, outcome: &Result<(), NodeError>) -> bool
    ensures before { failed ≡ true → result ≡ true }
    ensures now { OnErr outcome.now (result ≡ true) }
{
    match outcome {
        Ok(()) => failed,
        Err(_) => true,
    }
}

/// What a new connection sends first.
pub fn greet<R: Read + Device, W: Write + Device>(link: &mut Link<R, W>, acts: Acts, moment: Moment)
    ensures mark { mark_of link.new ≡ mark_of link.old }
    ensures greets { GreetsAll link.old acts link.new }
{
    let mut acts = acts;
    while let Some(act) = acts.take_first() {
        greet_at(link, act, moment);
    }
}

impl<N: Node, R: Read + Device, W: Write + Device> Desk<N, R, W> {
    /// A new connection, for which there is room. It has the next number.
    pub fn put(&mut self, link: Link<R, W>)
        requires room { length self.old.links.items < vec_capacity self.old.links }
        requires number { link.id.0 ≡ self.old.made + 1 }
        requires waits { link.standing ≡ Standing.Waiting }
        ensures made { marks_of self.new.links.items ≡ marks_of self.old.links.items ++ mark_of link ∷ [] }
        ensures links { self.new.links.items ≡ self.old.links.items ++ link ∷ [] }
        ensures only { self.new ≡ record self.old { links = self.new.links; made = link.id.0 } }
        ensures tells { Tells N.on_event self.old self.new }
        ensures settled { AreSettled self.old.links.items → AreSettled self.new.links.items }
    {
        self.made = link.id.0;
        self.links.push_reserved(link);
    }

    /// A connection on which nobody is up is let go.
    pub fn take_out(&mut self, place: usize) -> Link<R, W>
        requires within { place < length self.old.links.items }
        requires down { IsDownAt self.old.links.items place }
        ensures out { result ≡ slice_index_or self.old.links.items place result }
        ensures left { self.new.links.items ≡ remove self.old.links.items place }
        ensures only { self.new ≡ record self.old { links = self.new.links } }
        ensures tells { Tells N.on_event self.old self.new }
        ensures settled { AreSettled self.old.links.items → AreSettled self.new.links.items }
    {
        self.links.remove(place)
    }

    /// What the node sends goes out, each message on its own connection, or nowhere where there is none.
    pub fn send_all(&mut self, out: &Out, moment: Moment)
        ensures places { length self.new.links.items ≡ length self.old.links.items }
        ensures kept { kept_by self.new ≡ kept_by self.old }
        ensures sent { AllGoOut self.old.links.items out.now.items self.new.links.items }
        ensures counts { CountsAll self.old.tally out.now.items self.new.tally }
        ensures records { self.new.recorder ≡ self.old.recorder }
        ensures failed { self.new.failed ≡ self.old.failed }
    {
        for (conn, message) in out.items.as_slice() {
            self.answers = count_after(self.answers, message);
            count_sent(&mut self.tally, *conn, message);
            if let Some(place) = place_of(&self.links, *conn) {
                let link = &mut self.links[place];
                link.open = open_after(link.open, message);
                send_at(link, message, moment);
            }
        }
    }

    /// A message goes out on a connection.
    fn send_here(&mut self, place: usize, message: &Message, moment: Moment)
        requires { place < length self.old.links.items }
        ensures sent { AtPlace self.old place (λ link. Becomes (IsSentOn message.now link) place self.old self.new) }
        ensures kept { kept_by self.new ≡ kept_by self.old }
        ensures places { length self.new.links.items ≡ length self.old.links.items }
    {
        send_at(&mut self.links[place], message, moment);
    }

    /// A connection ends.
    pub(crate) fn end_here(&mut self, place: usize, why: End, moment: Moment)
        requires { place < length self.old.links.items }
        ensures ended { AtPlace self.old place (λ link. Becomes (HasEnded link) place self.old self.new) }
        ensures reason { AtPlace self.old place (λ link. Becomes (EndsFor why moment link) place self.old self.new) }
        ensures kept { kept_by self.new ≡ kept_by self.old }
        ensures places { length self.new.links.items ≡ length self.old.links.items }
    {
        end_at(&mut self.links[place], why, moment);
    }

    /// The node is told that its neighbour is up. Where it refuses that, the connection ends.
    fn tell_up(&mut self, place: usize, peer: NodeNo, moment: Moment)
        requires within { place < length self.old.links.items }
        requires waits { StandsAt self.old.links.items place Standing.Waiting }
        requires may { MayComeUpAt self.old.links.items place peer }
        ensures tells { Tells N.on_event self.old self.new }
        ensures says { AtPlace self.old place (λ link. Says N.on_event EndsWhereRefused (event.up link.local peer link.id) place link self.old self.new) }
        ensures places { length self.new.links.items ≡ length self.old.links.items }
    {
        let link = &self.links[place];
        let (local, conn) = (link.local, link.id);
        let reaction = self.node.on_up(self.alloc, local, peer, conn);
        come_up(&mut self.links[place], peer, reaction.outcome, moment);
        self.notes.up(conn, local, peer, reaction.outcome);
        count_up(&mut self.tally, conn, (local, peer), reaction.outcome);
        record_up(
            self.alloc,
            &mut self.recorder,
            conn,
            (local, peer),
            reaction.outcome,
        );
        record_sent(self.alloc, &mut self.recorder, &reaction.out);
        self.send_all(&reaction.out, moment);
    }

    /// The node is told of a message, where a node is up on the connection and that has not ended. Where it refuses the message, the
    /// connection ends.
    fn tell_message<P: Wire>(&mut self, place: usize, message: Message, moment: Moment)
        requires { place < length self.old.links.items }
        ensures tells { Tells N.on_event self.old self.new }
        ensures places { length self.new.links.items ≡ length self.old.links.items }
        ensures does { AtPlace self.old place (λ link. DoesAct N.on_event place (life.Pass message) link self.old self.new) }
    {
        let link = &self.links[place];
        if open_peer(link).is_none() {
            return;
        }
        let conn = link.id;
        let asks = message.header.request;
        let body = kept_body(&message);
        if asks {
            self.tally.request_came(conn, message.header.hop);
        }
        if self.recorder.is_on() {
            self.recorder.came(self.alloc, conn, &message);
        }
        let reaction = self.node.on_message::<P>(self.alloc, conn, message);
        end_unless_told(&mut self.links[place], asks, reaction.outcome, moment);
        self.notes
            .answers::<P>(self.alloc, conn, body.as_ref(), &reaction.out);
        if self.recorder.is_on() {
            record_reaction(self.alloc, &mut self.recorder, &reaction);
        }
        self.send_all(&reaction.out, moment);
    }

    /// The node is told that its neighbour leaves, for this cause, where that is up on the connection and the connection has not ended.
    /// Where it refuses that, the connection ends.
    fn tell_leaving(&mut self, place: usize, cause: DisconnectCause, moment: Moment)
        requires { place < length self.old.links.items }
        ensures tells { Tells N.on_event self.old self.new }
        ensures places { length self.new.links.items ≡ length self.old.links.items }
        ensures does { AtPlace self.old place (λ link. DoesAct N.on_event place (life.PeerLeaves cause) link self.old self.new) }
    {
        let link = &self.links[place];
        let Some(peer) = open_peer(link) else {
            return;
        };
        let conn = link.id;
        let reaction = self.node.on_leaving(self.alloc, conn);
        part_at(&mut self.links[place], cause, reaction.outcome, moment);
        self.notes.leaves(conn, peer, cause);
        record_sent(self.alloc, &mut self.recorder, &reaction.out);
        self.send_all(&reaction.out, moment);
    }

    /// The node is told of the end of a connection.
    fn tell_lost<P: Wire>(&mut self, place: usize, peer: NodeNo, why: End, moment: Moment)
        requires within { place < length self.old.links.items }
        requires up { StandsAt self.old.links.items place (Standing.Up peer) }
        ensures tells { Tells N.on_event self.old self.new }
        ensures says { AtPlace self.old place (λ link. Says N.on_event FailsWhereRefused (event.lost link.id) place link self.old self.new) }
        ensures places { length self.new.links.items ≡ length self.old.links.items }
        ensures fewer { ups (marks_of self.new.links.items) < ups (marks_of self.old.links.items) }
    {
        let conn = self.links[place].id;
        let reaction = self.node.on_lost::<P>(self.alloc, conn);
        be_over(&mut self.links[place], peer);
        self.failed = has_failed(self.failed, &reaction.outcome);
        self.notes.lost(conn, peer, why);
        self.notes.failovers::<P>(self.alloc, conn, &reaction.out);
        count_lost(&mut self.tally, conn, why);
        count_failovers(&mut self.tally, &reaction.out);
        record_lost(self.alloc, &mut self.recorder, conn, &reaction.outcome);
        record_sent(self.alloc, &mut self.recorder, &reaction.out);
        self.send_all(&reaction.out, moment);
    }

    /// The node is told that its neighbour is up, on a connection of which it was told nothing and which has not ended, where that
    /// neighbour may come up on it. Where it may not, the connection ends.
    fn greet_waiting(&mut self, place: usize, peer: NodeNo, moment: Moment)
        requires { place < length self.old.links.items }
        ensures tells { Tells N.on_event self.old self.new }
        ensures places { length self.new.links.items ≡ length self.old.links.items }
        ensures does { AtPlace self.old place (λ link. DoesAct N.on_event place (life.PeerUp peer) link self.old self.new) }
    {
        let link = &self.links[place];
        if !is_waiting(link) {
            return;
        }
        if may_come_up(link, peer) {
            self.tell_up(place, peer, moment);
        } else {
            self.end_here(place, End::Unwelcome, moment);
        }
    }

    /// The acts of the life of a connection, in their order.
    pub fn perform<P: Wire>(&mut self, place: usize, acts: Acts, why: End, moment: Moment)
        requires { place < length self.old.links.items }
        ensures tells { Tells N.on_event self.old self.new }
        ensures places { length self.new.links.items ≡ length self.old.links.items }
        ensures performs { Performs N.on_event place self.old acts self.new }
    {
        let mut acts = acts;
        while let Some(act) = acts.take_first() {
            match act {
                Act::Send(message) => self.send_here(place, &message, moment),
                Act::PeerUp(peer) => self.greet_waiting(place, peer, moment),
                Act::PeerLeaves(cause) => self.tell_leaving(place, cause, moment),
                Act::Pass(message) => self.tell_message::<P>(place, message, moment),
                Act::Drop => self.end_here(place, why, moment),
            }
        }
    }

    /// What the life of a connection says to a message, or why the connection ends.
    fn acts_at_message<P: Wire>(
        &mut self,
        locals: &[LocalNode],
        place: usize,
        message: Message,
        moment: Moment,
    ) -> Result<Acts, End>
        requires { place < length self.old.links.items }
        ensures kept { kept_by self.new ≡ kept_by self.old }
        ensures places { length self.new.links.items ≡ length self.old.links.items }
        ensures heard { AtPlace self.old place (λ link. Heard locals.now moment message place link self.old self.new result) }
    {
        let link = &self.links[place];
        let Some(site) = site_of(locals, link.local) else {
            return Err(End::Closed);
        };
        let alloc = self.alloc;
        let unwelcome = if asks_who_is_up(link.watch.waits()) {
            unwelcome_on::<P, R, W>(alloc, &self.links, link, site, &message, &mut self.notes)
        } else {
            Ok(Vec::new(alloc))
        };
        let Ok(unwelcome) = unwelcome else {
            return Err(End::OutOfMemory);
        };
        match self.links[place]
            .watch
            .on_message::<P>(alloc, site, &unwelcome, moment, message)
        {
            Ok(acts) => Ok(acts),
            Err(AllocError) => Err(End::OutOfMemory),
        }
    }

    /// A message came on a connection.
    fn hear<P: Wire>(
        &mut self,
        locals: &[LocalNode],
        place: usize,
        message: Message,
        moment: Moment,
    )
        requires { place < length self.old.links.items }
        ensures tells { Tells N.on_event self.old self.new }
        ensures places { length self.new.links.items ≡ length self.old.links.items }
        ensures hears { AtPlace self.old place (λ link. Hears N.on_event locals.now moment message place link self.old self.new) }
    {
        let link = &self.links[place];
        if link.end.is_some() {
            return;
        }
        let why = why_at_message(link.watch.waits());
        match self.acts_at_message::<P>(locals, place, message, moment) {
            Ok(acts) => self.perform::<P>(place, acts, why, moment),
            Err(why) => self.end_here(place, why, moment),
        }
    }

    /// A connection reads for one turn, so many messages at most, and each of them is heard. A number that none has changes
    /// nothing, and neither does a connection that has ended.
    pub fn receive_on<P: Wire>(
        &mut self,
        locals: &[LocalNode],
        conn: ConnId,
        piece: &mut [u8],
        most: usize,
        moment: Moment,
    )
        requires { 0 < length piece.old }
        ensures tells { Tells N.on_event self.old self.new }
        ensures brings { BringsOn N.on_event R.remaining locals.now most moment conn self.old self.new }
    {
        let Some(place) = place_of(&self.links, conn) else {
            return;
        };
        if self.links[place].end.is_some() {
            return;
        }
        let received = self.links[place].conn.receive(piece, most);
        for message in received.messages {
            self.hear::<P>(locals, place, message, moment);
        }
        if let Err(loss) = received.outcome {
            self.end_here(place, End::Loss(loss), moment);
        }
    }

    /// A connection writes for one turn. A number that none has changes nothing.
    pub fn flush_on(&mut self, conn: ConnId, moment: Moment)
        ensures kept { kept_by self.new ≡ kept_by self.old }
        ensures writes { WritesOn conn self.old.links.items self.new.links.items }
    {
        if let Some(place) = place_of(&self.links, conn) {
            self.flush_here(place, moment);
        }
    }

    fn flush_here(&mut self, place: usize, moment: Moment)
        requires { place < length self.old.links.items }
        ensures kept { kept_by self.new ≡ kept_by self.old }
        ensures writes { AtPlace self.old place (λ link. Becomes (HasFlushed link) place self.old self.new) }
    {
        flush_at(&mut self.links[place], moment);
    }

    /// The node is told of each end that it has not been told of.
    pub fn settle<P: Wire>(&mut self, moment: Moment)
        ensures settled { AreSettled self.new.links.items }
        ensures tells { Tells N.on_event self.old self.new }
        ensures places { length self.new.links.items ≡ length self.old.links.items }
        ensures settles { Settles N.on_event self.old self.new }
    {
        while let Some(place) = place_of_loss(&self.links) {
            let Some((peer, why)) = loss_of(&self.links[place]) else {
                unreachable!();
            };
            self.tell_lost::<P>(place, peer, why, moment);
        }
    }
}
