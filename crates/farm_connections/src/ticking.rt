//! Time passes for a node and its connections, the node is woken, and its connections are to end.

ghost use Rattle.std.specs.Prelude.{◌≡◌, ◌<◌, length, MatchResult, Err, Ok};
ghost use Rattle.farm_node.specs.Events as event;
ghost use Rattle.farm_watch.specs.Numbering.{numbered, numbered_effect};
ghost use Rattle.farm_watch.specs.Table.{after_close, after_tick};
ghost use Rattle.farm_connections.specs.Calls.{AllClose, AllTick};
ghost use Rattle.farm_connections.specs.Counting.{CountsAll};
ghost use Rattle.farm_connections.specs.Doing.{AtPlace, Closes, EndsOne, EndsUnanswered, GoesAndEnds, IsStill, Lived, Reacts, Ticks, unanswered_by};
ghost use Rattle.farm_connections.specs.Desks.{Tells, kept_by, marks_of};

use crate::desk::{Desk, place_of};
use crate::end::End;
use crate::link::{Link, close_at, end_at, tick_at};
use crate::local::{LocalNode, site_of};
use dia_avp::Wire;
use dia_base::{ConnId, Moment};
use farm_net::Device;
use farm_node::{Node, NodeError, Reaction};
use farm_watch::{Acts, Numbering, Waits, WatchSite};
use std::alloc::AllocError;
use std::io::{Read, Write};

/// Why a connection ends whose life drops it at a tick, by what it waited for.
fn why_at_tick(waits: Waits) -> End {
    match waits {
        Waits::ForDpa { .. } | Waits::ForNothing => End::Closed,
        Waits::ForClose { .. } => End::Disconnected,
        Waits::ForCer { .. }
        | Waits::ForCea { .. }
        | Waits::ForMessage { .. }
        | Waits::ForDwa { .. } => End::Silent,
    }
}

/// The connection of a request that has no answer.
fn unanswered_by(error: NodeError) -> Option<ConnId>
    ensures { result ≡ unanswered_by error }
{
    match error {
        NodeError::Unanswered { conn } => Some(conn),
        NodeError::OutOfMemory
        | NodeError::UnknownConn { .. }
        | NodeError::PeerUp { .. }
        | NodeError::UnknownPeer { .. }
        | NodeError::UnknownNode { .. }
        | NodeError::BookFull { .. } => None,
    }
}

/// The connection of this number ends.
fn end_one<R: Read + Device, W: Write + Device>(
    links: &mut Vec<Link<R, W>>,
    conn: ConnId,
    error: NodeError,
    moment: Moment,
)
    ensures ends { EndsOne conn links.old.items links.new.items }
    ensures marks { marks_of links.new.items ≡ marks_of links.old.items }
    ensures places { length links.new.items ≡ length links.old.items }
{
    if let Some(place) = place_of(links, conn) {
        end_at(&mut links[place], End::Refused(error), moment);
    }
}

/// Where a request that came on a connection has no answer, that connection ends.
fn end_unanswered<R: Read + Device, W: Write + Device>(
    links: &mut Vec<Link<R, W>>,
    error: NodeError,
    moment: Moment,
)
    ensures ends { EndsUnanswered (Err error) links.old.items links.new.items }
    ensures marks { marks_of links.new.items ≡ marks_of links.old.items }
    ensures places { length links.new.items ≡ length links.old.items }
{
    if let Some(conn) = unanswered_by(error) {
        end_one(links, conn, error, moment);
    }
}

/// What the life of a connection says, as it is done at this moment: its requests have their End-to-End Identifiers.
fn numbered_said(
    numbering: &mut Numbering,
    said: Result<Acts, AllocError>,
    moment: Moment,
) -> Result<Acts, AllocError>
    ensures acts { MatchResult said (λ acts. result ≡ Ok (numbered numbering.old moment acts)) (λ error. result ≡ Err error) }
{
    match said {
        Ok(acts) => Ok(numbering.number(acts, moment)),
        Err(error) => Err(error),
    }
}

impl<N: Node, R: Read + Device, W: Write + Device> Desk<N, R, W> {
    /// What the life of a connection says where time has passed.
    fn acts_at_tick(
        &mut self,
        site: &WatchSite,
        place: usize,
        moment: Moment,
    ) -> Result<Acts, AllocError>
        requires { place < length self.old.links.items }
        ensures kept { kept_by self.new ≡ kept_by self.old }
        ensures places { length self.new.links.items ≡ length self.old.links.items }
        ensures lived { AtPlace self.old place (λ link. MatchResult result (λ acts. Lived (numbered_effect self.old.numbering moment (after_tick site.now moment link.watch)) acts place link self.old self.new) (λ _. IsStill self.old self.new)) }
    {
        let said = tick_at(self.alloc, &mut self.links[place], site, moment);
        numbered_said(&mut self.numbering, said, moment)
    }

    /// What the life of a connection says where it is to end.
    fn acts_at_close(
        &mut self,
        site: &WatchSite,
        place: usize,
        moment: Moment,
    ) -> Result<Acts, AllocError>
        requires { place < length self.old.links.items }
        ensures kept { kept_by self.new ≡ kept_by self.old }
        ensures places { length self.new.links.items ≡ length self.old.links.items }
        ensures lived { AtPlace self.old place (λ link. MatchResult result (λ acts. Lived (numbered_effect self.old.numbering moment (after_close site.now moment link.watch)) acts place link self.old self.new) (λ _. IsStill self.old self.new)) }
    {
        let said = close_at(self.alloc, &mut self.links[place], site, moment);
        numbered_said(&mut self.numbering, said, moment)
    }

    /// Time has passed for a connection.
    fn tick_one<P: Wire>(&mut self, locals: &[LocalNode], place: usize, moment: Moment)
        requires { place < length self.old.links.items }
        ensures tells { Tells N.on_event self.old self.new }
        ensures places { length self.new.links.items ≡ length self.old.links.items }
        ensures ticks { AtPlace self.old place (λ link. Ticks N.on_event locals.now moment place link self.old self.new) }
    {
        let link = &self.links[place];
        if link.end.is_some() {
            return;
        }
        let why = why_at_tick(link.watch.waits());
        let Some(site) = site_of(locals, link.local) else {
            return;
        };
        match self.acts_at_tick(site, place, moment) {
            Ok(acts) => self.perform::<P>(place, acts, why, moment),
            Err(AllocError) => {}
        }
    }

    /// Time has passed for each connection.
    pub fn tick_all<P: Wire>(&mut self, locals: &[LocalNode], moment: Moment)
        ensures tells { Tells N.on_event self.old self.new }
        ensures places { length self.new.links.items ≡ length self.old.links.items }
        ensures each { AllTick N.on_event locals.now moment self.old self.new }
    {
        for place in 0..self.links.len() {
            self.tick_one::<P>(locals, place, moment);
        }
    }

    /// A connection is to end.
    fn close_one<P: Wire>(&mut self, locals: &[LocalNode], place: usize, moment: Moment)
        requires { place < length self.old.links.items }
        ensures tells { Tells N.on_event self.old self.new }
        ensures places { length self.new.links.items ≡ length self.old.links.items }
        ensures closes { AtPlace self.old place (λ link. Closes N.on_event locals.now moment place link self.old self.new) }
    {
        let link = &self.links[place];
        if link.end.is_some() {
            return;
        }
        let Some(site) = site_of(locals, link.local) else {
            return;
        };
        match self.acts_at_close(site, place, moment) {
            Ok(acts) => self.perform::<P>(place, acts, End::Closed, moment),
            Err(AllocError) => self.end_here(place, End::Closed, moment),
        }
    }

    /// Each connection is to end.
    pub fn close_all<P: Wire>(&mut self, locals: &[LocalNode], moment: Moment)
        ensures tells { Tells N.on_event self.old self.new }
        ensures places { length self.new.links.items ≡ length self.old.links.items }
        ensures each { AllClose N.on_event locals.now moment self.old self.new }
    {
        for place in 0..self.links.len() {
            self.close_one::<P>(locals, place, moment);
        }
    }

    /// What the node does at an event that is of no connection.
    fn react(&mut self, reaction: Reaction, moment: Moment)
        ensures goes { GoesAndEnds reaction.out.items reaction.outcome self.old.links.items self.new.links.items }
        ensures records { self.new.recorder ≡ self.old.recorder }
        ensures counts { CountsAll self.old.tally reaction.out.items self.new.tally }
        ensures places { length self.new.links.items ≡ length self.old.links.items }
        ensures kept { kept_by self.new ≡ kept_by self.old }
    {
        self.send_all(&reaction.out, moment);
        if let Err(error) = reaction.outcome {
            self.notes.failed(error);
            end_unanswered(&mut self.links, error, moment);
        }
    }

    /// Time has passed for the node.
    pub fn tick_node<P: Wire>(&mut self, moment: Moment)
        ensures tells { Tells N.on_event self.old self.new }
        ensures places { length self.new.links.items ≡ length self.old.links.items }
        ensures reacts { Reacts N.on_event (event.tick moment) self.old self.new }
    {
        let reaction = self.node.on_tick::<P>(self.alloc, moment);
        self.react(reaction, moment);
    }

    /// The node is woken.
    pub fn wake_node<P: Wire>(&mut self, moment: Moment)
        ensures tells { Tells N.on_event self.old self.new }
        ensures places { length self.new.links.items ≡ length self.old.links.items }
        ensures reacts { Reacts N.on_event event.wake self.old self.new }
    {
        let reaction = self.node.on_wake::<P>(self.alloc);
        self.react(reaction, moment);
    }
}
