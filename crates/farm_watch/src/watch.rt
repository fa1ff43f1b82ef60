//! The table of states of a connection.

ghost use Rattle.std.specs.Prelude.{◌≡◌, [], ◌∷◌, IfOk, OnOk, OnErr, IsOk};
ghost use Rattle.farm_watch.specs.declared.acts.Act.TheVariants as act;
ghost use Rattle.farm_watch.specs.declared.kind.MessageKind.TheVariants.{Other};
ghost use Rattle.farm_watch.specs.PeerMessages.{kind_of};
ghost use Rattle.farm_watch.specs.Table.{after_close, after_message, after_tick, asks, beginning, drops, ended, has_passed, hears, identifier_after, on_cea, on_goodbye, on_greeting, drops_where};
ghost use Rattle.farm_watch.specs.Capabilities.{avps_in, greeting_to};

use crate::acts::{Act, Acts};
use crate::cause::cause_in;
use crate::codes::{NO_COMMON_APPLICATION, SUCCESS};
use crate::kind::{MessageKind, kind_of};
use crate::reading::{Greeting, greeting_to, is_success, is_up};
use crate::site::{Goodbyes, Side, WatchSite};
use crate::writing::{cea, cer, dpr, dwr, success_to};
use dia_avp::Wire;
use dia_base::{Moment, NodeNo};
use dia_message::Message;
use std::alloc::{AllocError, Global};
use std::marker::Model;

/// The last identifier of a connection's own requests, before they begin again at 1: those with the highest bit are
/// given by relays.
const HIGHEST_IDENTIFIER: u32 = 0x7fff_ffff;

/// What a connection waits for, and since when.
#[derive(Clone, Copy, PartialEq, Eq)]
pub enum Waits {
    /// This side was connected to: the other one has to say who it is.
    ForCer { since: Moment },
    /// This side has connected to the node, and said who it is.
    ForCea { node: NodeNo, since: Moment },
    /// The node at the other end is up, and was heard last at this moment.
    ForMessage { since: Moment },
    /// The node at the other end is up, and was asked at this moment whether it lives.
    ForDwa { since: Moment },
    /// The node at the other end was told at this moment that the connection ends.
    ForDpa { since: Moment },
    /// The node at the other end has said so at this moment, and is to close it.
    ForClose { since: Moment },
    /// It has ended.
    ForNothing,
}

/// The life of one connection: who is at the other end, whether it lives, and how it ends.
///
/// It keeps no clock and no socket: events come with their moment, and what is to be done comes out
/// as [`Acts`]. What is the same for all connections of a node is a [`WatchSite`], and which nodes are
/// up is told with each message by those who keep the connections.
#[derive(Drop)]
pub struct Watch {
    waits: Waits,
    sent: u32,
}

impl Model for Watch {
    ghost use Rattle.farm_watch.specs.Table.{Connection};

    ghost Value = { Connection };

    ghost view = { λ w. record { waits = w.waits; sent = w.sent } };
}

impl Watch {
    /// A connection that was made at this moment, and what is to be done first: the side that has
    /// connected sends its Capabilities-Exchange-Request.
    pub fn new(
        alloc: Global,
        site: &WatchSite,
        side: Side,
        moment: Moment,
    ) -> Result<(Watch, Acts), AllocError>
        ensures watch { IfOk result (λ made. made.0 ≡ (beginning site.now moment side).next) }
        ensures acts { IfOk result (λ made. made.1 ≡ (beginning site.now moment side).acts) }
    {
        match side {
            Side::Accepts => {
                let waits = Waits::ForCer { since: moment };
                Ok((Watch { waits, sent: 0 }, Acts::none()))
            }
            Side::Connects(node) => {
                let request = cer(alloc, site, 1)?;
                let waits = Waits::ForCea {
                    node,
                    since: moment,
                };
                Ok((Watch { waits, sent: 1 }, Acts::of_one(Act::Send(request))))
            }
        }
    }

    /// What the connection waits for.
    pub fn waits(&self) -> Waits
        ensures { result ≡ self.now.waits }
    {
        self.waits
    }

    /// A message came, while the nodes of `up` are up. An arm is a row of the table, and the table stands in one
    /// piece, long as it is.
    ///
    /// Want of memory leaves the connection as it was; the message is lost then, so that the connection
    /// had better end. A message that is the node's takes no memory.
    pub fn on_message<W: Wire>(
        &mut self,
        alloc: Global,
        site: &WatchSite,
        up: &[NodeNo],
        moment: Moment,
        message: Message,
    ) -> Result<Acts, AllocError>
        ensures acts { IfOk result (λ acts. acts ≡ (after_message site.now up.now moment message self.old).acts) }
        ensures next { OnOk result (self.new ≡ (after_message site.now up.now moment message self.old).next) }
        ensures err { OnErr result (self.new ≡ self.old) }
        ensures passes { kind_of message.header ≡ Other → IsOk result }
    {
        match (self.waits, kind_of(&message.header)) {
            // 5.3, 5.6
            (Waits::ForCer { .. }, MessageKind::Cer) => {
                self.greet::<W>(alloc, site, up, moment, &message)
            }
            (
                Waits::ForCer { .. },
                MessageKind::Cea
                | MessageKind::Dwr
                | MessageKind::Dwa
                | MessageKind::Dpr
                | MessageKind::Dpa
                | MessageKind::Other,
            ) => Ok(self.end()),
            // 5.3, 5.6
            (Waits::ForCea { node, .. }, MessageKind::Cea) => {
                self.answered::<W>(alloc, up, moment, node, &message)
            }
            (
                Waits::ForCea { .. },
                MessageKind::Cer
                | MessageKind::Dwr
                | MessageKind::Dwa
                | MessageKind::Dpr
                | MessageKind::Dpa
                | MessageKind::Other,
            ) => Ok(self.end()),
            // 5.5.1
            (Waits::ForMessage { .. } | Waits::ForDwa { .. }, MessageKind::Dwr) => {
                let answer = success_to(alloc, site, &message.header)?;
                self.waits = Waits::ForMessage { since: moment };
                Ok(Acts::of_one(Act::Send(answer)))
            }
            // 5.4
            (Waits::ForMessage { .. } | Waits::ForDwa { .. }, MessageKind::Dpr) => {
                self.part::<W>(alloc, site, moment, &message)
            }
            (Waits::ForDpa { .. }, MessageKind::Dpr) => {
                let answer = success_to(alloc, site, &message.header)?;
                self.waits = Waits::ForNothing;
                Ok(Acts::of_two(Act::Send(answer), Act::Drop))
            }
            // 5.5.2, 5.6
            (
                Waits::ForMessage { .. } | Waits::ForDwa { .. },
                MessageKind::Dwa | MessageKind::Cer | MessageKind::Cea,
            ) => {
                self.waits = Waits::ForMessage { since: moment };
                Ok(Acts::none())
            }
            (
                Waits::ForMessage { .. } | Waits::ForDwa { .. },
                MessageKind::Dpa | MessageKind::Other,
            ) => {
                self.waits = Waits::ForMessage { since: moment };
                Ok(Acts::of_one(Act::Pass(message)))
            }
            // 5.4, 5.6
            (Waits::ForDpa { .. }, MessageKind::Dpa) => Ok(self.end()),
            (Waits::ForDpa { .. }, MessageKind::Dwr) => {
                let answer = success_to(alloc, site, &message.header)?;
                Ok(Acts::of_one(Act::Send(answer)))
            }
            (Waits::ForDpa { .. }, MessageKind::Dwa | MessageKind::Cer | MessageKind::Cea) => {
                Ok(Acts::none())
            }
            (Waits::ForDpa { .. }, MessageKind::Other) => Ok(Acts::of_one(Act::Pass(message))),
            // 5.4
            (Waits::ForClose { .. }, MessageKind::Dwr | MessageKind::Dpr) => {
                let answer = success_to(alloc, site, &message.header)?;
                Ok(Acts::of_one(Act::Send(answer)))
            }
            (Waits::ForClose { .. }, MessageKind::Dwa | MessageKind::Cer | MessageKind::Cea) => {
                Ok(Acts::none())
            }
            (Waits::ForClose { .. }, MessageKind::Dpa) => Ok(Acts::of_one(Act::Pass(message))),
            (Waits::ForClose { .. }, MessageKind::Other) => Ok(Acts::of_one(Act::Pass(message))),
            (
                Waits::ForNothing,
                MessageKind::Cer
                | MessageKind::Cea
                | MessageKind::Dwr
                | MessageKind::Dwa
                | MessageKind::Dpr
                | MessageKind::Dpa
                | MessageKind::Other,
            ) => Ok(Acts::none()),
        }
    }

    /// Time has passed. Want of memory leaves the connection as it was; a tick that sends nothing takes
    /// none.
    pub fn on_tick(
        &mut self,
        alloc: Global,
        site: &WatchSite,
        moment: Moment,
    ) -> Result<Acts, AllocError>
        ensures acts { IfOk result (λ acts. acts ≡ (after_tick site.now moment self.old).acts) }
        ensures next { OnOk result (self.new ≡ (after_tick site.now moment self.old).next) }
        ensures err { OnErr result (self.new ≡ self.old) }
        ensures quiet { (after_tick site.now moment self.old).acts ≡ [] → IsOk result }
    {
        match self.waits {
            Waits::ForCer { since }
            | Waits::ForCea { since, .. }
            | Waits::ForDwa { since }
            | Waits::ForDpa { since }
            | Waits::ForClose { since } => Ok(self.end_where(has_passed(site, since, moment))),
            Waits::ForMessage { since } => {
                if !has_passed(site, since, moment) {
                    return Ok(Acts::none());
                }
                let identifier = self.next_identifier();
                let request = dwr(alloc, site, identifier)?;
                Ok(self.ask(request, identifier, Waits::ForDwa { since: moment }))
            }
            Waits::ForNothing => Ok(Acts::none()),
        }
    }

    /// The node wants the connection to end. Want of memory leaves it as it was.
    pub fn close(
        &mut self,
        alloc: Global,
        site: &WatchSite,
        moment: Moment,
    ) -> Result<Acts, AllocError>
        ensures acts { IfOk result (λ acts. acts ≡ (after_close site.now moment self.old).acts) }
        ensures next { OnOk result (self.new ≡ (after_close site.now moment self.old).next) }
        ensures err { OnErr result (self.new ≡ self.old) }
    {
        match self.waits {
            Waits::ForCer { .. } | Waits::ForCea { .. } | Waits::ForClose { .. } => Ok(self.end()),
            Waits::ForMessage { .. } | Waits::ForDwa { .. } => {
                let identifier = self.next_identifier();
                let request = dpr(alloc, site, identifier)?;
                Ok(self.ask(request, identifier, Waits::ForDpa { since: moment }))
            }
            Waits::ForDpa { .. } | Waits::ForNothing => Ok(Acts::none()),
        }
    }

    /// A node that has connected says who it is.
    fn greet<W: Wire>(
        &mut self,
        alloc: Global,
        site: &WatchSite,
        up: &[NodeNo],
        moment: Moment,
        message: &Message,
    ) -> Result<Acts, AllocError>
        ensures acts { IfOk result (λ acts. acts ≡ (on_greeting site.now self.old moment message.now (greeting_to site.now up.now (avps_in message.now.body))).acts) }
        ensures next { OnOk result (self.new ≡ (on_greeting site.now self.old moment message.now (greeting_to site.now up.now (avps_in message.now.body))).next) }
        ensures err { OnErr result (self.new ≡ self.old) }
    {
        match greeting_to::<W>(alloc, site, up, &message.body)? {
            Greeting::Unwelcome => Ok(self.end()),
            Greeting::NothingInCommon => {
                let answer = cea(alloc, site, NO_COMMON_APPLICATION, &message.header)?;
                self.waits = Waits::ForNothing;
                Ok(Acts::of_two(Act::Send(answer), Act::Drop))
            }
            Greeting::Welcome(node) => {
                let answer = cea(alloc, site, SUCCESS, &message.header)?;
                self.waits = Waits::ForMessage { since: moment };
                Ok(Acts::of_two(Act::Send(answer), Act::PeerUp(node)))
            }
        }
    }

    /// The node at the other end says that the connection ends.
    fn part<W: Wire>(
        &mut self,
        alloc: Global,
        site: &WatchSite,
        moment: Moment,
        message: &Message,
    ) -> Result<Acts, AllocError>
        ensures acts { IfOk result (λ acts. acts ≡ (on_goodbye site.now.goodbyes site.now self.old moment message.now).acts) }
        ensures next { OnOk result (self.new ≡ (on_goodbye site.now.goodbyes site.now self.old moment message.now).next) }
        ensures err { OnErr result (self.new ≡ self.old) }
    {
        let answer = success_to(alloc, site, &message.header)?;
        match site.goodbyes {
            Goodbyes::EndAtOnce => {
                self.waits = Waits::ForNothing;
                Ok(Acts::of_two(Act::Send(answer), Act::Drop))
            }
            Goodbyes::LeaveClosing => {
                let cause = cause_in::<W>(alloc, &message.body)?;
                self.waits = Waits::ForClose { since: moment };
                Ok(Acts::of_two(Act::Send(answer), Act::PeerLeaves(cause)))
            }
        }
    }

    /// The node that this side has connected to answers.
    fn answered<W: Wire>(
        &mut self,
        alloc: Global,
        up: &[NodeNo],
        moment: Moment,
        node: NodeNo,
        message: &Message,
    ) -> Result<Acts, AllocError>
        ensures acts { IfOk result (λ acts. acts ≡ (on_cea up.now self.old moment node message.now.body).acts) }
        ensures next { OnOk result (self.new ≡ (on_cea up.now self.old moment node message.now.body).next) }
        ensures err { OnErr result (self.new ≡ self.old) }
    {
        if is_up(up, node) || !is_success::<W>(alloc, &message.body)? {
            return Ok(self.end());
        }
        self.waits = Waits::ForMessage { since: moment };
        Ok(Acts::of_one(Act::PeerUp(node)))
    }

    fn end(&mut self) -> Acts
        ensures acts { result ≡ act.Drop ∷ [] }
        ensures next { self.new ≡ ended self.old }
    {
        self.waits = Waits::ForNothing;
        Acts::of_one(Act::Drop)
    }

    fn end_where(&mut self, late: bool) -> Acts
        ensures acts { result ≡ (drops_where late self.old).acts }
        ensures next { self.new ≡ (drops_where late self.old).next }
    {
        if late { self.end() } else { Acts::none() }
    }

    /// A request of its own goes out under this identifier.
    fn ask(&mut self, request: Message, identifier: u32, waits: Waits) -> Acts
        ensures acts { result ≡ act.Send request ∷ [] }
        ensures next { self.new ≡ record { waits = waits; sent = identifier } }
    {
        self.waits = waits;
        self.sent = identifier;
        Acts::of_one(Act::Send(request))
    }

    fn next_identifier(&self) -> u32
        ensures { result ≡ identifier_after self.now.sent }
    {
        if self.sent < HIGHEST_IDENTIFIER {
            self.sent + 1
        } else {
            1
        }
    }
}

/// Whether a whole interval has passed.
fn has_passed(site: &WatchSite, since: Moment, moment: Moment) -> bool
    ensures { result ≡ has_passed site.now since moment }
{
    u128::from(since.0) + u128::from(site.interval) <= u128::from(moment.0)
}
