//! One connection of a process.

ghost use Rattle.std.specs.Prelude.{◌≡◌, ◌==◌, ◌+◌, ◌-◌, ◌^◌, if◌then◌else◌, min, IfNone, IfOk, IfSome, IsSome, OnOk, OnErr, false};
ghost use Rattle.std.specs.List.{list_any};
ghost use Rattle.farm_connections.specs.Desks.{is_to_be_told, mark_of, peer_of, standing_after};
ghost use Rattle.farm_connections.specs.Doing.{HasEnded, IsToldOnly, awaits, end_after, left_for, open_peer};
ghost use Rattle.farm_connections.specs.Sending.{GreetsOn, HasFlushed, IsSentOn, open_after};
ghost use Rattle.farm_connections.specs.Turns.{may_come_up, standing_as};
ghost use Rattle.farm_watch.specs.Table.{after_close, after_tick};

use crate::end::End;
use crate::naming::NameRule;
use dia_base::{ConnId, Moment, NodeNo};
use dia_message::Message;
use farm_net::{Conn, Device};
use farm_node::NodeError;
use farm_watch::{Act, Acts, DisconnectCause, Watch, WatchSite};
use std::alloc::{AllocError, Global};
use std::io::{Read, Write};

/// How long octets of an ended connection may wait to be written, in milliseconds.
pub const LINGER: u64 = 5_000;

/// What the node was told of a connection.
#[derive(Clone, Copy, Debug, PartialEq, Eq)]
pub enum Standing {
    /// Nothing: the node at the other end is not up.
    Waiting,
    /// That this node is up, and nothing but messages since.
    Up { peer: NodeNo },
    /// Last that it has ended; or that this node is up, which the node here has refused.
    Over { peer: NodeNo },
}

impl Standing {
    /// The node at the other end, if the node here was ever told of it.
    pub fn peer(self) -> Option<NodeNo>
        ensures { result ≡ peer_of self }
    {
        match self {
            Standing::Waiting => None,
            Standing::Up { peer } | Standing::Over { peer } => Some(peer),
        }
    }
}

/// A connection with all that is kept of it.
#[derive(Drop)]
pub struct Link<R, W> {
    pub id: ConnId,
    /// The node of this process whose connection it is.
    pub local: NodeNo,
    /// Whether the other end has connected.
    pub accepted: bool,
    /// The nodes that may not come up on it, from where its other end is.
    pub barred: Vec<NodeNo>,
    /// By which name the node at its other end comes up, where that was connected to.
    pub names: NameRule,
    pub watch: Watch,
    pub conn: Conn<R, W>,
    pub standing: Standing,
    /// How many requests that came on it the node has not answered.
    pub open: u64,
    /// Why the node at its other end leaves, where that has said goodbye and the node here was told.
    pub farewell: Option<DisconnectCause>,
    /// Why it has ended, and when.
    pub end: Option<(End, Moment)>,
}

/// The connection ends for this reason, unless it has ended before.
pub(crate) fn end_at<R: Read + Device, W: Write + Device>(
    link: &mut Link<R, W>,
    why: End,
    moment: Moment,
)
    ensures mark { mark_of link.new ≡ mark_of link.old }
    ensures ended { HasEnded link.old link.new }
    ensures reason { link.new.end ≡ end_after why moment link.old.end }
    ensures unanswered { link.new.«open» ≡ link.old.«open» }
{
    if link.end.is_none() {
        link.end = Some((why, moment));
        link.conn.finish();
    }
}

/// How many requests of a connection the node has not answered once it sends this message on it.
pub(crate) fn open_after(unanswered: u64, message: &Message) -> u64
    ensures { result ≡ open_after unanswered message.now }
{
    if message.header.request {
        unanswered
    } else {
        unanswered.saturating_sub(1)
    }
}

/// A message goes out on the connection, unless that has ended. Where it cannot, the connection ends.
pub(crate) fn send_at<R: Read + Device, W: Write + Device>(
    link: &mut Link<R, W>,
    message: &Message,
    moment: Moment,
)
    ensures mark { mark_of link.new ≡ mark_of link.old }
    ensures sent { IsSentOn message.now link.old link.new }
    ensures unanswered { link.new.«open» ≡ link.old.«open» }
{
    if link.end.is_some() {
        return;
    }
    if let Err(loss) = link.conn.send(message) {
        link.end = Some((End::Loss(loss), moment));
    }
}

/// The connection writes for one turn, and ends where that fails.
pub(crate) fn flush_at<R: Read + Device, W: Write + Device>(link: &mut Link<R, W>, moment: Moment)
    ensures mark { mark_of link.new ≡ mark_of link.old }
    ensures only { HasFlushed link.old link.new }
{
    if let Err(loss) = link.conn.flush() {
        if link.end.is_none() {
            link.end = Some((End::Loss(loss), moment));
        }
    }
}

/// The node was told that its neighbour is up. Where it refuses that, the connection ends.
pub(crate) fn come_up<R: Read + Device, W: Write + Device>(
    link: &mut Link<R, W>,
    peer: NodeNo,
    outcome: Result<(), NodeError>,
    moment: Moment,
)
    ensures mark { mark_of link.new ≡ standing_as (mark_of link.old) (standing_after peer outcome) }
    ensures only { IsToldOnly link.old link.new }
    ensures refused { OnErr outcome (IsSome link.new.end) }
{
    match outcome {
        Ok(()) => link.standing = Standing::Up { peer },
        Err(error) => {
            link.standing = Standing::Over { peer };
            end_at(link, End::Refused(error), moment);
        }
    }
}

/// The node was told of a message, which asks for an answer or does not. Where it refuses that, the connection ends.
pub(crate) fn end_unless_told<R: Read + Device, W: Write + Device>(
    link: &mut Link<R, W>,
    asks: bool,
    outcome: Result<(), NodeError>,
    moment: Moment,
)
    ensures mark { mark_of link.new ≡ mark_of link.old }
    ensures only { IsToldOnly link.old link.new }
    ensures refused { OnErr outcome (IsSome link.new.end) }
    ensures unanswered { link.new.«open» ≡ (if asks then min (link.old.«open» + 1) (2 ^ 64 - 1) else link.old.«open») }
{
    if asks {
        link.open = link.open.saturating_add(1);
    }
    if let Err(error) = outcome {
        end_at(link, End::Refused(error), moment);
    }
}

/// The node was told that the one at the other end leaves, for this cause. Where it refuses that, the connection ends.
pub(crate) fn part_at<R: Read + Device, W: Write + Device>(
    link: &mut Link<R, W>,
    cause: DisconnectCause,
    outcome: Result<(), NodeError>,
    moment: Moment,
)
    ensures mark { mark_of link.new ≡ mark_of link.old }
    ensures only { IsToldOnly (left_for cause link.old) link.new }
    ensures stands { OnOk outcome (link.new.end ≡ link.old.end) }
    ensures refused { OnErr outcome (IsSome link.new.end) }
{
    link.farewell = Some(cause);
    match outcome {
        Ok(()) => {}
        Err(error) => end_at(link, End::Refused(error), moment),
    }
}

/// The node was told of its end.
pub(crate) fn be_over<R, W>(link: &mut Link<R, W>, peer: NodeNo)
    ensures mark { mark_of link.new ≡ standing_as (mark_of link.old) (Standing.Over peer) }
    ensures only { IsToldOnly link.old link.new }
{
    link.standing = Standing::Over { peer };
}

/// Whether the node may be told that its neighbour is up.
pub(crate) fn is_waiting<R, W>(link: &Link<R, W>) -> bool
    ensures { result ≡ awaits link.now }
{
    match link.standing {
        Standing::Waiting => link.end.is_none(),
        Standing::Up { .. } | Standing::Over { .. } => false,
    }
}

/// Whether one of the nodes is this one.
fn is_among(nodes: &[NodeNo], peer: NodeNo) -> bool
    ensures { result ≡ list_any (λ node. node.0 == peer.0) nodes.now }
{
    nodes.iter().any(|node| node.0 == peer.0)
}

/// Whether this node may come up on the connection.
pub(crate) fn may_come_up<R, W>(link: &Link<R, W>, peer: NodeNo) -> bool
    ensures { result ≡ may_come_up (mark_of link.now) peer }
{
    !is_among(link.barred.as_slice(), peer)
}

/// The node that is up on a connection which has not ended.
pub(crate) fn open_peer<R, W>(link: &Link<R, W>) -> Option<NodeNo>
    ensures { result ≡ open_peer link.now }
{
    match (link.standing, link.end) {
        (Standing::Up { peer }, None) => Some(peer),
        (Standing::Up { .. }, Some(_)) | (Standing::Waiting | Standing::Over { .. }, _) => None,
    }
}

/// The node that is up on a connection which has ended, and why that has.
pub(crate) fn loss_of<R, W>(link: &Link<R, W>) -> Option<(NodeNo, End)>
    ensures some { IfSome result (λ loss. link.now.standing ≡ Standing.Up loss.0) }
    ensures none { IfNone result (is_to_be_told link.now ≡ false) }
{
    match (link.standing, link.end) {
        (Standing::Up { peer }, Some((why, _))) => Some((peer, why)),
        (Standing::Up { .. }, None) | (Standing::Waiting | Standing::Over { .. }, _) => None,
    }
}

/// What a new connection sends first.
pub(crate) fn greet_at<R: Read + Device, W: Write + Device>(
    link: &mut Link<R, W>,
    act: Act,
    moment: Moment,
)
    ensures mark { mark_of link.new ≡ mark_of link.old }
    ensures greets { GreetsOn act link.old link.new }
{
    if let Act::Send(message) = act {
        send_at(link, &message, moment);
    }
}

/// What the life of a connection says where time has passed.
pub(crate) fn tick_at<R, W>(
    alloc: Global,
    link: &mut Link<R, W>,
    site: &WatchSite,
    moment: Moment,
) -> Result<Acts, AllocError>
    ensures mark { mark_of link.new ≡ mark_of link.old }
    ensures acts { IfOk result (λ acts. acts ≡ (after_tick site.now moment link.old.watch).acts) }
    ensures next { OnOk result (link.new ≡ record link.old { watch = (after_tick site.now moment link.old.watch).next }) }
    ensures err { OnErr result (link.new ≡ link.old) }
{
    link.watch.on_tick(alloc, site, moment)
}

/// What the life of a connection says where it is to end.
pub(crate) fn close_at<R, W>(
    alloc: Global,
    link: &mut Link<R, W>,
    site: &WatchSite,
    moment: Moment,
) -> Result<Acts, AllocError>
    ensures mark { mark_of link.new ≡ mark_of link.old }
    ensures acts { IfOk result (λ acts. acts ≡ (after_close site.now moment link.old.watch).acts) }
    ensures next { OnOk result (link.new ≡ record link.old { watch = (after_close site.now moment link.old.watch).next }) }
    ensures err { OnErr result (link.new ≡ link.old) }
{
    link.watch.close(alloc, site, moment)
}

/// Whether octets of an ended connection have waited too long.
pub(crate) fn is_overdue(end: Moment, moment: Moment) -> bool {
    u128::from(end.0) + u128::from(LINGER) <= u128::from(moment.0)
}
