//! Two nodes that meet, of which one asks whether the other is still there, and that part.

use crate::sites::{RELAY, watch_site};
use dia_avp::PlainWire;
use dia_base::{Moment, NodeNo};
use dia_message::Message;
use farm_watch::{Act, Acts, Application, Side, Watch, WatchSite};
use std::alloc::Global;

/// One end of a connection.
#[derive(Drop)]
struct End<'a> {
    name: &'static str,
    site: &'a WatchSite,
    watch: Watch,
}

/// Prints what is done.
fn print_act(rt: &impl Print, name: &str, act: &Act) -> anyhow::Result<()> {
    match act {
        Act::Send(message) => {
            let command = message.header.command;
            let kind = if message.header.request {
                "request"
            } else {
                "answer"
            };
            let octets = message.body.as_slice().len().saturating_add(20);
            println!(rt; "{name} sends {kind} {command}, {octets} octets")?;
        }
        Act::PeerUp(node) => println!(rt; "{name} is up with {}", node.0)?,
        Act::PeerLeaves(cause) => println!(rt; "{name} is told of a goodbye: {cause:?}")?,
        Act::Pass(_) => println!(rt; "{name} reads")?,
        Act::Drop => println!(rt; "{name} ends")?,
    }
    Ok(())
}

/// The message that is sent, if one is.
fn sent_by(act: Act) -> Option<Message> {
    match act {
        Act::Send(message) => Some(message),
        Act::PeerUp(_) | Act::PeerLeaves(_) | Act::Pass(_) | Act::Drop => None,
    }
}

/// Prints what is done next, and gives what is sent.
fn print_next(rt: &impl Print, name: &str, acts: &mut Acts) -> anyhow::Result<Option<Message>> {
    let Some(act) = acts.take_first() else {
        return Ok(None);
    };
    print_act(rt, name, &act)?;
    Ok(sent_by(act))
}

/// A message comes to an end, which does what it does: two acts at most, of which the first may be an answer.
fn hear(
    rt: &impl Print,
    alloc: Global,
    end: &mut End<'_>,
    moment: Moment,
    message: Message,
) -> anyhow::Result<Option<Message>> {
    let mut acts = end
        .watch
        .on_message::<PlainWire>(alloc, end.site, &[], moment, message)?;
    let sent = print_next(rt, end.name, &mut acts)?;
    print_next(rt, end.name, &mut acts)?;
    Ok(sent)
}

/// The first of these acts sends a request of one end. It comes to the other, and what that answers comes back.
fn exchange(
    rt: &impl Print,
    alloc: Global,
    one: &mut End<'_>,
    other: &mut End<'_>,
    moment: Moment,
    acts: &mut Acts,
) -> anyhow::Result<()> {
    let Some(request) = print_next(rt, one.name, acts)? else {
        return Ok(());
    };
    let Some(answer) = hear(rt, alloc, other, moment, request)? else {
        return Ok(());
    };
    hear(rt, alloc, one, moment, answer)?;
    Ok(())
}

/// Half a minute later one end asks whether the other is there.
fn watch(
    rt: &impl Print,
    alloc: Global,
    one: &mut End<'_>,
    other: &mut End<'_>,
) -> anyhow::Result<()> {
    let moment = Moment(31_000);
    let mut acts = one.watch.on_tick(alloc, one.site, moment)?;
    exchange(rt, alloc, one, other, moment, &mut acts)
}

/// Then it goes.
fn part(
    rt: &impl Print,
    alloc: Global,
    one: &mut End<'_>,
    other: &mut End<'_>,
) -> anyhow::Result<()> {
    let moment = Moment(31_000);
    let mut acts = one.watch.close(alloc, one.site, moment)?;
    exchange(rt, alloc, one, other, moment, &mut acts)
}

/// The relay connects with this front, watches it, and disconnects.
fn print_life(
    rt: &impl Print,
    alloc: Global,
    relay: &WatchSite,
    front: &mut End<'_>,
) -> anyhow::Result<()> {
    let moment = Moment(1_000);
    let (watching, mut acts) = Watch::new(alloc, relay, Side::Connects(NodeNo(2)), moment)?;
    let mut one = End {
        name: "r1.example",
        site: relay,
        watch: watching,
    };
    exchange(rt, alloc, &mut one, front, moment, &mut acts)?;
    watch(rt, alloc, &mut one, front)?;
    part(rt, alloc, &mut one, front)
}

/// The same of a front that has not heard of a connection yet.
fn print_of(
    rt: &impl Print,
    alloc: Global,
    relay: &WatchSite,
    front: &WatchSite,
) -> anyhow::Result<()> {
    let (watching, _nothing) = Watch::new(alloc, front, Side::Accepts, Moment(1_000))?;
    let mut other = End {
        name: "f1.example",
        site: front,
        watch: watching,
    };
    print_life(rt, alloc, relay, &mut other)
}

/// The same of a front of this site.
fn print_with(rt: &impl Print, alloc: Global, front: &WatchSite) -> anyhow::Result<()> {
    let neighbour = (RELAY, "r1.example");
    let relay = watch_site(alloc, "r1.example", Application::Relay, neighbour)?;
    print_of(rt, alloc, &relay, front)
}

/// A relay connects with a front, watches it, and disconnects.
pub fn print_all(rt: &impl Print, alloc: Global) -> anyhow::Result<()> {
    let neighbour = (RELAY, "r1.example");
    let front = watch_site(alloc, "f1.example", Application::CreditControl, neighbour)?;
    print_with(rt, alloc, &front)
}
