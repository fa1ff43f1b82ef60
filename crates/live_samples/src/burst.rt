//! A relay whose client has sent 4 MB, and whose front takes 64,000 octets a turn: more than may wait on a connection has come
//! at once, and the connection with the front stands.

ghost use Rattle.farm_base.specs.CheckedSite.{IsChecked};

use crate::site::{FRONT, RELAY, relay, site_here};
use dia_avp::ViewWire;
use dia_base::ConnId;
use farm_base::Site;
use farm_connections::{LocalNode, NameRule, Refusal, Serving};
use farm_endpoints::endpoint_of_relay;
use farm_event_loop::{Outgoing, PIECE};
use relay_core::Relay;
use samples_given::{
    CEA, CLIENT_CER, DEBIT, MOMENT, Served, Ways, accept, end_of, octets, stream_of, unsent,
    written,
};
use std::alloc::Global;

/// How many requests, of 248 octets each. A relay may await 16,384 answers.
const REQUESTS: usize = 16_000;

/// How many turns: to write what the requests come to takes 68.
const TURNS: u32 = 80;

/// How many octets a call writes at most: so 64,000 a turn.
const CALL: usize = 1_000;

/// The client's capabilities, and this request again and again.
fn asked(alloc: Global, request: &[u8]) -> anyhow::Result<Vec<u8>> {
    let mut asked = octets(alloc, &[CLIENT_CER])?;
    for _ in 0..REQUESTS {
        asked.extend_from_slice(request)?;
    }
    Ok(asked)
}

/// The client's capabilities, and its debits.
fn debits(alloc: Global) -> anyhow::Result<Vec<u8>> {
    let debit = octets(alloc, &[DEBIT])?;
    asked(alloc, &debit)
}

/// What its connections know of it.
fn locals(alloc: Global, site: &Site) -> anyhow::Result<Vec<LocalNode>>
    requires { IsChecked site.now }
{
    let endpoint = endpoint_of_relay(alloc, site, b"r1.example")?;
    let local = LocalNode {
        node: endpoint.node,
        site: endpoint.watch,
    };
    Ok(vec![in alloc; local]?)
}

/// The relay without connections.
fn serving<'a>(alloc: Global, site: &Site) -> anyhow::Result<Served<'a, Relay>>
    requires { IsChecked site.now }
{
    let locals = locals(alloc, site)?;
    Ok(Serving::new(alloc, relay(alloc, site)?, locals))
}

/// A turn: the front is read, the client unless it has to wait for that, and both are written. Whether the client was read.
fn turn(
    site: &Site,
    serving: &mut Served<'_, Relay>,
    outgoing: &mut Outgoing,
    front: ConnId,
    client: ConnId,
) -> anyhow::Result<bool> {
    let mut piece = [0u8; PIECE];
    outgoing.find(site, serving)?;
    serving.readable::<ViewWire>(front, &mut piece, usize::MAX, MOMENT);
    outgoing.look(serving, MOMENT);
    let most = outgoing.most_on(site, serving, client, MOMENT, MOMENT);
    if most > 0 {
        serving.readable::<ViewWire>(client, &mut piece, most, MOMENT);
    }
    serving.write_all::<ViewWire>(MOMENT);
    Ok(most > 0)
}

/// All turns. In how many of them the client was read.
fn take_turns(
    alloc: Global,
    site: &Site,
    serving: &mut Served<'_, Relay>,
    front: ConnId,
    client: ConnId,
) -> anyhow::Result<u32> {
    let mut outgoing = Outgoing::new(alloc, site.watchdog, MOMENT);
    let mut reads: u32 = 0;
    for _ in 0..TURNS {
        if turn(site, serving, &mut outgoing, front, client)? {
            reads = reads.saturating_add(1);
        }
    }
    Ok(reads)
}

/// Prints what the front has taken, and how it stands.
fn print_front(rt: &impl Print, serving: &Served<'_, Relay>, front: ConnId) -> anyhow::Result<()> {
    let taken = written(serving, front).len();
    let wait = unsent(serving, front);
    println!(rt; "the front has taken {taken} octets, {wait} wait")?;
    match end_of(serving, front) {
        Some(why) => println!(rt; "the front: {why}")?,
        None => println!(rt; "the front stands")?,
    }
    Ok(())
}

/// The relay connects to the front.
fn connect<'a>(
    alloc: Global,
    serving: &mut Served<'a, Relay>,
    greeted: &'a [u8],
) -> Result<ConnId, Refusal> {
    let reader = stream_of(greeted, Ways::sound());
    let writer = stream_of(Vec::new(alloc), Ways::few(CALL));
    match serving.connect(RELAY, FRONT, NameRule::Any, reader, writer, MOMENT) {
        Ok(conn) => Ok(conn),
        Err(refused) => Err(refused.why),
    }
}

/// Serves the front and the client. Prints what becomes of it.
fn run<'a>(
    rt: &impl Print,
    alloc: Global,
    site: &Site,
    serving: &mut Served<'a, Relay>,
    greeted: &'a [u8],
    asked: &'a [u8],
) -> anyhow::Result<()> {
    let front = connect(alloc, serving, greeted)?;
    let writes = Ways::few(CALL);
    let client = accept(alloc, serving, RELAY, asked, Ways::sound(), writes)?;
    let reads = take_turns(alloc, site, serving, front, client)?;
    println!(rt; "the client is read in {reads} of {TURNS} turns")?;
    print_front(rt, serving, front)
}

/// The same with these octets.
fn print_of(
    rt: &impl Print,
    alloc: Global,
    site: &Site,
    greeted: &[u8],
    asked: &[u8],
) -> anyhow::Result<()>
    requires { IsChecked site.now }
{
    let mut serving = serving(alloc, site)?;
    run(rt, alloc, site, &mut serving, greeted, asked)
}

/// Prints what becomes of it.
pub fn print(rt: &HostRuntime) -> anyhow::Result<()> {
    let alloc = rt.alloc();
    let site = site_here(rt)?;
    let greeted = octets(alloc, &[CEA])?;
    let asked = debits(alloc)?;
    print_of(rt, alloc, &site, &greeted, &asked)
}
