//! A front, a relay and a client in one process, over TCP on this machine: what the client is answered to its debit, and what
//! each of them records.

ghost use Rattle.farm_base.specs.CheckedSite.{IsChecked};

use crate::site::{FRONT, RELAY, relay, site_of, site_text};
use dia_base::NodeNo;
use farm_access::Access;
use farm_base::Site;
use farm_client::{Sender, line_of, messages_of};
use farm_endpoints::{Endpoint, endpoint_of, endpoint_of_client, endpoint_of_relay};
use farm_event_loop::Live;
use farm_node::Node;
use log::sink::Console;
use log::{LevelFilter, Logged};
use relay_core::Relay;
use samples_given::{DEBIT, Fronts, fronts_of};
use std::alloc::Global;

/// The client c1.example.
const CLIENT: NodeNo = NodeNo(1);

/// How many turns each of them has at most, of 100 milliseconds where nothing happens.
const TURNS: u32 = 100;

/// A front, a relay and a client, each as a process would be.
#[derive(Drop)]
struct Farm<'a> {
    front: &'a mut Live<Fronts>,
    relay: &'a mut Live<Relay>,
    client: &'a mut Live<Sender>,
}

/// A process of one node.
pub fn live<N: Node + Drop>(
    rt: &HostRuntime,
    site: &Site,
    node: N,
    endpoint: Endpoint,
) -> anyhow::Result<Live<N>> {
    let endpoints = vec![in rt.alloc(); endpoint]?;
    Ok(Live::new(rt, rt.alloc(), site, node, endpoints)?)
}

/// Has a process recorded, which is this node.
fn record<N: Node + Drop>(
    rt: &HostRuntime,
    site: &Site,
    live: &mut Live<N>,
    node: NodeNo,
    is_client: bool,
) -> anyhow::Result<()> {
    let nodes = vec![in rt.alloc(); node]?;
    Ok(live.begin_record(rt, site, nodes, is_client)?)
}

/// A turn of a process, of which nothing is told.
fn turn<N: Node + Drop>(
    rt: &HostRuntime,
    site: &Site,
    access: &Access,
    live: &mut Live<N>,
) -> anyhow::Result<()> {
    let log = Logged::new(*rt, LevelFilter::Off, Console(*rt));
    Ok(live.turn(rt, &log, site, access)?)
}

/// Prints what a process has recorded: of each line the first word, but for moments.
fn print_record(rt: &HostRuntime, name: &str, lines: &[u8]) -> anyhow::Result<()> {
    print!(rt; "{name}:")?;
    for line in lines.split(|octet| *octet == b'\n') {
        let word = line.split(|octet| *octet == b' ').next();
        match word.and_then(|word| std::str::from_utf8(word).ok()) {
            None | Some("" | "time") => {}
            Some(word) => print!(rt; " {word}")?,
        }
    }
    println!(rt; "")?;
    Ok(())
}

fn front_of(rt: &HostRuntime, site: &Site) -> anyhow::Result<Live<Fronts>>
    requires { IsChecked site.now }
{
    let endpoint = endpoint_of(rt.alloc(), site, FRONT)?;
    let fronts = fronts_of(rt.alloc(), &[(FRONT, "f1.example")])?;
    live(rt, site, fronts, endpoint)
}

/// The relay r1.example of a site.
pub fn relay_of(rt: &HostRuntime, site: &Site) -> anyhow::Result<Live<Relay>>
    requires { IsChecked site.now }
{
    let endpoint = endpoint_of_relay(rt.alloc(), site, b"r1.example")?;
    live(rt, site, relay(rt.alloc(), site)?, endpoint)
}

/// The client, which has the debit to send.
fn sender(alloc: Global) -> anyhow::Result<Sender> {
    Ok(Sender::new(alloc, messages_of(alloc, DEBIT.as_bytes())?))
}

fn client_of(rt: &HostRuntime, site: &Site) -> anyhow::Result<Live<Sender>>
    requires { IsChecked site.now }
{
    let endpoint = endpoint_of_client(rt.alloc(), site, b"c1.example", b"r1.example")?;
    live(rt, site, sender(rt.alloc())?, endpoint)
}

impl Farm<'_> {
    /// Turns of the front and the relay until they are connected, and one more, in which the relay listens.
    fn connect(&mut self, rt: &HostRuntime, site: &Site, access: &Access) -> anyhow::Result<()> {
        for _ in 0..TURNS {
            turn(rt, site, access, self.front)?;
            let links = self.relay.serving.links();
            let is_up = links.iter().any(|link| link.standing.peer().is_some());
            turn(rt, site, access, self.relay)?;
            if is_up {
                break;
            }
        }
        Ok(())
    }

    /// Turns of all three until the client is answered.
    fn ask(&mut self, rt: &HostRuntime, site: &Site, access: &Access) -> anyhow::Result<()> {
        for _ in 0..TURNS {
            turn(rt, site, access, self.client)?;
            turn(rt, site, access, self.relay)?;
            turn(rt, site, access, self.front)?;
            if self.client.serving.node().is_done() {
                break;
            }
        }
        Ok(())
    }

    /// The client begins once the relay listens. All three are recorded. Prints what has come of it.
    fn run(&mut self, rt: &HostRuntime, site: &Site, access: &Access) -> anyhow::Result<()> {
        record(rt, site, self.front, FRONT, false)?;
        record(rt, site, self.relay, RELAY, false)?;
        self.connect(rt, site, access)?;
        self.client.listens_nowhere();
        record(rt, site, self.client, CLIENT, true)?;
        self.ask(rt, site, access)?;
        self.print(rt)
    }

    /// Prints what the client is answered, and what each of the three has recorded.
    fn print(&self, rt: &HostRuntime) -> anyhow::Result<()> {
        for answer in self.client.serving.node().answers() {
            rt.print(&line_of(rt.alloc(), answer)?)?;
        }
        print_record(rt, "client", self.client.serving.recorder().lines())?;
        print_record(rt, "relay", self.relay.serving.recorder().lines())?;
        print_record(rt, "front", self.front.serving.recorder().lines())
    }
}

/// Runs the farm of a site with this front and this relay.
fn run_client(
    rt: &HostRuntime,
    site: &Site,
    access: &Access,
    front: &mut Live<Fronts>,
    relay: &mut Live<Relay>,
) -> anyhow::Result<()>
    requires { IsChecked site.now }
{
    let mut client = client_of(rt, site)?;
    let mut farm = Farm {
        front,
        relay,
        client: &mut client,
    };
    farm.run(rt, site, access)
}

/// The same with this front.
fn run_relay(
    rt: &HostRuntime,
    site: &Site,
    access: &Access,
    front: &mut Live<Fronts>,
) -> anyhow::Result<()>
    requires { IsChecked site.now }
{
    let mut relay = relay_of(rt, site)?;
    run_client(rt, site, access, front, &mut relay)
}

/// Runs the farm of a site.
fn run(rt: &HostRuntime, site: &Site, access: &Access) -> anyhow::Result<()>
    requires { IsChecked site.now }
{
    let mut front = front_of(rt, site)?;
    run_relay(rt, site, access, &mut front)
}

/// Prints what the client is answered, and what each of the three has recorded.
pub fn print(rt: &HostRuntime) -> anyhow::Result<()> {
    let text = site_text(rt)?;
    let access = Access::read(rt.alloc(), text.as_bytes())?;
    let site = site_of(rt.alloc(), &text)?;
    run(rt, &site, &access)
}
